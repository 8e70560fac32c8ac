// Signs, the longest first.

ghost use Rattle.std.specs.Prelude.{◌≡◌, ◌≤◌, length, drop};
ghost use Rattle.ae_vtoken.specs.Tokens.{look_up};
ghost use Rattle.ae_vtoken.specs.Tables.{signs};
ghost use Rattle.ae_vtoken.specs.Scan.{sign_in_front};

use crate::token::Sign;

/// The sign that n bytes are.
#[tactic(auto, unfolding(crate::specs::Scan::sign_in_front))]
pub fn front_sign(text: &[u8], from: usize, n: usize) -> Option<Sign>
    requires { from ≤ length text.now }
    ensures { result ≡ sign_in_front n (drop from text.now) }
{
    if n <= text.len() - from {
        sign_of(&text[from..from + n])
    } else {
        None
    }
}

/// The sign that a piece of text is.
#[tactic(auto, unfolding(crate::specs::Tables::signs))]
fn sign_of(piece: &[u8]) -> Option<Sign>
    ensures { result ≡ look_up piece.now signs }
{
    match piece {
        b"(" => Some(Sign::Open),
        b")" => Some(Sign::Close),
        b"[" => Some(Sign::OpenBracket),
        b"]" => Some(Sign::CloseBracket),
        b"{" => Some(Sign::OpenBrace),
        b"}" => Some(Sign::CloseBrace),
        b"," => Some(Sign::Comma),
        b";" => Some(Sign::Semicolon),
        b":" => Some(Sign::Colon),
        b"?" => Some(Sign::Question),
        b"@" => Some(Sign::At),
        b"=" => Some(Sign::Equals),
        b"+" => Some(Sign::Plus),
        b"-" => Some(Sign::Minus),
        b"*" => Some(Sign::Star),
        b"&" => Some(Sign::Amp),
        b"|" => Some(Sign::Bar),
        b"^" => Some(Sign::Caret),
        b"~" => Some(Sign::Tilde),
        b"!" => Some(Sign::Bang),
        b"<" => Some(Sign::Less),
        b">" => Some(Sign::Greater),
        b"<=" => Some(Sign::AtMost),
        b">=" => Some(Sign::AtLeast),
        b"==" => Some(Sign::Same),
        b"!=" => Some(Sign::Differs),
        b"&&" => Some(Sign::BothAmp),
        b"||" => Some(Sign::BothBar),
        b"<<" => Some(Sign::ShiftLeft),
        b">>" => Some(Sign::ShiftRight),
        b"^~" => Some(Sign::XnorLeft),
        b"~^" => Some(Sign::XnorRight),
        _ => None,
    }
}
