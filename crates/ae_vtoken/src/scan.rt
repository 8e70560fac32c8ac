// The token at a place of a text.

ghost use Rattle.std.specs.Prelude.{◌<◌, length, drop, IfSome, IfNone};
ghost use Rattle.ae_vtoken.specs.Tokens.{NoToken};
ghost use Rattle.ae_vtoken.specs.Scan.{token_view, TokenAt};

use crate::decimals::{decimal, digits_end};
use crate::marks::front_sign;
use crate::sized::{is_sized, sized};
use crate::token::Token;
use crate::words::{is_letter, word, word_end};

/// The longest token at a place, and the place behind it.
pub fn token_at<'a>(text: &'a [u8], from: usize) -> Option<(Token<'a>, usize)>
    requires { from < length text.now }
    ensures found { IfSome result (λ x. TokenAt text.now from x.1 (token_view x.0)) }
    ensures none { IfNone result (NoToken (drop from text.now)) }
{
    if is_letter(text[from]) {
        let end = word_end(text, from + 1);
        Some((word(&text[from..end]), end))
    } else if text[from].is_ascii_digit() {
        let end = digits_end(text, from + 1);
        if is_sized(text, from, end) {
            Some(sized(text, from, end))
        } else {
            Some((decimal(&text[from..end]), end))
        }
    } else {
        match front_sign(text, from, 2) {
            Some(sign) => Some((Token::Mark(sign), from + 2)),
            None => match front_sign(text, from, 1) {
                Some(sign) => Some((Token::Mark(sign), from + 1)),
                None => None,
            },
        }
    }
}
