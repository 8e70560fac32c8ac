// Decimals.

ghost use Rattle.std.specs.Prelude.{◌≡◌, ◌≤◌, ◌<◌, ◌+◌, ◌-◌, length, drop, take, get_or, true, false, min};
ghost use Rattle.std.specs.List.{list_all};
ghost use Rattle.std.specs.Char.{is_ascii_digit};
ghost use Rattle.std.specs.Str.Parse.{digits_value};
ghost use Rattle.ae_vtoken.specs.Tokens.{decimal_of};
ghost use Rattle.ae_vtoken.specs.Scan.{token_view};

use crate::token::Token;
use crate::words::is_same;

/// The place behind the digits at from.
pub fn digits_end(text: &[u8], from: usize) -> usize
    requires { from ≤ length text.now }
    ensures within { (from ≤ result) × (result ≤ length text.now) }
    ensures all { list_all is_ascii_digit (take (result - from) (drop from text.now)) ≡ true }
    ensures ends { result < length text.now → is_ascii_digit (get_or text.now result 0) ≡ false }
{
    let mut i = from;
    'digit: while i < text.len() {
        if !text[i].is_ascii_digit() {
            return i;
        }
        i += 1;
    }
    i
}

/// The value of digits, or the greatest u32.
pub fn capped(digits: &[u8]) -> u32
    requires { list_all is_ascii_digit digits.now ≡ true }
    ensures { result ≡ min (digits_value 10 digits.now) 4294967295 }
{
    let mut value: u64 = 0;
    for d in digits {
        value = (value * 10 + (*d - b'0') as u64).min(4294967295);
    }
    value as u32
}

/// Digits as a token.
pub fn decimal<'a>(piece: &'a [u8]) -> Token<'a>
    requires { list_all is_ascii_digit piece.now ≡ true }
    ensures { token_view result ≡ decimal_of piece.now }
{
    if is_same(piece, "0") {
        Token::Zero
    } else {
        Token::Decimal(capped(piece))
    }
}
