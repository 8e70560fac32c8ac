// Sized constants.

ghost use Rattle.std.specs.Prelude.{◌≡◌, ◌≤◌, ◌<◌, ◌+◌, ◌-◌, ◌*◌, ◌^◌, ◌==◌, ℕ, List, length, drop, take, get_or, true, false, not, min, filter, nat_lt, ◌⊎◌};
ghost use Rattle.std.specs.Char.{is_ascii_digit, digit_value};
ghost use Rattle.std.specs.List.{list_all};
ghost use Rattle.std.specs.Str.Parse.{digits_value};
ghost use Rattle.ae_vtoken.specs.Tokens.{is_word_start, base_of, constant};
ghost use Rattle.ae_vtoken.specs.Scan.{NoSized, IsSizedAt, TokenAt, is_based, token_view};

use crate::decimals::capped;
use crate::token::Token;

/// Whether a quote stands at the place.
fn quote_at(text: &[u8], at: usize) -> bool
    ensures there { result ≡ true → (at < length text.now) × (get_or text.now at 0 ≡ 39) }
    ensures none { result ≡ false → at < length text.now → (get_or text.now at 0 == 39) ≡ false }
{
    if at < text.len() {
        text[at] == 39
    } else {
        false
    }
}

/// Whether the digits from a place to a quote are the size of a constant.
pub fn is_sized(text: &[u8], from: usize, quote: usize) -> bool
    requires { (from < quote) × (quote ≤ length text.now) }
    ensures sized { result ≡ true → IsSizedAt text.now from quote }
    ensures none { result ≡ false → quote < length text.now → ((get_or text.now quote 0 == 39) ≡ false) ⊎ NoSized (take (quote - from) (drop from text.now)) (drop (quote + 1) text.now) }
{
    if !quote_at(text, quote) {
        return false;
    }
    if text[from] == 48 {
        return false;
    }
    base_digit_at(text, quote + 1)
}

/// Whether a base and a digit of it stand at the place.
fn base_digit_at(text: &[u8], at: usize) -> bool
    requires { at ≤ length text.now }
    ensures there { result ≡ true → (at + 1 < length text.now) × (nat_lt (digit_value (get_or text.now (at + 1) 0)) (base_of (get_or text.now at 0)) ≡ true) }
    ensures none { result ≡ false → (size : List ℕ) → NoSized size (drop at text.now) }
{
    if text.len() - at < 2 {
        return false;
    }
    digit_value(text[at + 1]) < base_of(text[at])
}

/// The base that a letter names, or 0.
fn base_of(b: u8) -> u8
    ensures { result ≡ base_of b }
{
    if b == 98 || b == 66 {
        2
    } else if b == 111 || b == 79 {
        8
    } else if b == 100 || b == 68 {
        10
    } else if b == 104 || b == 72 {
        16
    } else {
        0
    }
}

fn digit_value(c: u8) -> u8
    ensures { result ≡ digit_value c }
{
    if c < 48 {
        36
    } else if c < 58 {
        c - 48
    } else if c < 65 {
        36
    } else if c < 91 {
        c - 55
    } else if c < 97 {
        36
    } else if c < 123 {
        c - 87
    } else {
        36
    }
}

/// Whether the digits of a base go on with the byte.
fn is_based(base: u8, c: u8) -> bool
    ensures { result ≡ is_based base c }
{
    c == b'_' || digit_value(c) < base
}

/// The place behind the digits of a base and the `_` at from.
fn based_end(text: &[u8], from: usize, base: u8) -> usize
    requires { from ≤ length text.now }
    ensures within { (from ≤ result) × (result ≤ length text.now) }
    ensures all { list_all (is_based base) (take (result - from) (drop from text.now)) ≡ true }
    ensures ends { result < length text.now → is_based base (get_or text.now result 0) ≡ false }
{
    let mut i = from;
    'based: while i < text.len() {
        if !is_based(base, text[i]) {
            return i;
        }
        i += 1;
    }
    i
}

/// The value with one byte more, or 2 to the 64.
fn more(value: u128, base: u8, c: u8) -> u128
    requires { value ≤ 2 ^ 64 }
    ensures kept { (c == 95) ≡ true → result ≡ value }
    ensures grown { (c == 95) ≡ false → result ≡ min (value * base + digit_value c) (2 ^ 64) }
{
    if c == b'_' {
        return value;
    }
    (value * u128::from(base) + u128::from(digit_value(c))).min(18446744073709551616)
}

/// The value of digits among `_`, or 2 to the 64.
fn based_value(digits: &[u8], base: u8) -> u128
    ensures { result ≡ min (digits_value base (filter (λ c. not (c == 95)) digits.now)) (2 ^ 64) }
{
    let mut value: u128 = 0;
    'digit: for c in digits {
        value = more(value, base, *c);
    }
    value
}

fn constant<'a>(size: u32, value: u128) -> Token<'a>
    ensures { (s v : ℕ) → size ≡ min s 4294967295 → value ≡ min v (2 ^ 64) → token_view result ≡ constant s v }
{
    if size <= 64 && value < (1u128 << size) {
        Token::Sized {
            size: size as u8,
            value: value as u64,
            fits: true,
        }
    } else {
        Token::Sized {
            size: 0,
            value: 0,
            fits: false,
        }
    }
}

/// The sized constant at from, whose size ends at the quote, and the place behind it.
pub fn sized<'a>(text: &'a [u8], from: usize, quote: usize) -> (Token<'a>, usize)
    requires first { is_word_start (get_or text.now from 0) ≡ false }
    requires digits { list_all is_ascii_digit (take (quote - from) (drop from text.now)) ≡ true }
    requires sized { IsSizedAt text.now from quote }
    ensures { TokenAt text.now from result.1 (token_view result.0) }
{
    let base = base_of(text[quote + 1]);
    let end = based_end(text, quote + 2, base);
    let size = capped(&text[from..quote]);
    let value = based_value(&text[quote + 2..end], base);
    (constant(size, value), end)
}
