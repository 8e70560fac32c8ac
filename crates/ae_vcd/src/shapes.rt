// What single words are.

ghost use Rattle.std.specs.Prelude.{◌≡◌, ◌≤◌, ◌^◌, ◌&&◌, ◌||◌, true, false, nat_lt, codes, MatchOption, Some, None, if◌then◌else◌};
ghost use Rattle.std.specs.List.{list_all};
ghost use Rattle.std.specs.Str.{all_ascii_digits, bytes_eq};
ghost use Rattle.std.specs.Str.Parse.{AllDigits, digits_value};
ghost use Rattle.ae_vcd.specs.Waves.{is_code, is_graphic, is_variable_name};
ghost use Rattle.ae_vcd.specs.Forms.{end_word, is_binary, is_binary_digit, is_number, is_other, is_silent, is_time, is_width};

fn is_graphic(byte: u8) -> bool
    ensures { result ≡ is_graphic byte }
{
    33 <= byte && byte <= 126
}

fn are_graphic(bytes: &[u8]) -> bool
    ensures { result ≡ list_all is_graphic bytes.now }
{
    for byte in bytes {
        if !is_graphic(*byte) {
            return false;
        }
    }
    true
}

/// Whether a word can be a code: one byte or more from `!` to `~`.
pub fn is_code(word: &[u8]) -> bool
    ensures { result ≡ is_code word.now }
{
    let [first, rest @ ..] = word else {
        return false;
    };
    is_graphic(*first) && are_graphic(rest)
}

/// Whether a word can be a name: a code that does not begin with `$`.
pub fn is_name(word: &[u8]) -> bool
    ensures { result ≡ is_variable_name word.now }
{
    let [first, rest @ ..] = word else {
        return false;
    };
    *first != b'$' && is_graphic(*first) && are_graphic(rest)
}

fn are_digits(bytes: &[u8]) -> bool
    ensures { result ≡ all_ascii_digits bytes.now }
{
    for byte in bytes {
        if !(*byte >= b'0' && *byte <= b'9') {
            return false;
        }
    }
    true
}

// The number that digits write, if it has at most 64 bits.
fn value(digits: &[u8], radix: u64) -> Option<u64>
    requires some { 1 ≤ radix }
    requires radix { radix ≤ 10 }
    requires digits { AllDigits radix digits.now }
    ensures { result ≡ (if nat_lt (digits_value radix digits.now) (2 ^ 64) then Some (digits_value radix digits.now) else None) }
{
    let mut value: u64 = 0;
    for digit in digits {
        let Some(shifted) = value.checked_mul(radix) else {
            return None;
        };
        let Some(sum) = shifted.checked_add(u64::from(*digit - b'0')) else {
            return None;
        };
        value = sum;
    }
    Some(value)
}

// The number that one decimal digit or more write, if it has at most 64 bits.
#[tactic(auto, using(crate::proofs::Numbers::decimal_digits))]
fn decimal(digits: &[u8]) -> Option<u64>
    ensures { MatchOption result ((is_number digits.now && nat_lt (digits_value 10 digits.now) (2 ^ 64)) ≡ false) (λ n. (is_number digits.now ≡ true) × (n ≡ digits_value 10 digits.now)) }
{
    if digits.is_empty() || !are_digits(digits) {
        return None;
    }
    value(digits, 10)
}

/// The width that a word writes: a decimal number from 1 to 64.
pub fn width(word: &[u8]) -> Option<u32>
    ensures { MatchOption result (is_width word.now ≡ false) (λ n. (is_width word.now ≡ true) × (n ≡ digits_value 10 word.now)) }
{
    let value = decimal(word)?;
    if value < 1 || value > 64 {
        return None;
    }
    Some(value as u32)
}

/// The time that 1 to 20 decimal digits write, below 2^64.
pub fn time(digits: &[u8]) -> Option<u64>
    ensures { MatchOption result (is_time digits.now ≡ false) (λ n. (is_time digits.now ≡ true) × (n ≡ digits_value 10 digits.now)) }
{
    if digits.len() > 20 {
        return None;
    }
    decimal(digits)
}

fn are_binary(bytes: &[u8]) -> bool
    ensures { result ≡ list_all is_binary_digit bytes.now }
{
    for byte in bytes {
        if !(*byte == b'0' || *byte == b'1') {
            return false;
        }
    }
    true
}

/// The number that one binary digit or more write, if it has at most 64 bits.
#[tactic(auto, using(crate::proofs::Numbers::binary_digits))]
pub fn binary(digits: &[u8]) -> Option<u64>
    ensures { MatchOption result ((is_binary digits.now && nat_lt (digits_value 2 digits.now) (2 ^ 64)) ≡ false) (λ n. (is_binary digits.now ≡ true) × (n ≡ digits_value 2 digits.now)) }
{
    if digits.is_empty() || !are_binary(digits) {
        return None;
    }
    value(digits, 2)
}

/// Whether a number is below 2 to the width.
pub fn fits(value: u64, width: u32) -> bool
    ensures { result ≡ nat_lt value (2 ^ width) }
{
    width >= 64 || value < 1 << width
}

/// Whether a word is one that says nothing between pieces.
pub fn is_silent(word: &[u8]) -> bool
    ensures { result ≡ is_silent word.now }
{
    word == b"$dumpvars".as_slice()
        || word == b"$dumpall".as_slice()
        || word == b"$dumpon".as_slice()
        || word == b"$end".as_slice()
}

/// Whether a word ends a command or a comment.
pub fn is_end(word: &[u8]) -> bool
    ensures { result ≡ bytes_eq word.now end_word }
{
    word == b"$end".as_slice()
}

/// Whether a word begins a comment.
pub fn is_comment(word: &[u8]) -> bool
    ensures { result ≡ bytes_eq word.now (codes "$comment") }
{
    word == b"$comment".as_slice()
}

/// Whether a word begins a command that is no declaration and not the end of the header.
pub fn is_other(word: &[u8]) -> bool
    ensures { result ≡ is_other word.now }
{
    let [first, ..] = word else {
        return false;
    };
    *first == b'$'
        && word != b"$var".as_slice()
        && !is_end(word)
        && word != b"$enddefinitions".as_slice()
}
