// Decimal numbers.

ghost use Rattle.std.specs.Prelude.{ℕ, ◌≤◌, MatchOption, ◌≡◌, ◌^◌, ◌<◌, Option, Some, None, IsTrue, true, false, length, get_or, if◌then◌else◌, nat_lt};
ghost use Rattle.std.specs.Fmt.{decimal};
ghost use Rattle.std.specs.Str.{all_ascii_digits};
ghost use Rattle.std.specs.Str.Parse.{digits_value};
ghost use Rattle.ae_fields.specs.Number.{numeral_value, plain_of};

fn are_digits(bytes: &[u8]) -> bool
    ensures { result ≡ all_ascii_digits bytes.now }
{
    for byte in bytes {
        if !(*byte >= b'0' && *byte <= b'9') {
            return false;
        }
    }
    true
}

// The number that digits write, if it has at most 64 bits.
fn value(digits: &[u8]) -> Option<u64>
    requires { IsTrue (all_ascii_digits digits.now) }
    ensures { result ≡ (if nat_lt (digits_value 10 digits.now) (2 ^ 64) then Some (digits_value 10 digits.now) else None) }
{
    let mut value: u64 = 0;
    for digit in digits {
        let Some(tens) = value.checked_mul(10) else {
            return None;
        };
        let Some(sum) = tens.checked_add(u64::from(*digit - b'0')) else {
            return None;
        };
        value = sum;
    }
    Some(value)
}

/// The number that 1 to 20 decimal digits write, leading zeros allowed, if it is below 2^64.
pub fn number(digits: &[u8]) -> Option<u64>
    ensures { result ≡ numeral_value digits.now }
{
    if digits.is_empty() || digits.len() > 20 || !are_digits(digits) {
        return None;
    }
    value(digits)
}

// Whether a zero stands before other bytes.
fn has_leading_zero(digits: &[u8]) -> bool
    ensures there { result ≡ true → (1 < length digits.now) × (get_or digits.now 0 0 ≡ 48) }
    ensures none { result ≡ false → get_or digits.now 0 0 ≡ 48 → length digits.now ≤ 1 }
{
    digits.len() > 1 && digits[0] == b'0'
}

/// The number from `low` to `high` that the bytes write without leading zeros.
pub fn plain_number(digits: &[u8], low: u32, high: u32) -> Option<u32>
    ensures { MatchOption result ((n : ℕ) → low ≤ n → n ≤ high → digits.now ≡ decimal n → ⊥) (λ n. (low ≤ n) × (n ≤ high) × (digits.now ≡ decimal n)) }
{
    if has_leading_zero(digits) {
        return None;
    }
    let Some(value) = number(digits) else {
        return None;
    };
    if value < u64::from(low) || value > u64::from(high) {
        return None;
    }
    Some(value as u32)
}

// The same number.
pub fn plain(digits: &[u8], low: u32, high: u32) -> Option<u32>
    ensures { result ≡ plain_of low high digits.now }
{
    plain_number(digits, low, high)
}
