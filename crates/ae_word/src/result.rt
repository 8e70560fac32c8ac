// What the operators on words compute.

ghost use Rattle.std.specs.Prelude.{◌≡◌, ◌<◌, ◌-◌, ◌*◌, ◌/◌, ◌%◌, ◌^◌, ◌-ℤ◌, pos, nat_lt, not, int_lt};
ghost use Rattle.std.specs.Int.{int_div_euclid, int_max, int_min};
ghost use Rattle.ae_word.specs.WordTable.{HasRange, OperandsFit, code, signed_value, word_result};

use crate::op::{WordOp, result_width};
use crate::width::Width;

/// The operator's result on the words that it uses: for a choice the condition, the first arm and the second arm.
/// `width` is that of the operands, for a choice that of the arms. Signed words are codes of two's complement.
pub fn apply(op: WordOp, width: Width, a: u64, b: u64, c: u64) -> u64
    requires range { HasRange op }
    requires fit { OperandsFit op width a b c }
    ensures { result ≡ word_result op width a b c }
{
    match op {
        WordOp::Add => low_bits(a as u128 + b as u128, width),
        WordOp::Sub => difference(a, b, width),
        WordOp::Mul => low_bits(a as u128 * b as u128, width),
        WordOp::And => a & b,
        WordOp::Or => a | b,
        WordOp::Xor => a ^ b,
        WordOp::Not => complement(a, width),
        WordOp::Min => a.min(b),
        WordOp::Max => a.max(b),
        WordOp::Eq => u64::from(a == b),
        WordOp::Lt => u64::from(a < b),
        WordOp::Mux => { if a == 1 { b } else { c } }
        WordOp::Shl(k) => moved_up(a, k, width),
        WordOp::Shr(k) => moved_down(a, k),
        WordOp::Cast(_) => low_bits(a as u128, result_width(op, width)),
        WordOp::SLt => u64::from(is_below(a, b, width)),
        WordOp::SMin => signed_min(a, b, width),
        WordOp::SMax => signed_max(a, b, width),
        WordOp::Sar(k) => signed_moved_down(a, k, width),
        WordOp::SCast(_) => signed_low_bits(a, width, result_width(op, width)),
    }
}

/// Whether a number is a word of the width: below 2 to the width.
pub fn fits_width(number: u64, width: u32) -> bool
    ensures { result ≡ nat_lt number (2 ^ width) }
{
    width >= 64 || number < 1 << width
}

/// The low bits of a number.
fn low_bits(x: u128, width: Width) -> u64
    ensures { result ≡ x % 2 ^ width }
{
    (x % (1u128 << width.bits())) as u64
}

/// The difference of two words.
fn difference(a: u64, b: u64, width: Width) -> u64
    requires a_fits { a < 2 ^ width }
    requires b_fits { b < 2 ^ width }
    ensures { result ≡ code width (pos a -ℤ pos b) }
{
    low_bits(a as u128 + complement(b, width) as u128 + 1, width)
}

/// The word with each bit turned over.
fn complement(a: u64, width: Width) -> u64
    requires { a < 2 ^ width }
    ensures { result ≡ 2 ^ width - 1 - a }
{
    ((1u128 << width.bits()) - 1 - a as u128) as u64
}

/// The low bits of a word that is moved up.
fn moved_up(a: u64, by: u32, width: Width) -> u64
    ensures { result ≡ (a * 2 ^ by) % 2 ^ width }
{
    if by < 64 {
        low_bits((a as u128) << by, width)
    } else {
        0
    }
}

/// A word that is moved down.
fn moved_down(a: u64, by: u32) -> u64
    ensures { result ≡ a / 2 ^ by }
{
    if by < 64 { a >> by } else { 0 }
}

/// Whether the code is that of a number below 0.
fn is_negative(a: u64, width: Width) -> bool
    ensures { result ≡ not (nat_lt a (2 ^ (width - 1))) }
{
    a >= 1 << (width.bits() - 1)
}

/// Whether the one signed word is below the other.
fn is_below(a: u64, b: u64, width: Width) -> bool
    requires a_fits { a < 2 ^ width }
    requires b_fits { b < 2 ^ width }
    ensures { result ≡ int_lt (signed_value width a) (signed_value width b) }
{
    match (is_negative(a, width), is_negative(b, width)) {
        (true, false) => true,
        (false, true) => false,
        _ => a < b,
    }
}

/// The smaller of two signed words.
#[tactic(auto, using(crate::proofs::Signed::signed_choices))]
fn signed_min(a: u64, b: u64, width: Width) -> u64
    requires a_fits { a < 2 ^ width }
    requires b_fits { b < 2 ^ width }
    ensures { result ≡ code width (int_min (signed_value width a) (signed_value width b)) }
{
    if is_below(b, a, width) { b } else { a }
}

/// The greater of two signed words.
#[tactic(auto, using(crate::proofs::Signed::signed_choices))]
fn signed_max(a: u64, b: u64, width: Width) -> u64
    requires a_fits { a < 2 ^ width }
    requires b_fits { b < 2 ^ width }
    ensures { result ≡ code width (int_max (signed_value width a) (signed_value width b)) }
{
    if is_below(b, a, width) { a } else { b }
}

/// A signed word that is moved down, rounded down.
fn signed_moved_down(a: u64, by: u32, width: Width) -> u64
    requires { a < 2 ^ width }
    ensures { result ≡ code width (int_div_euclid (signed_value width a) (pos (2 ^ by))) }
{
    if is_negative(a, width) {
        complement(moved_down(complement(a, width), by), width)
    } else {
        moved_down(a, by)
    }
}

/// The low bits of a signed word's value.
fn signed_low_bits(a: u64, width: Width, to: Width) -> u64
    requires { a < 2 ^ width }
    ensures { result ≡ code to (signed_value width a) }
{
    if is_negative(a, width) {
        complement(low_bits(complement(a, width) as u128, to), to)
    } else {
        low_bits(a as u128, to)
    }
}
