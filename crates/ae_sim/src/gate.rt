// What one operator computes in one clock.

ghost use Rattle.std.specs.Prelude.{◌≡◌, ◌<◌, ◌≤◌, ◌-◌, ◌^◌, ℕ, false, length, get_or};
ghost use Rattle.ae_word.specs.WordTable.{OperandsFit, is_signed, result_width_of, word_result};

use ae_word::WordOp;

/// The operator's result on the words of three nets, which fit, where `mask` has the low bits of the result's width. Only
/// the words that the operator uses are read.
pub fn compute(op: WordOp, mask: u64, words: &[u64], a: u32, b: u32, c: u32) -> u64
    requires unsigned { is_signed op ≡ false }
    requires first { a < length words.now }
    requires second { b < length words.now }
    requires third { c < length words.now }
    ensures { (w : ℕ) → w ≤ 64 → mask ≡ 2 ^ result_width_of op w - 1 → OperandsFit op w (get_or words.now a 0) (get_or words.now b 0) (get_or words.now c 0) → result ≡ word_result op w (get_or words.now a 0) (get_or words.now b 0) (get_or words.now c 0) }
{
    let first = words[a as usize];
    match op {
        WordOp::Add => first.wrapping_add(words[b as usize]) & mask,
        WordOp::Sub => first.wrapping_sub(words[b as usize]) & mask,
        WordOp::Mul => first.wrapping_mul(words[b as usize]) & mask,
        WordOp::And => first & words[b as usize],
        WordOp::Or => first | words[b as usize],
        WordOp::Xor => first ^ words[b as usize],
        WordOp::Not => mask.wrapping_sub(first),
        WordOp::Min => first.min(words[b as usize]),
        WordOp::Max => first.max(words[b as usize]),
        WordOp::Eq => u64::from(first == words[b as usize]),
        WordOp::Lt => u64::from(first < words[b as usize]),
        WordOp::Mux => {
            if first == 1 {
                words[b as usize]
            } else {
                words[c as usize]
            }
        }
        WordOp::Shl(k) => { if k < 64 { (first << k) & mask } else { 0 } }
        WordOp::Shr(k) => { if k < 64 { first >> k } else { 0 } }
        WordOp::Cast(_) => first & mask,
        WordOp::SLt | WordOp::SMin | WordOp::SMax | WordOp::Sar(_) | WordOp::SCast(_) =>
            unreachable!(),
    }
}
