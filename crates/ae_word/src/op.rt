// The operators on words.

ghost use Rattle.std.specs.Prelude.{◌≡◌};
ghost use Rattle.ae_word.specs.WordTable.{HasRange, arity_of, folds, latency_of, op_for, result_width_of, row_of};

use crate::width::Width;

/// An operator on words of 1 to 64 bits. Signed words are kept as their codes; `SLt` to `SCast` read their operands
/// as signed, all others as unsigned.
#[derive(Clone, Copy, PartialEq, Eq, Debug)]
pub enum WordOp {
    Add,
    Sub,
    Mul,
    And,
    Or,
    Xor,
    Not,
    Min,
    Max,
    Eq,
    Lt,
    /// The second operand where the first, of one bit, is 1, else the third.
    Mux,
    /// To the left by so many places.
    Shl(u32),
    /// To the right by so many places.
    Shr(u32),
    /// To so many bits.
    Cast(u32),
    /// `Lt` of signed words.
    SLt,
    /// `Min` of signed words.
    SMin,
    /// `Max` of signed words.
    SMax,
    /// `Shr` of a signed word, rounded down.
    Sar(u32),
    /// The signed word's value, to so many bits.
    SCast(u32),
}

/// How many operands the operator uses, 1 to 3.
pub fn arity(op: WordOp) -> u32
    ensures { result ≡ arity_of op }
{
    match op {
        WordOp::Not
        | WordOp::Shl(_)
        | WordOp::Shr(_)
        | WordOp::Cast(_)
        | WordOp::Sar(_)
        | WordOp::SCast(_) => 1,
        WordOp::Add
        | WordOp::Sub
        | WordOp::Mul
        | WordOp::And
        | WordOp::Or
        | WordOp::Xor
        | WordOp::Min
        | WordOp::Max
        | WordOp::Eq
        | WordOp::Lt
        | WordOp::SLt
        | WordOp::SMin
        | WordOp::SMax => 2,
        WordOp::Mux => 3,
    }
}

/// How many clocks the operator's circuit takes, 0 to 2.
pub fn latency(op: WordOp) -> u32
    ensures { result ≡ latency_of op }
{
    match op {
        WordOp::Mul => 2,
        WordOp::Add
        | WordOp::Sub
        | WordOp::Min
        | WordOp::Max
        | WordOp::Eq
        | WordOp::Lt
        | WordOp::SLt
        | WordOp::SMin
        | WordOp::SMax => 1,
        WordOp::And | WordOp::Or | WordOp::Xor | WordOp::Not | WordOp::Mux => 0,
        WordOp::Shl(_) | WordOp::Shr(_) | WordOp::Cast(_) | WordOp::Sar(_) | WordOp::SCast(_) => 0,
    }
}

/// The width of the result on operands of a width, for a choice that of its arms.
pub fn result_width(op: WordOp, width: Width) -> Width
    requires { HasRange op }
    ensures { result ≡ result_width_of op width }
{
    match op {
        WordOp::Eq | WordOp::Lt | WordOp::SLt => Width::BIT,
        WordOp::Cast(v) | WordOp::SCast(v) => match Width::of(v) {
            Some(width) => width,
            None => unreachable!(),
        },
        WordOp::Add | WordOp::Sub | WordOp::Mul => width,
        WordOp::And | WordOp::Or | WordOp::Xor | WordOp::Not => width,
        WordOp::Min | WordOp::Max | WordOp::SMin | WordOp::SMax | WordOp::Mux => width,
        WordOp::Shl(_) | WordOp::Shr(_) | WordOp::Sar(_) => width,
    }
}

/// The operator that a line's operator means on unsigned or signed words: on signed ones the signed operator.
pub fn op_for(signed: bool, op: WordOp) -> WordOp
    ensures { result ≡ op_for signed op }
{
    if !signed {
        return op;
    }
    match op {
        WordOp::Min => WordOp::SMin,
        WordOp::Max => WordOp::SMax,
        WordOp::Lt => WordOp::SLt,
        WordOp::Shr(k) => WordOp::Sar(k),
        WordOp::Cast(v) => WordOp::SCast(v),
        WordOp::Add | WordOp::Sub | WordOp::Mul => op,
        WordOp::And | WordOp::Or | WordOp::Xor | WordOp::Not => op,
        WordOp::Eq | WordOp::Mux | WordOp::Shl(_) => op,
        WordOp::SLt | WordOp::SMin | WordOp::SMax | WordOp::Sar(_) | WordOp::SCast(_) => op,
    }
}

/// Which operand, counted from 0, has the kind and the width at which the operator works: of a choice the first arm.
pub fn main_place(op: WordOp) -> u32
    ensures { result ≡ (row_of op).main }
{
    match op {
        WordOp::Mux => 1,
        WordOp::Add | WordOp::Sub | WordOp::Mul => 0,
        WordOp::And | WordOp::Or | WordOp::Xor | WordOp::Not => 0,
        WordOp::Min | WordOp::Max | WordOp::Eq | WordOp::Lt => 0,
        WordOp::Shl(_) | WordOp::Shr(_) | WordOp::Cast(_) => 0,
        WordOp::SLt | WordOp::SMin | WordOp::SMax | WordOp::Sar(_) | WordOp::SCast(_) => 0,
    }
}

/// Whether the operator's circuit multiplies.
pub fn multiplies(op: WordOp) -> bool
    ensures { result ≡ (row_of op).multiplies }
{
    match op {
        WordOp::Mul => true,
        WordOp::Add | WordOp::Sub => false,
        WordOp::And | WordOp::Or | WordOp::Xor | WordOp::Not => false,
        WordOp::Min | WordOp::Max | WordOp::Eq | WordOp::Lt | WordOp::Mux => false,
        WordOp::Shl(_) | WordOp::Shr(_) | WordOp::Cast(_) => false,
        WordOp::SLt | WordOp::SMin | WordOp::SMax | WordOp::Sar(_) | WordOp::SCast(_) => false,
    }
}

/// Whether elements may be folded by the operator: one of `add mul and or xor min max`.
pub fn folds(op: WordOp) -> bool
    ensures { result ≡ folds op }
{
    match op {
        WordOp::Add | WordOp::Mul => true,
        WordOp::And | WordOp::Or | WordOp::Xor | WordOp::Min | WordOp::Max => true,
        WordOp::Sub | WordOp::Not | WordOp::Eq | WordOp::Lt | WordOp::Mux => false,
        WordOp::Shl(_) | WordOp::Shr(_) | WordOp::Cast(_) => false,
        WordOp::SLt | WordOp::SMin | WordOp::SMax | WordOp::Sar(_) | WordOp::SCast(_) => false,
    }
}
