// Operators on words.

ghost use Rattle.std.specs.Prelude.{IsTrue};
ghost use Rattle.ae_word.specs.WordTable.{OperandsFit};

use ae_word::{Width, WordOp, apply, arity, fits_width, latency, result_width};
use table_text::{Page, names_width, number_at, operator, parted};

// The operator of a name, with the number that stands behind a point, as `shl.7`; a sum where there is none.
fn named(text: &str) -> WordOp {
    let (name, number) = parted(text, ".");
    operator(name, number_at(number, 0)).unwrap_or(WordOp::Add)
}

// Whether the operands are words of their widths; an operator of one operand has 0 for the second.
fn are_operands(op: WordOp, width: u32, a: u64, b: u64, c: u64) -> bool
    ensures { IsTrue result → OperandsFit op width a b c }
{
    match op {
        WordOp::Mux => a < 2 && fits_width(b, width) && fits_width(c, width),
        WordOp::Add | WordOp::Sub | WordOp::Mul => fits_width(a, width) && fits_width(b, width),
        WordOp::And | WordOp::Or | WordOp::Xor => fits_width(a, width) && fits_width(b, width),
        WordOp::Min | WordOp::Max | WordOp::SMin | WordOp::SMax => {
            fits_width(a, width) && fits_width(b, width)
        }
        WordOp::Eq | WordOp::Lt | WordOp::SLt => fits_width(a, width) && fits_width(b, width),
        WordOp::Not | WordOp::Shl(_) | WordOp::Shr(_) | WordOp::Cast(_) => fits_width(a, width),
        WordOp::Sar(_) | WordOp::SCast(_) => fits_width(a, width),
    }
}

fn number(text: &str) -> u64 {
    text.parse::<u64>().unwrap_or(0)
}

fn tell_result(out: &mut Page, op: WordOp, width: Width, fields: &str) {
    let (a, others) = parted(fields, ",");
    let (b, c) = parted(others, ",");
    let (a, b, c) = (number(a), number(b), number(c));
    if !names_width(op) || !are_operands(op, width.bits(), a, b, c) {
        return out.say(" none");
    }
    out.tell(" ", &apply(op, width, a, b, c));
}

/// The results of an operator on words of a width: `add of 8 bits: 0,1 128,128`.
pub fn results(out: &mut Page, text: &str) {
    let (head, operands) = parted(text, ":");
    let (name, width) = parted(head, " ");
    let op = named(name);
    out.say(" ->");
    for fields in operands.split_whitespace() {
        match Width::of(number_at(width, 1)) {
            Some(width) => tell_result(out, op, width, fields),
            None => out.say(" none"),
        }
    }
}

/// Operands, width of the result and clocks of an operator: `add of 8 bits`.
pub fn traits(out: &mut Page, text: &str) {
    let (name, width) = parted(text, " ");
    let op = named(name);
    out.tell(" -> operands ", &arity(op));
    match Width::of(number_at(width, 1)) {
        Some(width) if names_width(op) => out.tell(", bits ", &result_width(op, width).bits()),
        _ => out.say(", bits none"),
    }
    out.tell(", clocks ", &latency(op));
}
