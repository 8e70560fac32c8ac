// The words and numbers of a line.

ghost use Rattle.std.specs.Prelude.{IsTrue};
ghost use Rattle.ae_word.specs.WordTable.{HasRange};

use ae_word::WordOp;
use std::alloc::{AllocError, Global};

/// What stands before and behind a mark; all and nothing where there is none.
pub fn parted<'a>(text: &'a str, mark: &str) -> (&'a str, &'a str) {
    text.split_once(mark).unwrap_or((text, ""))
}

/// The word at a place, counted from 0; empty where there is none.
pub fn word_at(line: &str, place: usize) -> &str {
    line.split_whitespace().nth(place).unwrap_or("")
}

/// The number that the word at a place is; 0 where it is none.
pub fn number_at(line: &str, place: usize) -> u32 {
    word_at(line, place).parse::<u32>().unwrap_or(0)
}

/// The words that are numbers; a comma or a semicolon behind one is for the reader alone.
pub fn numbers(alloc: Global, text: &str) -> Result<Vec<u64>, AllocError> {
    let mut found = Vec::new(alloc);
    for word in text.split_whitespace() {
        let word = word.trim_end_matches(',').trim_end_matches(';');
        if let Ok(number) = word.parse::<u64>() {
            found.push(number)?;
        }
    }
    Ok(found)
}

// The names of the operators, in the order of `operator_at`.
const NAMES: &str =
    "add sub mul and or xor not min max eq lt mux shl shr cast slt smin smax sar scast";

fn operator_at(place: usize, k: u32) -> Option<WordOp> {
    Some(match place {
        0 => WordOp::Add,
        1 => WordOp::Sub,
        2 => WordOp::Mul,
        3 => WordOp::And,
        4 => WordOp::Or,
        5 => WordOp::Xor,
        6 => WordOp::Not,
        7 => WordOp::Min,
        8 => WordOp::Max,
        9 => WordOp::Eq,
        10 => WordOp::Lt,
        11 => WordOp::Mux,
        12 => WordOp::Shl(k),
        13 => WordOp::Shr(k),
        14 => WordOp::Cast(k),
        15 => WordOp::SLt,
        16 => WordOp::SMin,
        17 => WordOp::SMax,
        18 => WordOp::Sar(k),
        19 => WordOp::SCast(k),
        _ => return None,
    })
}

/// The operator of a name, and of a number where it has one.
pub fn operator(name: &str, k: u32) -> Option<WordOp> {
    for (place, said) in NAMES.split_whitespace().enumerate() {
        if said == name {
            return operator_at(place, k);
        }
    }
    None
}

/// Whether a width that the operator names is 1 to 64.
pub fn names_width(op: WordOp) -> bool
    ensures { IsTrue result → HasRange op }
{
    match op {
        WordOp::Cast(v) | WordOp::SCast(v) => 1 <= v && v <= 64,
        WordOp::Add | WordOp::Sub | WordOp::Mul => true,
        WordOp::And | WordOp::Or | WordOp::Xor | WordOp::Not => true,
        WordOp::Min | WordOp::Max | WordOp::Eq | WordOp::Lt | WordOp::Mux => true,
        WordOp::SLt | WordOp::SMin | WordOp::SMax => true,
        WordOp::Shl(_) | WordOp::Shr(_) | WordOp::Sar(_) => true,
    }
}
