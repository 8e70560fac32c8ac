// Why a program does more than move words.

use crate::sorts::{node_at, program_of, spot_of};
use crate::types::{push_line, word_of};
use ae_seq::Op;
use std::alloc::{AllocError, Global};

// What an operator does that does not move words alone.
fn does(op: &Op) -> &'static str {
    match op {
        Op::Word(_) | Op::CastInt(_) => "computes new words",
        Op::Const(_, _) => "has words of its own, which no parameter brings",
        Op::Call(_) | Op::Map(_) | Op::Map2(_) => "calls a function, whose lines are not looked at",
        Op::Reduce(_) | Op::Scan(_) => "computes new words of the elements",
        Op::Pair | Op::Fst | Op::Snd | Op::Zip => "moves words alone",
        Op::Shift(_) | Op::Up(_) | Op::Select(_) => "moves words alone",
        Op::Partition(_, _) | Op::Unpartition => "moves words alone",
    }
}

/// Why the program function is not one that only moves words: what the operator of its first other line does, and which
/// operators only move words (docs/FUSED.md).
pub fn not_moves(alloc: Global, part: &[u8], number: u32) -> Result<String, AllocError> {
    let mut out = String::new(alloc);
    push_line(&mut out, alloc, part, number)?;
    if let Some(p) = program_of(alloc, part)? {
        if let Some(spot) = spot_of(&p, number) {
            if let Some((_, node)) = node_at(&p, spot) {
                writeln!(out, "{} {}", word_of(part, number), does(&node.op))?;
            }
        }
    }
    out.push_str(
        "the lines of the program function that only move words have shift, up, select, partition, unpartition, zip, pair, fst and snd\n",
    )?;
    Ok(out)
}
