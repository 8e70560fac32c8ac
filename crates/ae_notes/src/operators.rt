// The operators of lines: their words, and the functions that they call.

use ae_print::word_name;
use ae_seq::{Func, Op, Program};
use ae_word::WordOp;
use std::alloc::{AllocError, Global};

// The operator that stands in a text for one on signed words.
fn as_written(op: WordOp) -> WordOp {
    match op {
        WordOp::SLt => WordOp::Lt,
        WordOp::SMin => WordOp::Min,
        WordOp::SMax => WordOp::Max,
        WordOp::Sar(by) => WordOp::Shr(by),
        WordOp::SCast(to) => WordOp::Cast(to),
        WordOp::Add | WordOp::Sub | WordOp::Mul => op,
        WordOp::And | WordOp::Or | WordOp::Xor | WordOp::Not => op,
        WordOp::Min | WordOp::Max | WordOp::Eq | WordOp::Lt | WordOp::Mux => op,
        WordOp::Shl(_) | WordOp::Shr(_) | WordOp::Cast(_) => op,
    }
}

/// The word of an operator on words; those of signed words are written as the others.
pub fn word_of(op: WordOp) -> &'static str {
    word_name(as_written(op))
}

// The function that an operator calls or maps.
fn called(op: &Op) -> Option<u32> {
    match op {
        Op::Call(func) | Op::Map(func) | Op::Map2(func) => Some(*func),
        Op::Word(_) | Op::CastInt(_) | Op::Const(_, _) | Op::Reduce(_) | Op::Scan(_) => None,
        Op::Pair | Op::Fst | Op::Snd | Op::Zip => None,
        Op::Shift(_) | Op::Up(_) | Op::Select(_) => None,
        Op::Partition(_, _) | Op::Unpartition => None,
    }
}

// Marks the function that an operator calls or maps.
fn mark(marks: &mut Vec<bool>, op: &Op) {
    if let Some(func) = called(op) {
        if let Some(mark) = marks.get_mut(func as usize) {
            *mark = true;
        }
    }
}

fn mark_all(marks: &mut Vec<bool>, func: &Func) {
    for node in &func.nodes {
        mark(marks, &node.op);
    }
}

/// The functions that an operator calls or maps, and those that these call, the last one first: functions stand behind those that
/// they call.
pub fn reached<'a>(alloc: Global, p: &'a Program, op: &Op) -> Result<Vec<&'a Func>, AllocError> {
    let mut marks = vec![in alloc; false; p.funcs.len()]?;
    let mut funcs = Vec::new(alloc);
    mark(&mut marks, op);
    for func in p.funcs.iter().enumerate().rev() {
        let (number, func) = func;
        if marks.get(number).copied() == Some(true) {
            mark_all(&mut marks, func);
            funcs.push(func)?;
        }
    }
    Ok(funcs)
}
