// The operators that call no function.

ghost use Rattle.std.specs.Prelude.{◌≡◌, ◌∷◌, [], Some, OnOk, IsTrue, IsSome};
ghost use Rattle.ae_seqtype.specs.SeqTree.{SeqTree, in_size, seq_tree};
ghost use Rattle.ae_seqtype.specs.ValueTree.{value_of};
ghost use Rattle.ae_seq.specs.ProgramTree.{op_tree};
ghost use Rattle.ae_seq.specs.Typing.{op_type};
ghost use Rattle.ae_seq.specs.Meaning.{op_value};
ghost use Rattle.ae_eval.specs.Stack.{AreFolds, FitAt, Pushed, takes_one, takes_two, window};

use crate::folds::{push_reduced, push_scanned};
use crate::moves::{
    push_fst, push_pair, push_partitioned, push_selected, push_shifted, push_snd,
    push_unpartitioned, push_up, push_zipped,
};
use crate::words::{push_cast, push_one_word, push_two_words};
use ae_seq::Op;
use ae_seqtype::SeqType;
use std::alloc::AllocError;

/// Pushes the value of an operator on one argument that calls no function.
pub fn push_one(stack: &mut Vec<u64>, op: &Op, ty: &SeqType, start: usize) -> Result<(), AllocError>
    requires sized { IsTrue (in_size (seq_tree ty.now)) }
    requires fits { FitAt (seq_tree ty.now) start stack.old.items }
    requires one { IsTrue (takes_one (op_tree op.now)) }
    requires fine { IsSome (op_type [] (op_tree op.now) (seq_tree ty.now ∷ [])) }
    requires result { (u : SeqTree) → op_type [] (op_tree op.now) (seq_tree ty.now ∷ []) ≡ Some u → IsTrue (in_size u) }
    requires folding { AreFolds (op_tree op.now) }
    ensures { OnOk result (Pushed (op_type [] (op_tree op.now) (seq_tree ty.now ∷ [])) stack.old.items stack.new.items
        (op_value [] (op_tree op.now) (value_of (seq_tree ty.now) (window (seq_tree ty.now) start stack.old.items) ∷ []))) }
{
    match op {
        Op::Word(op) => push_one_word(stack, *op, ty, start),
        Op::CastInt(width) => push_cast(stack, *width, ty, start),
        Op::Fst => push_fst(stack, ty, start),
        Op::Snd => push_snd(stack, ty, start),
        Op::Reduce(op) => push_reduced(stack, *op, ty, start),
        Op::Scan(op) => push_scanned(stack, *op, ty, start),
        Op::Shift(count) => push_shifted(stack, *count, ty, start),
        Op::Up(count) => push_up(stack, *count, ty, start),
        Op::Select(place) => push_selected(stack, *place, ty, start),
        Op::Partition(pieces, size) => push_partitioned(stack, *pieces, *size, ty, start),
        Op::Unpartition => push_unpartitioned(stack, ty, start),
        Op::Pair | Op::Const(_, _) | Op::Zip | Op::Call(_) | Op::Map(_) | Op::Map2(_) =>
            unreachable!(),
    }
}

/// Pushes the value of an operator on two arguments that calls no function.
pub fn push_two(
    stack: &mut Vec<u64>,
    op: &Op,
    ty: &SeqType,
    start: usize,
    other: &SeqType,
    place: usize,
) -> Result<(), AllocError>
    requires sized { IsTrue (in_size (seq_tree ty.now)) }
    requires sized_too { IsTrue (in_size (seq_tree other.now)) }
    requires fits { FitAt (seq_tree ty.now) start stack.old.items }
    requires fits_too { FitAt (seq_tree other.now) place stack.old.items }
    requires two { IsTrue (takes_two (op_tree op.now)) }
    requires fine { IsSome (op_type [] (op_tree op.now) (seq_tree ty.now ∷ seq_tree other.now ∷ [])) }
    ensures { OnOk result (Pushed (op_type [] (op_tree op.now) (seq_tree ty.now ∷ seq_tree other.now ∷ [])) stack.old.items stack.new.items
        (op_value [] (op_tree op.now)
        (value_of (seq_tree ty.now) (window (seq_tree ty.now) start stack.old.items)
        ∷ value_of (seq_tree other.now) (window (seq_tree other.now) place stack.old.items) ∷ []))) }
{
    match op {
        Op::Word(op) => push_two_words(stack, *op, ty, start, other, place),
        Op::Pair => push_pair(stack, ty, start, other, place),
        Op::Zip => push_zipped(stack, ty, start, other, place),
        Op::CastInt(_)
        | Op::Fst
        | Op::Snd
        | Op::Const(_, _)
        | Op::Call(_)
        | Op::Map(_)
        | Op::Map2(_)
        | Op::Reduce(_)
        | Op::Scan(_)
        | Op::Shift(_)
        | Op::Up(_)
        | Op::Select(_)
        | Op::Partition(_, _)
        | Op::Unpartition => unreachable!(),
    }
}
