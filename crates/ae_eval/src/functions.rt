// The values of functions.

ghost use Rattle.std.specs.Prelude.{◌∷◌, [], ◌*◌, ◌≤◌, ◌<◌, OnOk, IsTrue, length, map, slice_get, take, drop};
ghost use Rattle.ae_seqtype.specs.SeqTree.{in_size, seq_tree};
ghost use Rattle.ae_seqtype.specs.ValueTree.{ValueTree, elements, listed, value_of};
ghost use Rattle.ae_seq.specs.ProgramTree.{program_tree};
ghost use Rattle.ae_seq.specs.Meaning.{applied, map_two, meanings};
ghost use Rattle.ae_eval.specs.Stack.{Evaluated, FitAt, FitIn, HaveStarts, IsTyped, Pushed, params_in, result_of, starts_of, types_in, values_in, window};
ghost use Rattle.ae_eval.specs.Lines.{Laid, TakesEach, TakesEachTwo, each_of, item_of, line_value, nodes_in, values_at};

use crate::lines::{keep_result, node, nodes, push_args, push_plain};
use crate::stack::push_element;
use crate::starts::place_of;
use ae_seq::{Op, Typed};
use ae_seqtype::SeqType;
use std::alloc::AllocError;

/// Puts the values of all items of a function in the place of its arguments, which stand from the base on.
#[cycle(eval)]
pub fn eval_func(
    p: &Typed,
    starts: &[Vec<usize>],
    func: usize,
    stack: &mut Vec<u64>,
    base: usize,
) -> Result<(), AllocError>
    requires typed { IsTyped (program_tree p.now) }
    requires starts { HaveStarts (program_tree p.now) (starts_of starts.now) }
    requires known { func < length (program_tree p.now).funcs }
    requires base { base ≤ length stack.old.items }
    requires fits { FitIn (params_in (program_tree p.now) func) (drop base stack.old.items) }
    ensures { OnOk result (Evaluated (program_tree p.now) func base stack.old.items stack.new.items) }
{
    let count = nodes(p, func).len();
    for index in 0..count {
        eval_node(p, starts, func, index, stack, base)?;
    }
    Ok(())
}

// Puts the first result of a function in the place of its arguments, which stand from the base on.
#[cycle(eval)]
fn eval_call(
    p: &Typed,
    starts: &[Vec<usize>],
    func: usize,
    stack: &mut Vec<u64>,
    base: usize,
) -> Result<(), AllocError>
    requires typed { IsTyped (program_tree p.now) }
    requires starts { HaveStarts (program_tree p.now) (starts_of starts.now) }
    requires known { func < length (program_tree p.now).funcs }
    requires base { base ≤ length stack.old.items }
    requires fits { FitIn (params_in (program_tree p.now) func) (drop base stack.old.items) }
    ensures { OnOk result (Pushed (result_of (program_tree p.now) func) (take base stack.old.items) stack.new.items
        (applied (meanings (program_tree p.now).funcs) func (values_in (params_in (program_tree p.now) func) (drop base stack.old.items)))) }
{
    eval_func(p, starts, func, stack, base)?;
    keep_result(p, starts, func, stack, base);
    Ok(())
}

// Pushes the value of a node on the values of the items above it.
#[cycle(eval)]
fn eval_node(
    p: &Typed,
    starts: &[Vec<usize>],
    func: usize,
    index: usize,
    stack: &mut Vec<u64>,
    base: usize,
) -> Result<(), AllocError>
    requires typed { IsTyped (program_tree p.now) }
    requires starts { HaveStarts (program_tree p.now) (starts_of starts.now) }
    requires known { func < length (program_tree p.now).funcs }
    requires index { index < length (nodes_in (program_tree p.now) func) }
    requires laid { Laid (program_tree p.now) func (item_of (program_tree p.now) func index) base stack.old.items }
    ensures { OnOk result (Pushed (slice_get (types_in (program_tree p.now) func) (item_of (program_tree p.now) func index)) stack.old.items stack.new.items
        (line_value (program_tree p.now) func index
        (values_at (program_tree p.now) func (item_of (program_tree p.now) func index) base stack.old.items))) }
{
    let node = node(p, func, index);
    let args = node.args.as_slice();
    match &node.op {
        Op::Call(callee) => {
            let top = stack.len();
            push_args(p, starts, func, index, stack, base)?;
            eval_call(p, starts, *callee as usize, stack, top)
        }
        Op::Map(callee) => {
            let a = place_of(p, starts, func, args[0], base);
            eval_map(p, starts, *callee as usize, a.ty, a.start, stack)
        }
        Op::Map2(callee) => {
            let first = place_of(p, starts, func, args[0], base);
            let second = place_of(p, starts, func, args[1], base);
            eval_map_two(
                p,
                starts,
                *callee as usize,
                first.ty,
                first.start,
                second.ty,
                second.start,
                stack,
            )
        }
        Op::Word(_)
        | Op::CastInt(_)
        | Op::Pair
        | Op::Fst
        | Op::Snd
        | Op::Const(_, _)
        | Op::Zip
        | Op::Reduce(_)
        | Op::Scan(_)
        | Op::Shift(_)
        | Op::Up(_)
        | Op::Select(_)
        | Op::Partition(_, _)
        | Op::Unpartition => push_plain(p, starts, func, index, stack, base),
    }
}

// Pushes a function's value on each element.
#[cycle(eval)]
fn eval_map(
    p: &Typed,
    starts: &[Vec<usize>],
    callee: usize,
    ty: &SeqType,
    start: usize,
    stack: &mut Vec<u64>,
) -> Result<(), AllocError>
    requires typed { IsTyped (program_tree p.now) }
    requires starts { HaveStarts (program_tree p.now) (starts_of starts.now) }
    requires known { callee < length (program_tree p.now).funcs }
    requires sized { IsTrue (in_size (seq_tree ty.now)) }
    requires fits { FitAt (seq_tree ty.now) start stack.old.items }
    requires takes { TakesEach (seq_tree ty.now) (params_in (program_tree p.now) callee) }
    ensures { OnOk result (Pushed (each_of (seq_tree ty.now) (result_of (program_tree p.now) callee)) stack.old.items stack.new.items
        (listed (map (λ (x : ValueTree). applied (meanings (program_tree p.now).funcs) callee (x ∷ []))
        (elements (value_of (seq_tree ty.now) (window (seq_tree ty.now) start stack.old.items)))))) }
{
    let SeqType::Seq(count, of) = ty else {
        unreachable!();
    };
    for index in 0..*count {
        let top = stack.len();
        push_element(stack, of, start, index)?;
        eval_call(p, starts, callee, stack, top)?;
    }
    Ok(())
}

// Pushes a function's value on the elements of two sequences in pairs.
#[cycle(eval)]
fn eval_map_two(
    p: &Typed,
    starts: &[Vec<usize>],
    callee: usize,
    ty: &SeqType,
    start: usize,
    other: &SeqType,
    place: usize,
    stack: &mut Vec<u64>,
) -> Result<(), AllocError>
    requires typed { IsTyped (program_tree p.now) }
    requires starts { HaveStarts (program_tree p.now) (starts_of starts.now) }
    requires known { callee < length (program_tree p.now).funcs }
    requires sized { IsTrue (in_size (seq_tree ty.now)) }
    requires sized_too { IsTrue (in_size (seq_tree other.now)) }
    requires fits { FitAt (seq_tree ty.now) start stack.old.items }
    requires fits_too { FitAt (seq_tree other.now) place stack.old.items }
    requires takes { TakesEachTwo (seq_tree ty.now) (seq_tree other.now) (params_in (program_tree p.now) callee) }
    ensures { OnOk result (Pushed (each_of (seq_tree ty.now) (result_of (program_tree p.now) callee)) stack.old.items stack.new.items
        (listed (map_two (λ (x y : ValueTree). applied (meanings (program_tree p.now).funcs) callee (x ∷ y ∷ []))
        (elements (value_of (seq_tree ty.now) (window (seq_tree ty.now) start stack.old.items)))
        (elements (value_of (seq_tree other.now) (window (seq_tree other.now) place stack.old.items)))))) }
{
    let SeqType::Seq(count, of) = ty else {
        unreachable!();
    };
    let SeqType::Seq(_, with) = other else {
        unreachable!();
    };
    for index in 0..*count {
        let top = stack.len();
        push_element(stack, of, start, index)?;
        push_element(stack, with, place, index)?;
        eval_call(p, starts, callee, stack, top)?;
    }
    Ok(())
}
