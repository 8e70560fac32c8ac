// The lines of functions that call no function, and what goes over a call.

ghost use Rattle.std.specs.Prelude.{◌≡◌, ◌≤◌, ◌<◌, ℕ, All, Some, OnOk, length, slice_get, get_or, take, drop};
ghost use Rattle.ae_seq.specs.ProgramTree.{node_tree, program_tree};
ghost use Rattle.ae_seq.specs.Trees.{node_trees, param_trees};
ghost use Rattle.ae_seq.specs.Meaning.{at};
ghost use Rattle.ae_seq.specs.Typing.{types_of_params};
ghost use Rattle.ae_eval.specs.Stack.{params_in, FitIn, HaveStarts, IsTyped, Pushed, result_of, starts_of, types_in, values_in};
ghost use Rattle.ae_eval.specs.Lines.{IsPlain, Laid, Passed, args_of, item_of, line_value, nodes_in, results_in, values_at};

use crate::plain::{push_one, push_two};
use crate::stack::{push_copy, push_words, settle};
use crate::starts::place_of;
use crate::words::push_chosen;
use ae_seq::{Node, Op, Param, Typed};
use std::alloc::AllocError;

/// The nodes of a function.
pub fn nodes(p: &Typed, func: usize) -> &[Node]
    requires known { func < length (program_tree p.now).funcs }
    ensures { node_trees result.now ≡ nodes_in (program_tree p.now) func }
{
    p.program().funcs[func].nodes.as_slice()
}

/// The parameters of a function.
pub fn params(p: &Typed, func: usize) -> &[Param]
    requires known { func < length (program_tree p.now).funcs }
    ensures { types_of_params (param_trees result.now) ≡ params_in (program_tree p.now) func }
{
    p.program().funcs[func].params.as_slice()
}

/// A node of a function.
pub fn node(p: &Typed, func: usize, index: usize) -> &Node
    requires known { func < length (program_tree p.now).funcs }
    requires index { index < length (nodes_in (program_tree p.now) func) }
    ensures { slice_get (nodes_in (program_tree p.now) func) index ≡ Some (node_tree result.now) }
{
    &nodes(p, func)[index]
}

/// The items that a function answers.
pub fn results(p: &Typed, func: usize) -> &[u32]
    requires typed { IsTyped (program_tree p.now) }
    requires known { func < length (program_tree p.now).funcs }
    ensures results { result.now ≡ results_in (program_tree p.now) func }
    ensures some { 1 ≤ length (results_in (program_tree p.now) func) }
    ensures there { All (λ (i : ℕ). i < length (types_in (program_tree p.now) func)) (results_in (program_tree p.now) func) }
{
    p.program().funcs[func].results.as_slice()
}

// The first item that a function answers.
fn first_result(p: &Typed, func: usize) -> u32
    requires typed { IsTyped (program_tree p.now) }
    requires known { func < length (program_tree p.now).funcs }
    ensures is { slice_get (results_in (program_tree p.now) func) 0 ≡ Some result }
    ensures there { result < length (types_in (program_tree p.now) func) }
{
    results(p, func)[0]
}

/// Leaves of the values of a function's items the first result alone.
pub fn keep_result(p: &Typed, starts: &[Vec<usize>], func: usize, stack: &mut Vec<u64>, base: usize)
    requires typed { IsTyped (program_tree p.now) }
    requires starts { HaveStarts (program_tree p.now) (starts_of starts.now) }
    requires known { func < length (program_tree p.now).funcs }
    requires base { base ≤ length stack.old.items }
    requires fits { FitIn (types_in (program_tree p.now) func) (drop base stack.old.items) }
    ensures { Pushed (result_of (program_tree p.now) func) (take base stack.old.items) stack.new.items
        (at (values_in (types_in (program_tree p.now) func) (drop base stack.old.items)) (get_or (results_in (program_tree p.now) func) 0 0)) }
{
    let item = first_result(p, func);
    let result = place_of(p, starts, func, item, base);
    settle(stack, base, result.start, result.ty.words() as usize);
}

/// Pushes the values of a node's arguments, in order.
pub fn push_args(
    p: &Typed,
    starts: &[Vec<usize>],
    func: usize,
    index: usize,
    stack: &mut Vec<u64>,
    base: usize,
) -> Result<(), AllocError>
    requires typed { IsTyped (program_tree p.now) }
    requires starts { HaveStarts (program_tree p.now) (starts_of starts.now) }
    requires known { func < length (program_tree p.now).funcs }
    requires index { index < length (nodes_in (program_tree p.now) func) }
    requires laid { Laid (program_tree p.now) func (item_of (program_tree p.now) func index) base stack.old.items }
    ensures { OnOk result (Passed (types_in (program_tree p.now) func)
        (values_at (program_tree p.now) func (item_of (program_tree p.now) func index) base stack.old.items)
        (args_of (program_tree p.now) func index) stack.old.items stack.new.items) }
{
    let node = node(p, func, index);
    for arg in &node.args {
        let place = place_of(p, starts, func, *arg, base);
        push_copy(stack, place.start, place.ty.words() as usize)?;
    }
    Ok(())
}

/// Pushes the value of a node that calls no function.
pub fn push_plain(
    p: &Typed,
    starts: &[Vec<usize>],
    func: usize,
    index: usize,
    stack: &mut Vec<u64>,
    base: usize,
) -> Result<(), AllocError>
    requires typed { IsTyped (program_tree p.now) }
    requires starts { HaveStarts (program_tree p.now) (starts_of starts.now) }
    requires known { func < length (program_tree p.now).funcs }
    requires index { index < length (nodes_in (program_tree p.now) func) }
    requires laid { Laid (program_tree p.now) func (item_of (program_tree p.now) func index) base stack.old.items }
    requires plain { IsPlain (program_tree p.now) func index }
    ensures { OnOk result (Pushed (slice_get (types_in (program_tree p.now) func) (item_of (program_tree p.now) func index)) stack.old.items stack.new.items
        (line_value (program_tree p.now) func index
        (values_at (program_tree p.now) func (item_of (program_tree p.now) func index) base stack.old.items))) }
{
    let node = node(p, func, index);
    let Op::Const(_, words) = &node.op else {
        return match node.args.len() {
            1 => push_unary(p, starts, func, index, stack, base),
            2 => push_binary(p, starts, func, index, stack, base),
            _ => push_ternary(p, starts, func, index, stack, base),
        };
    };
    push_words(stack, words)
}

// Pushes the value of a node with one argument.
fn push_unary(
    p: &Typed,
    starts: &[Vec<usize>],
    func: usize,
    index: usize,
    stack: &mut Vec<u64>,
    base: usize,
) -> Result<(), AllocError>
    requires typed { IsTyped (program_tree p.now) }
    requires starts { HaveStarts (program_tree p.now) (starts_of starts.now) }
    requires known { func < length (program_tree p.now).funcs }
    requires index { index < length (nodes_in (program_tree p.now) func) }
    requires laid { Laid (program_tree p.now) func (item_of (program_tree p.now) func index) base stack.old.items }
    requires plain { IsPlain (program_tree p.now) func index }
    requires one { length (args_of (program_tree p.now) func index) ≡ 1 }
    ensures { OnOk result (Pushed (slice_get (types_in (program_tree p.now) func) (item_of (program_tree p.now) func index)) stack.old.items stack.new.items
        (line_value (program_tree p.now) func index
        (values_at (program_tree p.now) func (item_of (program_tree p.now) func index) base stack.old.items))) }
{
    let node = node(p, func, index);
    let args = node.args.as_slice();
    let a = place_of(p, starts, func, args[0], base);
    push_one(stack, &node.op, a.ty, a.start)
}

// Pushes the value of a node with two arguments.
fn push_binary(
    p: &Typed,
    starts: &[Vec<usize>],
    func: usize,
    index: usize,
    stack: &mut Vec<u64>,
    base: usize,
) -> Result<(), AllocError>
    requires typed { IsTyped (program_tree p.now) }
    requires starts { HaveStarts (program_tree p.now) (starts_of starts.now) }
    requires known { func < length (program_tree p.now).funcs }
    requires index { index < length (nodes_in (program_tree p.now) func) }
    requires laid { Laid (program_tree p.now) func (item_of (program_tree p.now) func index) base stack.old.items }
    requires plain { IsPlain (program_tree p.now) func index }
    requires two { length (args_of (program_tree p.now) func index) ≡ 2 }
    ensures { OnOk result (Pushed (slice_get (types_in (program_tree p.now) func) (item_of (program_tree p.now) func index)) stack.old.items stack.new.items
        (line_value (program_tree p.now) func index
        (values_at (program_tree p.now) func (item_of (program_tree p.now) func index) base stack.old.items))) }
{
    let node = node(p, func, index);
    let args = node.args.as_slice();
    let a = place_of(p, starts, func, args[0], base);
    let b = place_of(p, starts, func, args[1], base);
    push_two(stack, &node.op, a.ty, a.start, b.ty, b.start)
}

// Pushes the value of a node with three arguments.
fn push_ternary(
    p: &Typed,
    starts: &[Vec<usize>],
    func: usize,
    index: usize,
    stack: &mut Vec<u64>,
    base: usize,
) -> Result<(), AllocError>
    requires typed { IsTyped (program_tree p.now) }
    requires starts { HaveStarts (program_tree p.now) (starts_of starts.now) }
    requires known { func < length (program_tree p.now).funcs }
    requires index { index < length (nodes_in (program_tree p.now) func) }
    requires laid { Laid (program_tree p.now) func (item_of (program_tree p.now) func index) base stack.old.items }
    requires plain { IsPlain (program_tree p.now) func index }
    requires three { length (args_of (program_tree p.now) func index) ≡ 3 }
    ensures { OnOk result (Pushed (slice_get (types_in (program_tree p.now) func) (item_of (program_tree p.now) func index)) stack.old.items stack.new.items
        (line_value (program_tree p.now) func index
        (values_at (program_tree p.now) func (item_of (program_tree p.now) func index) base stack.old.items))) }
{
    let node = node(p, func, index);
    let Op::Word(op) = &node.op else {
        unreachable!();
    };
    let args = node.args.as_slice();
    let a = place_of(p, starts, func, args[0], base);
    let b = place_of(p, starts, func, args[1], base);
    let c = place_of(p, starts, func, args[2], base);
    push_chosen(stack, *op, a.ty, a.start, b.ty, b.start, c.ty, c.start)
}
