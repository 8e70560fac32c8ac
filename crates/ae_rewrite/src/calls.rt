// What the nodes of a function call under a budget, and what the other nodes do.

ghost use Rattle.std.specs.Prelude.{◌≡◌, ◌<◌, ◌≤◌, ◌*◌, ◌/◌, IfOk, IfSome, IsTrue, Some, None, ℕ};
ghost use Rattle.std.specs.Option.{option_map};
ghost use Rattle.ae_seqtype.specs.SeqTree.{seq_tree, in_size};
ghost use Rattle.ae_seq.specs.ProgramTree.{program_tree, node_tree, op_tree, reduce, scan, shift};
ghost use Rattle.ae_seq.specs.Trees.{option_lent};
ghost use Rattle.ae_sttype.specs.StTree.{st_tree};
ghost use Rattle.ae_rewrite.specs.StProgramTree.{st_op_tree};
ghost use Rattle.ae_rewrite.specs.Calls.{spread, spread_at, head, called_by, each_call, is_signed_type, deciding_argument, op_by, raw_layout, fold_of, scan_of, shift_of, plain_op};
ghost use Rattle.ae_rewrite.specs.Spreads.{spread_tree, IsFitting, IsShiftOfFew};

use crate::layout::{in_time, lay_part, side_by_side};
use crate::{Case, LayFault, MoveOp, StOp};
use ae_seq::{Node, Op, Typed};
use ae_seqtype::SeqType;
use ae_sttype::StType;
use ae_word::{Atom, WordOp, main_place, op_for};
use std::alloc::{AllocError, Global};

/// A function under a budget, in so many copies.
#[derive(Clone, Copy, Debug)]
pub struct Call {
    pub func: u32,
    pub budget: u32,
    pub copies: u32,
}

/// A sequence: so many elements of a type, by a case of the layout rule.
#[derive(Clone, Copy, Debug)]
pub struct Spread<'a> {
    pub count: u32,
    pub of: &'a SeqType,
    pub case: Case,
}

// How a sequence is spread over so many clocks, if it is one and there is a case for it.
pub fn spread_of(t: &SeqType, clocks: u32) -> Option<Spread<'_>>
    requires sized { IsTrue (in_size (seq_tree t.now)) }
    requires time { 0 < clocks }
    ensures spread { option_map spread_tree result ≡ spread (seq_tree t.now) clocks }
    ensures fits { IfSome result (λ s. IsFitting clocks s) }
{
    match t {
        SeqType::Atom(_) => None,
        SeqType::Seq(count, of) => {
            let of: &SeqType = of;
            let case = Case::first(*count, clocks)?;
            Some(Spread {
                count: *count,
                of,
                case,
            })
        }
    }
}

// The same of an item of a function.
pub fn spread_at(p: &Typed, func: u32, budget: u32, item: u32) -> Option<Spread<'_>>
    requires time { 0 < budget }
    ensures spread { option_map spread_tree result ≡ spread_at (program_tree p.now) func budget item }
    ensures fits { IfSome result (λ s. IsFitting budget s) }
{
    match p.ty(func, item) {
        Some(t) => spread_of(t, budget),
        None => None,
    }
}

// The first item that a node takes.
fn head(args: &[u32]) -> u32
    ensures { result ≡ head args.now }
{
    if args.is_empty() { 0 } else { args[0] }
}

// What a node calls, and under which budget; None where it calls nothing.
pub fn called_by(p: &Typed, func: u32, budget: u32, node: &Node) -> Option<Call>
    requires time { 0 < budget }
    ensures { result ≡ called_by (program_tree p.now) func budget (node_tree node.now) }
{
    match node.op {
        Op::Call(callee) => Some(Call {
            func: callee,
            budget,
            copies: 1,
        }),
        Op::Map(callee) | Op::Map2(callee) => match spread_at(p, func, budget, head(&node.args)) {
            Some(spread) => Some(each_call(callee, budget, &spread)),
            None => None,
        },
        Op::Word(_)
        | Op::CastInt(_)
        | Op::Pair
        | Op::Fst
        | Op::Snd
        | Op::Const(_, _)
        | Op::Zip
        | Op::Reduce(_)
        | Op::Scan(_)
        | Op::Shift(_)
        | Op::Up(_)
        | Op::Select(_)
        | Op::Partition(_, _)
        | Op::Unpartition => None,
    }
}

// The call of a map: a body for each lane, which has an element's budget.
fn each_call(callee: u32, budget: u32, spread: &Spread<'_>) -> Call
    requires time { 0 < budget }
    requires fits { IsFitting budget spread.now }
    ensures { Some result ≡ each_call callee budget (Some (spread_tree spread.now)) }
{
    Call {
        func: callee,
        budget: spread.case.inner(spread.count, budget),
        copies: spread.case.lanes(spread.count, budget),
    }
}

// ---- nodes that call nothing

fn is_signed(t: Option<&SeqType>) -> bool
    ensures { result ≡ is_signed_type (option_lent t.entry) }
{
    match t {
        Some(SeqType::Atom(Atom::Int(_))) => true,
        _ => false,
    }
}

// The argument by whose kind an operator goes.
fn operand(op: WordOp, args: &[u32]) -> u32
    ensures { result ≡ deciding_argument op args.now }
{
    match args.get(main_place(op) as usize) {
        Some(arg) => *arg,
        None => 0,
    }
}

// The operator by the kind of its operand.
fn op_by(p: &Typed, func: u32, op: WordOp, args: &[u32]) -> WordOp
    ensures { result ≡ op_by (program_tree p.now) func op args.now }
{
    op_for(is_signed(p.ty(func, operand(op, args))), op)
}

// The layout of a fold's one result as it comes, where an element has the layout `of`.
fn raw_layout(alloc: Global, clocks: u32, inner: u32, of: StType) -> Result<StType, AllocError>
    requires some { 0 < inner }
    requires within { inner ≤ clocks }
    ensures { IfOk result (λ s. st_tree s ≡ raw_layout clocks inner (st_tree of)) }
{
    if clocks == 1 {
        side_by_side(alloc, 1, of)
    } else {
        in_time(alloc, 1, clocks / inner - 1, of)
    }
}

// A fold of a sequence that is spread so; None where an element has no layout.
fn fold_of(
    alloc: Global,
    op: WordOp,
    clocks: u32,
    spread: &Spread<'_>,
) -> Result<Option<StOp>, AllocError>
    requires time { 0 < clocks }
    requires fits { IsFitting clocks spread.now }
    ensures { IfOk result (λ o. option_map st_op_tree o ≡ fold_of op clocks (spread_tree spread.now)) }
{
    let inner = spread.case.inner(spread.count, clocks);
    let of = match lay_part(alloc, spread.of, inner) {
        Ok(of) => of,
        Err(LayFault::NoLayout) => return Ok(None),
        Err(LayFault::Memory) => return Err(AllocError),
    };
    Ok(Some(StOp::Fold {
        op,
        slots: spread.case.slots(spread.count, clocks),
        lanes: spread.case.lanes(spread.count, clocks),
        raw: raw_layout(alloc, clocks, inner, of)?,
    }))
}

fn scan_of(op: WordOp, clocks: u32, spread: &Spread<'_>) -> StOp
    requires time { 0 < clocks }
    requires fits { IsFitting clocks spread.now }
    ensures { st_op_tree result ≡ scan_of op clocks (spread_tree spread.now) }
{
    StOp::Scan {
        op,
        slots: spread.case.slots(spread.count, clocks),
        lanes: spread.case.lanes(spread.count, clocks),
    }
}

// A shift by so many elements, in atoms.
fn shift_of(t: &SeqType, count: u32) -> Option<StOp>
    requires sized { IsTrue (in_size (seq_tree t.now)) }
    requires few { count ≤ 4096 }
    ensures { option_map st_op_tree result ≡ shift_of count (seq_tree t.now) }
{
    match t {
        SeqType::Atom(_) => None,
        SeqType::Seq(_, of) => Some(StOp::Move(MoveOp::Shift(count * of.atoms()))),
    }
}

// What a node does that calls nothing; None where it calls, or where its first argument is not spread as it should be.
pub fn plain_op(
    alloc: Global,
    p: &Typed,
    func: u32,
    budget: u32,
    node: &Node,
) -> Result<Option<StOp>, AllocError>
    requires time { 0 < budget }
    requires few { IsShiftOfFew (op_tree node.now.op) }
    ensures { IfOk result (λ o. option_map st_op_tree o
        ≡ plain_op (program_tree p.now) func budget (op_tree node.now.op) node.now.args.items) }
{
    match &node.op {
        Op::Word(op) => Ok(Some(StOp::Word(op_by(p, func, *op, &node.args)))),
        Op::CastInt(width) => Ok(Some(StOp::Word(op_by(
            p,
            func,
            WordOp::Cast(*width),
            &node.args,
        )))),
        Op::Pair | Op::Zip => Ok(Some(StOp::Join)),
        Op::Fst => Ok(Some(StOp::First)),
        Op::Snd => Ok(Some(StOp::Second)),
        Op::Const(_, words) => Ok(Some(StOp::Fixed(Vec::from_slice(alloc, words)?))),
        Op::Call(_) | Op::Map(_) | Op::Map2(_) => Ok(None),
        Op::Reduce(op) => reduce_op(alloc, p, func, budget, *op, &node.args),
        Op::Scan(op) => Ok(scan_op(p, func, budget, *op, &node.args)),
        Op::Shift(count) => Ok(shift_op(p, func, *count, &node.args)),
        Op::Up(count) => Ok(Some(StOp::Move(MoveOp::Up(*count)))),
        Op::Select(place) => Ok(Some(StOp::Move(MoveOp::Select(*place)))),
        Op::Partition(_, _) | Op::Unpartition => Ok(Some(StOp::Move(MoveOp::Same))),
    }
}

fn reduce_op(
    alloc: Global,
    p: &Typed,
    func: u32,
    budget: u32,
    op: WordOp,
    args: &[u32],
) -> Result<Option<StOp>, AllocError>
    requires time { 0 < budget }
    ensures { IfOk result (λ o. option_map st_op_tree o ≡ plain_op (program_tree p.now) func budget (reduce op) args.now) }
{
    match spread_at(p, func, budget, head(args)) {
        Some(spread) => fold_of(alloc, op, budget, &spread),
        None => Ok(None),
    }
}

fn scan_op(p: &Typed, func: u32, budget: u32, op: WordOp, args: &[u32]) -> Option<StOp>
    requires time { 0 < budget }
    ensures { option_map st_op_tree result ≡ plain_op (program_tree p.now) func budget (scan op) args.now }
{
    match spread_at(p, func, budget, head(args)) {
        Some(spread) => Some(scan_of(op, budget, &spread)),
        None => None,
    }
}

fn shift_op(p: &Typed, func: u32, count: u32, args: &[u32]) -> Option<StOp>
    requires few { count ≤ 4096 }
    ensures { (budget : ℕ) → option_map st_op_tree result ≡ plain_op (program_tree p.now) func budget (shift count) args.now }
{
    match p.ty(func, head(args)) {
        Some(t) => shift_of(t, count),
        None => None,
    }
}
