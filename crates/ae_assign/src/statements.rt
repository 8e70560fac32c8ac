// The statements of clock edges as cells: each assignment is one choice, made where its guard is 1.

ghost use Rattle.std.specs.Prelude.{◌≡◌, ◌<◌, ◌≤◌, ◌+◌, ◌*◌, ◌==◌, ◌&&◌, not, ℕ, Bool, List, Some, length, get_or, if◌then◌else◌, IfOk, OnOk, true};
ghost use Rattle.ae_word.specs.WordTable.{bit};
ghost use Rattle.ae_netlist.specs.Circuit.{IsAddress, IsNet};
ghost use Rattle.ae_netlist.specs.Runs.{Clock};
ghost use Rattle.ae_vmodule.specs.ModuleTree.{block_more, index as index_tree, put as put_tree, set as set_tree};
ghost use Rattle.ae_vmodule.specs.Roots.{numbered, numbered_stmt};
ghost use Rattle.ae_vmodule.specs.View.{expr_tree, stmt_tree, word_at};
ghost use Rattle.ae_judge.specs.Names.{depth_of, is_memory_name, stmt_targets};
ghost use Rattle.ae_judge.specs.Weight.{expr_weight, stmt_weight};
ghost use Rattle.ae_runs.specs.Values.{own_value};
ghost use Rattle.ae_netlist.specs.Room.{HasRoom};
ghost use Rattle.ae_gates.specs.Cells.{AddsGates, IsWord};
ghost use Rattle.ae_runs.specs.Named.{AreNamed, AreNets, read};
ghost use Rattle.ae_order.specs.Sound.{IsReadyFor, IsSound};
ghost use Rattle.ae_assign.specs.Edges.{Acts, AreFresh, FitNexts, IsActed, IsAddressWord, IsGuard, IsGuardNet, IsReadyStmt, IsSoFar, IsSoundStmt, IsWordNext, OthersKeep};

use crate::nexts::Nexts;
use ae_express::{MaybeNet, address, given_word, name_width, net_of, own_word};
use ae_gates::{fixed, gate, is_zero, select};
use ae_judge::Names;
use ae_netlist::{NetId, Netlist};
use ae_order::{place_number, place_of};
use ae_vmodule::{Expr, Stmt, StmtRoot};
use ae_word::WordOp;
use std::alloc::AllocError;

/// What a register or a memory takes at a clock edge.
#[derive(Clone, Copy)]
pub enum Next {
    /// What it has.
    Keep,
    /// A register takes the word of a net.
    Word(NetId),
    /// A memory takes a word at one place, where a bit is 1.
    Write {
        at: NetId,
        word: NetId,
        enable: NetId,
    },
}

/// The bit that is 1 where a test is 0.
#[tactic(auto, using(ae_gates::proofs::Words::net_grows))]
fn fails(
    nl: &mut Netlist,
    from: u32,
    names: &Names<'_>,
    nets: &[MaybeNet],
    test: Expr<'_>,
) -> Result<NetId, AllocError>
    requires from { from ≤ length nl.old.cells }
    requires nets { AreNets names.now.nets nets.now nl.old.cells }
    requires sound { IsSound names.now.nets (expr_tree names.now.words (numbered test)) }
    requires ready { IsReadyFor names.now.nets nets.now (expr_tree names.now.words (numbered test)) }
    requires room { HasRoom nl.old (8 * expr_weight (expr_tree names.now.words (numbered test)) + 3) }
    ensures adds { OnOk result (AddsGates nl.old nl.new (8 * expr_weight (expr_tree names.now.words (numbered test.entry)) + 3)) }
    ensures net { IfOk result (λ y. IsNet nl.new.cells y.0 1) }
    ensures word { IfOk result (λ y. (at : List ℕ → ℕ) → AreNamed names.now.nets nets.now at → IsWord from nl.new.cells y.0 1 (λ run t. bit (own_value names.now.nets (read at run t) (expr_tree names.now.words (numbered test.entry)) == 0))) }
{
    let (x, own) = own_word(nl, from, names, nets, test)?;
    let y = is_zero(nl, from, x, own)?;
    Ok(y)
}

/// The guard of what is reached only where a bit is 1.
#[tactic(auto, using(crate::proofs::EdgeFits::growing))]
fn also(nl: &mut Netlist, from: u32, guard: Option<NetId>, on: NetId) -> Result<NetId, AllocError>
    requires from { from ≤ length nl.old.cells }
    requires guard { IsGuardNet nl.old.cells guard }
    requires on { IsNet nl.old.cells on.0 1 }
    requires room { HasRoom nl.old 1 }
    ensures adds { OnOk result (AddsGates nl.old nl.new 1) }
    ensures net { IfOk result (λ y. IsNet nl.new.cells y.0 1) }
    ensures word { IfOk result (λ y. (g b : List Clock → ℕ → Bool) → IsGuard from nl.old.cells guard g → IsWord from nl.old.cells on.0 1 (λ run t. bit (b run t)) → IsWord from nl.new.cells y.0 1 (λ run t. bit (g run t && b run t))) }
{
    match guard {
        None => Ok(on),
        Some(reached) => {
            let y = gate(nl, from, WordOp::And, reached, on, 1, 1)?;
            Ok(y)
        }
    }
}

/// The guard of what is reached only where a bit is 0.
#[tactic(auto, using(crate::proofs::EdgeFits::growing))]
fn unless(nl: &mut Netlist, from: u32, guard: Option<NetId>, on: NetId) -> Result<NetId, AllocError>
    requires from { from ≤ length nl.old.cells }
    requires guard { IsGuardNet nl.old.cells guard }
    requires on { IsNet nl.old.cells on.0 1 }
    requires room { HasRoom nl.old 2 }
    ensures adds { OnOk result (AddsGates nl.old nl.new 2) }
    ensures net { IfOk result (λ y. IsNet nl.new.cells y.0 1) }
    ensures word { IfOk result (λ y. (g b : List Clock → ℕ → Bool) → IsGuard from nl.old.cells guard g → IsWord from nl.old.cells on.0 1 (λ run t. bit (b run t)) → IsWord from nl.new.cells y.0 1 (λ run t. bit (g run t && not (b run t)))) }
{
    let flipped = gate(nl, from, WordOp::Not, on, on, 1, 1)?;
    let y = also(nl, from, guard, flipped)?;
    Ok(y)
}

/// The guard as a net.
fn reached(nl: &mut Netlist, from: u32, guard: Option<NetId>) -> Result<NetId, AllocError>
    requires from { from ≤ length nl.old.cells }
    requires guard { IsGuardNet nl.old.cells guard }
    requires room { HasRoom nl.old 1 }
    ensures adds { OnOk result (AddsGates nl.old nl.new 1) }
    ensures net { IfOk result (λ y. IsNet nl.new.cells y.0 1) }
    ensures word { IfOk result (λ y. (g : List Clock → ℕ → Bool) → IsGuard from nl.old.cells guard g → IsWord from nl.new.cells y.0 1 (λ run t. bit (g run t))) }
{
    match guard {
        None => fixed(nl, from, 1, 1),
        Some(bit) => Ok(bit),
    }
}

/// The word of `a` where the guard is 1, and else that of `b`.
fn taken(
    nl: &mut Netlist,
    from: u32,
    guard: Option<NetId>,
    a: NetId,
    b: NetId,
    width: u32,
) -> Result<NetId, AllocError>
    requires from { from ≤ length nl.old.cells }
    requires low { 1 ≤ width }
    requires high { width ≤ 64 }
    requires guard { IsGuardNet nl.old.cells guard }
    requires left { IsNet nl.old.cells a.0 width }
    requires right { IsNet nl.old.cells b.0 width }
    requires room { HasRoom nl.old 1 }
    ensures adds { OnOk result (AddsGates nl.old nl.new 1) }
    ensures net { IfOk result (λ y. IsNet nl.new.cells y.0 width) }
    ensures word { IfOk result (λ y. (g : List Clock → ℕ → Bool) (f h : List Clock → ℕ → ℕ) → IsGuard from nl.old.cells guard g → IsWord from nl.old.cells a.0 width f → IsWord from nl.old.cells b.0 width h → IsWord from nl.new.cells y.0 width (λ run t. if g run t then f run t else h run t)) }
{
    match guard {
        None => Ok(a),
        Some(bit) => {
            let y = select(nl, from, bit, a, b, width)?;
            Ok(y)
        }
    }
}

/// A register's next word so far.
fn so_far(nexts: &Nexts, place: usize, own: NetId) -> NetId
    requires inside { place < length nexts.now }
    requires word { IsWordNext (get_or nexts.now place Next.Keep) }
    ensures { IsSoFar (get_or nexts.now place Next.Keep) own result }
{
    match nexts.at(place) {
        Next::Keep => own,
        Next::Word(y) => y,
        Next::Write { .. } => unreachable!(),
    }
}

/// A register's next word after `name <= value`.
#[tactic(auto, using(crate::proofs::EdgeFits::growing))]
fn assign(
    nl: &mut Netlist,
    from: u32,
    names: &Names<'_>,
    nets: &[MaybeNet],
    nexts: &mut Nexts,
    guard: Option<NetId>,
    name: u32,
    value: Expr<'_>,
) -> Result<(), AllocError>
    requires from { from ≤ length nl.old.cells }
    requires nets { AreNets names.now.nets nets.now nl.old.cells }
    requires sound { IsSoundStmt names.now.nets (set_tree (word_at names.now.words name) (expr_tree names.now.words (numbered value))) }
    requires ready { IsReadyStmt names.now.nets nets.now (set_tree (word_at names.now.words name) (expr_tree names.now.words (numbered value))) }
    requires guard { IsGuardNet nl.old.cells guard }
    requires nexts { FitNexts names.now.nets nexts.old nl.old.cells }
    requires room { HasRoom nl.old (8 * (1 + expr_weight (expr_tree names.now.words (numbered value)))) }
    ensures adds { OnOk result (AddsGates nl.old nl.new (8 * (1 + expr_weight (expr_tree names.now.words (numbered value.entry))))) }
    ensures nexts { OnOk result (FitNexts names.now.nets nexts.new nl.new.cells) }
    ensures others { OnOk result (OthersKeep names.now.nets nexts.old nexts.new (stmt_targets (set_tree (word_at names.now.words name) (expr_tree names.now.words (numbered value.entry))))) }
    ensures acts { OnOk result (Acts from names.now.nets nets.now guard nl.old.cells nl.new.cells nexts.old nexts.new (set_tree (word_at names.now.words name) (expr_tree names.now.words (numbered value.entry)))) }
{
    let place = place_of(names, name);
    let width = name_width(names, name);
    let own = net_of(names, nets, name);
    let word = given_word(nl, from, names, nets, width, value)?;
    let before = so_far(nexts, place, own);
    let next = taken(nl, from, guard, word, before, width)?;
    nexts.set(place, Next::Word(next))?;
    Ok(())
}

/// The net of an address that a memory is written at.
fn written_at(
    nl: &mut Netlist,
    from: u32,
    names: &Names<'_>,
    nets: &[MaybeNet],
    _name: u32,
    at: Expr<'_>,
) -> Result<NetId, AllocError>
    requires from { from ≤ length nl.old.cells }
    requires nets { AreNets names.now.nets nets.now nl.old.cells }
    requires sound { IsSound names.now.nets (index_tree (word_at names.now.words _name) (expr_tree names.now.words (numbered at))) }
    requires ready { IsReadyFor names.now.nets nets.now (index_tree (word_at names.now.words _name) (expr_tree names.now.words (numbered at))) }
    requires memory { is_memory_name names.now.nets (word_at names.now.words _name) ≡ true }
    requires room { HasRoom nl.old (8 * expr_weight (expr_tree names.now.words (numbered at)) + 1) }
    ensures adds { OnOk result (AddsGates nl.old nl.new (8 * expr_weight (expr_tree names.now.words (numbered at.entry)) + 1)) }
    ensures address { IfOk result (λ y. IsAddress nl.new.cells y.0 (depth_of names.now.nets (word_at names.now.words _name))) }
    ensures word { IfOk result (λ y. (net_at : List ℕ → ℕ) → AreNamed names.now.nets nets.now net_at → IsAddressWord from nl.new.cells y.0 (λ run t. own_value names.now.nets (read net_at run t) (expr_tree names.now.words (numbered at.entry)))) }
{
    match place_number(at) {
        Some(k) => address(nl, from, k),
        None => {
            let (y, _own) = own_word(nl, from, names, nets, at)?;
            Ok(y)
        }
    }
}

/// What a memory takes after `name[at] <= value`.
#[tactic(auto, using(crate::proofs::EdgeFits::growing))]
fn write(
    nl: &mut Netlist,
    from: u32,
    names: &Names<'_>,
    nets: &[MaybeNet],
    nexts: &mut Nexts,
    guard: Option<NetId>,
    name: u32,
    at: Expr<'_>,
    value: Expr<'_>,
) -> Result<(), AllocError>
    requires from { from ≤ length nl.old.cells }
    requires nets { AreNets names.now.nets nets.now nl.old.cells }
    requires sound { IsSoundStmt names.now.nets (put_tree (word_at names.now.words name) (expr_tree names.now.words (numbered at)) (expr_tree names.now.words (numbered value))) }
    requires ready { IsReadyStmt names.now.nets nets.now (put_tree (word_at names.now.words name) (expr_tree names.now.words (numbered at)) (expr_tree names.now.words (numbered value))) }
    requires guard { IsGuardNet nl.old.cells guard }
    requires nexts { FitNexts names.now.nets nexts.old nl.old.cells }
    requires fresh { AreFresh names.now.nets nexts.old (stmt_targets (put_tree (word_at names.now.words name) (expr_tree names.now.words (numbered at)) (expr_tree names.now.words (numbered value)))) }
    requires room { HasRoom nl.old (8 * (1 + (expr_weight (expr_tree names.now.words (numbered at)) + expr_weight (expr_tree names.now.words (numbered value))))) }
    ensures adds { OnOk result (AddsGates nl.old nl.new (8 * (1 + (expr_weight (expr_tree names.now.words (numbered at.entry)) + expr_weight (expr_tree names.now.words (numbered value.entry)))))) }
    ensures nexts { OnOk result (FitNexts names.now.nets nexts.new nl.new.cells) }
    ensures others { OnOk result (OthersKeep names.now.nets nexts.old nexts.new (stmt_targets (put_tree (word_at names.now.words name) (expr_tree names.now.words (numbered at.entry)) (expr_tree names.now.words (numbered value.entry))))) }
    ensures acts { OnOk result (Acts from names.now.nets nets.now guard nl.old.cells nl.new.cells nexts.old nexts.new (put_tree (word_at names.now.words name) (expr_tree names.now.words (numbered at.entry)) (expr_tree names.now.words (numbered value.entry)))) }
{
    let place = place_of(names, name);
    let width = name_width(names, name);
    let at = written_at(nl, from, names, nets, name, at)?;
    let word = given_word(nl, from, names, nets, width, value)?;
    let enable = reached(nl, from, guard)?;
    nexts.set(place, Next::Write { at, word, enable })?;
    Ok(())
}

/// What registers and memories take after a statement: at most 8 cells for each unit of its weight.
#[tactic(auto, using(crate::proofs::EdgeFits::growing))]
#[cycle(acting)]
pub fn act(
    nl: &mut Netlist,
    from: u32,
    names: &Names<'_>,
    nets: &[MaybeNet],
    nexts: &mut Nexts,
    guard: Option<NetId>,
    stmt: Stmt<'_>,
) -> Result<(), AllocError>
    requires from { from ≤ length nl.old.cells }
    requires nets { AreNets names.now.nets nets.now nl.old.cells }
    requires sound { IsSoundStmt names.now.nets (stmt_tree names.now.words (numbered_stmt stmt)) }
    requires ready { IsReadyStmt names.now.nets nets.now (stmt_tree names.now.words (numbered_stmt stmt)) }
    requires guard { IsGuardNet nl.old.cells guard }
    requires nexts { FitNexts names.now.nets nexts.old nl.old.cells }
    requires fresh { AreFresh names.now.nets nexts.old (stmt_targets (stmt_tree names.now.words (numbered_stmt stmt))) }
    requires room { HasRoom nl.old (8 * stmt_weight 0 (stmt_tree names.now.words (numbered_stmt stmt))) }
    ensures { OnOk result (IsActed from names.now.nets nets.now guard nl.old nl.new nexts.old nexts.new (stmt_tree names.now.words (numbered_stmt stmt.entry))) }
{
    match stmt.root() {
        StmtRoot::Set { name, value } => assign(nl, from, names, nets, nexts, guard, name, value),
        StmtRoot::Put { name, at, value } => write(
            nl, from, names, nets, nexts, guard, name, at, value,
        ),
        StmtRoot::When(test, then) => {
            let zero = fails(nl, from, names, nets, test)?;
            let first = unless(nl, from, guard, zero)?;
            act(nl, from, names, nets, nexts, Some(first), then)
        }
        StmtRoot::Either(test, then, otherwise) => {
            let zero = fails(nl, from, names, nets, test)?;
            let first = unless(nl, from, guard, zero)?;
            let second = also(nl, from, guard, zero)?;
            act(nl, from, names, nets, nexts, Some(first), then)?;
            act(nl, from, names, nets, nexts, Some(second), otherwise)
        }
        StmtRoot::End => Ok(()),
        StmtRoot::Then(first, rest) => act_all(nl, from, names, nets, nexts, guard, first, rest),
    }
}

/// What registers and memories take after a statement and those behind it.
#[tactic(auto, using(crate::proofs::EdgeFits::growing))]
#[cycle(acting)]
fn act_all(
    nl: &mut Netlist,
    from: u32,
    names: &Names<'_>,
    nets: &[MaybeNet],
    nexts: &mut Nexts,
    guard: Option<NetId>,
    first: Stmt<'_>,
    rest: Stmt<'_>,
) -> Result<(), AllocError>
    requires from { from ≤ length nl.old.cells }
    requires nets { AreNets names.now.nets nets.now nl.old.cells }
    requires sound { IsSoundStmt names.now.nets (block_more (stmt_tree names.now.words (numbered_stmt first)) (stmt_tree names.now.words (numbered_stmt rest))) }
    requires ready { IsReadyStmt names.now.nets nets.now (block_more (stmt_tree names.now.words (numbered_stmt first)) (stmt_tree names.now.words (numbered_stmt rest))) }
    requires guard { IsGuardNet nl.old.cells guard }
    requires nexts { FitNexts names.now.nets nexts.old nl.old.cells }
    requires fresh { AreFresh names.now.nets nexts.old (stmt_targets (block_more (stmt_tree names.now.words (numbered_stmt first)) (stmt_tree names.now.words (numbered_stmt rest)))) }
    requires room { HasRoom nl.old (8 * stmt_weight 0 (block_more (stmt_tree names.now.words (numbered_stmt first)) (stmt_tree names.now.words (numbered_stmt rest)))) }
    ensures { OnOk result (IsActed from names.now.nets nets.now guard nl.old nl.new nexts.old nexts.new (block_more (stmt_tree names.now.words (numbered_stmt first.entry)) (stmt_tree names.now.words (numbered_stmt rest.entry)))) }
{
    act(nl, from, names, nets, nexts, guard, first)?;
    let mut left = rest;
    'next: loop {
        match left.root() {
            StmtRoot::Then(stmt, more) => {
                act(nl, from, names, nets, nexts, guard, stmt)?;
                left = more;
            }
            _ => return act(nl, from, names, nets, nexts, guard, left),
        }
    }
}
