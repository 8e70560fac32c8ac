// Expressions as cells.

ghost use Rattle.std.specs.Prelude.{◌≡◌, ◌≤◌, ◌+◌, ◌*◌, ◌++◌, length, IfOk, OnOk};
ghost use Rattle.ae_vmodule.specs.ModuleTree.{concat_more, unary};
ghost use Rattle.ae_vmodule.specs.Roots.{numbered};
ghost use Rattle.ae_vmodule.specs.View.{expr_tree};
ghost use Rattle.ae_judge.specs.Widths.{own_width};
ghost use Rattle.ae_judge.specs.Weight.{expr_weight};
ghost use Rattle.ae_netlist.specs.Room.{HasRoom};
ghost use Rattle.ae_express.specs.Asked.{EndsWith, part_widths};
ghost use Rattle.ae_express.specs.Lowered.{IsLowered};
ghost use Rattle.ae_runs.specs.Named.{AreNets};
ghost use Rattle.ae_order.specs.Sound.{IsReadyFor, IsSound};

use crate::forms::{combine, fixed_shift, operand_widths};
use crate::maybe_net::MaybeNet;
use crate::measure::last_width;
use crate::own::own_width;
use crate::reads::{read_name, read_part, read_place, read_word};
use ae_gates::{chosen, fixed, gate, is_zero, linked, moved_by, widen};
use ae_judge::Names;
use ae_netlist::{NetId, Netlist};
use ae_order::place_number;
use ae_vmodule::{Expr, Root, UnOp};
use ae_word::WordOp;
use std::alloc::AllocError;

/// Cells whose last net has the value of an expression that is computed at a width: at most 8 for each unit of weight,
/// and one more.
#[tactic(auto, using(ae_gates::proofs::Words::net_grows, crate::proofs::NetLaws::nets_grow))]
#[cycle(lowering)]
pub fn lower(
    nl: &mut Netlist,
    from: u32,
    names: &Names<'_>,
    nets: &[MaybeNet],
    widths: &mut Vec<u32>,
    w: u32,
    e: Expr<'_>,
) -> Result<NetId, AllocError>
    requires from { from ≤ length nl.old.cells }
    requires nets { AreNets names.now.nets nets.now nl.old.cells }
    requires sound { IsSound names.now.nets (expr_tree names.now.words (numbered e)) }
    requires ready { IsReadyFor names.now.nets nets.now (expr_tree names.now.words (numbered e)) }
    requires low { 1 ≤ w }
    requires high { w ≤ 64 }
    requires within { own_width names.now.nets (expr_tree names.now.words (numbered e)) ≤ w }
    requires room { HasRoom nl.old (8 * expr_weight (expr_tree names.now.words (numbered e)) + 1) }
    requires widths { EndsWith widths.old.items (part_widths names.now.nets (expr_tree names.now.words (numbered e))) }
    ensures widths { OnOk result (widths.old.items ≡ widths.new.items ++ part_widths names.now.nets (expr_tree names.now.words (numbered e.entry))) }
    ensures lowered { IfOk result (λ y. IsLowered from names.now.nets nets.now nl.old nl.new (8 * expr_weight (expr_tree names.now.words (numbered e.entry)) + 1) y.0 w (expr_tree names.now.words (numbered e.entry))) }
{
    match e.root() {
        Root::Name(name) => read_name(nl, from, names, nets, w, name),
        Root::Const { value, .. } => fixed(nl, from, w, value),
        Root::Place(_) => unreachable!(),
        Root::Part { name, high, low } => read_part(nl, from, names, nets, w, name, high, low),
        Root::Index { name, at } => match place_number(at) {
            Some(k) => read_place(nl, from, names, nets, w, name, k),
            None => {
                let own = own_width(names, at);
                let x = lower(nl, from, names, nets, widths, own, at)?;
                read_word(nl, from, names, nets, w, name, x, own)
            }
        },
        Root::Unary(op, a) => lower_unary(nl, from, names, nets, widths, w, op, a),
        Root::Binary(op, a, b) => match fixed_shift(op, b) {
            Some((way, places)) => {
                let x = lower(nl, from, names, nets, widths, w, a)?;
                moved_by(nl, from, way, x, places, w)
            }
            None => {
                let (wa, wb) = operand_widths(names, op, w, a, b);
                let x = lower(nl, from, names, nets, widths, wa, a)?;
                let y = lower(nl, from, names, nets, widths, wb, b)?;
                combine(nl, from, op, w, x, wa, y, wb)
            }
        },
        Root::Choose(test, a, b) => {
            let own = own_width(names, test);
            let t = lower(nl, from, names, nets, widths, own, test)?;
            let x = lower(nl, from, names, nets, widths, w, a)?;
            let y = lower(nl, from, names, nets, widths, w, b)?;
            chosen(nl, from, t, own, x, y, w)
        }
        Root::One(a) => {
            let own = last_width(widths);
            let x = lower(nl, from, names, nets, widths, own, a)?;
            widen(nl, from, x, own, w)
        }
        Root::More(a, rest) => {
            let (x, own) = lower_parts(nl, from, names, nets, widths, a, rest)?;
            widen(nl, from, x, own, w)
        }
    }
}

/// The word of a prefix and its operand.
#[tactic(auto, using(ae_gates::proofs::Words::net_grows, crate::proofs::NetLaws::nets_grow))]
#[cycle(lowering)]
fn lower_unary(
    nl: &mut Netlist,
    from: u32,
    names: &Names<'_>,
    nets: &[MaybeNet],
    widths: &mut Vec<u32>,
    w: u32,
    op: UnOp,
    a: Expr<'_>,
) -> Result<NetId, AllocError>
    requires from { from ≤ length nl.old.cells }
    requires nets { AreNets names.now.nets nets.now nl.old.cells }
    requires sound { IsSound names.now.nets (unary op (expr_tree names.now.words (numbered a))) }
    requires ready { IsReadyFor names.now.nets nets.now (unary op (expr_tree names.now.words (numbered a))) }
    requires low { 1 ≤ w }
    requires high { w ≤ 64 }
    requires within { own_width names.now.nets (unary op (expr_tree names.now.words (numbered a))) ≤ w }
    requires room { HasRoom nl.old (8 * expr_weight (unary op (expr_tree names.now.words (numbered a))) + 1) }
    requires widths { EndsWith widths.old.items (part_widths names.now.nets (unary op (expr_tree names.now.words (numbered a)))) }
    ensures widths { OnOk result (widths.old.items ≡ widths.new.items ++ part_widths names.now.nets (unary op (expr_tree names.now.words (numbered a.entry)))) }
    ensures lowered { IfOk result (λ y. IsLowered from names.now.nets nets.now nl.old nl.new (8 * expr_weight (unary op (expr_tree names.now.words (numbered a.entry))) + 1) y.0 w (unary op (expr_tree names.now.words (numbered a.entry)))) }
{
    match op {
        UnOp::Not => {
            let own = own_width(names, a);
            let x = lower(nl, from, names, nets, widths, own, a)?;
            let zero = is_zero(nl, from, x, own)?;
            widen(nl, from, zero, 1, w)
        }
        UnOp::Flip => {
            let x = lower(nl, from, names, nets, widths, w, a)?;
            gate(nl, from, WordOp::Not, x, x, w, w)
        }
    }
}

/// The word of a concatenation, and its width: the parts from the first on, each below those before it.
#[tactic(auto, using(ae_gates::proofs::Words::net_grows, crate::proofs::NetLaws::nets_grow))]
#[cycle(lowering)]
fn lower_parts(
    nl: &mut Netlist,
    from: u32,
    names: &Names<'_>,
    nets: &[MaybeNet],
    widths: &mut Vec<u32>,
    first: Expr<'_>,
    rest: Expr<'_>,
) -> Result<(NetId, u32), AllocError>
    requires from { from ≤ length nl.old.cells }
    requires nets { AreNets names.now.nets nets.now nl.old.cells }
    requires sound { IsSound names.now.nets (concat_more (expr_tree names.now.words (numbered first)) (expr_tree names.now.words (numbered rest))) }
    requires ready { IsReadyFor names.now.nets nets.now (concat_more (expr_tree names.now.words (numbered first)) (expr_tree names.now.words (numbered rest))) }
    requires room { HasRoom nl.old (8 * expr_weight (concat_more (expr_tree names.now.words (numbered first)) (expr_tree names.now.words (numbered rest)))) }
    requires widths { EndsWith widths.old.items (part_widths names.now.nets (concat_more (expr_tree names.now.words (numbered first)) (expr_tree names.now.words (numbered rest)))) }
    ensures widths { OnOk result (widths.old.items ≡ widths.new.items ++ part_widths names.now.nets (concat_more (expr_tree names.now.words (numbered first.entry)) (expr_tree names.now.words (numbered rest.entry)))) }
    ensures own { IfOk result (λ r. r.1 ≡ own_width names.now.nets (concat_more (expr_tree names.now.words (numbered first.entry)) (expr_tree names.now.words (numbered rest.entry)))) }
    ensures lowered { IfOk result (λ r. IsLowered from names.now.nets nets.now nl.old nl.new (8 * expr_weight (concat_more (expr_tree names.now.words (numbered first.entry)) (expr_tree names.now.words (numbered rest.entry)))) r.0.0 r.1 (concat_more (expr_tree names.now.words (numbered first.entry)) (expr_tree names.now.words (numbered rest.entry)))) }
{
    let mut own = last_width(widths);
    let mut x = lower(nl, from, names, nets, widths, own, first)?;
    let mut parts = rest;
    'part: loop {
        match parts.root() {
            Root::More(part, more) => {
                let wide = last_width(widths);
                let low = lower(nl, from, names, nets, widths, wide, part)?;
                x = linked(nl, from, x, own, low, wide)?;
                own += wide;
                parts = more;
            }
            Root::One(part) => {
                let wide = last_width(widths);
                let low = lower(nl, from, names, nets, widths, wide, part)?;
                let y = linked(nl, from, x, own, low, wide)?;
                return Ok((y, own + wide));
            }
            _ => {
                let wide = own_width(names, parts);
                let low = lower(nl, from, names, nets, widths, wide, parts)?;
                let y = linked(nl, from, x, own, low, wide)?;
                return Ok((y, own + wide));
            }
        }
    }
}
