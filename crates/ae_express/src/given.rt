// Expressions as cells for a target.

ghost use Rattle.std.specs.Prelude.{◌≡◌, ◌≤◌, ◌+◌, ◌*◌, ℕ, List, length, max, IfOk, OnOk};
ghost use Rattle.ae_netlist.specs.Circuit.{IsNet};
ghost use Rattle.ae_vmodule.specs.Roots.{numbered};
ghost use Rattle.ae_vmodule.specs.View.{expr_tree};
ghost use Rattle.ae_judge.specs.Weight.{expr_weight};
ghost use Rattle.ae_judge.specs.Widths.{own_width};
ghost use Rattle.ae_runs.specs.Named.{AreNamed, AreNets, read};
ghost use Rattle.ae_order.specs.Sound.{IsReadyFor, IsSound};
ghost use Rattle.ae_netlist.specs.Room.{HasRoom};
ghost use Rattle.ae_gates.specs.Cells.{AddsGates, IsWord};
ghost use Rattle.ae_express.specs.Lowered.{IsLowered, fitted};

use crate::expressions::lower;
use crate::maybe_net::MaybeNet;
use crate::measure::measure;
use ae_gates::fit;
use ae_judge::Names;
use ae_netlist::{NetId, Netlist};
use ae_vmodule::Expr;
use std::alloc::AllocError;

/// Cells of an expression that is computed at its own width, or at `least` where that is greater, and this width: at most 8
/// for each unit of weight, and one more.
fn lower_at_least(
    nl: &mut Netlist,
    from: u32,
    names: &Names<'_>,
    nets: &[MaybeNet],
    least: u32,
    e: Expr<'_>,
) -> Result<(NetId, u32), AllocError>
    requires from { from ≤ length nl.old.cells }
    requires nets { AreNets names.now.nets nets.now nl.old.cells }
    requires sound { IsSound names.now.nets (expr_tree names.now.words (numbered e)) }
    requires ready { IsReadyFor names.now.nets nets.now (expr_tree names.now.words (numbered e)) }
    requires low { 1 ≤ least }
    requires high { least ≤ 64 }
    requires room { HasRoom nl.old (8 * expr_weight (expr_tree names.now.words (numbered e)) + 1) }
    ensures width { IfOk result (λ r. r.1 ≡ max (own_width names.now.nets (expr_tree names.now.words (numbered e.entry))) least) }
    ensures high { IfOk result (λ r. r.1 ≤ 64) }
    ensures lowered { IfOk result (λ r. IsLowered from names.now.nets nets.now nl.old nl.new (8 * expr_weight (expr_tree names.now.words (numbered e.entry)) + 1) r.0.0 r.1 (expr_tree names.now.words (numbered e.entry))) }
{
    let mut widths = Vec::new(names.alloc());
    let own = measure(names, e, &mut widths)?;
    let wide = own.max(least);
    let x = lower(nl, from, names, nets, &mut widths, wide, e)?;
    Ok((x, wide))
}

/// Cells of an expression that is computed at its own width, and this width: at most 8 for each unit of weight, and one more.
pub fn own_word(
    nl: &mut Netlist,
    from: u32,
    names: &Names<'_>,
    nets: &[MaybeNet],
    e: Expr<'_>,
) -> Result<(NetId, u32), AllocError>
    requires from { from ≤ length nl.old.cells }
    requires nets { AreNets names.now.nets nets.now nl.old.cells }
    requires sound { IsSound names.now.nets (expr_tree names.now.words (numbered e)) }
    requires ready { IsReadyFor names.now.nets nets.now (expr_tree names.now.words (numbered e)) }
    requires room { HasRoom nl.old (8 * expr_weight (expr_tree names.now.words (numbered e)) + 1) }
    ensures own { IfOk result (λ r. r.1 ≡ own_width names.now.nets (expr_tree names.now.words (numbered e.entry))) }
    ensures low { IfOk result (λ r. 1 ≤ r.1) }
    ensures high { IfOk result (λ r. r.1 ≤ 64) }
    ensures lowered { IfOk result (λ r. IsLowered from names.now.nets nets.now nl.old nl.new (8 * expr_weight (expr_tree names.now.words (numbered e.entry)) + 1) r.0.0 r.1 (expr_tree names.now.words (numbered e.entry))) }
{
    lower_at_least(nl, from, names, nets, 1, e)
}

/// What an expression gives a target of a width: computed at the greater of both widths, and cut to the target's. At most
/// 8 cells for each unit of weight, and two more.
pub fn given_word(
    nl: &mut Netlist,
    from: u32,
    names: &Names<'_>,
    nets: &[MaybeNet],
    width: u32,
    e: Expr<'_>,
) -> Result<NetId, AllocError>
    requires from { from ≤ length nl.old.cells }
    requires nets { AreNets names.now.nets nets.now nl.old.cells }
    requires sound { IsSound names.now.nets (expr_tree names.now.words (numbered e)) }
    requires ready { IsReadyFor names.now.nets nets.now (expr_tree names.now.words (numbered e)) }
    requires low { 1 ≤ width }
    requires high { width ≤ 64 }
    requires room { HasRoom nl.old (8 * expr_weight (expr_tree names.now.words (numbered e)) + 2) }
    ensures adds { OnOk result (AddsGates nl.old nl.new (8 * expr_weight (expr_tree names.now.words (numbered e.entry)) + 2)) }
    ensures net { IfOk result (λ y. IsNet nl.new.cells y.0 width) }
    ensures word { IfOk result (λ y. (at : List ℕ → ℕ) → AreNamed names.now.nets nets.now at → IsWord from nl.new.cells y.0 width (λ run t. fitted names.now.nets (read at run t) width (expr_tree names.now.words (numbered e.entry)))) }
{
    let (x, wide) = lower_at_least(nl, from, names, nets, width, e)?;
    let y = fit(nl, from, x, wide, width)?;
    Ok(y)
}
