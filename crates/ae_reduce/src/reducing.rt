// The circuit of a fold.

ghost use Rattle.std.specs.Prelude.{◌≡◌, ◌+◌, ◌-◌, ◌*◌, ◌%◌, length, IfOk, OnOk};
ghost use Rattle.ae_netlist.specs.Room.{HasRoom};
ghost use Rattle.ae_clocked.specs.Phases.{Belongs, KeepsCounters};
ghost use Rattle.ae_fold.specs.Feedback.{AddsStores};
ghost use Rattle.ae_fold.specs.Folding.{AreFolds, products_in};
ghost use Rattle.ae_fold.specs.Rows.{AreFoldNets, AreScans, IsPlan, loop_memories, wait_of};
ghost use Rattle.ae_reduce.specs.Reduces.{reduce_cells, reduce_products};

use crate::tree::tree;
use ae_clocked::Clocks;
use ae_fold::{Plan, WordFold, copied, mark, over_slots};
use ae_netlist::{NetId, Netlist};
use std::alloc::{AllocError, Global};

/// The nets of the folds, by lane and then by word of an element. `ahead` says how many clocks after the arrival a later
/// stage begins its blocks.
pub fn reduced(
    alloc: Global,
    nl: &mut Netlist,
    clocks: &mut Clocks,
    folds: &[WordFold],
    plan: Plan,
    ins: &[NetId],
    arrival: u32,
    ahead: u32,
) -> Result<Vec<NetId>, AllocError>
    requires plan { IsPlan plan }
    requires folds { AreFolds folds.now }
    requires belongs { Belongs clocks.old nl.old.cells }
    requires nets { AreFoldNets nl.old.cells folds.now ins.now }
    requires long { length ins.now ≡ plan.lanes * plan.stride }
    requires whole { plan.stride % length folds.now ≡ 0 }
    requires room { HasRoom nl.old (reduce_cells plan) }
    ensures belongs { OnOk result (Belongs clocks.new nl.new.cells) }
    ensures keeps { OnOk result (KeepsCounters clocks.old clocks.new) }
    ensures adds { OnOk result (AddsStores nl.old nl.new (reduce_cells plan) (reduce_products plan (products_in folds.now)) (loop_memories plan)) }
    ensures long { IfOk result (λ outs. length outs.items ≡ plan.stride) }
    ensures scans { IfOk result (λ outs. AreScans nl.new.cells clocks.old.rst folds.now ins.now plan arrival (plan.levels + wait_of plan.slots) ((plan.lanes - 1) * plan.stride) outs.items) }
{
    let found = mark(nl, clocks, plan, arrival, ahead)?;
    let nets = copied(alloc, ins)?;
    let stride = plan.stride as usize;
    let sums = tree(
        alloc,
        nl,
        folds,
        nets,
        plan.lanes as usize,
        stride,
        plan.levels,
    )?;
    let outs = over_slots(alloc, nl, folds, sums, 0, stride, found, plan.inner)?;
    Ok(outs)
}
