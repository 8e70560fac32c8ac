// The circuit of a scan.

ghost use Rattle.std.specs.Prelude.{◌≡◌, ◌+◌, ◌-◌, ◌*◌, ◌%◌, length, IfOk, OnOk};
ghost use Rattle.ae_netlist.specs.Room.{HasRoom};
ghost use Rattle.ae_clocked.specs.Phases.{Belongs, KeepsCounters};
ghost use Rattle.ae_fold.specs.Feedback.{AddsStores};
ghost use Rattle.ae_fold.specs.Folding.{AreFolds, products_in};
ghost use Rattle.ae_fold.specs.Rows.{AreFoldNets, AreScans, IsPlan, loop_memories, wait_of};
ghost use Rattle.ae_scan.specs.Scans.{scan_cells, scan_products};

use crate::sweep::sweep;
use ae_clocked::Clocks;
use ae_fold::{Plan, WordFold, copied, mark, over_slots};
use ae_netlist::{NetId, Netlist};
use std::alloc::{AllocError, Global};

/// The nets of the prefix folds, by lane and then by word.
pub fn scanned(
    alloc: Global,
    nl: &mut Netlist,
    clocks: &mut Clocks,
    folds: &[WordFold],
    plan: Plan,
    ins: &[NetId],
    arrival: u32,
) -> Result<Vec<NetId>, AllocError>
    requires plan { IsPlan plan }
    requires folds { AreFolds folds.now }
    requires belongs { Belongs clocks.old nl.old.cells }
    requires nets { AreFoldNets nl.old.cells folds.now ins.now }
    requires long { length ins.now ≡ plan.lanes * plan.stride }
    requires whole { plan.stride % length folds.now ≡ 0 }
    requires room { HasRoom nl.old (scan_cells plan) }
    ensures belongs { OnOk result (Belongs clocks.new nl.new.cells) }
    ensures keeps { OnOk result (KeepsCounters clocks.old clocks.new) }
    ensures adds { OnOk result (AddsStores nl.old nl.new (scan_cells plan) (scan_products plan (products_in folds.now)) (loop_memories plan)) }
    ensures long { IfOk result (λ outs. length outs.items ≡ plan.lanes * plan.stride) }
    ensures scans { IfOk result (λ outs. AreScans nl.new.cells clocks.old.rst folds.now ins.now plan arrival (plan.levels + wait_of plan.slots) 0 outs.items) }
{
    let found = mark(nl, clocks, plan, arrival, plan.levels)?;
    let nets = copied(alloc, ins)?;
    let stride = plan.stride as usize;
    let lanes = plan.lanes as usize;
    let sums = sweep(alloc, nl, folds, nets, lanes, stride, plan.levels)?;
    let last = (lanes - 1) * stride;
    let outs = over_slots(alloc, nl, folds, sums, last, stride, found, plan.inner)?;
    Ok(outs)
}
