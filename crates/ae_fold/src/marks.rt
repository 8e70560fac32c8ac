// The mark of the first slot of each block, and the counter of where loops wait.

ghost use Rattle.std.specs.Prelude.{◌+◌, ◌-◌, ◌*◌, ◌<◌, ◌≤◌, IfOk, OnOk};
ghost use Rattle.ae_netlist.specs.Circuit.{IsNet};
ghost use Rattle.ae_netlist.specs.Runs.{InEveryResetRun};
ghost use Rattle.ae_netlist.specs.Room.{HasRoom};
ghost use Rattle.ae_gates.specs.Cells.{Adds};
ghost use Rattle.ae_clocked.specs.Phases.{Belongs, KeepsCounters};
ghost use Rattle.ae_fold.specs.Feedback.{Leads, MayPlace, TurnsAlways};
ghost use Rattle.ae_fold.specs.Rows.{IsPlan, Marks, wait_of};

use crate::feedback::RingCounter;
use crate::plan::{Plan, levels};
use ae_clocked::{Clocks, ring_depth};
use ae_netlist::{NetId, Netlist};
use std::alloc::AllocError;

/// The net that marks the first slot of each block, and the counter of rings for what waits in loops, where that may be long
/// enough for one.
#[derive(Clone, Copy)]
pub struct SlotMark {
    pub first: NetId,
    pub ring: Option<RingCounter>,
}

/// A bit that is 1 in the first `inner` clocks of each block, where blocks begin `delay` clocks after the arrival.
fn lead(
    nl: &mut Netlist,
    clocks: &mut Clocks,
    period: u32,
    arrival: u32,
    delay: u32,
    inner: u32,
    ahead: u32,
) -> Result<NetId, AllocError>
    requires belongs { Belongs clocks.old nl.old.cells }
    requires low { inner < period }
    requires high { period ≤ 4096 }
    requires short { delay ≤ 4096 }
    requires room { HasRoom nl.old 21 }
    ensures belongs { OnOk result (Belongs clocks.new nl.new.cells) }
    ensures keeps { OnOk result (KeepsCounters clocks.old clocks.new) }
    ensures adds { OnOk result (Adds nl.old nl.new 21 0) }
    ensures net { IfOk result (λ y. IsNet nl.new.cells y.0 1) }
    ensures words { IfOk result (λ y. InEveryResetRun nl.new.cells clocks.old.rst (λ run start. Leads run start y.0 period (arrival + delay) inner)) }
{
    let offset = (arrival % period + delay) % period;
    let wanted = (arrival % period + ahead % period) % period;
    let y = clocks.lead(nl, period, offset, inner, wanted)?;
    Ok(y)
}

/// The counter of a ring that reaches so far back, where that is 8 clocks or more.
fn place(
    nl: &mut Netlist,
    clocks: &mut Clocks,
    reach: u32,
) -> Result<Option<RingCounter>, AllocError>
    requires belongs { Belongs clocks.old nl.old.cells }
    requires most { reach ≤ 4096 }
    requires room { HasRoom nl.old 12 }
    ensures belongs { OnOk result (Belongs clocks.new nl.new.cells) }
    ensures keeps { OnOk result (KeepsCounters clocks.old clocks.new) }
    ensures adds { OnOk result (Adds nl.old nl.new 12 0) }
    ensures place { IfOk result (λ ring. MayPlace nl.new.cells reach ring) }
    ensures turns { IfOk result (λ ring. TurnsAlways nl.new.cells clocks.old.rst ring) }
{
    if reach < 8 {
        return Ok(None);
    }
    let bits = levels(reach);
    let net = clocks.phase(nl, ring_depth(bits), 0)?;
    Ok(Some(RingCounter { net, bits }))
}

/// The net that marks slot 0 of each block, in the clocks in which the folds over its lanes stand, where there are more
/// slots than one, with a counter for rings where loops wait 8 clocks or longer; it takes at most 33 cells. `ahead` says how many clocks after the arrival a later stage begins its
/// blocks, which may then share a counter with it; the words are the same for any.
pub fn mark(
    nl: &mut Netlist,
    clocks: &mut Clocks,
    plan: Plan,
    arrival: u32,
    ahead: u32,
) -> Result<Option<SlotMark>, AllocError>
    requires plan { IsPlan plan }
    requires belongs { Belongs clocks.old nl.old.cells }
    requires room { HasRoom nl.old (wait_of plan.slots * 33) }
    ensures belongs { OnOk result (Belongs clocks.new nl.new.cells) }
    ensures keeps { OnOk result (KeepsCounters clocks.old clocks.new) }
    ensures adds { OnOk result (Adds nl.old nl.new (wait_of plan.slots * 33) 0) }
    ensures marks { IfOk result (λ found. Marks nl.new.cells clocks.old.rst plan.slots plan.period (arrival + plan.levels) plan.inner found) }
{
    if plan.slots > 1 {
        let first = lead(
            nl,
            clocks,
            plan.period,
            arrival,
            plan.levels,
            plan.inner,
            ahead,
        )?;
        let ring = place(nl, clocks, plan.inner - 1)?;
        Ok(Some(SlotMark { first, ring }))
    } else {
        Ok(None)
    }
}
