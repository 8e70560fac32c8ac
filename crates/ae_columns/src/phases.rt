// The counters that the columns of a move follow.

ghost use Rattle.std.specs.Prelude.{◌≡◌, ◌≢◌, ◌<◌, ◌≤◌, ◌+◌, ◌*◌, ◌%◌, ℕ, true, false, length, min, IfOk, OnOk, Some, slice_get};
ghost use Rattle.ae_netlist.specs.Room.{HasRoom};
ghost use Rattle.ae_gates.specs.Cells.{Adds};
ghost use Rattle.ae_clocked.specs.Phases.{Belongs, KeepsCounters, made_of};
ghost use Rattle.ae_columns.specs.Columns.{IsPhaseNet};
ghost use Rattle.ae_columns.specs.Counts.{Counted};
ghost use Rattle.ae_columns.specs.Early.{HasCounter, counter_for, is_early};

use crate::steps::{Counters, PhaseNet};
use ae_clocked::Clocks;
use ae_netlist::Netlist;
use std::alloc::AllocError;

/// The phase in which blocks begin that arrive in one clock and are some clocks late.
pub fn offset(arrival: u32, d: u32, period: u32) -> u32
    requires some { 1 ≤ period }
    requires most { period ≤ 4096 }
    ensures { result ≡ (arrival + d) % period }
{
    (arrival % period + d % period) % period
}

/// A counter of the phases of a period, in clocks, made once for each offset.
pub fn counting(
    nl: &mut Netlist,
    clocks: &mut Clocks,
    period: u32,
    offset: u32,
    limit: u32,
) -> Result<PhaseNet, AllocError>
    requires belongs { Belongs clocks.old nl.old.cells }
    requires low { offset < period }
    requires high { period ≤ 4096 }
    requires limited { limit ≤ period }
    requires room { HasRoom nl.old 12 }
    ensures belongs { OnOk result (Belongs clocks.new nl.new.cells) }
    ensures keeps { OnOk result (KeepsCounters clocks.old clocks.new) }
    ensures adds { OnOk result (Adds nl.old nl.new 12 0) }
    ensures counted { OnOk result (Counted nl.old nl.new (made_of clocks.old) (made_of clocks.new) 0 0) }
    ensures counts { IfOk result (λ y. IsPhaseNet nl.new.cells clocks.old.rst y) }
    ensures periodic { IfOk result (λ y. y.period ≡ period) }
    ensures offsets { IfOk result (λ y. y.offset ≡ offset) }
    ensures limits { IfOk result (λ y. y.limit ≡ limit) }
{
    let net = clocks.phase(nl, period, offset)?;
    Ok(PhaseNet {
        net,
        period,
        offset,
        limit,
    })
}

/// Whether a column is early, or one is not.
fn has(early: &[bool], value: bool) -> bool
    ensures found { result ≡ true → (q : ℕ) × (slice_get early.now q ≡ Some value) }
    ensures none { result ≡ false → (q : ℕ) → slice_get early.now q ≢ Some value }
{
    for q in 0..early.len() {
        if early[q] == value {
            return true;
        }
    }
    false
}

/// The counters that some columns follow: where all are early, or none is, it is one.
pub fn counters(
    nl: &mut Netlist,
    clocks: &mut Clocks,
    early: &[bool],
    period: u32,
    d: u32,
    arrival: u32,
    limit: u32,
) -> Result<Counters, AllocError>
    requires belongs { Belongs clocks.old nl.old.cells }
    requires lasting { 1 ≤ period }
    requires limit { period ≤ 4096 }
    requires some { 1 ≤ length early.now }
    requires limited { limit ≤ period }
    requires room { HasRoom nl.old (12 * min 2 (length early.now)) }
    ensures belongs { OnOk result (Belongs clocks.new nl.new.cells) }
    ensures keeps { OnOk result (KeepsCounters clocks.old clocks.new) }
    ensures adds { OnOk result (Adds nl.old nl.new (12 * min 2 (length early.now)) 0) }
    ensures counted { OnOk result (Counted nl.old nl.new (made_of clocks.old) (made_of clocks.new) 0 0) }
    ensures counters { IfOk result (λ y. (q : ℕ) → q < length early.now → HasCounter nl.new.cells clocks.old.rst (arrival + d) period limit y (is_early early.now q)) }
{
    let begin = offset(arrival, d, period);
    let ahead = offset(begin, period - 1, period);
    if !has(early, true) {
        let only = counting(nl, clocks, period, begin, limit)?;
        return Ok(Counters {
            later: only,
            sooner: only,
        });
    }
    if !has(early, false) {
        let only = counting(nl, clocks, period, ahead, limit)?;
        return Ok(Counters {
            later: only,
            sooner: only,
        });
    }
    let later = counting(nl, clocks, period, begin, limit)?;
    let sooner = counting(nl, clocks, period, ahead, limit)?;
    Ok(Counters { later, sooner })
}

/// The counter of the columns that are chosen early, or of the others.
pub fn counter_for(early: bool, counters: Counters) -> PhaseNet
    ensures { result ≡ counter_for early counters }
{
    if early {
        counters.sooner
    } else {
        counters.later
    }
}
