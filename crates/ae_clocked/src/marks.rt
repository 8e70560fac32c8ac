// Marks of the first clocks of each period, kept in registers.

ghost use Rattle.std.specs.Prelude.{◌<◌, ◌≤◌, ◌^◌, ◌+◌, ◌-◌, ◌%◌, ℕ, length, IfOk, OnOk, if◌then◌else◌};
ghost use Rattle.ae_netlist.specs.Circuit.{IsNet};
ghost use Rattle.ae_netlist.specs.Room.{HasRoom};
ghost use Rattle.ae_netlist.specs.Counts.{count_of, is_register};
ghost use Rattle.ae_netlist.specs.Runs.{InEveryResetRun, InEveryRunFrom};
ghost use Rattle.ae_gates.specs.Cells.{Adds, is_test};
ghost use Rattle.ae_clocked.specs.Signals.{BeginsWith, IsAt, Turns};
ghost use Rattle.ae_clocked.specs.Phases.{IsCounter, MarksPhases};

use crate::registers::{close, delayed, register};
use ae_gates::{choose, constant, differ, equal, width_at};
use ae_netlist::{NetId, Netlist};
use ae_word::Width;
use std::alloc::AllocError;

/// The bit that says whether a net has this word.
fn at_word(nl: &mut Netlist, r: NetId, width: Width, word: u32) -> Result<NetId, AllocError>
    requires net { IsNet nl.old.cells r.0 width }
    requires fits { word < 2 ^ width }
    requires room { HasRoom nl.old 2 }
    ensures adds { OnOk result (Adds nl.old nl.new 2 0) }
    ensures registers { OnOk result (count_of is_register nl.new.cells ≤ count_of is_register nl.old.cells) }
    ensures tests { OnOk result (count_of is_test nl.new.cells ≤ count_of is_test nl.old.cells + 1) }
    ensures net { IfOk result (λ y. IsNet nl.new.cells y.0 1) }
    ensures words { IfOk result (λ y. InEveryRunFrom (length nl.old.cells) nl.new.cells (λ run. IsAt run y.0 r.0 word)) }
{
    let bound = constant(nl, width, u64::from(word))?;
    let at = equal(nl, r, bound, width)?;
    Ok(at)
}

/// The bit that is 1 in phase `q` of a period that begins in the clock `offset`, by a counter of the same period that begins
/// in the clock `at`.
fn at_phase(
    nl: &mut Netlist,
    r: NetId,
    period: u32,
    at: u32,
    offset: u32,
    q: u32,
) -> Result<NetId, AllocError>
    requires counter { (rst : ℕ) × IsCounter nl.old.cells rst (record { period = period; offset = at }) r.0 }
    requires begins { at < period }
    requires low { offset < period }
    requires high { period ≤ 4096 }
    requires within { q < period }
    requires room { HasRoom nl.old 2 }
    ensures adds { OnOk result (Adds nl.old nl.new 2 0) }
    ensures registers { OnOk result (count_of is_register nl.new.cells ≤ count_of is_register nl.old.cells) }
    ensures tests { OnOk result (count_of is_test nl.new.cells ≤ count_of is_test nl.old.cells + 1) }
    ensures net { IfOk result (λ y. IsNet nl.new.cells y.0 1) }
    ensures words { IfOk result (λ y. InEveryRunFrom (length nl.old.cells) nl.new.cells (λ run. IsAt run y.0 r.0 ((q + (offset + period - at)) % period))) }
{
    let width = width_at(nl, r);
    at_word(nl, r, width, (q + (offset + period - at)) % period)
}

/// A register of one bit that takes `first` in a clock where the reset is 1, and else the word of `x`.
fn begun(nl: &mut Netlist, rst: NetId, first: bool, x: NetId) -> Result<NetId, AllocError>
    requires rst { IsNet nl.old.cells rst.0 1 }
    requires net { IsNet nl.old.cells x.0 1 }
    requires room { HasRoom nl.old 3 }
    ensures adds { OnOk result (Adds nl.old nl.new 3 0) }
    ensures registers { OnOk result (count_of is_register nl.new.cells ≤ count_of is_register nl.old.cells + 1) }
    ensures tests { OnOk result (count_of is_test nl.new.cells ≤ count_of is_test nl.old.cells) }
    ensures net { IfOk result (λ y. IsNet nl.new.cells y.0 1) }
    ensures words { IfOk result (λ y. InEveryRunFrom (length nl.old.cells) nl.new.cells (λ run. BeginsWith run y.0 rst.0 (if first then 1 else 0) x.0)) }
{
    let begin = constant(nl, Width::BIT, u64::from(first))?;
    let next = choose(nl, rst, begin, x, Width::BIT)?;
    let y = delayed(nl, next, Width::BIT)?;
    Ok(y)
}

/// A register of one bit that takes `first` in a clock where the reset is 1, and else turns where one of two bits is 1.
fn turning(
    nl: &mut Netlist,
    rst: NetId,
    first: bool,
    a: NetId,
    b: NetId,
) -> Result<NetId, AllocError>
    requires rst { IsNet nl.old.cells rst.0 1 }
    requires left { IsNet nl.old.cells a.0 1 }
    requires right { IsNet nl.old.cells b.0 1 }
    requires room { HasRoom nl.old 5 }
    ensures adds { OnOk result (Adds nl.old nl.new 5 0) }
    ensures registers { OnOk result (count_of is_register nl.new.cells ≤ count_of is_register nl.old.cells + 1) }
    ensures tests { OnOk result (count_of is_test nl.new.cells ≤ count_of is_test nl.old.cells) }
    ensures net { IfOk result (λ y. IsNet nl.new.cells y.0 1) }
    ensures words { IfOk result (λ y. InEveryRunFrom (length nl.old.cells) nl.new.cells (λ run. Turns run y.0 rst.0 (if first then 1 else 0) a.0 b.0)) }
{
    let y = register(nl, Width::BIT)?;
    let once = differ(nl, y, a, Width::BIT)?;
    let after = differ(nl, once, b, Width::BIT)?;
    let begin = constant(nl, Width::BIT, u64::from(first))?;
    let next = choose(nl, rst, begin, after, Width::BIT)?;
    close(nl, y, next);
    Ok(y)
}

/// The bit that is 1 in the first `from` clocks of each period from the clock `offset` on, by a counter that begins in the
/// clock `at`. It stands in a register, but where a bit of the counter itself says it.
pub fn marked(
    nl: &mut Netlist,
    rst: NetId,
    r: NetId,
    period: u32,
    at: u32,
    offset: u32,
    from: u32,
) -> Result<NetId, AllocError>
    requires rst { IsNet nl.old.cells rst.0 1 }
    requires counter { IsCounter nl.old.cells rst.0 (record { period = period; offset = at }) r.0 }
    requires begins { at < period }
    requires low { offset < period }
    requires high { period ≤ 4096 }
    requires within { from ≤ period }
    requires room { HasRoom nl.old 9 }
    ensures adds { OnOk result (Adds nl.old nl.new 9 0) }
    ensures registers { OnOk result (count_of is_register nl.new.cells ≤ count_of is_register nl.old.cells + 1) }
    ensures tests { OnOk result (count_of is_test nl.new.cells ≤ count_of is_test nl.old.cells + 2) }
    ensures net { IfOk result (λ y. IsNet nl.new.cells y.0 1) }
    ensures marks { IfOk result (λ y. InEveryResetRun nl.new.cells rst.0 (λ run start. MarksPhases run start y.0 period offset from)) }
{
    if from == 0 {
        let never = constant(nl, Width::BIT, 0)?;
        return Ok(never);
    }
    if from == period {
        let always = constant(nl, Width::BIT, 1)?;
        return Ok(always);
    }
    if period == 2 {
        let now = at_phase(nl, r, period, at, offset, 0)?;
        return Ok(now);
    }
    let first = (period - offset) % period < from;
    let begins = at_phase(nl, r, period, at, offset, period - 1)?;
    if from == 1 {
        let y = begun(nl, rst, first, begins)?;
        return Ok(y);
    }
    let ends = at_phase(nl, r, period, at, offset, from - 1)?;
    let y = turning(nl, rst, first, begins, ends)?;
    Ok(y)
}
