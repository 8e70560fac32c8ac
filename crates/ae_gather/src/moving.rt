// All columns of a move.

ghost use Rattle.std.specs.Prelude.{◌≡◌, ◌<◌, ◌≤◌, ◌+◌, ◌*◌, sum_by, min, ◌^◌, ℕ, List, length, map, IfOk, OnOk, Some, slice_get};
ghost use Rattle.ae_sttype.specs.Moves.{delay_of, held_count, runs_of, steps_of};
ghost use Rattle.ae_netlist.specs.declared.cell.NetId.{NetId as Net};
ghost use Rattle.ae_netlist.specs.Circuit.{IsNet};
ghost use Rattle.ae_netlist.specs.Counts.{AreWhole, count_of, is_memory, is_mul};
ghost use Rattle.ae_netlist.specs.Room.{HasRoom};
ghost use Rattle.ae_gates.specs.Cells.{Adds, Grows};
ghost use Rattle.ae_clocked.specs.Phases.{Belongs, KeepsCounters, made_of};
ghost use Rattle.ae_clocked.specs.Delays.{line_cells};
ghost use Rattle.ae_columns.specs.declared.steps.Step.{Step as Part};
ghost use Rattle.ae_columns.specs.Counts.{Counted, early_count, steps_tests};
ghost use Rattle.ae_gather.specs.Counts.{line_registers, schedule_registers};
ghost use Rattle.ae_columns.specs.Early.{AreInTime, counter_for, hastened, is_early};
ghost use Rattle.ae_columns.specs.Plans.{AreInOrder, AreUsed, AreWithin, IsPlan, line_mems, steps_cells};
ghost use Rattle.ae_columns.specs.Columns.{AreReady, IsPhaseNet, net_of};
ghost use Rattle.ae_moves.specs.Rings.{mems_of, registers_of};
ghost use Rattle.ae_moves.specs.Trees.{trip_tree};
ghost use Rattle.ae_moves.specs.declared.trip.Trip.{Trip as Way};
ghost use Rattle.ae_columns.specs.Laws.{AreColumns, AreFitting, AreLines, MakesTrips};

use crate::early::{Allowance, Schedule, scheduled};
use crate::plan::{Ages, Steps};
use crate::reading::build_best;
use ae_clocked::{Clocks, Tapped, ring_line};
use ae_columns::{Counters, all_nets, all_settled, column, counter_for, counters, kept_count};
use ae_moves::{Trip, held_columns, most_registers};
use ae_netlist::{NetId, Netlist};
use ae_word::Width;
use std::alloc::{AllocError, Global};

/// When the blocks of a move come and go, in clocks: the input's block 0 begins in clock `arrival` after reset, one more
/// begins each `period` clocks, and the output's blocks are `latency` clocks later.
#[derive(Clone, Copy)]
pub struct BlockTimes {
    pub period: u32,
    pub latency: u32,
    pub arrival: u32,
}

/// A delay line for each input column.
fn all_lines(
    alloc: Global,
    nl: &mut Netlist,
    clocks: &mut Clocks,
    ins: &[NetId],
    ages: &[Ages],
) -> Result<Vec<Tapped>, AllocError>
    requires belongs { Belongs clocks.old nl.old.cells }
    requires nets { (q : ℕ) → q < length ins.now → (w : ℕ) × IsNet nl.old.cells (net_of ins.now q) w }
    requires long { length ages.now ≡ length ins.now }
    requires few { (q : ℕ) (all : List ℕ) → slice_get ages.now q ≡ Some all → length all < 2 ^ 32 }
    requires room { HasRoom nl.old (sum_by line_cells ages.now) }
    ensures belongs { OnOk result (Belongs clocks.new nl.new.cells) }
    ensures keeps { OnOk result (KeepsCounters clocks.old clocks.new) }
    ensures grows { OnOk result (Grows nl.old nl.new) }
    ensures cells { OnOk result (length nl.new.cells ≤ length nl.old.cells + sum_by line_cells ages.now) }
    ensures muls { OnOk result (count_of is_mul nl.new.cells ≡ count_of is_mul nl.old.cells) }
    ensures memories { OnOk result (count_of is_memory nl.new.cells ≤ count_of is_memory nl.old.cells + sum_by line_mems ages.now) }
    ensures counted { OnOk result (Counted nl.old nl.new (made_of clocks.old) (made_of clocks.new) (sum_by line_registers ages.now) 0) }
    ensures whole { OnOk result (AreWhole nl.old.cells → AreWhole nl.new.cells) }
    ensures lines { IfOk result (λ lines. AreLines nl.new.cells clocks.old.rst ins.now ages.now lines.items) }
{
    let mut lines = Vec::new(alloc);
    for q in 0..ages.len() {
        let tapped = ring_line(alloc, nl, ins[q], ages[q].all(), clocks)?;
        lines.push(tapped)?;
    }
    Ok(lines)
}

/// A chain of choices for each output column.
pub fn all_columns(
    alloc: Global,
    nl: &mut Netlist,
    clocks: &mut Clocks,
    ins: &[NetId],
    lines: &[Tapped],
    columns: &[Steps],
    widths: &[u32],
    early: &[bool],
    counters: Counters,
) -> Result<Vec<NetId>, AllocError>
    requires belongs { Belongs clocks.old nl.old.cells }
    requires early { length early.now ≡ length columns.now }
    requires phases { (q : ℕ) → q < length columns.now → IsPhaseNet nl.old.cells clocks.old.rst (counter_for (is_early early.now q) counters) }
    requires long { length widths.now ≡ length columns.now }
    requires begun { (q : ℕ) (steps : List Part) → slice_get columns.now q ≡ Some steps → 1 ≤ length steps }
    requires ready { (q w : ℕ) (steps : List Part) → slice_get columns.now q ≡ Some steps → slice_get widths.now q ≡ Some w → AreReady nl.old.cells clocks.old.rst w (counter_for (is_early early.now q) counters).limit ins.now lines.now steps }
    requires room { HasRoom nl.old (sum_by steps_cells columns.now + 3 * length columns.now) }
    ensures belongs { OnOk result (Belongs clocks.new nl.new.cells) }
    ensures keeps { OnOk result (KeepsCounters clocks.old clocks.new) }
    ensures adds { OnOk result (Adds nl.old nl.new (sum_by steps_cells columns.now + 3 * length columns.now) 0) }
    ensures counted { OnOk result (Counted nl.old nl.new (made_of clocks.old) (made_of clocks.new) (early_count early.now) (sum_by steps_tests columns.now)) }
    ensures columns { IfOk result (λ out. AreColumns nl.new.cells clocks.old.rst counters ins.now widths.now early.now columns.now out.items) }
{
    let mut out = Vec::new(alloc);
    for q in 0..columns.len() {
        let net = column(
            nl,
            clocks,
            ins,
            lines,
            columns[q].all(),
            Width { bits: widths[q] },
            early[q],
            counter_for(early[q], counters),
        )?;
        out.push(net)?;
    }
    Ok(out)
}

/// The least number that no trip's clock reaches.
pub fn limit_of(trips: &[Trip], period: u32) -> u32
    requires within { (n : ℕ) (trip : Way) → slice_get trips.now n ≡ Some trip → trip.clock < period }
    ensures below { (n : ℕ) (trip : Way) → slice_get trips.now n ≡ Some trip → trip.clock < result }
    ensures limited { result ≤ period }
{
    let mut limit = 0u32;
    for trip in trips {
        limit = limit.max(trip.clock + 1);
    }
    limit
}

/// What a plan says, built: output nets that make every trip, some clocks later, in each block of a period.
pub fn build_plan(
    alloc: Global,
    nl: &mut Netlist,
    clocks: &mut Clocks,
    ins: &[NetId],
    widths: &[u32],
    trips: &[Trip],
    schedule: &Schedule,
    times: BlockTimes,
) -> Result<Vec<NetId>, AllocError>
    requires belongs { Belongs clocks.old nl.old.cells }
    requires lasting { 1 ≤ times.period }
    requires limit { times.period ≤ 4096 }
    requires few { length trips.now < 2 ^ 32 }
    requires nets { (q : ℕ) → q < length ins.now → (w : ℕ) × IsNet nl.old.cells (net_of ins.now q) w }
    requires within { AreWithin times.period times.latency (length ins.now) (length widths.now) trips.now }
    requires used { AreUsed (length widths.now) trips.now }
    requires fitting { AreFitting nl.old.cells ins.now widths.now trips.now }
    requires some { 1 ≤ length widths.now }
    requires early { length schedule.now.early.items ≡ length widths.now }
    requires time { AreInTime times.latency schedule.now.early.items trips.now }
    requires moved { schedule.now.moved.items ≡ map (hastened schedule.now.early.items) trips.now }
    requires lines { length schedule.now.plan.lines.items ≡ length ins.now }
    requires columns { length schedule.now.plan.columns.items ≡ length widths.now }
    requires plan { IsPlan times.latency schedule.now.moved.items schedule.now.plan.lines.items schedule.now.plan.columns.items }
    requires taps { (q : ℕ) (ages : List ℕ) → slice_get schedule.now.plan.lines.items q ≡ Some ages → length ages ≤ length trips.now }
    requires room { HasRoom nl.old (12 * min 2 (length widths.now) + sum_by line_cells schedule.now.plan.lines.items + sum_by steps_cells schedule.now.plan.columns.items + 3 * length schedule.now.plan.columns.items) }
    ensures belongs { OnOk result (Belongs clocks.new nl.new.cells) }
    ensures keeps { OnOk result (KeepsCounters clocks.old clocks.new) }
    ensures grows { OnOk result (Grows nl.old nl.new) }
    ensures cells { OnOk result (length nl.new.cells ≤ length nl.old.cells + (12 * min 2 (length widths.now) + sum_by line_cells schedule.now.plan.lines.items + sum_by steps_cells schedule.now.plan.columns.items + 3 * length schedule.now.plan.columns.items)) }
    ensures muls { OnOk result (count_of is_mul nl.new.cells ≡ count_of is_mul nl.old.cells) }
    ensures memories { OnOk result (count_of is_memory nl.new.cells ≤ count_of is_memory nl.old.cells + sum_by line_mems schedule.now.plan.lines.items) }
    ensures counted { OnOk result (Counted nl.old nl.new (made_of clocks.old) (made_of clocks.new) (schedule_registers schedule.now) (sum_by steps_tests schedule.now.plan.columns.items)) }
    ensures whole { OnOk result (AreWhole nl.old.cells → AreWhole nl.new.cells) }
    ensures long { IfOk result (λ out. length out.items ≡ length widths.now) }
    ensures nets { IfOk result (λ out. (q w : ℕ) (y : Net) → slice_get widths.now q ≡ Some w → slice_get out.items q ≡ Some y → IsNet nl.new.cells y.0 w) }
    ensures trips { IfOk result (λ out. MakesTrips nl.new.cells clocks.old.rst times.period times.latency times.arrival ins.now out.items trips.now) }
{
    let limit = limit_of(trips, times.period);
    let counters = counters(
        nl,
        clocks,
        &schedule.early,
        times.period,
        times.latency,
        times.arrival,
        limit,
    )?;
    let lines = all_lines(alloc, nl, clocks, ins, &schedule.plan.lines)?;
    let out = all_columns(
        alloc,
        nl,
        clocks,
        ins,
        &lines,
        &schedule.plan.columns,
        widths,
        &schedule.early,
        counters,
    )?;
    Ok(out)
}

/// Output nets that make every trip, some clocks later, in each block of a period.
pub fn gather(
    alloc: Global,
    nl: &mut Netlist,
    clocks: &mut Clocks,
    ins: &[NetId],
    widths: &[u32],
    trips: &[Trip],
    times: BlockTimes,
    alone: bool,
) -> Result<Vec<NetId>, AllocError>
    requires belongs { Belongs clocks.old nl.old.cells }
    requires lasting { 1 ≤ times.period }
    requires limit { times.period ≤ 4096 }
    requires latency { times.latency ≤ 4096 }
    requires few { length trips.now < 2 ^ 32 }
    requires few_ins { length ins.now < 2 ^ 31 }
    requires few_outs { length widths.now < 2 ^ 32 }
    requires some { 1 ≤ length widths.now }
    requires nets { (q : ℕ) → q < length ins.now → (w : ℕ) × IsNet nl.old.cells (net_of ins.now q) w }
    requires order { AreInOrder trips.now }
    requires within { AreWithin times.period times.latency (length ins.now) (length widths.now) trips.now }
    requires used { AreUsed (length widths.now) trips.now }
    requires fitting { AreFitting nl.old.cells ins.now widths.now trips.now }
    requires room { HasRoom nl.old (16 * (times.latency + delay_of times.latency (length ins.now) (map trip_tree trips.now) + runs_of times.latency (length widths.now) (map trip_tree trips.now))) }
    ensures belongs { OnOk result (Belongs clocks.new nl.new.cells) }
    ensures keeps { OnOk result (KeepsCounters clocks.old clocks.new) }
    ensures grows { OnOk result (Grows nl.old nl.new) }
    ensures cells { OnOk result (length nl.new.cells ≤ length nl.old.cells + 16 * (times.latency + delay_of times.latency (length ins.now) (map trip_tree trips.now) + runs_of times.latency (length widths.now) (map trip_tree trips.now))) }
    ensures muls { OnOk result (count_of is_mul nl.new.cells ≡ count_of is_mul nl.old.cells) }
    ensures memories { OnOk result (count_of is_memory nl.new.cells ≤ count_of is_memory nl.old.cells + mems_of times.period times.latency (length ins.now) (map trip_tree trips.now)) }
    ensures counted { OnOk result (Counted nl.old nl.new (made_of clocks.old) (made_of clocks.new) (registers_of times.period times.latency (length ins.now) (map trip_tree trips.now)) (steps_of times.period times.latency (length widths.now) (map trip_tree trips.now) + held_count times.period times.latency (length ins.now) (map trip_tree trips.now))) }
    ensures whole { OnOk result (AreWhole nl.old.cells → AreWhole nl.new.cells) }
    ensures long { IfOk result (λ out. length out.items ≡ length widths.now) }
    ensures nets { IfOk result (λ out. (q w : ℕ) (y : Net) → slice_get widths.now q ≡ Some w → slice_get out.items q ≡ Some y → IsNet nl.new.cells y.0 w) }
    ensures trips { IfOk result (λ out. MakesTrips nl.new.cells clocks.old.rst times.period times.latency times.arrival ins.now out.items trips.now) }
{
    let held = held_columns(alloc, trips, times.latency, ins.len() as u32, times.period)?;
    let most = most_registers(alloc, trips, times.latency, ins.len() as u32, times.period)?;
    let spare = most.saturating_sub(kept_count(&held));
    let allowance = Allowance { alone, spare };
    let all = all_nets(
        alloc,
        nl,
        clocks,
        ins,
        &held,
        times.period,
        times.latency,
        times.arrival,
    )?;
    let settled = all_settled(alloc, trips, &held, times.latency)?;
    let schedule = scheduled(
        alloc,
        &settled,
        times.latency,
        ins.len() as u32 + ins.len() as u32,
        widths.len() as u32,
        allowance,
    )?;
    let out = build_best(
        alloc, nl, clocks, &all, widths, &settled, &schedule, times, allowance,
    )?;
    Ok(out)
}
