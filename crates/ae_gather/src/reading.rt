// Output columns that read words from rings: what is planned, and what is built.

ghost use Rattle.std.specs.Prelude.{◌≡◌, ◌<◌, ◌≤◌, ◌+◌, ◌*◌, sum_by, min, map, ◌^◌, [], if◌then◌else◌, ℕ, List, Option, true, length, get_or, IfOk, OnOk, Some, slice_get};
ghost use Rattle.ae_netlist.specs.declared.cell.NetId.{NetId as Net};
ghost use Rattle.ae_netlist.specs.Circuit.{IsNet, width_of};
ghost use Rattle.ae_netlist.specs.Counts.{AreWhole, count_of, is_memory, is_mul};
ghost use Rattle.ae_netlist.specs.Room.{HasRoom};
ghost use Rattle.ae_gates.specs.Cells.{Adds, Grows};
ghost use Rattle.ae_clocked.specs.Phases.{Belongs, KeepsCounters, made_of};
ghost use Rattle.ae_clocked.specs.Delays.{line_cells};
ghost use Rattle.ae_clocked.specs.Rings.{AddsMemories};
ghost use Rattle.ae_clocked.specs.declared.ring.Ring.{Ring as Ringed};
ghost use Rattle.ae_columns.specs.Columns.{net_of};
ghost use Rattle.ae_columns.specs.Counts.{Counted, steps_tests};
ghost use Rattle.ae_gather.specs.Counts.{IsSpare, reader_count, reader_registers, schedule_registers};
ghost use Rattle.ae_columns.specs.Early.{AreInTime, hastened};
ghost use Rattle.ae_columns.specs.Laws.{AreFitting, FitsColumn, MakesTrips};
ghost use Rattle.ae_columns.specs.Plans.{AreInOrder, AreUsed, AreWithin, IsPlan, line_mems, steps_cells};
ghost use Rattle.ae_gather.specs.Readings.{IsNoDearer, IsReading};
ghost use Rattle.ae_gather.specs.Readers.{AreReads, AreRings, ReadsColumn, RingOf, ShowsPlaces};
ghost use Rattle.ae_gather.specs.Reads.{ring_count};
ghost use Rattle.ae_moves.specs.declared.trip.Trip.{Trip as Way};

use crate::cost::{
    columns_cost, columns_steps, columns_tests, early_count, lines_cost, lines_registers,
    lines_rings, readers_count, rings_count,
};
use crate::early::{Allowance, Schedule, none_early, scheduled};
use crate::moving::{BlockTimes, all_columns, build_plan, limit_of};
use crate::places::{all_places, all_read};
use crate::plan::{Plan, planned};
use crate::reads::{Reads, which_read};
use crate::rings::{make_ring, ring_read};
use ae_clocked::{Clocks, Ring};
use ae_columns::{Counters, counting, offset};
use ae_gates::width_at;
use ae_moves::Trip;
use ae_netlist::{NetId, Netlist};
use std::alloc::{AllocError, Global};

/// Which columns read from rings, the trips from what they read, how these are made, and the places that are read.
#[derive(Drop)]
pub struct Reading {
    pub reads: Reads,
    pub trips: Vec<Trip>,
    pub schedule: Schedule,
    pub places: Vec<Trip>,
    pub plan: Plan,
}

/// Whether what is read from rings takes no more registers than so many, and no more comparisons than there are steps
/// without rings.
fn is_spare(reading: &Reading, schedule: &Schedule, spare: u64) -> bool
    ensures { result ≡ true → IsSpare spare reading.now schedule.now }
{
    let readers = readers_count(&reading.reads);
    let lines = lines_registers(&reading.schedule.plan.lines);
    let early = early_count(&reading.schedule.early);
    let shown = columns_tests(&reading.plan.columns);
    let chosen = columns_tests(&reading.schedule.plan.columns);
    if readers.max(lines).max(early).max(shown).max(chosen) == u64::MAX {
        return false;
    }
    let registers = u128::from(readers) + u128::from(lines) + u128::from(early);
    let tests = u128::from(shown) + u128::from(chosen);
    registers <= u128::from(spare) && tests <= u128::from(columns_steps(&schedule.plan.columns))
}

/// Whether what is read from rings takes no more cells and memories than the lines that would be there without them, and
/// registers and comparisons within their bounds.
fn is_no_dearer(reading: &Reading, schedule: &Schedule, outs: u32, spare: u64) -> bool
    requires few { (q : ℕ) (ages : List ℕ) → slice_get reading.now.schedule.plan.lines.items q ≡ Some ages → length ages < 2 ^ 32 }
    requires few_lines { (q : ℕ) (ages : List ℕ) → slice_get schedule.now.plan.lines.items q ≡ Some ages → length ages < 2 ^ 32 }
    ensures { result ≡ true → IsNoDearer outs spare reading.now schedule.now }
{
    let rings = rings_count(&reading.reads.rings);
    let lines = lines_cost(&reading.schedule.plan.lines);
    let columns = columns_cost(&reading.schedule.plan.columns);
    let shown = columns_cost(&reading.plan.columns);
    let memories = lines_rings(&reading.schedule.plan.lines);
    if rings == 0 || rings.max(lines).max(columns).max(shown).max(memories) == u64::MAX {
        return false;
    }
    let cells = u128::from(lines) + u128::from(columns) + u128::from(shown);
    let more = 14 * u128::from(rings) + 6 * u128::from(outs) + 12;
    let most = u128::from(lines_cost(&schedule.plan.lines))
        + u128::from(columns_cost(&schedule.plan.columns));
    is_spare(reading, schedule, spare)
        && cells + more <= most
        && u128::from(memories) + u128::from(rings) <= u128::from(lines_rings(&schedule.plan.lines))
}

/// The plan of a move whose columns read from rings.
fn plan_reading(
    alloc: Global,
    trips: &[Trip],
    d: u32,
    ins: u32,
    outs: u32,
    allowance: Allowance,
) -> Result<Reading, AllocError>
    requires latency { d ≤ 4096 }
    requires few { length trips.now < 2 ^ 32 }
    requires few_nets { ins + outs < 2 ^ 32 }
    requires within { AreWithin 4096 d ins outs trips.now }
    requires order { AreInOrder trips.now }
    ensures { IfOk result (λ r. IsReading d ins outs trips.now r) }
{
    let reads = which_read(alloc, trips, d, ins, outs)?;
    let moved = all_read(alloc, trips, &reads, d)?;
    let schedule = scheduled(alloc, &moved, d, ins + outs, outs, allowance)?;
    let places = all_places(alloc, trips, &reads, d)?;
    let plan = planned(alloc, &places, d, 0, outs)?;
    Ok(Reading {
        reads,
        trips: moved,
        schedule,
        places,
        plan,
    })
}

/// The ring of a column that has one.
fn ring_of(
    nl: &mut Netlist,
    clocks: &mut Clocks,
    x: NetId,
    has: bool,
    bits: u32,
) -> Result<Option<Ring>, AllocError>
    requires belongs { Belongs clocks.old nl.old.cells }
    requires net { IsNet nl.old.cells x.0 (width_of nl.old.cells x.0) }
    requires low { 3 ≤ bits }
    requires high { bits ≤ 12 }
    requires room { HasRoom nl.old (14 * (if has then 1 else 0)) }
    ensures belongs { OnOk result (Belongs clocks.new nl.new.cells) }
    ensures keeps { OnOk result (KeepsCounters clocks.old clocks.new) }
    ensures adds { OnOk result (AddsMemories nl.old nl.new (14 * (if has then 1 else 0)) (if has then 1 else 0)) }
    ensures counted { OnOk result (Counted nl.old nl.new (made_of clocks.old) (made_of clocks.new) 0 0) }
    ensures ring { IfOk result (λ r. (ring : Ringed) → r ≡ Some ring → RingOf nl.new.cells clocks.old.rst bits x.0 ring) }
    ensures has { IfOk result (λ r. has ≡ true → (ring : Ringed) × (r ≡ Some ring)) }
{
    if !has {
        return Ok(None);
    }
    let width = width_at(nl, x);
    let ring = make_ring(nl, clocks, x, width, bits)?;
    Ok(Some(ring))
}

fn all_rings(
    alloc: Global,
    nl: &mut Netlist,
    clocks: &mut Clocks,
    ins: &[NetId],
    reads: &Reads,
) -> Result<Vec<Option<Ring>>, AllocError>
    requires belongs { Belongs clocks.old nl.old.cells }
    requires nets { (q : ℕ) → q < length ins.now → (w : ℕ) × IsNet nl.old.cells (net_of ins.now q) w }
    requires long { length ins.now ≡ length reads.now.rings.items }
    requires low { 3 ≤ reads.now.bits }
    requires high { reads.now.bits ≤ 12 }
    requires room { HasRoom nl.old (14 * ring_count reads.now.rings.items) }
    ensures belongs { OnOk result (Belongs clocks.new nl.new.cells) }
    ensures keeps { OnOk result (KeepsCounters clocks.old clocks.new) }
    ensures adds { OnOk result (AddsMemories nl.old nl.new (14 * ring_count reads.now.rings.items) (ring_count reads.now.rings.items)) }
    ensures counted { OnOk result (Counted nl.old nl.new (made_of clocks.old) (made_of clocks.new) 0 0) }
    ensures rings { IfOk result (λ rings. AreRings (length ins.now) nl.new.cells clocks.old.rst reads.now ins.now rings.items) }
{
    let mut rings = Vec::new(alloc);
    for q in 0..ins.len() {
        let ring = ring_of(nl, clocks, ins[q], reads.rings[q], reads.bits)?;
        rings.push(ring)?;
    }
    Ok(rings)
}

/// What an output column reads; and the net of its place, where it reads nothing.
fn read_net(
    nl: &mut Netlist,
    ins: &[NetId],
    rings: &[Option<Ring>],
    reads: &Reads,
    q: usize,
    place: NetId,
) -> Result<NetId, AllocError>
    requires out { q < length reads.now.from.items }
    requires place { IsNet nl.old.cells place.0 reads.now.bits }
    requires low { 3 ≤ reads.now.bits }
    requires high { reads.now.bits ≤ 12 }
    requires rings { (rst : ℕ) × AreRings (length ins.now) nl.old.cells rst reads.now ins.now rings.now }
    requires long { length ins.now ≡ length reads.now.rings.items }
    requires room { HasRoom nl.old 3 }
    ensures adds { OnOk result (Adds nl.old nl.new 3 0) }
    ensures counted { OnOk result (Counted nl.old nl.new 0 0 (reader_registers reads.now.rings.items (get_or reads.now.from.items q Option.None)) 0) }
    ensures reads { IfOk result (λ y. (rst : ℕ) → AreRings (length ins.now) nl.old.cells rst reads.now ins.now rings.now → ReadsColumn nl.new.cells rst reads.now (get_or reads.now.from.items q Option.None) ins.now place.0 y.0) }
{
    let Some(x) = reads.from[q] else {
        return Ok(place);
    };
    let at = x as usize;
    if at >= rings.len() || !reads.rings[at] {
        return Ok(place);
    }
    let Some(ring) = rings[at] else {
        return Ok(place);
    };
    let width = width_at(nl, ins[at]);
    let y = ring_read(nl, ring, place, width)?;
    Ok(y)
}

/// The nets of the input columns, and behind them what each output column reads.
fn all_reads(
    alloc: Global,
    nl: &mut Netlist,
    ins: &[NetId],
    rings: &[Option<Ring>],
    reads: &Reads,
    places: &[NetId],
) -> Result<Vec<NetId>, AllocError>
    requires places { (q : ℕ) → q < length reads.now.from.items → IsNet nl.old.cells (net_of places.now q) reads.now.bits }
    requires shown { length places.now ≡ length reads.now.from.items }
    requires low { 3 ≤ reads.now.bits }
    requires high { reads.now.bits ≤ 12 }
    requires rings { (rst : ℕ) × AreRings (length ins.now) nl.old.cells rst reads.now ins.now rings.now }
    requires long { length ins.now ≡ length reads.now.rings.items }
    requires room { HasRoom nl.old (3 * length reads.now.from.items) }
    ensures adds { OnOk result (Adds nl.old nl.new (3 * length reads.now.from.items) 0) }
    ensures counted { OnOk result (Counted nl.old nl.new 0 0 (reader_count reads.now) 0) }
    ensures reads { IfOk result (λ all. (rst : ℕ) → AreRings (length ins.now) nl.old.cells rst reads.now ins.now rings.now → AreReads (length reads.now.from.items) nl.new.cells rst reads.now ins.now places.now all.items) }
{
    let mut all = Vec::new(alloc);
    all.extend_from_slice(ins)?;
    for q in 0..reads.from.len() {
        let net = read_net(nl, ins, rings, reads, q, places[q])?;
        all.push(net)?;
    }
    Ok(all)
}

fn all_bits(alloc: Global, count: usize, bits: u32) -> Result<Vec<u32>, AllocError>
    ensures long { IfOk result (λ v. length v.items ≡ count) }
    ensures each { IfOk result (λ v. (q w : ℕ) → slice_get v.items q ≡ Some w → w ≡ bits) }
{
    let mut all = Vec::new(alloc);
    for i in 0..count {
        all.push(bits)?;
    }
    Ok(all)
}

/// The places that the output columns read, each a clock before its word is due.
fn place_nets(
    alloc: Global,
    nl: &mut Netlist,
    clocks: &mut Clocks,
    reading: &Reading,
    outs: u32,
    times: BlockTimes,
    limit: u32,
) -> Result<Vec<NetId>, AllocError>
    requires belongs { Belongs clocks.old nl.old.cells }
    requires lasting { 1 ≤ times.period }
    requires limit { times.period ≤ 4096 }
    requires limited { limit ≤ times.period }
    requires below { (n : ℕ) (trip : Way) → slice_get reading.now.places.items n ≡ Some trip → trip.clock < limit }
    requires low { 3 ≤ reading.now.reads.bits }
    requires high { reading.now.reads.bits ≤ 12 }
    requires within { AreWithin times.period times.latency 0 outs reading.now.places.items }
    requires used { AreUsed outs reading.now.places.items }
    requires fits { (n : ℕ) (trip : Way) → slice_get reading.now.places.items n ≡ Some trip → FitsColumn nl.old.cells [] reading.now.reads.bits trip.source }
    requires none { length reading.now.plan.lines.items ≡ 0 }
    requires columns { length reading.now.plan.columns.items ≡ outs }
    requires plan { IsPlan times.latency reading.now.places.items reading.now.plan.lines.items reading.now.plan.columns.items }
    requires room { HasRoom nl.old (12 + (sum_by steps_cells reading.now.plan.columns.items + 3 * outs)) }
    ensures belongs { OnOk result (Belongs clocks.new nl.new.cells) }
    ensures keeps { OnOk result (KeepsCounters clocks.old clocks.new) }
    ensures adds { OnOk result (Adds nl.old nl.new (12 + (sum_by steps_cells reading.now.plan.columns.items + 3 * outs)) 0) }
    ensures counted { OnOk result (Counted nl.old nl.new (made_of clocks.old) (made_of clocks.new) 0 (sum_by steps_tests reading.now.plan.columns.items)) }
    ensures long { IfOk result (λ out. length out.items ≡ outs) }
    ensures nets { IfOk result (λ out. (q : ℕ) → q < outs → IsNet nl.new.cells (net_of out.items q) reading.now.reads.bits) }
    ensures shows { IfOk result (λ out. ShowsPlaces nl.new.cells clocks.old.rst times.period times.latency times.arrival out.items reading.now.places.items) }
{
    let widths = all_bits(alloc, outs as usize, reading.reads.bits)?;
    let early = none_early(alloc, outs)?;
    let begin = offset(times.arrival, times.latency, times.period);
    let ahead = offset(begin, times.period - 1, times.period);
    let phase = counting(nl, clocks, times.period, ahead, limit)?;
    let counters = Counters {
        later: phase,
        sooner: phase,
    };
    let out = all_columns(
        alloc,
        nl,
        clocks,
        &[],
        &[],
        &reading.plan.columns,
        &widths,
        &early,
        counters,
    )?;
    Ok(out)
}

/// What a plan with rings says, built.
fn build_reading(
    alloc: Global,
    nl: &mut Netlist,
    clocks: &mut Clocks,
    ins: &[NetId],
    widths: &[u32],
    trips: &[Trip],
    reading: &Reading,
    times: BlockTimes,
) -> Result<Vec<NetId>, AllocError>
    requires belongs { Belongs clocks.old nl.old.cells }
    requires lasting { 1 ≤ times.period }
    requires limit { times.period ≤ 4096 }
    requires latency { times.latency ≤ 4096 }
    requires few { length trips.now < 2 ^ 32 }
    requires nets { (q : ℕ) → q < length ins.now → (w : ℕ) × IsNet nl.old.cells (net_of ins.now q) w }
    requires order { AreInOrder trips.now }
    requires within { AreWithin times.period times.latency (length ins.now) (length widths.now) trips.now }
    requires used { AreUsed (length widths.now) trips.now }
    requires fitting { AreFitting nl.old.cells ins.now widths.now trips.now }
    requires some { 1 ≤ length widths.now }
    requires few_outs { length widths.now < 2 ^ 32 }
    requires reading { IsReading times.latency (length ins.now) (length widths.now) trips.now reading.now }
    requires room { HasRoom nl.old (12 + 14 * ring_count reading.now.reads.rings.items + 6 * length widths.now + sum_by steps_cells reading.now.plan.columns.items + sum_by line_cells reading.now.schedule.plan.lines.items + sum_by steps_cells reading.now.schedule.plan.columns.items + 12 * min 2 (length widths.now) + 3 * length widths.now) }
    ensures belongs { OnOk result (Belongs clocks.new nl.new.cells) }
    ensures keeps { OnOk result (KeepsCounters clocks.old clocks.new) }
    ensures grows { OnOk result (Grows nl.old nl.new) }
    ensures cells { OnOk result (length nl.new.cells ≤ length nl.old.cells + (12 + 14 * ring_count reading.now.reads.rings.items + 6 * length widths.now + sum_by steps_cells reading.now.plan.columns.items + sum_by line_cells reading.now.schedule.plan.lines.items + sum_by steps_cells reading.now.schedule.plan.columns.items + 12 * min 2 (length widths.now) + 3 * length widths.now)) }
    ensures muls { OnOk result (count_of is_mul nl.new.cells ≡ count_of is_mul nl.old.cells) }
    ensures memories { OnOk result (count_of is_memory nl.new.cells ≤ count_of is_memory nl.old.cells + (ring_count reading.now.reads.rings.items + sum_by line_mems reading.now.schedule.plan.lines.items)) }
    ensures counted { OnOk result (Counted nl.old nl.new (made_of clocks.old) (made_of clocks.new) (reader_count reading.now.reads + schedule_registers reading.now.schedule) (sum_by steps_tests reading.now.plan.columns.items + sum_by steps_tests reading.now.schedule.plan.columns.items)) }
    ensures whole { OnOk result (AreWhole nl.old.cells → AreWhole nl.new.cells) }
    ensures long { IfOk result (λ out. length out.items ≡ length widths.now) }
    ensures nets { IfOk result (λ out. (q w : ℕ) (y : Net) → slice_get widths.now q ≡ Some w → slice_get out.items q ≡ Some y → IsNet nl.new.cells y.0 w) }
    ensures trips { IfOk result (λ out. MakesTrips nl.new.cells clocks.old.rst times.period times.latency times.arrival ins.now out.items trips.now) }
{
    let limit = limit_of(trips, times.period);
    let rings = all_rings(alloc, nl, clocks, ins, &reading.reads)?;
    let outs = widths.len() as u32;
    let places = place_nets(alloc, nl, clocks, reading, outs, times, limit)?;
    let all = all_reads(alloc, nl, ins, &rings, &reading.reads, &places)?;
    let out = build_plan(
        alloc,
        nl,
        clocks,
        &all,
        widths,
        &reading.trips,
        &reading.schedule,
        times,
    )?;
    Ok(out)
}

/// What a schedule says, built, with words from rings where these take no more cells and memories.
pub fn build_best(
    alloc: Global,
    nl: &mut Netlist,
    clocks: &mut Clocks,
    ins: &[NetId],
    widths: &[u32],
    trips: &[Trip],
    schedule: &Schedule,
    times: BlockTimes,
    allowance: Allowance,
) -> Result<Vec<NetId>, AllocError>
    requires belongs { Belongs clocks.old nl.old.cells }
    requires lasting { 1 ≤ times.period }
    requires limit { times.period ≤ 4096 }
    requires latency { times.latency ≤ 4096 }
    requires few { length trips.now < 2 ^ 32 }
    requires nets { (q : ℕ) → q < length ins.now → (w : ℕ) × IsNet nl.old.cells (net_of ins.now q) w }
    requires order { AreInOrder trips.now }
    requires within { AreWithin times.period times.latency (length ins.now) (length widths.now) trips.now }
    requires used { AreUsed (length widths.now) trips.now }
    requires fitting { AreFitting nl.old.cells ins.now widths.now trips.now }
    requires some { 1 ≤ length widths.now }
    requires early { length schedule.now.early.items ≡ length widths.now }
    requires time { AreInTime times.latency schedule.now.early.items trips.now }
    requires moved { schedule.now.moved.items ≡ map (hastened schedule.now.early.items) trips.now }
    requires lines { length schedule.now.plan.lines.items ≡ length ins.now }
    requires columns { length schedule.now.plan.columns.items ≡ length widths.now }
    requires plan { IsPlan times.latency schedule.now.moved.items schedule.now.plan.lines.items schedule.now.plan.columns.items }
    requires taps { (q : ℕ) (ages : List ℕ) → slice_get schedule.now.plan.lines.items q ≡ Some ages → length ages ≤ length trips.now }
    requires spare { schedule_registers schedule.now ≤ allowance.spare }
    requires room { HasRoom nl.old (12 * min 2 (length widths.now) + sum_by line_cells schedule.now.plan.lines.items + sum_by steps_cells schedule.now.plan.columns.items + 3 * length schedule.now.plan.columns.items) }
    ensures belongs { OnOk result (Belongs clocks.new nl.new.cells) }
    ensures keeps { OnOk result (KeepsCounters clocks.old clocks.new) }
    ensures grows { OnOk result (Grows nl.old nl.new) }
    ensures cells { OnOk result (length nl.new.cells ≤ length nl.old.cells + (12 * min 2 (length widths.now) + sum_by line_cells schedule.now.plan.lines.items + sum_by steps_cells schedule.now.plan.columns.items + 3 * length schedule.now.plan.columns.items)) }
    ensures muls { OnOk result (count_of is_mul nl.new.cells ≡ count_of is_mul nl.old.cells) }
    ensures memories { OnOk result (count_of is_memory nl.new.cells ≤ count_of is_memory nl.old.cells + sum_by line_mems schedule.now.plan.lines.items) }
    ensures counted { OnOk result (Counted nl.old nl.new (made_of clocks.old) (made_of clocks.new) allowance.spare (sum_by length schedule.now.plan.columns.items)) }
    ensures whole { OnOk result (AreWhole nl.old.cells → AreWhole nl.new.cells) }
    ensures long { IfOk result (λ out. length out.items ≡ length widths.now) }
    ensures nets { IfOk result (λ out. (q w : ℕ) (y : Net) → slice_get widths.now q ≡ Some w → slice_get out.items q ≡ Some y → IsNet nl.new.cells y.0 w) }
    ensures trips { IfOk result (λ out. MakesTrips nl.new.cells clocks.old.rst times.period times.latency times.arrival ins.now out.items trips.now) }
{
    if ins.len() < 2147483648 && widths.len() < 2147483648 {
        let outs = widths.len() as u32;
        let reading = plan_reading(
            alloc,
            trips,
            times.latency,
            ins.len() as u32,
            outs,
            allowance,
        )?;
        if is_no_dearer(&reading, schedule, outs, allowance.spare) {
            let out = build_reading(alloc, nl, clocks, ins, widths, trips, &reading, times)?;
            return Ok(out);
        }
    }
    let out = build_plan(alloc, nl, clocks, ins, widths, trips, schedule, times)?;
    Ok(out)
}
