// Which columns are chosen a clock early, and what is planned then.

ghost use Rattle.std.specs.Prelude.{◌≡◌, ◌<◌, ◌≤◌, ◌+◌, ◌^◌, ℕ, true, false, List, length, map, sum_by, IfOk, Some, slice_get};
ghost use Rattle.ae_sttype.specs.Moves.{column_delay, delay_of, runs_of};
ghost use Rattle.ae_clocked.specs.Delays.{greatest_of};
ghost use Rattle.ae_moves.specs.Trees.{trip_tree};
ghost use Rattle.ae_moves.specs.declared.trip.Trip.{Trip as Way};
ghost use Rattle.ae_columns.specs.declared.steps.Step.{Step as Part};
ghost use Rattle.ae_columns.specs.Plans.{AreInOrder, AreWithin, IsPlan, IsReached};
ghost use Rattle.ae_columns.specs.Counts.{early_count};
ghost use Rattle.ae_gather.specs.Counts.{schedule_registers};
ghost use Rattle.ae_columns.specs.Early.{AllComeLate, AreInTime, ComesLate, hastened, is_early};

use crate::cost::{early_count, lines_registers};
use crate::plan::{Plan, Steps, planned};
use ae_columns::Step;
use ae_moves::{Choice, Source, Trip};
use std::alloc::{AllocError, Global};

/// Which output columns are chosen a clock early, the trips with the words that these take sooner, and their plan.
#[derive(Drop)]
pub struct Schedule {
    pub early: Vec<bool>,
    pub moved: Vec<Trip>,
    pub plan: Plan,
}

/// What a schedule may take: `spare` registers, and columns that are chosen a clock early where nothing but this move reads
/// its arguments, which is `alone`.
#[derive(Clone, Copy)]
pub struct Allowance {
    pub alone: bool,
    pub spare: u64,
}

fn comes_late(choice: Choice) -> bool
    ensures { result ≡ true → ComesLate choice }
{
    match choice {
        Choice::Delayed { column: _, age } => age > 0,
        Choice::Constant(_) => true,
    }
}

fn all_come_late(steps: &[Step]) -> bool
    ensures { result ≡ true → AllComeLate steps.now }
{
    for k in 0..steps.len() {
        if !comes_late(steps[k].take) {
            return false;
        }
    }
    true
}

/// Whether a column is chosen in front of a register: it takes no word of its own clock, and its first choice is not one
/// that would have to be kept for several clocks from the first clock of a block on.
fn is_chosen_early(steps: &[Step]) -> bool
    ensures { result ≡ true → AllComeLate steps.now }
{
    if steps.len() < 2 {
        return false;
    }
    if steps[0].from == 0 && steps[1].from > 1 {
        return false;
    }
    all_come_late(steps)
}

pub fn none_early(alloc: Global, count: u32) -> Result<Vec<bool>, AllocError>
    ensures long { IfOk result (λ v. length v.items ≡ count) }
    ensures none { IfOk result (λ v. (q : ℕ) → is_early v.items q ≡ false) }
{
    let mut early = Vec::new(alloc);
    for i in 0..count {
        early.push(false)?;
    }
    Ok(early)
}

fn each_early(alloc: Global, columns: &[Steps]) -> Result<Vec<bool>, AllocError>
    ensures long { IfOk result (λ v. length v.items ≡ length columns.now) }
    ensures late { IfOk result (λ v. (q : ℕ) (steps : List Part) → slice_get columns.now q ≡ Some steps → is_early v.items q ≡ true → AllComeLate steps) }
{
    let mut early = Vec::new(alloc);
    for q in 0..columns.len() {
        early.push(is_chosen_early(columns[q].all()))?;
    }
    Ok(early)
}

/// Which output columns are chosen early, where nothing but this move reads its arguments.
fn which_early(
    alloc: Global,
    trips: &[Trip],
    d: u32,
    ins: u32,
    outs: u32,
    alone: bool,
) -> Result<Vec<bool>, AllocError>
    requires latency { d ≤ 4096 }
    requires few { length trips.now < 2 ^ 32 }
    requires within { AreWithin 4096 d ins outs trips.now }
    requires order { AreInOrder trips.now }
    ensures long { IfOk result (λ v. length v.items ≡ outs) }
    ensures time { IfOk result (λ v. AreInTime d v.items trips.now) }
{
    if !alone {
        return none_early(alloc, outs);
    }
    let plan = planned(alloc, trips, d, ins, outs)?;
    let early = each_early(alloc, &plan.columns)?;
    Ok(early)
}

/// The trip, with its word one clock later in its block where its column is chosen a clock early.
fn sooner(trip: &Trip, early: &[bool]) -> Trip
    requires column { trip.now.column < length early.now }
    requires reached { IsReached 4096 trip.now.clock trip.now.source }
    requires clock { trip.now.clock < 4096 }
    ensures { result ≡ hastened early.now trip.now }
{
    match trip.source {
        Source::Place { clock, column } => {
            let late = if early[trip.column as usize] { 1 } else { 0 };
            Trip {
                clock: trip.clock,
                column: trip.column,
                source: Source::Place {
                    clock: clock + late,
                    column,
                },
            }
        }
        Source::Fixed(_) => *trip,
    }
}

fn all_sooner(alloc: Global, trips: &[Trip], early: &[bool]) -> Result<Vec<Trip>, AllocError>
    requires columns { (n : ℕ) (trip : Way) → slice_get trips.now n ≡ Some trip → trip.column < length early.now }
    requires reached { (n : ℕ) (trip : Way) → slice_get trips.now n ≡ Some trip → IsReached 4096 trip.clock trip.source }
    requires clocks { (n : ℕ) (trip : Way) → slice_get trips.now n ≡ Some trip → trip.clock < 4096 }
    ensures { IfOk result (λ v. v.items ≡ map (hastened early.now) trips.now) }
{
    let mut moved = Vec::new(alloc);
    for trip in trips {
        moved.push(sooner(trip, early))?;
    }
    Ok(moved)
}

/// The trips with the words that these columns take sooner, and a plan for them.
fn schedule_of(
    alloc: Global,
    trips: &[Trip],
    d: u32,
    ins: u32,
    outs: u32,
    early: Vec<bool>,
) -> Result<Schedule, AllocError>
    requires latency { d ≤ 4096 }
    requires few { length trips.now < 2 ^ 32 }
    requires within { AreWithin 4096 d ins outs trips.now }
    requires order { AreInOrder trips.now }
    requires early { length early.items ≡ outs }
    requires time { AreInTime d early.items trips.now }
    ensures same { IfOk result (λ s. s.early.items ≡ early.items) }
    ensures early { IfOk result (λ s. length s.early.items ≡ outs) }
    ensures time { IfOk result (λ s. AreInTime d s.early.items trips.now) }
    ensures moved { IfOk result (λ s. s.moved.items ≡ map (hastened s.early.items) trips.now) }
    ensures lines { IfOk result (λ s. length s.plan.lines.items ≡ ins) }
    ensures columns { IfOk result (λ s. length s.plan.columns.items ≡ outs) }
    ensures plan { IfOk result (λ s. IsPlan d s.moved.items s.plan.lines.items s.plan.columns.items) }
    ensures runs { IfOk result (λ s. sum_by length s.plan.columns.items ≤ runs_of d outs (map trip_tree trips.now)) }
    ensures delay { IfOk result (λ s. sum_by greatest_of s.plan.lines.items ≤ delay_of d ins (map trip_tree trips.now)) }
    ensures ages { IfOk result (λ s. (q : ℕ) (ages : List ℕ) → slice_get s.plan.lines.items q ≡ Some ages → greatest_of ages ≤ column_delay d q (map trip_tree trips.now)) }
    ensures taps { IfOk result (λ s. sum_by length s.plan.lines.items ≤ sum_by length s.plan.columns.items) }
    ensures few { IfOk result (λ s. (q : ℕ) (ages : List ℕ) → slice_get s.plan.lines.items q ≡ Some ages → length ages ≤ length trips.now) }
{
    let moved = all_sooner(alloc, trips, &early)?;
    let plan = planned(alloc, &moved, d, ins, outs)?;
    Ok(Schedule { early, moved, plan })
}

/// Whether the registers of the lines and of the columns that are chosen early are no more than so many.
fn is_spare(schedule: &Schedule, spare: u64) -> bool
    ensures { result ≡ true → schedule_registers schedule.now ≤ spare }
{
    let lines = lines_registers(&schedule.plan.lines);
    let early = early_count(&schedule.early);
    lines.max(early) < u64::MAX && u128::from(lines) + u128::from(early) <= u128::from(spare)
}

/// Which columns are chosen early, and a plan for them. They are only where the registers that this takes, with those of the
/// lines, are no more than `allowance.spare`.
pub fn scheduled(
    alloc: Global,
    trips: &[Trip],
    d: u32,
    ins: u32,
    outs: u32,
    allowance: Allowance,
) -> Result<Schedule, AllocError>
    requires latency { d ≤ 4096 }
    requires few { length trips.now < 2 ^ 32 }
    requires within { AreWithin 4096 d ins outs trips.now }
    requires order { AreInOrder trips.now }
    ensures early { IfOk result (λ s. length s.early.items ≡ outs) }
    ensures time { IfOk result (λ s. AreInTime d s.early.items trips.now) }
    ensures moved { IfOk result (λ s. s.moved.items ≡ map (hastened s.early.items) trips.now) }
    ensures lines { IfOk result (λ s. length s.plan.lines.items ≡ ins) }
    ensures columns { IfOk result (λ s. length s.plan.columns.items ≡ outs) }
    ensures plan { IfOk result (λ s. IsPlan d s.moved.items s.plan.lines.items s.plan.columns.items) }
    ensures runs { IfOk result (λ s. sum_by length s.plan.columns.items ≤ runs_of d outs (map trip_tree trips.now)) }
    ensures delay { IfOk result (λ s. sum_by greatest_of s.plan.lines.items ≤ delay_of d ins (map trip_tree trips.now)) }
    ensures ages { IfOk result (λ s. (q : ℕ) (ages : List ℕ) → slice_get s.plan.lines.items q ≡ Some ages → greatest_of ages ≤ column_delay d q (map trip_tree trips.now)) }
    ensures taps { IfOk result (λ s. sum_by length s.plan.lines.items ≤ sum_by length s.plan.columns.items) }
    ensures few { IfOk result (λ s. (q : ℕ) (ages : List ℕ) → slice_get s.plan.lines.items q ≡ Some ages → length ages ≤ length trips.now) }
    ensures spare { IfOk result (λ s. 1 ≤ early_count s.early.items → schedule_registers s ≤ allowance.spare) }
{
    let early = which_early(alloc, trips, d, ins, outs, allowance.alone)?;
    let first = schedule_of(alloc, trips, d, ins, outs, early)?;
    if is_spare(&first, allowance.spare) {
        return Ok(first);
    }
    let none = none_early(alloc, outs)?;
    let plain = schedule_of(alloc, trips, d, ins, outs, none)?;
    Ok(plain)
}
