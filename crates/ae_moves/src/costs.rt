// The latency of a move, the words that it keeps, and how often its choices change.

ghost use Rattle.std.specs.Prelude.{◌≡◌, ◌≤◌, ◌<◌, ◌^◌, ℕ, All, IfOk, IsTrue, ◌↔◌, length, sum, if◌then◌else◌};
ghost use Rattle.std.specs.Option.{option_map};
ghost use Rattle.ae_sttype.specs.Moves.{choice_from, delay_of, latency_of_trips, lead_from, runs_of, IsReached};
ghost use Rattle.ae_moves.specs.Trees.{trip_tree, trip_trees, choice_tree, source_tree};
ghost use Rattle.ae_moves.specs.Trips.{continues, deepened, AreAges, IsWithin};
ghost use Rattle.ae_moves.specs.Rings.{mems_of};

use crate::mems::all_mems;
use crate::trip::{Choice, Source, Trip};
use std::alloc::{AllocError, Global};

impl Trip {
    /// Whether the trip lies in the first 4,096 clocks and in `outs` columns, and its source in `ins` columns and no more
    /// than `d` clocks later.
    pub fn is_within(&self, d: u32, ins: u32, outs: u32) -> bool
        ensures { IsTrue result ↔ IsWithin d ins outs (trip_tree self.now) }
    {
        self.clock < 4096 && self.column < outs && self.is_reached(d, ins)
    }

    fn is_reached(&self, d: u32, ins: u32) -> bool
        ensures { IsTrue result ↔ IsReached d ins self.now.clock (source_tree self.now.source) }
    {
        match self.source {
            Source::Place { clock, column } => column < ins
                && clock.saturating_sub(self.clock) <= d,
            Source::Fixed(_) => true,
        }
    }

    fn choice(&self, d: u32) -> Choice
        requires latency { d ≤ 4096 }
        requires within { IsWithin d 4294967296 4294967296 (trip_tree self.now) }
        ensures { choice_tree result ≡ choice_from d self.now.clock (trip_tree self.now).source }
    {
        match self.source {
            Source::Place { clock, column } => Choice::Delayed {
                column,
                age: self.clock + d - clock,
            },
            Source::Fixed(word) => Choice::Constant(word),
        }
    }

    fn lead(&self) -> u32
        ensures { result ≡ lead_from self.now.clock (trip_tree self.now).source }
    {
        match self.source {
            Source::Place { clock, column: _ } => clock.saturating_sub(self.clock),
            Source::Fixed(_) => 0,
        }
    }
}

/// Whether all trips are within these columns, and reached by a latency of `d` clocks.
pub fn are_within(trips: &[Trip], d: u32, ins: u32, outs: u32) -> bool
    ensures { IsTrue result ↔ All (λ t. IsWithin d ins outs (trip_tree t)) trips.now }
{
    trips.iter().all(|trip| trip.is_within(d, ins, outs))
}

/// The latency of a move, in clocks: as many as its output has to come later than its inputs, so that each word's source
/// has come.
pub fn trips_latency(trips: &[Trip]) -> u32
    ensures latency { result ≡ latency_of_trips (trip_trees trips.now) }
    ensures least { (d ins outs : ℕ) → All (λ t. IsWithin d ins outs (trip_tree t)) trips.now → result ≤ d }
    ensures enough { (d ins outs : ℕ) → All (λ t. IsWithin d ins outs (trip_tree t)) trips.now → All (λ t. IsWithin result ins outs (trip_tree t)) trips.now }
{
    let mut most = 0u32;
    for trip in trips {
        most = most.max(trip.lead());
    }
    most
}

/// What a move costs beside its latency.
#[derive(Clone, Copy, Debug)]
pub struct Costs {
    /// The words that it keeps: the sum, over the columns of its inputs, of the greatest age with which each is used.
    pub delay: u64,
    /// How many runs of equal choices its output columns have, in the order of their trips.
    pub runs: u64,
    /// The memories of its delay lines: none for a column that one register holds for the period.
    pub mems: u64,
}

/// The costs of a move of the latency `d` from `ins` columns to `outs`, which are not too few for its trips, where blocks
/// follow one another in `period` clocks. It takes time linear in trips and columns; an error comes only for want of memory.
pub fn move_costs(
    alloc: Global,
    trips: &[Trip],
    d: u32,
    ins: u32,
    outs: u32,
    period: u32,
) -> Result<Costs, AllocError>
    requires latency { d ≤ 4096 }
    requires few { length trips.now < 2 ^ 32 }
    requires within { All (λ t. IsWithin d ins outs (trip_tree t)) trips.now }
    ensures delay { IfOk result (λ c. c.delay ≡ delay_of d ins (trip_trees trips.now)) }
    ensures runs { IfOk result (λ c. c.runs ≡ runs_of d outs (trip_trees trips.now)) }
    ensures mems { IfOk result (λ c. c.mems ≡ mems_of period d ins (trip_trees trips.now)) }
{
    let ages = all_ages(alloc, trips, d, ins)?;
    let delay = total(&ages);
    let runs = runs(alloc, trips, d, outs)?;
    let mems = all_mems(alloc, trips, d, &ages, period)?;
    Ok(Costs { delay, runs, mems })
}

// The greatest age with which each of so many input columns is used.
pub(crate) fn all_ages(
    alloc: Global,
    trips: &[Trip],
    d: u32,
    ins: u32,
) -> Result<Vec<u32>, AllocError>
    requires latency { d ≤ 4096 }
    requires within { All (λ t. IsWithin d ins 4294967296 (trip_tree t)) trips.now }
    ensures { IfOk result (λ v. AreAges d ins (trip_trees trips.now) v.items) }
{
    let mut deepest = vec![in alloc; 0u32; ins as usize]?;
    for trip in trips {
        deepen(&mut deepest, *trip, d);
    }
    Ok(deepest)
}

// The greatest ages, with that of one more trip.
fn deepen(deepest: &mut Vec<u32>, trip: Trip, d: u32)
    requires latency { d ≤ 4096 }
    requires within { IsWithin d (length deepest.old.items) 4294967296 (trip_tree trip) }
    ensures { deepest.new.items ≡ deepened d deepest.old.items trip.clock (source_tree trip.source) }
{
    match trip.source {
        Source::Place { clock, column } => {
            let age = trip.clock + d - clock;
            let kept = deepest[column as usize];
            deepest[column as usize] = kept.max(age);
        }
        Source::Fixed(_) => {}
    }
}

// The runs of so many output columns.
fn runs(alloc: Global, trips: &[Trip], d: u32, outs: u32) -> Result<u64, AllocError>
    requires latency { d ≤ 4096 }
    requires few { length trips.now < 2 ^ 32 }
    requires within { All (λ t. IsWithin d 4294967296 outs (trip_tree t)) trips.now }
    ensures { IfOk result (λ n. n ≡ runs_of d outs (trip_trees trips.now)) }
{
    let mut last = vec![in alloc; None; outs as usize]?;
    let mut counts = vec![in alloc; 0u32; outs as usize]?;
    for trip in trips {
        let column = trip.column as usize;
        let choice = trip.choice(d);
        let before = last[column];
        let had = counts[column];
        last[column] = Some(choice);
        counts[column] = had + begun(before, choice);
    }
    Ok(total(&counts))
}

// 1 where the choice begins a run.
fn begun(last: Option<Choice>, choice: Choice) -> u32
    ensures { result ≡ (if continues (option_map choice_tree last) (choice_tree choice) then 0 else 1) }
{
    if goes_on(last, choice) { 0 } else { 1 }
}

fn goes_on(last: Option<Choice>, choice: Choice) -> bool
    ensures { result ≡ continues (option_map choice_tree last) (choice_tree choice) }
{
    match (last, choice) {
        (Some(Choice::Delayed { column: p, age: a }), Choice::Delayed { column: q, age: b }) => {
            p == q && a == b
        }
        (Some(Choice::Constant(v)), Choice::Constant(w)) => v == w,
        _ => false,
    }
}

fn total(all: &[u32]) -> u64
    requires { length all.now < 2 ^ 32 }
    ensures { result ≡ sum all.now }
{
    all.iter().map(|x| u64::from(*x)).sum()
}
