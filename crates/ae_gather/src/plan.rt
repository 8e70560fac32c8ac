// The steps of each output column, and the ages with which each input column is used.

ghost use Rattle.std.specs.Prelude.{◌≡◌, ◌<◌, ◌≤◌, ◌+◌, ◌-◌, ◌^◌, ◌∷◌, ◌++◌, [], ℕ, List, length, map, sum_by, IfOk, OnOk, IsTrue, ◌↔◌, Some, slice_get};
ghost use Rattle.ae_sttype.specs.Moves.{column_delay, delay_of, runs_of};
ghost use Rattle.ae_clocked.specs.Delays.{greatest_of};
ghost use Rattle.ae_columns.specs.declared.steps.Step.{Step as Part};
ghost use Rattle.ae_columns.specs.Plans.{choice_of, IsReached, AreInOrder, AreWithin, IsPlan, demanded, IsInLines};
ghost use Rattle.ae_moves.specs.Trees.{trip_tree};

use ae_columns::Step;
use ae_moves::{Choice, Source, Trip};
use std::alloc::{AllocError, Global};
use std::marker::Model;

/// The ages with which an input column is used.
#[derive(Drop)]
pub struct Ages {
    ages: Vec<u32>,
}

impl Model for Ages {
    ghost use Rattle.std.specs.Prelude.{List, ℕ};

    ghost Value = { List ℕ };

    ghost view = { λ a. a.ages.items };
}

/// The steps of an output column.
#[derive(Drop)]
pub struct Steps {
    steps: Vec<Step>,
}

impl Model for Steps {
    ghost use Rattle.std.specs.Prelude.{List};
    ghost use Rattle.ae_columns.specs.declared.steps.Step.{Step};

    ghost Value = { List Step };

    ghost view = { λ s. s.steps.items };
}

impl Ages {
    fn new(alloc: Global) -> Ages
        ensures { result ≡ [] }
    {
        Ages {
            ages: Vec::new(alloc),
        }
    }

    pub fn all(&self) -> &[u32]
        ensures { result.now ≡ self.now }
    {
        &self.ages
    }

    /// Adds an age, and answers its place.
    fn add(&mut self, age: u32) -> Result<u32, AllocError>
        requires { length self.old < 4294967295 }
        ensures place { IfOk result (λ k. k ≡ length self.old) }
        ensures added { OnOk result (self.new ≡ self.old ++ age ∷ []) }
    {
        let place = self.ages.len() as u32;
        self.ages.push(age)?;
        Ok(place)
    }
}

impl Steps {
    fn new(alloc: Global) -> Steps
        ensures { result ≡ [] }
    {
        Steps {
            steps: Vec::new(alloc),
        }
    }

    fn add(&mut self, step: Step) -> Result<(), AllocError>
        ensures { OnOk result (self.new ≡ self.old ++ step ∷ []) }
    {
        self.steps.push(step)?;
        Ok(())
    }

    pub fn all(&self) -> &[Step]
        ensures { result.now ≡ self.now }
    {
        &self.steps
    }

    /// Whether the last step takes the choice.
    fn ends_in(&self, choice: Choice) -> bool
        ensures { IsTrue result ↔ ((k : ℕ) × (step : Step) × (length self.now ≡ k + 1) × (slice_get self.now k ≡ Some step) × (step.take ≡ choice)) }
    {
        match self.steps.last() {
            Some(step) => step.take == choice,
            None => false,
        }
    }
}

// What the trip's column takes in its clock.
fn choice(trip: &Trip, d: u32) -> Choice
    requires latency { d ≤ 4096 }
    requires clock { trip.now.clock < 4096 }
    requires reached { IsReached d trip.now.clock trip.now.source }
    ensures { result ≡ choice_of d trip.now }
{
    match trip.source {
        Source::Place { clock, column } => Choice::Delayed {
            column,
            age: trip.clock + d - clock,
        },
        Source::Fixed(word) => Choice::Constant(word),
    }
}

fn demand(lines: &mut Vec<Ages>, choice: Choice) -> Result<u32, AllocError>
    requires { IsInLines lines.old.items choice }
    ensures { IfOk result (λ tap. demanded lines.old.items choice lines.new.items tap) }
{
    match choice {
        Choice::Delayed { column, age } => lines[column as usize].add(age),
        Choice::Constant(_) => Ok(0),
    }
}

/// What is to be built: the taps of each input column, and the steps of each output column.
#[derive(Drop)]
pub struct Plan {
    pub lines: Vec<Ages>,
    pub columns: Vec<Steps>,
}

fn no_ages(alloc: Global, count: u32) -> Result<Vec<Ages>, AllocError>
    ensures long { IfOk result (λ v. length v.items ≡ count) }
    ensures none { IfOk result (λ v. (q : ℕ) (ages : List ℕ) → slice_get v.items q ≡ Some ages → ages ≡ []) }
{
    let mut lines = Vec::new(alloc);
    for i in 0..count {
        lines.push(Ages::new(alloc))?;
    }
    Ok(lines)
}

fn no_steps(alloc: Global, count: u32) -> Result<Vec<Steps>, AllocError>
    ensures long { IfOk result (λ v. length v.items ≡ count) }
    ensures none { IfOk result (λ v. (q : ℕ) (steps : List Part) → slice_get v.items q ≡ Some steps → steps ≡ []) }
{
    let mut columns = Vec::new(alloc);
    for i in 0..count {
        columns.push(Steps::new(alloc))?;
    }
    Ok(columns)
}

/// The steps and taps of all columns.
pub fn planned(
    alloc: Global,
    trips: &[Trip],
    d: u32,
    ins: u32,
    outs: u32,
) -> Result<Plan, AllocError>
    requires latency { d ≤ 4096 }
    requires few { length trips.now < 2 ^ 32 }
    requires within { AreWithin 4096 d ins outs trips.now }
    requires order { AreInOrder trips.now }
    ensures lines { IfOk result (λ p. length p.lines.items ≡ ins) }
    ensures columns { IfOk result (λ p. length p.columns.items ≡ outs) }
    ensures plan { IfOk result (λ p. IsPlan d trips.now p.lines.items p.columns.items) }
    ensures runs { IfOk result (λ p. sum_by length p.columns.items ≡ runs_of d outs (map trip_tree trips.now)) }
    ensures delay { IfOk result (λ p. sum_by greatest_of p.lines.items ≤ delay_of d ins (map trip_tree trips.now)) }
    ensures ages { IfOk result (λ p. (q : ℕ) (ages : List ℕ) → slice_get p.lines.items q ≡ Some ages → greatest_of ages ≤ column_delay d q (map trip_tree trips.now)) }
    ensures taps { IfOk result (λ p. sum_by length p.lines.items ≤ sum_by length p.columns.items) }
    ensures few { IfOk result (λ p. (q : ℕ) (ages : List ℕ) → slice_get p.lines.items q ≡ Some ages → length ages ≤ length trips.now) }
{
    let mut lines = no_ages(alloc, ins)?;
    let mut columns = no_steps(alloc, outs)?;
    for trip in trips {
        let choice = choice(trip, d);
        if !columns[trip.column as usize].ends_in(choice) {
            let tap = demand(&mut lines, choice)?;
            columns[trip.column as usize].add(Step {
                from: trip.clock,
                take: choice,
                tap,
            })?;
        }
    }
    Ok(Plan { lines, columns })
}
