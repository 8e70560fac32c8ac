// The memories of a move's delay lines, and the registers of its columns.

ghost use Rattle.std.specs.Prelude.{◌≡◌, ◌≤◌, ◌<◌, ◌^◌, All, IfOk, length};
ghost use Rattle.ae_moves.specs.Trees.{source_tree, trip_tree, trip_trees};
ghost use Rattle.ae_moves.specs.Trips.{AreAges, IsWithin};
ghost use Rattle.ae_moves.specs.Rings.{AreHeld, mems_of, registers_of, rings};
ghost use Rattle.ae_moves.specs.Usages.{AreUsages, held_from, usage_mems, usage_registers, use_from, used};

use crate::costs::all_ages;
use crate::trip::{Source, Trip};
use std::alloc::{AllocError, Global};

/// How the words of an input column are taken so far: the clock of the first, and whether one register holds them all.
#[derive(Clone, Copy, Debug)]
struct Usage {
    clock: u32,
    held: bool,
}

/// The memories of a delay line of so many clocks: none where it is below 8, else one for each 4,096 clocks or a part of
/// them.
pub fn rings(clocks: u32) -> u32
    ensures { result ≡ rings clocks }
{
    if clocks < 8 {
        0
    } else {
        (clocks - 1) / 4096 + 1
    }
}

/// For each of so many input columns the clock of its words where it is *held*, that is, where all words that are used of it
/// stand in one clock and none is used later than a period, so that one register holds them all; and None where it is not,
/// or where no word is used later than one clock. It takes time linear in trips and columns; an error comes only for want
/// of memory.
pub fn held_columns(
    alloc: Global,
    trips: &[Trip],
    d: u32,
    ins: u32,
    period: u32,
) -> Result<Vec<Option<u32>>, AllocError>
    requires latency { d ≤ 4096 }
    requires within { All (λ t. IsWithin d ins 4294967296 (trip_tree t)) trips.now }
    ensures { IfOk result (λ v. AreHeld period d ins (trip_trees trips.now) v.items) }
{
    let ages = all_ages(alloc, trips, d, ins)?;
    let usages = all_usages(alloc, trips, d, ins, period)?;
    let mut held = Vec::new(alloc);
    for q in 0..usages.len() {
        held.push(held_from(usages[q], ages[q]))?;
    }
    Ok(held)
}

fn held_from(usage: Option<Usage>, age: u32) -> Option<u32>
    ensures { result ≡ held_from usage age }
{
    match usage {
        Some(usage) if usage.held && age > 1 => Some(usage.clock),
        _ => None,
    }
}

/// The most registers of so many input columns, beside counters and marks: one for each that is held, and 7 for each other
/// that is used. It takes time linear in trips and columns; an error comes only for want of memory.
pub fn most_registers(
    alloc: Global,
    trips: &[Trip],
    d: u32,
    ins: u32,
    period: u32,
) -> Result<u64, AllocError>
    requires latency { d ≤ 4096 }
    requires within { All (λ t. IsWithin d ins 4294967296 (trip_tree t)) trips.now }
    ensures { IfOk result (λ n. n ≡ registers_of period d ins (trip_trees trips.now)) }
{
    let usages = all_usages(alloc, trips, d, ins, period)?;
    let mut sum = 0u64;
    for q in 0..usages.len() {
        sum += usage_registers(usages[q]);
    }
    Ok(sum)
}

fn usage_registers(usage: Option<Usage>) -> u64
    ensures is { result ≡ usage_registers usage }
    ensures few { result ≤ 7 }
{
    match usage {
        Some(usage) if usage.held => 1,
        Some(_) => 7,
        None => 0,
    }
}

// The memories of the input columns that are not held, by the greatest age of each.
pub(crate) fn all_mems(
    alloc: Global,
    trips: &[Trip],
    d: u32,
    ages: &[u32],
    period: u32,
) -> Result<u64, AllocError>
    requires latency { d ≤ 4096 }
    requires few { length ages.now < 2 ^ 32 }
    requires within { All (λ t. IsWithin d (length ages.now) 4294967296 (trip_tree t)) trips.now }
    requires ages { AreAges d (length ages.now) (trip_trees trips.now) ages.now }
    ensures { IfOk result (λ n. n ≡ mems_of period d (length ages.now) (trip_trees trips.now)) }
{
    let usages = all_usages(alloc, trips, d, ages.len() as u32, period)?;
    let mut sum = 0u64;
    for q in 0..ages.len() {
        sum += u64::from(column_mems(usages[q], ages[q]));
    }
    Ok(sum)
}

// How the words of each of so many input columns are taken.
fn all_usages(
    alloc: Global,
    trips: &[Trip],
    d: u32,
    ins: u32,
    period: u32,
) -> Result<Vec<Option<Usage>>, AllocError>
    requires latency { d ≤ 4096 }
    requires within { All (λ t. IsWithin d ins 4294967296 (trip_tree t)) trips.now }
    ensures { IfOk result (λ v. AreUsages period d ins (trip_trees trips.now) v.items) }
{
    let mut usages = vec![in alloc; None; ins as usize]?;
    for trip in trips {
        take_word(&mut usages, *trip, d, period);
    }
    Ok(usages)
}

// The usages, with that of the word of one more trip.
fn take_word(usages: &mut Vec<Option<Usage>>, trip: Trip, d: u32, period: u32)
    requires latency { d ≤ 4096 }
    requires within { IsWithin d (length usages.old.items) 4294967296 (trip_tree trip) }
    ensures { usages.new.items ≡ use_from d period usages.old.items trip.clock (source_tree trip.source) }
{
    match trip.source {
        Source::Place { clock, column } => {
            let before = usages[column as usize];
            usages[column as usize] = Some(used(before, clock, trip.clock + d - clock, period));
        }
        Source::Fixed(_) => {}
    }
}

// One use more, of a word from a clock with an age.
fn used(before: Option<Usage>, clock: u32, age: u32, period: u32) -> Usage
    ensures { result ≡ used before clock age period }
{
    match before {
        None => Usage {
            clock,
            held: age <= period,
        },
        Some(usage) => Usage {
            clock: usage.clock,
            held: usage.held && (clock == usage.clock && age <= period),
        },
    }
}

fn column_mems(usage: Option<Usage>, age: u32) -> u32
    ensures { result ≡ usage_mems usage age }
{
    match usage {
        Some(usage) if usage.held => 0,
        _ => rings(age),
    }
}
