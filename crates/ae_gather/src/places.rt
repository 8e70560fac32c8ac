// The trips of a move whose words are read from rings, and the places that are read.

ghost use Rattle.std.specs.Prelude.{◌≡◌, ◌<◌, ◌≤◌, ◌+◌, ◌^◌, ℕ, length, map, IfOk, Some, get_or};
ghost use Rattle.ae_columns.specs.Plans.{AreWithin, IsIn, IsReached};
ghost use Rattle.ae_gather.specs.Reads.{ArePlaced, IsPlaceOf, is_read, read_source, read_trip};

use crate::reads::Reads;
use ae_clocked::ring_depth;
use ae_moves::{Source, Trip};
use std::alloc::{AllocError, Global};

/// Whether the word that a column has in a clock is read from its ring for an output column, in the clock in which it is due.
fn is_read(reads: &Reads, due: u32, clock: u32, column: u32, q: u32) -> bool
    requires high { reads.now.bits ≤ 12 }
    requires due { due ≤ 8192 }
    requires reached { clock ≤ due }
    requires column { column < length reads.now.rings.items }
    requires out { q < length reads.now.from.items }
    ensures { result ≡ is_read reads.now due clock column q }
{
    match reads.from[q as usize] {
        Some(x) => {
            x == column
                && (reads.rings[column as usize]
                    && (clock + 2 <= due && due <= clock + ring_depth(reads.bits)))
        }
        None => false,
    }
}

/// Where a word comes from that may be read.
fn read_source(reads: &Reads, due: u32, source: Source, q: u32) -> Source
    requires high { reads.now.bits ≤ 12 }
    requires due { due ≤ 8192 }
    requires reached { IsReached due 0 source }
    requires source { IsIn (length reads.now.rings.items) source }
    requires out { q < length reads.now.from.items }
    requires few { length reads.now.rings.items + length reads.now.from.items < 2 ^ 32 }
    ensures { result ≡ read_source reads.now due q source }
{
    match source {
        Source::Place { clock, column } => {
            if is_read(reads, due, clock, column, q) {
                Source::Place {
                    clock: due,
                    column: reads.rings.len() as u32 + q,
                }
            } else {
                source
            }
        }
        Source::Fixed(_) => source,
    }
}

/// The trip, from what its column reads where its word is read from a ring.
fn read_trip(trip: &Trip, reads: &Reads, d: u32) -> Trip
    requires latency { d ≤ 4096 }
    requires high { reads.now.bits ≤ 12 }
    requires clock { trip.now.clock < 4096 }
    requires reached { IsReached d trip.now.clock trip.now.source }
    requires source { IsIn (length reads.now.rings.items) trip.now.source }
    requires out { trip.now.column < length reads.now.from.items }
    requires few { length reads.now.rings.items + length reads.now.from.items < 2 ^ 32 }
    ensures { result ≡ read_trip d reads.now trip.now }
{
    Trip {
        clock: trip.clock,
        column: trip.column,
        source: read_source(reads, trip.clock + d, trip.source, trip.column),
    }
}

/// The same of all trips.
pub fn all_read(
    alloc: Global,
    trips: &[Trip],
    reads: &Reads,
    d: u32,
) -> Result<Vec<Trip>, AllocError>
    requires latency { d ≤ 4096 }
    requires high { reads.now.bits ≤ 12 }
    requires within { AreWithin 4096 d (length reads.now.rings.items) (length reads.now.from.items) trips.now }
    requires few { length reads.now.rings.items + length reads.now.from.items < 2 ^ 32 }
    ensures { IfOk result (λ v. v.items ≡ map (read_trip d reads.now) trips.now) }
{
    let mut all = Vec::new(alloc);
    for trip in trips {
        all.push(read_trip(trip, reads, d))?;
    }
    Ok(all)
}

/// The place of a word that is read, in the clock before it is due; and the one before where it is not.
fn place(source: Source, reads: &Reads, due: u32, q: u32, before: u32) -> u32
    requires low { 1 ≤ reads.now.bits }
    requires high { reads.now.bits ≤ 12 }
    requires due { due ≤ 8192 }
    requires reached { IsReached due 0 source }
    requires source { IsIn (length reads.now.rings.items) source }
    requires out { q < length reads.now.from.items }
    requires fits { before < 2 ^ reads.now.bits }
    ensures fits { result < 2 ^ reads.now.bits }
    ensures is { IsPlaceOf reads.now q due result source }
{
    match source {
        Source::Place { clock, column } => {
            if is_read(reads, due, clock, column, q) {
                ring_depth(reads.bits) - (due - clock - 1)
            } else {
                before
            }
        }
        Source::Fixed(_) => before,
    }
}

/// The place of a trip's word, which its column goes on to show until it reads another.
fn next_place(last: &mut Vec<u32>, trip: &Trip, reads: &Reads, d: u32) -> u32
    requires latency { d ≤ 4096 }
    requires low { 1 ≤ reads.now.bits }
    requires high { reads.now.bits ≤ 12 }
    requires clock { trip.now.clock < 4096 }
    requires reached { IsReached d trip.now.clock trip.now.source }
    requires source { IsIn (length reads.now.rings.items) trip.now.source }
    requires out { trip.now.column < length reads.now.from.items }
    requires long { length last.old.items ≡ length reads.now.from.items }
    requires below { (q : ℕ) → get_or last.old.items q 0 < 2 ^ reads.now.bits }
    ensures long { length last.new.items ≡ length last.old.items }
    ensures below { (q : ℕ) → get_or last.new.items q 0 < 2 ^ reads.now.bits }
    ensures fits { result < 2 ^ reads.now.bits }
    ensures is { IsPlaceOf reads.now trip.now.column (trip.now.clock + d) result trip.now.source }
{
    let q = trip.column as usize;
    let at = place(trip.source, reads, trip.clock + d, trip.column, last[q]);
    last[q] = at;
    at
}

/// The place that each output column reads first.
fn first_places(
    alloc: Global,
    trips: &[Trip],
    reads: &Reads,
    d: u32,
) -> Result<Vec<u32>, AllocError>
    requires latency { d ≤ 4096 }
    requires low { 1 ≤ reads.now.bits }
    requires high { reads.now.bits ≤ 12 }
    requires within { AreWithin 4096 d (length reads.now.rings.items) (length reads.now.from.items) trips.now }
    ensures long { IfOk result (λ v. length v.items ≡ length reads.now.from.items) }
    ensures below { IfOk result (λ v. (q : ℕ) → get_or v.items q 0 < 2 ^ reads.now.bits) }
{
    let mut last = Vec::new(alloc);
    for q in 0..reads.from.len() {
        last.push(0)?;
    }
    for i in 0..trips.len() {
        let _ = next_place(&mut last, &trips[trips.len() - 1 - i], reads, d);
    }
    Ok(last)
}

/// Trips that bring each output column the places of what it reads.
pub fn all_places(
    alloc: Global,
    trips: &[Trip],
    reads: &Reads,
    d: u32,
) -> Result<Vec<Trip>, AllocError>
    requires latency { d ≤ 4096 }
    requires low { 1 ≤ reads.now.bits }
    requires high { reads.now.bits ≤ 12 }
    requires within { AreWithin 4096 d (length reads.now.rings.items) (length reads.now.from.items) trips.now }
    ensures { IfOk result (λ v. ArePlaced (length trips.now) d reads.now trips.now v.items) }
{
    let mut last = first_places(alloc, trips, reads, d)?;
    let mut all = Vec::new(alloc);
    for trip in trips {
        let at = next_place(&mut last, trip, reads, d);
        all.push(Trip {
            clock: trip.clock,
            column: trip.column,
            source: Source::Fixed(u64::from(at)),
        })?;
    }
    Ok(all)
}
