// The trips of a move, by the slots of its layouts.

ghost use Rattle.std.specs.Prelude.{◌≡◌, ◌<◌, ◌+◌, ◌*◌, ◌/◌, ◌%◌, ◌^◌, ℕ, length, map, sum_by, max, IfOk, Some, slice_get};
ghost use Rattle.ae_sttype.specs.declared.st_type.StType.{StType as Layout};
ghost use Rattle.ae_sttype.specs.StTree.{element_words, st_atoms, st_tree};
ghost use Rattle.ae_sttype.specs.Size.{IsInSize};
ghost use Rattle.ae_sttype.specs.Moves.{column_number, columns_of, first_column, latency_of_trips, lead_from, slot_number, source_of, trips_of};
ghost use Rattle.ae_moves.specs.Trees.{origin_tree, source_tree, trip_tree};
ghost use Rattle.ae_moves.specs.Origins.{HasOrigin, IsMove};

use crate::trip::{Origin, Source, Trip};
use ae_sttype::StType;
use std::alloc::{AllocError, Global};

// Where a word of an element stands among the columns of its layout.
fn column(s: &StType, lane: u32, word: u32) -> u32
    requires in_size { IsInSize (st_tree s.now) }
    requires lane { lane * element_words (st_tree s.now) + word < columns_of (st_tree s.now) }
    ensures { result ≡ lane * element_words (st_tree s.now) + word }
{
    lane * s.element_words() + word
}

// An origin by clock and column.
fn source_at(ins: &[StType], firsts: &[u32], origin: Origin) -> Source
    requires sizes { (i : ℕ) (t : Layout) → slice_get ins.now i ≡ Some t → IsInSize (st_tree t) }
    requires firsts { (i : ℕ) → i < length ins.now → slice_get firsts.now i ≡ Some (first_column (map st_tree ins.now) i) }
    requires room { sum_by columns_of (map st_tree ins.now) < 2 ^ 32 }
    requires there { (width : ℕ) × HasOrigin (map st_tree ins.now) width (origin_tree origin) }
    ensures { source_tree result ≡ source_of (map st_tree ins.now) (origin_tree origin) }
{
    match origin {
        Origin::Fixed(word) => Source::Fixed(word),
        Origin::Word {
            input,
            element,
            word,
        } => {
            let s = &ins[input as usize];
            let slot = s.slot(element);
            Source::Place {
                clock: slot.clock,
                column: firsts[input as usize] + column(s, slot.lane, word),
            }
        }
    }
}

// The way of output word `o` from its origin.
fn trip_at(ins: &[StType], firsts: &[u32], out: &StType, origin: Origin, o: u32) -> Trip
    requires sizes { (i : ℕ) (t : Layout) → slice_get ins.now i ≡ Some t → IsInSize (st_tree t) }
    requires firsts { (i : ℕ) → i < length ins.now → slice_get firsts.now i ≡ Some (first_column (map st_tree ins.now) i) }
    requires room { sum_by columns_of (map st_tree ins.now) < 2 ^ 32 }
    requires there { (width : ℕ) × HasOrigin (map st_tree ins.now) width (origin_tree origin) }
    requires out_in_size { IsInSize (st_tree out.now) }
    requires below { o < st_atoms (st_tree out.now) * element_words (st_tree out.now) }
    ensures clock { result.clock ≡ (slot_number (st_tree out.now) (o / element_words (st_tree out.now))).clock }
    ensures column { result.column ≡ column_number (st_tree out.now) (o / element_words (st_tree out.now)) (o % element_words (st_tree out.now)) }
    ensures source { source_tree result.source ≡ source_of (map st_tree ins.now) (origin_tree origin) }
{
    let words = out.element_words();
    let slot = out.slot(o / words);
    Trip {
        clock: slot.clock,
        column: column(out, slot.lane, o % words),
        source: source_at(ins, firsts, origin),
    }
}

/// The trips of all output words, by element and then by word, where `firsts` has the first column of each input; an error
/// only for want of memory.
pub fn all_trips(
    alloc: Global,
    ins: &[StType],
    firsts: &[u32],
    out: &StType,
    source: &[Origin],
) -> Result<Vec<Trip>, AllocError>
    requires moves { IsMove (record { ins = map st_tree ins.now; out = st_tree out.now; origins = map origin_tree source.now }) }
    requires firsts { (i : ℕ) → i < length ins.now → slice_get firsts.now i ≡ Some (first_column (map st_tree ins.now) i) }
    requires room { sum_by columns_of (map st_tree ins.now) < 2 ^ 32 }
    ensures { IfOk result (λ v. map trip_tree v.items ≡ trips_of (map st_tree ins.now) (st_tree out.now) (map origin_tree source.now)) }
{
    let mut trips = Vec::new(alloc);
    for o in 0..source.len() {
        let trip = trip_at(ins, firsts, out, source[o], o as u32);
        trips.push(trip)?;
    }
    Ok(trips)
}

// By how many clocks a word of an origin stands later than output word `o`, or 0.
fn lead(ins: &[StType], out: &StType, origin: Origin, o: u32) -> u32
    requires sizes { (i : ℕ) (t : Layout) → slice_get ins.now i ≡ Some t → IsInSize (st_tree t) }
    requires there { (width : ℕ) × HasOrigin (map st_tree ins.now) width (origin_tree origin) }
    requires out_in_size { IsInSize (st_tree out.now) }
    requires below { o < st_atoms (st_tree out.now) * element_words (st_tree out.now) }
    ensures { result ≡ lead_from (slot_number (st_tree out.now) (o / element_words (st_tree out.now))).clock (source_of (map st_tree ins.now) (origin_tree origin)) }
{
    let slot = out.slot(o / out.element_words());
    match origin {
        Origin::Fixed(_) => 0,
        Origin::Word {
            input,
            element,
            word: _,
        } => {
            ins[input as usize]
                .slot(element)
                .clock
                .saturating_sub(slot.clock)
        }
    }
}

/// The latency of a move: the clocks by which its output comes later than its inputs.
pub fn latency(ins: &[StType], out: &StType, source: &[Origin]) -> u32
    requires { IsMove (record { ins = map st_tree ins.now; out = st_tree out.now; origins = map origin_tree source.now }) }
    ensures { result ≡ latency_of_trips (trips_of (map st_tree ins.now) (st_tree out.now) (map origin_tree source.now)) }
{
    let mut most = 0u32;
    for o in 0..source.len() {
        most = most.max(lead(ins, out, source[o], o as u32));
    }
    most
}
