// Moves between layouts.

use crate::layouts::layout_of;
use ae_moves::{
    Origin, Source, Trip, all_trips, are_within, is_move, latency, move_costs, rings, trips_latency,
};
use ae_sttype::StType;
use std::alloc::{AllocError, Global};
use std::slice::from_ref;
use table_text::{Page, number_at, parted};

// A clock and a column, as `1.0`; a number alone is a fixed word.
fn source_of(text: &str) -> Source {
    match text.split_once('.') {
        Some((clock, column)) => Source::Place {
            clock: number_at(clock, 0),
            column: number_at(column, 0),
        },
        None => Source::Fixed(u64::from(number_at(text, 0))),
    }
}

// Clock and column, and behind `<` the source.
fn trip_of(text: &str) -> Trip {
    let (own, source) = parted(text, "<");
    let (clock, column) = parted(own, ".");
    Trip {
        clock: number_at(clock, 0),
        column: number_at(column, 0),
        source: source_of(source),
    }
}

fn trips_of(alloc: Global, text: &str) -> Result<Vec<Trip>, AllocError> {
    let mut all = Vec::new(alloc);
    for field in text.split_whitespace() {
        all.push(trip_of(field))?;
    }
    Ok(all)
}

// An element and a word of it, as `3.0`; a number alone is a fixed word.
fn origin_of(text: &str) -> Origin {
    match text.split_once('.') {
        Some((element, word)) => Origin::Word {
            input: 0,
            element: number_at(element, 0),
            word: number_at(word, 0),
        },
        None => Origin::Fixed(u64::from(number_at(text, 0))),
    }
}

fn origins_of(alloc: Global, text: &str) -> Result<Vec<Origin>, AllocError> {
    let mut all = Vec::new(alloc);
    for field in text.split_whitespace() {
        all.push(origin_of(field))?;
    }
    Ok(all)
}

// Latency, columns of the inputs, columns of the output and period are the numbers of the text.
fn tell_costs(alloc: Global, out: &mut Page, trips: &[Trip], text: &str) {
    out.tell(" -> latency ", &trips_latency(trips));
    let (d, ins, outs) = (number_at(text, 1), number_at(text, 4), number_at(text, 6));
    if 4096 < d || 4294967295 < trips.len() || !are_within(trips, d, ins, outs) {
        return out.say(", not within");
    }
    match move_costs(alloc, trips, d, ins, outs, number_at(text, 9)) {
        Ok(costs) => {
            out.tell(", delay ", &costs.delay);
            out.tell(", runs ", &costs.runs);
            out.tell(", memories ", &costs.mems);
        }
        Err(_) => out.cut(),
    }
}

/// What trips cost: `after 0 clocks from 4 to 4 columns every 2 clocks: 0.0<0 0.1<0.0`.
pub fn costs(alloc: Global, out: &mut Page, text: &str) {
    let (head, fields) = parted(text, ":");
    match trips_of(alloc, fields) {
        Ok(trips) => tell_costs(alloc, out, &trips, head),
        Err(_) => out.cut(),
    }
}

fn tell_trip(out: &mut Page, trip: &Trip) {
    out.tell(" ", &trip.clock);
    out.tell(".", &trip.column);
    match trip.source {
        Source::Place { clock, column } => {
            out.tell("<", &clock);
            out.tell(".", &column);
        }
        Source::Fixed(word) => out.tell("<", &word),
    }
}

fn tell_all(out: &mut Page, late: u32, trips: &[Trip]) {
    out.tell(" -> latency ", &late);
    out.say(", trips");
    for trip in trips {
        tell_trip(out, trip);
    }
}

fn tell_move(alloc: Global, out: &mut Page, arg: &StType, to: &StType, origins: &[Origin]) {
    let ins = from_ref(arg);
    if !is_move(ins, to, origins) {
        return out.say(" -> no move");
    }
    match all_trips(alloc, ins, &[0], to, origins) {
        Ok(trips) => tell_all(out, latency(ins, to, origins), &trips),
        Err(_) => out.cut(),
    }
}

fn tell_layouts(alloc: Global, out: &mut Page, arg: &StType, to: &str, fields: &str) {
    let Ok(to) = layout_of(alloc, to) else {
        return out.cut();
    };
    match origins_of(alloc, fields) {
        Ok(origins) => tell_move(alloc, out, arg, &to, &origins),
        Err(_) => out.cut(),
    }
}

/// The trips of a move: `SSeq 2 u8 to SSeq 2 u8: 1.0 0.0`.
pub fn trips(alloc: Global, out: &mut Page, text: &str) {
    let (head, fields) = parted(text, ":");
    let (arg, to) = parted(head, " to ");
    match layout_of(alloc, arg) {
        Ok(arg) => tell_layouts(alloc, out, &arg, to, fields),
        Err(_) => out.cut(),
    }
}

/// The memories of delay lines of so many clocks.
pub fn memories(out: &mut Page, text: &str) {
    out.say(" ->");
    for clocks in text.split_whitespace() {
        out.tell(" ", &rings(number_at(clocks, 0)));
    }
}
