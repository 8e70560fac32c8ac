// Words that one register keeps for a period: its net, and the trips that take them from there.

ghost use Rattle.std.specs.Prelude.{◌≡◌, ◌<◌, ◌≤◌, ◌+◌, ◌-◌, ◌*◌, ◌%◌, ◌^◌, ℕ, length, map, is_some, if◌then◌else◌, IfOk, OnOk, Some, slice_get};
ghost use Rattle.ae_netlist.specs.Circuit.{IsNet, width_of};
ghost use Rattle.ae_netlist.specs.Room.{HasRoom};
ghost use Rattle.ae_clocked.specs.Phases.{Belongs, KeepsCounters, made_of};
ghost use Rattle.ae_gates.specs.Cells.{Adds};
ghost use Rattle.ae_moves.specs.declared.trip.Trip.{Trip as Way};
ghost use Rattle.ae_columns.specs.Columns.{net_of};
ghost use Rattle.ae_columns.specs.Counts.{Counted};
ghost use Rattle.ae_columns.specs.Held.{AreKept, IsHeld, Keeps, held_phase, kept_count, settled, settled_place};
ghost use Rattle.ae_columns.specs.Plans.{IsIn};

use crate::holding::hold;
use crate::phases::offset;
use ae_clocked::Clocks;
use ae_gates::width_at;
use ae_moves::{Source, Trip};
use ae_netlist::{NetId, Netlist};
use std::alloc::{AllocError, Global};

/// A register that takes the word of a net in one clock of each block, and keeps it for a period. It follows the counter
/// of the blocks of the output.
fn held_net(
    nl: &mut Netlist,
    clocks: &mut Clocks,
    x: NetId,
    clock: u32,
    period: u32,
    d: u32,
    arrival: u32,
) -> Result<NetId, AllocError>
    requires belongs { Belongs clocks.old nl.old.cells }
    requires net { IsNet nl.old.cells x.0 (width_of nl.old.cells x.0) }
    requires lasting { 1 ≤ period }
    requires limit { period ≤ 4096 }
    requires room { HasRoom nl.old 16 }
    ensures belongs { OnOk result (Belongs clocks.new nl.new.cells) }
    ensures keeps { OnOk result (KeepsCounters clocks.old clocks.new) }
    ensures adds { OnOk result (Adds nl.old nl.new 16 0) }
    ensures counted { OnOk result (Counted nl.old nl.new (made_of clocks.old) (made_of clocks.new) 1 1) }
    ensures held { IfOk result (λ y. IsHeld nl.new.cells clocks.old.rst (width_of nl.old.cells x.0) period ((arrival + d) % period) (held_phase period d clock) x.0 y.0) }
{
    let begin = offset(arrival, d, period);
    let counter = clocks.phase(nl, period, begin)?;
    let width = width_at(nl, x);
    let q = (clock % period + (period - d % period)) % period;
    let y = hold(nl, x, width, counter, period, begin, q)?;
    Ok(y)
}

/// The register of a column that has one, and else its own net.
fn kept_net(
    nl: &mut Netlist,
    clocks: &mut Clocks,
    x: NetId,
    held: Option<u32>,
    period: u32,
    d: u32,
    arrival: u32,
) -> Result<NetId, AllocError>
    requires belongs { Belongs clocks.old nl.old.cells }
    requires net { IsNet nl.old.cells x.0 (width_of nl.old.cells x.0) }
    requires lasting { 1 ≤ period }
    requires limit { period ≤ 4096 }
    requires room { HasRoom nl.old (16 * (if is_some held then 1 else 0)) }
    ensures belongs { OnOk result (Belongs clocks.new nl.new.cells) }
    ensures keeps { OnOk result (KeepsCounters clocks.old clocks.new) }
    ensures adds { OnOk result (Adds nl.old nl.new (16 * (if is_some held then 1 else 0)) 0) }
    ensures counted { OnOk result (Counted nl.old nl.new (made_of clocks.old) (made_of clocks.new) (if is_some held then 1 else 0) (if is_some held then 1 else 0)) }
    ensures keeps_word { IfOk result (λ y. Keeps nl.new.cells clocks.old.rst period d arrival held x.0 y.0) }
{
    let Some(clock) = held else {
        return Ok(x);
    };
    let y = held_net(nl, clocks, x, clock, period, d, arrival)?;
    Ok(y)
}

/// The nets of the input columns, and behind them one for each: of a column with a clock of its block in `held`, a register
/// that has the word of that clock for a period, in clocks; of any other its own net.
pub fn all_nets(
    alloc: Global,
    nl: &mut Netlist,
    clocks: &mut Clocks,
    ins: &[NetId],
    held: &[Option<u32>],
    period: u32,
    d: u32,
    arrival: u32,
) -> Result<Vec<NetId>, AllocError>
    requires belongs { Belongs clocks.old nl.old.cells }
    requires lasting { 1 ≤ period }
    requires limit { period ≤ 4096 }
    requires nets { (q : ℕ) → q < length ins.now → (w : ℕ) × IsNet nl.old.cells (net_of ins.now q) w }
    requires long { length held.now ≡ length ins.now }
    requires room { HasRoom nl.old (16 * kept_count held.now (length held.now)) }
    ensures belongs { OnOk result (Belongs clocks.new nl.new.cells) }
    ensures keeps { OnOk result (KeepsCounters clocks.old clocks.new) }
    ensures adds { OnOk result (Adds nl.old nl.new (16 * kept_count held.now (length held.now)) 0) }
    ensures counted { OnOk result (Counted nl.old nl.new (made_of clocks.old) (made_of clocks.new) (kept_count held.now (length held.now)) (kept_count held.now (length held.now))) }
    ensures kept { IfOk result (λ all. AreKept nl.new.cells clocks.old.rst period d arrival ins.now held.now all.items) }
{
    let mut all = Vec::new(alloc);
    all.extend_from_slice(ins)?;
    for q in 0..held.len() {
        let net = kept_net(nl, clocks, ins[q], held[q], period, d, arrival)?;
        all.push(net)?;
    }
    Ok(all)
}

/// How many columns have a register, which keeps their word.
pub fn kept_count(held: &[Option<u32>]) -> u64
    ensures { result ≡ kept_count held.now (length held.now) }
{
    let mut count = 0u64;
    for q in 0..held.len() {
        count += u64::from(held[q].is_some());
    }
    count
}

/// Where a word comes from that is due in a clock of its block.
fn settled_place(held: &[Option<u32>], due: u32, clock: u32, column: u32) -> Source
    requires column { column < length held.now }
    requires few { length held.now < 2 ^ 31 }
    ensures { result ≡ settled_place held.now due clock column }
{
    if held[column as usize].is_some() && clock < due {
        Source::Place {
            clock: due,
            column: held.len() as u32 + column,
        }
    } else {
        Source::Place { clock, column }
    }
}

/// The trip, from the register of its word's column where it has one and the word is not taken at once.
fn settled(trip: &Trip, held: &[Option<u32>], d: u32) -> Trip
    requires latency { d ≤ 4096 }
    requires clock { trip.now.clock < 4096 }
    requires column { IsIn (length held.now) trip.now.source }
    requires few { length held.now < 2 ^ 31 }
    ensures { result ≡ settled d held.now trip.now }
{
    match trip.source {
        Source::Place { clock, column } => Trip {
            clock: trip.clock,
            column: trip.column,
            source: settled_place(held, trip.clock + d, clock, column),
        },
        Source::Fixed(_) => *trip,
    }
}

/// The trips with the latency `d`, in clocks, each from the register of its word's column where that has one and the word is
/// not taken at once.
pub fn all_settled(
    alloc: Global,
    trips: &[Trip],
    held: &[Option<u32>],
    d: u32,
) -> Result<Vec<Trip>, AllocError>
    requires latency { d ≤ 4096 }
    requires clocks { (n : ℕ) (trip : Way) → slice_get trips.now n ≡ Some trip → trip.clock < 4096 }
    requires columns { (n : ℕ) (trip : Way) → slice_get trips.now n ≡ Some trip → IsIn (length held.now) trip.source }
    requires few { length held.now < 2 ^ 31 }
    ensures { IfOk result (λ v. v.items ≡ map (settled d held.now) trips.now) }
{
    let mut all = Vec::new(alloc);
    for trip in trips {
        all.push(settled(trip, held, d))?;
    }
    Ok(all)
}
