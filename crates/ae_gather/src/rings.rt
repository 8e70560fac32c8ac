// Rings of input columns that are read at places that change from clock to clock.

ghost use Rattle.std.specs.Prelude.{◌≤◌, ◌^◌, ℕ, IfOk, OnOk};
ghost use Rattle.ae_netlist.specs.Circuit.{IsMemory, IsNet};
ghost use Rattle.ae_netlist.specs.Room.{HasRoom};
ghost use Rattle.ae_gates.specs.Cells.{Adds};
ghost use Rattle.ae_clocked.specs.Phases.{Belongs, KeepsCounters, made_of};
ghost use Rattle.ae_clocked.specs.Rings.{AddsMemories, IsRing};
ghost use Rattle.ae_columns.specs.Counts.{Counted};
ghost use Rattle.ae_gather.specs.Readers.{IsReader, RingOf};

use ae_clocked::{Clocks, Ring, delayed, look, ring_depth, store};
use ae_gates::sum;
use ae_netlist::{NetId, Netlist};
use ae_word::Width;
use std::alloc::AllocError;

/// A ring of the words of a net, with so many bits for its places. Rings of one depth share their counter.
pub fn make_ring(
    nl: &mut Netlist,
    clocks: &mut Clocks,
    x: NetId,
    width: Width,
    bits: u32,
) -> Result<Ring, AllocError>
    requires belongs { Belongs clocks.old nl.old.cells }
    requires some { 1 ≤ bits }
    requires few { bits ≤ 12 }
    requires net { IsNet nl.old.cells x.0 width }
    requires room { HasRoom nl.old 14 }
    ensures belongs { OnOk result (Belongs clocks.new nl.new.cells) }
    ensures keeps { OnOk result (KeepsCounters clocks.old clocks.new) }
    ensures adds { OnOk result (AddsMemories nl.old nl.new 14 1) }
    ensures counted { OnOk result (Counted nl.old nl.new (made_of clocks.old) (made_of clocks.new) 0 0) }
    ensures ring { IfOk result (λ ring. RingOf nl.new.cells clocks.old.rst bits x.0 ring) }
{
    let depth = ring_depth(bits);
    let counter = clocks.phase(nl, depth, 0)?;
    let memory = store(nl, x, counter, width, bits)?;
    Ok(Ring {
        memory,
        counter,
        bits,
    })
}

/// The word that `x` had some clocks before the last one, from a ring of `x`: as many as its place, in the last clock, is
/// short of a whole turn. What is read stands in a register, so that a memory with a registered output serves.
pub fn ring_read(
    nl: &mut Netlist,
    ring: Ring,
    place: NetId,
    width: Width,
) -> Result<NetId, AllocError>
    requires some { 1 ≤ ring.bits }
    requires few { ring.bits ≤ 12 }
    requires memory { IsMemory nl.old.cells ring.memory.0 width (2 ^ ring.bits) }
    requires counter { IsNet nl.old.cells ring.counter.0 ring.bits }
    requires place { IsNet nl.old.cells place.0 ring.bits }
    requires room { HasRoom nl.old 3 }
    ensures adds { OnOk result (Adds nl.old nl.new 3 0) }
    ensures counted { OnOk result (Counted nl.old nl.new 0 0 1 0) }
    ensures net { IfOk result (λ y. IsNet nl.new.cells y.0 width) }
    ensures reads { IfOk result (λ y. (rst x : ℕ) → IsRing nl.old.cells rst ring.bits x ring.counter.0 ring.memory.0 → IsReader nl.new.cells rst ring.bits x place.0 y.0) }
{
    let at = sum(nl, ring.counter, place, Width { bits: ring.bits })?;
    let word = look(nl, ring.memory, at, width, ring.bits)?;
    let y = delayed(nl, word, width)?;
    Ok(y)
}
