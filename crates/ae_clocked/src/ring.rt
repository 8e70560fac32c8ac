// One ring: a memory that is written in every clock, round and round, and what is read from it.

ghost use Rattle.std.specs.Prelude.{◌≡◌, ◌<◌, ◌≤◌, ◌+◌, ◌^◌, ℕ, length, IfOk, OnOk, Some, if◌then◌else◌};
ghost use Rattle.ae_netlist.specs.declared.cell.NetId.{NetId as Net};
ghost use Rattle.ae_netlist.specs.Circuit.{IsMemory, IsNet};
ghost use Rattle.ae_netlist.specs.Room.{HasRoom};
ghost use Rattle.ae_netlist.specs.Counts.{count_of, is_register};
ghost use Rattle.ae_netlist.specs.Runs.{InEveryRunFrom};
ghost use Rattle.ae_gates.specs.Cells.{Adds, is_test};
ghost use Rattle.ae_clocked.specs.Delays.{IsTap};
ghost use Rattle.ae_clocked.specs.Phases.{Belongs, KeepsCounters, kept_at, made_of};
ghost use Rattle.ae_clocked.specs.Rings.{AddsMemories, HoldsRing, IsLook, IsRing, IsStore};

use crate::clocks::Clocks;
use crate::registers::delayed;
use ae_gates::{constant, sum};
use ae_netlist::{Cell, NetId, Netlist};
use ae_word::Width;
use std::alloc::AllocError;

/// A memory of 2 to `bits` words, and the counter of its places at which it is written.
#[derive(Clone, Copy)]
pub struct Ring {
    pub memory: NetId,
    pub counter: NetId,
    pub bits: u32,
}

/// How many words a ring holds whose counter has so many bits.
pub fn ring_depth(bits: u32) -> u32
    requires { bits ≤ 12 }
    ensures holds { result ≡ 2 ^ bits }
    ensures some { 1 ≤ result }
    ensures most { result ≤ 4096 }
{
    1u32 << bits
}

/// Adds a memory that takes the word of `x` in every clock, at the place that `at` shows.
pub fn store(
    nl: &mut Netlist,
    x: NetId,
    at: NetId,
    width: Width,
    bits: u32,
) -> Result<NetId, AllocError>
    requires few { bits ≤ 12 }
    requires net { IsNet nl.old.cells x.0 width }
    requires place { IsNet nl.old.cells at.0 bits }
    requires room { HasRoom nl.old 2 }
    ensures adds { OnOk result (AddsMemories nl.old nl.new 2 1) }
    ensures registers { OnOk result (count_of is_register nl.new.cells ≤ count_of is_register nl.old.cells) }
    ensures tests { OnOk result (count_of is_test nl.new.cells ≤ count_of is_test nl.old.cells) }
    ensures memory { IfOk result (λ m. IsMemory nl.new.cells m.0 width (2 ^ bits)) }
    ensures store { IfOk result (λ m. InEveryRunFrom (length nl.old.cells) nl.new.cells (λ run. IsStore run m.0 at.0 x.0 (2 ^ bits))) }
{
    let always = constant(nl, Width::BIT, 1)?;
    nl.formed();
    let depth = ring_depth(bits);
    let m = nl.push_memory(width, depth)?;
    nl.connect_memory(m, at, x, always);
    Ok(m)
}

/// Adds the word of a memory at the place that `at` shows.
pub fn look(
    nl: &mut Netlist,
    m: NetId,
    at: NetId,
    width: Width,
    bits: u32,
) -> Result<NetId, AllocError>
    requires memory { IsMemory nl.old.cells m.0 width (2 ^ bits) }
    requires place { IsNet nl.old.cells at.0 bits }
    requires room { HasRoom nl.old 1 }
    ensures adds { OnOk result (Adds nl.old nl.new 1 0) }
    ensures registers { OnOk result (count_of is_register nl.new.cells ≤ count_of is_register nl.old.cells) }
    ensures tests { OnOk result (count_of is_test nl.new.cells ≤ count_of is_test nl.old.cells) }
    ensures net { IfOk result (λ y. IsNet nl.new.cells y.0 width) }
    ensures words { IfOk result (λ y. InEveryRunFrom (length nl.old.cells) nl.new.cells (λ run. IsLook run y.0 m.0 at.0)) }
{
    nl.formed();
    nl.push(width, Cell::Peek { mem: m, at })
}

/// The word that `x` had `tap` clocks before, from a ring of `x`.
fn behind(nl: &mut Netlist, ring: Ring, width: Width, tap: u32) -> Result<NetId, AllocError>
    requires some { 1 ≤ ring.bits }
    requires few { ring.bits ≤ 12 }
    requires late { 1 ≤ tap }
    requires within { tap ≤ 2 ^ ring.bits }
    requires memory { IsMemory nl.old.cells ring.memory.0 width (2 ^ ring.bits) }
    requires counter { IsNet nl.old.cells ring.counter.0 ring.bits }
    requires room { HasRoom nl.old 3 }
    ensures adds { OnOk result (Adds nl.old nl.new 3 0) }
    ensures registers { OnOk result (count_of is_register nl.new.cells ≤ count_of is_register nl.old.cells) }
    ensures tests { OnOk result (count_of is_test nl.new.cells ≤ count_of is_test nl.old.cells) }
    ensures net { IfOk result (λ y. IsNet nl.new.cells y.0 width) }
    ensures tap { IfOk result (λ y. (rst x : ℕ) → IsRing nl.old.cells rst ring.bits x ring.counter.0 ring.memory.0 → IsTap nl.new.cells rst width x tap y.0) }
{
    let all = ring_depth(ring.bits);
    let bits = Width { bits: ring.bits };
    let back = constant(nl, bits, u64::from(all - tap))?;
    let place = sum(nl, ring.counter, back, bits)?;
    let y = look(nl, ring.memory, place, width, ring.bits)?;
    Ok(y)
}

/// The same, read a clock before where it may be kept in a register, so that a memory with a registered output serves.
pub fn ring_tap(
    nl: &mut Netlist,
    ring: Ring,
    width: Width,
    tap: u32,
    kept: bool,
) -> Result<NetId, AllocError>
    requires some { 1 ≤ ring.bits }
    requires few { ring.bits ≤ 12 }
    requires late { 1 ≤ tap }
    requires within { tap ≤ 2 ^ ring.bits }
    requires memory { IsMemory nl.old.cells ring.memory.0 width (2 ^ ring.bits) }
    requires counter { IsNet nl.old.cells ring.counter.0 ring.bits }
    requires room { HasRoom nl.old 4 }
    ensures adds { OnOk result (Adds nl.old nl.new 4 0) }
    ensures registers { OnOk result (count_of is_register nl.new.cells ≤ count_of is_register nl.old.cells + (if kept then 1 else 0)) }
    ensures tests { OnOk result (count_of is_test nl.new.cells ≤ count_of is_test nl.old.cells) }
    ensures net { IfOk result (λ y. IsNet nl.new.cells y.0 width) }
    ensures tap { IfOk result (λ y. (rst x : ℕ) → IsRing nl.old.cells rst ring.bits x ring.counter.0 ring.memory.0 → IsTap nl.new.cells rst width x tap y.0) }
{
    if kept && tap > 1 {
        let word = behind(nl, ring, width, tap - 1)?;
        let late = delayed(nl, word, width)?;
        return Ok(late);
    }
    let y = behind(nl, ring, width, tap)?;
    Ok(y)
}

/// The bits of a counter of a ring that reaches so far back: from 3 on, the least that hold as many places.
fn bits_for(reach: u32) -> u32
    requires { reach ≤ 4096 }
    ensures low { 3 ≤ result }
    ensures high { result ≤ 12 }
    ensures enough { reach ≤ 2 ^ result }
    ensures least { (v : ℕ) → 3 ≤ v → reach ≤ 2 ^ v → result ≤ v }
{
    for bits in 3..12u32 {
        if reach <= 1u32 << bits {
            return bits;
        }
    }
    12
}

/// A ring of the words of a net that reaches so far back. Rings of one depth share their counter.
pub fn make_ring(
    nl: &mut Netlist,
    clocks: &mut Clocks,
    x: NetId,
    width: Width,
    reach: u32,
) -> Result<Ring, AllocError>
    requires belongs { Belongs clocks.old nl.old.cells }
    requires most { reach ≤ 4096 }
    requires net { IsNet nl.old.cells x.0 width }
    requires room { HasRoom nl.old 14 }
    ensures belongs { OnOk result (Belongs clocks.new nl.new.cells) }
    ensures keeps { OnOk result (KeepsCounters clocks.old clocks.new) }
    ensures adds { OnOk result (AddsMemories nl.old nl.new 14 1) }
    ensures registers { OnOk result (count_of is_register nl.new.cells + made_of clocks.old ≤ count_of is_register nl.old.cells + made_of clocks.new) }
    ensures tests { OnOk result (count_of is_test nl.new.cells + made_of clocks.old ≤ count_of is_test nl.old.cells + made_of clocks.new) }
    ensures gained { OnOk result (made_of clocks.new ≤ made_of clocks.old + 1) }
    ensures far { IfOk result (λ ring. 4096 ≤ reach → kept_at clocks.new (record { period = 4096; offset = 0 }) ≡ Some ring.counter) }
    ensures again { OnOk result ((net : Net) → 4096 ≤ reach → kept_at clocks.old (record { period = 4096; offset = 0 }) ≡ Some net → clocks.new ≡ clocks.old) }
    ensures ring { IfOk result (λ ring. HoldsRing nl.new.cells clocks.old.rst width x.0 reach ring) }
{
    let bits = bits_for(reach);
    let depth = ring_depth(bits);
    let counter = clocks.phase(nl, depth, 0)?;
    let memory = store(nl, x, counter, width, bits)?;
    Ok(Ring {
        memory,
        counter,
        bits,
    })
}
