// One counter.

ghost use Rattle.std.specs.Prelude.{◌≡◌, ◌+◌, ◌<◌, ◌≤◌, ◌%◌, ◌^◌, ℕ, bit_xor, length, IfOk, OnOk};
ghost use Rattle.ae_netlist.specs.Circuit.{IsNet};
ghost use Rattle.ae_netlist.specs.Room.{HasRoom};
ghost use Rattle.ae_netlist.specs.Counts.{count_of, is_register};
ghost use Rattle.ae_netlist.specs.Runs.{InEveryRunFrom, word_at};
ghost use Rattle.ae_gates.specs.Cells.{Adds, is_test};
ghost use Rattle.ae_clocked.specs.Signals.{Counts, IsTurned};

use crate::registers::{close, register};
use ae_gates::{choose, constant, differ, doubled, either, equal, lowest, sum};
use ae_netlist::{NetId, Netlist};
use ae_word::Width;
use std::alloc::AllocError;

/// The word after that of a counter, with an adder.
fn turned_by_sum(nl: &mut Netlist, r: NetId, width: Width, last: u64) -> Result<NetId, AllocError>
    requires net { IsNet nl.old.cells r.0 width }
    requires fits { last < 2 ^ width }
    requires room { HasRoom nl.old 6 }
    ensures adds { OnOk result (Adds nl.old nl.new 6 0) }
    ensures registers { OnOk result (count_of is_register nl.new.cells ≤ count_of is_register nl.old.cells) }
    ensures tests { OnOk result (count_of is_test nl.new.cells ≤ count_of is_test nl.old.cells + 1) }
    ensures net { IfOk result (λ y. IsNet nl.new.cells y.0 width) }
    ensures words { IfOk result (λ y. InEveryRunFrom (length nl.old.cells) nl.new.cells (λ run. IsTurned run y.0 r.0 width last)) }
{
    width.limits();
    let end = constant(nl, width, last)?;
    let at_end = equal(nl, r, end, width)?;
    let one = constant(nl, width, 1)?;
    let up = sum(nl, r, one, width)?;
    let zero = constant(nl, width, 0)?;
    let next = choose(nl, at_end, zero, up, width)?;
    Ok(next)
}

/// The bits that change where one is added to a word of three bits: the ones at its end, and the zero before them.
fn changed(nl: &mut Netlist, r: NetId) -> Result<NetId, AllocError>
    requires net { IsNet nl.old.cells r.0 3 }
    requires room { HasRoom nl.old 5 }
    ensures adds { OnOk result (Adds nl.old nl.new 5 0) }
    ensures registers { OnOk result (count_of is_register nl.new.cells ≤ count_of is_register nl.old.cells) }
    ensures tests { OnOk result (count_of is_test nl.new.cells ≤ count_of is_test nl.old.cells) }
    ensures net { IfOk result (λ y. IsNet nl.new.cells y.0 3) }
    ensures words { IfOk result (λ y. InEveryRunFrom (length nl.old.cells) nl.new.cells (λ run. (t : ℕ) → t < length run → bit_xor (word_at run t r.0) (word_at run t y.0) ≡ (word_at run t r.0 + 1) % 2 ^ 3)) }
{
    let three = Width { bits: 3 };
    let one = constant(nl, three, 1)?;
    let up = doubled(nl, r, three)?;
    let odd = either(nl, up, one, three)?;
    let low = lowest(nl, r, three)?;
    let ones = choose(nl, low, odd, one, three)?;
    Ok(ones)
}

/// The word after that of a counter of three bits, without an adder: each of its bits depends on the three of `r` alone
/// and fits a lookup table of an FPGA, where a sum would take a carry chain as well.
fn turned_by_bits(nl: &mut Netlist, r: NetId, last: u64) -> Result<NetId, AllocError>
    requires net { IsNet nl.old.cells r.0 3 }
    requires fits { last < 2 ^ 3 }
    requires room { HasRoom nl.old 9 }
    ensures adds { OnOk result (Adds nl.old nl.new 9 0) }
    ensures registers { OnOk result (count_of is_register nl.new.cells ≤ count_of is_register nl.old.cells) }
    ensures tests { OnOk result (count_of is_test nl.new.cells ≤ count_of is_test nl.old.cells + 1) }
    ensures net { IfOk result (λ y. IsNet nl.new.cells y.0 3) }
    ensures words { IfOk result (λ y. InEveryRunFrom (length nl.old.cells) nl.new.cells (λ run. IsTurned run y.0 r.0 3 last)) }
{
    let three = Width { bits: 3 };
    let end = constant(nl, three, last)?;
    let at_end = equal(nl, r, end, three)?;
    let ones = changed(nl, r)?;
    let flips = choose(nl, at_end, r, ones, three)?;
    let next = differ(nl, r, flips, three)?;
    Ok(next)
}

/// The word after that of a counter.
fn turned(nl: &mut Netlist, r: NetId, width: Width, last: u64) -> Result<NetId, AllocError>
    requires net { IsNet nl.old.cells r.0 width }
    requires fits { last < 2 ^ width }
    requires room { HasRoom nl.old 9 }
    ensures adds { OnOk result (Adds nl.old nl.new 9 0) }
    ensures registers { OnOk result (count_of is_register nl.new.cells ≤ count_of is_register nl.old.cells) }
    ensures tests { OnOk result (count_of is_test nl.new.cells ≤ count_of is_test nl.old.cells + 1) }
    ensures net { IfOk result (λ y. IsNet nl.new.cells y.0 width) }
    ensures words { IfOk result (λ y. InEveryRunFrom (length nl.old.cells) nl.new.cells (λ run. IsTurned run y.0 r.0 width last)) }
{
    if width.bits() == 3 {
        return turned_by_bits(nl, r, last);
    }
    let y = turned_by_sum(nl, r, width, last)?;
    Ok(y)
}

/// A register that counts.
pub fn counter(
    nl: &mut Netlist,
    rst: NetId,
    width: Width,
    last: u64,
    first: u64,
) -> Result<NetId, AllocError>
    requires rst { IsNet nl.old.cells rst.0 1 }
    requires last { last < 2 ^ width }
    requires first { first < 2 ^ width }
    requires room { HasRoom nl.old 12 }
    ensures adds { OnOk result (Adds nl.old nl.new 12 0) }
    ensures registers { OnOk result (count_of is_register nl.new.cells ≤ count_of is_register nl.old.cells + 1) }
    ensures tests { OnOk result (count_of is_test nl.new.cells ≤ count_of is_test nl.old.cells + 1) }
    ensures net { IfOk result (λ y. IsNet nl.new.cells y.0 width) }
    ensures words { IfOk result (λ y. InEveryRunFrom (length nl.old.cells) nl.new.cells (λ run. Counts run y.0 rst.0 width last first)) }
{
    let r = register(nl, width)?;
    let after = turned(nl, r, width, last)?;
    let begin = constant(nl, width, first)?;
    let next = choose(nl, rst, begin, after, width)?;
    close(nl, r, next);
    Ok(r)
}
