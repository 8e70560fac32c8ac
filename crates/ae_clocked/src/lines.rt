// Delay lines: from registers alone, and with rings for what is far.

ghost use Rattle.std.specs.Prelude.{◌≡◌, ◌<◌, ◌≤◌, ◌+◌, ◌-◌, ◌*◌, ◌/◌, ◌^◌, ◌&&◌, ℕ, length, get_or, IfOk, OnOk, Some, slice_get, nat_lt, nat_le, min, if◌then◌else◌};
ghost use Rattle.ae_netlist.specs.Circuit.{IsNet, width_of};
ghost use Rattle.ae_netlist.specs.Room.{HasRoom};
ghost use Rattle.ae_netlist.specs.Counts.{AreWhole, count_of, is_memory, is_mul, is_register};
ghost use Rattle.ae_gates.specs.Cells.{Adds, Grows, is_test};
ghost use Rattle.ae_clocked.specs.Phases.{Belongs, KeepsCounters, made_of};
ghost use Rattle.ae_clocked.specs.Delays.{AreDelays, AreTaps, IsTap, greatest_of, line_cells};
ghost use Rattle.ae_clocked.specs.Rings.{AddsMemories, rings};
ghost use Rattle.ae_clocked.specs.Rows.{AreLinks};

use crate::clocks::Clocks;
use crate::registers::delayed;
use crate::row::{Link, far_tap, make_row};
use ae_gates::width_at;
use ae_netlist::{NetId, Netlist};
use ae_word::Width;
use std::alloc::{AllocError, Global};
use std::marker::Model;

/// The taps of a line, in the order in which they were asked for.
#[derive(Drop)]
pub struct Tapped {
    nets: Vec<NetId>,
}

impl Model for Tapped {
    ghost use Rattle.std.specs.Prelude.{List};
    ghost use Rattle.ae_netlist.specs.declared.cell.NetId.{NetId};

    ghost Value = { List NetId };

    ghost view = { λ t. t.nets.items };
}

impl Tapped {
    /// The net of one tap, numbered as they were asked for.
    pub fn tap(&self, i: u32) -> NetId
        requires { i < length self.now }
        ensures { slice_get self.now i ≡ Some result }
    {
        self.nets[i as usize]
    }
}

/// Registers one after another: net k is k clocks late.
pub(crate) fn chain(
    alloc: Global,
    nl: &mut Netlist,
    x: NetId,
    width: Width,
    count: u32,
) -> Result<Vec<NetId>, AllocError>
    requires net { IsNet nl.old.cells x.0 width }
    requires room { HasRoom nl.old count }
    ensures adds { OnOk result (Adds nl.old nl.new count 0) }
    ensures registers { OnOk result (count_of is_register nl.new.cells ≤ count_of is_register nl.old.cells + count) }
    ensures tests { OnOk result (count_of is_test nl.new.cells ≤ count_of is_test nl.old.cells) }
    ensures delays { IfOk result (λ nets. AreDelays nl.new.cells width x.0 nets.items) }
    ensures long { IfOk result (λ nets. length nets.items ≡ count + 1) }
{
    let mut nets = Vec::new(alloc);
    nets.push(x)?;
    let mut last = x;
    for i in 0..count {
        last = delayed(nl, last, width)?;
        nets.push(last)?;
    }
    Ok(nets)
}

fn greatest(taps: &[u32]) -> u32
    ensures { result ≡ greatest_of taps.now }
{
    let mut most = 0u32;
    for tap in taps {
        most = most.max(*tap);
    }
    most
}

/// The words of `x`, as many clocks later as each tap says: from clock d after reset on, a tap of d has the word that `x`
/// had d clocks before. Of the greatest tap A and the number n of taps above 0 it takes at most `8 * A + 4 * n` cells.
pub fn line(
    alloc: Global,
    nl: &mut Netlist,
    x: NetId,
    taps: &[u32],
    clocks: &mut Clocks,
) -> Result<Tapped, AllocError>
    requires belongs { Belongs clocks.old nl.old.cells }
    requires net { IsNet nl.old.cells x.0 (width_of nl.old.cells x.0) }
    requires few { length taps.now < 2 ^ 32 }
    requires room { HasRoom nl.old (line_cells taps.now) }
    ensures belongs { OnOk result (Belongs clocks.new nl.new.cells) }
    ensures grows { OnOk result (Grows nl.old nl.new) }
    ensures cells { OnOk result (length nl.new.cells ≤ length nl.old.cells + line_cells taps.now) }
    ensures muls { OnOk result (count_of is_mul nl.new.cells ≡ count_of is_mul nl.old.cells) }
    ensures memories { OnOk result (count_of is_memory nl.new.cells ≡ count_of is_memory nl.old.cells) }
    ensures whole { OnOk result (AreWhole nl.old.cells → AreWhole nl.new.cells) }
    ensures keeps { OnOk result (KeepsCounters clocks.old clocks.new) }
    ensures taps { IfOk result (λ nets. AreTaps nl.new.cells clocks.old.rst (width_of nl.old.cells x.0) x.0 taps.now nets) }
{
    let width = width_at(nl, x);
    let nets = chain(alloc, nl, x, width, greatest(taps))?;
    let mut tapped = Vec::new(alloc);
    for tap in taps {
        tapped.push(nets[*tap as usize])?;
    }
    Ok(Tapped { nets: tapped })
}

/// The tap where it is below 8, and else 0.
fn near_or_none(tap: u32) -> u32
    ensures { result ≡ (if nat_lt tap 8 then tap else 0) }
{
    if tap < 8 { tap } else { 0 }
}

/// The greatest of the taps below 8, and 0 of none.
fn nearest(taps: &[u32]) -> u32
    ensures below { result < 8 }
    ensures least { result ≤ greatest_of taps.now }
    ensures each { (k : ℕ) → k < length taps.now → get_or taps.now k 0 < 8 → get_or taps.now k 0 ≤ result }
{
    let mut most = 0u32;
    for tap in taps {
        most = most.max(near_or_none(*tap));
    }
    most
}

/// The rings of a line, and none where all taps are near.
fn far_row(
    alloc: Global,
    nl: &mut Netlist,
    clocks: &mut Clocks,
    x: NetId,
    width: Width,
    reach: u32,
    spare: u32,
) -> Result<Vec<Link>, AllocError>
    requires belongs { Belongs clocks.old nl.old.cells }
    requires net { IsNet nl.old.cells x.0 width }
    requires room { HasRoom nl.old (18 * rings reach) }
    ensures belongs { OnOk result (Belongs clocks.new nl.new.cells) }
    ensures keeps { OnOk result (KeepsCounters clocks.old clocks.new) }
    ensures adds { OnOk result (AddsMemories nl.old nl.new (18 * rings reach) (rings reach)) }
    ensures registers { OnOk result (count_of is_register nl.new.cells + made_of clocks.old ≤ count_of is_register nl.old.cells + made_of clocks.new + min ((reach + 4095) / 4096 - 1) spare) }
    ensures tests { OnOk result (count_of is_test nl.new.cells + made_of clocks.old ≤ count_of is_test nl.old.cells + made_of clocks.new) }
    ensures gained { OnOk result (made_of clocks.new ≤ made_of clocks.old + 2) }
    ensures long { IfOk result (λ links. length links.items ≡ rings reach) }
    ensures links { IfOk result (λ links. AreLinks nl.new.cells clocks.old.rst width x.0 reach links.items) }
{
    if reach < 8 {
        return Ok(Vec::new(alloc));
    }
    make_row(alloc, nl, clocks, x, width, reach, spare)
}

/// One tap of a line.
fn tap_at(
    nl: &mut Netlist,
    nets: &[NetId],
    links: &[Link],
    width: Width,
    tap: u32,
    kept: bool,
) -> Result<NetId, AllocError>
    requires near { tap < 8 → tap < length nets.now }
    requires far { 8 ≤ tap → tap ≤ 4096 * length links.now }
    requires delays { (x : ℕ) × AreDelays nl.old.cells width x nets.now }
    requires links { 8 ≤ tap → (rst : ℕ) × (x : ℕ) × (reach : ℕ) × AreLinks nl.old.cells rst width x reach links.now × (tap ≤ reach) }
    requires room { HasRoom nl.old (if nat_lt 0 tap then 4 else 0) }
    ensures adds { OnOk result (Adds nl.old nl.new (if nat_lt 0 tap then 4 else 0) 0) }
    ensures registers { OnOk result (count_of is_register nl.new.cells ≤ count_of is_register nl.old.cells + (if kept && nat_le 8 tap then 1 else 0)) }
    ensures tests { OnOk result (count_of is_test nl.new.cells ≤ count_of is_test nl.old.cells) }
    ensures tap { IfOk result (λ y. (rst x reach : ℕ) → AreDelays nl.old.cells width x nets.now → AreLinks nl.old.cells rst width x reach links.now → IsTap nl.new.cells rst width x tap y.0) }
{
    if tap < 8 {
        return Ok(nets[tap as usize]);
    }
    far_tap(nl, links, width, tap, kept)
}

/// The words of `x`, as many clocks later as each tap says: from clock d after reset on, a tap of d has the word that `x`
/// had d clocks before. Of the greatest tap A and the number n of taps above 0 it takes at most `8 * A + 4 * n` cells, and
/// a memory for each 4,096 clocks of A where A is 8 or more. It makes at most two counters, and beside these at most seven
/// registers, and no more than A, and no comparison.
pub fn ring_line(
    alloc: Global,
    nl: &mut Netlist,
    x: NetId,
    taps: &[u32],
    clocks: &mut Clocks,
) -> Result<Tapped, AllocError>
    requires belongs { Belongs clocks.old nl.old.cells }
    requires net { IsNet nl.old.cells x.0 (width_of nl.old.cells x.0) }
    requires few { length taps.now < 2 ^ 32 }
    requires room { HasRoom nl.old (line_cells taps.now) }
    ensures belongs { OnOk result (Belongs clocks.new nl.new.cells) }
    ensures grows { OnOk result (Grows nl.old nl.new) }
    ensures cells { OnOk result (length nl.new.cells ≤ length nl.old.cells + line_cells taps.now) }
    ensures muls { OnOk result (count_of is_mul nl.new.cells ≡ count_of is_mul nl.old.cells) }
    ensures memories { OnOk result (count_of is_memory nl.new.cells ≤ count_of is_memory nl.old.cells + rings (greatest_of taps.now)) }
    ensures whole { OnOk result (AreWhole nl.old.cells → AreWhole nl.new.cells) }
    ensures registers { OnOk result (count_of is_register nl.new.cells + made_of clocks.old ≤ count_of is_register nl.old.cells + made_of clocks.new + min 7 (greatest_of taps.now)) }
    ensures tests { OnOk result (count_of is_test nl.new.cells + made_of clocks.old ≤ count_of is_test nl.old.cells + made_of clocks.new) }
    ensures gained { OnOk result (made_of clocks.new ≤ made_of clocks.old + 2) }
    ensures keeps { OnOk result (KeepsCounters clocks.old clocks.new) }
    ensures taps { IfOk result (λ nets. AreTaps nl.new.cells clocks.old.rst (width_of nl.old.cells x.0) x.0 taps.now nets) }
{
    let width = width_at(nl, x);
    let most = greatest(taps);
    let near = nearest(taps);
    let nets = chain(alloc, nl, x, width, near)?;
    let mut spare = most.min(7) - near;
    let links = far_row(alloc, nl, clocks, x, width, most, spare)?;
    spare = spare.saturating_sub(most.saturating_sub(1) / 4096);
    let mut tapped = Vec::new(alloc);
    for tap in taps {
        let net = tap_at(nl, &nets, &links, width, *tap, spare > 0)?;
        spare = spare.saturating_sub((*tap / 8).min(1));
        tapped.push(net)?;
    }
    Ok(Tapped { nets: tapped })
}
