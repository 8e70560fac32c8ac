// Rings in a row, for delays that one ring does not hold.

ghost use Rattle.std.specs.Prelude.{◌≡◌, ◌<◌, ◌≤◌, ◌+◌, ◌-◌, ◌*◌, ◌/◌, ℕ, length, min, IfOk, OnOk, if◌then◌else◌};
ghost use Rattle.ae_netlist.specs.Circuit.{IsNet};
ghost use Rattle.ae_netlist.specs.Room.{HasRoom};
ghost use Rattle.ae_netlist.specs.Counts.{count_of, is_register};
ghost use Rattle.ae_gates.specs.Cells.{Adds, is_test};
ghost use Rattle.ae_clocked.specs.Phases.{Belongs, KeepsCounters, made_of};
ghost use Rattle.ae_clocked.specs.Delays.{IsTap};
ghost use Rattle.ae_clocked.specs.Rings.{AddsMemories};
ghost use Rattle.ae_clocked.specs.Rows.{AreLinks};

use crate::clocks::Clocks;
use crate::ring::{Ring, make_ring, ring_tap};
use ae_netlist::{NetId, Netlist};
use ae_word::Width;
use std::alloc::{AllocError, Global};

/// A ring in a row: the net whose words it keeps, and the ring.
#[derive(Clone, Copy)]
pub struct Link {
    pub head: NetId,
    pub ring: Ring,
}

/// Rings in a row that reach so far back: each but the last holds 4,096 words and gives what it loses to the next. In the
/// first `spare` of them what the next one takes is kept in a register.
pub fn make_row(
    alloc: Global,
    nl: &mut Netlist,
    clocks: &mut Clocks,
    x: NetId,
    width: Width,
    reach: u32,
    spare: u32,
) -> Result<Vec<Link>, AllocError>
    requires belongs { Belongs clocks.old nl.old.cells }
    requires late { 1 ≤ reach }
    requires net { IsNet nl.old.cells x.0 width }
    requires room { HasRoom nl.old (18 * ((reach + 4095) / 4096)) }
    ensures belongs { OnOk result (Belongs clocks.new nl.new.cells) }
    ensures keeps { OnOk result (KeepsCounters clocks.old clocks.new) }
    ensures adds { OnOk result (AddsMemories nl.old nl.new (18 * ((reach + 4095) / 4096)) ((reach + 4095) / 4096)) }
    ensures registers { OnOk result (count_of is_register nl.new.cells + made_of clocks.old ≤ count_of is_register nl.old.cells + made_of clocks.new + min ((reach + 4095) / 4096 - 1) spare) }
    ensures tests { OnOk result (count_of is_test nl.new.cells + made_of clocks.old ≤ count_of is_test nl.old.cells + made_of clocks.new) }
    ensures gained { OnOk result (made_of clocks.new ≤ made_of clocks.old + 2) }
    ensures long { IfOk result (λ links. length links.items ≡ (reach + 4095) / 4096) }
    ensures links { IfOk result (λ links. AreLinks nl.new.cells clocks.old.rst width x.0 reach links.items) }
{
    let last = (reach - 1) / 4096;
    let mut links = Vec::new(alloc);
    let mut head = x;
    for j in 0..last {
        let ring = make_ring(nl, clocks, head, width, 4096)?;
        links.push(Link { head, ring })?;
        head = ring_tap(nl, ring, width, 4096, j < spare)?;
    }
    let ring = make_ring(nl, clocks, head, width, reach - 4096 * last)?;
    links.push(Link { head, ring })?;
    Ok(links)
}

/// The word that a net had `tap` clocks before, from rings in a row that reach so far.
pub fn far_tap(
    nl: &mut Netlist,
    links: &[Link],
    width: Width,
    tap: u32,
    kept: bool,
) -> Result<NetId, AllocError>
    requires late { 1 ≤ tap }
    requires long { tap ≤ 4096 * length links.now }
    requires links { (rst : ℕ) × (x : ℕ) × (reach : ℕ) × AreLinks nl.old.cells rst width x reach links.now × (tap ≤ reach) }
    requires room { HasRoom nl.old 4 }
    ensures adds { OnOk result (Adds nl.old nl.new 4 0) }
    ensures registers { OnOk result (count_of is_register nl.new.cells ≤ count_of is_register nl.old.cells + (if kept then 1 else 0)) }
    ensures tests { OnOk result (count_of is_test nl.new.cells ≤ count_of is_test nl.old.cells) }
    ensures net { IfOk result (λ y. IsNet nl.new.cells y.0 width) }
    ensures tap { IfOk result (λ y. (rst x reach : ℕ) → AreLinks nl.old.cells rst width x reach links.now → IsTap nl.new.cells rst width x tap y.0) }
{
    let place = (tap - 1) / 4096;
    let link = links[place as usize];
    let y = ring_tap(nl, link.ring, width, tap - 4096 * place, kept)?;
    Ok(y)
}
