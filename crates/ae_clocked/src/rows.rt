// Rows of rings, each made once for the net whose words it holds.

ghost use Rattle.std.specs.Prelude.{◌≡◌, ◌<◌, ◌≤◌, ◌+◌, ◌*◌, ◌/◌, [], ℕ, true, nat_eq, IfOk, OnOk, Some, if◌then◌else◌};
ghost use Rattle.std.specs.Option.{option_map};
ghost use Rattle.ae_netlist.specs.Circuit.{IsNet, width_of};
ghost use Rattle.ae_netlist.specs.Room.{HasRoom};
ghost use Rattle.ae_gates.specs.Cells.{Adds};
ghost use Rattle.ae_clocked.specs.Phases.{Belongs, KeepsCounters};
ghost use Rattle.ae_clocked.specs.Delays.{IsTap};
ghost use Rattle.ae_clocked.specs.KeptRings.{AddsRings, RingsBelong, ring_row_at};
ghost use Rattle.ae_clocked.specs.declared.rows.RingRow.{RingRow as Kept};

use crate::clocks::Clocks;
use crate::lines::chain;
use crate::row::{Link, far_tap, make_row};
use ae_gates::width_at;
use ae_netlist::{NetId, Netlist};
use ae_word::Width;
use indexmap::IndexMap;
use std::alloc::{AllocError, Global};
use std::marker::Model;

/// The rings of a net in a row, and how many clocks they reach back.
#[derive(Drop)]
pub struct RingRow {
    pub reach: u32,
    pub links: Vec<Link>,
}

/// Rows of rings by the nets whose words they hold, and how many memories may still be made for further ones.
#[derive(Drop)]
pub struct Rings {
    left: u32,
    rows: IndexMap<u32, RingRow>,
}

impl Model for Rings {
    ghost use Rattle.ae_clocked.specs.KeptRings.{KeptRings};

    ghost Value = { KeptRings };

    ghost view = { λ r. record { left = r.left; rows = r.rows.entries } };
}

impl Rings {
    /// No row is kept yet; `most` memories may be made. Takes no memory.
    pub fn new(alloc: Global, most: u32) -> Rings
        ensures { result ≡ record { left = most; rows = [] } }
    {
        Rings {
            left: most,
            rows: IndexMap::new(alloc),
        }
    }

    fn find(&self, x: NetId) -> Option<&RingRow>
        ensures { option_map (λ r. r.now) result ≡ ring_row_at self.now x.0 }
    {
        self.rows.get(&x.0)
    }

    fn keep(&mut self, x: NetId, row: RingRow) -> Result<(), AllocError>
        ensures kept { OnOk result ((q : ℕ) → ring_row_at self.new q ≡ (if nat_eq x.0 q then Some row else ring_row_at self.old q)) }
        ensures left { self.new.left ≡ self.old.left }
    {
        self.rows.insert(x.0, row)?;
        Ok(())
    }

    /// Whether the rings of a net reach back so far.
    fn reaches(&self, x: NetId, delay: u32) -> bool
        ensures { result ≡ true → (row : Kept) × (ring_row_at self.now x.0 ≡ Some row) × (delay ≤ row.reach) }
    {
        match self.find(x) {
            Some(row) => delay <= row.reach,
            None => false,
        }
    }

    /// Whether rings that reach so far are made for a delay: as many memories are left, they take no more cells than the
    /// registers of the delay may, and they hold more bits than a small device would keep in registers.
    fn allows(&self, delay: u32, reach: u32, width: Width) -> bool
        requires { 8 ≤ delay }
        ensures { result ≡ true → (delay ≤ reach) × ((reach + 4095) / 4096 ≤ self.now.left) × (18 * ((reach + 4095) / 4096) + 4 ≤ 16 * delay) }
    {
        delay <= reach
            && reach / 2048 <= delay
            && (reach - 1) / 4096 < self.left
            && reach > 64 / width.bits()
    }

    fn spend(&mut self, count: u32)
        requires { count ≤ self.old.left }
        ensures left { self.new.left + count ≡ self.old.left }
        ensures rows { self.new.rows ≡ self.old.rows }
    {
        self.left -= count;
    }

    /// Makes the rings of a net.
    fn make(
        &mut self,
        alloc: Global,
        nl: &mut Netlist,
        clocks: &mut Clocks,
        x: NetId,
        reach: u32,
    ) -> Result<(), AllocError>
        requires belongs { Belongs clocks.old nl.old.cells }
        requires rows { RingsBelong self.old clocks.old.rst nl.old.cells }
        requires net { IsNet nl.old.cells x.0 (width_of nl.old.cells x.0) }
        requires late { 1 ≤ reach }
        requires left { (reach + 4095) / 4096 ≤ self.old.left }
        requires room { HasRoom nl.old (18 * ((reach + 4095) / 4096)) }
        ensures belongs { OnOk result (Belongs clocks.new nl.new.cells) }
        ensures keeps { OnOk result (KeepsCounters clocks.old clocks.new) }
        ensures rows { OnOk result (RingsBelong self.new clocks.old.rst nl.new.cells) }
        ensures made { OnOk result ((row : Kept) × (ring_row_at self.new x.0 ≡ Some row) × (row.reach ≡ reach)) }
        ensures adds { OnOk result (AddsRings nl.old nl.new (18 * ((reach + 4095) / 4096)) self.old.left self.new.left) }
    {
        let count = (reach - 1) / 4096 + 1;
        self.spend(count);
        let width = width_at(nl, x);
        let links = make_row(alloc, nl, clocks, x, width, reach, count)?;
        self.keep(x, RingRow { reach, links })?;
        Ok(())
    }

    /// The word of a net some clocks later, from its rings.
    fn read(&self, nl: &mut Netlist, x: NetId, delay: u32) -> Result<NetId, AllocError>
        requires late { 1 ≤ delay }
        requires holds { (rst : ℕ) × RingsBelong self.now rst nl.old.cells }
        requires there { (row : Kept) × (ring_row_at self.now x.0 ≡ Some row) × (delay ≤ row.reach) }
        requires room { HasRoom nl.old 4 }
        ensures adds { OnOk result (Adds nl.old nl.new 4 0) }
        ensures tap { IfOk result (λ y. (rst : ℕ) → RingsBelong self.now rst nl.old.cells → IsTap nl.new.cells rst (width_of nl.old.cells x.0) x.0 delay y.0) }
    {
        let width = width_at(nl, x);
        match self.find(x) {
            Some(row) => far_tap(nl, &row.links, width, delay, true),
            None => unreachable!(),
        }
    }

    /// The word of `x`, as many clocks later as `delay` says: from that clock after reset on it is the word that `x` had so
    /// many clocks before. A delay of 8 clocks or more is read from rings of `x`, which are made for a delay of up to
    /// `reach` clocks where memories are left for them and they hold more than 64 bits, and serve each later call; else the
    /// word goes through registers. It takes at most 16 cells for each clock.
    pub fn tap(
        &mut self,
        alloc: Global,
        nl: &mut Netlist,
        clocks: &mut Clocks,
        x: NetId,
        delay: u32,
        reach: u32,
    ) -> Result<NetId, AllocError>
        requires belongs { Belongs clocks.old nl.old.cells }
        requires rows { RingsBelong self.old clocks.old.rst nl.old.cells }
        requires net { IsNet nl.old.cells x.0 (width_of nl.old.cells x.0) }
        requires room { HasRoom nl.old (16 * delay) }
        ensures belongs { OnOk result (Belongs clocks.new nl.new.cells) }
        ensures keeps { OnOk result (KeepsCounters clocks.old clocks.new) }
        ensures rows { OnOk result (RingsBelong self.new clocks.old.rst nl.new.cells) }
        ensures adds { OnOk result (AddsRings nl.old nl.new (16 * delay) self.old.left self.new.left) }
        ensures tap { IfOk result (λ y. IsTap nl.new.cells clocks.old.rst (width_of nl.old.cells x.0) x.0 delay y.0) }
    {
        if delay >= 8 && self.reaches(x, delay) {
            let y = self.read(nl, x, delay)?;
            return Ok(y);
        }
        if delay >= 8 && self.allows(delay, reach, width_at(nl, x)) {
            self.make(alloc, nl, clocks, x, reach)?;
            let y = self.read(nl, x, delay)?;
            return Ok(y);
        }
        let y = near_tap(alloc, nl, x, delay)?;
        Ok(y)
    }
}

/// The word of a net some clocks later, through registers.
fn near_tap(alloc: Global, nl: &mut Netlist, x: NetId, delay: u32) -> Result<NetId, AllocError>
    requires net { IsNet nl.old.cells x.0 (width_of nl.old.cells x.0) }
    requires room { HasRoom nl.old delay }
    ensures adds { OnOk result (Adds nl.old nl.new delay 0) }
    ensures tap { IfOk result (λ y. (rst : ℕ) → IsTap nl.new.cells rst (width_of nl.old.cells x.0) x.0 delay y.0) }
{
    let width = width_at(nl, x);
    let nets = chain(alloc, nl, x, width, delay)?;
    Ok(nets[delay as usize])
}
