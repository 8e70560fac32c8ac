// The clocks of a block in which elements stand, as nets.

ghost use Rattle.std.specs.Prelude.{◌≡◌, ◌+◌, ◌*◌, ◌<◌, ◌≤◌, ◌&&◌, ◌||◌, nat_lt, Bool, IfOk, ℕ, Some, slice_get, map, OnOk};
ghost use Rattle.ae_sttype.specs.StTree.{st_tree, time};
ghost use Rattle.ae_sttype.specs.Size.{IsInSize};
ghost use Rattle.ae_sttype.specs.Slots.{slots};
ghost use Rattle.ae_netlist.specs.Circuit.{IsNet};
ghost use Rattle.ae_netlist.specs.Room.{HasRoom};
ghost use Rattle.ae_gates.specs.Cells.{Adds};
ghost use Rattle.ae_clocked.specs.Phases.{Belongs, phase_of};
ghost use Rattle.ae_stream.specs.Streams.{in_clock, is_beat};
ghost use Rattle.ae_streamed.specs.Beats.{GainsBit, IsBitOf};
ghost use Rattle.ae_streamed.specs.Count.{any_beat_cells, beat_cells};

use ae_clocked::Clocks;
use ae_gates::{constant, operate};
use ae_netlist::{NetId, Netlist};
use ae_sttype::StType;
use ae_word::{Width, WordOp};
use std::alloc::AllocError;

/// Adds the bit that is 1 where two bits are.
fn both(nl: &mut Netlist, a: NetId, b: NetId) -> Result<NetId, AllocError>
    requires left { IsNet nl.old.cells a.0 1 }
    requires right { IsNet nl.old.cells b.0 1 }
    requires room { HasRoom nl.old 1 }
    ensures adds { OnOk result (Adds nl.old nl.new 1 0) }
    ensures told { IfOk result (λ y. (rst : ℕ) (f g : ℕ → Bool) → IsBitOf nl.old.cells rst a.0 f → IsBitOf nl.old.cells rst b.0 g → IsBitOf nl.new.cells rst y.0 (λ c. f c && g c)) }
{
    let y = operate(nl, WordOp::And, [a, b, a], Width::BIT)?;
    Ok(y)
}

/// Adds the bit that is 1 where one of two bits is.
fn either(nl: &mut Netlist, a: NetId, b: NetId) -> Result<NetId, AllocError>
    requires left { IsNet nl.old.cells a.0 1 }
    requires right { IsNet nl.old.cells b.0 1 }
    requires room { HasRoom nl.old 1 }
    ensures adds { OnOk result (Adds nl.old nl.new 1 0) }
    ensures told { IfOk result (λ y. (rst : ℕ) (f g : ℕ → Bool) → IsBitOf nl.old.cells rst a.0 f → IsBitOf nl.old.cells rst b.0 g → IsBitOf nl.new.cells rst y.0 (λ c. f c || g c)) }
{
    let y = operate(nl, WordOp::Or, [a, b, a], Width::BIT)?;
    Ok(y)
}

/// Adds the bit that is 1 in the first `from` clocks of each period from the clock `offset` after reset on.
pub fn period_bit(
    nl: &mut Netlist,
    clocks: &mut Clocks,
    period: u32,
    offset: u32,
    from: u32,
) -> Result<NetId, AllocError>
    requires belongs { Belongs clocks.old nl.old.cells }
    requires low { offset < period }
    requires high { period ≤ 4096 }
    requires within { from ≤ period }
    requires room { HasRoom nl.old 21 }
    ensures adds { OnOk result (Adds nl.old nl.new 21 0) }
    ensures gains { IfOk result (λ y. GainsBit nl.old nl.new clocks.old clocks.new y.0 (λ c. nat_lt (phase_of period offset c) from)) }
{
    let y = clocks.lead(nl, period, offset, from, 0)?;
    Ok(y)
}

/// The bit that is 1 in those clocks of each block in which an element of the layout stands, where blocks begin `offset` clocks
/// after the reset.
fn slot_beat(
    nl: &mut Netlist,
    clocks: &mut Clocks,
    layout: &StType,
    offset: u32,
) -> Result<NetId, AllocError>
    requires belongs { Belongs clocks.old nl.old.cells }
    requires in_size { IsInSize (st_tree layout.now) }
    requires low { offset < time (st_tree layout.now) }
    requires room { HasRoom nl.old (beat_cells (st_tree layout.now)) }
    ensures adds { OnOk result (Adds nl.old nl.new (beat_cells (st_tree layout.now)) 0) }
    ensures gains { IfOk result (λ y. GainsBit nl.old nl.new clocks.old clocks.new y.0 (λ c. in_clock (slots (st_tree layout.now)) (phase_of (time (st_tree layout.now)) offset c))) }
{
    match layout {
        StType::Atom(_) => {
            let y = constant(nl, Width::BIT, 1)?;
            Ok(y)
        }
        StType::T { n, i, of } => {
            let of: &StType = of;
            let span = of.time();
            let inner = slot_beat(nl, clocks, of, offset % span)?;
            let here = period_bit(nl, clocks, (*n + *i) * span, offset, *n * span)?;
            let y = both(nl, here, inner)?;
            Ok(y)
        }
        StType::S { n: _, of } => {
            let of: &StType = of;
            let y = slot_beat(nl, clocks, of, offset)?;
            Ok(y)
        }
    }
}

/// The bit that is 1 in those clocks of each block in which an element of any of these layouts stands, where blocks begin
/// `offset` clocks after the reset.
pub fn beat(
    nl: &mut Netlist,
    clocks: &mut Clocks,
    layouts: &[StType],
    slowdown: u32,
    offset: u32,
) -> Result<NetId, AllocError>
    requires belongs { Belongs clocks.old nl.old.cells }
    requires sizes { (k : ℕ) (layout : StType) → slice_get layouts.now k ≡ Some layout → IsInSize (st_tree layout) × (time (st_tree layout) ≡ slowdown) }
    requires low { offset < slowdown }
    requires room { HasRoom nl.old (any_beat_cells (map st_tree layouts.now)) }
    ensures adds { OnOk result (Adds nl.old nl.new (any_beat_cells (map st_tree layouts.now)) 0) }
    ensures gains { IfOk result (λ y. GainsBit nl.old nl.new clocks.old clocks.new y.0 (λ c. is_beat (map st_tree layouts.now) (phase_of slowdown offset c))) }
{
    let mut any = constant(nl, Width::BIT, 0)?;
    for k in 0..layouts.len() {
        let one = slot_beat(nl, clocks, &layouts[k], offset)?;
        any = either(nl, any, one)?;
    }
    Ok(any)
}
