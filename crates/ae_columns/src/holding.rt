// One register that keeps the word of one clock for a period.

ghost use Rattle.std.specs.Prelude.{◌<◌, ◌^◌, ℕ, length, IfOk, OnOk};
ghost use Rattle.ae_netlist.specs.Circuit.{IsNet, width_of};
ghost use Rattle.ae_netlist.specs.Runs.{InEveryRunFrom};
ghost use Rattle.ae_netlist.specs.Room.{HasRoom};
ghost use Rattle.ae_gates.specs.Cells.{Adds};
ghost use Rattle.ae_clocked.specs.Phases.{IsCounter};
ghost use Rattle.ae_columns.specs.Counts.{Counted};
ghost use Rattle.ae_columns.specs.Held.{IsHeld, IsKept};

use ae_clocked::{close, register};
use ae_gates::{choose, constant, equal, width_at};
use ae_netlist::{NetId, Netlist};
use ae_word::Width;
use std::alloc::AllocError;

/// A register that takes the word of `x` where the bit is 1, and else keeps its own.
fn kept(nl: &mut Netlist, x: NetId, width: Width, r: NetId, q: u32) -> Result<NetId, AllocError>
    requires net { IsNet nl.old.cells x.0 width }
    requires counter { IsNet nl.old.cells r.0 (width_of nl.old.cells r.0) }
    requires fits { q < 2 ^ width_of nl.old.cells r.0 }
    requires room { HasRoom nl.old 4 }
    ensures adds { OnOk result (Adds nl.old nl.new 4 0) }
    ensures counted { OnOk result (Counted nl.old nl.new 0 0 1 1) }
    ensures net { IfOk result (λ y. IsNet nl.new.cells y.0 width) }
    ensures words { IfOk result (λ y. InEveryRunFrom (length nl.old.cells) nl.new.cells (λ run. IsKept run y.0 r.0 q x.0)) }
{
    let bits = width_at(nl, r);
    let begin = constant(nl, bits, u64::from(q))?;
    let begins = equal(nl, r, begin, bits)?;
    let y = register(nl, width)?;
    let next = choose(nl, begins, x, y, width)?;
    close(nl, y, next);
    Ok(y)
}

/// The word that a net has in the clocks of one phase, held in the clocks of a period behind each of them.
pub fn hold(
    nl: &mut Netlist,
    x: NetId,
    width: Width,
    counter: NetId,
    period: u32,
    offset: u32,
    q: u32,
) -> Result<NetId, AllocError>
    requires net { IsNet nl.old.cells x.0 width }
    requires begins { offset < period }
    requires within { q < period }
    requires counter { (rst : ℕ) × IsCounter nl.old.cells rst (record { period = period; offset = offset }) counter.0 }
    requires room { HasRoom nl.old 4 }
    ensures adds { OnOk result (Adds nl.old nl.new 4 0) }
    ensures counted { OnOk result (Counted nl.old nl.new 0 0 1 1) }
    ensures held { IfOk result (λ y. (rst : ℕ) → IsCounter nl.old.cells rst (record { period = period; offset = offset }) counter.0 → IsHeld nl.new.cells rst width period offset q x.0 y.0) }
{
    let y = kept(nl, x, width, counter, q)?;
    Ok(y)
}
