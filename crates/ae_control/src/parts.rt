// Choices between nets, and registers.

ghost use Rattle.std.specs.Prelude.{◌≡◌, ◌+◌, ◌<◌, ◌++◌, OnOk, IfOk, ℕ, length, map};
ghost use Rattle.ae_netlist.specs.Circuit.{IsNet};
ghost use Rattle.ae_netlist.specs.Room.{HasRoom};
ghost use Rattle.ae_control.specs.Cells.{AreChoices, AreConnected, CanConnect, HasRegisters, IsLonger, choice};
ghost use Rattle.ae_control.specs.Controls.{HasAny};

use ae_netlist::{Cell, NetId, Netlist};
use ae_word::{Width, WordOp};
use std::alloc::AllocError;

/// Adds so many registers of one bit that are still to be connected.
pub fn registers(nl: &mut Netlist, count: u32) -> Result<(), AllocError>
    requires { HasRoom nl.old count }
    ensures { OnOk result (HasRegisters nl.old nl.new count) }
{
    for i in 0..count {
        nl.push_register(Width::BIT)?;
    }
    Ok(())
}

/// Adds a choice for each three nets: the word of the second in a clock in which the first is 1, and else that of the third.
pub fn choices(nl: &mut Netlist, width: Width, gates: &[[NetId; 3]]) -> Result<(), AllocError>
    requires choices { AreChoices nl.old.cells width gates.now }
    requires room { HasRoom nl.old (length gates.now) }
    ensures { OnOk result (nl.new ≡ record nl.old { cells = nl.old.cells ++ map (choice width) gates.now }) }
{
    for k in 0..gates.len() {
        nl.push(width, Cell::Op(WordOp::Mux, gates[k]))?;
    }
    Ok(())
}

/// Connects registers of one bit that stand one behind the other: each to the second net behind that of the one before.
pub fn connect_all(nl: &mut Netlist, first: u32, count: u32, next: u32)
    requires can { CanConnect nl.old.cells first count next }
    ensures { AreConnected nl.old nl.new first next count }
{
    nl.formed();
    for k in 0..count {
        nl.connect(NetId(first + k), NetId(next + 2 * k));
    }
}

/// Adds the bit that says whether one of so many bits is 1, which stand one behind the other; `low` is always 0, and `high`
/// always 1.
pub fn any_of(
    nl: &mut Netlist,
    first: u32,
    count: u32,
    low: NetId,
    high: NetId,
) -> Result<NetId, AllocError>
    requires bits { (k : ℕ) → k < count → IsNet nl.old.cells (first + k) 1 }
    requires low { IsNet nl.old.cells low.0 1 }
    requires high { IsNet nl.old.cells high.0 1 }
    requires room { HasRoom nl.old count }
    ensures longer { OnOk result (IsLonger nl.old nl.new) }
    ensures long { OnOk result (length nl.new.cells ≡ length nl.old.cells + count) }
    ensures net { IfOk result (λ y. IsNet nl.new.cells y.0 1) }
    ensures any { IfOk result (λ y. HasAny nl.new.cells first count low.0 high.0 (length nl.old.cells) y.0) }
{
    let mut any = low;
    for k in 0..count {
        let at = nl.len();
        choices(nl, Width::BIT, &[[NetId(first + k), high, any]])?;
        any = NetId(at);
    }
    Ok(any)
}
