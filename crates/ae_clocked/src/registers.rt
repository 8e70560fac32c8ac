// Registers, one at a time, with what their nets hold in every run.

ghost use Rattle.std.specs.Prelude.{◌≡◌, ◌+◌, ◌≤◌, length, IfOk, OnOk};
ghost use Rattle.ae_netlist.specs.Circuit.{IsNet, IsRegister, width_of};
ghost use Rattle.ae_netlist.specs.Room.{HasRoom};
ghost use Rattle.ae_netlist.specs.Counts.{count_of, is_register};
ghost use Rattle.ae_netlist.specs.Runs.{InEveryRunFrom};
ghost use Rattle.ae_gates.specs.Cells.{Adds, is_test};
ghost use Rattle.ae_clocked.specs.Signals.{Connects, IsNextOf};

use ae_netlist::{NetId, Netlist};
use ae_word::Width;
use std::alloc::AllocError;

/// Adds a register that is still to be connected, as the last cell.
pub fn register(nl: &mut Netlist, width: Width) -> Result<NetId, AllocError>
    requires { HasRoom nl.old 1 }
    ensures adds { OnOk result (Adds nl.old nl.new 1 0) }
    ensures registers { OnOk result (count_of is_register nl.new.cells ≤ count_of is_register nl.old.cells + 1) }
    ensures tests { OnOk result (count_of is_test nl.new.cells ≤ count_of is_test nl.old.cells) }
    ensures fresh { IfOk result (λ r. r.0 ≡ length nl.old.cells) }
    ensures net { IfOk result (λ r. IsNet nl.new.cells r.0 width) }
    ensures register { IfOk result (λ r. IsRegister nl.new.cells r.0 width) }
{
    nl.formed();
    nl.push_register(width)
}

/// Connects a register: it has, in each clock, the word that `next` had in the clock before.
pub fn close(nl: &mut Netlist, r: NetId, next: NetId)
    requires register { IsRegister nl.old.cells r.0 (width_of nl.old.cells r.0) }
    requires next { IsNet nl.old.cells next.0 (width_of nl.old.cells r.0) }
    ensures { Connects nl.old nl.new r.0 next.0 }
{
    nl.connect(r, next);
}

/// Adds a register that has, in each clock, the word that `x` had in the clock before.
pub fn delayed(nl: &mut Netlist, x: NetId, width: Width) -> Result<NetId, AllocError>
    requires net { IsNet nl.old.cells x.0 width }
    requires room { HasRoom nl.old 1 }
    ensures adds { OnOk result (Adds nl.old nl.new 1 0) }
    ensures registers { OnOk result (count_of is_register nl.new.cells ≤ count_of is_register nl.old.cells + 1) }
    ensures tests { OnOk result (count_of is_test nl.new.cells ≤ count_of is_test nl.old.cells) }
    ensures net { IfOk result (λ y. IsNet nl.new.cells y.0 width) }
    ensures words { IfOk result (λ y. InEveryRunFrom (length nl.old.cells) nl.new.cells (λ run. IsNextOf run y.0 x.0)) }
{
    let r = register(nl, width)?;
    close(nl, r, x);
    Ok(r)
}
