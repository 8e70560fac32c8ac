// The queue of two words behind each output of a circuit.

ghost use Rattle.std.specs.Prelude.{◌≡◌, ◌+◌, ◌*◌, ◌<◌, ◌≤◌, OnOk, ℕ, Some, length, slice_get};
ghost use Rattle.ae_netlist.specs.Circuit.{IsNet, width_of};
ghost use Rattle.ae_netlist.specs.Room.{HasRoom};
ghost use Rattle.ae_control.specs.Cells.{IsLonger};
ghost use Rattle.ae_control.specs.Columns.{AreColumns, HasColumn};

use crate::driver::Controlled;
use crate::parts::choices;
use ae_gates::width_at;
use ae_netlist::{NetId, Netlist};
use std::alloc::AllocError;

/// Adds the queue of a net: a register of the word that stands first, behind it one of the word that stands second, and what
/// both take.
fn column(nl: &mut Netlist, c: Controlled, made: NetId) -> Result<(), AllocError>
    requires many { nl.old.limit ≤ 4000000000 }
    requires two { IsNet nl.old.cells c.two.0 1 }
    requires moves { IsNet nl.old.cells c.moves.0 1 }
    requires net { IsNet nl.old.cells made.0 (width_of nl.old.cells made.0) }
    requires room { HasRoom nl.old 4 }
    ensures longer { OnOk result (IsLonger nl.old nl.new) }
    ensures long { OnOk result (length nl.new.cells ≡ length nl.old.cells + 4) }
    ensures column { OnOk result (HasColumn nl.new.cells c made (length nl.old.cells)) }
{
    nl.formed();
    let at = nl.len();
    let width = width_at(nl, made);
    nl.push_register(width)?;
    nl.push_register(width)?;
    choices(
        nl,
        width,
        &[
            [c.two, NetId(at + 1), made],
            [c.moves, NetId(at + 2), NetId(at)],
        ],
    )?;
    nl.connect(NetId(at), NetId(at + 3));
    nl.connect(NetId(at + 1), NetId(at + 2));
    Ok(())
}

/// Adds a queue of two words for each of these nets: every fourth cell, from the first that is added on, shows the word that
/// stands first in the queue of the next net.
pub fn columns(nl: &mut Netlist, c: Controlled, made: &[NetId]) -> Result<(), AllocError>
    requires many { nl.old.limit ≤ 4000000000 }
    requires two { IsNet nl.old.cells c.two.0 1 }
    requires moves { IsNet nl.old.cells c.moves.0 1 }
    requires nets { (k : ℕ) (net : NetId) → slice_get made.now k ≡ Some net → IsNet nl.old.cells net.0 (width_of nl.old.cells net.0) }
    requires room { HasRoom nl.old (4 * length made.now) }
    ensures longer { OnOk result (IsLonger nl.old nl.new) }
    ensures long { OnOk result (length nl.new.cells ≡ length nl.old.cells + 4 * length made.now) }
    ensures columns { OnOk result (AreColumns (length nl.old.cells) nl.new.cells c made.now) }
{
    for k in 0..made.len() {
        column(nl, c, made[k])?;
    }
    Ok(())
}
