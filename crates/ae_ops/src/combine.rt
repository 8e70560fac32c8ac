// Two words of one clock, combined as in a fold.

ghost use Rattle.std.specs.Prelude.{◌∷◌, [], length, if◌then◌else◌, IfOk, OnOk};
ghost use Rattle.ae_netlist.specs.Circuit.{IsNet};
ghost use Rattle.ae_netlist.specs.Counts.{is_product};
ghost use Rattle.ae_netlist.specs.Runs.{InEveryRunFrom};
ghost use Rattle.ae_netlist.specs.Room.{HasRoom};
ghost use Rattle.ae_gates.specs.Cells.{Adds, IsResult};
ghost use Rattle.ae_ops.specs.Folds.{IsFold};

use crate::compute::compute;
use ae_netlist::{NetId, Netlist};
use ae_word::{Width, WordOp};
use std::alloc::AllocError;

/// Adds the word of an operator that folds on two words of one clock, of so many bits. It takes at most 8 cells.
pub fn combined(
    nl: &mut Netlist,
    op: WordOp,
    a: NetId,
    b: NetId,
    width: Width,
) -> Result<NetId, AllocError>
    requires folds { IsFold op }
    requires left { IsNet nl.old.cells a.0 width }
    requires right { IsNet nl.old.cells b.0 width }
    requires room { HasRoom nl.old 8 }
    ensures adds { OnOk result (Adds nl.old nl.new 8 (if is_product op then 1 else 0)) }
    ensures net { IfOk result (λ y. IsNet nl.new.cells y.0 width) }
    ensures words { IfOk result (λ y. InEveryRunFrom (length nl.old.cells) nl.new.cells (λ run. IsResult run y.0 op width (a ∷ b ∷ a ∷ []))) }
{
    let y = compute(nl, op, [a, b, a], width)?;
    Ok(y)
}
