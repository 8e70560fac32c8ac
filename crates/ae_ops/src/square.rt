// The square of a word.

ghost use Rattle.std.specs.Prelude.{◌∷◌, [], IfOk, OnOk};
ghost use Rattle.ae_netlist.specs.Circuit.{IsNet};
ghost use Rattle.ae_netlist.specs.Runs.{InEveryRun};
ghost use Rattle.ae_netlist.specs.Room.{HasRoom};
ghost use Rattle.ae_gates.specs.Cells.{Adds};
ghost use Rattle.ae_ops.specs.Words.{IsResultLater};

use crate::compute::compute;
use ae_clocked::delayed;
use ae_netlist::{NetId, Netlist};
use ae_word::{Width, WordOp};
use std::alloc::AllocError;

/// Adds the square of a word, one clock later. The register stands before the product, where it takes one word's bits
/// and serves whatever else takes that word a clock later.
pub fn square(nl: &mut Netlist, x: NetId, width: Width) -> Result<NetId, AllocError>
    requires net { IsNet nl.old.cells x.0 width }
    requires room { HasRoom nl.old 9 }
    ensures adds { OnOk result (Adds nl.old nl.new 9 1) }
    ensures net { IfOk result (λ y. IsNet nl.new.cells y.0 width) }
    ensures words { IfOk result (λ y. InEveryRun nl.new.cells (λ run. IsResultLater run y.0 1 WordOp.Mul width (x ∷ x ∷ x ∷ []))) }
{
    let held = delayed(nl, x, width)?;
    let y = compute(nl, WordOp::Mul, [held, held, held], width)?;
    Ok(y)
}
