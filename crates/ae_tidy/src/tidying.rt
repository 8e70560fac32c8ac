// Netlists made smaller.

ghost use Rattle.std.specs.Prelude.{IfOk, length, ℕ};
ghost use Rattle.ae_tidy.specs.Places.{AreMarks, AreMoved, AreTraced};
ghost use Rattle.ae_tidy.specs.Tidied.{IsTidied};

use crate::copy::copy;
use crate::mark::mark;
use ae_netlist::{NetId, Netlist};
use std::alloc::{AllocError, Global};

/// A tidied netlist, what its cells are made of, and where its parts begin.
#[derive(Drop)]
pub struct Tidied {
    pub netlist: Netlist,
    /// For each cell the one that it is made of.
    pub made: Vec<NetId>,
    /// For each mark that was handed in the number of cells that were made of those before it.
    pub marks: Vec<u32>,
}

/// A netlist that shows what this one shows, with the cells that are reached by reading from an output, an input or a
/// product alone, and equal ones once. Inputs and products stay, all and in order. A register or a memory may begin with any
/// words: so of two that take the same nets, one stands for both. A mark tells how many cells stand before a part of the
/// netlist, and marks rise: each is told anew, as the number of the cells that were made of cells before it. The error comes
/// only for want of memory.
pub fn tidy(alloc: Global, nl: Netlist, marks: Vec<u32>) -> Result<Tidied, AllocError>
    ensures tidied { IfOk result (λ t. IsTidied nl t.netlist) }
    ensures made { IfOk result (λ t. AreTraced nl.cells t.netlist.cells t.made.items) }
    ensures moved { IfOk result (λ t. (count : ℕ) → AreMarks (length nl.cells) count marks.items → AreMoved nl.cells t.netlist.cells marks.items t.marks.items) }
    ensures marks { IfOk result (λ t. (count : ℕ) → AreMarks (length nl.cells) count marks.items → AreMarks (length t.netlist.cells) count t.marks.items) }
{
    let keep = mark(alloc, &nl)?;
    copy(alloc, &nl, &keep, &marks)
}
