// Which nets are kept: a walk over what is read, in breadth, from the outputs, the inputs and the products on.

ghost use Rattle.std.specs.Prelude.{◌≡◌, ◌<◌, ◌+◌, ℕ, IfOk, OnOk, length, true};
ghost use Rattle.ae_tidy.specs.Marks.{AreFollowed, AreMarked, AreOutputs, AreRooted, AreRoots, EachRead, Grows, IsKept, is_root};
ghost use Rattle.ae_tidy.specs.Needed.{AreNeeded, IsNeeded, KeepsOnly, Reads};

use crate::look::{cell_at, is_kept, net_at, outlet_at};
use ae_netlist::{Cell, NetId, Netlist};
use ae_word::multiplies;
use std::alloc::{AllocError, Global};

/// Keeps a net; one that was not kept yet joins the line of those whose reads are still to be kept.
fn reach(keep: &mut Vec<bool>, line: &mut Vec<NetId>, net: NetId) -> Result<(), AllocError>
    requires { net.0 < length keep.old.items }
    ensures grows { OnOk result (Grows keep.old.items line.old.items keep.new.items line.new.items) }
    ensures only { OnOk result (KeepsOnly (λ n. n ≡ net.0) keep.old.items line.old.items keep.new.items line.new.items) }
    ensures kept { OnOk result (IsKept keep.new.items net.0) }
{
    if is_kept(keep, net) {
        return Ok(());
    }
    line.push(net)?;
    keep[net.0 as usize] = true;
    Ok(())
}

/// Keeps what a cell reads.
fn reach_reads(keep: &mut Vec<bool>, line: &mut Vec<NetId>, cell: Cell) -> Result<(), AllocError>
    requires { EachRead (λ n. n < length keep.old.items) cell }
    ensures grows { OnOk result (Grows keep.old.items line.old.items keep.new.items line.new.items) }
    ensures only { OnOk result (KeepsOnly (Reads cell) keep.old.items line.old.items keep.new.items line.new.items) }
    ensures kept { OnOk result (EachRead (IsKept keep.new.items) cell) }
{
    match cell {
        Cell::Op(_, args) => {
            reach(keep, line, args[0])?;
            reach(keep, line, args[1])?;
            reach(keep, line, args[2])?;
        }
        Cell::Reg { next } => reach(keep, line, next)?,
        Cell::Mem {
            depth: _,
            at,
            next,
            enable,
        } => {
            reach(keep, line, at)?;
            reach(keep, line, next)?;
            reach(keep, line, enable)?;
        }
        Cell::Peek { mem, at } => {
            reach(keep, line, mem)?;
            reach(keep, line, at)?;
        }
        Cell::Input(_) | Cell::Const(_) => {}
    }
    Ok(())
}

fn is_root(cell: Cell) -> bool
    ensures { result ≡ is_root cell }
{
    match cell {
        Cell::Input(_) => true,
        Cell::Op(op, _) => multiplies(op),
        Cell::Const(_) | Cell::Reg { .. } | Cell::Mem { .. } | Cell::Peek { .. } => false,
    }
}

/// Keeps the net of a cell that is kept even where nothing reads it.
fn reach_root(
    keep: &mut Vec<bool>,
    line: &mut Vec<NetId>,
    net: NetId,
    cell: Cell,
) -> Result<(), AllocError>
    requires { net.0 < length keep.old.items }
    ensures grows { OnOk result (Grows keep.old.items line.old.items keep.new.items line.new.items) }
    ensures only { OnOk result (KeepsOnly (λ n. (n ≡ net.0) × (is_root cell ≡ true)) keep.old.items line.old.items keep.new.items line.new.items) }
    ensures kept { OnOk result (is_root cell ≡ true → IsKept keep.new.items net.0) }
{
    if is_root(cell) {
        reach(keep, line, net)?;
    }
    Ok(())
}

/// Keeps the inputs and the products.
fn reach_roots(nl: &Netlist, keep: &mut Vec<bool>, line: &mut Vec<NetId>) -> Result<(), AllocError>
    requires { length keep.old.items ≡ length nl.now.cells }
    ensures grows { OnOk result (Grows keep.old.items line.old.items keep.new.items line.new.items) }
    ensures only { OnOk result (KeepsOnly (IsNeeded nl.now) keep.old.items line.old.items keep.new.items line.new.items) }
    ensures roots { OnOk result (AreRoots nl.now.cells keep.new.items (length nl.now.cells)) }
{
    for n in 0..nl.len() {
        let sized = cell_at(nl, NetId(n));
        reach_root(keep, line, NetId(n), sized.cell)?;
    }
    Ok(())
}

/// Keeps what outputs show.
fn reach_outputs(
    nl: &Netlist,
    keep: &mut Vec<bool>,
    line: &mut Vec<NetId>,
) -> Result<(), AllocError>
    requires { length keep.old.items ≡ length nl.now.cells }
    ensures grows { OnOk result (Grows keep.old.items line.old.items keep.new.items line.new.items) }
    ensures only { OnOk result (KeepsOnly (IsNeeded nl.now) keep.old.items line.old.items keep.new.items line.new.items) }
    ensures outputs { OnOk result (AreOutputs nl.now.outlets keep.new.items (length nl.now.outlets)) }
{
    nl.formed();
    for k in 0..nl.outputs() {
        let outlet = outlet_at(nl, k);
        reach(keep, line, outlet.net)?;
    }
    Ok(())
}

/// Keeps what net number `k` of the line reads.
fn follow_one(
    nl: &Netlist,
    keep: &mut Vec<bool>,
    line: &mut Vec<NetId>,
    k: usize,
) -> Result<(), AllocError>
    requires within { k < length line.old.items }
    requires rooted { AreRooted nl.now keep.old.items }
    requires followed { AreFollowed nl.now.cells keep.old.items line.old.items k }
    requires needed { AreNeeded nl.now keep.old.items line.old.items }
    ensures grows { OnOk result (Grows keep.old.items line.old.items keep.new.items line.new.items) }
    ensures followed { OnOk result (AreFollowed nl.now.cells keep.new.items line.new.items (k + 1)) }
    ensures needed { OnOk result (AreNeeded nl.now keep.new.items line.new.items) }
{
    nl.formed();
    let net = net_at(line, k);
    match nl.sized(net) {
        Some(sized) => reach_reads(keep, line, sized.cell)?,
        None => return Ok(()),
    }
    Ok(())
}

/// Keeps what the nets of the line read, and what those read, until nothing is left.
fn follow(nl: &Netlist, keep: &mut Vec<bool>, line: &mut Vec<NetId>) -> Result<(), AllocError>
    requires rooted { AreRooted nl.now keep.old.items }
    requires followed { AreFollowed nl.now.cells keep.old.items line.old.items 0 }
    requires needed { AreNeeded nl.now keep.old.items line.old.items }
    ensures marked { OnOk result (AreMarked nl.now keep.new.items) }
    ensures needed { OnOk result ((n : ℕ) → IsKept keep.new.items n → IsNeeded nl.now n) }
{
    let mut k = 0;
    while k < line.len() {
        follow_one(nl, keep, line, k)?;
        k += 1;
    }
    Ok(())
}

/// For each net whether it is kept: the inputs, the products and what outputs show are, and all that a kept net reads, and
/// no other.
pub fn mark(alloc: Global, nl: &Netlist) -> Result<Vec<bool>, AllocError>
    ensures marked { IfOk result (λ keep. AreMarked nl.now keep.items) }
    ensures needed { IfOk result (λ keep. (n : ℕ) → IsKept keep.items n → IsNeeded nl.now n) }
{
    let mut keep = vec![in alloc; false; nl.len() as usize]?;
    let mut line = Vec::new(alloc);
    reach_roots(nl, &mut keep, &mut line)?;
    reach_outputs(nl, &mut keep, &mut line)?;
    follow(nl, &mut keep, &mut line)?;
    Ok(keep)
}
