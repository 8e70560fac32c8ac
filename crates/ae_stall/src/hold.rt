// Registers and memories that take what a gate makes.

ghost use Rattle.std.specs.Prelude.{◌≡◌, ℕ, ◌<◌, ◌≤◌, ◌+◌, ◌≢◌, OnOk, List, Some, length, slice_get};
ghost use Rattle.ae_netlist.specs.declared.cell.SizedCell.{SizedCell};
ghost use Rattle.ae_netlist.specs.Counts.{AreWhole};
ghost use Rattle.ae_stall.specs.Copies.{HasLogicAround, IsPartlyHeld, MayBeHeld, reset_cell};
ghost use Rattle.ae_stall.specs.Held.{IsHeld};
ghost use Rattle.ae_stall.specs.Images.{placed};

use crate::copy::push;
use crate::look::{cell_at, placed};
use ae_netlist::{Cell, NetId, Netlist, SizedCell};
use ae_word::WordOp;
use std::alloc::AllocError;

/// How the copy of a netlist is held: so many more inputs stand behind its first cell, and where this net is 0 it stands
/// still.
#[derive(Clone, Copy)]
pub struct HoldBy {
    pub more: u32,
    pub by: NetId,
}

/// Holds register `n`.
fn hold_register(
    nl: &Netlist,
    how: HoldBy,
    n: u32,
    width: u32,
    next: NetId,
    new: &mut Netlist,
) -> Result<(), AllocError>
    requires found { slice_get nl.now.cells n ≡ Some (record { width = width; cell = Cell.Reg next }) }
    requires most { length nl.now.cells ≤ 1000000 }
    requires few { how.more ≤ 1000000 }
    requires held { (copied : List SizedCell) × IsPartlyHeld how.more how.by.0 nl.now.cells copied new.old.cells n }
    requires room { length new.old.cells < new.old.limit }
    ensures held { OnOk result ((copied : List SizedCell) → IsPartlyHeld how.more how.by.0 nl.now.cells copied new.old.cells n → IsPartlyHeld how.more how.by.0 nl.now.cells copied new.new.cells (n + 1)) }
    ensures outlets { OnOk result (new.new.outlets ≡ new.old.outlets) }
    ensures limit { OnOk result (new.new.limit ≡ new.old.limit) }
{
    nl.formed();
    new.formed();
    let own = placed(how.more, NetId(n));
    let next = placed(how.more, next);
    let gate = NetId(new.len());
    push(new, width, Cell::Op(WordOp::Mux, [how.by, next, own]))?;
    new.connect(own, gate);
    Ok(())
}

/// Holds memory `n`, which is connected.
fn hold_memory(
    nl: &Netlist,
    how: HoldBy,
    n: u32,
    at: NetId,
    next: NetId,
    enable: NetId,
    new: &mut Netlist,
) -> Result<(), AllocError>
    requires found { (width depth : ℕ) × (slice_get nl.now.cells n ≡ Some (record { width = width; cell = Cell.Mem depth at next enable })) }
    requires connected { enable.0 ≢ n }
    requires most { length nl.now.cells ≤ 1000000 }
    requires few { how.more ≤ 1000000 }
    requires held { (copied : List SizedCell) × IsPartlyHeld how.more how.by.0 nl.now.cells copied new.old.cells n }
    requires room { length new.old.cells < new.old.limit }
    ensures held { OnOk result ((copied : List SizedCell) → IsPartlyHeld how.more how.by.0 nl.now.cells copied new.old.cells n → IsPartlyHeld how.more how.by.0 nl.now.cells copied new.new.cells (n + 1)) }
    ensures outlets { OnOk result (new.new.outlets ≡ new.old.outlets) }
    ensures limit { OnOk result (new.new.limit ≡ new.old.limit) }
{
    nl.formed();
    new.formed();
    let own = placed(how.more, NetId(n));
    let at = placed(how.more, at);
    let next = placed(how.more, next);
    let enable = placed(how.more, enable);
    let gate = NetId(new.len());
    push(new, 1, Cell::Op(WordOp::And, [how.by, enable, how.by]))?;
    new.connect_memory(own, at, next, gate);
    Ok(())
}

/// Holds cell `n`, if it is a register or a memory that is connected.
fn hold_cell(nl: &Netlist, how: HoldBy, n: u32, new: &mut Netlist) -> Result<(), AllocError>
    requires below { n < length nl.now.cells }
    requires most { length nl.now.cells ≤ 1000000 }
    requires few { how.more ≤ 1000000 }
    requires held { (copied : List SizedCell) × IsPartlyHeld how.more how.by.0 nl.now.cells copied new.old.cells n }
    requires room { length new.old.cells < new.old.limit }
    ensures held { OnOk result ((copied : List SizedCell) → IsPartlyHeld how.more how.by.0 nl.now.cells copied new.old.cells n → IsPartlyHeld how.more how.by.0 nl.now.cells copied new.new.cells (n + 1)) }
    ensures outlets { OnOk result (new.new.outlets ≡ new.old.outlets) }
    ensures limit { OnOk result (new.new.limit ≡ new.old.limit) }
{
    let sized = cell_at(nl, NetId(n));
    match sized.cell {
        Cell::Reg { next } => hold_register(nl, how, n, sized.width, next, new),
        Cell::Mem {
            depth: _,
            at,
            next,
            enable,
        } => {
            if enable.0 == n {
                return Ok(());
            }
            hold_memory(nl, how, n, at, next, enable, new)
        }
        Cell::Input(_) | Cell::Const(_) | Cell::Op(_, _) | Cell::Peek { .. } => Ok(()),
    }
}

/// Holds all registers and memories of the copy.
pub fn hold_all(nl: &Netlist, how: HoldBy, new: &mut Netlist) -> Result<(), AllocError>
    requires reset { slice_get nl.now.cells 0 ≡ Some reset_cell }
    requires most { length nl.now.cells ≤ 1000000 }
    requires few { how.more ≤ 1000000 }
    requires may { MayBeHeld how.more how.by.0 nl.now.cells new.old.cells }
    requires room { length new.old.cells + length nl.now.cells ≤ new.old.limit + 1 }
    ensures held { OnOk result (IsPartlyHeld how.more how.by.0 nl.now.cells new.old.cells new.new.cells (length nl.now.cells)) }
    ensures outlets { OnOk result (new.new.outlets ≡ new.old.outlets) }
    ensures limit { OnOk result (new.new.limit ≡ new.old.limit) }
{
    for n in 1..nl.len() {
        hold_cell(nl, how, n, new)?;
    }
    Ok(())
}

/// Holds the copy of a netlist: its registers and memories stay as they are in clocks in which the net is 0, and all other
/// cells stay as they are. Memories stay whole. There is room for a gate a register and a memory, and the error comes only
/// for want of memory.
pub fn hold_copy(nl: &Netlist, how: HoldBy, new: &mut Netlist) -> Result<(), AllocError>
    requires reset { slice_get nl.now.cells 0 ≡ Some reset_cell }
    requires most { length nl.now.cells ≤ 1000000 }
    requires few { how.more ≤ 1000000 }
    requires may { MayBeHeld how.more how.by.0 nl.now.cells new.old.cells }
    requires room { length new.old.cells + length nl.now.cells ≤ new.old.limit + 1 }
    ensures held { OnOk result (IsHeld how.more how.by.0 nl.now new.old new.new) }
    ensures whole { OnOk result (HasLogicAround how.more nl.now.cells new.old.cells → AreWhole nl.now.cells → AreWhole new.new.cells) }
{
    nl.formed();
    hold_all(nl, how, new)?;
    Ok(())
}
