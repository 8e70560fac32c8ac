// Cells added to the copy.

ghost use Rattle.std.specs.Prelude.{◌≡◌, ◌<◌, ◌≤◌, ◌++◌, ◌∷◌, [], IfOk, OnOk, length};
ghost use Rattle.ae_netlist.specs.Circuit.{IsNet, IsWritten};
ghost use Rattle.ae_tidy.specs.Copies.{HasDepth, MayFollow};
ghost use Rattle.ae_tidy.specs.Images.{fresh_cell};

use ae_netlist::{Cell, NetId, Netlist, SizedCell};
use ae_word::Width;
use std::alloc::AllocError;

/// Adds a memory as deep as this one, or a register in any other's place, that is connected later; there is room for it.
pub fn add_late(nl: &mut Netlist, width: u32, cell: Cell) -> Result<NetId, AllocError>
    requires low { 1 ≤ width }
    requires high { width ≤ 64 }
    requires depth { HasDepth cell }
    requires room { length nl.old.cells < nl.old.limit }
    ensures net { IfOk result (λ n. n ≡ record { 0 = length nl.old.cells }) }
    ensures added { OnOk result (nl.new ≡ record nl.old { cells = nl.old.cells ++ (record { width = width; cell = fresh_cell (length nl.old.cells) cell }) ∷ [] }) }
{
    match cell {
        Cell::Mem { depth, .. } => nl.push_memory(Width { bits: width }, depth),
        Cell::Input(_) | Cell::Const(_) | Cell::Op(_, _) | Cell::Peek { .. } | Cell::Reg { .. } =>
            nl.push_register(Width { bits: width }),
    }
}

/// Adds a register, for which there is room, that is connected at once.
fn add_register(nl: &mut Netlist, width: u32, next: NetId) -> Result<NetId, AllocError>
    requires low { 1 ≤ width }
    requires high { width ≤ 64 }
    requires next { IsNet nl.old.cells next.0 width }
    requires room { length nl.old.cells < nl.old.limit }
    ensures net { IfOk result (λ n. n ≡ record { 0 = length nl.old.cells }) }
    ensures added { OnOk result (nl.new ≡ record nl.old { cells = nl.old.cells ++ (record { width = width; cell = Cell.Reg next }) ∷ [] }) }
{
    let net = add_late(nl, width, Cell::Reg { next })?;
    nl.connect(net, next);
    Ok(net)
}

/// Adds a memory, for which there is room, that is connected at once.
fn add_memory(
    nl: &mut Netlist,
    width: u32,
    depth: u32,
    at: NetId,
    next: NetId,
    enable: NetId,
) -> Result<NetId, AllocError>
    requires low { 1 ≤ width }
    requires high { width ≤ 64 }
    requires some { 1 ≤ depth }
    requires most { depth ≤ 65536 }
    requires written { IsWritten nl.old.cells width depth at.0 next.0 enable.0 }
    requires room { length nl.old.cells < nl.old.limit }
    ensures net { IfOk result (λ n. n ≡ record { 0 = length nl.old.cells }) }
    ensures added { OnOk result (nl.new ≡ record nl.old { cells = nl.old.cells ++ (record { width = width; cell = Cell.Mem depth at next enable }) ∷ [] }) }
{
    let memory = Cell::Mem {
        depth,
        at,
        next,
        enable,
    };
    let net = add_late(nl, width, memory)?;
    nl.connect_memory(net, at, next, enable);
    Ok(net)
}

/// Adds a cell, for which there is room, on nets that are there.
pub fn append(nl: &mut Netlist, sized: SizedCell) -> Result<NetId, AllocError>
    requires low { 1 ≤ sized.width }
    requires high { sized.width ≤ 64 }
    requires follows { MayFollow nl.old.cells sized.width sized.cell }
    requires room { length nl.old.cells < nl.old.limit }
    ensures net { IfOk result (λ n. n ≡ record { 0 = length nl.old.cells }) }
    ensures added { OnOk result (nl.new ≡ record nl.old { cells = nl.old.cells ++ sized ∷ [] }) }
{
    match sized.cell {
        Cell::Reg { next } => add_register(nl, sized.width, next),
        Cell::Mem {
            depth,
            at,
            next,
            enable,
        } => add_memory(nl, sized.width, depth, at, next, enable),
        Cell::Input(_) | Cell::Const(_) | Cell::Op(_, _) | Cell::Peek { .. } => nl.push(
            Width { bits: sized.width },
            sized.cell,
        ),
    }
}
