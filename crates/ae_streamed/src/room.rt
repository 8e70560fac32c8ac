// The same netlist with room for more cells: what `tidy` makes has none.

ghost use Rattle.std.specs.Prelude.{◌≡◌, ◌+◌, ◌<◌, ◌≤◌, ◌↔◌, [], IsTrue, OnOk, IfOk, Some, length, slice_get};
ghost use Rattle.ae_netlist.specs.Circuit.{NamesItself};
ghost use Rattle.ae_netlist.specs.Room.{HasRoom};
ghost use Rattle.ae_streamed.specs.Room.{IsBegun, IsMade};

use ae_netlist::{Cell, NetId, Netlist, Outlet, SizedCell};
use ae_word::Width;
use std::alloc::{AllocError, Global};

fn cell_at(nl: &Netlist, n: u32) -> SizedCell
    requires { n < length nl.now.cells }
    ensures { slice_get nl.now.cells n ≡ Some result }
{
    nl.cells()[n as usize].sized()
}

fn outlet_at(nl: &Netlist, k: u32) -> Outlet
    requires { k < length nl.now.outlets }
    ensures { slice_get nl.now.outlets k ≡ Some result }
{
    nl.outlets()[k as usize]
}

/// Adds cell `n`; a register or a memory names itself.
fn begin_cell(nl: &Netlist, n: u32, new: &mut Netlist) -> Result<(), AllocError>
    requires below { n < length nl.now.cells }
    requires begun { IsBegun nl.now.cells new.old.cells n }
    requires room { HasRoom new.old 1 }
    ensures begun { OnOk result (IsBegun nl.now.cells new.new.cells (n + 1)) }
    ensures limit { OnOk result (new.new.limit ≡ new.old.limit) }
    ensures outlets { OnOk result (new.new.outlets ≡ new.old.outlets) }
{
    nl.formed();
    let sized = cell_at(nl, n);
    match sized.cell {
        Cell::Reg { next: _ } => {
            new.push_register(Width { bits: sized.width })?;
        }
        Cell::Mem { depth, .. } => {
            new.push_memory(Width { bits: sized.width }, depth)?;
        }
        Cell::Input(_) | Cell::Const(_) | Cell::Op(_, _) | Cell::Peek { .. } => {
            new.push(Width { bits: sized.width }, sized.cell)?;
        }
    }
    Ok(())
}

/// Whether a memory is not connected: it names itself.
fn is_idle(own: u32, at: NetId, next: NetId, enable: NetId) -> bool
    ensures { IsTrue result ↔ NamesItself own at.0 next.0 enable.0 }
{
    at.0 == own && next.0 == own && enable.0 == own
}

/// Connects cell `n`, if it is a register or a memory that is connected.
fn connect_cell(nl: &Netlist, n: u32, new: &mut Netlist)
    requires below { n < length nl.now.cells }
    requires made { IsMade nl.now.cells new.old.cells n }
    ensures made { IsMade nl.now.cells new.new.cells (n + 1) }
    ensures limit { new.new.limit ≡ new.old.limit }
    ensures outlets { new.new.outlets ≡ new.old.outlets }
{
    nl.formed();
    let sized = cell_at(nl, n);
    match sized.cell {
        Cell::Reg { next } => new.connect(NetId(n), next),
        Cell::Mem {
            depth: _,
            at,
            next,
            enable,
        } => {
            if is_idle(n, at, next, enable) {
                return;
            }
            new.connect_memory(NetId(n), at, next, enable)
        }
        Cell::Input(_) | Cell::Const(_) | Cell::Op(_, _) | Cell::Peek { .. } => {}
    }
}

/// Adds all cells.
fn begin(nl: &Netlist, new: &mut Netlist) -> Result<(), AllocError>
    requires none { new.old.cells ≡ [] }
    requires room { length nl.now.cells ≤ new.old.limit }
    ensures begun { OnOk result (IsBegun nl.now.cells new.new.cells (length nl.now.cells)) }
    ensures limit { OnOk result (new.new.limit ≡ new.old.limit) }
    ensures outlets { OnOk result (new.new.outlets ≡ new.old.outlets) }
{
    for n in 0..nl.len() {
        begin_cell(nl, n, new)?;
    }
    Ok(())
}

/// Connects all registers and memories.
fn connect(nl: &Netlist, new: &mut Netlist)
    requires begun { IsBegun nl.now.cells new.old.cells (length nl.now.cells) }
    ensures cells { new.new.cells ≡ nl.now.cells }
    ensures limit { new.new.limit ≡ new.old.limit }
    ensures outlets { new.new.outlets ≡ new.old.outlets }
{
    for n in 0..nl.len() {
        connect_cell(nl, n, new);
    }
}

/// Adds all outputs.
fn show(nl: &Netlist, new: &mut Netlist) -> Result<(), AllocError>
    requires cells { new.old.cells ≡ nl.now.cells }
    requires none { new.old.outlets ≡ [] }
    ensures cells { OnOk result (new.new.cells ≡ nl.now.cells) }
    ensures limit { OnOk result (new.new.limit ≡ new.old.limit) }
    ensures outlets { OnOk result (new.new.outlets ≡ nl.now.outlets) }
{
    nl.formed();
    for k in 0..nl.outputs() {
        let outlet = outlet_at(nl, k);
        new.add_output(outlet.port, outlet.net)?;
    }
    Ok(())
}

/// The same netlist with another limit, which it does not pass.
pub fn with_limit(alloc: Global, nl: &Netlist, limit: u32) -> Result<Netlist, AllocError>
    requires { length nl.now.cells ≤ limit }
    ensures { IfOk result (λ new. new ≡ record nl.now { limit = limit }) }
{
    let mut new = Netlist::new(alloc, limit);
    begin(nl, &mut new)?;
    connect(nl, &mut new);
    show(nl, &mut new)?;
    Ok(new)
}
