// The nets of inputs, registers and memories.

ghost use Rattle.std.specs.Prelude.{ℕ, ◌≡◌, ◌≤◌, [], length, IfOk, OnOk, Some};
ghost use Rattle.ae_vmodule.specs.declared.module.NetKind.TheVariants.{Memory};
ghost use Rattle.ae_vmodule.specs.View.{module_tree};
ghost use Rattle.ae_netlist.specs.Circuit.{new_memory, new_register};
ghost use Rattle.ae_netlist.specs.Counts.{count_of, is_input};
ghost use Rattle.ae_judge.specs.Table.{table_of};
ghost use Rattle.ae_judge.specs.Regular.{IsRegular};
ghost use Rattle.ae_judge.specs.Shape.{IsShapely};
ghost use Rattle.ae_netlist.specs.Room.{HasRoom};
ghost use Rattle.ae_elab.specs.Declaring.{AddsCell, AreDeclared, given_cell};

use ae_express::MaybeNet;
use ae_judge::{Names, clock_of, is_named};
use ae_netlist::{Cell, NetId, Netlist, Port};
use ae_vmodule::{NetKind, PackedNet, VModule};
use ae_word::Width;
use std::alloc::{AllocError, Global};

/// Adds a register, for which there is room.
fn push_register(nl: &mut Netlist, width: u32) -> Result<NetId, AllocError>
    requires low { 1 ≤ width }
    requires high { width ≤ 64 }
    requires room { HasRoom nl.old 1 }
    ensures { IfOk result (λ net. AddsCell (Some (new_register (length nl.old.cells) width)) nl.old nl.new (Some net)) }
{
    nl.push_register(Width { bits: width })
}

/// Adds a memory, for which there is room.
fn push_memory(nl: &mut Netlist, width: u32, depth: u32) -> Result<NetId, AllocError>
    requires low { 1 ≤ width }
    requires high { width ≤ 64 }
    requires some { 1 ≤ depth }
    requires most { depth ≤ 65536 }
    requires room { HasRoom nl.old 1 }
    ensures { IfOk result (λ net. AddsCell (Some (new_memory (length nl.old.cells) width depth)) nl.old nl.new (Some net)) }
{
    nl.push_memory(Width { bits: width }, depth)
}

/// The net of a name, if it has one before any equation is looked at. Inputs are plain ports, numbered as they come.
fn declare(nl: &mut Netlist, net: &PackedNet, is_clock: bool) -> Result<MaybeNet, AllocError>
    requires low { 1 ≤ net.now.width }
    requires high { net.now.width ≤ 64 }
    requires deep { (depth : ℕ) → net.now.kind ≡ Memory depth → (1 ≤ depth) × (depth ≤ 65536) }
    requires room { HasRoom nl.old 1 }
    ensures { IfOk result (λ found. AddsCell (given_cell net.now.kind is_clock (length nl.old.cells) (count_of is_input nl.old.cells) net.now.width) nl.old nl.new found) }
{
    match net.kind() {
        NetKind::Wire | NetKind::OutWire => Ok(MaybeNet::none()),
        NetKind::Input => {
            if is_clock {
                return Ok(MaybeNet::none());
            }
            let port = nl.inputs();
            let input = nl.push(Width { bits: net.width() }, Cell::Input(Port::Plain(port)))?;
            Ok(MaybeNet::of(nl, input))
        }
        NetKind::Reg | NetKind::OutReg => {
            let register = push_register(nl, net.width())?;
            Ok(MaybeNet::of(nl, register))
        }
        NetKind::Memory(depth) => {
            let memory = push_memory(nl, net.width(), depth)?;
            Ok(MaybeNet::of(nl, memory))
        }
    }
}

/// The nets of the inputs but the clock, of the registers and of the memories, by the places of the names. No other name
/// has one yet.
pub fn declare_nets(
    alloc: Global,
    nl: &mut Netlist,
    names: &Names<'_>,
    m: &VModule<'_>,
) -> Result<Vec<MaybeNet>, AllocError>
    requires names { names.now ≡ table_of m.now.words m.now.nets.items }
    requires shape { IsShapely (module_tree m.now) }
    requires regular { IsRegular (module_tree m.now) }
    requires empty { nl.old.cells ≡ [] }
    requires room { length (module_tree m.now).nets ≤ nl.old.limit }
    ensures declared { IfOk result (λ nets. AreDeclared (module_tree m.now) (module_tree m.now).nets nets.items nl.new.cells) }
    ensures limit { OnOk result (nl.new.limit ≡ nl.old.limit) }
    ensures outlets { OnOk result (nl.new.outlets ≡ nl.old.outlets) }
{
    let clock = clock_of(names, &m.items);
    let count = m.nets.len();
    nl.reserve(count)?;
    let mut nets = Vec::with_capacity(alloc, count)?;
    for net in &m.nets {
        let is_clock = is_named(names, net.name(), clock);
        let found = declare(nl, net, is_clock)?;
        nets.push(found)?;
    }
    Ok(nets)
}
