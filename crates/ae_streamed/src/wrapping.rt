// A marked circuit between two channels: a copy of it, the control and the queues around it, and the outputs.

ghost use Rattle.std.specs.Prelude.{◌≡◌, ◌+◌, ◌*◌, ◌<◌, ◌≤◌, ◌++◌, ◌∷◌, [], OnOk, IfErr, IfOk, ℕ, Some, length, slice_get};
ghost use Rattle.ae_netlist.specs.Circuit.{IsNet, width_of};
ghost use Rattle.ae_netlist.specs.Counts.{AreWhole};
ghost use Rattle.ae_netlist.specs.Room.{HasRoom};
ghost use Rattle.ae_stall.specs.Copies.{HasLogicAround, IsCopied, MayBeHeld, reset_cell};
ghost use Rattle.ae_stall.specs.Held.{IsHeld};
ghost use Rattle.ae_stall.specs.Images.{placed_net};
ghost use Rattle.ae_streamed.specs.Between.{AreMarkNets, AreShownBy, HasDriver, IsWrapped, channel_inputs, copied_nets, wires_of};
ghost use Rattle.ae_control.specs.Controls.{AreWires};
ghost use Rattle.ae_control.specs.Count.{control_cells};
ghost use Rattle.ae_streamed.specs.Count.{wrapped_cells};

use crate::marking::Marks;
use ae_control::{Controlled, Wires, columns, control};
use ae_netlist::{Handshake, NetFault, NetId, Netlist, Outlet, Port};
use ae_stall::{HoldBy, copy_with, hold_copy};
use std::alloc::{AllocError, Global};

/// The most cells of a circuit between two channels.
const LIMIT: u32 = 4000000;

/// Where the copy has a net.
fn placed(nl: &Netlist, net: NetId) -> NetId
    requires there { net.0 < length nl.now.cells }
    requires most { length nl.now.cells ≤ 1000000 }
    ensures { result ≡ placed_net 2 net }
{
    if net.0 == 0 {
        return net;
    }
    NetId(net.0 + 2)
}

/// What the control reads.
fn placed_wires(nl: &Netlist, m: Marks) -> Wires
    requires most { length nl.now.cells ≤ 1000000 }
    requires marks { AreMarkNets nl.now.cells m }
    ensures { result ≡ wires_of m }
{
    let first = placed(nl, m.first);
    let last = placed(nl, m.last);
    let wants = placed(nl, m.wants);
    let late = placed(nl, m.late);
    let behind = placed(nl, m.behind);
    Wires {
        reset: NetId(0),
        valid: NetId(1),
        ready: NetId(2),
        first,
        last,
        wants,
        late,
        behind,
    }
}

/// The copy of a netlist, with two more inputs.
fn copied(alloc: Global, nl: &Netlist) -> Result<Netlist, AllocError>
    requires reset { slice_get nl.now.cells 0 ≡ Some reset_cell }
    requires most { length nl.now.cells ≤ 1000000 }
    ensures limit { IfOk result (λ new. new.limit ≡ 4000000) }
    ensures copied { IfOk result (λ new. IsCopied channel_inputs nl.now.cells new.cells (length nl.now.cells)) }
    ensures none { IfOk result (λ new. new.outlets ≡ []) }
{
    let ports = [
        Port::Stream(Handshake::SourceValid),
        Port::Stream(Handshake::SinkReady),
    ];
    let new = copy_with(alloc, nl, &ports, LIMIT)?;
    Ok(new)
}

fn outlet_at(nl: &Netlist, k: u32) -> Outlet
    requires { k < length nl.now.outlets }
    ensures { slice_get nl.now.outlets k ≡ Some result }
{
    nl.outlets()[k as usize]
}

/// Where the copy has the nets of the outputs.
fn outlet_nets(alloc: Global, nl: &Netlist) -> Result<Vec<NetId>, AllocError>
    requires most { length nl.now.cells ≤ 1000000 }
    ensures { IfOk result (λ nets. nets.items ≡ copied_nets nl.now.outlets) }
{
    nl.formed();
    let mut nets = Vec::new(alloc);
    for k in 0..nl.outputs() {
        let outlet = outlet_at(nl, k);
        let net = placed(nl, outlet.net);
        nets.push(net)?;
    }
    Ok(nets)
}

/// Adds an output.
fn show(new: &mut Netlist, port: Port, net: NetId) -> Result<(), AllocError>
    requires net { IsNet new.old.cells net.0 (width_of new.old.cells net.0) }
    requires room { length new.old.outlets < 4294967295 }
    ensures { OnOk result (new.new ≡ record new.old { outlets = new.old.outlets ++ (record { port = port; net = net }) ∷ [] }) }
{
    new.add_output(port, net)?;
    Ok(())
}

/// Adds the outputs: that the source is asked, that words stand at the sink, and the words of a queue for each output of the
/// netlist.
fn show_all(nl: &Netlist, new: &mut Netlist, c: Controlled, at: u32) -> Result<(), AllocError>
    requires none { new.old.outlets ≡ [] }
    requires asks { IsNet new.old.cells c.asks.0 1 }
    requires one { IsNet new.old.cells c.one.0 1 }
    requires nets { (k : ℕ) → k < length nl.now.outlets → IsNet new.old.cells (at + 4 * k) (width_of new.old.cells (at + 4 * k)) }
    requires few { length nl.now.outlets ≤ 1000000000 }
    ensures cells { OnOk result (new.new.cells ≡ new.old.cells) }
    ensures limit { OnOk result (new.new.limit ≡ new.old.limit) }
    ensures shown { OnOk result (AreShownBy c at nl.now.outlets new.new.outlets) }
{
    new.formed();
    show(new, Port::Stream(Handshake::SourceReady), c.asks)?;
    show(new, Port::Stream(Handshake::SinkValid), c.one)?;
    for k in 0..nl.outputs() {
        let outlet = outlet_at(nl, k);
        show(new, outlet.port, NetId(at + 4 * k))?;
    }
    Ok(())
}

/// Adds the control of a copied circuit, a queue for each of these nets, and the outputs.
fn drive(
    nl: &Netlist,
    new: &mut Netlist,
    w: Wires,
    blocks: u32,
    wait: u32,
    made: &[NetId],
) -> Result<Controlled, AllocError>
    requires marks { (m : Marks) × (w ≡ wires_of m) }
    requires few { blocks ≤ 1000000 }
    requires waits { wait ≤ blocks + 1 }
    requires limit { new.old.limit ≡ 4000000 }
    requires none { new.old.outlets ≡ [] }
    requires wires { AreWires new.old.cells w }
    requires nets { (k : ℕ) (net : NetId) → slice_get made.now k ≡ Some net → IsNet new.old.cells net.0 (width_of new.old.cells net.0) }
    requires columns { length nl.now.outlets ≤ 1000000000 }
    requires shown { length made.now ≡ length nl.now.outlets }
    requires room { HasRoom new.old (control_cells blocks + 4 * length nl.now.outlets) }
    ensures driver { IfOk result (λ c. (m : Marks) → w ≡ wires_of m → HasDriver new.old new.new m blocks wait made.now nl.now.outlets c) }
    ensures few { OnOk result (length new.new.cells ≤ length new.old.cells + control_cells blocks + 4 * length nl.now.outlets) }
{
    let c = control(new, w, blocks, wait)?;
    let at = new.len();
    columns(new, c, made)?;
    show_all(nl, new, c, at)?;
    Ok(c)
}

/// Holds the copy of a netlist. Memories stay whole where there are none beside the copy.
fn hold(nl: &Netlist, by: NetId, new: &mut Netlist) -> Result<(), AllocError>
    requires reset { slice_get nl.now.cells 0 ≡ Some reset_cell }
    requires most { length nl.now.cells ≤ 1000000 }
    requires may { MayBeHeld 2 by.0 nl.now.cells new.old.cells }
    requires room { length new.old.cells + length nl.now.cells ≤ new.old.limit + 1 }
    ensures held { OnOk result (IsHeld 2 by.0 nl.now new.old new.new) }
    ensures whole { OnOk result (HasLogicAround 2 nl.now.cells new.old.cells → AreWhole nl.now.cells → AreWhole new.new.cells) }
{
    hold_copy(nl, HoldBy { more: 2, by }, new)?;
    Ok(())
}

/// How many cells a circuit of so many cells and outputs, whose latency is so many blocks and some clocks, has at most between
/// two channels.
fn most_cells(cells: u32, outputs: u32, blocks: u32) -> u64
    ensures { result ≡ wrapped_cells cells outputs blocks }
{
    2 * u64::from(cells) + 4 * u64::from(blocks) + 4 * u64::from(outputs) + 37
}

/// A marked circuit with a control around it, whose latency is so many blocks and some clocks; as long as one of the first `wait`
/// blocks before the one at the inputs is real it steps on. `Full` comes only where 4,000,000 cells do not suffice.
pub fn wrap(
    alloc: Global,
    nl: &Netlist,
    m: Marks,
    blocks: u32,
    wait: u32,
) -> Result<Netlist, NetFault>
    requires reset { slice_get nl.now.cells 0 ≡ Some reset_cell }
    requires most { length nl.now.cells ≤ 1000000 }
    requires outlets { length nl.now.outlets ≤ 1000000000 }
    requires marks { AreMarkNets nl.now.cells m }
    requires few { blocks ≤ 1000000 }
    requires waits { wait ≤ blocks + 1 }
    ensures wrapped { IfOk result (λ new. IsWrapped nl.now new m blocks wait) }
    ensures full { IfErr result (λ fault. fault ≡ NetFault.Full → 4000000 ≤ wrapped_cells (length nl.now.cells) (length nl.now.outlets) blocks) }
{
    nl.formed();
    if most_cells(nl.len(), nl.outputs(), blocks) > u64::from(LIMIT) {
        return Err(NetFault::Full);
    }
    let mut new = copied(alloc, nl)?;
    let w = placed_wires(nl, m);
    let made = outlet_nets(alloc, nl)?;
    let c = drive(nl, &mut new, w, blocks, wait, &made)?;
    hold(nl, c.enable, &mut new)?;
    Ok(new)
}
