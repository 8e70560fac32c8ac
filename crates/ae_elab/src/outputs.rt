// The outputs of a module.

ghost use Rattle.std.specs.Prelude.{◌≡◌, ◌<◌, ◌-◌, ◌^◌, ◌++◌, ◌∷◌, [], ℕ, length, map, true, OnOk, Some};
ghost use Rattle.ae_vmodule.specs.ModuleTree.{NetTree};
ghost use Rattle.ae_vmodule.specs.View.{module_tree};
ghost use Rattle.ae_netlist.specs.declared.cell.NetId.{NetId};
ghost use Rattle.ae_netlist.specs.declared.cell.Outlet.{Outlet};
ghost use Rattle.ae_netlist.specs.Circuit.{IsNet, width_of};
ghost use Rattle.ae_judge.specs.Names.{is_output_kind};
ghost use Rattle.ae_judge.specs.Faults.{NetAt};
ghost use Rattle.ae_judge.specs.Shape.{IsShapely};
ghost use Rattle.ae_runs.specs.Named.{AreNets};
ghost use Rattle.ae_elab.specs.Declaring.{ArePlainOutlets, HasNet, is_output, shown, with_nets};

use ae_express::MaybeNet;
use ae_netlist::{NetId, Netlist, Port};
use ae_vmodule::{NetKind, VModule};
use std::alloc::AllocError;

fn is_output_kind(kind: NetKind) -> bool
    ensures { result ≡ is_output_kind kind }
{
    match kind {
        NetKind::OutWire | NetKind::OutReg => true,
        NetKind::Input | NetKind::Wire | NetKind::Reg | NetKind::Memory(_) => false,
    }
}

/// Adds a net as the next plain output.
fn add_output(nl: &mut Netlist, net: NetId) -> Result<(), AllocError>
    requires net { IsNet nl.old.cells net.0 (width_of nl.old.cells net.0) }
    requires room { length nl.old.outlets < 2 ^ 32 - 1 }
    ensures { OnOk result (nl.new ≡ record nl.old { outlets = nl.old.outlets ++ (record { port = Port.Plain (length nl.old.outlets); net = net }) ∷ [] }) }
{
    let port = Port::Plain(nl.outputs());
    nl.add_output(port, net)?;
    Ok(())
}

/// Adds the net of a name, if it is an output.
fn show(nl: &mut Netlist, kind: NetKind, net: Option<NetId>) -> Result<(), AllocError>
    requires net { (y : NetId) → is_output_kind kind ≡ true → net ≡ Some y → IsNet nl.old.cells y.0 (width_of nl.old.cells y.0) }
    requires room { length nl.old.outlets < 2 ^ 32 - 1 }
    ensures { OnOk result (nl.new ≡ record nl.old { outlets = shown (is_output_kind kind) net nl.old.outlets }) }
{
    if !is_output_kind(kind) {
        return Ok(());
    }
    match net {
        Some(net) => add_output(nl, net),
        None => Ok(()),
    }
}

/// Adds the outputs of a module, in order, each as a plain port.
pub fn add_outputs(nl: &mut Netlist, m: &VModule<'_>, nets: &[MaybeNet]) -> Result<(), AllocError>
    requires shape { IsShapely (module_tree m.now) }
    requires none { nl.old.outlets ≡ [] }
    requires nets { AreNets (module_tree m.now).nets nets.now nl.old.cells }
    requires each { (p : ℕ) (x : NetTree) → NetAt (module_tree m.now) p x → is_output_kind x.kind ≡ true → HasNet nets.now p }
    ensures cells { OnOk result (nl.new.cells ≡ nl.old.cells) }
    ensures outlets { OnOk result (map (λ (o : Outlet). o.net.0) nl.new.outlets ≡ with_nets is_output (λ n x. n) (module_tree m.now).nets nets.now) }
    ensures plain { OnOk result (ArePlainOutlets nl.new.outlets) }
{
    for place in 0..m.nets.len() {
        show(nl, m.nets[place].kind(), nets[place].net())?;
    }
    Ok(())
}
