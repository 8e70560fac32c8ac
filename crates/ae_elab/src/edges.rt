// What is done at clock edges.

ghost use Rattle.std.specs.Prelude.{◌≡◌, ◌≤◌, ◌<◌, ◌+◌, ◌*◌, ◌∷◌, [], ℕ, List, Some, false, true, length, map, slice_get, OnOk};
ghost use Rattle.std.specs.List.{AllByRecursion, flat_map, sum_by};
ghost use Rattle.ae_netlist.specs.Runs.{Clock, IsRun};
ghost use Rattle.ae_vmodule.specs.ModuleTree.{NetTree};
ghost use Rattle.ae_vmodule.specs.View.{item_tree, module_tree, net_tree};
ghost use Rattle.ae_judge.specs.Names.{is_clock, item_targets};
ghost use Rattle.ae_judge.specs.Table.{table_of};
ghost use Rattle.ae_judge.specs.Faults.{NetAt};
ghost use Rattle.ae_runs.specs.Runs.{IsStep};
ghost use Rattle.ae_judge.specs.Regular.{IsRegular};
ghost use Rattle.ae_judge.specs.Shape.{IsShapely};
ghost use Rattle.ae_netlist.specs.Room.{HasRoom};
ghost use Rattle.ae_gates.specs.Cells.{AddsGates, GrowsByGates};
ghost use Rattle.ae_runs.specs.Named.{AreNamed, AreNets, read};
ghost use Rattle.ae_elab.specs.Declaring.{AreUnconnected, HasNet, IsUnconnected, is_state};
ghost use Rattle.ae_elab.specs.Connecting.{Connects};
ghost use Rattle.ae_assign.specs.Edges.{ActsItems, AreFresh, FitNexts, FitsNext, IsActiveItem, IsConnected, KeepsConstants, OthersKeep, OthersStay, edge_weight};

use ae_assign::{Next, Nexts, act};
use ae_express::MaybeNet;
use ae_judge::Names;
use ae_netlist::{NetId, Netlist};
use ae_vmodule::{ItemParts, PackedNet, VItem, VModule, WordList};
use std::alloc::{AllocError, Global};

/// What registers and memories take after an item.
#[tactic(auto, using(ae_assign::proofs::EdgeFits::nexts_grow))]
fn act_item(
    nl: &mut Netlist,
    from: u32,
    names: &Names<'_>,
    nets: &[MaybeNet],
    nexts: &mut Nexts,
    item: &VItem,
) -> Result<(), AllocError>
    requires from { from ≤ length nl.old.cells }
    requires nets { AreNets names.now.nets nets.now nl.old.cells }
    requires active { IsActiveItem names.now.nets nets.now (item_tree names.now.words item.now) }
    requires nexts { FitNexts names.now.nets nexts.old nl.old.cells }
    requires fresh { AreFresh names.now.nets nexts.old (item_targets (item_tree names.now.words item.now)) }
    requires room { HasRoom nl.old (8 * edge_weight (item_tree names.now.words item.now)) }
    ensures adds { OnOk result (AddsGates nl.old nl.new (8 * edge_weight (item_tree names.now.words item.now))) }
    ensures nexts { OnOk result (FitNexts names.now.nets nexts.new nl.new.cells) }
    ensures others { OnOk result (OthersKeep names.now.nets nexts.old nexts.new (item_targets (item_tree names.now.words item.now))) }
    ensures acts { OnOk result (ActsItems from names.now.nets nets.now nl.new.cells nexts.old nexts.new (item_tree names.now.words item.now ∷ [])) }
{
    match item.parts() {
        ItemParts::Nets(_) => Ok(()),
        ItemParts::Assign(_) => Ok(()),
        ItemParts::Always { body, .. } => {
            act(nl, from, names, nets, nexts, None, body)?;
            Ok(())
        }
    }
}

/// What registers and memories take after all items.
fn act_items(
    nl: &mut Netlist,
    from: u32,
    names: &Names<'_>,
    nets: &[MaybeNet],
    nexts: &mut Nexts,
    items: &[VItem],
) -> Result<(), AllocError>
    requires from { from ≤ length nl.old.cells }
    requires nets { AreNets names.now.nets nets.now nl.old.cells }
    requires active { AllByRecursion (IsActiveItem names.now.nets nets.now) (map (item_tree names.now.words) items.now) }
    requires nexts { FitNexts names.now.nets nexts.old nl.old.cells }
    requires fresh { AreFresh names.now.nets nexts.old (flat_map item_targets (map (item_tree names.now.words) items.now)) }
    requires room { HasRoom nl.old (8 * sum_by edge_weight (map (item_tree names.now.words) items.now)) }
    ensures grows { OnOk result (GrowsByGates nl.old nl.new) }
    ensures few { OnOk result (length nl.new.cells ≤ length nl.old.cells + 8 * sum_by edge_weight (map (item_tree names.now.words) items.now)) }
    ensures nexts { OnOk result (FitNexts names.now.nets nexts.new nl.new.cells) }
    ensures acts { OnOk result (ActsItems from names.now.nets nets.now nl.new.cells nexts.old nexts.new (map (item_tree names.now.words) items.now)) }
{
    for item in items {
        act_item(nl, from, names, nets, nexts, item)?;
    }
    Ok(())
}

/// Connects a register or a memory to what it takes.
fn connect(
    nl: &mut Netlist,
    _from: u32,
    _words: &WordList<'_>,
    x: &PackedNet,
    net: NetId,
    next: Next,
)
    requires unconnected { IsUnconnected (net_tree _words.now x.now).kind nl.old.cells net.0 (net_tree _words.now x.now).width }
    requires early { is_state (net_tree _words.now x.now) ≡ true → net.0 < _from }
    requires fits { FitsNext nl.old.cells (net_tree _words.now x.now) next }
    ensures connects { Connects _from nl.old nl.new }
    ensures long { length nl.new.cells ≡ length nl.old.cells }
    ensures constants { KeepsConstants nl.old.cells nl.new.cells }
    ensures others { OthersStay nl.old.cells nl.new.cells net.0 }
    ensures stays { is_state (net_tree _words.now x.now) ≡ false → nl.new ≡ nl.old }
    ensures connected { IsConnected (net_tree _words.now x.now).kind nl.new.cells net.0 (net_tree _words.now x.now).width next }
{
    match next {
        Next::Keep => (),
        Next::Word(word) => nl.connect(net, word),
        Next::Write { at, word, enable } => nl.connect_memory(net, at, word, enable),
    }
}

/// Connects each register and each memory to what it takes.
fn connect_all(nl: &mut Netlist, from: u32, m: &VModule<'_>, nets: &[MaybeNet], nexts: &Nexts)
    requires long { length nets.now ≡ length (module_tree m.now).nets }
    requires unconnected { AreUnconnected (module_tree m.now) from nets.now nl.old.cells }
    requires fits { FitNexts (module_tree m.now).nets nexts.now nl.old.cells }
    ensures connects { Connects from nl.old nl.new }
    ensures long { length nl.new.cells ≡ length nl.old.cells }
    ensures fits { FitNexts (module_tree m.now).nets nexts.now nl.new.cells }
    ensures connected { (p : ℕ) (x : NetTree) (y : NetId) (k : Next) → NetAt (module_tree m.now) p x → slice_get nets.now p ≡ Some (Some y) → slice_get nexts.now p ≡ Some k → IsConnected x.kind nl.new.cells y.0 x.width k }
{
    for place in 0..nets.len() {
        if let Some(net) = nets[place].net() {
            connect(nl, from, &m.words, &m.nets[place], net, nexts.at(place));
        }
    }
}

/// Connects each register and each memory to what it takes at a clock edge: at most 8 cells for each unit of the weight
/// of the statements. All else in the netlist stays.
pub fn perform(
    alloc: Global,
    nl: &mut Netlist,
    from: u32,
    names: &Names<'_>,
    m: &VModule<'_>,
    nets: &[MaybeNet],
) -> Result<(), AllocError>
    requires names { names.now ≡ table_of m.now.words m.now.nets.items }
    requires shape { IsShapely (module_tree m.now) }
    requires regular { IsRegular (module_tree m.now) }
    requires from { from ≤ length nl.old.cells }
    requires nets { AreNets (module_tree m.now).nets nets.now nl.old.cells }
    requires each { (p : ℕ) (x : NetTree) → NetAt (module_tree m.now) p x → is_clock (module_tree m.now) x.name ≡ false → HasNet nets.now p }
    requires free { AreUnconnected (module_tree m.now) from nets.now nl.old.cells }
    requires room { HasRoom nl.old (8 * sum_by edge_weight (module_tree m.now).items) }
    ensures connects { OnOk result (Connects from nl.old nl.new) }
    ensures few { OnOk result (length nl.new.cells ≤ length nl.old.cells + 8 * sum_by edge_weight (module_tree m.now).items) }
    ensures steps { OnOk result ((at : List ℕ → ℕ) → AreNamed (module_tree m.now).nets nets.now at → (run : List Clock) → IsRun nl.new.cells run → (t : ℕ) → t + 1 < length run → IsStep (module_tree m.now) (read at run t) (read at run (t + 1))) }
{
    let mut nexts = Nexts::none(alloc, m.nets.len());
    act_items(nl, from, names, nets, &mut nexts, &m.items)?;
    connect_all(nl, from, m, nets, &nexts);
    Ok(())
}
