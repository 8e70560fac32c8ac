// The nets of wires.

ghost use Rattle.std.specs.Prelude.{◌≡◌, ◌<◌, ◌≤◌, ◌+◌, ◌*◌, ℕ, List, Some, length, map, slice_get, slice_set, OnOk};
ghost use Rattle.std.specs.List.{sum_by};
ghost use Rattle.ae_vmodule.specs.ModuleTree.{NetTree};
ghost use Rattle.ae_vmodule.specs.View.{module_tree};
ghost use Rattle.ae_judge.specs.Names.{equations};
ghost use Rattle.ae_judge.specs.Faults.{NetAt};
ghost use Rattle.ae_judge.specs.Table.{table_of};
ghost use Rattle.ae_judge.specs.Weight.{drive_weight};
ghost use Rattle.ae_judge.specs.Regular.{IsRegular};
ghost use Rattle.ae_judge.specs.Shape.{IsShapely};
ghost use Rattle.ae_netlist.specs.Room.{HasRoom};
ghost use Rattle.ae_gates.specs.Cells.{GrowsByGates};
ghost use Rattle.ae_order.specs.Drives.{IsWireOrder, value_tree, values_of};
ghost use Rattle.ae_elab.specs.Declaring.{AreDeclared};
ghost use Rattle.ae_elab.specs.Wiring.{AreWired, IsWiring, KeepsNets, open_weight};

use ae_express::{MaybeNet, given_word};
use ae_judge::Names;
use ae_netlist::{NetId, Netlist};
use ae_order::Sparse;
use ae_vmodule::{Expr, VModule};
use std::alloc::AllocError;

fn place_at(order: &[u32], turn: usize) -> usize
    requires inside { turn < length order.now }
    ensures { slice_get order.now turn ≡ Some result }
{
    order[turn] as usize
}

/// The value of the equation at a place, if there is one.
fn value_at<'m>(values: &Sparse<Expr<'m>>, place: usize) -> Option<Expr<'m>>
    requires inside { place < length values.now }
    ensures { (ws : List (List ℕ)) → slice_get (map (value_tree ws) values.now) place ≡ Some (value_tree ws result) }
{
    values.at(place)
}

fn net_width(m: &VModule<'_>, place: usize) -> u32
    requires inside { place < length (module_tree m.now).nets }
    ensures { (x : NetTree) → NetAt (module_tree m.now) place x → result ≡ x.width }
{
    m.nets[place].width()
}

fn set_net(nl: &Netlist, nets: &mut Vec<MaybeNet>, place: usize, net: NetId)
    requires there { net.0 < length nl.now.cells }
    requires inside { place < length nets.old.items }
    ensures { nets.new.items ≡ slice_set nets.old.items place (Some net) }
{
    nets[place] = MaybeNet::of(nl, net);
}

/// The net of the wire whose turn it is; there is none to add for an input, a register or a memory.
fn add_wire(
    nl: &mut Netlist,
    from: u32,
    names: &Names<'_>,
    m: &VModule<'_>,
    values: &Sparse<Expr<'_>>,
    order: &[u32],
    turn: usize,
    nets: &mut Vec<MaybeNet>,
) -> Result<(), AllocError>
    requires names { names.now ≡ table_of m.now.words m.now.nets.items }
    requires shape { IsShapely (module_tree m.now) }
    requires regular { IsRegular (module_tree m.now) }
    requires values { map (value_tree names.now.words) values.now ≡ values_of (module_tree m.now) }
    requires sorted { IsWireOrder (module_tree m.now) order.now }
    requires inside { turn < length order.now }
    requires wiring { IsWiring (module_tree m.now) from order.now turn nets.old.items nl.old.cells }
    requires room { HasRoom nl.old (8 * open_weight (values_of (module_tree m.now)) nets.old.items) }
    ensures wiring { OnOk result (IsWiring (module_tree m.now) from order.now (turn + 1) nets.new.items nl.new.cells) }
    ensures grows { OnOk result (GrowsByGates nl.old nl.new) }
    ensures keeps { OnOk result (KeepsNets nets.old.items nets.new.items) }
    ensures few { OnOk result (length nl.new.cells + 8 * open_weight (values_of (module_tree m.now)) nets.new.items ≤ length nl.old.cells + 8 * open_weight (values_of (module_tree m.now)) nets.old.items) }
{
    let place = place_at(order, turn);
    match value_at(values, place) {
        None => Ok(()),
        Some(e) => {
            let width = net_width(m, place);
            let y = given_word(nl, from, names, nets, width, e)?;
            set_net(nl, nets, place, y);
            Ok(())
        }
    }
}

/// The nets of all wires, each behind those of the names that its equation reads. The values and the order go, so that they are
/// not in memory beside what comes after.
pub fn add_wires(
    nl: &mut Netlist,
    from: u32,
    names: &Names<'_>,
    m: &VModule<'_>,
    values: Sparse<Expr<'_>>,
    order: Vec<u32>,
    nets: &mut Vec<MaybeNet>,
) -> Result<(), AllocError>
    requires names { names.now ≡ table_of m.now.words m.now.nets.items }
    requires shape { IsShapely (module_tree m.now) }
    requires regular { IsRegular (module_tree m.now) }
    requires values { map (value_tree names.now.words) values ≡ values_of (module_tree m.now) }
    requires sorted { IsWireOrder (module_tree m.now) order.items }
    requires from { from ≡ length nl.old.cells }
    requires declared { AreDeclared (module_tree m.now) (module_tree m.now).nets nets.old.items nl.old.cells }
    requires room { HasRoom nl.old (8 * sum_by drive_weight (equations (module_tree m.now))) }
    ensures wired { OnOk result (AreWired (module_tree m.now) from nets.new.items nl.new.cells) }
    ensures grows { OnOk result (GrowsByGates nl.old nl.new) }
    ensures keeps { OnOk result (KeepsNets nets.old.items nets.new.items) }
    ensures few { OnOk result (length nl.new.cells ≤ length nl.old.cells + 8 * sum_by drive_weight (equations (module_tree m.now))) }
{
    for turn in 0..order.len() {
        add_wire(nl, from, names, m, &values, &order, turn, nets)?;
    }
    Ok(())
}
