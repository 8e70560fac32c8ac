// Circuits between two channels: what the call requires is tested here.

ghost use Rattle.std.specs.Prelude.{◌≡◌, ◌<◌, ◌≤◌, IfSome, IsTrue, Some, length, map, slice_get, sum_by};
ghost use Rattle.ae_sttype.specs.StTree.{st_tree, time};
ghost use Rattle.ae_sttype.specs.Size.{IsInSize};
ghost use Rattle.ae_sttype.specs.Moves.{columns_of};
ghost use Rattle.ae_stall.specs.Copies.{reset_cell};
ghost use Rattle.ae_streamed.specs.Beats.{AreLayouts};

use ae_netlist::{Cell, NetFault, NetId, Netlist, Port};
use ae_streamed::stream;
use ae_sttype::{Slowdown, StType};
use std::alloc::Global;

fn takes_time(layout: &StType, slowdown: Slowdown) -> bool
    ensures { IsTrue result → IsInSize (st_tree layout.now) × (time (st_tree layout.now) ≡ slowdown) }
{
    layout.in_size() && layout.time() == slowdown.clocks()
}

// Whether these are layouts, at least one, that take so many clocks.
fn are_layouts(layouts: &[StType], slowdown: Slowdown) -> bool
    ensures { IsTrue result → AreLayouts slowdown layouts.now }
{
    if layouts.len() == 0 {
        return false;
    }
    for k in 0..layouts.len() {
        if !takes_time(&layouts[k], slowdown) {
            return false;
        }
    }
    true
}

// How many words layouts have in a clock.
fn count_columns(layouts: &[StType], slowdown: Slowdown) -> Option<u32>
    requires { AreLayouts slowdown layouts.now }
    ensures { IfSome result (λ n. n ≡ sum_by columns_of (map st_tree layouts.now)) }
{
    let mut count = 0u32;
    for k in 0..layouts.len() {
        let layout = &layouts[k];
        let Some(own) = layout.lanes().checked_mul(layout.element_words()) else {
            return None;
        };
        let Some(more) = count.checked_add(own) else {
            return None;
        };
        count = more;
    }
    Some(count)
}

// Whether the first cell is the reset.
fn has_reset(nl: &Netlist) -> bool
    ensures { IsTrue result → slice_get nl.now.cells 0 ≡ Some reset_cell }
{
    let Some(sized) = nl.sized(NetId(0)) else {
        return false;
    };
    let Cell::Input(port) = sized.cell else {
        return false;
    };
    let Port::Reset = port else {
        return false;
    };
    sized.width == 1
}

// Whether the numbers of inputs and outputs are those of the columns.
fn has_columns(nl: &Netlist, ins: &[StType], outs: &[StType], slowdown: Slowdown) -> bool
    requires ins { AreLayouts slowdown ins.now }
    requires outs { AreLayouts slowdown outs.now }
    ensures ins { IsTrue result → sum_by columns_of (map st_tree ins.now) < length nl.now.cells }
    ensures outs { IsTrue result → length nl.now.outlets ≡ sum_by columns_of (map st_tree outs.now) }
{
    let Some(own) = count_columns(ins, slowdown) else {
        return false;
    };
    if own >= nl.len() {
        return false;
    }
    let Some(shown) = count_columns(outs, slowdown) else {
        return false;
    };
    shown == nl.outputs()
}

/// A circuit with these layouts between two channels; None where it is not one with these layouts and a reset.
pub fn streamed(
    alloc: Global,
    nl: Netlist,
    ins: &[StType],
    outs: &[StType],
    slowdown: Slowdown,
    latency: u32,
) -> Option<Result<Netlist, NetFault>>
    requires { latency ≤ 1000000 }
{
    if !has_reset(&nl) {
        return None;
    }
    if !are_layouts(ins, slowdown) {
        return None;
    }
    if !are_layouts(outs, slowdown) {
        return None;
    }
    if !has_columns(&nl, ins, outs, slowdown) {
        return None;
    }
    if nl.outputs() > 1_000_000_000 {
        return None;
    }
    Some(stream(alloc, &nl, ins, outs, slowdown, latency))
}
