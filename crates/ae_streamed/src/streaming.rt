// Circuits between two channels.

ghost use Rattle.std.specs.Prelude.{◌≡◌, ◌+◌, ◌/◌, ◌<◌, ◌≤◌, ◌∷◌, [], IfOk, Some, length, map, max, slice_get, sum_by};
ghost use Rattle.ae_sttype.specs.StTree.{st_tree};
ghost use Rattle.ae_sttype.specs.Size.{IsInSize};
ghost use Rattle.ae_sttype.specs.Moves.{columns_of};
ghost use Rattle.ae_stall.specs.Copies.{reset_cell};
ghost use Rattle.ae_streamed.specs.Beats.{AreLayouts, IsLastBeat};
ghost use Rattle.ae_streamed.specs.Between.{IsStream};
ghost use Rattle.ae_streamed.specs.Count.{IsFullForStream};

use crate::marking::add_marks;
use crate::room::with_limit;
use crate::wrapping::wrap;
use ae_netlist::{NetFault, Netlist, has_one_run};
use ae_stream::{
    driven_circuits_go_on, driven_circuits_keep_words, driven_circuits_stream,
    held_circuits_are_inside, held_marks_are_seen, wired_controls_are_driven,
    wired_controls_have_no_paths,
};
use ae_sttype::{Slowdown, StType};
use std::alloc::Global;

// How many cells a circuit may have with the marks of its clocks.
const MARKED_LIMIT: u32 = 1_000_000;

// The marks of more layouts have more cells than that.
const MOST_LAYOUTS: usize = 1_000_000;

// More cells than the marks of a layout have, which is at most 16 deep.
const LAYOUT_CELLS: u32 = 354;

/// The last clock in which an element of a layout stands.
fn last_clock(layout: &StType) -> u32
    requires { IsInSize (st_tree layout.now) }
    ensures { IsLastBeat (st_tree layout.now ∷ []) result }
{
    match layout {
        StType::Atom(_) => 0,
        StType::T { n, i: _, of } => {
            let of: &StType = of;
            let last = last_clock(of);
            (*n - 1) * of.time() + last
        }
        StType::S { n: _, of } => last_clock(of),
    }
}

/// The later of two clocks.
fn later(a: u32, b: u32) -> u32
    ensures { result ≡ max a b }
{
    if a < b { b } else { a }
}

/// The last clock of a block in which an element of one of these layouts stands.
fn last_beat(layouts: &[StType], slowdown: Slowdown) -> u32
    requires { AreLayouts slowdown layouts.now }
    ensures below { result < slowdown }
    ensures last { IsLastBeat (map st_tree layouts.now) result }
{
    let mut last = 0;
    for k in 0..layouts.len() {
        last = later(last, last_clock(&layouts[k]));
    }
    last
}

/// The circuit between two channels, each with a bit that says that words stand there and one that says that they are taken. The
/// circuit has the reset at cell 0, behind it an input for each column of the parameters, and an output for each column of the
/// results; its blocks take `slowdown` clocks. A transfer at the source takes the words of one clock of a block in which
/// elements of the parameters stand, and one at the sink gives those of a clock in which elements of the results do. `Full`
/// comes only where the cells do not suffice that it may need at most: 1,000,000 for the circuit and the marks of its clocks, and
/// 4,000,000 for all.
pub fn stream(
    alloc: Global,
    nl: &Netlist,
    inputs: &[StType],
    outputs: &[StType],
    slowdown: Slowdown,
    latency: u32,
) -> Result<Netlist, NetFault>
    requires reset { slice_get nl.now.cells 0 ≡ Some reset_cell }
    requires inputs { AreLayouts slowdown inputs.now }
    requires outputs { AreLayouts slowdown outputs.now }
    requires late { latency ≤ 1000000 }
    requires ins { sum_by columns_of (map st_tree inputs.now) < length nl.now.cells }
    requires outs { length nl.now.outlets ≡ sum_by columns_of (map st_tree outputs.now) }
    requires few { length nl.now.outlets ≤ 1000000000 }
    ensures stream { IfOk result (λ new. IsStream nl.now new slowdown latency (map st_tree inputs.now) (map st_tree outputs.now)) }
    ensures full { IsFullForStream result nl.now (map st_tree inputs.now) (map st_tree outputs.now) (latency / slowdown) }
{
    nl.formed();
    has_one_run(nl);
    held_circuits_are_inside();
    held_marks_are_seen();
    wired_controls_are_driven();
    driven_circuits_stream();
    driven_circuits_keep_words();
    driven_circuits_go_on();
    wired_controls_have_no_paths();
    if nl.len() > MARKED_LIMIT || inputs.len() > MOST_LAYOUTS || outputs.len() > MOST_LAYOUTS {
        return Err(NetFault::Full);
    }
    let layouts = inputs.len() as u32 + outputs.len() as u32;
    let mut marked = with_limit(alloc, nl, MARKED_LIMIT + 65 + LAYOUT_CELLS * layouts)?;
    let m = add_marks(alloc, &mut marked, inputs, outputs, slowdown, latency)?;
    if marked.len() > MARKED_LIMIT {
        return Err(NetFault::Full);
    }
    marked.formed();
    let period = slowdown.clocks();
    let wait = (latency + last_beat(outputs, slowdown)) / period;
    let new = wrap(alloc, &marked, m, latency / period, wait)?;
    Ok(new)
}
