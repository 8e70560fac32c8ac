// The bits that mark the clocks of a circuit.

ghost use Rattle.std.specs.Prelude.{◌%◌, IfOk, map, OnOk};
ghost use Rattle.ae_sttype.specs.StTree.{st_tree};
ghost use Rattle.ae_netlist.specs.Circuit.{IsNet};
ghost use Rattle.ae_netlist.specs.Room.{HasRoom};
ghost use Rattle.ae_gates.specs.Cells.{Adds};
ghost use Rattle.ae_streamed.specs.Beats.{AreLayouts, HasMarks};
ghost use Rattle.ae_streamed.specs.Count.{mark_cells};

use crate::layouts::{beat, period_bit};
use ae_clocked::Clocks;
use ae_netlist::{NetId, Netlist};
use ae_sttype::{Slowdown, StType};
use std::alloc::{AllocError, Global};

/// The bits that mark the clocks of a circuit: the first and the last clock of a block; that elements of the parameters stand
/// in a clock of a block, and that elements of the results do, as late as the latency says; that these are of the block before.
#[derive(Clone, Copy)]
pub struct Marks {
    pub first: NetId,
    pub last: NetId,
    pub wants: NetId,
    pub late: NetId,
    pub behind: NetId,
}

/// Adds the marks of a circuit, whose reset is cell 0, by counters of their own.
pub fn add_marks(
    alloc: Global,
    nl: &mut Netlist,
    inputs: &[StType],
    outputs: &[StType],
    slowdown: Slowdown,
    latency: u32,
) -> Result<Marks, AllocError>
    requires reset { IsNet nl.old.cells 0 1 }
    requires inputs { AreLayouts slowdown inputs.now }
    requires outputs { AreLayouts slowdown outputs.now }
    requires room { HasRoom nl.old (mark_cells (map st_tree inputs.now) (map st_tree outputs.now)) }
    ensures adds { OnOk result (Adds nl.old nl.new (mark_cells (map st_tree inputs.now) (map st_tree outputs.now)) 0) }
    ensures marks { IfOk result (λ m. HasMarks nl.new.cells m slowdown (latency % slowdown) (map st_tree inputs.now) (map st_tree outputs.now)) }
{
    let period = slowdown.clocks();
    let mut clocks = Clocks::new(alloc, NetId(0));
    let rest = latency % period;
    let first = period_bit(nl, &mut clocks, period, 0, 1)?;
    let last = period_bit(nl, &mut clocks, period, period - 1, 1)?;
    let wants = beat(nl, &mut clocks, inputs, period, 0)?;
    let late = beat(nl, &mut clocks, outputs, period, rest)?;
    let behind = period_bit(nl, &mut clocks, period, 0, rest)?;
    Ok(Marks {
        first,
        last,
        wants,
        late,
        behind,
    })
}
