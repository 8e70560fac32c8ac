// The whole circuit.

ghost use Rattle.std.specs.Prelude.{Some, slice_get, IfOk, length, ◌≡◌, ◌+◌};
ghost use Rattle.ae_rewrite.specs.StProgramTree.{StFuncTree as Tree, st_func_trees};
ghost use Rattle.ae_delay.specs.Timings.{AreTimes};
ghost use Rattle.ae_retime.specs.Slacks.{AreSlacks};
ghost use Rattle.ae_flow.specs.Fitted.{AreFitted};
ghost use Rattle.ae_lower.specs.Circuits.{IsCircuitOf, last_of};
ghost use Rattle.ae_lower.specs.Sections.{AreCovered, AreSections, IsSectionWithin};
ghost use Rattle.ae_lower.specs.Stretches.{AreNodeCells};
ghost use Rattle.ae_ports.specs.Ports.{input_ports, streams_of};
ghost use Rattle.ae_tidy.specs.Needed.{IsLean};
ghost use Rattle.ae_tidy.specs.Places.{AreMarks};

use crate::calls::{TimedProgram, instance, lower_instance};
use crate::ports::{add_input, add_inputs, add_results};
use crate::sections::{Section, copied_sections};
use ae_clocked::Clocks;
use ae_delay::Timing;
use ae_flow::flows_mean;
use ae_netlist::{Netlist, Port};
use ae_retime::Slacks;
use ae_rewrite::StProgram;
use ae_tidy::tidy;
use ae_word::Width;
use std::alloc::{AllocError, Global};

/// More cells than the reset and the words of the parameters take.
const MOST_INPUTS: u32 = 400_000;

/// More cells than a circuit takes: those, and 16 for each unit of the greatest load.
pub const MOST_CELLS: u32 = 2_000_000;

/// The circuit of a program, and what its cells are made for.
#[derive(Drop)]
pub struct Lowered {
    pub netlist: Netlist,
    /// For each node of the program function the number of cells before its own.
    pub marks: Vec<u32>,
    /// Sections of the cells behind the inputs, in their order, for the nodes of the program function and of those that it calls.
    pub sections: Vec<Section>,
}

/// The circuit of a program, by its timing and its slacks: the reset and the words of the parameters go in, and in every
/// reset run each block of them makes the words of the program's results come out, the latency later. It has at most 16
/// cells for each unit of the load, one for the reset and one for each word of the parameters, and none
/// that no output or product needs, but the inputs. The marks tell where the cells of each node of the program function
/// begin, behind those of the inputs: up to the next mark there are at most 16 for each unit of the node's own load, and
/// its products. Each cell behind the inputs stands in a section, which is one of a node of the program function or of a
/// function that it calls, directly or not. The error comes only for want of memory.
pub fn lower(
    alloc: Global,
    p: &StProgram,
    a: &Timing,
    slacks: &Slacks,
) -> Result<Lowered, AllocError>
    requires fitted { AreFitted (st_func_trees p.now) }
    requires times { AreTimes (st_func_trees p.now) a.now }
    requires slacks { AreSlacks (st_func_trees p.now) slacks.now }
    ensures circuit { IfOk result (λ l. (s : Tree) → slice_get (st_func_trees p.now) (last_of (st_func_trees p.now)) ≡ Some s → IsCircuitOf (st_func_trees p.now) s l.netlist) }
    ensures marks { IfOk result (λ l. (s : Tree) → slice_get (st_func_trees p.now) (last_of (st_func_trees p.now)) ≡ Some s → AreMarks (length l.netlist.cells) (length s.nodes) l.marks.items) }
    ensures nodes { IfOk result (λ l. (s : Tree) → slice_get (st_func_trees p.now) (last_of (st_func_trees p.now)) ≡ Some s
        → AreNodeCells (st_func_trees p.now) (last_of (st_func_trees p.now)) s l.netlist.cells (1 + length (input_ports (streams_of s.ins))) l.marks.items) }
    ensures sections { IfOk result (λ l. AreSections (length l.netlist.cells) l.sections.items) }
    ensures covered { IfOk result (λ l. (s : Tree) → slice_get (st_func_trees p.now) (last_of (st_func_trees p.now)) ≡ Some s
        → AreCovered (IsSectionWithin (st_func_trees p.now) (last_of (st_func_trees p.now))) (1 + length (input_ports (streams_of s.ins))) (length l.netlist.cells) l.sections.items) }
    ensures lean { IfOk result (λ l. IsLean l.netlist) }
{
    flows_mean();
    let last = p.count() - 1;
    let s = instance(p, last);
    let mut nl = Netlist::new(alloc, MOST_INPUTS + 16 * a.load());
    let rst = add_input(&mut nl, Width::BIT, Port::Reset)?;
    let ins = add_inputs(alloc, &mut nl, &s.ins)?;
    let mut clocks = Clocks::new(alloc, rst);
    let mut marks = Vec::new(alloc);
    let mut sections = Vec::new(alloc);
    let whole = TimedProgram {
        program: p,
        timing: a,
        slacks,
    };
    let results = lower_instance(
        alloc,
        &mut nl,
        &mut clocks,
        &whole,
        last,
        &ins,
        0,
        &mut marks,
        &mut sections,
    )?;
    add_results(&mut nl, s, &results)?;
    nl.formed();
    let tidied = tidy(alloc, nl, marks)?;
    let sections = copied_sections(alloc, &tidied.made, &sections)?;
    Ok(Lowered {
        netlist: tidied.netlist,
        marks: tidied.marks,
        sections,
    })
}
