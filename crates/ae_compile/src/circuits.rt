// The circuit of a program, and what is told of it.

ghost use Rattle.std.specs.Prelude.{◌≡◌, ◌<◌, IfOk, Some, false, length, map, slice_get};
ghost use Rattle.ae_seq.specs.ProgramTree.{FuncTree, program_tree};
ghost use Rattle.ae_rewrite.specs.StProgramTree.{StFuncTree as Tree, st_func_trees};
ghost use Rattle.ae_rewrite.specs.Sound.{item_layouts};
ghost use Rattle.ae_rewrite.specs.Interface.{main_of};
ghost use Rattle.ae_delay.specs.Timings.{AreTimes};
ghost use Rattle.ae_lower.specs.Circuits.{last_of};
ghost use Rattle.ae_trace.specs.Traces.{is_movement};
ghost use Rattle.ae_verilog.specs.Notes.{ArePrinted, note_tree};
ghost use Rattle.ae_verilog.specs.ReportLines.{report_tree};
ghost use Rattle.ae_compile.specs.Compiling.{IsMadeFor, report_of};
ghost use Rattle.ae_compile.specs.LineNotes.{AreCellSections, ArePlaced, OwnCells, told_count, told_notes};
ghost use Rattle.ae_compile.specs.Passes.{IsCompiledProgram, IsCostedProgram};

use crate::costing::Costed;
use crate::costs::Costs;
use crate::layouts::{input_layouts, output_layouts};
use crate::notes::{end_notes, line_notes};
use ae_delay::Timing;
use ae_flow::schedules_fit;
use ae_lower::{Lowered, Section, circuits_are_for, lower};
use ae_netlist::Netlist;
use ae_retime::matching;
use ae_verilog::{Note, Report};
use std::alloc::{AllocError, Global};
use std::marker::Model;

/// A costed program with its circuit, the report of that, a note for each line of the program function, or of one that
/// only moves words for each result, and the sections of the circuit's cells.
#[derive(Drop)]
pub struct Compiled {
    costed: Costed,
    report: Report,
    netlist: Netlist,
    notes: Vec<Note>,
    sections: Vec<Section>,
}

impl Model for Compiled {
    ghost use Rattle.std.specs.Coded.{codes};
    ghost use Rattle.ae_seqtype.specs.contracts.seq_type.SeqType as t;
    ghost use Rattle.ae_sttype.specs.contracts.st_type.StType as e;
    ghost use Rattle.ae_compile.specs.Passes.{CompiledView, IsCompiledProgram};

    ghost Value = { CompiledView };

    ghost coded = { Prim.hlevel (codes, e.the_row.coded, t.the_row.coded) };

    ghost view = { λ d. record { costed = d.costed; report = d.report; netlist = d.netlist; notes = d.notes.items; sections = d.sections.items } };

    ghost invariant = { λ d. IsCompiledProgram (record { costed = d.costed; report = d.report; netlist = d.netlist; notes = d.notes.items; sections = d.sections.items }) };
}

impl Compiled {
    /// The program, and what it costs.
    pub fn costed(&self) -> &Costed
        ensures { result.now ≡ self.now.costed }
    {
        &self.costed
    }

    /// What is told of the circuit.
    pub fn report(&self) -> &Report
        ensures is { result.now ≡ self.now.report }
        ensures known { IsCompiledProgram self.now }
    {
        &self.report
    }

    /// The circuit.
    pub fn netlist(&self) -> &Netlist
        ensures is { result.now ≡ self.now.netlist }
        ensures known { IsCompiledProgram self.now }
    {
        &self.netlist
    }

    /// The notes, in the order of the cells.
    pub fn notes(&self) -> &[Note]
        ensures { result.now ≡ self.now.notes }
    {
        self.notes.as_slice()
    }

    /// The sections of the circuit's cells, in their order: which node each cell behind the inputs is made for, of the program
    /// function or of a function that it calls, by the numbers of the instances of the schedule. There are none where the
    /// program only moves words.
    pub fn sections(&self) -> &[Section]
        ensures is { result.now ≡ self.now.sections }
        ensures known { IsCompiledProgram self.now }
    {
        self.sections.as_slice()
    }
}

// What is told of a circuit, with or without an enable.
pub fn report(alloc: Global, costed: &Costed, enable: bool) -> Result<Report, AllocError>
    ensures known { IsCostedProgram costed.now }
    ensures told { IfOk result (λ r. (s : Tree) → slice_get (st_func_trees costed.now.schedule) (last_of (st_func_trees costed.now.schedule)) ≡ Some s → report_tree r ≡ report_of enable (program_tree costed.now.program) costed.now.slowdown (st_func_trees costed.now.schedule) s) }
{
    let s = costed.main_instance();
    let costs = costed.costs();
    Ok(Report {
        slowdown: costed.slowdown(),
        latency: costs.latency(),
        muls: costs.muls(),
        load: costs.load() as u32,
        enable,
        ins: input_layouts(alloc, s)?,
        outs: output_layouts(alloc, s)?,
    })
}

// The circuit of the schedule, and where the cells of the lines begin.
fn plain_circuit(alloc: Global, costed: &Costed, timing: &Timing) -> Result<Lowered, AllocError>
    requires computes { is_movement (program_tree costed.now.program) ≡ false }
    requires times { AreTimes (st_func_trees costed.now.schedule) timing.now }
    ensures circuit { IfOk result (λ l. IsMadeFor (program_tree costed.now.program) costed.now.slowdown (st_func_trees costed.now.schedule) l.netlist) }
    ensures marks { IfOk result (λ l. ArePlaced (program_tree costed.now.program) l.netlist.cells l.marks.items) }
    ensures nodes { IfOk result (λ l. OwnCells (program_tree costed.now.program) (st_func_trees costed.now.schedule) l.netlist.cells l.marks.items) }
    ensures sections { IfOk result (λ l. AreCellSections (program_tree costed.now.program) (st_func_trees costed.now.schedule) (length l.netlist.cells) l.sections.items) }
{
    circuits_are_for();
    schedules_fit();
    let schedule = costed.schedule();
    let slacks = matching(alloc, schedule, timing)?;
    let lowered = lower(alloc, schedule, timing, &slacks)?;
    Ok(lowered)
}

// The circuit, and where the cells of what is told begin.
pub fn circuit(alloc: Global, costed: &Costed) -> Result<Lowered, AllocError>
    ensures circuit { IfOk result (λ l. IsMadeFor (program_tree costed.now.program) costed.now.slowdown (st_func_trees costed.now.schedule) l.netlist) }
    ensures marks { IfOk result (λ l. ArePlaced (program_tree costed.now.program) l.netlist.cells l.marks.items) }
    ensures nodes { IfOk result (λ l. OwnCells (program_tree costed.now.program) (st_func_trees costed.now.schedule) l.netlist.cells l.marks.items) }
    ensures sections { IfOk result (λ l. AreCellSections (program_tree costed.now.program) (st_func_trees costed.now.schedule) (length l.netlist.cells) l.sections.items) }
{
    match costed.costs() {
        Costs::Plain(timing) => plain_circuit(alloc, costed, timing),
        Costs::Fused(moves) => {
            let lowered = moves.lower(alloc)?;
            Ok(lowered)
        }
    }
}

// What is told of the cells of the lines, or of the results, by the numbers of the cells before them.
pub fn notes(alloc: Global, costed: &Costed, marks: &[u32]) -> Result<Vec<Note>, AllocError>
    requires { (f : FuncTree) → slice_get (program_tree costed.now.program).funcs (main_of (program_tree costed.now.program)) ≡ Some f → length marks.now ≡ told_count (program_tree costed.now.program) f }
    ensures are { IfOk result (λ v. (s : Tree) (f : FuncTree) → slice_get (st_func_trees costed.now.schedule) (last_of (st_func_trees costed.now.schedule)) ≡ Some s
        → slice_get (program_tree costed.now.program).funcs (main_of (program_tree costed.now.program)) ≡ Some f
        → map note_tree v.items ≡ told_notes (program_tree costed.now.program) f (item_layouts s) marks.now) }
    ensures printed { IfOk result (λ v. ArePrinted (map note_tree v.items)) }
{
    let func = costed.main_func();
    let instance = costed.main_instance();
    match costed.costs() {
        Costs::Plain(_) => line_notes(alloc, func, instance, marks),
        Costs::Fused(_) => end_notes(alloc, func, instance, marks),
    }
}

/// The circuit of a costed program: it makes the program's blocks in every reset run, at the latency of the costs, which
/// its report tells beside the multipliers, the load and the layouts. The error comes only for want of memory.
pub fn compile(alloc: Global, costed: Costed) -> Result<Compiled, AllocError>
    ensures of { IfOk result (λ d. d.costed ≡ costed) }
    ensures compiled { IfOk result IsCompiledProgram }
{
    let report = report(alloc, &costed, false)?;
    let lowered = circuit(alloc, &costed)?;
    let notes = notes(alloc, &costed, &lowered.marks)?;
    Ok(Compiled {
        costed,
        report,
        netlist: lowered.netlist,
        notes,
        sections: lowered.sections,
    })
}
