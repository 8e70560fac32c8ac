// The circuit of a program with an enable, and what is told of it.

ghost use Rattle.std.specs.Prelude.{◌≡◌, ◌<◌, ◌≤◌, ℕ, IfOk, Some, map, slice_get, []};
ghost use Rattle.ae_seq.specs.ProgramTree.{program_tree};
ghost use Rattle.ae_rewrite.specs.StProgramTree.{st_func_trees};
ghost use Rattle.ae_stall.specs.Images.{renumbered};
ghost use Rattle.ae_stalled.specs.Laws.{stall_limit};
ghost use Rattle.ae_compile.specs.Costing.{main_costs};
ghost use Rattle.ae_compile.specs.Passes.{IsStalledProgram};

use crate::circuits::{circuit, notes, report};
use crate::costing::Costed;
use ae_netlist::Netlist;
use ae_stall::stall;
use ae_verilog::{Note, Report};
use std::alloc::{AllocError, Global};
use std::marker::Model;

/// The same as `Compiled`, of the circuit with an enable, without the sections: the load is at most `STALL_LIMIT`.
#[derive(Drop)]
pub struct Stalled {
    costed: Costed,
    report: Report,
    netlist: Netlist,
    notes: Vec<Note>,
}

impl Model for Stalled {
    ghost use Rattle.std.specs.Prelude.{[]};
    ghost use Rattle.std.specs.Coded.{codes};
    ghost use Rattle.ae_seqtype.specs.contracts.seq_type.SeqType as t;
    ghost use Rattle.ae_sttype.specs.contracts.st_type.StType as e;
    ghost use Rattle.ae_compile.specs.Passes.{CompiledView, IsStalledProgram};

    ghost Value = { CompiledView };

    ghost coded = { Prim.hlevel (codes, e.the_row.coded, t.the_row.coded) };

    ghost view = { λ d. record { costed = d.costed; report = d.report; netlist = d.netlist; notes = d.notes.items; sections = [] } };

    ghost invariant = { λ d. IsStalledProgram (record { costed = d.costed; report = d.report; netlist = d.netlist; notes = d.notes.items; sections = [] }) };
}

impl Stalled {
    /// The program, and what it costs.
    pub fn costed(&self) -> &Costed
        ensures { result.now ≡ self.now.costed }
    {
        &self.costed
    }

    /// What is told of the circuit.
    pub fn report(&self) -> &Report
        ensures { result.now ≡ self.now.report }
    {
        &self.report
    }

    /// The circuit.
    pub fn netlist(&self) -> &Netlist
        ensures is { result.now ≡ self.now.netlist }
        ensures known { IsStalledProgram self.now }
    {
        &self.netlist
    }

    /// The notes, in the order of the cells.
    pub fn notes(&self) -> &[Note]
        ensures { result.now ≡ self.now.notes }
    {
        self.notes.as_slice()
    }
}

// Behind the first cell comes the enable, and then the others.
fn moved_mark(mark: u32) -> u32
    requires { mark < 4294967295 }
    ensures { result ≡ renumbered mark }
{
    if mark == 0 {
        return mark;
    }
    mark + 1
}

// Where the cells of the lines begin behind the enable.
fn moved_marks(alloc: Global, marks: &[u32]) -> Result<Vec<u32>, AllocError>
    requires { (i m : ℕ) → slice_get marks.now i ≡ Some m → m < 4294967295 }
    ensures { IfOk result (λ v. v.items ≡ map renumbered marks.now) }
{
    let mut behind = Vec::new(alloc);
    for mark in marks {
        behind.push(moved_mark(*mark))?;
    }
    Ok(behind)
}

// What is told of the circuit with an enable, the circuit, and its notes.
fn stalled_parts(alloc: Global, costed: &Costed) -> Result<(Report, Netlist, Vec<Note>), AllocError>
    requires { (main_costs (program_tree costed.now.program) (st_func_trees costed.now.schedule)).load ≤ stall_limit }
    ensures { IfOk result (λ x. IsStalledProgram (record { costed = costed.now; report = x.0; netlist = x.1; notes = x.2.items; sections = [] })) }
{
    let report = report(alloc, costed, true)?;
    let lowered = circuit(alloc, costed)?;
    let netlist = stall(alloc, &lowered.netlist)?;
    let marks = moved_marks(alloc, &lowered.marks)?;
    let notes = notes(alloc, costed, &marks)?;
    Ok((report, netlist, notes))
}

/// The circuit of a costed program, within the limit of load of these, with an enable: in the clocks in which the enable is 1 it
/// does what the circuit does, and in the others its registers and memories stay as they are. The error comes only for
/// want of memory.
pub fn compile_stalled(alloc: Global, costed: Costed) -> Result<Stalled, AllocError>
    requires { (main_costs (program_tree costed.program) (st_func_trees costed.schedule)).load ≤ stall_limit }
    ensures of { IfOk result (λ d. d.costed ≡ costed) }
    ensures stalled { IfOk result IsStalledProgram }
{
    let (report, netlist, notes) = stalled_parts(alloc, &costed)?;
    Ok(Stalled {
        costed,
        report,
        netlist,
        notes,
    })
}
