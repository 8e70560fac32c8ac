// The text of a program's module.

ghost use Rattle.std.specs.Prelude.{◌<◌, ◌^◌, IfOk, length, map, string_bytes};
ghost use Rattle.ae_seq.specs.ProgramTree.{program_tree};
ghost use Rattle.ae_rewrite.specs.StProgramTree.{st_func_trees};
ghost use Rattle.ae_vread.specs.Spells.{Spells};
ghost use Rattle.ae_verilog.specs.Notes.{ArePrinted, note_tree, noted_module};
ghost use Rattle.ae_verilog.specs.ReportLines.{report_tree};
ghost use Rattle.ae_spelled.specs.Short.{IsShort};
ghost use Rattle.ae_compile.specs.Building.{IsModuleText, IsStalledText, IsWritten};

use crate::circuits::Compiled;
use crate::faults::OutOfMemory;
use crate::stalling::Stalled;
use ae_correct::{circuits_are_correct, circuits_are_writable};
use ae_elab::one_run;
use ae_netlist::Netlist;
use ae_spelled::{listings_are_short, listings_spell, module_keeps, spelled_once};
use ae_stalled::{stalled_circuits_are_correct, stalled_circuits_are_writable};
use ae_verilog::{Note, Report, write_module};
use std::alloc::Global;

// The text of a circuit that is not too large, with the notes of a program's lines: it has fewer than 2 to the 32 bytes.
fn written(
    alloc: Global,
    netlist: &Netlist,
    report: &Report,
    notes: &[Note],
) -> Result<String, OutOfMemory>
    requires printed { ArePrinted (map note_tree notes.now) }
    requires short { IsShort (report_tree report.now) (map note_tree notes.now) netlist.now.cells netlist.now.outlets }
    ensures { IfOk result (λ text. IsWritten (report_tree report.now) netlist.now (map note_tree notes.now) (string_bytes text)) }
{
    listings_spell();
    listings_are_short();
    let text = write_module(alloc, netlist, report, notes)?;
    Ok(text)
}

/// The text of a compiled program: its report lines, and then the listing of its circuit with its notes, and nothing else. It
/// spells exactly one Verilog module, which is well formed and correct for the program, at the slowdown and with the
/// latency that the report tells. The error comes only for want of memory.
pub fn module_text(alloc: Global, compiled: &Compiled) -> Result<String, OutOfMemory>
    ensures spells { IfOk result (λ text. Spells (string_bytes text) (noted_module (map note_tree compiled.now.notes) compiled.now.netlist.cells compiled.now.netlist.outlets (length (report_tree compiled.now.report).outs))) }
    ensures short { IfOk result (λ text. length (string_bytes text) < 2 ^ 32) }
    ensures text { IfOk result (λ text. IsModuleText (program_tree compiled.now.costed.program) compiled.now.costed.slowdown (st_func_trees compiled.now.costed.schedule) (string_bytes text)) }
{
    circuits_are_writable();
    circuits_are_correct();
    module_keeps();
    one_run();
    spelled_once();
    let netlist = compiled.netlist();
    let text = written(alloc, netlist, compiled.report(), compiled.notes())?;
    Ok(text)
}

/// The same of a compiled program with an enable: the module is correct for the program in the clocks in which its input `en`
/// is 1.
pub fn stalled_text(alloc: Global, stalled: &Stalled) -> Result<String, OutOfMemory>
    ensures { IfOk result (λ text. IsStalledText (program_tree stalled.now.costed.program) stalled.now.costed.slowdown (st_func_trees stalled.now.costed.schedule) (string_bytes text)) }
{
    circuits_are_writable();
    stalled_circuits_are_writable();
    stalled_circuits_are_correct();
    module_keeps();
    one_run();
    spelled_once();
    let netlist = stalled.netlist();
    let text = written(alloc, netlist, stalled.report(), stalled.notes())?;
    Ok(text)
}
