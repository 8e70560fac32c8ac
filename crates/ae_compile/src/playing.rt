// Reading a module's text back, for a run.

ghost use Rattle.std.specs.Prelude.{◌<◌, ◌^◌, IfOk, length, map};
ghost use Rattle.ae_seq.specs.ProgramTree.{program_tree};
ghost use Rattle.ae_vread.specs.Spells.{Spells};
ghost use Rattle.ae_verilog.specs.Notes.{note_tree, noted_module};
ghost use Rattle.ae_verilog.specs.ReportLines.{report_tree};
ghost use Rattle.ae_compile.specs.Playing.{Shows};

use crate::circuits::Compiled;
use crate::faults::OutOfMemory;
use crate::read_back::read_back;
use ae_correct::{circuits_are_writable, runs_are_alike, runs_are_shown};
use ae_netlist::{Netlist, fill_begins, has_one_run_with};
use ae_play::can_be_fed;
use ae_spelled::module_keeps;
use std::alloc::Global;

/// The netlist that the text of a compiled program's module is read back as: what it shows of its run on blocks, with
/// registers that begin as the fill, is what the module shows of them. The error comes only for want of memory.
pub fn play(
    alloc: Global,
    compiled: &Compiled,
    text: &str,
    fill: u64,
) -> Result<Netlist, OutOfMemory>
    requires short { length text.now < 2 ^ 32 }
    requires spells { Spells text.now (noted_module (map note_tree compiled.now.notes) compiled.now.netlist.cells compiled.now.netlist.outlets (length (report_tree compiled.now.report).outs)) }
    ensures { IfOk result (λ n. Shows (program_tree compiled.now.costed.program) compiled.now.costed.slowdown compiled.now.report.latency fill (report_tree compiled.now.report).ins (report_tree compiled.now.report).outs
        (noted_module (map note_tree compiled.now.notes) compiled.now.netlist.cells compiled.now.netlist.outlets (length (report_tree compiled.now.report).outs)) n) }
{
    runs_are_shown();
    runs_are_alike();
    can_be_fed();
    circuits_are_writable();
    module_keeps();
    let netlist = compiled.netlist();
    has_one_run_with(netlist);
    fill_begins(netlist, fill);
    read_back(alloc, text)
}
