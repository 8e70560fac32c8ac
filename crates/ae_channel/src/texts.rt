// The text of the module of a program between two channels.

ghost use Rattle.std.specs.Prelude.{◌≡◌, IfErr, IfOk, string_bytes};
ghost use Rattle.ae_seq.specs.ProgramTree.{program_tree};
ghost use Rattle.ae_rewrite.specs.StProgramTree.{st_func_trees};
ghost use Rattle.ae_verilog.specs.ReportLines.{report_tree};
ghost use Rattle.ae_channel.specs.Full.{MayLackRoom};
ghost use Rattle.ae_channel.specs.Texts.{IsStreamText};

use crate::channels::streamed;
use crate::listings::listing;
use ae_compile::Compiled;
use ae_netlist::NetFault;
use std::alloc::Global;

/// The text of the module of a compiled program between two channels, under a name: the report lines of its circuit, the line
/// `// stream`, and the listing of the circuit between the channels, whose ports are called `s_valid`, `s_ready`, `m_valid` and
/// `m_ready` there (docs/STREAMS.md). `Full` comes only where the circuit is so large that this may have too many cells.
pub fn stream_text(alloc: Global, compiled: &Compiled, name: &str) -> Result<String, NetFault>
    ensures text { IfOk result (λ text. IsStreamText (program_tree compiled.now.costed.program) compiled.now.costed.slowdown (st_func_trees compiled.now.costed.schedule) name.now (string_bytes text)) }
    ensures full { IfErr result (λ fault. fault ≡ NetFault.Full → MayLackRoom compiled.now.netlist (report_tree compiled.now.report)) }
{
    let netlist = streamed(alloc, compiled)?;
    let told = compiled.report();
    let text = listing(alloc, &netlist, told, name)?;
    Ok(text)
}
