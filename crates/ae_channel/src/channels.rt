// The circuit of a compiled program between two channels.

ghost use Rattle.std.specs.Prelude.{◌≡◌, ◌<◌, IfErr, IfOk, map};
ghost use Rattle.ae_seq.specs.ProgramTree.{program_tree};
ghost use Rattle.ae_sttype.specs.StTree.{st_tree};
ghost use Rattle.ae_stream.specs.Fed.{CanBeFed};
ghost use Rattle.ae_streamed.specs.Between.{IsStream};
ghost use Rattle.ae_verilog.specs.ReportLines.{report_tree};
ghost use Rattle.ae_channel.specs.Asked.{CanStream};
ghost use Rattle.ae_channel.specs.Full.{MayLackRoom};

use ae_compile::Compiled;
use ae_netlist::{NetFault, Netlist, fill_begins, has_one_run_with};
use ae_play::can_be_fed;
use ae_streamed::stream;
use ae_verilog::Report;
use std::alloc::Global;

// How many clocks of latency a circuit between channels may have: it has a register for each block of them.
const MOST_LATENCY: u32 = 1_000_000;

// A circuit with this report between two channels.
fn between(alloc: Global, netlist: &Netlist, report: &Report) -> Result<Netlist, NetFault>
    requires { CanStream netlist.now report.now }
    ensures stream { IfOk result (λ new. IsStream netlist.now new report.now.slowdown report.now.latency (map st_tree report.now.ins.items) (map st_tree report.now.outs.items)) }
    ensures full { IfErr result (λ fault. fault ≡ NetFault.Full → MayLackRoom netlist.now (report_tree report.now)) }
{
    if report.latency > MOST_LATENCY {
        return Err(NetFault::Full);
    }
    let new = stream(
        alloc,
        netlist,
        report.ins.as_slice(),
        report.outs.as_slice(),
        report.slowdown,
        report.latency,
    )?;
    Ok(new)
}

/// The circuit of a compiled program between two channels: the sink gets the results of what the source gave, at whatever pace
/// both go, since the words of each block can be put on the inputs of the circuit. `Full` comes only where it is so large that
/// its cells may be too many.
pub fn streamed(alloc: Global, compiled: &Compiled) -> Result<Netlist, NetFault>
    ensures stream { IfOk result (λ new. IsStream compiled.now.netlist new (report_tree compiled.now.report).slowdown (report_tree compiled.now.report).latency (report_tree compiled.now.report).ins (report_tree compiled.now.report).outs) }
    ensures fed { IfOk result (λ _. CanBeFed compiled.now.netlist.cells (program_tree compiled.now.costed.program) (report_tree compiled.now.report).ins) }
    ensures full { IfErr result (λ fault. fault ≡ NetFault.Full → MayLackRoom compiled.now.netlist (report_tree compiled.now.report)) }
{
    can_be_fed();
    let told = compiled.report();
    let netlist = compiled.netlist();
    has_one_run_with(netlist);
    fill_begins(netlist, 0);
    let new = between(alloc, netlist, told)?;
    Ok(new)
}
