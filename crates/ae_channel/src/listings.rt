// The listing of a circuit between two channels.

ghost use Rattle.std.specs.Prelude.{◌≡◌, ◌+◌, ◌<◌, ◌≤◌, [], IfErr, IfOk, length, string_bytes};
ghost use Rattle.ae_netlist.specs.Counts.{AreWhole};
ghost use Rattle.ae_verilog.specs.NetlistModule.{HavePorts};
ghost use Rattle.ae_verilog.specs.ReportLines.{report_tree};
ghost use Rattle.ae_spelled.specs.Short.{IsShort};
ghost use Rattle.ae_channel.specs.Listings.{IsListedAs};

use ae_netlist::{NetFault, Netlist};
use ae_spelled::{module_keeps, names_are_free, spelled_once, streams_spell};
use ae_verilog::{Report, write_stream};
use std::alloc::Global;

// How many cells and outputs a module may have, so that it is not too heavy.
const MOST_CELLS: u64 = 2_499_999;

/// The listing of a circuit under a name, behind report lines and the line `// stream`. `Full` comes only where it has too many cells and outputs.
pub fn listing(
    alloc: Global,
    netlist: &Netlist,
    report: &Report,
    name: &str,
) -> Result<String, NetFault>
    requires short { IsShort (report_tree report.now) [] [] [] }
    requires ports { HavePorts netlist.now.cells netlist.now.outlets (length (report_tree report.now).outs) }
    requires whole { AreWhole netlist.now.cells }
    ensures listed { IfOk result (λ text. IsListedAs (report_tree report.now) name.now netlist.now (string_bytes text)) }
    ensures full { IfErr result (λ fault. fault ≡ NetFault.Full → 2500000 ≤ length netlist.now.cells + length netlist.now.outlets) }
{
    streams_spell();
    names_are_free();
    module_keeps();
    spelled_once();
    let cells = u64::from(netlist.len()) + u64::from(netlist.outputs());
    if cells > MOST_CELLS {
        return Err(NetFault::Full);
    }
    let text = write_stream(alloc, netlist, report, name)?;
    Ok(text)
}
