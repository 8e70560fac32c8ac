// What the runs of a netlist are.

ghost use Rattle.ae_netlist.specs.Rows.{AreFirsts, HasOneRunWith, filled};
ghost use Rattle.ae_netlist.specs.Runs.{HasOneRun};

use crate::netlist::Netlist;

/// For any inputs and any first words a netlist has exactly one run.
pub fn has_one_run(netlist: &Netlist)
    ensures { HasOneRun netlist.now.cells }
{
    netlist.formed();
}

/// For rows of one fitting word an input, and fitting first words of registers and memories, each by its number, a
/// netlist has exactly one run with one clock for each row.
pub fn has_one_run_with(netlist: &Netlist)
    ensures { HasOneRunWith netlist.now.cells }
{
    netlist.formed();
}

/// A fill, modulo 2 to each width, is a first word for each register and each place of a memory.
pub fn fill_begins(netlist: &Netlist, fill: u64)
    ensures { AreFirsts netlist.now.cells (filled netlist.now.cells fill) }
{
    netlist.formed();
}
