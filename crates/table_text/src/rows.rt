// Rows of words for the inputs of a netlist, and those of its outputs.

ghost use Rattle.std.specs.Prelude.{◌≤◌, IsTrue, length};
ghost use Rattle.ae_netlist.specs.Rows.{AreInputs};

use crate::page::Page;
use ae_netlist::Netlist;
use ae_sim::Sim;

/// Whether a row has one word for each input, each below two to its width.
pub fn fits(nl: &Netlist, row: &[u64]) -> bool
    ensures { IsTrue result → AreInputs nl.now.cells row.now }
{
    if nl.inputs() as usize != row.len() {
        return false;
    }
    for k in 0..nl.inputs() {
        match nl.input_width(k) {
            Some(width) => {
                if width >= 64 || row[k as usize] >= 1u64 << width {
                    return false;
                }
            }
            None => return false,
        }
    }
    true
}

/// The words of the outputs in the clock of the last step, from one of them on.
pub fn tell_outputs(out: &mut Page, sim: &Sim<'_>, from: u32, outputs: u32)
    requires { outputs ≤ length sim.now.outlets }
{
    for k in from..outputs {
        out.tell(" ", &sim.output(k));
    }
}
