//! From a module of the Verilog profile to a netlist with the same runs, or to the module's first fault.
#![tactic(auto)]

mod build;
mod declare;
mod edges;
mod outputs;
mod wires;

pub use ae_judge::ElabFault;
pub use ae_runs::{guards_do, one_run, same_runs};
pub use build::elaborate;
