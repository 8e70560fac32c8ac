//! What the runs of a module of the Verilog profile are, and when a netlist has the same.
#![tactic(auto)]

mod laws;

pub use laws::{guards_do, one_run, same_runs};
