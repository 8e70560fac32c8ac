//! Stepping a netlist clock by clock, over its own cells.
#![tactic(auto)]

mod gate;
mod plan;
mod settle;
mod sim;

pub use sim::Sim;
