//! What registers and memories take at a clock edge, as cells of a netlist.
#![tactic(auto)]

mod nexts;
mod statements;

pub use nexts::Nexts;
pub use statements::{Next, act};
