//! From a program in space and time to a netlist.
#![tactic(auto)]

mod calls;
mod circuit;
mod items;
mod laws;
mod nodes;
mod ports;
mod sections;
mod stages;
mod wires;

pub use circuit::{Lowered, MOST_CELLS, lower};
pub use items::later;
pub use laws::circuits_are_for;
pub use ports::{add_input, add_inputs, add_outputs};
pub use sections::Section;
