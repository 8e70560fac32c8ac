//! The netlist of a circuit between two channels.
#![tactic(auto)]

mod layouts;
mod marking;
mod room;
mod streaming;
mod wrapping;

pub use marking::{Marks, add_marks};
pub use streaming::stream;
