//! The columns of a move: each output column chooses by phases, and a register holds a word for a period.
#![tactic(auto)]

mod choices;
mod held;
mod holding;
mod phases;
mod steps;

pub use choices::column;
pub use held::{all_nets, all_settled, kept_count};
pub use phases::{counter_for, counters, counting, offset};
pub use steps::{Counters, PhaseNet, Step};
