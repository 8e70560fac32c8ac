//! Space-time types: in which clock and on which lane each element of a value stands.
#![tactic(auto)]

mod slowdown;
mod st_type;

pub use slowdown::Slowdown;
pub use st_type::{Slot, StType};
