//! When a module with a stall input is correct for a program, and that the module of a stalled circuit is.
#![tactic(auto)]

mod laws;

pub use laws::{stalled_circuits_are_correct, stalled_circuits_are_writable};
