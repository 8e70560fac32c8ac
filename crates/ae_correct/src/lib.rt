//! When a module is correct for a program, and that the module of a program's circuit is.
#![tactic(auto)]

mod laws;

pub use laws::{circuits_are_correct, circuits_are_writable, runs_are_alike, runs_are_shown};
