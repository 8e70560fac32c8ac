//! What programs in space and time make of words, and that it is what the program means.
#![tactic(auto)]

mod laws;

pub use laws::{flows_fit, flows_mean, schedules_fit};
