//! Prefix folds of the elements of a block as a stage: a sweep over lanes, and behind it a loop over slots.
#![tactic(auto)]

mod scanning;
mod stage;
mod sweep;

pub use stage::Scan;
