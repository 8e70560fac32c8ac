//! Folds of the elements of a block as a stage: a tree over lanes, and behind it a loop over slots.
#![tactic(auto)]

mod reducing;
mod stage;
mod tree;

pub use stage::Reduce;
