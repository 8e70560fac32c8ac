//! Moves of words between layouts, in hardware.
#![tactic(auto)]

mod cost;
mod early;
mod joining;
mod layouts;
mod moving;
mod places;
mod plan;
mod reading;
mod reads;
mod rings;
mod stage;

pub use ae_moves::Origin;
pub use stage::Gather;
