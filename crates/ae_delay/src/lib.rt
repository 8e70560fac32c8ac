//! When the items of a schedule arrive, and what its instances cost.
#![tactic(auto)]

mod known;
mod moves;
mod own;
mod timing;
mod uses;
mod weighing;

pub use known::KnownMoves;
pub use moves::origins;
pub use timing::{DelayFault, Timing, arrivals, arrivals_reusing, arrivals_within};
pub use uses::layout;
pub use weighing::Cost;
