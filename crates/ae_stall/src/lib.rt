//! Netlists that stand still where a net is 0.
#![tactic(auto)]

mod copy;
mod hold;
mod look;
mod stalling;

pub use copy::copy_with;
pub use hold::{HoldBy, hold_copy};
pub use stalling::stall;
