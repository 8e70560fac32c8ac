//! The first fault of a module of the Verilog profile, up to loops and weight, and the names that it declares.
#![tactic(auto)]

mod fault;
mod judging;
mod kinds;
mod maybe_place;
mod names;
mod places;
mod reads;
mod seen;
mod shape;
mod twice;
mod unknown;
mod weigh;
mod widths;

pub use fault::ElabFault;
pub use judging::judge;
pub use kinds::{clock_of, is_named};
pub use maybe_place::MaybePlace;
pub use names::Names;
pub use shape::spelled_shape;
pub use weigh::is_large;
