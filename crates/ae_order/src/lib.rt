//! The equations of the wires of a module, and an order of them, or the module's fault.
#![tactic(auto)]

mod order;
mod places;
mod sort;
mod sparse;

pub use order::{drive_values, sorted_wires};
pub use places::{place_number, place_of};
pub use sparse::Sparse;
