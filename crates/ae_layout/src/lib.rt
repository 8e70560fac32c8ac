//! Values laid out on rows of words, one for each clock, and taken up again.
#![tactic(auto)]

mod iter;
mod row;
mod rows;
mod walk;

pub use iter::SlotIter;
pub use row::push_layout;
pub use rows::{Rows, lay_out, take_up};
pub use walk::slots;
