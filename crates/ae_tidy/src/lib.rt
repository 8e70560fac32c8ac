//! Netlists with fewer cells that show the same.
#![tactic(auto)]

mod append;
mod copy;
mod look;
mod mark;
mod moved;
mod seen;
mod table;
mod tidying;

pub use moved::all_moved;
pub use tidying::{Tidied, tidy};
