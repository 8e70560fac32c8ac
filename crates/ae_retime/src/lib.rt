//! Slacks: by how many clocks the items of a schedule wait for others that they are used with, as in the retiming of
//! Leiserson and Saxe (Algorithmica, 1991).
#![tactic(auto)]

mod slacks;
mod uses;

pub use slacks::{Slacks, matching};
