//! Registers, counters and delay lines, whose words follow the clocks after reset.
#![tactic(auto)]

mod clocks;
mod counter;
mod lines;
mod marks;
mod registers;
mod ring;
mod row;
mod rows;

pub use clocks::{Clocks, Phase};
pub use lines::{Tapped, line, ring_line};
pub use registers::{close, delayed, register};
pub use ring::{Ring, look, ring_depth, store};
pub use rows::Rings;
