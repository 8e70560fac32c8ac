//! What a circuit shows of its run on blocks of values, clock by clock.
#![tactic(auto)]

mod blocks;
mod clocks;
mod fits;
mod rows;
mod stepping;
mod sums;
mod words;

pub use blocks::Blocks;
pub use clocks::{write_clocks, write_words};
pub use fits::can_be_fed;
pub use stepping::{Monitor, Stimulus, play};
pub use sums::{Sums, sum_clocks};
pub use words::clock_words;
