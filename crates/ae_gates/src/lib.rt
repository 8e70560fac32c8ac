//! The gates of a netlist: one operator, choice or constant, and words that take several, whose words are known in every run.
#![tactic(auto)]

mod cells;
mod compounds;
mod gates;

pub use cells::{
    choose, constant, differ, doubled, either, equal, less, lowest, operate, sum, width_at,
};
pub use compounds::{
    Way, chosen, compared, cut, is_zero, linked, moved_by, opposed, shifted, tested,
};
pub use gates::{fit, fixed, gate, select, widen};
