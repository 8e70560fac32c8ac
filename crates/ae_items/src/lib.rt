//! What a person asks of a compiled program, by its names: the items of the program function with their layouts and arrivals, the
//! ports of its module with the words on them, the two parts of an input, and why there is no answer.
#![tactic(auto)]

mod blocks;
mod fault;
mod items;
mod ports;

pub use blocks::{program_part, rows_part};
pub use fault::KitFault;
pub use items::{Item, clocks, count, element, item_at, lanes, layout_of};
pub use ports::{BitRange, Bundle, Column, PortName, Role, inputs, item_of, outputs};
