//! The control between two channels: its gates, its registers, and the queues that it steers.
#![tactic(auto)]

mod driver;
mod parts;
mod queues;

pub use driver::{Controlled, Wires, control};
pub use queues::columns;
