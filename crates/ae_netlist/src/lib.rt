//! Netlists of words, registers and memories, how they are built, and what their runs are.
#![tactic(auto)]

mod cell;
mod input_nets;
mod netlist;
mod packed;
mod runs;

pub use cell::{Cell, Handshake, NetId, Outlet, Port, SizedCell};
pub use netlist::{NetFault, Netlist};
pub use packed::PackedCell;
pub use runs::{fill_begins, has_one_run, has_one_run_with};
