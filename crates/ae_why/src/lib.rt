//! Refusals explained to a person: where on the line it is, which rule failed, what was found, and what is near it.
#![tactic(auto)]

mod layouts;
mod loads;
mod module;
mod moves;
mod rows;
mod sorts;
mod types;
mod watch;
mod waves;
mod words;

pub use layouts::no_layout;
pub use loads::{large_moves, too_large};
pub use module::{ModuleFault, bad_module};
pub use moves::not_moves;
pub use rows::{bad_row, bad_sim_row, long_run};
pub use types::bad_type;
pub use watch::Watch;
pub use waves::bad_wave;
pub use words::bad_words;
