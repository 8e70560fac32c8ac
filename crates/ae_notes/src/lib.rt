//! What the names in the module of a program say of it: the line and the word of each port and each net, and how many operators
//! stand between registers on the way to the nets of each line.
#![tactic(auto)]

mod form;
mod nets;
mod notes;
mod operators;
mod paths;

pub use form::NoteForm;
pub use notes::{net_notes, port_notes};
pub use paths::paths_text;
