//! Why a line goes on with no program: the field, and the rule of the forms of lines that it breaks.
#![tactic(auto)]

mod above;
mod forms;
mod lines;
mod nodes;
mod spelling;

pub use lines::bad_line;
