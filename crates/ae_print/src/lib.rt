//! The text of a program, and the words of its operators.
#![tactic(auto)]

mod op_names;
mod op_print;
mod printer;

pub use op_names::{op_name, word_name};
pub use printer::print;
