//! What the programs that answer tables of cases share: the words and numbers of a line, the rows of a netlist, and the page
//! of the answers.
#![tactic(auto)]

mod page;
mod rows;
mod words;

pub use page::Page;
pub use rows::{fits, tell_outputs};
pub use words::{names_width, number_at, numbers, operator, parted, word_at};
