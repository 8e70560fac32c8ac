//! The parts of texts: lines, fields, names, numbers, types and rows, and the names in scope.
#![tactic(auto)]

mod fields;
mod lines;
mod names;
mod numbers;
mod parts;
mod pieces;
mod rows;
mod scopes;
mod types;

pub use fields::{next_field, said};
pub use lines::next_line;
pub use names::name_text;
pub use numbers::{number, plain, plain_number};
pub use parts::{is_mark, split};
pub use pieces::next_piece;
pub use rows::{RowFault, Table, read_rows};
pub use scopes::Scope;
pub use types::read_type;
