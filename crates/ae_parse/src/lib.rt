//! The program that a text says.
#![tactic(auto)]

mod fn_lines;
mod op_lines;
mod op_words;
mod parser;
mod program_text;

pub use ae_fields::{
    RowFault, Scope, Table, name_text, next_field, next_line, next_piece, number, plain_number,
    read_rows, said, split,
};
pub use program_text::{ParseFault, parse};
