//! Waves as value change dumps, both ways.
#![tactic(auto)]

mod body;
mod codes;
mod expected;
mod header;
mod laws;
mod read;
mod reader;
mod shapes;
mod wave;
mod words;
mod write;

pub use laws::{
    comments_are_passed, dumps_are_read, texts_are_dumps, waves_are_formed, waves_are_one,
    words_are_judged,
};
pub use read::{VcdFault, read_vcd};
pub use wave::Wave;
pub use write::write_vcd;
