//! The circuit of a program between two channels with valid and ready, and the text of its module.
#![tactic(auto)]

mod channels;
mod listings;
mod texts;

pub use texts::stream_text;
