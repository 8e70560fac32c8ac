//! The value of a program on words.
#![tactic(auto)]

mod folds;
mod functions;
mod lines;
mod moves;
mod plain;
mod program;
mod stack;
mod starts;
mod words;

pub use program::{Evaluator, eval, fits};
