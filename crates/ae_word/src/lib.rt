//! Words of 1 to 64 bits, atoms made of words, and the operators on words.
#![tactic(auto)]

mod atom;
mod op;
mod result;
mod width;

pub use atom::Atom;
pub use op::{WordOp, arity, folds, latency, main_place, multiplies, op_for, result_width};
pub use result::{apply, fits_width};
pub use width::Width;
