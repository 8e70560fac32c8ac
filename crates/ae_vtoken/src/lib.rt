//! The tokens of a Verilog text of the profile.
#![tactic(auto)]

mod cursor;
mod decimals;
mod gaps;
mod marks;
mod scan;
mod sized;
mod token;
mod words;

pub use cursor::{BadToken, Tokens};
pub use token::{Key, Sign, Token};
