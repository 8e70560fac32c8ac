//! Modules of the Verilog profile, as trees, and the texts that spell them.
#![tactic(auto)]

mod expressions;
mod header;
mod items;
mod lists;
mod reader;
mod reading;
mod statements;

pub use ae_vtoken::{BadToken, Key, Sign, Token};
pub use reader::{VFault, read};
