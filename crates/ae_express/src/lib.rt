//! Expressions of a module as cells of a netlist.
#![tactic(auto)]

mod expressions;
mod forms;
mod given;
mod maybe_net;
mod measure;
mod own;
mod reads;

pub use given::{given_word, own_word};
pub use maybe_net::MaybeNet;
pub use own::name_width;
pub use reads::{address, net_of};
