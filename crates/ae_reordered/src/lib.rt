//! The order of a module's items is nothing.
#![tactic(auto)]

mod laws;

pub use laws::orders_are_alike;
