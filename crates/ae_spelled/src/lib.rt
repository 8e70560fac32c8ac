//! What the text of a netlist means by the Verilog profile: the module that it spells, and that module's runs.
#![tactic(auto)]

mod laws;

pub use laws::{
    listings_are_short, listings_spell, module_keeps, names_are_free, spelled_once, streams_spell,
};
