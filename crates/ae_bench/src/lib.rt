//! Verilog that is written around the module of a program: a test bench, which compares it with what the program means, and a
//! wrapper, by which a design uses it.
#![tactic(auto)]

mod bench;
mod wires;
mod wrapper;

pub use bench::bench_text;
pub use wrapper::wrapper_text;
