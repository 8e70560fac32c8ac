//! What the compiler reads from and writes to: sources and sinks of bytes, in memory and over std's readers and writers.
#![tactic(auto)]

mod sink;
mod source;
mod std_edge;
mod transfer;

pub use sink::{GiveFault, MemSink, Sink, SureSink};
pub use source::{Failed, MemSource, Source, SureSource};
pub use std_edge::{StdSink, StdSource};
pub use transfer::{LoadFault, PutFault, load, put_all};
