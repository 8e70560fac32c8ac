//! Movement programs as one move for each result.
#![tactic(auto)]

mod clocks;
mod kept;
mod labelling;
mod laws;
mod lowering;
mod numbers;
mod results;
mod tracing;
mod wanted;
mod whole;

pub use ae_results::{Certificate, FusedCosts};
pub use kept::{WordLabels, labels_of};
pub use laws::{
    labels_are_traced, latency_is_least, moves_make_blocks, traced_moves, traced_words,
};
pub use whole::{Fused, fuse};
