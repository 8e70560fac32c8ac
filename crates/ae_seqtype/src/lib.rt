//! Sequence types, and values as their words in row-major order.
#![tactic(auto)]

mod seq_type;
mod value;

pub use seq_type::SeqType;
pub use value::Value;
