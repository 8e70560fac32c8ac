//! The moves of a program's results, one for each: what they cost together, and a word that shows their latency.
#![tactic(auto)]

mod certificate;
mod costs;
mod result;

pub use certificate::{Certificate, certify};
pub use costs::{
    Columns, FusedCosts, ResultCosts, all_columns, latest_result, result_costs, whole_load,
    whole_mems,
};
pub use result::FusedResult;
