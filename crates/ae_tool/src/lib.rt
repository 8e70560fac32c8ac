//! The compiler's one call: words, input and output in, a status out.
#![tactic(auto)]

mod answer;
mod call;
mod command;
mod outcomes;
mod serve;

pub use ae_jobs::{Reply, Status, VFaultKind, refusal_line};
pub use call::aeth;
pub use command::{Command, command_named, demo_size};
pub use outcomes::outcome;
