//! Programs: functions on sequences, one statement a line; their types, their meaning, and the type checker.
#![tactic(auto)]

mod checker;
mod formed;
mod line_type;
mod program;

pub use checker::{CheckFault, Typed, check};
pub use formed::{has_arguments, is_name};
pub use program::{Func, Node, Op, Param, Program};
