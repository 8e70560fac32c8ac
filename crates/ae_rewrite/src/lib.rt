//! Layouts: in which clocks and on which lanes the elements of a sequence lie. Schedules: each function of a program
//! under each budget that it is reached with.
#![tactic(auto)]

mod calls;
mod cases;
mod layout;
mod plan;
mod reach;
mod schedules;
mod st_program;

pub use cases::Case;
pub use layout::{LayFault, lay};
pub use schedules::{PlanFault, schedule};
pub use st_program::{MoveOp, StFunc, StNode, StOp, StProgram};
