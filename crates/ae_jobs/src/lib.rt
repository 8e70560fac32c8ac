//! What each job answers to its input: a status, and a text.
#![tactic(auto)]

mod blocks;
mod build_job;
mod check_job;
mod check_text;
mod cost_table;
mod demo_job;
mod eval_job;
mod least_job;
mod plan_job;
mod plan_text;
mod refusal;
mod reply;
mod run_job;
mod sim_job;
mod stall_job;
mod status;
mod unwave_job;
mod wave_text;
mod widths;

pub use build_job::build;
pub use check_job::check;
pub use demo_job::demo;
pub use eval_job::eval;
pub use least_job::least;
pub use plan_job::{cost_of_lines, plan};
pub use refusal::refusal_line;
pub use reply::{Reply, refused};
pub use run_job::{Form, run};
pub use sim_job::simulate;
pub use stall_job::stall;
pub use status::{Status, VFaultKind};
pub use unwave_job::unwave;
