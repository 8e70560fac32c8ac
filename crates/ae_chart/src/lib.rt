//! The schedules of a program, shown to a person: what the circuit of each slowdown costs, as a table, and which element stands on
//! which lane in which clock, as a picture or as text.
#![tactic(auto)]

mod drawing;
mod frame;
mod moves;
mod slowdowns;
mod svg;

pub use drawing::draw_text;
pub use moves::load_of_moves;
pub use slowdowns::{Range, table};
pub use svg::draw_svg;
