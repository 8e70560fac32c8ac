//! Moves between layouts: where each word comes from, the trips that it takes, and what they cost.
#![tactic(auto)]

mod costs;
mod layouts;
mod mems;
mod origins;
mod trip;

pub use costs::{Costs, are_within, move_costs, trips_latency};
pub use layouts::{all_trips, latency};
pub use mems::{held_columns, most_registers, rings};
pub use origins::is_move;
pub use trip::{Choice, Origin, Source, Trip};
