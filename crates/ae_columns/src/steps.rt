// The steps of an output column, and the counter that they follow.

use ae_moves::Choice;
use ae_netlist::NetId;

/// A choice from a phase on, and the place of its tap in the line of its column.
#[derive(Clone, Copy)]
pub struct Step {
    pub from: u32,
    pub take: Choice,
    pub tap: u32,
}

/// The net of a counter, what it counts, and a limit below which the phases are in which something is asked.
#[derive(Clone, Copy)]
pub struct PhaseNet {
    pub net: NetId,
    pub period: u32,
    pub offset: u32,
    pub limit: u32,
}

/// The counter of the clocks of trips, and the one that is a clock ahead of it.
#[derive(Clone, Copy)]
pub struct Counters {
    pub later: PhaseNet,
    pub sooner: PhaseNet,
}
