//! The compiler, as a list of passes: what a program's circuit costs, the circuit with what is told of it, the text of its
//! module, and the netlist that this text is read back as.
#![tactic(auto)]

mod circuits;
mod costing;
mod costs;
mod faults;
mod layouts;
mod notes;
mod playing;
mod ports;
mod read_back;
mod stalling;
mod texts;
mod typing;

pub use circuits::{Compiled, compile};
pub use costing::{Costed, LOAD_LIMIT, STALL_LIMIT, cost, cost_stalled};
pub use costs::Costs;
pub use faults::{CompileFault, OutOfMemory};
pub use playing::play;
pub use ports::module_ports;
pub use stalling::{Stalled, compile_stalled};
pub use texts::{module_text, stalled_text};
pub use typing::typed;
