// What every stage is.

ghost use Rattle.std.specs.Prelude.{◌≡◌, ◌≤◌, ◌+◌, length, IfOk, OnOk};
ghost use Rattle.ae_netlist.specs.Counts.{AreWhole, count_of, is_memory, is_mul};
ghost use Rattle.ae_netlist.specs.Room.{HasRoom};
ghost use Rattle.ae_gates.specs.Cells.{Grows};
ghost use Rattle.ae_clocked.specs.Phases.{Belongs, KeepsCounters};
ghost use Rattle.ae_ops.specs.Waves.{AreNets};
ghost use Rattle.ae_ops.specs.Blocks.{AreBundles, KeepsLaw, Part, stream_widths};

use crate::bundle::Bundle;
use ae_clocked::Clocks;
use ae_netlist::Netlist;
use std::alloc::{AllocError, Global};

/// A part of a circuit that takes a block of values each period.
pub trait Stage {
    // what the stage is
    ghost part: { Self → Part };

    /// The clocks of a block.
    fn period(&self) -> u32
        ensures { result ≡ (part self.now).period };

    /// The clocks from its arguments to its result.
    fn latency(&self) -> u32
        ensures { result ≡ (part self.now).latency };

    /// Builds the stage for arguments whose block 0 begins in clock `arrival` after reset.
    fn build(
        &self,
        alloc: Global,
        nl: &mut Netlist,
        clocks: &mut Clocks,
        ins: &[Bundle],
        arrival: u32,
    ) -> Result<Bundle, AllocError>
        requires belongs { Belongs clocks.old nl.old.cells }
        requires bundles { AreBundles nl.old.cells (part self.now).ins ins.now }
        requires room { HasRoom nl.old (part self.now).most_cells }
        ensures belongs { OnOk result (Belongs clocks.new nl.new.cells) }
        ensures keeps { OnOk result (KeepsCounters clocks.old clocks.new) }
        ensures grows { OnOk result (Grows nl.old nl.new) }
        ensures cells { OnOk result (length nl.new.cells ≤ length nl.old.cells + (part self.now).most_cells) }
        ensures muls { OnOk result (count_of is_mul nl.new.cells ≡ count_of is_mul nl.old.cells + (part self.now).products) }
        ensures memories { OnOk result (count_of is_memory nl.new.cells ≤ count_of is_memory nl.old.cells + (part self.now).most_memories) }
        ensures whole { OnOk result (AreWhole nl.old.cells → AreWhole nl.new.cells) }
        ensures bundle { IfOk result (λ out. AreNets nl.new.cells (stream_widths (part self.now).out) out) }
        ensures law { IfOk result (λ out. KeepsLaw nl.new.cells clocks.old.rst arrival (part self.now) ins.now out) };
}
