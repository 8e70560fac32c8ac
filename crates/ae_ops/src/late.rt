// A bundle, some clocks later.

ghost use Rattle.std.specs.Prelude.{◌≡◌, ◌≤◌, ◌+◌, ◌*◌, List, ℕ, length, IfOk, OnOk};
ghost use Rattle.ae_netlist.specs.Counts.{AreWhole, count_of, is_memory, is_mul};
ghost use Rattle.ae_netlist.specs.Room.{HasRoom};
ghost use Rattle.ae_gates.specs.Cells.{Grows};
ghost use Rattle.ae_clocked.specs.Phases.{Belongs, KeepsCounters};
ghost use Rattle.ae_clocked.specs.Rings.{rings};
ghost use Rattle.ae_ops.specs.Waves.{AreLate, AreNets, HaveOwnWidths};

use crate::bundle::Bundle;
use ae_clocked::{Clocks, ring_line};
use ae_netlist::{NetId, Netlist};
use std::alloc::{AllocError, Global};

/// The bundle, some clocks later: from clock `slack` after reset on, each net has the word that the one at its place had
/// `slack` clocks before. What waits 8 clocks or longer stands in rings.
pub fn delay(
    alloc: Global,
    nl: &mut Netlist,
    clocks: &mut Clocks,
    bundle: &Bundle,
    slack: u32,
) -> Result<Bundle, AllocError>
    requires belongs { Belongs clocks.old nl.old.cells }
    requires nets { HaveOwnWidths nl.old.cells bundle.now }
    requires room { HasRoom nl.old (length bundle.now * (8 * slack + 4)) }
    ensures belongs { OnOk result (Belongs clocks.new nl.new.cells) }
    ensures keeps { OnOk result (KeepsCounters clocks.old clocks.new) }
    ensures grows { OnOk result (Grows nl.old nl.new) }
    ensures cells { OnOk result (length nl.new.cells ≤ length nl.old.cells + length bundle.now * (8 * slack + 4)) }
    ensures muls { OnOk result (count_of is_mul nl.new.cells ≡ count_of is_mul nl.old.cells) }
    ensures memories { OnOk result (count_of is_memory nl.new.cells ≤ count_of is_memory nl.old.cells + length bundle.now * rings slack) }
    ensures whole { OnOk result (AreWhole nl.old.cells → AreWhole nl.new.cells) }
    ensures nets { IfOk result (λ late. (widths : List ℕ) → AreNets nl.old.cells widths bundle.now → AreNets nl.new.cells widths late) }
    ensures late { IfOk result (λ late. AreLate nl.new.cells clocks.old.rst slack bundle.now late) }
{
    let nets = bundle.nets();
    let mut late = Vec::new(alloc);
    for net in nets {
        let tapped = ring_line(alloc, nl, *net, &[slack], clocks)?;
        late.push(tapped.tap(0))?;
    }
    Ok(Bundle::new(late))
}
