// Reading back the text that was written.

ghost use Rattle.std.specs.Prelude.{◌≡◌, ◌<◌, ◌^◌, List, ℕ, length, IfOk};
ghost use Rattle.ae_vmodule.specs.ModuleTree.{ModuleTree};
ghost use Rattle.ae_vread.specs.Spells.{Spells};
ghost use Rattle.ae_vmodule.specs.View.{module_tree};
ghost use Rattle.ae_judge.specs.Faults.{IsWellFormed};
ghost use Rattle.ae_runs.specs.SameRuns.{HasSameRuns};

use crate::faults::OutOfMemory;
use ae_elab::{ElabFault, elaborate};
use ae_netlist::Netlist;
use ae_vmodule::VModule;
use ae_vread::{VFault, read};
use std::alloc::Global;

// What is left of a module's faults where it has none.
fn memory_alone(fault: ElabFault) -> OutOfMemory
    requires { fault ≡ ElabFault.Memory }
{
    match fault {
        ElabFault::Memory => OutOfMemory,
        _ => unreachable!(),
    }
}

// The same of a text that spells a module.
fn text_memory_alone(fault: VFault) -> OutOfMemory
    requires { fault ≡ VFault.Memory }
{
    match fault {
        VFault::Memory => OutOfMemory,
        _ => unreachable!(),
    }
}

// The netlist of a well-formed module.
fn netlist_of(alloc: Global, m: &VModule<'_>) -> Result<Netlist, OutOfMemory>
    requires spelled { (text : List ℕ) × (length text < 2 ^ 32) × Spells text (module_tree m.now) }
    requires formed { IsWellFormed (module_tree m.now) }
    ensures { IfOk result (λ nl. HasSameRuns (module_tree m.now) nl) }
{
    match elaborate(alloc, m) {
        Ok(nl) => Ok(nl),
        Err(fault) => Err(memory_alone(fault)),
    }
}

// The netlist of the well-formed module that a text of fewer than 2 to the 32 bytes spells: it has the module's runs. The
// error comes only for want of memory.
pub fn read_back(alloc: Global, text: &str) -> Result<Netlist, OutOfMemory>
    requires short { length text.now < 2 ^ 32 }
    requires formed { (m : ModuleTree) × Spells text.now m × IsWellFormed m }
    ensures { IfOk result (λ nl. (m : ModuleTree) → Spells text.now m → HasSameRuns m nl) }
{
    match read(alloc, text.as_bytes()) {
        Ok(m) => netlist_of(alloc, &m),
        Err(fault) => Err(text_memory_alone(fault)),
    }
}
