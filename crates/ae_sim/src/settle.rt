// One clock: the words of all cells, and then the edge.

ghost use Rattle.std.specs.Prelude.{◌≡◌, ◌<◌, ℕ, length, get_or, map, slice_get, Some};
ghost use Rattle.ae_netlist.specs.Counts.{is_memory, number_of};
ghost use Rattle.ae_netlist.specs.Rows.{AreFirsts, AreInputs};
ghost use Rattle.ae_netlist.proofs.Given.{store_in, word_in};
ghost use Rattle.ae_netlist.proofs.Settled.{IsSettled};
ghost use Rattle.ae_sim.specs.declared.plan.Register.{Register};
ghost use Rattle.ae_sim.specs.declared.plan.Memory.{Memory};
ghost use Rattle.ae_sim.specs.Planned.{FitBelow, Gives, IsAfter, IsReady, held_of, turned, written};

use crate::gate::compute;
use crate::plan::{Memory, Register, Step, one_if_input, one_if_register, step_of};
use ae_netlist::Netlist;

/// The word that a step gives.
fn word_of(
    step: Step,
    words: &[u64],
    inputs: &[u64],
    registers: &[Register],
    memories: &[Memory],
) -> u64
    requires ready { IsReady step (length words.now) (length inputs.now) (length registers.now) (length memories.now) }
    ensures gives { Gives step words.now inputs.now (held_of registers.now memories.now) result }
{
    match step {
        Step::Fixed(word) => word,
        Step::Taken(k) => inputs[k as usize],
        Step::Held(k) => registers[k as usize].held,
        Step::Seen { memory, at } => seen(&memories[memory as usize], words[at as usize]),
        Step::Made { op, mask, a, b, c } => compute(op, mask, words, a, b, c),
    }
}

/// The word of a memory at a place, 0 past its end.
fn seen(memory: &Memory, at: u64) -> u64
    ensures { result ≡ get_or memory.now.words.items at 0 }
{
    match memory.words.get(at as usize) {
        Some(word) => *word,
        None => 0,
    }
}

/// The words of a clock, from what registers and memories hold and from the inputs; `numbers` says how many memories
/// stand before each net.
pub fn settle(
    nl: &Netlist,
    numbers: &[u32],
    words: &mut Vec<u64>,
    inputs: &[u64],
    registers: &[Register],
    memories: &[Memory],
)
    requires numbers { length numbers.now ≡ length nl.now.cells }
    requires counts { (n : ℕ) → n < length nl.now.cells → get_or numbers.now n 0 ≡ number_of is_memory nl.now.cells n }
    requires long { length words.old.items ≡ length nl.now.cells }
    requires inputs { AreInputs nl.now.cells inputs.now }
    requires held { AreFirsts nl.now.cells (held_of registers.now memories.now) }
    ensures long { length words.new.items ≡ length nl.now.cells }
    ensures settled { IsSettled nl.now.cells (word_in nl.now.cells (held_of registers.now memories.now) inputs.now) (store_in nl.now.cells (held_of registers.now memories.now)) words.new.items }
    ensures fits { FitBelow nl.now.cells words.new.items (length nl.now.cells) }
{
    nl.formed();
    let mut taken = 0u32;
    let mut kept = 0u32;
    let cells = nl.cells();
    for n in 0..cells.len() {
        let sized = cells[n].sized();
        let step = step_of(cells, n, sized, taken, kept, numbers);
        let word = word_of(step, words.as_slice(), inputs, registers, memories);
        words[n] = word;
        taken += one_if_input(sized.cell);
        kept += one_if_register(sized.cell);
    }
}

/// Every register takes its next word.
pub fn turn(registers: &mut Vec<Register>, words: &[u64])
    requires inside { (k : ℕ) (r : Register) → slice_get registers.old.items k ≡ Some r → r.next < length words.now }
    ensures { registers.new.items ≡ map (turned words.now) registers.old.items }
{
    for k in 0..registers.len() {
        let next = registers[k].next;
        registers[k].held = words[next as usize];
    }
}

/// Every memory is written where it is enabled.
pub fn write_all(memories: &mut Vec<Memory>, words: &[u64])
    requires inside { (k : ℕ) (m : Memory) → slice_get memories.old.items k ≡ Some m → (m.at < length words.now) × (m.next < length words.now) × (m.enable < length words.now) }
    ensures long { length memories.new.items ≡ length memories.old.items }
    ensures written { (k : ℕ) (m : Memory) → slice_get memories.old.items k ≡ Some m → IsAfter words.now m memories.new.items k }
{
    for k in 0..memories.len() {
        write(&mut memories[k], words);
    }
}

fn write(memory: &mut Memory, words: &[u64])
    requires at { memory.old.at < length words.now }
    requires next { memory.old.next < length words.now }
    requires enable { memory.old.enable < length words.now }
    ensures at { memory.new.at ≡ memory.old.at }
    ensures next { memory.new.next ≡ memory.old.next }
    ensures enable { memory.new.enable ≡ memory.old.enable }
    ensures words { memory.new.words.items ≡ written words.now memory.old memory.old.words.items }
{
    let at = words[memory.at as usize] as usize;
    let word = words[memory.next as usize];
    if words[memory.enable as usize] == 1 && at < memory.words.len() {
        memory.words[at] = word;
    }
}
