// What a clock does for each cell, and what is held from one clock to the next.

ghost use Rattle.std.specs.Prelude.{◌≡◌, ◌<◌, ◌≤◌, ◌+◌, ◌-◌, ◌%◌, ◌^◌, ℕ, length, get_or, map, slice_get, Some, IfOk, OnOk, cond, ◌++◌, ◌∷◌, []};
ghost use Rattle.ae_netlist.specs.Circuit.{IsFormed};
ghost use Rattle.ae_netlist.specs.Counts.{cells_of, is_input, is_memory, is_register, number_of};
ghost use Rattle.ae_sim.specs.Planned.{filled_memory, memory_for, memory_tree, next_of, register_for, step_for};

use ae_netlist::{Cell, NetId, Netlist, PackedCell, SizedCell};
use ae_word::WordOp;
use std::alloc::{AllocError, Global};

/// What the word of a net is made of in a clock.
#[derive(Clone, Copy)]
pub enum Step {
    /// Always the same word.
    Fixed(u64),
    /// The input of this number.
    Taken(u32),
    /// What the register of this number holds.
    Held(u32),
    /// The word of the memory of this number at the place that a net says.
    Seen {
        memory: u32,
        at: u32,
    },
    /// An operator on the words of three nets; the mask has the bits of the result.
    Made {
        op: WordOp,
        mask: u64,
        a: u32,
        b: u32,
        c: u32,
    },
}

/// The net that a register takes its word from, and what it holds.
#[derive(Clone, Copy)]
pub struct Register {
    pub next: u32,
    pub held: u64,
}

/// The nets that say where, what and when a memory is written, and its words.
#[derive(Drop)]
pub struct Memory {
    pub at: u32,
    pub next: u32,
    pub enable: u32,
    pub words: Vec<u64>,
}

/// How many memories stand before each net.
pub fn memory_numbers(alloc: Global, nl: &Netlist) -> Result<Vec<u32>, AllocError>
    ensures long { IfOk result (λ v. length v.items ≡ length nl.now.cells) }
    ensures counts { IfOk result (λ v. (n : ℕ) → n < length nl.now.cells → get_or v.items n 0 ≡ number_of is_memory nl.now.cells n) }
{
    let mut numbers = Vec::with_capacity(alloc, nl.len() as usize)?;
    let mut before = 0u32;
    for n in 0..nl.len() {
        numbers.push(before)?;
        before += one_if_memory(cell_at(nl, n).cell);
    }
    Ok(numbers)
}

fn one_if_memory(cell: Cell) -> u32
    ensures { result ≡ cond (is_memory cell) 1 0 }
{
    match cell {
        Cell::Mem { .. } => 1,
        Cell::Input(_) | Cell::Const(_) | Cell::Op(_, _) | Cell::Reg { .. } | Cell::Peek { .. } =>
            0,
    }
}

/// 1 for an input, and else 0.
pub fn one_if_input(cell: Cell) -> u32
    ensures { result ≡ cond (is_input cell) 1 0 }
{
    match cell {
        Cell::Input(_) => 1,
        Cell::Const(_) | Cell::Op(_, _) | Cell::Reg { .. } | Cell::Mem { .. } | Cell::Peek { .. } =>
            0,
    }
}

/// 1 for a register, and else 0.
pub fn one_if_register(cell: Cell) -> u32
    ensures { result ≡ cond (is_register cell) 1 0 }
{
    match cell {
        Cell::Reg { .. } => 1,
        Cell::Input(_) | Cell::Const(_) | Cell::Op(_, _) | Cell::Mem { .. } | Cell::Peek { .. } =>
            0,
    }
}

fn cell_at(nl: &Netlist, n: u32) -> SizedCell
    requires { n < length nl.now.cells }
    ensures { slice_get nl.now.cells n ≡ Some result }
{
    match nl.sized(NetId(n)) {
        Some(sized) => sized,
        None => unreachable!(),
    }
}

/// The low bits of a width.
fn mask_of(width: u32) -> u64
    requires low { 1 ≤ width }
    requires high { width ≤ 64 }
    ensures { result ≡ 2 ^ width - 1 }
{
    u64::MAX >> (64 - width)
}

/// The step of one cell, by how many inputs and registers stand before it, and how many memories before each net.
pub fn step_of(
    _cells: &[PackedCell],
    _n: usize,
    sized: SizedCell,
    inputs: u32,
    registers: u32,
    memories: &[u32],
) -> Step
    requires formed { IsFormed _cells.now }
    requires there { slice_get _cells.now _n ≡ Some sized }
    requires inputs { inputs ≡ number_of is_input _cells.now _n }
    requires registers { registers ≡ number_of is_register _cells.now _n }
    requires long { length memories.now ≡ length _cells.now }
    requires counts { (m : ℕ) → m < length _cells.now → get_or memories.now m 0 ≡ number_of is_memory _cells.now m }
    ensures { result ≡ step_for _cells.now _n sized.width sized.cell }
{
    match sized.cell {
        Cell::Input(_) => Step::Taken(inputs),
        Cell::Const(word) => Step::Fixed(word),
        Cell::Op(op, args) => Step::Made {
            op,
            mask: mask_of(sized.width),
            a: args[0].0,
            b: args[1].0,
            c: args[2].0,
        },
        Cell::Reg { .. } => Step::Held(registers),
        Cell::Mem { .. } => Step::Fixed(0),
        Cell::Peek { mem, at } => Step::Seen {
            memory: memories[mem.0 as usize],
            at: at.0,
        },
    }
}

/// The registers, each of which begins as the fill.
pub fn registers_of(alloc: Global, nl: &Netlist, fill: u64) -> Result<Vec<Register>, AllocError>
    ensures { IfOk result (λ v. v.items ≡ map (register_for fill) (cells_of is_register nl.now.cells)) }
{
    nl.formed();
    let mut registers = Vec::new(alloc);
    for n in 0..nl.len() {
        let sized = cell_at(nl, n);
        push_register(&mut registers, sized, low_fill(nl, n, fill))?;
    }
    Ok(registers)
}

fn push_register(
    registers: &mut Vec<Register>,
    sized: SizedCell,
    held: u64,
) -> Result<(), AllocError>
    ensures { OnOk result (registers.new.items ≡ registers.old.items ++ map (λ s. record { next = next_of s.cell; held = held }) (cells_of is_register (sized ∷ []))) }
{
    if let Cell::Reg { next } = sized.cell {
        registers.push(Register { next: next.0, held })?;
    }
    Ok(())
}

/// The fill, modulo 2 to the width of a net.
fn low_fill(nl: &Netlist, n: u32, fill: u64) -> u64
    requires { n < length nl.now.cells }
    ensures { (sized : SizedCell) → slice_get nl.now.cells n ≡ Some sized → result ≡ fill % 2 ^ sized.width }
{
    nl.formed();
    let sized = cell_at(nl, n);
    fill & mask_of(sized.width)
}

/// The memories, each word of which begins as the fill.
pub fn memories_of(alloc: Global, nl: &Netlist, fill: u64) -> Result<Vec<Memory>, AllocError>
    ensures { IfOk result (λ v. map memory_tree v.items ≡ map (memory_for fill) (cells_of is_memory nl.now.cells)) }
{
    nl.formed();
    let mut memories = Vec::new(alloc);
    for n in 0..nl.len() {
        let sized = cell_at(nl, n);
        push_memory(alloc, &mut memories, sized, low_fill(nl, n, fill))?;
    }
    Ok(memories)
}

fn push_memory(
    alloc: Global,
    memories: &mut Vec<Memory>,
    sized: SizedCell,
    word: u64,
) -> Result<(), AllocError>
    ensures { OnOk result (map memory_tree memories.new.items ≡ map memory_tree memories.old.items ++ map (filled_memory word) (cells_of is_memory (sized ∷ []))) }
{
    if let Cell::Mem {
        depth,
        at,
        next,
        enable,
    } = sized.cell
    {
        let words = vec![in alloc; word; depth as usize]?;
        memories.push(Memory {
            at: at.0,
            next: next.0,
            enable: enable.0,
            words,
        })?;
    }
    Ok(())
}
