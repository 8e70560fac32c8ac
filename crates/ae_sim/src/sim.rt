// A simulator.

ghost use Rattle.std.specs.Prelude.{◌≡◌, ◌<◌, ◌≤◌, ◌-◌, ◌++◌, ◌∷◌, [], ℕ, List, length, slice_get, Some, IfOk};
ghost use Rattle.ae_netlist.specs.declared.cell.Outlet.{Outlet};
ghost use Rattle.ae_netlist.specs.Rows.{AreInputs};
ghost use Rattle.ae_netlist.specs.Runs.{Clock, word_at};
ghost use Rattle.ae_sim.specs.Playing.{HasPlayed, Plays};

use crate::plan::{Memory, Register, memories_of, memory_numbers, registers_of};
use crate::settle::{settle, turn, write_all};
use ae_netlist::Netlist;
use std::alloc::{AllocError, Global};
use std::marker::Model;

/// A netlist in the midst of a run.
#[derive(Drop)]
pub struct Sim<'a> {
    nl: &'a Netlist,
    /// How many memories stand before each net.
    numbers: Vec<u32>,
    words: Vec<u64>,
    registers: Vec<Register>,
    memories: Vec<Memory>,
}

impl<'a> Model for Sim<'a> {
    ghost use Rattle.ae_sim.specs.Planned.{IsPlanned, held_of};
    ghost use Rattle.ae_sim.specs.Playing.{Simulated};

    ghost Value = { Simulated };

    ghost view = { λ s. record { cells = s.nl.now.cells; outlets = s.nl.now.outlets; words = s.words.items; held = held_of s.registers.items s.memories.items } };

    ghost invariant = { λ s. IsPlanned s.nl.now.cells s.numbers.items s.words.items s.registers.items s.memories.items };
}

impl Sim<'_> {
    /// A simulator before the first clock: every register and every word of a memory begins as the fill, modulo 2 to
    /// its width. All memory is taken here.
    pub fn new(alloc: Global, nl: &Netlist, fill: u64) -> Result<Sim<'_>, AllocError>
        ensures cells { IfOk result (λ s. s.cells ≡ nl.now.cells) }
        ensures outlets { IfOk result (λ s. s.outlets ≡ nl.now.outlets) }
        ensures begins { IfOk result (λ s. HasPlayed s fill []) }
    {
        let words = vec![in alloc; 0u64; nl.len() as usize]?;
        let numbers = memory_numbers(alloc, nl)?;
        let registers = registers_of(alloc, nl, fill)?;
        let memories = memories_of(alloc, nl, fill)?;
        Ok(Sim {
            nl,
            numbers,
            words,
            registers,
            memories,
        })
    }

    /// One clock, with one word for each input: its outputs can be read afterwards, and the edge at its end is done.
    pub fn step(&mut self, inputs: &[u64])
        requires inputs { AreInputs self.old.cells inputs.now }
        ensures cells { self.new.cells ≡ self.old.cells }
        ensures outlets { self.new.outlets ≡ self.old.outlets }
        ensures plays { (fill : ℕ) (rows : List (List ℕ)) → HasPlayed self.old fill rows → HasPlayed self.new fill (rows ++ inputs.now ∷ []) }
    {
        self.nl.formed();
        settle(
            self.nl,
            self.numbers.as_slice(),
            &mut self.words,
            inputs,
            self.registers.as_slice(),
            self.memories.as_slice(),
        );
        turn(&mut self.registers, self.words.as_slice());
        write_all(&mut self.memories, self.words.as_slice());
    }

    /// The word of an output in the clock of the last step: in every run that begins with the fill and takes the rows
    /// that were stepped, the word of the output's net in the last of these clocks.
    pub fn output(&self, k: u32) -> u64
        requires { k < length self.now.outlets }
        ensures { (outlet : Outlet) (fill : ℕ) (rows : List (List ℕ)) (run : List Clock) → slice_get self.now.outlets k ≡ Some outlet → HasPlayed self.now fill rows → 1 ≤ length rows → Plays self.now.cells fill rows run → result ≡ word_at run (length rows - 1) outlet.net.0 }
    {
        self.nl.formed();
        match self.nl.output(k) {
            Some(outlet) => self.words[outlet.net.0 as usize],
            None => unreachable!(),
        }
    }
}
