// The stepping of a circuit.

ghost use Rattle.std.specs.Prelude.{◌≡◌, ◌+◌, ◌-◌, ◌<◌, ◌≤◌, ◌^◌, ◌++◌, ℕ, ⊤, List, length, map, OnOk};
ghost use Rattle.std.specs.List.{range_with_len};
ghost use Rattle.ae_netlist.specs.Rows.{AreInputs};
ghost use Rattle.ae_netlist.specs.Runs.{Clock};
ghost use Rattle.ae_sim.specs.Playing.{HasPlayed, Plays};
ghost use Rattle.ae_play.specs.Keeps.{Keeps};
ghost use Rattle.ae_play.specs.Lines.{shown_words};

use ae_sim::Sim;
use std::alloc::{AllocError, Global};

/// What stands on a circuit's inputs, clock by clock.
pub trait Stimulus {
    /// What holds in a clock for which it has words.
    ghost has: { Self → ℕ → Type 0 } = { λ _ _. ⊤ };

    /// The words of a clock, one for each input.
    ghost given: { Self → ℕ → List ℕ };

    /// Sets the row to the words of a clock. The error comes only for want of memory.
    fn set(&self, row: &mut Vec<u64>, clock: u32) -> Result<(), AllocError>
        requires { has self.now clock }
        ensures { OnOk result (row.new.items ≡ given self.now clock) };
}

/// What is kept of a run, clock by clock.
pub trait Monitor {
    type Kept;

    /// What holds of what is kept before a clock.
    ghost within: { Self → ℕ → Self.Kept → Type 0 } = { λ _ _ _. ⊤ };

    /// What a clock makes of it, by its number, the words of the inputs and those of the outputs.
    ghost takes: { Self → ℕ → List ℕ → List ℕ → Self.Kept → Self.Kept → Type 0 };

    /// Takes a clock with the words of the inputs and those of the outputs. The error comes only for want of memory.
    fn take(
        &self,
        kept: &mut Self::Kept,
        clock: u32,
        row: &[u64],
        words: &[u64],
    ) -> Result<(), AllocError>
        requires within { within self.now clock kept.old }
        requires few { length words.now < 2 ^ 32 }
        ensures takes { OnOk result (takes self.now clock row.now words.now kept.old kept.new) }
        ensures within { OnOk result (within self.now (clock + 1) kept.new) };
}

// Sets the words to those of the outputs in the last clock.
fn set_words(words: &mut Vec<u64>, sim: &Sim<'_>, outputs: u32) -> Result<(), AllocError>
    requires { outputs ≡ length sim.now.outlets }
    ensures long { OnOk result (length words.new.items ≡ outputs) }
    ensures are { OnOk result ((fill : ℕ) (rows : List (List ℕ)) (run : List Clock) → HasPlayed sim.now fill rows → 1 ≤ length rows → Plays sim.now.cells fill rows run
        → words.new.items ≡ shown_words sim.now.outlets run (length rows - 1)) }
{
    words.clear();
    for k in 0..outputs {
        words.push(sim.output(k))?;
    }
    Ok(())
}

/// Steps a circuit over so many clocks with the words that the stimulus gives, and hands each clock to the monitor;
/// `outputs` is how many outputs the circuit has. The work grows with the clocks times the circuit's cells and ports. The
/// error comes only for want of memory.
pub fn play<S: Stimulus, M: Monitor>(
    alloc: Global,
    sim: &mut Sim<'_>,
    outputs: u32,
    stimulus: &S,
    clocks: u32,
    monitor: &M,
    kept: &mut M::Kept,
) -> Result<(), AllocError>
    requires outputs { outputs ≡ length sim.old.outlets }
    requires has { (c : ℕ) → c < clocks → S.has stimulus.now c }
    requires rows { (c : ℕ) → c < clocks → AreInputs sim.old.cells (S.given stimulus.now c) }
    requires within { M.within monitor.now 0 kept.old }
    ensures { OnOk result ((fill : ℕ) (rows : List (List ℕ)) (run : List Clock) → HasPlayed sim.old fill rows → Plays sim.old.cells fill (rows ++ map (S.given stimulus.now) (range_with_len 0 clocks)) run
        → Keeps (M.takes monitor.now) (S.given stimulus.now) (λ c. shown_words sim.old.outlets run (length rows + c)) kept.old clocks kept.new) }
{
    let mut row = Vec::new(alloc);
    let mut words = Vec::new(alloc);
    for clock in 0..clocks {
        stimulus.set(&mut row, clock)?;
        sim.step(row.as_slice());
        set_words(&mut words, sim, outputs)?;
        monitor.take(kept, clock, row.as_slice(), words.as_slice())?;
    }
    Ok(())
}
