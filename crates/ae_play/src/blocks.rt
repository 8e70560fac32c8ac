// The run of a circuit on blocks of words.

ghost use Rattle.std.specs.Prelude.{◌≡◌, ◌+◌, ◌*◌, ◌∷◌, [], List, length, map, OnOk, IfOk, All};
ghost use Rattle.ae_sttype.specs.StTree.{st_tree, time};
ghost use Rattle.ae_sttype.specs.Size.{IsInSize};
ghost use Rattle.ae_netlist.specs.Rows.{AreInputs, IsRunWith, filled};
ghost use Rattle.ae_netlist.specs.Runs.{Clock};
ghost use Rattle.ae_sim.specs.Playing.{HasPlayed};
ghost use Rattle.ae_play.specs.Fed.{blocks_of, clock_row, fed_rows, fill_row, size_of};
ghost use Rattle.ae_play.specs.Fits.{TakesBlocks};
ghost use Rattle.ae_play.specs.Keeps.{Keeps};
ghost use Rattle.ae_play.specs.Lines.{shown_words};

use crate::rows::{push_block, push_fill};
use crate::stepping::{Monitor, Stimulus, play};
use ae_netlist::{Netlist, fill_begins, has_one_run_with};
use ae_sim::Sim;
use ae_sttype::{Slowdown, StType};
use std::alloc::{AllocError, Global};

/// So many blocks of words, each value's in row-major order, of which one is taken every `slowdown` clocks; the fill stands
/// wherever no element does.
#[derive(Clone, Copy)]
pub struct Blocks<'a> {
    /// The layouts of the values of a block.
    pub ins: &'a [StType],
    /// The words of all blocks, one block behind the other.
    pub words: &'a [u64],
    /// How many blocks there are.
    pub count: usize,
    /// How many clocks a block is long.
    pub slowdown: Slowdown,
    /// What stands on the inputs where no element does, cut to the width of each input.
    pub fill: u64,
}

impl Stimulus for Blocks<'_> {
    ghost has = { λ b c. All (λ s. IsInSize s × (time s ≡ b.slowdown)) (map st_tree b.ins.now) × (length b.words.now ≡ b.count * size_of (map st_tree b.ins.now)) };

    ghost given = { λ b c. clock_row b.slowdown b.fill (map st_tree b.ins.now) (blocks_of (map st_tree b.ins.now) b.count b.words.now) c };

    fn set(&self, row: &mut Vec<u64>, clock: u32) -> Result<(), AllocError> {
        row.clear();
        row.push(0)?;
        let slowdown = self.slowdown.clocks();
        let block = (clock / slowdown) as usize;
        if block < self.count {
            let size = self.words.len() / self.count;
            let first = block * size;
            push_block(
                row,
                self.ins,
                &self.words[first..first + size],
                clock % slowdown,
                self.fill,
            )
        } else {
            push_fill(row, self.ins, self.fill)
        }
    }
}

// A simulator of the circuit after a clock of reset, with the fill in registers and memories and on the inputs.
fn begun<'n>(
    alloc: Global,
    nl: &'n Netlist,
    ins: &[StType],
    fill: u64,
) -> Result<Sim<'n>, AllocError>
    requires sized { All IsInSize (map st_tree ins.now) }
    requires row { AreInputs nl.now.cells (1 ∷ fill_row fill (map st_tree ins.now)) }
    ensures cells { IfOk result (λ sim. sim.cells ≡ nl.now.cells) }
    ensures outlets { IfOk result (λ sim. sim.outlets ≡ nl.now.outlets) }
    ensures plays { IfOk result (λ sim. HasPlayed sim fill ((1 ∷ fill_row fill (map st_tree ins.now)) ∷ [])) }
{
    let mut sim = Sim::new(alloc, nl, fill)?;
    let mut row = Vec::new(alloc);
    row.push(1)?;
    push_fill(&mut row, ins, fill)?;
    sim.step(row.as_slice());
    Ok(sim)
}

/// Plays blocks on a circuit for so many clocks after a clock of reset, and hands these clocks to the monitor; the run begins
/// with the fill in registers and memories. The work grows with the clocks times the circuit's cells and ports. The error
/// comes only for want of memory.
pub fn play_blocks<M: Monitor>(
    alloc: Global,
    nl: &Netlist,
    blocks: &Blocks<'_>,
    clocks: u32,
    monitor: &M,
    kept: &mut M::Kept,
) -> Result<(), AllocError>
    requires takes { TakesBlocks nl.now.cells blocks.now.slowdown blocks.now.fill (map st_tree blocks.now.ins.now) blocks.now.count blocks.now.words.now }
    requires within { M.within monitor.now 0 kept.old }
    ensures { OnOk result ((run : List Clock)
        × IsRunWith nl.now.cells (fed_rows blocks.now.slowdown blocks.now.fill (map st_tree blocks.now.ins.now) (blocks_of (map st_tree blocks.now.ins.now) blocks.now.count blocks.now.words.now) clocks) (filled nl.now.cells blocks.now.fill) run
        × Keeps (M.takes monitor.now) (clock_row blocks.now.slowdown blocks.now.fill (map st_tree blocks.now.ins.now) (blocks_of (map st_tree blocks.now.ins.now) blocks.now.count blocks.now.words.now)) (λ c. shown_words nl.now.outlets run (1 + c)) kept.old clocks kept.new) }
{
    let mut sim = begun(alloc, nl, blocks.ins, blocks.fill)?;
    play(alloc, &mut sim, nl.outputs(), blocks, clocks, monitor, kept)?;
    has_one_run_with(nl);
    fill_begins(nl, blocks.fill);
    Ok(())
}
