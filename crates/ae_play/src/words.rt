// The words of all ports in a run.

ghost use Rattle.std.specs.Prelude.{◌≡◌, ◌-◌, ◌<◌, ◌^◌, ◌++◌, map, IfOk};
ghost use Rattle.ae_sttype.specs.StTree.{st_tree};
ghost use Rattle.ae_play.specs.Fed.{blocks_of};
ghost use Rattle.ae_play.specs.Fits.{TakesBlocks};
ghost use Rattle.ae_play.specs.Lines.{clock_count};
ghost use Rattle.ae_play.specs.Words.{ArePlayedWords};

use crate::blocks::{Blocks, play_blocks};
use crate::clocks::clock_count;
use crate::stepping::Monitor;
use ae_netlist::Netlist;
use std::alloc::{AllocError, Global};

// Keeps the words of all ports of each clock.
#[derive(Clone, Copy)]
struct WordKeeper;

impl Monitor for WordKeeper {
    type Kept = Vec<u64>;

    ghost takes = { λ m c row words old new. new.items ≡ (old.items ++ row) ++ words };

    fn take(
        &self,
        all: &mut Vec<u64>,
        _clock: u32,
        row: &[u64],
        words: &[u64],
    ) -> Result<(), AllocError> {
        all.extend_from_slice(row)?;
        all.extend_from_slice(words)?;
        Ok(())
    }
}

/// The words of all inputs, and then of all outputs, of each clock after reset in which a circuit takes blocks of words,
/// each value's in row-major order: the clocks and the words are those whose lines `write_clocks` writes. The work grows
/// with the clocks times the circuit's cells and ports. The error comes only for want of memory.
pub fn clock_words(
    alloc: Global,
    nl: &Netlist,
    fed: &Blocks<'_>,
    latency: u32,
) -> Result<Vec<u64>, AllocError>
    requires takes { TakesBlocks nl.now.cells fed.now.slowdown fed.now.fill (map st_tree fed.now.ins.now) fed.now.count fed.now.words.now }
    requires few { clock_count fed.now.slowdown latency fed.now.count < 2 ^ 32 }
    ensures { IfOk result (λ all. ArePlayedWords nl.now fed.now.slowdown latency fed.now.fill (map st_tree fed.now.ins.now) (blocks_of (map st_tree fed.now.ins.now) fed.now.count fed.now.words.now) all.items) }
{
    let clocks = clock_count(fed.slowdown, latency, fed.count);
    let mut all = Vec::new(alloc);
    play_blocks(alloc, nl, fed, clocks, &WordKeeper, &mut all)?;
    Ok(all)
}
