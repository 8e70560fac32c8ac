// The sums of the words of a run.

ghost use Rattle.std.specs.Prelude.{◌≡◌, ◌+◌, ◌-◌, ◌*◌, ◌<◌, ◌≤◌, ◌^◌, length, map, All, IfOk, if◌then◌else◌};
ghost use Rattle.std.specs.List.{sum};
ghost use Rattle.ae_sttype.specs.StTree.{st_tree, time};
ghost use Rattle.ae_sttype.specs.Size.{IsInSize};
ghost use Rattle.ae_play.specs.Fed.{blocks_of};
ghost use Rattle.ae_play.specs.Fits.{TakesBlocks};
ghost use Rattle.ae_play.specs.Lines.{clock_count};
ghost use Rattle.ae_play.specs.Sums.{ArePlayedSums, all_stand};
ghost use Rattle.ae_play.specs.WordSums.{AreWithClock, HaveRoom};

use crate::blocks::{Blocks, play_blocks};
use crate::clocks::{clock_count, stands};
use crate::stepping::Monitor;
use ae_netlist::Netlist;
use ae_sttype::{Slowdown, StType};
use std::alloc::{AllocError, Global};

/// What is summed of a run.
#[derive(Clone, Copy, Debug)]
pub struct Sums {
    /// How many words the outputs show in the clocks in which all results stand.
    pub valid: u64,
    /// The sum of these words.
    pub valid_sum: u128,
    /// The sum of the words of all clocks.
    pub whole_sum: u128,
}

// Whether an element of each result stands in the clock.
fn all_stand(outs: &[StType], slowdown: Slowdown, latency: u32, clock: u32) -> bool
    requires { All (λ s. IsInSize s × (time s ≡ slowdown)) (map st_tree outs.now) }
    ensures { result ≡ all_stand slowdown latency (map st_tree outs.now) clock }
{
    for s in outs {
        if !stands(s, slowdown, latency, clock) {
            return false;
        }
    }
    true
}

// The sum of words.
fn sum_words(words: &[u64]) -> u128
    requires { length words.now < 2 ^ 32 }
    ensures is { result ≡ sum words.now }
    ensures few { result ≤ length words.now * 18446744073709551615 }
{
    let mut all = 0;
    for word in words {
        all += u128::from(*word);
    }
    all
}

// The sums with those of one clock more, in which so many outputs show words with this sum.
fn with_clock(sums: Sums, outputs: u32, words: u128, stands: bool) -> Sums
    requires valid { sums.valid + outputs < 2 ^ 64 }
    requires valid_sum { sums.valid_sum + words < 2 ^ 128 }
    requires whole_sum { sums.whole_sum + words < 2 ^ 128 }
    ensures valid { result.valid ≡ sums.valid + (if stands then outputs else 0) }
    ensures valid_sum { result.valid_sum ≡ sums.valid_sum + (if stands then words else 0) }
    ensures whole_sum { result.whole_sum ≡ sums.whole_sum + words }
{
    let whole_sum = sums.whole_sum + words;
    if stands {
        Sums {
            valid: sums.valid + u64::from(outputs),
            valid_sum: sums.valid_sum + words,
            whole_sum,
        }
    } else {
        Sums { whole_sum, ..sums }
    }
}

// Sums the words of each clock.
#[derive(Clone, Copy)]
struct WordSummer<'a> {
    outs: &'a [StType],
    slowdown: Slowdown,
    latency: u32,
}

impl Monitor for WordSummer<'_> {
    type Kept = Sums;

    ghost within = { λ m c sums. All (λ s. IsInSize s × (time s ≡ m.slowdown)) (map st_tree m.outs.now) × HaveRoom c sums };

    ghost takes = { λ m c row words old new. AreWithClock (all_stand m.slowdown m.latency (map st_tree m.outs.now) c) words old new };

    fn take(
        &self,
        sums: &mut Sums,
        clock: u32,
        _row: &[u64],
        words: &[u64],
    ) -> Result<(), AllocError> {
        let stands = all_stand(self.outs, self.slowdown, self.latency, clock);
        *sums = with_clock(*sums, words.len() as u32, sum_words(words), stands);
        Ok(())
    }
}

/// The sums of the words that a circuit shows where it takes blocks of words, each value's in row-major order: the clocks
/// and the words are those whose lines `write_clocks` writes. The work grows with the clocks times the circuit's cells and
/// ports. The error comes only for want of memory.
pub fn sum_clocks(
    alloc: Global,
    nl: &Netlist,
    fed: &Blocks<'_>,
    outs: &[StType],
    latency: u32,
) -> Result<Sums, AllocError>
    requires takes { TakesBlocks nl.now.cells fed.now.slowdown fed.now.fill (map st_tree fed.now.ins.now) fed.now.count fed.now.words.now }
    requires outs { All (λ s. IsInSize s × (time s ≡ fed.now.slowdown)) (map st_tree outs.now) }
    requires few { clock_count fed.now.slowdown latency fed.now.count < 2 ^ 32 }
    ensures { IfOk result (λ sums. ArePlayedSums nl.now fed.now.slowdown latency fed.now.fill (map st_tree fed.now.ins.now) (map st_tree outs.now) (blocks_of (map st_tree fed.now.ins.now) fed.now.count fed.now.words.now) sums) }
{
    let clocks = clock_count(fed.slowdown, latency, fed.count);
    let summer = WordSummer {
        outs,
        slowdown: fed.slowdown,
        latency,
    };
    let mut sums = Sums {
        valid: 0,
        valid_sum: 0,
        whole_sum: 0,
    };
    play_blocks(alloc, nl, fed, clocks, &summer, &mut sums)?;
    Ok(sums)
}
