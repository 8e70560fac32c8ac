// The lines of a run.

ghost use Rattle.std.specs.Prelude.{◌≡◌, ◌+◌, ◌-◌, ◌*◌, ◌%◌, ◌<◌, ◌^◌, ◌++◌, ◌∷◌, [], ℕ, List, map, OnOk, All, string_bytes};
ghost use Rattle.ae_sttype.specs.StTree.{st_tree, time};
ghost use Rattle.ae_sttype.specs.Size.{IsInSize};
ghost use Rattle.ae_play.specs.Fed.{blocks_of};
ghost use Rattle.ae_play.specs.Fits.{TakesBlocks};
ghost use Rattle.ae_play.specs.Lines.{IsPlayedText, clock_count, clock_line, mark, spaced, stands};

use crate::blocks::{Blocks, play_blocks};
use crate::stepping::Monitor;
use ae_netlist::Netlist;
use ae_sttype::{Slowdown, StType};
use itoa::Buffer;
use std::alloc::{AllocError, Global};

/// How many clocks are shown.
pub fn clock_count(slowdown: Slowdown, latency: u32, blocks: usize) -> u32
    requires few { clock_count slowdown latency blocks < 2 ^ 32 }
    ensures { result ≡ clock_count slowdown latency blocks }
{
    if blocks == 0 {
        0
    } else {
        latency + blocks as u32 * slowdown.clocks()
    }
}

/// Whether an element of a result stands in the clock.
pub fn stands(s: &StType, slowdown: Slowdown, latency: u32, clock: u32) -> bool
    requires { IsInSize (st_tree s.now) }
    ensures { result ≡ stands slowdown latency clock (st_tree s.now) }
{
    latency <= clock && s.live((clock - latency) % slowdown.clocks())
}

// The mark of a result in the clock.
fn mark(s: &StType, slowdown: Slowdown, latency: u32, clock: u32) -> &'static str
    requires { IsInSize (st_tree s.now) }
    ensures { result.now ≡ mark slowdown latency clock (st_tree s.now) ∷ [] }
{
    if stands(s, slowdown, latency, clock) {
        "v"
    } else {
        "."
    }
}

// The marks of all results.
fn write_marks(
    out: &mut String,
    outs: &[StType],
    slowdown: Slowdown,
    latency: u32,
    clock: u32,
) -> Result<(), AllocError>
    requires { All (λ s. IsInSize s × (time s ≡ slowdown)) (map st_tree outs.now) }
    ensures { OnOk result (string_bytes out.new ≡ string_bytes out.old ++ map (mark slowdown latency clock) (map st_tree outs.now)) }
{
    for s in outs {
        out.push_str(mark(s, slowdown, latency, clock))?;
    }
    Ok(())
}

/// Appends words, each with a space before it. The error comes only for want of memory.
pub fn write_words(out: &mut String, words: &[u64]) -> Result<(), AllocError>
    ensures { OnOk result (string_bytes out.new ≡ string_bytes out.old ++ spaced words.now) }
{
    for word in words {
        out.push_str(" ")?;
        out.push_str(Buffer::new().format(*word))?;
    }
    Ok(())
}

// Writes the line of each clock.
#[derive(Clone, Copy)]
struct LineWriter<'a> {
    outs: &'a [StType],
    slowdown: Slowdown,
    latency: u32,
}

impl Monitor for LineWriter<'_> {
    type Kept = String;

    ghost within = { λ m c out. All (λ s. IsInSize s × (time s ≡ m.slowdown)) (map st_tree m.outs.now) };

    ghost takes = { λ m c row words old new. string_bytes new ≡ string_bytes old ++ clock_line m.slowdown m.latency (map st_tree m.outs.now) c words };

    fn take(
        &self,
        out: &mut String,
        clock: u32,
        _row: &[u64],
        words: &[u64],
    ) -> Result<(), AllocError> {
        out.push_str(Buffer::new().format(clock))?;
        out.push_str(" ")?;
        write_marks(out, self.outs, self.slowdown, self.latency, clock)?;
        write_words(out, words)?;
        out.push_str("\n")?;
        Ok(())
    }
}

/// Appends the lines of the clocks after reset in which a circuit takes blocks of words, each value's in row-major order,
/// and gives their results, the latency later; the run begins with the fill in registers and memories, and there is the
/// fill on the inputs wherever no element stands. A block comes every `slowdown` clocks. The work grows with the clocks
/// times the circuit's cells and ports. The error comes only for want of memory.
pub fn write_clocks(
    alloc: Global,
    out: &mut String,
    nl: &Netlist,
    fed: &Blocks<'_>,
    outs: &[StType],
    latency: u32,
) -> Result<(), AllocError>
    requires takes { TakesBlocks nl.now.cells fed.now.slowdown fed.now.fill (map st_tree fed.now.ins.now) fed.now.count fed.now.words.now }
    requires outs { All (λ s. IsInSize s × (time s ≡ fed.now.slowdown)) (map st_tree outs.now) }
    requires few { clock_count fed.now.slowdown latency fed.now.count < 2 ^ 32 }
    ensures { OnOk result ((text : List ℕ) × (string_bytes out.new ≡ string_bytes out.old ++ text) × IsPlayedText nl.now fed.now.slowdown latency fed.now.fill (map st_tree fed.now.ins.now) (map st_tree outs.now) (blocks_of (map st_tree fed.now.ins.now) fed.now.count fed.now.words.now) text) }
{
    let clocks = clock_count(fed.slowdown, latency, fed.count);
    let writer = LineWriter {
        outs,
        slowdown: fed.slowdown,
        latency,
    };
    play_blocks(alloc, nl, fed, clocks, &writer, out)
}
