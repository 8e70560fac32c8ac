// What circuits show of their runs on blocks of words.

ghost use Rattle.std.specs.Prelude.{◌≡◌, ◌*◌, ◌<◌, ◌≤◌, ◌^◌, ◌∷◌, [], ℕ, IfSome, IsTrue, length, map, get_or};
ghost use Rattle.ae_sttype.specs.StTree.{st_tree};
ghost use Rattle.ae_netlist.specs.declared.cell.SizedCell.{SizedCell};
ghost use Rattle.ae_netlist.specs.Counts.{cells_of, is_input};
ghost use Rattle.ae_seqtype.specs.SeqTree.{repeated};
ghost use Rattle.ae_seqtype.specs.ValueTree.{FitKinds};
ghost use Rattle.table_circuits.specs.Bytes.{byte_kind};
ghost use Rattle.ae_play.specs.Fits.{TakesBlocks};
ghost use Rattle.ae_play.specs.Lines.{clock_count};

use crate::netlists::built;
use ae_netlist::Netlist;
use ae_play::{Blocks, can_be_fed, sum_clocks, write_clocks};
use ae_sttype::{Slowdown, StType};
use ae_word::Atom;
use std::alloc::{AllocError, Global};
use table_text::{Page, number_at, numbers, parted, word_at};

// Whether the inputs have these widths.
fn has_widths(nl: &Netlist, widths: &[u32]) -> bool
    ensures { IsTrue result → map (λ (sized : SizedCell). sized.width) (cells_of is_input nl.now.cells) ≡ widths.now }
{
    if nl.inputs() as usize != widths.len() {
        return false;
    }
    for k in 0..nl.inputs() {
        match nl.input_width(k) {
            Some(width) if width == widths[k as usize] => (),
            _ => return false,
        }
    }
    true
}

// Whether these are words of eight bits.
fn are_bytes(words: &[u64]) -> bool
    ensures { IsTrue result → (k : ℕ) → k < length words.now → get_or words.now k 0 < 256 }
{
    for word in words {
        if *word >= 256 {
            return false;
        }
    }
    true
}

// The number of blocks of two bytes that the words are.
#[tactic(auto, using(crate::proofs::Fed::bytes_fit))]
fn byte_pairs(words: &[u64]) -> Option<usize>
    ensures whole { IfSome result (λ n. length words.now ≡ n * 2) }
    ensures few { IfSome result (λ n. n ≤ 4096) }
    ensures fit { IfSome result (λ n. FitKinds words.now (repeated n (byte_kind ∷ byte_kind ∷ []))) }
{
    let count = words.len() / 2;
    if are_bytes(words) && count * 2 == words.len() && count <= 4096 {
        Some(count)
    } else {
        None
    }
}

// The lines of a run on blocks, and its sums; parameter and result have one layout.
fn play(alloc: Global, out: &mut Page, nl: &Netlist, fed: &Blocks<'_>, latency: u32)
    requires takes { TakesBlocks nl.now.cells fed.now.slowdown fed.now.fill (map st_tree fed.now.ins.now) fed.now.count fed.now.words.now }
    requires few { clock_count fed.now.slowdown latency fed.now.count < 2 ^ 32 }
{
    let done = write_clocks(alloc, out.text(), nl, fed, fed.ins, latency);
    out.note(done);
    match sum_clocks(alloc, nl, fed, fed.ins, latency) {
        Ok(sums) => {
            out.show("", &sums);
            out.say("\n");
        }
        Err(_) => out.cut(),
    }
}

// Two bytes one after the other, and a clock without one: `TSeq 2 1 u8`.
fn play_slots(
    alloc: Global,
    out: &mut Page,
    nl: &Netlist,
    latency: u32,
    words: &[u64],
    fill: u64,
) -> Result<(), AllocError> {
    let Some(blocks) = byte_pairs(words) else {
        return Ok(());
    };
    if latency > 4096 {
        return Ok(());
    }
    if !has_widths(nl, &[1, 8]) {
        return Ok(());
    }
    let of = Box::new(alloc, StType::Atom(Atom::Word(8)))?;
    let layout = vec![in alloc; StType::T { n: 2, i: 1, of }]?;
    let Some(slowdown) = Slowdown::of(3) else {
        return Ok(());
    };
    can_be_fed();
    let fed = Blocks {
        ins: layout.as_slice(),
        words,
        count: blocks,
        slowdown,
        fill,
    };
    play(alloc, out, nl, &fed, latency);
    Ok(())
}

// Two bytes side by side: `SSeq 2 u8`.
fn play_lanes(
    alloc: Global,
    out: &mut Page,
    nl: &Netlist,
    latency: u32,
    words: &[u64],
    fill: u64,
) -> Result<(), AllocError> {
    let Some(blocks) = byte_pairs(words) else {
        return Ok(());
    };
    if latency > 4096 {
        return Ok(());
    }
    if !has_widths(nl, &[1, 8, 8]) {
        return Ok(());
    }
    let of = Box::new(alloc, StType::Atom(Atom::Word(8)))?;
    let layout = vec![in alloc; StType::S { n: 2, of }]?;
    let slowdown = Slowdown::one();
    can_be_fed();
    let fed = Blocks {
        ins: layout.as_slice(),
        words,
        count: blocks,
        slowdown,
        fill,
    };
    play(alloc, out, nl, &fed, latency);
    Ok(())
}

// The words of all blocks.
fn play_words(
    alloc: Global,
    out: &mut Page,
    nl: &Netlist,
    how: &str,
    words: &[u64],
) -> Result<(), AllocError> {
    let latency = number_at(how, 1);
    let fill = u64::from(number_at(how, 2));
    match word_at(how, 0) {
        "slots" => play_slots(alloc, out, nl, latency, words, fill),
        "lanes" => play_lanes(alloc, out, nl, latency, words, fill),
        _ => Ok(()),
    }
}

/// A netlist, and the lines and the sums of its run on blocks of two bytes: `slots` one after the other, `lanes` side by
/// side; behind that stand the latency and the fill.
pub fn tell(alloc: Global, out: &mut Page, head: &str, body: &str) {
    let (calls, run) = parted(body, "%% ");
    let (how, blocks) = parted(run, "\n");
    let nl = built(alloc, out, head, calls);
    out.say("%% ");
    out.say(how);
    out.say("\n");
    let Ok(words) = numbers(alloc, blocks) else {
        return out.cut();
    };
    let done = play_words(alloc, out, &nl, how, &words);
    out.note(done);
}
