// Words that come back some clocks later.

ghost use Rattle.std.specs.Prelude.{ℕ, ◌+◌, ◌-◌, ◌%◌, ◌^◌, ◌≤◌, length, IfOk, OnOk};
ghost use Rattle.ae_netlist.specs.Circuit.{IsNet};
ghost use Rattle.ae_netlist.specs.Runs.{HasWords, InEveryResetRun, InEveryRun, InEveryRunFrom};
ghost use Rattle.ae_netlist.specs.Room.{HasRoom};
ghost use Rattle.ae_gates.specs.Cells.{Adds};
ghost use Rattle.ae_clocked.specs.Signals.{IsLater};
ghost use Rattle.ae_clocked.specs.Delays.{IsLate};
ghost use Rattle.ae_clocked.specs.Rings.{AddsMemories, rings};
ghost use Rattle.ae_ops.specs.Folds.{IsFold};
ghost use Rattle.ae_fold.specs.Folding.{product_of};
ghost use Rattle.ae_fold.specs.Feedback.{AddsStores, Continues, IsJoined, IsPlace, MayPlace, TurnsAlways, TurnsIn};

use crate::words::WordFold;
use ae_clocked::{close, delayed, look, register, ring_depth, store};
use ae_gates::{choose, constant, sum};
use ae_netlist::{NetId, Netlist};
use ae_ops::combined;
use ae_word::Width;
use std::alloc::AllocError;

/// A counter of the clocks after reset that goes round with so many bits: the places of rings, memories that are written in
/// every clock.
#[derive(Clone, Copy)]
pub struct RingCounter {
    pub net: NetId,
    pub bits: u32,
}

/// A net that is some clocks late.
fn trail(nl: &mut Netlist, x: NetId, width: Width, count: u32) -> Result<NetId, AllocError>
    requires net { IsNet nl.old.cells x.0 width }
    requires room { HasRoom nl.old count }
    ensures adds { OnOk result (Adds nl.old nl.new count 0) }
    ensures net { IfOk result (λ y. IsNet nl.new.cells y.0 width) }
    ensures words { IfOk result (λ y. InEveryRunFrom (length nl.old.cells) nl.new.cells (λ run. IsLate run y.0 x.0 count)) }
{
    let mut last = x;
    for i in 0..count {
        last = delayed(nl, last, width)?;
    }
    Ok(last)
}

/// The word that `x` had some clocks before, from a ring of its own that is written at a counter. It is read a clock early
/// and kept in a register, as block RAM is read.
fn ringed(
    nl: &mut Netlist,
    at: RingCounter,
    x: NetId,
    width: Width,
    delay: u32,
) -> Result<NetId, AllocError>
    requires net { IsNet nl.old.cells x.0 width }
    requires late { 2 ≤ delay }
    requires place { IsPlace nl.old.cells delay at }
    requires room { HasRoom nl.old 6 }
    ensures adds { OnOk result (AddsMemories nl.old nl.new 6 1) }
    ensures net { IfOk result (λ y. IsNet nl.new.cells y.0 width) }
    ensures words { IfOk result (λ y. InEveryRunFrom (length nl.old.cells) nl.new.cells (λ run. (start : ℕ) → HasWords run start at.net.0 (λ c. c % 2 ^ at.bits) → IsLater run start y.0 x.0 delay)) }
{
    let memory = store(nl, x, at.net, width, at.bits)?;
    let places = ring_depth(at.bits);
    let bits = Width { bits: at.bits };
    let back = constant(nl, bits, u64::from(places - (delay - 1)))?;
    let place = sum(nl, at.net, back, bits)?;
    let word = look(nl, memory, place, width, at.bits)?;
    let kept = delayed(nl, word, width)?;
    Ok(kept)
}

/// The word that `x` had some clocks before: from a ring, where there is a counter for it and the words that wait have more
/// than 64 bits, and else from registers. It takes at most as many cells as clocks.
fn waiting(
    nl: &mut Netlist,
    ring: Option<RingCounter>,
    x: NetId,
    width: Width,
    delay: u32,
) -> Result<NetId, AllocError>
    requires net { IsNet nl.old.cells x.0 width }
    requires place { MayPlace nl.old.cells delay ring }
    requires room { HasRoom nl.old delay }
    ensures adds { OnOk result (AddsMemories nl.old nl.new delay (rings (delay + 1))) }
    ensures net { IfOk result (λ y. IsNet nl.new.cells y.0 width) }
    ensures words { IfOk result (λ y. InEveryRunFrom (length nl.old.cells) nl.new.cells (λ run. (start : ℕ) → TurnsIn run start ring → IsLater run start y.0 x.0 delay)) }
{
    if let Some(at) = ring {
        if delay >= 8 && delay > 64 / width.bits() {
            let kept = ringed(nl, at, x, width, delay)?;
            return Ok(kept);
        }
    }
    let last = trail(nl, x, width, delay)?;
    Ok(last)
}

/// A register, and the net that has its word of some clocks before.
#[derive(Clone, Copy)]
pub struct Loop {
    pub word: NetId,
    pub back: NetId,
}

/// A register that takes the word of `x` where `first` is 1, and else its own of `inner` clocks before combined with
/// that of `x`; and the net that has its word of `inner - 1` clocks before, which may wait in a ring.
pub fn accumulate(
    nl: &mut Netlist,
    ring: Option<RingCounter>,
    fold: WordFold,
    x: NetId,
    first: NetId,
    inner: u32,
) -> Result<Loop, AllocError>
    requires low { 1 ≤ fold.width }
    requires high { fold.width ≤ 64 }
    requires folds { IsFold fold.op }
    requires net { IsNet nl.old.cells x.0 fold.width }
    requires first { IsNet nl.old.cells first.0 1 }
    requires lasting { 1 ≤ inner }
    requires place { MayPlace nl.old.cells (inner - 1) ring }
    requires room { HasRoom nl.old (inner + 9) }
    ensures adds { OnOk result (AddsStores nl.old nl.new (inner + 9) (product_of fold.op) (rings inner)) }
    ensures net { IfOk result (λ y. IsNet nl.new.cells y.word.0 fold.width) }
    ensures back { IfOk result (λ y. IsNet nl.new.cells y.back.0 fold.width) }
    ensures words { IfOk result (λ y. (rst : ℕ) → TurnsAlways nl.old.cells rst ring → InEveryResetRun nl.new.cells rst (λ run start. Continues run start y.word.0 fold.op fold.width x.0 first.0 y.word.0 (inner - 1))) }
    ensures late { IfOk result (λ y. (rst : ℕ) → TurnsAlways nl.old.cells rst ring → InEveryResetRun nl.new.cells rst (λ run start. IsLater run start y.back.0 y.word.0 (inner - 1))) }
{
    let width = Width { bits: fold.width };
    let r = register(nl, width)?;
    let back = waiting(nl, ring, r, width, inner - 1)?;
    let both = combined(nl, fold.op, back, x, width)?;
    let next = choose(nl, first, x, both, width)?;
    close(nl, r, next);
    Ok(Loop { word: r, back })
}

/// A register that takes the word of `x` where `first` is 1, and else that of a loop combined with it.
pub fn follow(
    nl: &mut Netlist,
    fold: WordFold,
    x: NetId,
    first: NetId,
    back: NetId,
) -> Result<NetId, AllocError>
    requires low { 1 ≤ fold.width }
    requires high { fold.width ≤ 64 }
    requires folds { IsFold fold.op }
    requires net { IsNet nl.old.cells x.0 fold.width }
    requires first { IsNet nl.old.cells first.0 1 }
    requires back { IsNet nl.old.cells back.0 fold.width }
    requires room { HasRoom nl.old 10 }
    ensures adds { OnOk result (Adds nl.old nl.new 10 (product_of fold.op)) }
    ensures net { IfOk result (λ z. IsNet nl.new.cells z.0 fold.width) }
    ensures words { IfOk result (λ z. InEveryRun nl.new.cells (λ run. (start y d : ℕ) → IsLater run start back.0 y d → Continues run start z.0 fold.op fold.width x.0 first.0 y d)) }
{
    let width = Width { bits: fold.width };
    let both = combined(nl, fold.op, back, x, width)?;
    let next = choose(nl, first, x, both, width)?;
    let z = delayed(nl, next, width)?;
    Ok(z)
}

/// A register of two words combined: it has, in each clock, what they had in the clock before.
pub fn joined(nl: &mut Netlist, fold: WordFold, a: NetId, b: NetId) -> Result<NetId, AllocError>
    requires low { 1 ≤ fold.width }
    requires high { fold.width ≤ 64 }
    requires folds { IsFold fold.op }
    requires left { IsNet nl.old.cells a.0 fold.width }
    requires right { IsNet nl.old.cells b.0 fold.width }
    requires room { HasRoom nl.old 9 }
    ensures adds { OnOk result (Adds nl.old nl.new 9 (product_of fold.op)) }
    ensures net { IfOk result (λ y. IsNet nl.new.cells y.0 fold.width) }
    ensures words { IfOk result (λ y. InEveryRun nl.new.cells (λ run. IsJoined run y.0 fold.op fold.width a.0 b.0)) }
{
    let width = Width { bits: fold.width };
    let both = combined(nl, fold.op, a, b, width)?;
    let y = delayed(nl, both, width)?;
    Ok(y)
}
