// Gates whose words are told by those of their operands, whatever these are by.

ghost use Rattle.std.specs.Prelude.{◌≡◌, ◌≢◌, ◌<◌, ◌≤◌, ◌%◌, ◌==◌, ◌^◌, ℕ, List, length, false, if◌then◌else◌, IfOk, OnOk};
ghost use Rattle.ae_word.specs.WordTable.{HasRange, is_signed, result_width_of, word_result};
ghost use Rattle.ae_netlist.specs.Circuit.{IsNet};
ghost use Rattle.ae_netlist.specs.Runs.{Clock};
ghost use Rattle.ae_netlist.specs.Room.{HasRoom};
ghost use Rattle.ae_gates.specs.Cells.{AddsGates, IsWord};

use crate::cells::{choose, constant, operate};
use ae_netlist::{NetId, Netlist};
use ae_word::{Width, WordOp};
use std::alloc::AllocError;

/// The same word in each clock.
pub fn fixed(nl: &mut Netlist, from: u32, width: u32, word: u64) -> Result<NetId, AllocError>
    requires from { from ≤ length nl.old.cells }
    requires low { 1 ≤ width }
    requires high { width ≤ 64 }
    requires fits { word < 2 ^ width }
    requires room { HasRoom nl.old 1 }
    ensures adds { OnOk result (AddsGates nl.old nl.new 1) }
    ensures net { IfOk result (λ y. IsNet nl.new.cells y.0 width) }
    ensures word { IfOk result (λ y. IsWord from nl.new.cells y.0 width (λ run t. word)) }
{
    let y = constant(nl, Width { bits: width }, word)?;
    Ok(y)
}

/// The result of an operator on two nets of one width, or on one net twice.
pub fn gate(
    nl: &mut Netlist,
    from: u32,
    op: WordOp,
    a: NetId,
    b: NetId,
    width: u32,
    wide: u32,
) -> Result<NetId, AllocError>
    requires from { from ≤ length nl.old.cells }
    requires low { 1 ≤ wide }
    requires high { wide ≤ 64 }
    requires unsigned { is_signed op ≡ false }
    requires range { HasRange op }
    requires plain { op ≢ WordOp.Mux }
    requires left { IsNet nl.old.cells a.0 width }
    requires right { IsNet nl.old.cells b.0 width }
    requires result { wide ≡ result_width_of op width }
    requires room { HasRoom nl.old 1 }
    ensures adds { OnOk result (AddsGates nl.old nl.new 1) }
    ensures net { IfOk result (λ y. IsNet nl.new.cells y.0 wide) }
    ensures word { IfOk result (λ y. (f g : List Clock → ℕ → ℕ) → IsWord from nl.old.cells a.0 width f → IsWord from nl.old.cells b.0 width g → IsWord from nl.new.cells y.0 wide (λ run t. word_result op width (f run t) (g run t) (f run t))) }
{
    let y = operate(nl, op, [a, b, a], Width { bits: wide })?;
    Ok(y)
}

/// The word of `a` where the bit is 1, and else that of `b`.
pub fn select(
    nl: &mut Netlist,
    from: u32,
    bit: NetId,
    a: NetId,
    b: NetId,
    width: u32,
) -> Result<NetId, AllocError>
    requires from { from ≤ length nl.old.cells }
    requires low { 1 ≤ width }
    requires high { width ≤ 64 }
    requires bit { IsNet nl.old.cells bit.0 1 }
    requires left { IsNet nl.old.cells a.0 width }
    requires right { IsNet nl.old.cells b.0 width }
    requires room { HasRoom nl.old 1 }
    ensures adds { OnOk result (AddsGates nl.old nl.new 1) }
    ensures net { IfOk result (λ y. IsNet nl.new.cells y.0 width) }
    ensures word { IfOk result (λ y. (h f g : List Clock → ℕ → ℕ) → IsWord from nl.old.cells bit.0 1 h → IsWord from nl.old.cells a.0 width f → IsWord from nl.old.cells b.0 width g → IsWord from nl.new.cells y.0 width (λ run t. if h run t == 1 then f run t else g run t)) }
{
    let y = choose(nl, bit, a, b, Width { bits: width })?;
    Ok(y)
}

/// The same word at a width that holds it.
pub fn widen(
    nl: &mut Netlist,
    from: u32,
    x: NetId,
    own: u32,
    width: u32,
) -> Result<NetId, AllocError>
    requires from { from ≤ length nl.old.cells }
    requires low { 1 ≤ width }
    requires high { width ≤ 64 }
    requires net { IsNet nl.old.cells x.0 own }
    requires within { own ≤ width }
    requires room { HasRoom nl.old 1 }
    ensures adds { OnOk result (AddsGates nl.old nl.new 1) }
    ensures net { IfOk result (λ y. IsNet nl.new.cells y.0 width) }
    ensures word { IfOk result (λ y. (f : List Clock → ℕ → ℕ) → IsWord from nl.old.cells x.0 own f → IsWord from nl.new.cells y.0 width f) }
{
    if own == width {
        return Ok(x);
    }
    let y = gate(nl, from, WordOp::Cast(width), x, x, own, width)?;
    Ok(y)
}

/// The lowest bits of a word, or the same word at a greater width.
pub fn fit(nl: &mut Netlist, from: u32, x: NetId, own: u32, width: u32) -> Result<NetId, AllocError>
    requires from { from ≤ length nl.old.cells }
    requires low { 1 ≤ width }
    requires high { width ≤ 64 }
    requires net { IsNet nl.old.cells x.0 own }
    requires room { HasRoom nl.old 1 }
    ensures adds { OnOk result (AddsGates nl.old nl.new 1) }
    ensures net { IfOk result (λ y. IsNet nl.new.cells y.0 width) }
    ensures word { IfOk result (λ y. (f : List Clock → ℕ → ℕ) → IsWord from nl.old.cells x.0 own f → IsWord from nl.new.cells y.0 width (λ run t. f run t % 2 ^ width)) }
{
    if own == width {
        return Ok(x);
    }
    let y = gate(nl, from, WordOp::Cast(width), x, x, own, width)?;
    Ok(y)
}
