// Words that take several cells.

ghost use Rattle.std.specs.Prelude.{◌≡◌, ◌≢◌, ◌<◌, ◌≤◌, ◌+◌, ◌-◌, ◌*◌, ◌/◌, ◌%◌, ◌==◌, ◌^◌, ℕ, List, length, false, if◌then◌else◌, IfOk, OnOk};
ghost use Rattle.ae_word.specs.WordTable.{HasRange, bit, is_signed, result_width_of, word_result};
ghost use Rattle.ae_netlist.specs.Circuit.{IsNet};
ghost use Rattle.ae_netlist.specs.Runs.{Clock};
ghost use Rattle.ae_netlist.specs.Room.{HasRoom};
ghost use Rattle.ae_gates.specs.Cells.{AddsGates, AreBelow, IsWord};
ghost use Rattle.ae_gates.specs.Shifts.{moved};

use crate::gates::{fixed, gate, select, widen};
use ae_netlist::{NetId, Netlist};
use ae_word::WordOp;
use std::alloc::AllocError;

/// The bit of a comparison, at a width.
#[tactic(auto, using(crate::proofs::Words::net_grows))]
pub fn compared(
    nl: &mut Netlist,
    from: u32,
    op: WordOp,
    a: NetId,
    b: NetId,
    own: u32,
    width: u32,
) -> Result<NetId, AllocError>
    requires from { from ≤ length nl.old.cells }
    requires unsigned { is_signed op ≡ false }
    requires range { HasRange op }
    requires plain { op ≢ WordOp.Mux }
    requires one { result_width_of op own ≡ 1 }
    requires left { IsNet nl.old.cells a.0 own }
    requires right { IsNet nl.old.cells b.0 own }
    requires low { 1 ≤ width }
    requires high { width ≤ 64 }
    requires room { HasRoom nl.old 2 }
    ensures adds { OnOk result (AddsGates nl.old nl.new 2) }
    ensures net { IfOk result (λ y. IsNet nl.new.cells y.0 width) }
    ensures word { IfOk result (λ y. (f g : List Clock → ℕ → ℕ) → IsWord from nl.old.cells a.0 own f → IsWord from nl.old.cells b.0 own g → IsWord from nl.new.cells y.0 width (λ run t. word_result op own (f run t) (g run t) (f run t))) }
{
    let bit = gate(nl, from, op, a, b, own, 1)?;
    let y = widen(nl, from, bit, 1, width)?;
    Ok(y)
}

/// The opposite of the bit of a comparison, at a width.
#[tactic(auto, using(crate::proofs::Words::net_grows))]
pub fn opposed(
    nl: &mut Netlist,
    from: u32,
    op: WordOp,
    a: NetId,
    b: NetId,
    own: u32,
    width: u32,
) -> Result<NetId, AllocError>
    requires from { from ≤ length nl.old.cells }
    requires unsigned { is_signed op ≡ false }
    requires range { HasRange op }
    requires plain { op ≢ WordOp.Mux }
    requires one { result_width_of op own ≡ 1 }
    requires left { IsNet nl.old.cells a.0 own }
    requires right { IsNet nl.old.cells b.0 own }
    requires low { 1 ≤ width }
    requires high { width ≤ 64 }
    requires room { HasRoom nl.old 3 }
    ensures adds { OnOk result (AddsGates nl.old nl.new 3) }
    ensures net { IfOk result (λ y. IsNet nl.new.cells y.0 width) }
    ensures word { IfOk result (λ y. (f g : List Clock → ℕ → ℕ) → IsWord from nl.old.cells a.0 own f → IsWord from nl.old.cells b.0 own g → IsWord from nl.new.cells y.0 width (λ run t. 2 ^ 1 - 1 - word_result op own (f run t) (g run t) (f run t))) }
{
    let bit = gate(nl, from, op, a, b, own, 1)?;
    let turned = gate(nl, from, WordOp::Not, bit, bit, 1, 1)?;
    let y = widen(nl, from, turned, 1, width)?;
    Ok(y)
}

/// Whether a word is 0.
#[tactic(auto, using(crate::proofs::Words::net_grows))]
pub fn is_zero(nl: &mut Netlist, from: u32, a: NetId, own: u32) -> Result<NetId, AllocError>
    requires from { from ≤ length nl.old.cells }
    requires low { 1 ≤ own }
    requires high { own ≤ 64 }
    requires net { IsNet nl.old.cells a.0 own }
    requires room { HasRoom nl.old 2 }
    ensures adds { OnOk result (AddsGates nl.old nl.new 2) }
    ensures net { IfOk result (λ y. IsNet nl.new.cells y.0 1) }
    ensures word { IfOk result (λ y. (f : List Clock → ℕ → ℕ) → IsWord from nl.old.cells a.0 own f → IsWord from nl.new.cells y.0 1 (λ run t. bit (f run t == 0))) }
{
    let zero = fixed(nl, from, own, 0)?;
    let y = gate(nl, from, WordOp::Eq, a, zero, own, 1)?;
    Ok(y)
}

/// Whether neither of two words is 0, by `Or`; whether not both are, by `And`.
#[tactic(auto, using(crate::proofs::Words::net_grows))]
pub fn tested(
    nl: &mut Netlist,
    from: u32,
    op: WordOp,
    a: NetId,
    wa: u32,
    b: NetId,
    wb: u32,
    width: u32,
) -> Result<NetId, AllocError>
    requires from { from ≤ length nl.old.cells }
    requires unsigned { is_signed op ≡ false }
    requires range { HasRange op }
    requires plain { op ≢ WordOp.Mux }
    requires one { result_width_of op 1 ≡ 1 }
    requires a_low { 1 ≤ wa }
    requires a_high { wa ≤ 64 }
    requires b_low { 1 ≤ wb }
    requires b_high { wb ≤ 64 }
    requires left { IsNet nl.old.cells a.0 wa }
    requires right { IsNet nl.old.cells b.0 wb }
    requires low { 1 ≤ width }
    requires high { width ≤ 64 }
    requires room { HasRoom nl.old 7 }
    ensures adds { OnOk result (AddsGates nl.old nl.new 7) }
    ensures net { IfOk result (λ y. IsNet nl.new.cells y.0 width) }
    ensures word { IfOk result (λ y. (f g : List Clock → ℕ → ℕ) → IsWord from nl.old.cells a.0 wa f → IsWord from nl.old.cells b.0 wb g → IsWord from nl.new.cells y.0 width (λ run t. 2 ^ 1 - 1 - word_result op 1 (bit (f run t == 0)) (bit (g run t == 0)) (bit (f run t == 0)))) }
{
    let first = is_zero(nl, from, a, wa)?;
    let second = is_zero(nl, from, b, wb)?;
    let y = opposed(nl, from, op, first, second, 1, width)?;
    Ok(y)
}

/// The word of `b` where the test is 0, and else that of `a`.
#[tactic(auto, using(crate::proofs::Words::net_grows))]
pub fn chosen(
    nl: &mut Netlist,
    from: u32,
    test: NetId,
    own: u32,
    a: NetId,
    b: NetId,
    width: u32,
) -> Result<NetId, AllocError>
    requires from { from ≤ length nl.old.cells }
    requires test_low { 1 ≤ own }
    requires test_high { own ≤ 64 }
    requires test { IsNet nl.old.cells test.0 own }
    requires left { IsNet nl.old.cells a.0 width }
    requires right { IsNet nl.old.cells b.0 width }
    requires low { 1 ≤ width }
    requires high { width ≤ 64 }
    requires room { HasRoom nl.old 3 }
    ensures adds { OnOk result (AddsGates nl.old nl.new 3) }
    ensures net { IfOk result (λ y. IsNet nl.new.cells y.0 width) }
    ensures word { IfOk result (λ y. (h f g : List Clock → ℕ → ℕ) → IsWord from nl.old.cells test.0 own h → IsWord from nl.old.cells a.0 width f → IsWord from nl.old.cells b.0 width g → IsWord from nl.new.cells y.0 width (λ run t. if h run t == 0 then g run t else f run t)) }
{
    let zero = is_zero(nl, from, test, own)?;
    let y = select(nl, from, zero, b, a, width)?;
    Ok(y)
}

/// So many bits of a word, from bit `low` on.
#[tactic(auto, using(crate::proofs::Words::net_grows))]
pub fn cut(
    nl: &mut Netlist,
    from: u32,
    x: NetId,
    own: u32,
    low: u32,
    count: u32,
    width: u32,
) -> Result<NetId, AllocError>
    requires from { from ≤ length nl.old.cells }
    requires own_low { 1 ≤ own }
    requires own_high { own ≤ 64 }
    requires some { 1 ≤ count }
    requires high { width ≤ 64 }
    requires within { count ≤ width }
    requires net { IsNet nl.old.cells x.0 own }
    requires room { HasRoom nl.old 3 }
    ensures adds { OnOk result (AddsGates nl.old nl.new 3) }
    ensures net { IfOk result (λ y. IsNet nl.new.cells y.0 width) }
    ensures word { IfOk result (λ y. (f : List Clock → ℕ → ℕ) → IsWord from nl.old.cells x.0 own f → IsWord from nl.new.cells y.0 width (λ run t. f run t / 2 ^ low % 2 ^ count)) }
{
    let down = gate(nl, from, WordOp::Shr(low), x, x, own, own)?;
    let part = gate(nl, from, WordOp::Cast(count), down, down, own, count)?;
    let y = widen(nl, from, part, count, width)?;
    Ok(y)
}

/// Two words as one, the first in the upper bits.
#[tactic(auto, using(crate::proofs::Words::net_grows))]
pub fn linked(
    nl: &mut Netlist,
    from: u32,
    a: NetId,
    wa: u32,
    b: NetId,
    wb: u32,
) -> Result<NetId, AllocError>
    requires from { from ≤ length nl.old.cells }
    requires low { 1 ≤ wa + wb }
    requires high { wa + wb ≤ 64 }
    requires left { IsNet nl.old.cells a.0 wa }
    requires right { IsNet nl.old.cells b.0 wb }
    requires room { HasRoom nl.old 4 }
    ensures adds { OnOk result (AddsGates nl.old nl.new 4) }
    ensures net { IfOk result (λ y. IsNet nl.new.cells y.0 (wa + wb)) }
    ensures word { IfOk result (λ y. (f g : List Clock → ℕ → ℕ) → IsWord from nl.old.cells a.0 wa f → IsWord from nl.old.cells b.0 wb g → IsWord from nl.new.cells y.0 (wa + wb) (λ run t. f run t * 2 ^ wb + g run t)) }
{
    let width = wa + wb;
    let wide = widen(nl, from, a, wa, width)?;
    let up = gate(nl, from, WordOp::Shl(wb), wide, wide, width, width)?;
    let low = widen(nl, from, b, wb, width)?;
    let y = gate(nl, from, WordOp::Add, up, low, width, width)?;
    Ok(y)
}

/// Which way a word is shifted.
#[derive(Clone, Copy)]
pub enum Way {
    Left,
    Right,
}

fn shift(way: Way, places: u32) -> WordOp
    ensures word { (w a b c : ℕ) → word_result result w a b c ≡ moved way w a places }
    ensures unsigned { is_signed result ≡ false }
    ensures plain { result ≢ WordOp.Mux }
    ensures range { HasRange result }
    ensures width { (w : ℕ) → w ≡ result_width_of result w }
{
    match way {
        Way::Left => WordOp::Shl(places),
        Way::Right => WordOp::Shr(places),
    }
}

/// The word moved by so many places.
#[tactic(auto, using(crate::proofs::Words::net_grows))]
pub fn moved_by(
    nl: &mut Netlist,
    from: u32,
    way: Way,
    x: NetId,
    places: u64,
    width: u32,
) -> Result<NetId, AllocError>
    requires from { from ≤ length nl.old.cells }
    requires net { IsNet nl.old.cells x.0 width }
    requires low { 1 ≤ width }
    requires high { width ≤ 64 }
    requires room { HasRoom nl.old 1 }
    ensures adds { OnOk result (AddsGates nl.old nl.new 1) }
    ensures net { IfOk result (λ y. IsNet nl.new.cells y.0 width) }
    ensures word { IfOk result (λ y. (f : List Clock → ℕ → ℕ) → IsWord from nl.old.cells x.0 width f → IsWord from nl.new.cells y.0 width (λ run t. moved way width (f run t) places)) }
{
    let op = shift(way, places.min(64) as u32);
    let y = gate(nl, from, op, x, x, width, width)?;
    Ok(y)
}

/// 2 to a small number.
fn power(i: u32) -> u32
    requires { i < 6 }
    ensures { result ≡ 2 ^ i }
{
    1 << i
}

/// The word moved by 2 to `i` places more, where bit `i` of the amount is 1.
#[tactic(auto, using(crate::proofs::Words::net_grows))]
fn stage(
    nl: &mut Netlist,
    from: u32,
    way: Way,
    x: NetId,
    by: NetId,
    own: u32,
    i: u32,
    width: u32,
) -> Result<NetId, AllocError>
    requires from { from ≤ length nl.old.cells }
    requires low { 1 ≤ width }
    requires high { width ≤ 64 }
    requires own_low { 1 ≤ own }
    requires own_high { own ≤ 64 }
    requires below { i < 6 }
    requires net { IsNet nl.old.cells x.0 width }
    requires amount { IsNet nl.old.cells by.0 own }
    requires room { HasRoom nl.old 5 }
    ensures adds { OnOk result (AddsGates nl.old nl.new 5) }
    ensures net { IfOk result (λ y. IsNet nl.new.cells y.0 width) }
    ensures word { IfOk result (λ y. (f g : List Clock → ℕ → ℕ) → IsWord from nl.old.cells x.0 width (λ run t. moved way width (f run t) (g run t % 2 ^ i)) → IsWord from nl.old.cells by.0 own g → IsWord from nl.new.cells y.0 width (λ run t. moved way width (f run t) (g run t % 2 ^ (i + 1)))) }
{
    let op = shift(way, power(i));
    let far = gate(nl, from, op, x, x, width, width)?;
    let bit = cut(nl, from, by, own, i, 1, 1)?;
    let y = select(nl, from, bit, far, x, width)?;
    Ok(y)
}

/// The word, or 0 where the amount is 64 or more.
#[tactic(auto, using(crate::proofs::Words::net_grows))]
fn ended(
    nl: &mut Netlist,
    from: u32,
    way: Way,
    x: NetId,
    by: NetId,
    own: u32,
    width: u32,
) -> Result<NetId, AllocError>
    requires from { from ≤ length nl.old.cells }
    requires low { 1 ≤ width }
    requires high { width ≤ 64 }
    requires own_low { 1 ≤ own }
    requires own_high { own ≤ 64 }
    requires net { IsNet nl.old.cells x.0 width }
    requires amount { IsNet nl.old.cells by.0 own }
    requires room { HasRoom nl.old 5 }
    ensures adds { OnOk result (AddsGates nl.old nl.new 5) }
    ensures net { IfOk result (λ y. IsNet nl.new.cells y.0 width) }
    ensures word { IfOk result (λ y. (f g : List Clock → ℕ → ℕ) → IsWord from nl.old.cells x.0 width (λ run t. moved way width (f run t) (g run t % 2 ^ 6)) → IsWord from nl.old.cells by.0 own g → AreBelow from nl.old.cells width f → IsWord from nl.new.cells y.0 width (λ run t. moved way width (f run t) (g run t))) }
{
    let above = gate(nl, from, WordOp::Shr(6), by, by, own, own)?;
    let zero = fixed(nl, from, width, 0)?;
    let y = chosen(nl, from, above, own, zero, x, width)?;
    Ok(y)
}

/// The word moved by as many places as another word says: at most six choices, one for each bit of the amount.
#[tactic(auto, using(crate::proofs::Words::net_grows))]
pub fn shifted(
    nl: &mut Netlist,
    from: u32,
    way: Way,
    x: NetId,
    by: NetId,
    own: u32,
    width: u32,
) -> Result<NetId, AllocError>
    requires from { from ≤ length nl.old.cells }
    requires low { 1 ≤ width }
    requires high { width ≤ 64 }
    requires own_low { 1 ≤ own }
    requires own_high { own ≤ 64 }
    requires net { IsNet nl.old.cells x.0 width }
    requires amount { IsNet nl.old.cells by.0 own }
    requires room { HasRoom nl.old 35 }
    ensures adds { OnOk result (AddsGates nl.old nl.new 35) }
    ensures net { IfOk result (λ y. IsNet nl.new.cells y.0 width) }
    ensures word { IfOk result (λ y. (f g : List Clock → ℕ → ℕ) → IsWord from nl.old.cells x.0 width f → IsWord from nl.old.cells by.0 own g → IsWord from nl.new.cells y.0 width (λ run t. moved way width (f run t) (g run t))) }
{
    let mut y = x;
    for i in 0..own.min(6) {
        y = stage(nl, from, way, y, by, own, i, width)?;
    }
    if own <= 6 {
        return Ok(y);
    }
    let z = ended(nl, from, way, y, by, own, width)?;
    Ok(z)
}
