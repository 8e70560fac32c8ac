// One output column: a choice by phases.

ghost use Rattle.std.specs.Prelude.{◌≡◌, ◌<◌, ◌≤◌, ◌+◌, ◌-◌, ◌^◌, ◌∷◌, [], ℕ, List, Some, length, slice_get, IfOk, OnOk, if◌then◌else◌};
ghost use Rattle.ae_netlist.specs.declared.cell.NetId.{NetId as Net};
ghost use Rattle.ae_netlist.specs.Circuit.{IsNet};
ghost use Rattle.ae_netlist.specs.Runs.{InEveryResetRun, InEveryRunFrom};
ghost use Rattle.ae_netlist.specs.Room.{HasRoom};
ghost use Rattle.ae_gates.specs.Cells.{IsResult, Adds};
ghost use Rattle.ae_clocked.specs.Phases.{Belongs, KeepsCounters, made_of};
ghost use Rattle.ae_moves.specs.declared.trip.Choice.{Choice as Taken};
ghost use Rattle.ae_columns.specs.declared.steps.Step.{Step as Part};
ghost use Rattle.ae_columns.specs.Early.{IsEarlyColumn, IsMade, first_phase};
ghost use Rattle.ae_columns.specs.Counts.{Counted, steps_tests};
ghost use Rattle.ae_columns.specs.Plans.{choice_in, later, steps_cells};
ghost use Rattle.ae_columns.specs.Columns.{AreReady, IsMarkTo, IsColumn, IsPhaseNet, IsReady, IsSource};

use crate::steps::{PhaseNet, Step};
use ae_clocked::{Clocks, Tapped, delayed};
use ae_gates::{choose, constant, less, operate, width_at};
use ae_moves::Choice;
use ae_netlist::{NetId, Netlist};
use ae_word::{Width, WordOp};
use std::alloc::AllocError;

/// The net that has the word of a step.
fn source(
    nl: &mut Netlist,
    clocks: &Clocks,
    ins: &[NetId],
    lines: &[Tapped],
    step: &Step,
    width: Width,
) -> Result<NetId, AllocError>
    requires ready { IsReady nl.old.cells clocks.now.rst width ins.now lines.now step.now.tap step.now.take }
    requires room { HasRoom nl.old 1 }
    ensures adds { OnOk result (Adds nl.old nl.new 1 0) }
    ensures counted { OnOk result (Counted nl.old nl.new 0 0 0 0) }
    ensures source { IfOk result (λ y. IsSource nl.new.cells clocks.now.rst width ins.now step.now.take y.0) }
{
    match step.take {
        Choice::Delayed { column, age: _ } => Ok(lines[column as usize].tap(step.tap)),
        Choice::Constant(word) => {
            let y = constant(nl, width, word)?;
            Ok(y)
        }
    }
}

/// The bit that is 1 in the phases before a number, from a comparison of the counter.
fn compared(
    nl: &mut Netlist,
    clocks: &Clocks,
    phase: PhaseNet,
    from: u32,
) -> Result<NetId, AllocError>
    requires phase { IsPhaseNet nl.old.cells clocks.now.rst phase }
    requires within { from < phase.period }
    requires room { HasRoom nl.old 2 }
    ensures adds { OnOk result (Adds nl.old nl.new 2 0) }
    ensures counted { OnOk result (Counted nl.old nl.new 0 0 0 1) }
    ensures net { IfOk result (λ y. IsNet nl.new.cells y.0 1) }
    ensures marks { IfOk result (λ y. InEveryResetRun nl.new.cells clocks.now.rst (λ run start. IsMarkTo phase.limit run start y.0 phase.net.0 from)) }
{
    let width = width_at(nl, phase.net);
    let bound = constant(nl, width, u64::from(from))?;
    let y = less(nl, phase.net, bound, width)?;
    Ok(y)
}

/// So many bits that they tell the phases below a limit apart.
fn bits_below(limit: u32) -> u32
    requires { limit ≤ 4096 }
    ensures low { 1 ≤ result }
    ensures high { result ≤ 12 }
    ensures enough { limit ≤ 2 ^ result }
{
    for bits in 1..12u32 {
        if limit <= 1u32 << bits {
            return bits;
        }
    }
    12
}

/// The low bits of a net.
fn low_bits(nl: &mut Netlist, x: NetId, width: Width, bits: u32) -> Result<NetId, AllocError>
    requires net { IsNet nl.old.cells x.0 width }
    requires low { 1 ≤ bits }
    requires high { bits ≤ 64 }
    requires room { HasRoom nl.old 1 }
    ensures adds { OnOk result (Adds nl.old nl.new 1 0) }
    ensures counted { OnOk result (Counted nl.old nl.new 0 0 0 0) }
    ensures net { IfOk result (λ y. IsNet nl.new.cells y.0 bits) }
    ensures words { IfOk result (λ y. InEveryRunFrom (length nl.old.cells) nl.new.cells (λ run. IsResult run y.0 (WordOp.Cast bits) width (x ∷ x ∷ x ∷ []))) }
{
    let y = operate(nl, WordOp::Cast(bits), [x, x, x], Width { bits })?;
    Ok(y)
}

/// The same from the low bits of the counter, where these show the phases below its limit.
fn compared_low(
    nl: &mut Netlist,
    clocks: &Clocks,
    phase: PhaseNet,
    from: u32,
    bits: u32,
) -> Result<NetId, AllocError>
    requires phase { IsPhaseNet nl.old.cells clocks.now.rst phase }
    requires within { from < phase.limit }
    requires low { 1 ≤ bits }
    requires high { bits ≤ 12 }
    requires enough { phase.limit ≤ 2 ^ bits }
    requires room { HasRoom nl.old 3 }
    ensures adds { OnOk result (Adds nl.old nl.new 3 0) }
    ensures counted { OnOk result (Counted nl.old nl.new 0 0 0 1) }
    ensures net { IfOk result (λ y. IsNet nl.new.cells y.0 1) }
    ensures marks { IfOk result (λ y. InEveryResetRun nl.new.cells clocks.now.rst (λ run start. IsMarkTo phase.limit run start y.0 phase.net.0 from)) }
{
    let width = width_at(nl, phase.net);
    let shown = low_bits(nl, phase.net, width, bits)?;
    let bits = Width { bits };
    let bound = constant(nl, bits, u64::from(from))?;
    let y = less(nl, shown, bound, bits)?;
    Ok(y)
}

/// A mark that stands in a register, and is shared by all columns that take their second step in the same phase.
fn marked(
    nl: &mut Netlist,
    clocks: &mut Clocks,
    phase: PhaseNet,
    from: u32,
) -> Result<NetId, AllocError>
    requires belongs { Belongs clocks.old nl.old.cells }
    requires phase { IsPhaseNet nl.old.cells clocks.old.rst phase }
    requires within { from < phase.period }
    requires room { HasRoom nl.old 9 }
    ensures belongs { OnOk result (Belongs clocks.new nl.new.cells) }
    ensures keeps { OnOk result (KeepsCounters clocks.old clocks.new) }
    ensures adds { OnOk result (Adds nl.old nl.new 9 0) }
    ensures counted { OnOk result (Counted nl.old nl.new (made_of clocks.old) (made_of clocks.new) 0 1) }
    ensures net { IfOk result (λ y. IsNet nl.new.cells y.0 1) }
    ensures marks { IfOk result (λ y. InEveryResetRun nl.new.cells clocks.old.rst (λ run start. IsMarkTo phase.limit run start y.0 phase.net.0 from)) }
{
    let y = clocks.mark(nl, phase.net, phase.period, phase.offset, from)?;
    Ok(y)
}

/// The bit that is 1 in the phases before a number: many such bits would cost more in registers than comparisons, which
/// share the low bits of the counter.
fn before_phase(
    nl: &mut Netlist,
    clocks: &Clocks,
    phase: PhaseNet,
    from: u32,
) -> Result<NetId, AllocError>
    requires phase { IsPhaseNet nl.old.cells clocks.now.rst phase }
    requires within { from < phase.limit }
    requires room { HasRoom nl.old 3 }
    ensures adds { OnOk result (Adds nl.old nl.new 3 0) }
    ensures counted { OnOk result (Counted nl.old nl.new 0 0 0 1) }
    ensures net { IfOk result (λ y. IsNet nl.new.cells y.0 1) }
    ensures marks { IfOk result (λ y. InEveryResetRun nl.new.cells clocks.now.rst (λ run start. IsMarkTo phase.limit run start y.0 phase.net.0 from)) }
{
    let bits = bits_below(phase.limit);
    if bits < width_at(nl, phase.net).bits() {
        return compared_low(nl, clocks, phase, from, bits);
    }
    let y = compared(nl, clocks, phase, from)?;
    Ok(y)
}

/// The word of a step where a bit that marks the phases before it is 0, and else that of an earlier net.
fn choose_by(
    nl: &mut Netlist,
    clocks: &Clocks,
    ins: &[NetId],
    lines: &[Tapped],
    step: &Step,
    width: Width,
    early: NetId,
    before: NetId,
) -> Result<NetId, AllocError>
    requires ready { IsReady nl.old.cells clocks.now.rst width ins.now lines.now step.now.tap step.now.take }
    requires early { IsNet nl.old.cells early.0 1 }
    requires before { IsNet nl.old.cells before.0 width }
    requires room { HasRoom nl.old 2 }
    ensures adds { OnOk result (Adds nl.old nl.new 2 0) }
    ensures counted { OnOk result (Counted nl.old nl.new 0 0 0 0) }
    ensures column { IfOk result (λ y. (phase limit : ℕ) (choice : ℕ → Taken) → InEveryResetRun nl.old.cells clocks.now.rst (λ run start. IsMarkTo limit run start early.0 phase step.now.from) → IsColumn nl.old.cells clocks.now.rst width phase limit ins.now choice before.0 → IsColumn nl.new.cells clocks.now.rst width phase limit ins.now (λ p. later p (choice p) step.now) y.0) }
{
    let taken = source(nl, clocks, ins, lines, step, width)?;
    let y = choose(nl, early, before, taken, width)?;
    Ok(y)
}

/// The word of a step from its first phase on, and before it that of an earlier net.
fn choose_from(
    nl: &mut Netlist,
    clocks: &Clocks,
    ins: &[NetId],
    lines: &[Tapped],
    step: &Step,
    width: Width,
    phase: PhaseNet,
    before: NetId,
) -> Result<NetId, AllocError>
    requires phase { IsPhaseNet nl.old.cells clocks.now.rst phase }
    requires within { step.now.from < phase.limit }
    requires ready { IsReady nl.old.cells clocks.now.rst width ins.now lines.now step.now.tap step.now.take }
    requires before { IsNet nl.old.cells before.0 width }
    requires room { HasRoom nl.old 11 }
    ensures adds { OnOk result (Adds nl.old nl.new 11 0) }
    ensures counted { OnOk result (Counted nl.old nl.new 0 0 0 1) }
    ensures column { IfOk result (λ y. (choice : ℕ → Taken) → IsColumn nl.old.cells clocks.now.rst width phase.net.0 phase.limit ins.now choice before.0 → IsColumn nl.new.cells clocks.now.rst width phase.net.0 phase.limit ins.now (λ p. later p (choice p) step.now) y.0) }
{
    let early = before_phase(nl, clocks, phase, step.from)?;
    let y = choose_by(nl, clocks, ins, lines, step, width, early, before)?;
    Ok(y)
}

/// A net that takes by phases what the steps say.
fn select(
    nl: &mut Netlist,
    clocks: &Clocks,
    ins: &[NetId],
    lines: &[Tapped],
    steps: &[Step],
    width: Width,
    phase: PhaseNet,
) -> Result<NetId, AllocError>
    requires phase { IsPhaseNet nl.old.cells clocks.now.rst phase }
    requires begun { 1 ≤ length steps.now }
    requires ready { AreReady nl.old.cells clocks.now.rst width phase.limit ins.now lines.now steps.now }
    requires room { HasRoom nl.old (steps_cells steps.now) }
    ensures adds { OnOk result (Adds nl.old nl.new (steps_cells steps.now) 0) }
    ensures counted { OnOk result (Counted nl.old nl.new 0 0 0 (steps_tests steps.now)) }
    ensures column { IfOk result (λ y. IsColumn nl.new.cells clocks.now.rst width phase.net.0 phase.limit ins.now (λ p. choice_in p steps.now) y.0) }
{
    let mut net = source(nl, clocks, ins, lines, &steps[0], width)?;
    for k in 1..steps.len() {
        net = choose_from(nl, clocks, ins, lines, &steps[k], width, phase, net)?;
    }
    Ok(net)
}

/// The same of two steps, by a mark: where one bit decides alone, a register costs less than a comparison.
fn select_two(
    nl: &mut Netlist,
    clocks: &mut Clocks,
    ins: &[NetId],
    lines: &[Tapped],
    steps: &[Step],
    width: Width,
    phase: PhaseNet,
) -> Result<NetId, AllocError>
    requires belongs { Belongs clocks.old nl.old.cells }
    requires phase { IsPhaseNet nl.old.cells clocks.old.rst phase }
    requires two { length steps.now ≡ 2 }
    requires ready { AreReady nl.old.cells clocks.old.rst width phase.limit ins.now lines.now steps.now }
    requires room { HasRoom nl.old (steps_cells steps.now) }
    ensures belongs { OnOk result (Belongs clocks.new nl.new.cells) }
    ensures keeps { OnOk result (KeepsCounters clocks.old clocks.new) }
    ensures adds { OnOk result (Adds nl.old nl.new (steps_cells steps.now) 0) }
    ensures counted { OnOk result (Counted nl.old nl.new (made_of clocks.old) (made_of clocks.new) 0 (steps_tests steps.now)) }
    ensures column { IfOk result (λ y. IsColumn nl.new.cells clocks.old.rst width phase.net.0 phase.limit ins.now (λ p. choice_in p steps.now) y.0) }
{
    let first = source(nl, clocks, ins, lines, &steps[0], width)?;
    let early = marked(nl, clocks, phase, steps[1].from)?;
    let y = choose_by(nl, clocks, ins, lines, &steps[1], width, early, first)?;
    Ok(y)
}

/// A net that takes by phases what the steps say, by a mark or by comparisons.
fn chosen(
    nl: &mut Netlist,
    clocks: &mut Clocks,
    ins: &[NetId],
    lines: &[Tapped],
    steps: &[Step],
    width: Width,
    phase: PhaseNet,
) -> Result<NetId, AllocError>
    requires belongs { Belongs clocks.old nl.old.cells }
    requires phase { IsPhaseNet nl.old.cells clocks.old.rst phase }
    requires begun { 1 ≤ length steps.now }
    requires ready { AreReady nl.old.cells clocks.old.rst width phase.limit ins.now lines.now steps.now }
    requires room { HasRoom nl.old (steps_cells steps.now) }
    ensures belongs { OnOk result (Belongs clocks.new nl.new.cells) }
    ensures keeps { OnOk result (KeepsCounters clocks.old clocks.new) }
    ensures adds { OnOk result (Adds nl.old nl.new (steps_cells steps.now) 0) }
    ensures counted { OnOk result (Counted nl.old nl.new (made_of clocks.old) (made_of clocks.new) 0 (steps_tests steps.now)) }
    ensures column { IfOk result (λ y. IsColumn nl.new.cells clocks.old.rst width phase.net.0 phase.limit ins.now (λ p. choice_in p steps.now) y.0) }
{
    if steps.len() == 2 {
        return select_two(nl, clocks, ins, lines, steps, width, phase);
    }
    let y = select(nl, clocks, ins, lines, steps, width, phase)?;
    Ok(y)
}

/// The place of the step that decides in a phase.
fn step_in(steps: &[Step], phase: u32) -> usize
    requires begun { 1 ≤ length steps.now }
    ensures within { result < length steps.now }
    ensures is { (step : Part) → slice_get steps.now result ≡ Some step → choice_in phase steps.now ≡ step.take }
{
    let mut at = 0;
    for place in 1..steps.len() {
        if steps[place].from <= phase {
            at = place;
        }
    }
    at
}

/// A register that has a fixed word after a clock of reset, and else the word of a net in the clock before.
fn set_in_reset(
    nl: &mut Netlist,
    clocks: &Clocks,
    chosen: NetId,
    width: Width,
    word: u64,
) -> Result<NetId, AllocError>
    requires reset { IsNet nl.old.cells clocks.now.rst 1 }
    requires net { IsNet nl.old.cells chosen.0 width }
    requires fits { word < 2 ^ width }
    requires room { HasRoom nl.old 3 }
    ensures adds { OnOk result (Adds nl.old nl.new 3 0) }
    ensures counted { OnOk result (Counted nl.old nl.new 0 0 1 0) }
    ensures column { IfOk result (λ y. (phase limit p : ℕ) (ins : List Net) (choice : ℕ → Taken) → choice p ≡ Choice.Constant word → IsColumn nl.old.cells clocks.now.rst width phase limit ins choice chosen.0 → IsEarlyColumn nl.new.cells clocks.now.rst width phase limit p ins choice y.0) }
{
    let fixed = constant(nl, width, word)?;
    let next = choose(nl, clocks.reset(), fixed, chosen, width)?;
    let y = delayed(nl, next, width)?;
    Ok(y)
}

/// A register of a net that is chosen a clock early, where the first clock after reset takes a choice. A net that is late
/// is not asked then, but a fixed word is.
fn registered(
    nl: &mut Netlist,
    clocks: &Clocks,
    chosen: NetId,
    width: Width,
    first: Choice,
) -> Result<NetId, AllocError>
    requires reset { IsNet nl.old.cells clocks.now.rst 1 }
    requires net { IsNet nl.old.cells chosen.0 width }
    requires fits { (w : ℕ) → first ≡ Choice.Constant w → w < 2 ^ width }
    requires room { HasRoom nl.old 3 }
    ensures adds { OnOk result (Adds nl.old nl.new 3 0) }
    ensures counted { OnOk result (Counted nl.old nl.new 0 0 1 0) }
    ensures column { IfOk result (λ y. (phase limit p : ℕ) (ins : List Net) (choice : ℕ → Taken) → choice p ≡ first → IsColumn nl.old.cells clocks.now.rst width phase limit ins choice chosen.0 → IsEarlyColumn nl.new.cells clocks.now.rst width phase limit p ins choice y.0) }
{
    match first {
        Choice::Delayed { column: _, age: _ } => {
            let y = delayed(nl, chosen, width)?;
            Ok(y)
        }
        Choice::Constant(word) => set_in_reset(nl, clocks, chosen, width, word),
    }
}

/// A net that takes by phases what the steps say, chosen in the clock before and put in a register.
fn early_column(
    nl: &mut Netlist,
    clocks: &mut Clocks,
    ins: &[NetId],
    lines: &[Tapped],
    steps: &[Step],
    width: Width,
    phase: PhaseNet,
) -> Result<NetId, AllocError>
    requires belongs { Belongs clocks.old nl.old.cells }
    requires phase { IsPhaseNet nl.old.cells clocks.old.rst phase }
    requires begun { 1 ≤ length steps.now }
    requires ready { AreReady nl.old.cells clocks.old.rst width phase.limit ins.now lines.now steps.now }
    requires room { HasRoom nl.old (steps_cells steps.now + 3) }
    ensures belongs { OnOk result (Belongs clocks.new nl.new.cells) }
    ensures keeps { OnOk result (KeepsCounters clocks.old clocks.new) }
    ensures adds { OnOk result (Adds nl.old nl.new (steps_cells steps.now + 3) 0) }
    ensures counted { OnOk result (Counted nl.old nl.new (made_of clocks.old) (made_of clocks.new) 1 (steps_tests steps.now)) }
    ensures column { IfOk result (λ y. IsEarlyColumn nl.new.cells clocks.old.rst width phase.net.0 phase.limit (first_phase phase) ins.now (λ p. choice_in p steps.now) y.0) }
{
    let first = step_in(steps, phase.period - 1 - phase.offset);
    let net = chosen(nl, clocks, ins, lines, steps, width, phase)?;
    let y = registered(nl, clocks, net, width, steps[first].take)?;
    Ok(y)
}

/// A net of so many bits that has, in each phase of the counter below its limit, the word that the steps choose: of a tap
/// of an input's delay line, or a constant. With `early` it is chosen a clock ahead and kept in a register, and the counter
/// is one that is ahead. The error comes only for want of memory, here and in all of the crate.
pub fn column(
    nl: &mut Netlist,
    clocks: &mut Clocks,
    ins: &[NetId],
    lines: &[Tapped],
    steps: &[Step],
    width: Width,
    early: bool,
    phase: PhaseNet,
) -> Result<NetId, AllocError>
    requires belongs { Belongs clocks.old nl.old.cells }
    requires phase { IsPhaseNet nl.old.cells clocks.old.rst phase }
    requires begun { 1 ≤ length steps.now }
    requires ready { AreReady nl.old.cells clocks.old.rst width phase.limit ins.now lines.now steps.now }
    requires room { HasRoom nl.old (steps_cells steps.now + 3) }
    ensures belongs { OnOk result (Belongs clocks.new nl.new.cells) }
    ensures keeps { OnOk result (KeepsCounters clocks.old clocks.new) }
    ensures adds { OnOk result (Adds nl.old nl.new (steps_cells steps.now + 3) 0) }
    ensures counted { OnOk result (Counted nl.old nl.new (made_of clocks.old) (made_of clocks.new) (if early then 1 else 0) (steps_tests steps.now)) }
    ensures column { IfOk result (λ y. IsMade early nl.new.cells clocks.old.rst width phase ins.now (λ p. choice_in p steps.now) y.0) }
{
    if early {
        return early_column(nl, clocks, ins, lines, steps, width, phase);
    }
    let y = chosen(nl, clocks, ins, lines, steps, width, phase)?;
    Ok(y)
}
