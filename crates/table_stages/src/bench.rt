// A stage in a netlist of its own, and what it shows clock by clock.

ghost use Rattle.std.specs.Prelude.{◌≡◌, ◌≤◌, ◌*◌, ◌+◌, ◌++◌, ◌∷◌, [], IfOk, OnOk, length};
ghost use Rattle.ae_netlist.specs.Circuit.{IsNet};
ghost use Rattle.ae_netlist.specs.Room.{HasRoom};
ghost use Rattle.ae_clocked.specs.Phases.{Belongs};
ghost use Rattle.ae_ops.specs.Blocks.{AreBundles};
ghost use Rattle.ae_ops.specs.Waves.{HaveOwnWidths};
ghost use Rattle.table_stages.specs.Even.{AreEven, TakesLanes};
ghost use Rattle.table_stages.specs.Gains.{Gains};

use ae_clocked::Clocks;
use ae_netlist::{Cell, NetFault, NetId, Netlist, Port};
use ae_ops::{Bundle, Stage, delay};
use ae_sim::Sim;
use ae_word::Width;
use std::alloc::{AllocError, Global};
use table_text::{Page, fits, tell_outputs};

/// The most cells of a netlist: the stages of all cases have fewer.
pub const MOST_CELLS: u32 = 30_000_000;

/// There was no room, for a cell or in memory.
#[derive(Clone, Copy, Debug)]
pub struct NoRoom;

impl From<NetFault> for NoRoom {
    fn from(_fault: NetFault) -> NoRoom {
        NoRoom
    }
}

impl From<AllocError> for NoRoom {
    fn from(_error: AllocError) -> NoRoom {
        NoRoom
    }
}

/// When words arrive, and which clocks are shown: of each period the first ones, from clock 0 on or else from the block
/// that the first words make.
#[derive(Clone, Copy)]
pub struct Times {
    pub arrival: u32,
    pub latency: u32,
    pub period: u32,
    pub shown: u32,
    pub from_0: bool,
}

impl Times {
    // The words from those of a clock on.
    fn given(self, words: &[u64], columns: usize, clock: u32) -> &[u64] {
        if clock < self.arrival {
            return &[];
        }
        let first = columns.saturating_mul((clock - self.arrival) as usize);
        if first < words.len() {
            &words[first..]
        } else {
            &[]
        }
    }

    // What stands before the words of a clock, if it is shown; the last words make their block by clock `end`.
    fn mark(self, clock: u32, end: u32) -> Option<&'static str> {
        let from = if self.from_0 {
            0
        } else {
            self.arrival.saturating_add(self.latency)
        };
        if self.period == 0 || clock < from {
            return None;
        }
        let place = (clock - from) % self.period;
        if place >= self.shown || clock - place >= end {
            None
        } else if clock == from {
            Some(":")
        } else if place == 0 {
            Some(";")
        } else {
            Some(",")
        }
    }
}

/// One more input.
pub fn input(nl: &mut Netlist, width: Width) -> Result<NetId, NetFault>
    ensures gains { OnOk result (Gains nl.old nl.new 1) }
    ensures net { IfOk result (λ y. IsNet nl.new.cells y.0 width) }
{
    let net = nl.add(width, Cell::Input(Port::Plain(0)))?;
    Ok(net)
}

fn keep(nets: &mut Vec<NetId>, net: NetId) -> Result<(), NetFault>
    ensures { OnOk result (nets.new.items ≡ nets.old.items ++ net ∷ []) }
{
    match nets.push(net) {
        Ok(()) => Ok(()),
        Err(_) => Err(NetFault::Memory),
    }
}

// So many more inputs of one width.
fn inputs(alloc: Global, nl: &mut Netlist, lanes: u32, width: Width) -> Result<Bundle, NetFault>
    ensures gains { OnOk result (Gains nl.old nl.new lanes) }
    ensures nets { IfOk result (λ nets. AreEven nl.new.cells lanes width nets) }
{
    let mut nets = Vec::new(alloc);
    for lane in 0..lanes {
        let net = input(nl, width)?;
        keep(&mut nets, net)?;
    }
    Ok(Bundle::new(nets))
}

// Shows nets as outputs.
fn show(nl: &mut Netlist, nets: &[NetId]) -> Result<(), AllocError>
    requires { HaveOwnWidths nl.old.cells nets.now }
{
    for net in nets {
        if nl.outputs() < 65536 {
            nl.add_output(Port::Plain(0), *net)?;
        }
    }
    Ok(())
}

// What stands on an input without a word: 99, or so much of it as fits.
fn filler(nl: &Netlist, k: u32) -> u64 {
    match nl.input_width(k) {
        Some(width) => { if width < 7 { 99 % (1u64 << width) } else { 99 } }
        None => 99,
    }
}

// A row for one clock: the reset, and the first of the words.
fn row_of(alloc: Global, nl: &Netlist, reset: u64, words: &[u64]) -> Result<Vec<u64>, AllocError> {
    let mut row = Vec::new(alloc);
    row.push(reset)?;
    for k in 1..nl.inputs() {
        match words.get(k as usize - 1) {
            Some(word) => row.push(*word)?,
            None => row.push(filler(nl, k))?,
        }
    }
    Ok(row)
}

// One clock with the reset and the words on the inputs; false where a word is too large.
fn step(
    alloc: Global,
    nl: &Netlist,
    sim: &mut Sim<'_>,
    reset: u64,
    words: &[u64],
) -> Result<bool, AllocError>
    requires same { sim.old.cells ≡ nl.now.cells }
    ensures cells { sim.new.cells ≡ sim.old.cells }
    ensures outlets { sim.new.outlets ≡ sim.old.outlets }
{
    let row = row_of(alloc, nl, reset, words)?;
    let fit = fits(nl, &row);
    if fit {
        sim.step(&row);
    }
    Ok(fit)
}

// The words of a clock, if it is shown.
fn tell_clock(out: &mut Page, sim: &Sim<'_>, outputs: u32, mark: Option<&'static str>)
    requires { outputs ≤ length sim.now.outlets }
{
    if let Some(mark) = mark {
        out.say(mark);
        tell_outputs(out, sim, 0, outputs);
    }
}

// Steps a netlist through reset and so many clocks, and tells what is shown.
fn play_on(
    alloc: Global,
    out: &mut Page,
    nl: &Netlist,
    sim: &mut Sim<'_>,
    words: &[u64],
    times: Times,
) -> Result<(), AllocError>
    requires cells { sim.old.cells ≡ nl.now.cells }
    requires outlets { sim.old.outlets ≡ nl.now.outlets }
{
    let columns = nl.inputs().saturating_sub(1).max(1);
    let fed = (words.len() as u64).div_ceil(u64::from(columns)).min(9999) as u32;
    let end = times.arrival.min(9999) + times.latency.min(9999) + fed;
    step(alloc, nl, sim, 1, &[])?;
    for clock in 0..end + times.period.min(9999) {
        let given = times.given(words, columns as usize, clock);
        if !step(alloc, nl, sim, 0, given)? {
            out.say(": a word is too large");
            return Ok(());
        }
        tell_clock(out, sim, nl.outputs(), times.mark(clock, end));
    }
    Ok(())
}

// The same of one all of whose registers begin with ones.
fn play(
    alloc: Global,
    out: &mut Page,
    nl: &Netlist,
    words: &[u64],
    times: Times,
) -> Result<(), AllocError> {
    let mut sim = Sim::new(alloc, nl, u64::MAX)?;
    play_on(alloc, out, nl, &mut sim, words, times)
}

/// Builds a stage, and tells its latency and what it makes of words, if there are any.
pub fn run<S: Stage>(
    alloc: Global,
    out: &mut Page,
    stage: &S,
    nl: &mut Netlist,
    clocks: &mut Clocks,
    ins: &[Bundle],
    words: &[u64],
    times: Times,
) -> Result<(), NoRoom>
    requires belongs { Belongs clocks.old nl.old.cells }
    requires bundles { AreBundles nl.old.cells (S.part stage.now).ins ins.now }
    requires room { HasRoom nl.old (S.part stage.now).most_cells }
{
    let latency = stage.latency();
    out.tell("latency ", &latency);
    if words.is_empty() {
        return Ok(());
    }
    let made = stage.build(alloc, nl, clocks, ins, times.arrival)?;
    show(nl, made.nets())?;
    let times = Times {
        latency,
        period: stage.period(),
        ..times
    };
    play(alloc, out, nl, words, times)?;
    Ok(())
}

// The same of a stage that takes words on lanes.
fn run_lanes<S: Stage>(
    alloc: Global,
    out: &mut Page,
    stage: &S,
    nl: &mut Netlist,
    lanes: u32,
    width: Width,
    words: &[u64],
    times: Times,
) -> Result<(), NoRoom>
    requires takes { TakesLanes (S.part stage.now) lanes width }
    requires room { HasRoom nl.old (1 + lanes + (S.part stage.now).most_cells) }
{
    let rst = input(nl, Width::BIT)?;
    let ins = [inputs(alloc, nl, lanes, width)?];
    let mut clocks = Clocks::new(alloc, rst);
    run(alloc, out, stage, nl, &mut clocks, &ins, words, times)
}

/// The same in a netlist of its own.
pub fn over_lanes<S: Stage>(
    alloc: Global,
    out: &mut Page,
    stage: &S,
    lanes: u32,
    width: Width,
    words: &[u64],
    times: Times,
) -> Result<(), NoRoom>
    requires takes { TakesLanes (S.part stage.now) lanes width }
    requires few { lanes ≤ 4096 }
    requires small { (S.part stage.now).most_cells ≤ 20000000 }
{
    let mut nl = Netlist::new(alloc, MOST_CELLS);
    run_lanes(alloc, out, stage, &mut nl, lanes, width, words, times)
}

// Shows a bundle so many clocks later.
fn show_late(
    alloc: Global,
    nl: &mut Netlist,
    clocks: &mut Clocks,
    bundle: &Bundle,
    slack: u32,
    lanes: u32,
    width: Width,
) -> Result<(), NoRoom>
    requires belongs { Belongs clocks.old nl.old.cells }
    requires nets { AreEven nl.old.cells lanes width bundle.now }
    requires room { HasRoom nl.old (lanes * (8 * slack + 4)) }
{
    let late = delay(alloc, nl, clocks, bundle, slack)?;
    show(nl, late.nets())?;
    Ok(())
}

// Shows inputs so many clocks later.
fn show_inputs(
    alloc: Global,
    nl: &mut Netlist,
    lanes: u32,
    width: Width,
    slack: u32,
) -> Result<(), NoRoom>
    requires { HasRoom nl.old (1 + lanes + lanes * (8 * slack + 4)) }
{
    let rst = input(nl, Width::BIT)?;
    let bundle = inputs(alloc, nl, lanes, width)?;
    let mut clocks = Clocks::new(alloc, rst);
    show_late(alloc, nl, &mut clocks, &bundle, slack, lanes, width)
}

/// What a bundle shows so many clocks later, and what makes its first net.
pub fn delayed_words(
    alloc: Global,
    out: &mut Page,
    lanes: u32,
    width: Width,
    slack: u32,
    words: &[u64],
) -> Result<(), NoRoom> {
    out.tell("delay ", &slack);
    if lanes > 100 || slack > 1000 {
        return Err(NoRoom);
    }
    let mut nl = Netlist::new(alloc, MOST_CELLS);
    show_inputs(alloc, &mut nl, lanes, width, slack)?;
    let times = Times {
        arrival: 0,
        latency: slack,
        period: 1,
        shown: 1,
        from_0: false,
    };
    play(alloc, out, &nl, words, times)?;
    tell_makers(out, &nl);
    Ok(())
}

/// What makes the first output: registers one behind the other, and what they hold.
pub fn tell_makers(out: &mut Page, nl: &Netlist) {
    let Some(outlet) = nl.output(0) else {
        return;
    };
    let mut net = outlet.net;
    out.say(" from");
    for _ in 0..8 {
        match nl.cell(net) {
            Some(Cell::Reg { next }) => {
                out.say(" register of");
                net = next;
            }
            Some(Cell::Op(op, _)) => return out.show(" ", &op),
            Some(Cell::Input(_)) => return out.say(" input"),
            Some(Cell::Const(_)) | Some(Cell::Mem { .. }) | Some(Cell::Peek { .. }) => return,
            None => return,
        }
    }
}
