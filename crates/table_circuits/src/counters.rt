// Counters, marks and delay lines of a netlist with a reset.

ghost use Rattle.std.specs.Prelude.{◌≡◌, ◌<◌, ◌^◌, ◌-◌, IfOk, OnOk, length};
ghost use Rattle.ae_netlist.specs.Circuit.{IsNet, width_of};
ghost use Rattle.ae_netlist.specs.Room.{HasRoom};
ghost use Rattle.ae_clocked.specs.Phases.{Belongs};
ghost use Rattle.ae_clocked.specs.Delays.{line_cells};
ghost use Rattle.ae_gates.specs.Cells.{Grows};

use crate::netlists::{show_output, tell_none};
use crate::nets::{any_net, net};
use crate::stepping::step_one;
use ae_clocked::{Clocks, Tapped, line, ring_line};
use ae_gates::{constant, less, width_at};
use ae_netlist::{Cell, NetFault, NetId, Netlist, Port};
use ae_word::Width;
use std::alloc::{AllocError, Global};
use table_text::{Page, number_at, parted, word_at};

// What a call answers; none where it may not be made. `Full` stands where it might need more cells than have room.
type Called = Result<Option<NetId>, NetFault>;

fn phase(clocks: &mut Clocks, nl: &mut Netlist, room: u32, text: &str) -> Called
    requires belongs { Belongs clocks.old nl.old.cells }
    requires room { HasRoom nl.old room }
    ensures belongs { OnOk result (Belongs clocks.new nl.new.cells) }
    ensures limit { OnOk result (nl.new.limit ≡ nl.old.limit) }
{
    let period = number_at(text, 1);
    let offset = number_at(text, 2);
    if period > 4096 || offset >= period {
        return Ok(None);
    }
    if room < 12 {
        return Err(NetFault::Full);
    }
    let net = clocks.phase(nl, period, offset)?;
    Ok(Some(net))
}

fn mark(clocks: &mut Clocks, nl: &mut Netlist, room: u32, text: &str) -> Called
    requires belongs { Belongs clocks.old nl.old.cells }
    requires room { HasRoom nl.old room }
    ensures belongs { OnOk result (Belongs clocks.new nl.new.cells) }
    ensures limit { OnOk result (nl.new.limit ≡ nl.old.limit) }
{
    let period = number_at(text, 1);
    let offset = number_at(text, 2);
    let from = number_at(text, 3);
    if period > 4096 || offset >= period || from > period {
        return Ok(None);
    }
    if room < 21 {
        return Err(NetFault::Full);
    }
    // the phase is made first if it is not there
    let net = clocks.phase(nl, period, offset)?;
    let mark = clocks.mark(nl, net, period, offset, from)?;
    Ok(Some(mark))
}

fn lead(clocks: &mut Clocks, nl: &mut Netlist, room: u32, text: &str) -> Called
    requires belongs { Belongs clocks.old nl.old.cells }
    requires room { HasRoom nl.old room }
    ensures belongs { OnOk result (Belongs clocks.new nl.new.cells) }
    ensures limit { OnOk result (nl.new.limit ≡ nl.old.limit) }
{
    let period = number_at(text, 1);
    let offset = number_at(text, 2);
    let from = number_at(text, 3);
    let wanted = number_at(text, 4);
    if period > 4096 || offset >= period || from > period || wanted >= period {
        return Ok(None);
    }
    if room < 21 {
        return Err(NetFault::Full);
    }
    let net = clocks.lead(nl, period, offset, from, wanted)?;
    Ok(Some(net))
}

// The bit that says whether a net is below a number.
fn below_of(nl: &mut Netlist, a: NetId, width: Width, word: u64) -> Result<NetId, AllocError>
    requires left { IsNet nl.old.cells a.0 width }
    requires fits { word < 2 ^ width }
    requires room { HasRoom nl.old 2 }
    ensures { OnOk result (Grows nl.old nl.new) }
{
    let b = constant(nl, width, word)?;
    let y = less(nl, a, b, width)?;
    Ok(y)
}

// Whether the last answer is below a number.
fn below(clocks: &Clocks, nl: &mut Netlist, last: NetId, room: u32, text: &str) -> Called
    requires belongs { Belongs clocks.now nl.old.cells }
    requires room { HasRoom nl.old room }
    ensures belongs { OnOk result (Belongs clocks.now nl.new.cells) }
    ensures limit { OnOk result (nl.new.limit ≡ nl.old.limit) }
{
    let Some(a) = any_net(nl, last.0) else {
        return Ok(None);
    };
    let width = width_at(nl, a);
    let word = u64::from(number_at(text, 1));
    let bits = width.bits();
    if bits >= 64 || word >= 1u64 << bits {
        return Ok(None);
    }
    if room < 2 {
        return Err(NetFault::Full);
    }
    let net = below_of(nl, a, width, word)?;
    Ok(Some(net))
}

// A line with two taps, of registers or with rings for what is far.
fn two_taps(
    alloc: Global,
    clocks: &mut Clocks,
    nl: &mut Netlist,
    x: NetId,
    delays: [u32; 2],
    rings: bool,
) -> Result<Tapped, AllocError>
    requires belongs { Belongs clocks.old nl.old.cells }
    requires net { IsNet nl.old.cells x.0 (width_of nl.old.cells x.0) }
    requires room { HasRoom nl.old (line_cells delays) }
    ensures belongs { OnOk result (Belongs clocks.new nl.new.cells) }
    ensures limit { OnOk result (nl.new.limit ≡ nl.old.limit) }
    ensures long { IfOk result (λ nets. length nets ≡ 2) }
{
    if rings {
        ring_line(alloc, nl, x, &delays, clocks)
    } else {
        line(alloc, nl, x, &delays, clocks)
    }
}

// A tap of a line of the last answer: two delays, and which of them is the answer.
fn taps(
    alloc: Global,
    clocks: &mut Clocks,
    nl: &mut Netlist,
    last: NetId,
    room: u32,
    text: &str,
    rings: bool,
) -> Called
    requires belongs { Belongs clocks.old nl.old.cells }
    requires room { HasRoom nl.old room }
    ensures belongs { OnOk result (Belongs clocks.new nl.new.cells) }
    ensures limit { OnOk result (nl.new.limit ≡ nl.old.limit) }
{
    let Some(x) = any_net(nl, last.0) else {
        return Ok(None);
    };
    let delays = [number_at(text, 1), number_at(text, 2)];
    let most = delays[0].max(delays[1]);
    let tap = number_at(text, 3);
    if tap >= 2 || most > 1000 {
        return Ok(None);
    }
    if room < 8 * most + 8 {
        return Err(NetFault::Full);
    }
    let tapped = two_taps(alloc, clocks, nl, x, delays, rings)?;
    Ok(Some(tapped.tap(tap)))
}

fn output(clocks: &Clocks, nl: &mut Netlist, last: NetId) -> Called
    requires { Belongs clocks.now nl.old.cells }
    ensures belongs { OnOk result (Belongs clocks.now nl.new.cells) }
    ensures limit { OnOk result (nl.new.limit ≡ nl.old.limit) }
{
    match show_output(nl, last.0) {
        Some(Ok(net)) => Ok(Some(net)),
        Some(Err(fault)) => Err(fault),
        None => Ok(None),
    }
}

fn answer(
    alloc: Global,
    clocks: &mut Clocks,
    nl: &mut Netlist,
    last: NetId,
    room: u32,
    text: &str,
) -> Called
    requires belongs { Belongs clocks.old nl.old.cells }
    requires room { HasRoom nl.old room }
    ensures belongs { OnOk result (Belongs clocks.new nl.new.cells) }
    ensures limit { OnOk result (nl.new.limit ≡ nl.old.limit) }
{
    match word_at(text, 0) {
        "phase" => phase(clocks, nl, room, text),
        "mark" => mark(clocks, nl, room, text),
        "lead" => lead(clocks, nl, room, text),
        "below" => below(clocks, nl, last, room, text),
        "line" => taps(alloc, clocks, nl, last, room, text, false),
        "rings" => taps(alloc, clocks, nl, last, room, text, true),
        "output" => output(clocks, nl, last),
        _ => Ok(None),
    }
}

// What stands behind a line by what its call did.
fn tell_call(out: &mut Page, text: &str, answer: Called, grown: bool) {
    match answer {
        Ok(Some(_)) if grown => out.say(" -> adds cells"),
        Ok(Some(_)) => out.say(" -> adds none"),
        Ok(None) => tell_none(out, text, None),
        Err(fault) => tell_none(out, text, Some(Err(fault))),
    }
}

// The calls of some lines up to the first that is refused, on a netlist of at most so many cells as the first line says. Its
// net 0 is the reset.
fn built(alloc: Global, out: &mut Page, head: &str, calls: &str) -> Netlist {
    let limit = number_at(head, 1);
    let mut nl = Netlist::new(alloc, limit);
    let _ = nl.add(Width::BIT, Cell::Input(Port::Reset));
    let Some(rst) = net(&nl, 0, 1) else {
        return nl;
    };
    let mut clocks = Clocks::new(alloc, rst);
    let mut last = rst;
    for text in calls.lines() {
        out.say(text);
        nl.formed();
        let before = nl.len();
        let answer = answer(alloc, &mut clocks, &mut nl, last, limit - before, text);
        tell_call(out, text, answer, before < nl.len());
        out.say("\n");
        match answer {
            Ok(Some(net)) => last = net,
            Ok(None) => (),
            Err(_) => return nl,
        }
    }
    nl
}

/// Counters of one netlist, and the words of its outputs in as many clocks after reset as the line behind `%%` says.
pub fn tell(alloc: Global, out: &mut Page, head: &str, body: &str) {
    let (calls, clocks) = parted(body, "%% ");
    let nl = built(alloc, out, head, calls);
    for k in 0..nl.outputs() {
        step_one(alloc, out, &nl, k, number_at(clocks, 0));
    }
}
