// Netlists, built by the calls of `Netlist` itself.

ghost use Rattle.std.specs.Prelude.{◌≡◌, ◌<◌, ◌-◌};

use crate::nets::{add_sum, address, any_net, memory, net, register};
use crate::stepping::step_all;
use ae_netlist::{Cell, NetFault, NetId, Netlist, Port};
use ae_tidy::tidy;
use ae_word::Width;
use std::alloc::{AllocError, Global};
use table_text::{Page, number_at, parted, word_at};

/// What a call answers; none where it may not be made.
pub type Answer = Option<Result<NetId, NetFault>>;

// The width behind the name of a call.
fn width(line: &str) -> Option<Width> {
    Width::of(number_at(line, 1))
}

fn input(nl: &mut Netlist, line: &str) -> Answer {
    let width = width(line)?;
    let port = Port::Plain(nl.inputs());
    Some(nl.add(width, Cell::Input(port)))
}

fn add_constant(nl: &mut Netlist, line: &str) -> Answer {
    let width = width(line)?;
    let word = u64::from(number_at(line, 2));
    let bits = width.bits();
    if bits < 64 && word < 1u64 << bits {
        Some(nl.add(width, Cell::Const(word)))
    } else {
        None
    }
}

fn add(nl: &mut Netlist, line: &str) -> Answer {
    let width = width(line)?;
    let bits = width.bits();
    let a = net(nl, number_at(line, 2), bits)?;
    let b = net(nl, number_at(line, 3), bits)?;
    Some(add_sum(nl, a, b, width))
}

fn state(nl: &mut Netlist, line: &str) -> Answer {
    Some(nl.state(width(line)?))
}

fn store(nl: &mut Netlist, line: &str) -> Answer {
    let width = width(line)?;
    let depth = number_at(line, 2);
    if 1 <= depth && depth <= 65536 {
        Some(nl.memory(width, depth))
    } else {
        None
    }
}

fn peek(nl: &mut Netlist, line: &str) -> Answer {
    let width = width(line)?;
    let Some(m) = memory(nl, number_at(line, 2), width.bits()) else {
        return None;
    };
    let Some(at) = address(nl, number_at(line, 3), m.1) else {
        return None;
    };
    Some(nl.add(width, Cell::Peek { mem: m.0, at }))
}

fn connect(nl: &mut Netlist, line: &str) -> Answer {
    let own = number_at(line, 1);
    let width = nl.width(NetId(own))?;
    let Some(r) = register(nl, own, width) else {
        return None;
    };
    let Some(next) = net(nl, number_at(line, 2), width) else {
        return None;
    };
    nl.connect(r, next);
    Some(Ok(r))
}

fn write(nl: &mut Netlist, line: &str) -> Answer {
    let own = number_at(line, 1);
    let width = nl.width(NetId(own))?;
    let Some(m) = memory(nl, own, width) else {
        return None;
    };
    let Some(at) = address(nl, number_at(line, 2), m.1) else {
        return None;
    };
    let Some(next) = net(nl, number_at(line, 3), width) else {
        return None;
    };
    let Some(enable) = net(nl, number_at(line, 4), 1) else {
        return None;
    };
    nl.connect_memory(m.0, at, next, enable);
    Some(Ok(m.0))
}

/// An output that shows the net of a number.
pub fn show_output(nl: &mut Netlist, number: u32) -> Answer
    ensures cells { nl.new.cells ≡ nl.old.cells }
    ensures limit { nl.new.limit ≡ nl.old.limit }
{
    let Some(net) = any_net(nl, number) else {
        return None;
    };
    nl.formed();
    if nl.outputs() == u32::MAX {
        return None;
    }
    match nl.add_output(Port::Plain(nl.outputs()), net) {
        Ok(()) => Some(Ok(net)),
        Err(_) => Some(Err(NetFault::Memory)),
    }
}

fn answer(nl: &mut Netlist, line: &str) -> Answer {
    match word_at(line, 0) {
        "input" => input(nl, line),
        "const" => add_constant(nl, line),
        "add" => add(nl, line),
        "state" => state(nl, line),
        "memory" => store(nl, line),
        "peek" => peek(nl, line),
        "connect" => connect(nl, line),
        "write" => write(nl, line),
        "output" => show_output(nl, number_at(line, 1)),
        _ => None,
    }
}

/// What stands behind a line whose call was refused, or may not be made; a comment stands alone.
pub fn tell_none(out: &mut Page, line: &str, answer: Answer) {
    match answer {
        Some(Err(fault)) => out.show(" -> ", &fault),
        _ if line.starts_with("#") => (),
        _ => out.say(" -> not allowed"),
    }
}

// What stands behind a line.
fn tell_answer(out: &mut Page, line: &str, answer: Answer) {
    match answer {
        Some(Ok(net)) => out.tell(" -> ", &net.0),
        _ => tell_none(out, line, answer),
    }
}

/// The netlist of some lines, of at most so many cells as the first line says.
pub fn built(alloc: Global, out: &mut Page, head: &str, calls: &str) -> Netlist {
    let mut nl = Netlist::new(alloc, number_at(head, 1));
    for line in calls.lines() {
        out.say(line);
        let answer = answer(&mut nl, line);
        tell_answer(out, line, answer);
        out.say("\n");
    }
    nl
}

// Each cell with its number, up to the first number that has none.
fn show_cells(out: &mut Page, nl: &Netlist) {
    out.tell("", &nl.len());
    out.say(" cells\n");
    for k in 0..=nl.len() {
        out.tell("", &k);
        out.show(": ", &nl.width(NetId(k)));
        out.show(" ", &nl.cell(NetId(k)));
        out.say("\n");
    }
}

fn show_inputs(out: &mut Page, nl: &Netlist) {
    out.tell("", &nl.inputs());
    out.say(" inputs\n");
    for k in 0..=nl.inputs() {
        out.tell("", &k);
        out.show(": ", &nl.input(k));
        out.show(" ", &nl.input_width(k));
        out.say("\n");
    }
}

fn show_outputs(out: &mut Page, nl: &Netlist) {
    out.tell("", &nl.outputs());
    out.say(" outputs\n");
    for k in 0..=nl.outputs() {
        out.tell("", &k);
        out.show(": ", &nl.output(k));
        out.say("\n");
    }
}

// All cells, inputs and outputs.
fn show(out: &mut Page, nl: &Netlist) {
    show_cells(out, nl);
    show_inputs(out, nl);
    show_outputs(out, nl);
}

/// A netlist, and the words of its outputs.
pub fn tell(alloc: Global, out: &mut Page, head: &str, body: &str) {
    let (calls, rows) = parted(body, "%% ");
    let nl = built(alloc, out, head, calls);
    show(out, &nl);
    step_all(alloc, out, &nl, rows);
}

// The numbers behind the limit.
fn marks(alloc: Global, head: &str) -> Result<Vec<u32>, AllocError> {
    let mut marks = Vec::new(alloc);
    for word in head.split_whitespace().skip(2) {
        marks.push(number_at(word, 0))?;
    }
    Ok(marks)
}

/// A netlist that is tidied, with the marks in its first line.
pub fn tell_tidied(alloc: Global, out: &mut Page, head: &str, body: &str) {
    let Ok(marks) = marks(alloc, head) else {
        return out.cut();
    };
    match tidy(alloc, built(alloc, out, head, body), marks) {
        Ok(tidied) => {
            out.show("marks ", &tidied.marks.as_slice());
            out.say("\n");
            show(out, &tidied.netlist);
        }
        Err(_) => out.cut(),
    }
}
