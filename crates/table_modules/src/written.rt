// Netlists whose texts are asked for. They have what no program's circuit has: a register and a memory that nothing writes,
// an output of the second result alone, and notes out of order; or the wires of a stream and nothing between them.

ghost use Rattle.std.specs.Prelude.{◌≡◌, IfOk, map, string_bytes};
ghost use Rattle.ae_verilog.specs.Notes.{ArePrinted, note_tree};

use ae_netlist::{Cell, Handshake, NetFault, Netlist, Port};
use ae_sttype::{Slowdown, StType};
use ae_verilog::{Note, Report, write_module};
use ae_word::{Atom, Width};
use std::alloc::{AllocError, Global};

fn in_time(alloc: Global, n: u32, i: u32, of: StType) -> Result<StType, AllocError> {
    let of = Box::new(alloc, of)?;
    Ok(StType::T { n, i, of })
}

fn side_by_side(alloc: Global, n: u32, of: StType) -> Result<StType, AllocError> {
    let of = Box::new(alloc, of)?;
    Ok(StType::S { n, of })
}

fn pair(alloc: Global, left: Atom, right: Atom) -> Result<Atom, AllocError> {
    let left = Box::new(alloc, left)?;
    Ok(Atom::Pair(left, Box::new(alloc, right)?))
}

// The reset, a word of a parameter, a constant, and a register and a memory that nothing writes.
fn small(alloc: Global) -> Result<Netlist, NetFault> {
    let mut nl = Netlist::new(alloc, 8);
    nl.add(Width::BIT, Cell::Input(Port::Reset))?;
    let port = Port::In {
        param: 0,
        lane: 1,
        word: 20,
    };
    nl.add(Width { bits: 8 }, Cell::Input(port))?;
    nl.add(Width { bits: 8 }, Cell::Const(10))?;
    nl.state(Width::BIT)?;
    nl.memory(Width { bits: 16 }, 1)?;
    Ok(nl)
}

// A constant, which the second result shows.
fn second(alloc: Global) -> Result<Netlist, NetFault> {
    let mut nl = Netlist::new(alloc, 1);
    let one = nl.add(Width { bits: 8 }, Cell::Const(1))?;
    let port = Port::Out {
        result: 1,
        lane: 0,
        word: 0,
    };
    match nl.add_output(port, one) {
        Ok(()) => Ok(nl),
        Err(_) => Err(NetFault::Memory),
    }
}

// The wires of a stream: words pass at the source where they pass at the sink.
fn joined(alloc: Global) -> Result<Netlist, NetFault> {
    let mut nl = Netlist::new(alloc, 2);
    let valid = nl.add(
        Width::BIT,
        Cell::Input(Port::Stream(Handshake::SourceValid)),
    )?;
    let ready = nl.add(Width::BIT, Cell::Input(Port::Stream(Handshake::SinkReady)))?;
    nl.add_output(Port::Stream(Handshake::SourceReady), ready)?;
    nl.add_output(Port::Stream(Handshake::SinkValid), valid)?;
    Ok(nl)
}

// A report of zeros.
fn nothing(alloc: Global) -> Report {
    Report {
        slowdown: Slowdown::one(),
        latency: 0,
        muls: 0,
        load: 0,
        enable: false,
        ins: Vec::new(alloc),
        outs: Vec::new(alloc),
    }
}

fn two_parameters(alloc: Global) -> Result<Report, AllocError> {
    let bytes = side_by_side(alloc, 20, StType::Atom(Atom::Word(8)))?;
    let mut report = nothing(alloc);
    if let Some(four) = Slowdown::of(4) {
        report.slowdown = four;
    }
    report.latency = 100;
    report.muls = 3;
    report.load = 62;
    report.ins.push(in_time(alloc, 3, 1, bytes)?)?;
    report.ins.push(StType::Atom(Atom::Int(12)))?;
    report
        .outs
        .push(in_time(alloc, 4, 0, StType::Atom(Atom::Word(1)))?)?;
    Ok(report)
}

fn two_results(alloc: Global) -> Result<Report, AllocError> {
    let both = pair(alloc, Atom::Word(8), Atom::Int(16))?;
    let mut report = nothing(alloc);
    report
        .outs
        .push(side_by_side(alloc, 2, StType::Atom(both))?)?;
    report.outs.push(StType::Atom(Atom::Word(8)))?;
    Ok(report)
}

// A note of two bytes side by side.
fn note(alloc: Global, cell: u32, line: u32, name: &str) -> Result<Note, AllocError>
    ensures { IfOk result (λ n. string_bytes n.name ≡ name.now) }
{
    let name = String::from_str(alloc, name)?;
    let layout = side_by_side(alloc, 2, StType::Atom(Atom::Word(8)))?;
    Ok(Note {
        cell,
        line,
        name,
        layout,
    })
}

// The text of the small netlist.
fn small_text(alloc: Global, report: &Report, notes: &[Note]) -> Result<String, AllocError>
    requires { ArePrinted (map note_tree notes.now) }
{
    let Ok(nl) = small(alloc) else {
        return Err(AllocError);
    };
    write_module(alloc, &nl, report, notes)
}

// One whose cell is before that of the note before it stands behind that note, and one past the cells behind them.
fn noted(alloc: Global) -> Result<String, AllocError> {
    let a = note(alloc, 0, 2, "a")?;
    let b = note(alloc, 3, 30, "b_1")?;
    let c = note(alloc, 3, 4, "c")?;
    let d = note(alloc, 2, 5, "d")?;
    let e = note(alloc, 9, 6, "e")?;
    small_text(alloc, &nothing(alloc), &[a, b, c, d, e])
}

fn numbered(alloc: Global) -> Result<String, AllocError> {
    let report = two_results(alloc)?;
    let Ok(nl) = second(alloc) else {
        return Err(AllocError);
    };
    write_module(alloc, &nl, &report, &[])
}

fn joined_text(alloc: Global) -> Result<String, AllocError> {
    let Ok(nl) = joined(alloc) else {
        return Err(AllocError);
    };
    write_module(alloc, &nl, &nothing(alloc), &[])
}

// The text of a netlist by its name.
pub fn text_of(alloc: Global, name: &str) -> Result<String, AllocError> {
    match name {
        "cells in order" => small_text(alloc, &two_parameters(alloc)?, &[]),
        "several results" => numbered(alloc),
        "notes before cells" => noted(alloc),
        "wires of a stream" => joined_text(alloc),
        _ => String::from_str(alloc, "no netlist\n"),
    }
}
