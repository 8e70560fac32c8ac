// Small circuits, and their layouts.

use crate::nets::{add_sum, net, register};
use ae_netlist::{Cell, Netlist, Port};
use ae_sttype::StType;
use ae_word::{Atom, Width};
use std::alloc::{AllocError, Global};

// A register behind a net of eight bits.
fn late(nl: &mut Netlist, x: u32) -> Option<u32> {
    let Ok(own) = nl.state(Width { bits: 8 }) else {
        return None;
    };
    let Some(r) = register(nl, own.0, 8) else {
        return None;
    };
    let Some(next) = net(nl, x, 8) else {
        return None;
    };
    nl.connect(r, next);
    Some(own.0)
}

fn one(nl: &mut Netlist) -> Option<u32> {
    match nl.add(Width { bits: 8 }, Cell::Const(1)) {
        Ok(net) => Some(net.0),
        Err(_) => None,
    }
}

fn input(nl: &mut Netlist, number: u32) -> Option<u32> {
    match nl.add(Width { bits: 8 }, Cell::Input(Port::Plain(number))) {
        Ok(net) => Some(net.0),
        Err(_) => None,
    }
}

fn added(nl: &mut Netlist, a: u32, b: u32) -> Option<u32> {
    let Some(left) = net(nl, a, 8) else {
        return None;
    };
    let Some(right) = net(nl, b, 8) else {
        return None;
    };
    match add_sum(nl, left, right, Width { bits: 8 }) {
        Ok(net) => Some(net.0),
        Err(_) => None,
    }
}

fn show(nl: &mut Netlist, number: u32) -> Option<()> {
    let Some(net) = net(nl, number, 8) else {
        return None;
    };
    nl.formed();
    if nl.outputs() == u32::MAX {
        return None;
    }
    match nl.add_output(Port::Plain(0), net) {
        Ok(()) => Some(()),
        Err(_) => None,
    }
}

/// The sum of a byte and 1, or of two bytes, some clocks later: a netlist of at most so many cells.
pub fn built(alloc: Global, limit: u32, two: bool, latency: u32) -> Option<Netlist> {
    let mut nl = Netlist::new(alloc, limit);
    let Ok(_reset) = nl.add(Width::BIT, Cell::Input(Port::Reset)) else {
        return None;
    };
    let a = input(&mut nl, 0)?;
    let b = if two {
        input(&mut nl, 1)?
    } else {
        one(&mut nl)?
    };
    let mut y = added(&mut nl, a, b)?;
    for _clock in 0..latency {
        y = late(&mut nl, y)?;
    }
    show(&mut nl, y)?;
    Some(nl)
}

/// So many layouts, each of `n` bytes one after the other and `i` clocks without one.
pub fn layouts(alloc: Global, count: u32, n: u32, i: u32) -> Result<Vec<StType>, AllocError> {
    let mut layouts = Vec::new(alloc);
    for _layout in 0..count {
        let of = Box::new(alloc, StType::Atom(Atom::Word(8)))?;
        layouts.push(StType::T { n, i, of })?;
    }
    Ok(layouts)
}
