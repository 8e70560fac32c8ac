// The longest chains of operators between registers.

use ae_compile::Compiled;
use ae_netlist::{Cell, NetId, PackedCell};
use ae_verilog::Note;
use ae_word::WordOp;
use std::alloc::{AllocError, Global};

// Where a chain ends, and how many operators it has.
#[derive(Clone, Copy)]
struct Chain {
    net: usize,
    operators: u32,
}

// How many operators stand on the way to a net; 0 of a net that does not stand yet.
fn depth_at(depths: &[u32], net: NetId) -> u32 {
    match depths.get(net.0 as usize) {
        Some(depth) => *depth,
        None => 0,
    }
}

// Whether an operator is logic: shifts by constants and casts are wires.
fn is_logic(op: WordOp) -> bool {
    match op {
        WordOp::Shl(_) | WordOp::Shr(_) | WordOp::Sar(_) | WordOp::Cast(_) | WordOp::SCast(_) => {
            false
        }
        WordOp::Add | WordOp::Sub | WordOp::Mul => true,
        WordOp::And | WordOp::Or | WordOp::Xor | WordOp::Not => true,
        WordOp::Min | WordOp::Max | WordOp::Eq | WordOp::Lt | WordOp::Mux => true,
        WordOp::SLt | WordOp::SMin | WordOp::SMax => true,
    }
}

// How many operators stand on the way to a cell, itself among them, behind cells that all stand before it.
fn depth_of(depths: &[u32], cell: Cell) -> u32 {
    match cell {
        Cell::Op(op, args) => {
            let [a, b, c] = args;
            let below = depth_at(depths, a)
                .max(depth_at(depths, b))
                .max(depth_at(depths, c));
            below.saturating_add(u32::from(is_logic(op)))
        }
        Cell::Peek { mem: _, at } => depth_at(depths, at).saturating_add(1),
        Cell::Input(_) | Cell::Const(_) | Cell::Reg { next: _ } => 0,
        Cell::Mem {
            depth: _,
            at: _,
            next: _,
            enable: _,
        } => 0,
    }
}

// Writes the chain of a line, unless no operator stands in it, with a mark where it has more than so many.
fn write_chain(out: &mut String, note: &Note, chain: Chain, most: u32) -> Result<(), AllocError> {
    if chain.operators == 0 {
        return Ok(());
    }
    let (line, name) = (note.line, note.name.as_str());
    let Chain { net, operators } = chain;
    write!(
        out,
        "line {line} {name}: {operators} operators, up to l{line}_n{net}"
    )?;
    if operators > most {
        write!(out, ", over {most}")?;
    }
    out.push_str("\n")
}

// The longest chain of all, and what may be done where it is too long.
fn write_whole(out: &mut String, operators: u32, most: u32) -> Result<(), AllocError> {
    write!(out, "longest: {operators} operators")?;
    if operators > most {
        write!(
            out,
            ", over {most}: operators of latency 0 have no register behind them (docs/COSTS.md)"
        )?;
    }
    out.push_str("\n")
}

// The longest of the chains that end in some cells.
fn longest(depths: &[u32], from: usize, to: usize) -> Chain {
    let mut found = Chain {
        net: from,
        operators: 0,
    };
    for net in from..to {
        if let Some(operators) = depths.get(net) {
            if *operators > found.operators {
                found = Chain {
                    net,
                    operators: *operators,
                };
            }
        }
    }
    found
}

// The number of the first cell of a line, and of the first behind the last line.
fn begin_of(notes: &[Note], number: usize, cells: usize) -> usize {
    match notes.get(number) {
        Some(note) => note.cell as usize,
        None => cells,
    }
}

// How many operators stand on the way to each cell; all cells that it reads in its own clock stand before it.
fn depths_of(alloc: Global, cells: &[PackedCell]) -> Result<Vec<u32>, AllocError> {
    let mut depths = Vec::new(alloc);
    for packed in cells {
        let depth = depth_of(&depths, packed.cell());
        depths.push(depth)?;
    }
    Ok(depths)
}

// The chain of each line, and the longest of all.
fn write_chains(
    out: &mut String,
    notes: &[Note],
    depths: &[u32],
    most: u32,
) -> Result<(), AllocError> {
    let all = depths.len();
    for number in 0..notes.len() {
        if let Some(note) = notes.get(number) {
            let from = begin_of(notes, number, all);
            let to = begin_of(notes, number.saturating_add(1), all);
            write_chain(out, note, longest(depths, from, to), most)?;
        }
    }
    write_whole(out, longest(depths, 0, all).operators, most)
}

/// The longest chain of operators without a register between them that ends in the cells of each line of the program function, in
/// the module of `aeth build S`; those with more than so many are marked. The error comes only for want of memory.
pub fn paths_text(alloc: Global, compiled: &Compiled, most: u32) -> Result<String, AllocError> {
    let depths = depths_of(alloc, compiled.netlist().cells())?;
    let mut out = String::new(alloc);
    write_chains(&mut out, compiled.notes(), &depths, most)?;
    Ok(out)
}
