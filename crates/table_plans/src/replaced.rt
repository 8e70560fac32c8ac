// Programs that no text says: a line has another operator than it was read with.

use crate::programs::{read, tell_checked};
use ae_parse::ParseFault;
use ae_seq::{Node, Op, Program};
use ae_word::WordOp;
use std::alloc::{AllocError, Global};
use table_text::{Page, number_at, word_at};

fn op_of(word: &str, k: u32) -> Op {
    match word {
        "select" => Op::Select(k),
        "shift" => Op::Shift(k),
        "up" => Op::Up(k),
        "partition_2" => Op::Partition(2, k),
        "reduce_max" => Op::Reduce(WordOp::Max),
        "reduce_sub" => Op::Reduce(WordOp::Sub),
        "scan_add" => Op::Scan(WordOp::Add),
        "cast_int" => Op::CastInt(k),
        "map" => Op::Map(k),
        _ => Op::Word(WordOp::Not),
    }
}

// So many lines of `shift 1`, each of the item above it.
fn add_shifts(alloc: Global, nodes: &mut Vec<Node>, count: u32) -> Result<(), AllocError> {
    for item in 1..count {
        nodes.push(Node {
            name: format!(in alloc; "n{item}")?,
            op: Op::Shift(1),
            args: Vec::from_slice(alloc, &[item])?,
            line: 2,
        })?;
    }
    Ok(())
}

// The only line says something else, or so many lines stand there.
fn replace(alloc: Global, p: &mut Program, word: &str, k: u32) -> Result<(), AllocError> {
    for func in p.funcs.iter_mut() {
        if word == "shifts" {
            add_shifts(alloc, &mut func.nodes, k)?;
        } else {
            for node in func.nodes.iter_mut() {
                node.op = op_of(word, k);
            }
        }
    }
    Ok(())
}

// The program of one line on a type.
fn shift_on(alloc: Global, ty: &str) -> Result<Program, ParseFault> {
    let text = format!(in alloc; "fn main a:{ty}\nb = shift 1 a\nend b\n")?;
    read(alloc, text.as_bytes())
}

/// Whether the program of one line on a type has types: its version, and the line's operator and number.
pub fn tell_replaced(alloc: Global, out: &mut Page, line: &str) -> Result<(), AllocError> {
    match shift_on(alloc, word_at(line, 0)) {
        Ok(mut p) => {
            p.version = number_at(line, 1);
            replace(alloc, &mut p, word_at(line, 2), number_at(line, 3))?;
            tell_checked(alloc, out, p);
        }
        Err(fault) => out.tell(" ", &fault),
    }
    Ok(())
}
