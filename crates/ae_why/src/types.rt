// Why a line has no type.

use crate::sorts::{Spot, item_name, node_at, program_of, spot_of, typed_above};
use ae_parse::{next_field, said};
use ae_places::{Field, fields, line_at, push_marked, text_of};
use ae_seq::{Func, Node, Op, Program, Typed};
use ae_seqtype::SeqType;
use ae_word::{WordOp, arity};
use std::alloc::{AllocError, Global};

// What an operator on words takes.
fn word_wants(op: WordOp) -> &'static str {
    if op == WordOp::Mux {
        return "a u1 and then two words of one kind and width";
    }
    match arity(op) {
        1 => "one word",
        _ => "two words of one kind and width",
    }
}

// What a call takes, and the types of its function's parameters.
fn push_params(out: &mut String, p: &Program, number: u32, what: &str) -> Result<(), AllocError> {
    let Some(func) = p.funcs.get(number as usize) else {
        return writeln!(out, "{what}");
    };
    write!(out, "{what}; {} takes", func.name.as_str())?;
    for param in &func.params {
        out.push_str(" ")?;
        param.ty.write_to(out)?;
    }
    out.push_str("\n")
}

// What a constant takes, and how many words it has.
fn push_constant(out: &mut String, ty: &SeqType, words: &[u64]) -> Result<(), AllocError> {
    let what = "a type and as many words as it has, each below 2 to its width";
    if !ty.in_size() {
        return writeln!(out, "{what}");
    }
    writeln!(
        out,
        "{what}; the type has {} words, the line {}",
        ty.words(),
        words.len()
    )
}

// What an operator takes, where that is the same in each of its lines.
fn wants(op: &Op) -> &'static str {
    match op {
        Op::Word(op) => word_wants(*op),
        Op::CastInt(_) => "one word",
        Op::Pair => "two atoms, which are words or pairs; sequences are paired by zip",
        Op::Fst | Op::Snd => "a pair",
        Op::Zip => "two sequences of equal lengths at every level",
        Op::Up(_) => "a sequence of one element, as [1]u8",
        Op::Unpartition => "a sequence of sequences",
        Op::Reduce(_) | Op::Scan(_) => "a sequence",
        Op::Shift(_) | Op::Select(_) | Op::Partition(_, _) => "a sequence",
        Op::Const(_, _) | Op::Call(_) | Op::Map(_) | Op::Map2(_) => "a sequence",
    }
}

// What an operator takes.
fn push_wants(out: &mut String, p: &Program, op: &Op) -> Result<(), AllocError> {
    match op {
        Op::Const(ty, words) => push_constant(out, ty, words),
        Op::Call(f) => push_params(out, p, *f, "the types of the function's parameters"),
        Op::Map(f) => {
            let what = "a function of one parameter and a sequence of such elements";
            push_params(out, p, *f, what)
        }
        Op::Map2(f) => {
            let what = "a function of two parameters and two sequences of one length";
            push_params(out, p, *f, what)
        }
        Op::Shift(k) => writeln!(out, "a sequence of at least {k} elements"),
        Op::Select(k) => writeln!(out, "a sequence of more than {k} elements"),
        Op::Partition(n, m) => {
            let count = u64::from(*n).saturating_mul(u64::from(*m));
            writeln!(out, "a sequence of {count} elements")
        }
        Op::Word(_)
        | Op::CastInt(_)
        | Op::Pair
        | Op::Fst
        | Op::Snd
        | Op::Zip
        | Op::Reduce(_)
        | Op::Scan(_)
        | Op::Up(_)
        | Op::Unpartition => writeln!(out, "{}", wants(op)),
    }
}

// The arguments of a node with their types.
fn push_args(
    out: &mut String,
    typed: &Typed,
    func: &Func,
    node: &Node,
    number: u32,
) -> Result<(), AllocError> {
    for (place, item) in node.args.iter().enumerate() {
        let head = if place == 0 { "here " } else { ", " };
        write!(out, "{head}{} is ", item_name(func, *item))?;
        match typed.ty(number, *item) {
            Some(ty) => ty.write_to(out)?,
            None => out.push_str("?")?,
        }
    }
    if !node.args.is_empty() {
        out.push_str("\n")?;
    }
    Ok(())
}

/// The line with a mark from its operator on; an end line with all of it marked.
pub fn push_line(
    out: &mut String,
    alloc: Global,
    part: &[u8],
    number: u32,
) -> Result<(), AllocError> {
    let Some((_, line)) = line_at(part, number) else {
        return Ok(());
    };
    let found = fields(alloc, line)?;
    let (from, to) = match found.as_slice() {
        [first, .., last] if first.text == "end" => (first.at, end_of(last)),
        [_, _, first, .., last] => (first.at, end_of(last)),
        [_, _, only] => (only.at, end_of(only)),
        _ => (0, 1),
    };
    push_marked(out, number, line, from, to.saturating_sub(from))
}

/// The word of a line's operator, which is its third; no bytes where there is none.
pub fn word_of(part: &[u8], number: u32) -> &str {
    let Some((_, line)) = line_at(part, number) else {
        return "";
    };
    let mut rest = said(line);
    for _ in 0..2 {
        rest = match next_field(rest) {
            Some((_, after)) => after,
            None => return "",
        };
    }
    match next_field(rest) {
        Some((field, _)) => text_of(field),
        None => "",
    }
}

fn end_of(field: &Field<'_>) -> usize {
    field.at.saturating_add(field.text.len())
}

/// The types of a node's arguments, where they are known.
pub fn push_types(
    out: &mut String,
    alloc: Global,
    part: &[u8],
    p: &Program,
    spot: Spot,
) -> Result<(), AllocError> {
    let Some(typed) = typed_above(alloc, part, p, spot)? else {
        return Ok(());
    };
    match node_at(p, spot) {
        Some((func, node)) => push_args(out, &typed, func, node, spot.func),
        None => Ok(()),
    }
}

// What the operator of a node takes.
fn push_rule(out: &mut String, part: &[u8], p: &Program, node: &Node) -> Result<(), AllocError> {
    write!(out, "{} takes ", word_of(part, node.line))?;
    push_wants(out, p, &node.op)
}

// What the operator of a line takes, and the types of its arguments.
fn push_cause(
    out: &mut String,
    alloc: Global,
    part: &[u8],
    p: &Program,
    number: u32,
) -> Result<(), AllocError> {
    let Some(spot) = spot_of(p, number) else {
        return Ok(());
    };
    if let Some((_, node)) = node_at(p, spot) {
        push_rule(out, part, p, node)?;
    }
    push_types(out, alloc, part, p, spot)
}

/// Why the line of a program has no type: what its operator takes, and the types of its arguments.
pub fn bad_type(alloc: Global, part: &[u8], number: u32) -> Result<String, AllocError> {
    let mut out = String::new(alloc);
    push_line(&mut out, alloc, part, number)?;
    if let Some(p) = program_of(alloc, part)? {
        push_cause(&mut out, alloc, part, &p, number)?;
    }
    Ok(out)
}
