// Modules as trees, with their names.

use ae_vmodule::{Drive, Expr, ItemParts, Root, Stmt, StmtRoot, VItem, VModule, WordList};
use ae_vtoken::Tokens;
use std::alloc::{AllocError, Global};

// What stands between the things of a list.
fn push_comma(out: &mut String, turn: usize) -> Result<(), AllocError> {
    out.push_str(if turn > 0 { ", " } else { "" })
}

#[cycle(exprs)]
fn push_expr(out: &mut String, words: &WordList<'_>, e: Expr<'_>) -> Result<(), AllocError> {
    match e.root() {
        Root::Name(name) => write!(out, "Name({:?})", words.name(name)),
        Root::Const { size, value, fits } => write!(
            out,
            "Const {{ size: {size}, value: {value}, fits: {fits} }}"
        ),
        Root::Place(k) => write!(out, "Place({k})"),
        Root::Part { name, high, low } => write!(
            out,
            "Part {{ name: {:?}, high: {high}, low: {low} }}",
            words.name(name)
        ),
        Root::Index { name, at } => {
            write!(out, "Index {{ name: {:?}, at: ", words.name(name))?;
            push_expr(out, words, at)?;
            out.push_str(" }")
        }
        Root::Unary(op, a) => {
            write!(out, "Unary({op:?}, ")?;
            push_expr(out, words, a)?;
            out.push(')')
        }
        Root::Binary(op, a, b) => {
            write!(out, "Binary({op:?}, ")?;
            push_expr(out, words, a)?;
            out.push_str(", ")?;
            push_expr(out, words, b)?;
            out.push(')')
        }
        Root::Choose(test, a, b) => {
            out.push_str("Choose(")?;
            push_expr(out, words, test)?;
            out.push_str(", ")?;
            push_expr(out, words, a)?;
            out.push_str(", ")?;
            push_expr(out, words, b)?;
            out.push(')')
        }
        Root::One(a) => {
            out.push_str("Concat([")?;
            push_expr(out, words, a)?;
            out.push_str("])")
        }
        Root::More(a, rest) => {
            out.push_str("Concat([")?;
            push_expr(out, words, a)?;
            push_parts(out, words, rest)?;
            out.push_str("])")
        }
    }
}

// The parts of a concatenation behind others.
#[cycle(exprs)]
fn push_parts(out: &mut String, words: &WordList<'_>, parts: Expr<'_>) -> Result<(), AllocError> {
    out.push_str(", ")?;
    match parts.root() {
        Root::One(a) => push_expr(out, words, a),
        Root::More(a, rest) => {
            push_expr(out, words, a)?;
            push_parts(out, words, rest)
        }
        _ => push_expr(out, words, parts),
    }
}

#[cycle(stmts)]
fn push_stmt(out: &mut String, words: &WordList<'_>, s: Stmt<'_>) -> Result<(), AllocError> {
    match s.root() {
        StmtRoot::Set { name, value } => {
            write!(out, "Set {{ name: {:?}, value: ", words.name(name))?;
            push_expr(out, words, value)?;
            out.push_str(" }")
        }
        StmtRoot::Put { name, at, value } => {
            write!(out, "Put {{ name: {:?}, at: ", words.name(name))?;
            push_expr(out, words, at)?;
            out.push_str(", value: ")?;
            push_expr(out, words, value)?;
            out.push_str(" }")
        }
        StmtRoot::When(test, yes) => {
            out.push_str("If { test: ")?;
            push_expr(out, words, test)?;
            out.push_str(", yes: ")?;
            push_stmt(out, words, yes)?;
            out.push_str(", no: None }")
        }
        StmtRoot::Either(test, yes, no) => {
            out.push_str("If { test: ")?;
            push_expr(out, words, test)?;
            out.push_str(", yes: ")?;
            push_stmt(out, words, yes)?;
            out.push_str(", no: Some(")?;
            push_stmt(out, words, no)?;
            out.push_str(") }")
        }
        StmtRoot::End => out.push_str("Block([])"),
        StmtRoot::Then(first, rest) => {
            out.push_str("Block([")?;
            push_stmt(out, words, first)?;
            push_stmts(out, words, rest)?;
            out.push_str("])")
        }
    }
}

// The statements of a block behind others.
#[cycle(stmts)]
fn push_stmts(out: &mut String, words: &WordList<'_>, s: Stmt<'_>) -> Result<(), AllocError> {
    match s.root() {
        StmtRoot::End => Ok(()),
        StmtRoot::Then(first, rest) => {
            out.push_str(", ")?;
            push_stmt(out, words, first)?;
            push_stmts(out, words, rest)
        }
        _ => {
            out.push_str(", ")?;
            push_stmt(out, words, s)
        }
    }
}

fn push_drives(out: &mut String, words: &WordList<'_>, drives: &[Drive]) -> Result<(), AllocError> {
    for (turn, drive) in drives.iter().enumerate() {
        push_comma(out, turn)?;
        write!(out, "Drive {{ name: {:?}, value: ", words.name(drive.name))?;
        push_expr(out, words, drive.value.expr())?;
        out.push_str(" }")?;
    }
    Ok(())
}

fn push_item(out: &mut String, words: &WordList<'_>, item: &VItem) -> Result<(), AllocError> {
    match item.parts() {
        ItemParts::Nets(drives) => {
            out.push_str("Nets([")?;
            push_drives(out, words, drives)?;
            out.push_str("])")
        }
        ItemParts::Assign(drives) => {
            out.push_str("Assign([")?;
            push_drives(out, words, drives)?;
            out.push_str("])")
        }
        ItemParts::Always { clock, body } => {
            write!(out, "Always {{ clock: {:?}, body: ", words.name(clock))?;
            push_stmt(out, words, body)?;
            out.push_str(" }")
        }
    }
}

// The items of a module.
pub fn items(alloc: Global, m: &VModule<'_>) -> Result<String, AllocError> {
    let mut out = String::new(alloc);
    for (turn, item) in m.items.iter().enumerate() {
        push_comma(&mut out, turn)?;
        push_item(&mut out, &m.words, item)?;
    }
    Ok(out)
}

// The declared names of a module.
pub fn nets(alloc: Global, m: &VModule<'_>) -> Result<String, AllocError> {
    let mut out = String::new(alloc);
    for (turn, net) in m.nets.iter().enumerate() {
        push_comma(&mut out, turn)?;
        write!(
            out,
            "VNet {{ name: {:?}, width: {}, ranged: {}, kind: {:?}, item: {} }}",
            m.words.name(net.name()),
            net.width(),
            net.ranged(),
            net.kind(),
            net.item()
        )?;
    }
    Ok(out)
}

// The tokens of a text.
pub fn tokens(alloc: Global, tokens: Tokens<'_>) -> Result<String, AllocError> {
    let mut out = String::new(alloc);
    let mut left = tokens;
    for turn in 0..tokens.len() {
        push_comma(&mut out, turn as usize)?;
        if let Some(token) = left.first() {
            write!(out, "{token:?}")?;
        }
        left = left.rest();
    }
    Ok(out)
}
