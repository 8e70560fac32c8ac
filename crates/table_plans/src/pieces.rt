// Answers to one line: names, numbers, cut texts, rows, names in scope.

ghost use Rattle.std.specs.Prelude.{◌≤◌, IsTrue, All};

use crate::layouts::{tell_case, tell_layouts, tell_origins};
use crate::programs::{LONGEST, read};
use crate::replaced::tell_replaced;
use crate::spelled::bytes_of;
use ae_parse::{Scope, name_text, number, plain_number, read_rows, split};
use ae_seq::is_name;
use std::alloc::{AllocError, Global};
use table_text::{Page, number_at, parted, word_at};

/// Answers a line by what the case's head asks.
pub fn answer(alloc: Global, out: &mut Page, head: &str, line: &str) -> Result<(), AllocError> {
    match word_at(head, 0) {
        "scope" => tell_scope(alloc, out, line)?,
        "replaced" => tell_replaced(alloc, out, line)?,
        "layouts" => tell_layouts(alloc, out, line),
        "case" => tell_case(out, line),
        "origins" => tell_origins(alloc, out, line)?,
        _ => answer_text(alloc, out, head, line)?,
    }
    Ok(())
}

// Answers a spelled text.
fn answer_text(alloc: Global, out: &mut Page, head: &str, line: &str) -> Result<(), AllocError> {
    let bytes = bytes_of(alloc, line)?;
    match word_at(head, 0) {
        "name" => tell_name(alloc, out, &bytes)?,
        "number" => tell_number(out, number(&bytes)),
        "plain" => tell_number(out, plain(&bytes, number_at(head, 1), number_at(head, 2))),
        "split" => tell_split(out, &bytes),
        "refused" => tell_refusal(alloc, out, &bytes),
        "rows" => tell_rows(alloc, out, &bytes, head)?,
        _ => out.say(" not asked so"),
    }
    Ok(())
}

fn tell_name(alloc: Global, out: &mut Page, bytes: &[u8]) -> Result<(), AllocError> {
    if is_name(bytes) {
        out.tell(" ", &name_text(alloc, bytes)?);
    } else {
        out.say(" no name");
    }
    Ok(())
}

// The number from one to another without leading zeros.
fn plain(bytes: &[u8], low: u32, high: u32) -> Option<u64> {
    plain_number(bytes, low, high).map(u64::from)
}

fn tell_number(out: &mut Page, number: Option<u64>) {
    match number {
        Some(number) => out.tell(" ", &number),
        None => out.say(" none"),
    }
}

// Where the program ends, and where its rows begin.
fn tell_split(out: &mut Page, bytes: &[u8]) {
    let (end, start) = split(bytes);
    out.tell(" ", &end);
    match start {
        Some(start) => out.tell(" ", &start),
        None => out.say(" none"),
    }
}

// The line at which a text is no program.
fn tell_refusal(alloc: Global, out: &mut Page, bytes: &[u8]) {
    match read(alloc, bytes) {
        Ok(_) => out.say(" a program"),
        Err(fault) => out.tell(" ", &fault),
    }
}

// The numbers before a remark.
fn widths_of(alloc: Global, head: &str) -> Result<Vec<u32>, AllocError> {
    let (given, _) = parted(head, "#");
    let mut widths = Vec::new(alloc);
    for word in given.split_whitespace().skip(1) {
        widths.push(number_at(word, 0))?;
    }
    Ok(widths)
}

fn are_widths(widths: &[u32]) -> bool
    ensures { IsTrue result → All (λ w. w ≤ 64) widths.now }
{
    widths.iter().all(|width| *width <= 64)
}

// Rows of words of the widths in the head.
fn tell_rows(alloc: Global, out: &mut Page, bytes: &[u8], head: &str) -> Result<(), AllocError> {
    let widths = widths_of(alloc, head)?;
    if bytes.len() >= LONGEST || widths.len() > 1000 || !are_widths(&widths) {
        out.say(" not asked so");
        return Ok(());
    }
    match read_rows(alloc, bytes, &widths) {
        Ok(table) => {
            out.tell(" ", &table.columns);
            out.show(" columns, ", &table.words);
        }
        Err(fault) => out.show(" ", &fault),
    }
    Ok(())
}

// Adds a name, or seeks it.
fn tell_in_scope(
    alloc: Global,
    out: &mut Page,
    scope: &mut Scope,
    name: &[u8],
    is_sought: bool,
) -> Result<(), AllocError> {
    if is_sought {
        tell_number(out, scope.find(name).map(|place| place as u64));
    } else if scope.add(alloc, name)? {
        out.say(" new");
    } else {
        out.say(" known");
    }
    Ok(())
}

// Names are added one after the other, and those behind `?` are sought.
fn tell_scope(alloc: Global, out: &mut Page, line: &str) -> Result<(), AllocError> {
    let mut scope = Scope::new(alloc);
    let mut is_sought = false;
    for word in line.split_whitespace() {
        if word == "?" {
            is_sought = true;
        } else {
            tell_in_scope(alloc, out, &mut scope, word.as_bytes(), is_sought)?;
        }
    }
    Ok(())
}
