// Lines, their fields, and a mark under a place in one.

use ae_parse::{next_field, next_line, said};
use std::alloc::{AllocError, Global};

// The columns of a line that is shown, and those before its mark where a piece of it is.
const WIDE: usize = 110;

const BEFORE: usize = 60;

/// A field of a line, and how many bytes of the line stand before it.
#[derive(Clone, Copy)]
pub struct Field<'a> {
    pub at: usize,
    pub text: &'a str,
}

/// A place in a line, and what is wrong there.
#[derive(Drop)]
pub struct Finding {
    pub at: usize,
    pub wide: usize,
    pub text: String,
}

/// What is wrong at a place, where there was memory for the text.
pub fn at_place(
    at: usize,
    wide: usize,
    text: Result<String, AllocError>,
) -> Result<Option<Finding>, AllocError> {
    let text = text?;
    Ok(Some(Finding { at, wide, text }))
}

/// What is wrong with a field.
pub fn at_field(
    field: &Field<'_>,
    text: Result<String, AllocError>,
) -> Result<Option<Finding>, AllocError> {
    at_place(field.at, field.text.len(), text)
}

/// Where a field's right neighbour would begin.
pub fn place_behind(field: &Field<'_>) -> usize {
    field.at.saturating_add(field.text.len()).saturating_add(1)
}

/// The bytes as text; a mark where they are none.
pub fn text_of(bytes: &[u8]) -> &str {
    match std::str::from_utf8(bytes) {
        Ok(text) => text,
        Err(_) => "?",
    }
}

/// The fields of what a line says.
pub fn fields<'a>(alloc: Global, line: &'a [u8]) -> Result<Vec<Field<'a>>, AllocError> {
    let whole = said(line);
    let mut fields = Vec::new(alloc);
    let mut rest = whole;
    for _ in 0..whole.len() {
        let Some((field, after)) = next_field(rest) else {
            return Ok(fields);
        };
        let behind = after.len().saturating_add(field.len());
        fields.push(Field {
            at: whole.len().saturating_sub(behind),
            text: text_of(field),
        })?;
        rest = after;
    }
    Ok(fields)
}

/// A line with a number from 1, and how many bytes stand before it.
pub fn line_at(text: &[u8], number: u32) -> Option<(usize, &[u8])> {
    let mut rest = text;
    for _ in 1..number {
        let (_, after) = next_line(rest)?;
        rest = after;
    }
    let (line, _) = next_line(rest)?;
    Some((text.len().saturating_sub(rest.len()), line))
}

/// The number of the line that a byte stands on, from 1, and how many bytes of the line stand before it.
pub fn place_of(text: &[u8], at: usize) -> (u32, usize) {
    let mut number = 1u32;
    let mut column = 0usize;
    for byte in text.iter().take(at) {
        if *byte == b'\n' {
            number = number.saturating_add(1);
            column = 0;
        } else {
            column = column.saturating_add(1);
        }
    }
    (number, column)
}

// A byte in one column.
fn push_byte(out: &mut String, byte: u8) -> Result<(), AllocError> {
    match byte {
        b' '..=b'~' => out.push(char::from(byte)),
        b'\t' => out.push_str(" "),
        _ => out.push_str("?"),
    }
}

// The bytes of a line from one place to another.
fn push_bytes(out: &mut String, line: &[u8], from: usize, to: usize) -> Result<(), AllocError> {
    for byte in line.iter().take(to).skip(from) {
        push_byte(out, *byte)?;
    }
    Ok(())
}

fn push_all(out: &mut String, text: &str, count: usize) -> Result<(), AllocError> {
    for _ in 0..count {
        out.push_str(text)?;
    }
    Ok(())
}

// What stands for the bytes that are left out.
fn dots(is_cut: bool) -> &'static str {
    if is_cut { ".." } else { "" }
}

/// A line with its number, and a mark under a place in it; of a long one the piece round the mark.
pub fn push_marked(
    out: &mut String,
    number: u32,
    line: &[u8],
    at: usize,
    wide: usize,
) -> Result<(), AllocError> {
    let head = out.len();
    let from = at.saturating_sub(BEFORE);
    let to = from.saturating_add(WIDE);
    write!(out, "line {number}: {}", dots(from > 0))?;
    let indent = out.len().saturating_sub(head);
    push_bytes(out, line, from, to)?;
    writeln!(out, "{}", dots(to < line.len()))?;
    push_all(out, " ", at.saturating_sub(from).saturating_add(indent))?;
    push_all(out, "^", wide.min(WIDE - BEFORE).max(1))?;
    out.push_str("\n")
}

/// The line of a finding with its mark, and what is wrong.
pub fn push_finding(
    out: &mut String,
    number: u32,
    line: &[u8],
    finding: &Finding,
) -> Result<(), AllocError> {
    push_marked(out, number, line, finding.at, finding.wide)?;
    writeln!(out, "{}", finding.text.as_str())
}

/// A byte in the text, marked in its line.
pub fn push_place(out: &mut String, text: &[u8], at: usize, wide: usize) -> Result<(), AllocError> {
    let (number, column) = place_of(text, at);
    match line_at(text, number) {
        Some((_, line)) => push_marked(out, number, line, column, wide),
        None => writeln!(out, "line {number}, behind the last"),
    }
}
