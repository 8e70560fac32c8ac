// Why a row is not right, and why a run is too long.

use crate::sorts::program_of;
use ae_parse::{next_field, next_line, number, said, split};
use ae_places::{Field, fields, place_behind, place_of, push_marked};
use ae_seq::{Param, Program};
use std::alloc::{AllocError, Global};

// The word that a column wants.
#[derive(Clone, Copy)]
struct Wanted<'a> {
    name: &'a str,
    param: &'a Param,
    word: u32,
    width: u32,
}

// The width of a word of a parameter.
fn width_of(param: &Param, word: u32) -> Option<u32> {
    let atom = param.ty.atom();
    if !atom.in_size() {
        return None;
    }
    let words = atom.words();
    if words == 0 {
        return None;
    }
    atom.width(word % words)
}

fn words_of(param: &Param) -> u32 {
    if param.ty.in_size() {
        param.ty.words()
    } else {
        0
    }
}

// The word that a column from 1 wants, if there is one.
fn wanted_at(p: &Program, column: u32) -> Option<Wanted<'_>> {
    let mut left = column.saturating_sub(1);
    let func = p.funcs.last()?;
    for param in &func.params {
        let words = words_of(param);
        if left < words {
            return Some(Wanted {
                name: param.name.as_str(),
                param,
                word: left,
                width: width_of(param, left)?,
            });
        }
        left = left.saturating_sub(words);
    }
    None
}

// The line of a row, and its number in the input.
fn row_line(input: &[u8], row: u32) -> Option<(u32, &[u8])> {
    let (_, start) = split(input);
    let start = start?;
    let (first, _) = place_of(input, start);
    let mut rest = input.get(start..)?;
    let mut passed = 0u32;
    for line_number in 0..4_294_967_295u32 {
        let (line, after) = next_line(rest)?;
        if next_field(said(line)).is_some() {
            passed = passed.saturating_add(1);
            if passed == row {
                return Some((first.saturating_add(line_number), line));
            }
        }
        rest = after;
    }
    None
}

// The greatest number of so many bits.
fn greatest(width: u32) -> u64 {
    match 2u64.checked_pow(width.min(64)) {
        Some(bound) => bound.saturating_sub(1),
        None => u64::MAX,
    }
}

// Which word of which parameter a column has.
fn push_wanted(out: &mut String, wanted: Wanted<'_>, column: u32) -> Result<(), AllocError> {
    write!(
        out,
        "column {column} is word {} of {}:",
        wanted.word, wanted.name
    )?;
    wanted.param.ty.write_to(out)?;
    writeln!(
        out,
        ", of {} bits: a decimal number up to {}",
        wanted.width,
        greatest(wanted.width)
    )
}

// What is wrong in a column.
fn push_fault(
    out: &mut String,
    found: Option<&Field<'_>>,
    wanted: Option<Wanted<'_>>,
    column: u32,
) -> Result<(), AllocError> {
    let Some(wanted) = wanted else {
        return match found {
            Some(field) => writeln!(
                out,
                "{} is one too many: a row has {} words",
                field.text,
                column.saturating_sub(1)
            ),
            None => out.push_str("the row ends too early\n"),
        };
    };
    match found {
        Some(field) => write!(out, "{} {}: ", field.text, word_fault(field.text))?,
        None => out.push_str("the row ends too early: ")?,
    }
    push_wanted(out, wanted, column)
}

fn word_fault(word: &str) -> &'static str {
    match number(word.as_bytes()) {
        Some(_) => "is too great",
        None => "is no decimal number of 1 to 20 digits",
    }
}

// The field of a column from 1.
fn field_of<'f, 'a>(said: &'f [Field<'a>], column: u32) -> Option<&'f Field<'a>> {
    said.get(column.saturating_sub(1) as usize)
}

// A row with its column marked, or the place behind it.
fn push_column(
    out: &mut String,
    number: u32,
    line: &[u8],
    said: &[Field<'_>],
    column: u32,
) -> Result<(), AllocError> {
    let (at, wide) = match (field_of(said, column), said.last()) {
        (Some(field), _) => (field.at, field.text.len()),
        (None, Some(last)) => (place_behind(last), 1),
        (None, None) => (0, 1),
    };
    push_marked(out, number, line, at, wide)
}

/// Why a row of the input is not right for the program in the part before the rows.
pub fn bad_row(
    alloc: Global,
    part: &[u8],
    input: &[u8],
    row: u32,
    column: u32,
) -> Result<String, AllocError> {
    let mut out = String::new(alloc);
    let Some((number, line)) = row_line(input, row) else {
        return Ok(out);
    };
    let said = fields(alloc, line)?;
    push_column(&mut out, number, line, &said, column)?;
    let p = program_of(alloc, part)?;
    let wanted = match &p {
        Some(p) => wanted_at(p, column),
        None => None,
    };
    push_fault(&mut out, field_of(&said, column), wanted, column)?;
    Ok(out)
}

/// Why a row of the input is not right for a module.
pub fn bad_sim_row(
    alloc: Global,
    input: &[u8],
    row: u32,
    column: u32,
) -> Result<String, AllocError> {
    let mut out = String::new(alloc);
    let Some((number, line)) = row_line(input, row) else {
        return Ok(out);
    };
    let said = fields(alloc, line)?;
    push_column(&mut out, number, line, &said, column)?;
    writeln!(
        out,
        "a row has a decimal number for each input but the clock, in their order, each below 2 to its width; this is column {column}"
    )?;
    Ok(out)
}

// How many rows an input has.
fn row_count(input: &[u8]) -> u64 {
    let (_, start) = split(input);
    let mut rest = match start {
        Some(start) => match input.get(start..) {
            Some(rest) => rest,
            None => return 0,
        },
        None => return 0,
    };
    let mut count = 0u64;
    for _ in 0..input.len() {
        let Some((line, after)) = next_line(rest) else {
            return count;
        };
        if next_field(said(line)).is_some() {
            count = count.saturating_add(1);
        }
        rest = after;
    }
    count
}

/// Why a run is too long, and about how many rows are not.
pub fn long_run(alloc: Global, input: &[u8], size: u64) -> Result<String, AllocError> {
    let mut out = String::new(alloc);
    writeln!(
        out,
        "the run would have {size} words, clock or row numbers among them, and at most 4194304 are written"
    )?;
    let rows = row_count(input);
    if rows > 0 && size > 0 {
        let few = rows.saturating_mul(4_194_304) / size;
        writeln!(out, "there are {rows} rows; give about {few} at a time")?;
    }
    Ok(out)
}
