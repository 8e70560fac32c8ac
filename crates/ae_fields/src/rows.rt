// Rows of words.

ghost use Rattle.std.specs.Prelude.{◌≡◌, ◌+◌, ◌≤◌, ◌<◌, ◌^◌, ◌++◌, Some, None, IfOk, IfErr, IfNone, All, length, if◌then◌else◌};
ghost use Rattle.std.specs.Str.Parse.{digits_value};
ghost use Rattle.ae_fields.specs.Cut.{fields, lines};
ghost use Rattle.ae_fields.specs.Rows.{is_right, wrong_column, bad_row, row_words, rows, words_in};
ghost use Rattle.ae_fields.specs.RowCauses.{IsBadRow};

use crate::fields::{next_field, said};
use crate::lines::next_line;
use crate::numbers::number;
use std::alloc::{AllocError, Global};

/// Rows of words, one after the other; each has as many words as there are columns.
#[derive(Debug, Drop)]
pub struct Table {
    pub columns: u32,
    pub words: Vec<u64>,
}

/// Why rows are not read.
#[derive(Debug, Drop)]
pub enum RowFault {
    /// The first row that is not right and its least column that is not right, both counted from 1.
    BadWords { row: u32, column: u32 },
    /// Want of memory.
    Memory,
}

impl From<AllocError> for RowFault {
    ghost use Rattle.ae_fields.specs.declared.rows.RowFault.TheVariants.{Memory};

    ghost from_gives = { λ e r. r ≡ Memory };

    fn from(_error: AllocError) -> RowFault {
        RowFault::Memory
    }
}

// The word of a field, if it is right in a column of this width.
fn word(field: &[u8], width: u32) -> Option<u64>
    requires { width ≤ 64 }
    ensures { result ≡ (if is_right width field.now then Some (digits_value 10 field.now) else None) }
{
    match number(field) {
        Some(value) => match 2u64.checked_pow(width) {
            Some(bound) => if value < bound { Some(value) } else { None },
            None => Some(value),
        },
        None => None,
    }
}

// The words of a row put behind others, or the first column that is not right.
fn read_row(words: &mut Vec<u64>, line: &[u8], widths: &[u32]) -> Result<Option<u32>, AllocError>
    requires few { length widths.now ≤ 10000000 }
    requires small { All (λ w. w ≤ 64) widths.now }
    ensures column { IfOk result (λ o. o ≡ wrong_column 1 widths.now (fields line.now)) }
    ensures words { IfOk result (λ o. IfNone o (words.new.items ≡ words.old.items ++ row_words (fields line.now))) }
{
    let mut rest = line;
    let mut column = 0;
    while let Some((field, after)) = next_field(rest) {
        if column >= widths.len() {
            return Ok(Some(column as u32 + 1));
        }
        let Some(word) = word(field, widths[column]) else {
            return Ok(Some(column as u32 + 1));
        };
        words.push(word)?;
        column += 1;
        rest = after;
    }
    Ok(if column < widths.len() {
        Some(column as u32 + 1)
    } else {
        None
    })
}

/// The rows of a text, each of as many words as there are widths, which are in bits.
///
/// A line says what stands before `#`; one that says nothing is no row. `BadWords` names the first row that is not right
/// and in it the least column that is not right: a field that is not 1 to 20 digits with a value below 2 to the column's
/// width, the first column without a field, or the first field past the last column.
pub fn read_rows(alloc: Global, text: &[u8], widths: &[u32]) -> Result<Table, RowFault>
    requires text { length text.now < 2 ^ 32 }
    requires few { length widths.now ≤ 10000000 }
    requires small { All (λ w. w ≤ 64) widths.now }
    ensures right { IfOk result (λ _. bad_row 1 widths.now (rows text.now) ≡ None) }
    ensures table { IfOk result (λ t. (t.columns ≡ length widths.now) × (t.words.items ≡ words_in (rows text.now))) }
    ensures wrong { IfErr result (λ e. IsBadRow e text.now widths.now) }
{
    let mut words = Vec::new(alloc);
    let mut rest = text;
    let mut row = 1usize;
    while let Some((line, after)) = next_line(rest) {
        let said = said(line);
        if next_field(said).is_some() {
            if let Some(column) = read_row(&mut words, said, widths)? {
                return Err(RowFault::BadWords {
                    row: row as u32,
                    column,
                });
            }
            row += 1;
        }
        rest = after;
    }
    Ok(Table {
        columns: widths.len() as u32,
        words,
    })
}
