// The lines that tell where cells come from.

ghost use Rattle.std.specs.Prelude.{◌≡◌, ℕ, ◌<◌, ◌≤◌, ◌^◌, ◌++◌, length, map, get_or, IfOk, OnOk, string_bytes};
ghost use Rattle.ae_verilog.specs.Notes.{note_line, note_tree, line_of, lines_of, table_line};

use ae_sttype::StType;
use std::alloc::{AllocError, Global};

/// A line of a program, and where its cells begin.
#[derive(Debug, Drop)]
pub struct Note {
    /// The number of its first cell; where it has none, of the first cell behind it.
    pub cell: u32,
    /// The number of the line in the program's text.
    pub line: u32,
    /// The name of what the line makes.
    pub name: String,
    /// The layout of that.
    pub layout: StType,
}

// The line of a note.
pub fn write_note(out: &mut String, note: &Note) -> Result<(), AllocError>
    ensures text { OnOk result (string_bytes out.new ≡ string_bytes out.old ++ note_line (note_tree note.now)) }
    ensures fits { note.now.line < 2 ^ 32 }
{
    let line = note.line;
    let name = note.name.as_str();
    write!(out, "  // line {line}: {name}, ")?;
    note.layout.write_to(out)?;
    write!(out, "\n")
}

// The line of each of so many cells, 0 where it has none.
pub fn lines_of(alloc: Global, notes: &[Note], cells: usize) -> Result<Vec<u32>, AllocError>
    ensures { IfOk result (λ v. table_line v.items ≡ lines_of (map note_tree notes.now) cells) }
{
    let mut lines = vec![in alloc; 0u32; cells]?;
    tell_lines(lines.as_mut_slice(), notes);
    Ok(lines)
}

// From the last note back: each tells the line of the cells from its own on of which no later one tells it.
fn tell_lines(lines: &mut [u32], notes: &[Note])
    requires { (k : ℕ) → get_or lines.old k 0 ≡ 0 }
    ensures { (k : ℕ) → k < length lines.old → get_or lines.new k 0 ≡ line_of (map note_tree notes.now) k }
{
    let mut first = lines.len();
    let mut left = notes.len();
    while left > 0 {
        left -= 1;
        let note = &notes[left];
        let from = first.min(note.cell as usize);
        set_lines(lines, from, first, note.line);
        first = from;
    }
}

// The line of the cells from one on, up to another.
fn set_lines(lines: &mut [u32], from: usize, to: usize, line: u32)
    requires within { to ≤ length lines.old }
    requires order { from ≤ to }
    ensures between { (k : ℕ) → from ≤ k → k < to → get_or lines.new k 0 ≡ line }
    ensures before { (k : ℕ) → k < from → get_or lines.new k 0 ≡ get_or lines.old k 0 }
    ensures behind { (k : ℕ) → to ≤ k → get_or lines.new k 0 ≡ get_or lines.old k 0 }
{
    for k in from..to {
        lines[k] = line;
    }
}
