// Why a text is no dump that is read.

use ae_places::push_place;
use std::alloc::{AllocError, Global};

fn is_blank(byte: u8) -> bool {
    matches!(byte, b' ' | 9..=13)
}

// Where the word with a number from 0 begins and ends.
fn word_place(text: &[u8], number: u32) -> Option<(usize, usize)> {
    let mut passed = 0u32;
    let mut from: Option<usize> = None;
    for (at, byte) in text.iter().enumerate() {
        match (is_blank(*byte), from) {
            (true, Some(begin)) => {
                if passed == number {
                    return Some((begin, at));
                }
                passed = passed.saturating_add(1);
                from = None;
            }
            (false, None) => from = Some(at),
            _ => (),
        }
    }
    match from {
        Some(begin) if passed == number => Some((begin, text.len())),
        _ => None,
    }
}

// What a word has wrong, by how it begins.
fn word_fault(word: &[u8]) -> &'static str {
    match word {
        b"$dumpoff" => "$dumpoff writes x for all words: leave it out",
        [b'r', ..] | [b'R', ..] => "real numbers are not read: leave them out of $dumpvars",
        [b'x', ..] | [b'X', ..] | [b'z', ..] | [b'Z', ..] | [b'b', b'x', ..] | [b'b', b'z', ..] => {
            "words have two values, and x and z are none: begin the dump behind the reset"
        }
        _ =>
            "here it shows that the text is no dump of two-valued words in the form that is read (docs/WAVES.md)",
    }
}

/// Why a text is no dump, by its first bad word.
pub fn bad_wave(alloc: Global, text: &[u8], number: u32) -> Result<String, AllocError> {
    let mut out = String::new(alloc);
    let Some((from, to)) = word_place(text, number) else {
        out.push_str("the text ends within a command, or before $enddefinitions $end\n")?;
        return Ok(out);
    };
    push_place(&mut out, text, from, to.saturating_sub(from))?;
    if let Some(word) = text.get(from..to) {
        writeln!(out, "{}", word_fault(word))?;
    }
    Ok(out)
}
