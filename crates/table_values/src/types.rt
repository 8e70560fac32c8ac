// Sequence types and their values.

use crate::reader::Reader;
use ae_seqtype::{SeqType, Value};
use ae_word::Atom;
use std::alloc::{AllocError, Global};
use table_text::{Page, numbers, parted};

// A copy of the type of a spelling.
fn type_of(alloc: Global, text: &str) -> Result<SeqType, AllocError> {
    let read = Reader::new(text).sequence(alloc, 32)?;
    read.copy(alloc)
}

// The kinds of an atom's words, up to the first that it has not.
fn tell_kinds(out: &mut Page, atom: &Atom) {
    for k in 0..=64 {
        let (Some(signed), Some(width)) = (atom.signed(k), atom.width(k)) else {
            return out.tell(", no ", &k);
        };
        out.tell(", ", &k);
        out.tell(if signed { " signed " } else { " unsigned " }, &width);
    }
}

fn tell_sizes(out: &mut Page, t: &SeqType) {
    if !t.in_size() {
        return out.say(", not in size");
    }
    out.tell(", in size, atoms ", &t.atoms());
    out.tell(", depth ", &t.depth());
    out.tell(", words ", &t.words());
}

fn tell_spelling(alloc: Global, out: &mut Page, t: &SeqType) {
    match t.print(alloc) {
        Ok(spelling) => out.tell(" -> ", &spelling),
        Err(_) => out.cut(),
    }
}

/// The spelling of a type, its sizes and the kinds of its atom's words: `[2][4](u8,i16)`.
pub fn sizes(alloc: Global, out: &mut Page, text: &str) {
    let Ok(t) = type_of(alloc, text) else {
        return out.cut();
    };
    tell_spelling(alloc, out, &t);
    tell_sizes(out, &t);
    tell_kinds(out, t.atom());
}

fn tell_whether(out: &mut Page, holds: bool) {
    out.say(if holds { " -> yes" } else { " -> no" });
}

/// Whether two types are the same: `u8 and i8`.
pub fn same(alloc: Global, out: &mut Page, text: &str) {
    let (first, second) = parted(text, " and ");
    let Ok(first) = type_of(alloc, first) else {
        return out.cut();
    };
    let Ok(second) = type_of(alloc, second) else {
        return out.cut();
    };
    tell_whether(out, first.is_same(&second));
}

fn tell_fit(alloc: Global, out: &mut Page, value: &Value, text: &str) {
    let Ok(t) = type_of(alloc, text) else {
        return out.cut();
    };
    tell_whether(out, value.fits(&t));
}

/// Whether words are those of a value of a type: `[2](u1,i8): 1 255 0 0`.
pub fn fits(alloc: Global, out: &mut Page, text: &str) {
    let (head, words) = parted(text, ":");
    let Ok(words) = numbers(alloc, words) else {
        return out.cut();
    };
    tell_fit(alloc, out, &Value { words }, head);
}
