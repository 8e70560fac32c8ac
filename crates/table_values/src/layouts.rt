// Layouts: where their elements stand, and values on their rows.

ghost use Rattle.std.specs.Prelude.{◌≡◌, ◌*◌};
ghost use Rattle.std.specs.Vec.{vec_len};
ghost use Rattle.ae_sttype.specs.StTree.{element_words, lanes, st_tree, time};
ghost use Rattle.ae_sttype.specs.Size.{IsInSize};

use crate::reader::Reader;
use ae_layout::{Rows, lay_out, slots, take_up};
use ae_seqtype::Value;
use ae_sttype::StType;
use std::alloc::{AllocError, Global};
use table_text::{Page, number_at, numbers, parted};

/// A copy of the layout of a spelling.
pub fn layout_of(alloc: Global, text: &str) -> Result<StType, AllocError> {
    let read = Reader::new(text).layout(alloc, 32)?;
    read.copy(alloc)
}

/// Whether a layout is in size.
pub fn size(alloc: Global, out: &mut Page, text: &str) {
    match layout_of(alloc, text) {
        Ok(t) if t.in_size() => out.say(" -> in size"),
        Ok(_) => out.say(" -> not in size"),
        Err(_) => out.cut(),
    }
}

fn tell_sizes(out: &mut Page, t: &StType)
    requires { IsInSize (st_tree t.now) }
{
    out.tell(", clocks ", &t.time());
    out.tell(", lanes ", &t.lanes());
    out.tell(", elements ", &t.atoms());
    out.say(" of ");
    let done = t.atom().write_to(out.text());
    out.note(done);
}

fn tell_slots(out: &mut Page, t: &StType)
    requires { IsInSize (st_tree t.now) }
{
    out.say(", slots");
    for slot in slots(t) {
        out.tell(" ", &slot.clock);
        out.tell(".", &slot.lane);
    }
}

// The elements in a clock, one for each lane, and for the first lane that is not there.
fn tell_clock(out: &mut Page, t: &StType, clock: u32)
    requires { IsInSize (st_tree t.now) }
{
    out.tell("\n  clock ", &clock);
    out.say(if t.live(clock) {
        " live:"
    } else {
        " not live:"
    });
    for lane in 0..=t.lanes() {
        match t.element(clock, lane) {
            Some(element) => out.tell(" ", &element),
            None => out.say(" -"),
        }
    }
}

fn tell_places(out: &mut Page, t: &StType) {
    if !t.in_size() {
        return out.say(", not in size");
    }
    tell_sizes(out, t);
    tell_slots(out, t);
    for clock in 0..=t.time() {
        tell_clock(out, t, clock);
    }
}

fn tell_spelling(alloc: Global, out: &mut Page, t: &StType) {
    match t.print(alloc) {
        Ok(spelling) => out.tell(" -> ", &spelling),
        Err(_) => out.cut(),
    }
}

/// The sizes and slots of a layout, and the elements of each clock, also of the first that is not there.
pub fn places(alloc: Global, out: &mut Page, text: &str) {
    let Ok(t) = layout_of(alloc, text) else {
        return out.cut();
    };
    tell_spelling(alloc, out, &t);
    tell_places(out, &t);
}

// The rows, and what is taken up from them.
fn tell_rows(alloc: Global, out: &mut Page, t: &StType, rows: &Rows)
    requires in_size { IsInSize (st_tree t.now) }
    requires columns { rows.now.columns ≡ lanes (st_tree t.now) * element_words (st_tree t.now) }
    requires clocks { vec_len rows.now.words ≡ time (st_tree t.now) * rows.now.columns }
{
    out.tell(" -> columns ", &rows.columns);
    out.say(":");
    out.tell_all(" ", &rows.words);
    out.say(", taken up:");
    match take_up(alloc, rows, t) {
        Ok(taken) => out.tell_all(" ", &taken.words),
        Err(_) => out.cut(),
    }
}

fn tell_value(alloc: Global, out: &mut Page, value: &Value, spelling: &str, fill: u64) {
    let Ok(t) = layout_of(alloc, spelling) else {
        return out.cut();
    };
    if !t.in_size() || value.words.len() != t.atoms() as usize * t.element_words() as usize {
        return out.say(" -> no value");
    }
    match lay_out(alloc, value, &t, fill) {
        Ok(rows) => tell_rows(alloc, out, &t, &rows),
        Err(_) => out.cut(),
    }
}

/// The rows of a value's words, and what is taken up from them: `SSeq 2 u8 filled by 300: 1 2`.
pub fn rows(alloc: Global, out: &mut Page, text: &str) {
    let (head, words) = parted(text, ":");
    let (spelling, fill) = parted(head, " filled by ");
    let Ok(words) = numbers(alloc, words) else {
        return out.cut();
    };
    let fill = u64::from(number_at(fill, 0));
    tell_value(alloc, out, &Value { words }, spelling, fill);
}
