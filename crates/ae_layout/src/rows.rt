// Values laid out on rows, and taken up again.

ghost use Rattle.std.specs.Prelude.{◌≡◌, ◌*◌, IfOk, length, vec_len};
ghost use Rattle.ae_sttype.specs.StTree.{st_tree, time, lanes, st_atoms, element_words};
ghost use Rattle.ae_sttype.specs.Slots.{slots};
ghost use Rattle.ae_sttype.specs.Size.{IsInSize};
ghost use Rattle.ae_sttype.specs.Holds.{Holds};
ghost use Rattle.ae_layout.specs.Rows.{rows_run, IsFilled};

use crate::row::push_layout;
use ae_seqtype::Value;
use ae_sttype::StType;
use std::alloc::{AllocError, Global};

/// A row of words for each clock, one after the other; the columns of a row are by lane and then by word.
#[derive(Debug, Drop)]
pub struct Rows {
    pub columns: u32,
    pub words: Vec<u64>,
}

/// The rows in which each element's words stand in its slot, and the fill, modulo 2 to its width, is every other word.
/// An error comes only for want of memory.
pub fn lay_out(alloc: Global, v: &Value, s: &StType, fill: u64) -> Result<Rows, AllocError>
    requires in_size { IsInSize (st_tree s.now) }
    requires words { length v.now ≡ st_atoms (st_tree s.now) * element_words (st_tree s.now) }
    ensures columns { IfOk result (λ rows. rows.columns ≡ lanes (st_tree s.now) * element_words (st_tree s.now)) }
    ensures clocks { IfOk result (λ rows. vec_len rows.words ≡ time (st_tree s.now) * rows.columns) }
    ensures holds { IfOk result (λ rows. Holds (rows_run rows.columns rows.words.items) 0 (element_words (st_tree s.now)) (slots (st_tree s.now)) v.now) }
    ensures filled { IfOk result (λ rows. IsFilled (rows_run rows.columns rows.words.items) (st_tree s.now) fill) }
{
    let mut words = Vec::new(alloc);
    for clock in 0..s.time() {
        push_layout(&mut words, s, &v.words, Some(clock), fill)?;
    }
    let columns = s.lanes() * s.element_words();
    Ok(Rows { columns, words })
}

/// The value whose words stand in the slots of the rows. An error comes only for want of memory.
pub fn take_up(alloc: Global, rows: &Rows, s: &StType) -> Result<Value, AllocError>
    requires in_size { IsInSize (st_tree s.now) }
    requires columns { rows.now.columns ≡ lanes (st_tree s.now) * element_words (st_tree s.now) }
    requires clocks { vec_len rows.now.words ≡ time (st_tree s.now) * rows.now.columns }
    ensures holds { IfOk result (λ v. Holds (rows_run rows.now.columns rows.now.words.items) 0 (element_words (st_tree s.now)) (slots (st_tree s.now)) v) }
    ensures words { IfOk result (λ v. length v ≡ st_atoms (st_tree s.now) * element_words (st_tree s.now)) }
{
    let words = taken_words(alloc, &rows.words, s, s.element_words() as usize)?;
    Ok(Value { words })
}

// The words in the slots, in element order.
fn taken_words(
    alloc: Global,
    rows: &[u64],
    of: &StType,
    width: usize,
) -> Result<Vec<u64>, AllocError>
    requires in_size { IsInSize (st_tree of.now) }
    requires words { width ≡ element_words (st_tree of.now) }
    requires rows { length rows.now ≡ time (st_tree of.now) * (lanes (st_tree of.now) * width) }
    ensures holds { IfOk result (λ value. Holds (rows_run (lanes (st_tree of.now) * width) rows.now) 0 width (slots (st_tree of.now)) value.items) }
    ensures words { IfOk result (λ value. vec_len value ≡ st_atoms (st_tree of.now) * width) }
{
    let columns = of.lanes() as usize * width;
    let mut words = Vec::new(alloc);
    for e in 0..of.atoms() {
        let slot = of.slot(e);
        let start = slot.clock as usize * columns + slot.lane as usize * width;
        words.extend_from_slice(&rows[start..start + width])?;
    }
    Ok(words)
}
