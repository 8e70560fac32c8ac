// The words of a layout in one clock.

ghost use Rattle.std.specs.Prelude.{◌≡◌, ◌*◌, ◌%◌, ◌^◌, ◌<◌, ◌++◌, ℕ, Some, length, OnOk, slice_get};
ghost use Rattle.ae_word.specs.AtomTree.{WordKind, atom_kinds};
ghost use Rattle.ae_sttype.specs.StTree.{element_atom, element_words, lanes, st_atoms, st_tree};
ghost use Rattle.ae_sttype.specs.Size.{IsInSize};
ghost use Rattle.ae_layout.specs.Standing.{lane_words, layout_row, standing, stood_word};

use ae_sttype::StType;
use std::alloc::AllocError;

// The word modulo 2 to a width.
fn low_bits(word: u64, width: u32) -> u64
    ensures { result ≡ word % 2 ^ width }
{
    if width < 64 {
        word % (1 << width)
    } else {
        word
    }
}

// Word j of a lane with so many words, where this element stands, or none.
fn lane_word(s: &StType, size: u32, value: &[u64], element: Option<u32>, j: u32, fill: u64) -> u64
    requires sized { IsInSize (st_tree s.now) }
    requires size { size ≡ element_words (st_tree s.now) }
    requires within { (e : ℕ) → element ≡ Some e → e < st_atoms (st_tree s.now) }
    requires value { (e : ℕ) → element ≡ Some e → length value.now ≡ st_atoms (st_tree s.now) * element_words (st_tree s.now) }
    requires word { j < element_words (st_tree s.now) }
    ensures { (k : WordKind) → slice_get (atom_kinds (element_atom (st_tree s.now))) j ≡ Some k → result ≡ stood_word fill k.width (element_words (st_tree s.now)) value.now j element }
{
    match element {
        Some(e) => value[(e * size + j) as usize],
        None => match s.atom().width(j) {
            Some(width) => low_bits(fill, width),
            None => unreachable!(),
        },
    }
}

// The words of a lane where this element stands, or none.
fn push_lane(
    row: &mut Vec<u64>,
    s: &StType,
    value: &[u64],
    element: Option<u32>,
    fill: u64,
) -> Result<(), AllocError>
    requires sized { IsInSize (st_tree s.now) }
    requires within { (e : ℕ) → element ≡ Some e → e < st_atoms (st_tree s.now) }
    requires value { (e : ℕ) → element ≡ Some e → length value.now ≡ st_atoms (st_tree s.now) * element_words (st_tree s.now) }
    ensures { OnOk result (row.new.items ≡ row.old.items ++ lane_words fill (element_words (st_tree s.now)) value.now element 0 (atom_kinds (element_atom (st_tree s.now)))) }
{
    let size = s.element_words();
    for j in 0..size {
        row.push(lane_word(s, size, value, element, j, fill))?;
    }
    Ok(())
}

// The element that stands on a lane in a clock of a block, and none without a block.
fn standing(s: &StType, clock: Option<u32>, lane: u32) -> Option<u32>
    requires { IsInSize (st_tree s.now) }
    ensures is { result ≡ standing (st_tree s.now) clock lane }
    ensures below { (e : ℕ) → result ≡ Some e → e < st_atoms (st_tree s.now) }
    ensures block { (e : ℕ) → result ≡ Some e → (c : ℕ) × (clock ≡ Some c) }
{
    match clock {
        Some(c) => s.element(c, lane),
        None => None,
    }
}

/// Appends the words of all lanes in a clock of a block, lane by lane: those of the value's element that stands there, and
/// on the other lanes the fill, modulo 2 to the width of each word. Without a block all are the fill. The error comes only
/// for want of memory.
pub fn push_layout(
    row: &mut Vec<u64>,
    s: &StType,
    value: &[u64],
    clock: Option<u32>,
    fill: u64,
) -> Result<(), AllocError>
    requires sized { IsInSize (st_tree s.now) }
    requires value { (c : ℕ) → clock ≡ Some c → length value.now ≡ st_atoms (st_tree s.now) * element_words (st_tree s.now) }
    ensures { OnOk result (row.new.items ≡ row.old.items ++ layout_row fill (st_tree s.now) value.now clock) }
{
    for lane in 0..s.lanes() {
        push_lane(row, s, value, standing(s, clock, lane), fill)?;
    }
    Ok(())
}
