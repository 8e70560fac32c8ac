// Whether each output word of a move has its origin.

ghost use Rattle.std.specs.Prelude.{◌≡◌, ◌*◌, ◌%◌, ◌↔◌, ℕ, length, map, IsTrue, Some, slice_get};
ghost use Rattle.ae_sttype.specs.declared.st_type.StType.{StType as Layout};
ghost use Rattle.ae_sttype.specs.StTree.{element_words, st_atoms, st_tree, time};
ghost use Rattle.ae_sttype.specs.Size.{IsInSize};
ghost use Rattle.ae_moves.specs.Trees.{origin_tree};
ghost use Rattle.ae_moves.specs.Origins.{AllInSize, AreOrigins, HasOrigin, IsMove, width_at};

use crate::trip::Origin;
use ae_sttype::StType;
use ae_word::fits_width;

/// Whether this is a move between these layouts, where `source` has one entry for each output word, by element and then by
/// word: all types are in size and take the same clocks, and each origin is there and has the width of its output word, or
/// the fixed word fits it.
pub fn is_move(ins: &[StType], out: &StType, source: &[Origin]) -> bool
    ensures { IsTrue result ↔ IsMove (record { ins = map st_tree ins.now; out = st_tree out.now; origins = map origin_tree source.now }) }
{
    if !out.in_size() {
        return false;
    }
    if !take_time(ins, out.time()) {
        return false;
    }
    if source.len() != out.atoms() as usize * out.element_words() as usize {
        return false;
    }
    are_origins(ins, out, source)
}

// Whether all types are in size and take so many clocks.
fn take_time(ins: &[StType], clocks: u32) -> bool
    ensures { IsTrue result ↔ AllInSize (map st_tree ins.now) clocks }
{
    for k in 0..ins.len() {
        if !takes_time(&ins[k], clocks) {
            return false;
        }
    }
    true
}

fn takes_time(s: &StType, clocks: u32) -> bool
    ensures { IsTrue result ↔ (IsInSize (st_tree s.now) × (time (st_tree s.now) ≡ clocks)) }
{
    s.in_size() && s.time() == clocks
}

// Whether an origin is there with the width, or a fixed word fits it.
fn has_origin(ins: &[StType], width: u32, origin: Origin) -> bool
    requires sizes { (i : ℕ) (t : Layout) → slice_get ins.now i ≡ Some t → IsInSize (st_tree t) }
    ensures { IsTrue result ↔ HasOrigin (map st_tree ins.now) width (origin_tree origin) }
{
    match origin {
        Origin::Fixed(word) => fits_width(word, width),
        Origin::Word {
            input,
            element,
            word,
        } => match ins.get(input as usize) {
            None => false,
            Some(s) => element < s.atoms() && has_width(s, word, width),
        },
    }
}

fn has_width(s: &StType, word: u32, width: u32) -> bool
    ensures { IsTrue result ↔ (width_at (st_tree s.now) word ≡ Some width) }
{
    match s.atom().width(word) {
        None => false,
        Some(own) => own == width,
    }
}

fn are_origins(ins: &[StType], out: &StType, source: &[Origin]) -> bool
    requires sizes { (i : ℕ) (t : Layout) → slice_get ins.now i ≡ Some t → IsInSize (st_tree t) }
    requires out_in_size { IsInSize (st_tree out.now) }
    requires count { length source.now ≡ st_atoms (st_tree out.now) * element_words (st_tree out.now) }
    ensures { IsTrue result ↔ AreOrigins (map st_tree ins.now) (st_tree out.now) (map origin_tree source.now) }
{
    let words = out.element_words();
    for o in 0..source.len() {
        if !origin_fits(ins, out, source[o], o as u32 % words) {
            return false;
        }
    }
    true
}

// Whether an origin has the width of word j of the output's elements.
fn origin_fits(ins: &[StType], out: &StType, origin: Origin, j: u32) -> bool
    requires sizes { (i : ℕ) (t : Layout) → slice_get ins.now i ≡ Some t → IsInSize (st_tree t) }
    ensures { IsTrue result ↔ ((width : ℕ) → width_at (st_tree out.now) j ≡ Some width → HasOrigin (map st_tree ins.now) width (origin_tree origin)) }
{
    match out.atom().width(j) {
        None => true,
        Some(width) => has_origin(ins, width, origin),
    }
}
