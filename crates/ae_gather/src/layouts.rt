// The widths of the columns of a layout.

ghost use Rattle.std.specs.Prelude.{◌≡◌, ◌<◌, ◌*◌, ◌%◌, length, IfOk, Some};
ghost use Rattle.ae_sttype.specs.StTree.{element_words, st_tree};
ghost use Rattle.ae_sttype.specs.Size.{IsInSize};
ghost use Rattle.ae_sttype.specs.Moves.{columns_of};
ghost use Rattle.ae_moves.specs.Origins.{width_at};
ghost use Rattle.ae_gather.specs.Gathers.{AreWidths};

use ae_sttype::StType;
use std::alloc::{AllocError, Global};

/// The width of word j of each element.
fn word_width(s: &StType, j: u32) -> u32
    requires { j < element_words (st_tree s.now) }
    ensures { width_at (st_tree s.now) j ≡ Some result }
{
    match s.atom().width(j) {
        Some(width) => width,
        None => unreachable!(),
    }
}

/// The widths of the columns of a layout, by lane and then by word; an error only for want of memory.
pub fn all_widths(alloc: Global, s: &StType) -> Result<Vec<u32>, AllocError>
    requires { IsInSize (st_tree s.now) }
    ensures long { IfOk result (λ v. length v.items ≡ columns_of (st_tree s.now)) }
    ensures widths { IfOk result (λ v. AreWidths (st_tree s.now) v.items) }
{
    let words = s.element_words();
    let columns = s.lanes() * words;
    let mut widths = Vec::new(alloc);
    for q in 0..columns {
        widths.push(word_width(s, q % words))?;
    }
    Ok(widths)
}
