// What is put on the inputs in one clock.

ghost use Rattle.std.specs.Prelude.{◌≡◌, ◌++◌, length, map, OnOk, All};
ghost use Rattle.ae_sttype.specs.StTree.{st_tree};
ghost use Rattle.ae_sttype.specs.Size.{IsInSize};
ghost use Rattle.ae_play.specs.Fed.{fill_row, layout_rows, size_of, values_of};

use ae_layout::push_layout;
use ae_sttype::StType;
use std::alloc::AllocError;

/// The words of a block in one of its clocks.
pub fn push_block(
    row: &mut Vec<u64>,
    ins: &[StType],
    words: &[u64],
    clock: u32,
    fill: u64,
) -> Result<(), AllocError>
    requires sized { All IsInSize (map st_tree ins.now) }
    requires words { length words.now ≡ size_of (map st_tree ins.now) }
    ensures { OnOk result (row.new.items ≡ row.old.items ++ layout_rows fill (map st_tree ins.now) (values_of (map st_tree ins.now) words.now) clock) }
{
    let mut first = 0usize;
    for s in ins {
        let size = (s.atoms() * s.element_words()) as usize;
        push_layout(row, s, &words[first..first + size], Some(clock), fill)?;
        first += size;
    }
    Ok(())
}

/// The fill on all inputs.
pub fn push_fill(row: &mut Vec<u64>, ins: &[StType], fill: u64) -> Result<(), AllocError>
    requires sized { All IsInSize (map st_tree ins.now) }
    ensures { OnOk result (row.new.items ≡ row.old.items ++ fill_row fill (map st_tree ins.now)) }
{
    for s in ins {
        push_layout(row, s, &[], None, fill)?;
    }
    Ok(())
}
