// What the words of an element are folded by.

ghost use Rattle.std.specs.Prelude.{◌≡◌, ◌<◌, length, map, IfOk, Some, slice_get};
ghost use Rattle.std.specs.Option.{option_map};
ghost use Rattle.ae_word.specs.AtomTree.{atom_kinds, atom_tree};
ghost use Rattle.ae_sttype.specs.StTree.{element_atom, st_tree};
ghost use Rattle.ae_sttype.specs.Size.{IsInSize};
ghost use Rattle.ae_fold.specs.Folding.{fold_by};

use ae_sttype::StType;
use ae_word::{Atom, WordOp, op_for};
use std::alloc::{AllocError, Global};

/// The operator of one word of an atom, on words of so many bits.
#[derive(Clone, Copy, Debug)]
pub struct WordFold {
    pub op: WordOp,
    pub width: u32,
}

/// What word j of an atom is folded by: on signed words the signed operator.
fn word_fold(op: WordOp, atom: &Atom, j: u32) -> WordFold
    requires { j < length (atom_kinds (atom_tree atom.now)) }
    ensures { Some result ≡ option_map (fold_by op) (slice_get (atom_kinds (atom_tree atom.now)) j) }
{
    match (atom.signed(j), atom.width(j)) {
        (Some(signed), Some(width)) => WordFold {
            op: op_for(signed, op),
            width,
        },
        _ => unreachable!(),
    }
}

/// What the words of an element's atom are folded by; an error only for want of memory.
pub fn word_folds(alloc: Global, op: WordOp, element: &StType) -> Result<Vec<WordFold>, AllocError>
    requires { IsInSize (st_tree element.now) }
    ensures folds { IfOk result (λ folds. folds.items ≡ map (fold_by op) (atom_kinds (element_atom (st_tree element.now)))) }
{
    let atom = element.atom();
    let mut folds = Vec::new(alloc);
    for j in 0..element.element_words() {
        folds.push(word_fold(op, atom, j))?;
    }
    Ok(folds)
}
