// Operators on the words of two values, folds and scans.

ghost use Rattle.std.specs.Prelude.{◌≡◌, ◌∷◌, [], ◌++◌, ◌-◌, ◌*◌, ◌<◌, ◌+◌, ◌^◌, Some, OnOk, IsTrue, IsSome, length, slice_get};
ghost use Rattle.ae_word.specs.AtomTree.{WordKind, atom_in_size, atom_kinds, atom_tree};
ghost use Rattle.ae_word.specs.WordTable.{folds};
ghost use Rattle.ae_seqtype.specs.SeqTree.{in_size, kinds, seq_tree, words};
ghost use Rattle.ae_seqtype.specs.ValueTree.{elements, listed, value_of};
ghost use Rattle.ae_seq.specs.Typing.{reduce_type, scan_type};
ghost use Rattle.ae_seq.specs.Meaning.{coded, fold_all, folds_up_to, wordwise};
ghost use Rattle.ae_eval.specs.Stack.{FitAt, Pushed, combined, window};

use crate::stack::{push_copy, push_word, settle};
use ae_seqtype::SeqType;
use ae_word::{Atom, WordOp, apply, op_for};
use std::alloc::AllocError;

// The operator on two words of the kind that word number place of the atom has.
fn combine(op: WordOp, atom: &Atom, place: u32, a: u64, b: u64) -> u64
    requires folds { IsTrue (folds op) }
    requires sized { IsTrue (atom_in_size (atom_tree atom.now)) }
    requires there { IsSome (slice_get (atom_kinds (atom_tree atom.now)) place) }
    requires first { (k : WordKind) → slice_get (atom_kinds (atom_tree atom.now)) place ≡ Some k → a < 2 ^ k.width }
    requires second { (k : WordKind) → slice_get (atom_kinds (atom_tree atom.now)) place ≡ Some k → b < 2 ^ k.width }
    ensures { (k : WordKind) → slice_get (atom_kinds (atom_tree atom.now)) place ≡ Some k → result ≡ coded op k a b 0 }
{
    let Some(signed) = atom.signed(place) else {
        unreachable!();
    };
    apply(op_for(signed, op), atom.word_width(place), a, b, 0)
}

/// Pushes the operator's results on the words of two values of a type, each by its own kind.
pub fn push_combined(
    stack: &mut Vec<u64>,
    op: WordOp,
    ty: &SeqType,
    left: usize,
    right: usize,
) -> Result<(), AllocError>
    requires folds { IsTrue (folds op) }
    requires sized { IsTrue (in_size (seq_tree ty.now)) }
    requires first { FitAt (seq_tree ty.now) left stack.old.items }
    requires second { FitAt (seq_tree ty.now) right stack.old.items }
    ensures { OnOk result (stack.new.items ≡ stack.old.items ++ combined op (kinds (seq_tree ty.now))
        (window (seq_tree ty.now) left stack.old.items) (window (seq_tree ty.now) right stack.old.items)) }
{
    let atom = ty.atom();
    let size = atom.words();
    for index in 0..ty.words() {
        let a = stack[left + index as usize];
        let b = stack[right + index as usize];
        let word = combine(op, atom, index % size, a, b);
        push_word(stack, word)?;
    }
    Ok(())
}

/// Pushes the left folds of the first elements, of one, of two, up to all.
pub fn push_scanned(
    stack: &mut Vec<u64>,
    op: WordOp,
    ty: &SeqType,
    start: usize,
) -> Result<(), AllocError>
    requires folds { IsTrue (folds op) }
    requires sized { IsTrue (in_size (seq_tree ty.now)) }
    requires fits { FitAt (seq_tree ty.now) start stack.old.items }
    requires typed { IsSome (scan_type (seq_tree ty.now)) }
    ensures { OnOk result (Pushed (scan_type (seq_tree ty.now)) stack.old.items stack.new.items
        (listed (folds_up_to (wordwise op) (length (elements (value_of (seq_tree ty.now) (window (seq_tree ty.now) start stack.old.items))))
        (elements (value_of (seq_tree ty.now) (window (seq_tree ty.now) start stack.old.items)))))) }
{
    let SeqType::Seq(count, of) = ty else {
        unreachable!();
    };
    let size = of.words() as usize;
    let base = stack.len();
    push_copy(stack, start, size)?;
    for index in 1..*count as usize {
        push_combined(
            stack,
            op,
            of,
            base + (index - 1) * size,
            start + index * size,
        )?;
    }
    Ok(())
}

/// Pushes the left fold of the elements.
pub fn push_reduced(
    stack: &mut Vec<u64>,
    op: WordOp,
    ty: &SeqType,
    start: usize,
) -> Result<(), AllocError>
    requires folds { IsTrue (folds op) }
    requires sized { IsTrue (in_size (seq_tree ty.now)) }
    requires fits { FitAt (seq_tree ty.now) start stack.old.items }
    requires typed { IsSome (reduce_type (seq_tree ty.now)) }
    ensures { OnOk result (Pushed (reduce_type (seq_tree ty.now)) stack.old.items stack.new.items
        (listed (fold_all (wordwise op) (elements (value_of (seq_tree ty.now) (window (seq_tree ty.now) start stack.old.items))) ∷ []))) }
{
    let SeqType::Seq(count, of) = ty else {
        unreachable!();
    };
    let size = of.words() as usize;
    let base = stack.len();
    push_scanned(stack, op, ty, start)?;
    settle(stack, base, base + (*count as usize - 1) * size, size);
    Ok(())
}
