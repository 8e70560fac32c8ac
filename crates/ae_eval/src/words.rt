// Operators on words.

ghost use Rattle.std.specs.Prelude.{◌≡◌, ◌∷◌, [], ◌≤◌, ◌<◌, Some, OnOk, IsTrue, IsSome};
ghost use Rattle.ae_word.specs.AtomTree.{WordKind};
ghost use Rattle.ae_word.specs.WordTable.{HasRange, OperandsFit, op_for};
ghost use Rattle.ae_seqtype.specs.SeqTree.{in_size, seq_tree};
ghost use Rattle.ae_seqtype.specs.ValueTree.{value_of};
ghost use Rattle.ae_seq.specs.ProgramTree.{word};
ghost use Rattle.ae_seq.specs.Typing.{kind_of, one_word, as_word, word_type};
ghost use Rattle.ae_word.specs.AtomTree.{signed_word};
ghost use Rattle.ae_seq.specs.Meaning.{cast_value, coded, word_value};
ghost use Rattle.ae_eval.specs.Stack.{FitAt, Pushed, window};

use crate::stack::push_word;
use ae_seqtype::SeqType;
use ae_word::{Atom, Width, WordOp, apply, op_for};
use std::alloc::AllocError;

// The operator on words of the type's kind.
fn word_result(op: WordOp, ty: &SeqType, a: u64, b: u64, c: u64) -> u64
    requires word { IsSome (kind_of (seq_tree ty.now)) }
    requires sized { IsTrue (in_size (seq_tree ty.now)) }
    requires range { HasRange op }
    requires fit { (k : WordKind) → kind_of (seq_tree ty.now) ≡ Some k → OperandsFit (op_for k.signed op) k.width a b c }
    ensures { (k : WordKind) → kind_of (seq_tree ty.now) ≡ Some k → result ≡ coded op k a b c }
{
    let SeqType::Atom(atom) = ty else {
        unreachable!();
    };
    match atom {
        Atom::Word(width) => apply(op, Width { bits: *width }, a, b, c),
        Atom::Int(width) => apply(op_for(true, op), Width { bits: *width }, a, b, c),
        Atom::Pair(_, _) => unreachable!(),
    }
}

pub fn push_one_word(
    stack: &mut Vec<u64>,
    op: WordOp,
    ty: &SeqType,
    start: usize,
) -> Result<(), AllocError>
    requires sized { IsTrue (in_size (seq_tree ty.now)) }
    requires fits { FitAt (seq_tree ty.now) start stack.old.items }
    requires typed { IsSome (word_type op (seq_tree ty.now ∷ [])) }
    requires range { HasRange op }
    ensures { OnOk result (Pushed (word_type op (seq_tree ty.now ∷ [])) stack.old.items stack.new.items
        (word_value op (value_of (seq_tree ty.now) (window (seq_tree ty.now) start stack.old.items) ∷ []))) }
{
    let word = word_result(op, ty, stack[start], 0, 0);
    push_word(stack, word)
}

pub fn push_cast(
    stack: &mut Vec<u64>,
    width: u32,
    ty: &SeqType,
    start: usize,
) -> Result<(), AllocError>
    requires sized { IsTrue (in_size (seq_tree ty.now)) }
    requires fits { FitAt (seq_tree ty.now) start stack.old.items }
    requires typed { IsSome (as_word (signed_word width) (one_word (seq_tree ty.now ∷ []))) }
    requires low { 1 ≤ width }
    requires high { width ≤ 64 }
    ensures { OnOk result (Pushed (as_word (signed_word width) (one_word (seq_tree ty.now ∷ []))) stack.old.items stack.new.items
        (cast_value width (value_of (seq_tree ty.now) (window (seq_tree ty.now) start stack.old.items)))) }
{
    let word = word_result(WordOp::Cast(width), ty, stack[start], 0, 0);
    push_word(stack, word)
}

pub fn push_two_words(
    stack: &mut Vec<u64>,
    op: WordOp,
    ty: &SeqType,
    start: usize,
    other: &SeqType,
    place: usize,
) -> Result<(), AllocError>
    requires sized { IsTrue (in_size (seq_tree ty.now)) }
    requires fits { FitAt (seq_tree ty.now) start stack.old.items }
    requires fits_too { FitAt (seq_tree other.now) place stack.old.items }
    requires typed { IsSome (word_type op (seq_tree ty.now ∷ seq_tree other.now ∷ [])) }
    ensures { OnOk result (Pushed (word_type op (seq_tree ty.now ∷ seq_tree other.now ∷ [])) stack.old.items stack.new.items
        (word_value op (value_of (seq_tree ty.now) (window (seq_tree ty.now) start stack.old.items)
        ∷ value_of (seq_tree other.now) (window (seq_tree other.now) place stack.old.items) ∷ []))) }
{
    let word = word_result(op, ty, stack[start], stack[place], 0);
    push_word(stack, word)
}

pub fn push_chosen(
    stack: &mut Vec<u64>,
    op: WordOp,
    test: &SeqType,
    place: usize,
    ty: &SeqType,
    first: usize,
    other: &SeqType,
    second: usize,
) -> Result<(), AllocError>
    requires sized { IsTrue (in_size (seq_tree ty.now)) }
    requires test_fits { FitAt (seq_tree test.now) place stack.old.items }
    requires first_fits { FitAt (seq_tree ty.now) first stack.old.items }
    requires second_fits { FitAt (seq_tree other.now) second stack.old.items }
    requires typed { IsSome (word_type op (seq_tree test.now ∷ seq_tree ty.now ∷ seq_tree other.now ∷ [])) }
    ensures { OnOk result (Pushed (word_type op (seq_tree test.now ∷ seq_tree ty.now ∷ seq_tree other.now ∷ [])) stack.old.items stack.new.items
        (word_value op (value_of (seq_tree test.now) (window (seq_tree test.now) place stack.old.items)
        ∷ value_of (seq_tree ty.now) (window (seq_tree ty.now) first stack.old.items)
        ∷ value_of (seq_tree other.now) (window (seq_tree other.now) second stack.old.items) ∷ []))) }
{
    let word = word_result(op, ty, stack[place], stack[first], stack[second]);
    push_word(stack, word)
}
