// Operators that only move words.

ghost use Rattle.std.specs.Prelude.{◌-◌, ◌*◌, ◌+◌, OnOk, IsTrue, IsSome, take, drop, map};
ghost use Rattle.ae_seqtype.specs.SeqTree.{in_size, repeated, seq_tree};
ghost use Rattle.ae_seqtype.specs.ValueTree.{both, cut, elements, listed, value_of};
ghost use Rattle.ae_seq.specs.Typing.{fst_type, pair_type, partition_type, select_type, shift_type, snd_type, unpartition_type, up_type, zip_type};
ghost use Rattle.ae_seq.specs.Meaning.{first_part, joined, second_part, shifted, zipped};
ghost use Rattle.ae_eval.specs.Stack.{FitAt, Pushed, window};

use crate::stack::{push_copies, push_copy, push_paired, push_zeros};
use ae_seqtype::SeqType;
use ae_word::Atom;
use std::alloc::AllocError;

pub fn push_pair(
    stack: &mut Vec<u64>,
    ty: &SeqType,
    start: usize,
    other: &SeqType,
    place: usize,
) -> Result<(), AllocError>
    requires sized { IsTrue (in_size (seq_tree ty.now)) }
    requires sized_too { IsTrue (in_size (seq_tree other.now)) }
    requires fits { FitAt (seq_tree ty.now) start stack.old.items }
    requires fits_too { FitAt (seq_tree other.now) place stack.old.items }
    requires typed { IsSome (pair_type (seq_tree ty.now) (seq_tree other.now)) }
    ensures { OnOk result (Pushed (pair_type (seq_tree ty.now) (seq_tree other.now)) stack.old.items stack.new.items
        (both (value_of (seq_tree ty.now) (window (seq_tree ty.now) start stack.old.items))
        (value_of (seq_tree other.now) (window (seq_tree other.now) place stack.old.items)))) }
{
    push_copy(stack, start, ty.words() as usize)?;
    push_copy(stack, place, other.words() as usize)
}

pub fn push_fst(stack: &mut Vec<u64>, ty: &SeqType, start: usize) -> Result<(), AllocError>
    requires sized { IsTrue (in_size (seq_tree ty.now)) }
    requires fits { FitAt (seq_tree ty.now) start stack.old.items }
    requires typed { IsSome (fst_type (seq_tree ty.now)) }
    ensures { OnOk result (Pushed (fst_type (seq_tree ty.now)) stack.old.items stack.new.items
        (first_part (value_of (seq_tree ty.now) (window (seq_tree ty.now) start stack.old.items)))) }
{
    let SeqType::Atom(atom) = ty else {
        unreachable!();
    };
    let Atom::Pair(first, _) = atom else {
        unreachable!();
    };
    push_copy(stack, start, first.words() as usize)
}

pub fn push_snd(stack: &mut Vec<u64>, ty: &SeqType, start: usize) -> Result<(), AllocError>
    requires sized { IsTrue (in_size (seq_tree ty.now)) }
    requires fits { FitAt (seq_tree ty.now) start stack.old.items }
    requires typed { IsSome (snd_type (seq_tree ty.now)) }
    ensures { OnOk result (Pushed (snd_type (seq_tree ty.now)) stack.old.items stack.new.items
        (second_part (value_of (seq_tree ty.now) (window (seq_tree ty.now) start stack.old.items)))) }
{
    let SeqType::Atom(atom) = ty else {
        unreachable!();
    };
    let Atom::Pair(first, second) = atom else {
        unreachable!();
    };
    push_copy(
        stack,
        start + first.words() as usize,
        second.words() as usize,
    )
}

pub fn push_shifted(
    stack: &mut Vec<u64>,
    count: u32,
    ty: &SeqType,
    start: usize,
) -> Result<(), AllocError>
    requires sized { IsTrue (in_size (seq_tree ty.now)) }
    requires fits { FitAt (seq_tree ty.now) start stack.old.items }
    requires typed { IsSome (shift_type count (seq_tree ty.now)) }
    ensures { OnOk result (Pushed (shift_type count (seq_tree ty.now)) stack.old.items stack.new.items
        (listed (shifted count (elements (value_of (seq_tree ty.now) (window (seq_tree ty.now) start stack.old.items)))))) }
{
    let SeqType::Seq(_, of) = ty else {
        unreachable!();
    };
    let lead = count as usize * of.words() as usize;
    push_zeros(stack, lead)?;
    push_copy(stack, start, ty.words() as usize - lead)
}

pub fn push_up(
    stack: &mut Vec<u64>,
    count: u32,
    ty: &SeqType,
    start: usize,
) -> Result<(), AllocError>
    requires sized { IsTrue (in_size (seq_tree ty.now)) }
    requires fits { FitAt (seq_tree ty.now) start stack.old.items }
    requires typed { IsSome (up_type count (seq_tree ty.now)) }
    ensures { OnOk result (Pushed (up_type count (seq_tree ty.now)) stack.old.items stack.new.items
        (listed (repeated count (elements (value_of (seq_tree ty.now) (window (seq_tree ty.now) start stack.old.items)))))) }
{
    push_copies(stack, count, start, ty.words() as usize)
}

pub fn push_selected(
    stack: &mut Vec<u64>,
    place: u32,
    ty: &SeqType,
    start: usize,
) -> Result<(), AllocError>
    requires sized { IsTrue (in_size (seq_tree ty.now)) }
    requires fits { FitAt (seq_tree ty.now) start stack.old.items }
    requires typed { IsSome (select_type place (seq_tree ty.now)) }
    ensures { OnOk result (Pushed (select_type place (seq_tree ty.now)) stack.old.items stack.new.items
        (listed (take 1 (drop place (elements (value_of (seq_tree ty.now) (window (seq_tree ty.now) start stack.old.items))))))) }
{
    let SeqType::Seq(_, of) = ty else {
        unreachable!();
    };
    let size = of.words() as usize;
    push_copy(stack, start + place as usize * size, size)
}

pub fn push_partitioned(
    stack: &mut Vec<u64>,
    pieces: u32,
    size: u32,
    ty: &SeqType,
    start: usize,
) -> Result<(), AllocError>
    requires sized { IsTrue (in_size (seq_tree ty.now)) }
    requires fits { FitAt (seq_tree ty.now) start stack.old.items }
    requires typed { IsSome (partition_type pieces size (seq_tree ty.now)) }
    ensures { OnOk result (Pushed (partition_type pieces size (seq_tree ty.now)) stack.old.items stack.new.items
        (listed (map listed (cut pieces size (elements (value_of (seq_tree ty.now) (window (seq_tree ty.now) start stack.old.items))))))) }
{
    let all = ty.words() as usize;
    push_copy(stack, start, all)
}

pub fn push_unpartitioned(
    stack: &mut Vec<u64>,
    ty: &SeqType,
    start: usize,
) -> Result<(), AllocError>
    requires sized { IsTrue (in_size (seq_tree ty.now)) }
    requires fits { FitAt (seq_tree ty.now) start stack.old.items }
    requires typed { IsSome (unpartition_type (seq_tree ty.now)) }
    ensures { OnOk result (Pushed (unpartition_type (seq_tree ty.now)) stack.old.items stack.new.items
        (listed (joined (elements (value_of (seq_tree ty.now) (window (seq_tree ty.now) start stack.old.items)))))) }
{
    push_copy(stack, start, ty.words() as usize)
}

pub fn push_zipped(
    stack: &mut Vec<u64>,
    ty: &SeqType,
    start: usize,
    other: &SeqType,
    place: usize,
) -> Result<(), AllocError>
    requires sized { IsTrue (in_size (seq_tree ty.now)) }
    requires sized_too { IsTrue (in_size (seq_tree other.now)) }
    requires fits { FitAt (seq_tree ty.now) start stack.old.items }
    requires fits_too { FitAt (seq_tree other.now) place stack.old.items }
    requires typed { IsSome (zip_type (seq_tree ty.now) (seq_tree other.now)) }
    ensures { OnOk result (Pushed (zip_type (seq_tree ty.now) (seq_tree other.now)) stack.old.items stack.new.items
        (zipped (value_of (seq_tree ty.now) (window (seq_tree ty.now) start stack.old.items))
        (value_of (seq_tree other.now) (window (seq_tree other.now) place stack.old.items)))) }
{
    let size = ty.atom().words() as usize;
    let next = other.atom().words() as usize;
    push_paired(stack, ty.atoms() as usize, start, size, place, next)
}
