// The type of a line's result.

ghost use Rattle.std.specs.Prelude.{◌≡◌, ◌<◌, [], IfOk, IsTrue, map, Some, None, Option, slice_get};
ghost use Rattle.ae_word.specs.AtomTree.{atom_tree};
ghost use Rattle.ae_seqtype.specs.SeqTree.{in_size, kinds, seq, seq_tree};
ghost use Rattle.ae_seqtype.specs.ValueTree.{fit_kinds};
ghost use Rattle.ae_seq.specs.ProgramTree.{func_tree, op_tree};
ghost use Rattle.ae_seq.specs.Signatures.{result_in, signatures_by};
ghost use Rattle.ae_seq.specs.Trees.{func_trees, lent_types, option_lent_types, option_lent, option_type, param_trees, type_trees, types_of};
ghost use Rattle.ae_seq.specs.Typing.{all_in_size, as_word, bit_and_two_words, called, each_two_type, each_type, fst_type, op_type, pair_type, partition_type, reduce_type, same_types, scan_type, select_type, shift_type, snd_type, types_at, types_of_params, unpartition_type, up_type, where_ok, word_type, zip_type, zipped_type, two_words, one_word};

use crate::{Func, Op, Param};
use ae_seqtype::SeqType;
use ae_word::{Atom, WordOp};
use std::alloc::{AllocError, Global};

type Found = Result<Option<SeqType>, AllocError>;

// The one word.
fn one_word<'a>(args: &[&'a SeqType]) -> Option<&'a SeqType>
    ensures { option_lent result ≡ one_word (lent_types args.now) }
{
    match args {
        [t] => match t {
            SeqType::Atom(Atom::Word(_)) | SeqType::Atom(Atom::Int(_)) => Some(t),
            _ => None,
        },
        _ => None,
    }
}

// Two words of one kind.
fn two_words<'a>(args: &[&'a SeqType]) -> Option<&'a SeqType>
    ensures { option_lent result ≡ two_words (lent_types args.now) }
{
    match args {
        [t, u] => match (*t, *u) {
            (SeqType::Atom(Atom::Word(w)), SeqType::Atom(Atom::Word(v))) if w == v => Some(u),
            (SeqType::Atom(Atom::Int(w)), SeqType::Atom(Atom::Int(v))) if w == v => Some(u),
            _ => None,
        },
        _ => None,
    }
}

// A bit, and two words of one kind.
fn bit_and_two_words<'a>(args: &[&'a SeqType]) -> Option<&'a SeqType>
    ensures { option_lent result ≡ bit_and_two_words (lent_types args.now) }
{
    match args {
        [c, rest @ ..] => {
            if c.is_same(&SeqType::Atom(Atom::Word(1))) {
                two_words(rest)
            } else {
                None
            }
        }
        [] => None,
    }
}

// A copy of a type that was found.
fn copied(alloc: Global, found: Option<&SeqType>) -> Found
    ensures { IfOk result (λ t. option_type t ≡ option_lent found.entry) }
{
    match found {
        Some(t) => Ok(Some(t.copy(alloc)?)),
        None => Ok(None),
    }
}

// A word of this type where operands were found.
fn as_word(a: Atom, found: Option<&SeqType>) -> Option<SeqType>
    ensures { option_type result ≡ as_word (atom_tree a) (option_lent found.entry) }
{
    match found {
        Some(_) => Some(SeqType::Atom(a)),
        None => None,
    }
}

fn word_type(alloc: Global, op: WordOp, args: &[&SeqType]) -> Found
    ensures { IfOk result (λ t. option_type t ≡ word_type op (lent_types args.now)) }
{
    match op {
        WordOp::Add
        | WordOp::Sub
        | WordOp::Mul
        | WordOp::And
        | WordOp::Or
        | WordOp::Xor
        | WordOp::Min
        | WordOp::Max => copied(alloc, two_words(args)),
        WordOp::Not | WordOp::Shl(_) | WordOp::Shr(_) => copied(alloc, one_word(args)),
        WordOp::Eq | WordOp::Lt => Ok(as_word(Atom::Word(1), two_words(args))),
        WordOp::Mux => copied(alloc, bit_and_two_words(args)),
        WordOp::Cast(v) => Ok(as_word(Atom::Word(v), one_word(args))),
        WordOp::SLt | WordOp::SMin | WordOp::SMax | WordOp::Sar(_) | WordOp::SCast(_) => Ok(None),
    }
}

fn pair_type(alloc: Global, first: &SeqType, second: &SeqType) -> Found
    ensures { IfOk result (λ t. option_type t ≡ pair_type (seq_tree first.now) (seq_tree second.now)) }
{
    match (first, second) {
        (SeqType::Atom(a), SeqType::Atom(b)) => {
            let a = Box::new(alloc, a.copy(alloc)?)?;
            let b = Box::new(alloc, b.copy(alloc)?)?;
            Ok(Some(SeqType::Atom(Atom::Pair(a, b))))
        }
        _ => Ok(None),
    }
}

fn fst_type(alloc: Global, pair: &SeqType) -> Found
    ensures { IfOk result (λ t. option_type t ≡ fst_type (seq_tree pair.now)) }
{
    match pair {
        SeqType::Atom(Atom::Pair(first, _)) => Ok(Some(SeqType::Atom(first.copy(alloc)?))),
        _ => Ok(None),
    }
}

fn snd_type(alloc: Global, pair: &SeqType) -> Found
    ensures { IfOk result (λ t. option_type t ≡ snd_type (seq_tree pair.now)) }
{
    match pair {
        SeqType::Atom(Atom::Pair(_, second)) => Ok(Some(SeqType::Atom(second.copy(alloc)?))),
        _ => Ok(None),
    }
}

// A sequence of so many elements of the type.
fn sequence(alloc: Global, count: u32, of: SeqType) -> Found
    ensures { IfOk result (λ t. option_type t ≡ Some (seq count (seq_tree of))) }
{
    let of = Box::new(alloc, of)?;
    Ok(Some(SeqType::Seq(count, of)))
}

fn zipped_type(alloc: Global, first: &SeqType, second: &SeqType) -> Found
    ensures { IfOk result (λ t. option_type t ≡ zipped_type (seq_tree first.now) (seq_tree second.now)) }
{
    match (first, second) {
        (SeqType::Atom(_), SeqType::Atom(_)) => pair_type(alloc, first, second),
        (SeqType::Seq(n, t), SeqType::Seq(m, u)) => {
            if n != m {
                return Ok(None);
            }
            let Some(of) = zipped_type(alloc, t, u)? else {
                return Ok(None);
            };
            sequence(alloc, *n, of)
        }
        _ => Ok(None),
    }
}

fn zip_type(alloc: Global, first: &SeqType, second: &SeqType) -> Found
    ensures { IfOk result (λ t. option_type t ≡ zip_type (seq_tree first.now) (seq_tree second.now)) }
{
    match (first, second) {
        (SeqType::Seq(_, _), SeqType::Seq(_, _)) => zipped_type(alloc, first, second),
        _ => Ok(None),
    }
}

fn reduce_type(alloc: Global, arg: &SeqType) -> Found
    ensures { IfOk result (λ t. option_type t ≡ reduce_type (seq_tree arg.now)) }
{
    match arg {
        SeqType::Seq(_, of) => sequence(alloc, 1, of.copy(alloc)?),
        SeqType::Atom(_) => Ok(None),
    }
}

fn scan_type(alloc: Global, arg: &SeqType) -> Found
    ensures { IfOk result (λ t. option_type t ≡ scan_type (seq_tree arg.now)) }
{
    match arg {
        SeqType::Seq(_, _) => Ok(Some(arg.copy(alloc)?)),
        SeqType::Atom(_) => Ok(None),
    }
}

fn shift_type(alloc: Global, count: u32, arg: &SeqType) -> Found
    ensures { IfOk result (λ t. option_type t ≡ shift_type count (seq_tree arg.now)) }
{
    match arg {
        SeqType::Seq(n, _) if count <= *n => Ok(Some(arg.copy(alloc)?)),
        _ => Ok(None),
    }
}

fn up_type(alloc: Global, count: u32, arg: &SeqType) -> Found
    ensures { IfOk result (λ t. option_type t ≡ up_type count (seq_tree arg.now)) }
{
    match arg {
        SeqType::Seq(1, of) => sequence(alloc, count, of.copy(alloc)?),
        _ => Ok(None),
    }
}

fn select_type(alloc: Global, place: u32, arg: &SeqType) -> Found
    ensures { IfOk result (λ t. option_type t ≡ select_type place (seq_tree arg.now)) }
{
    match arg {
        SeqType::Seq(n, of) if place < *n => sequence(alloc, 1, of.copy(alloc)?),
        _ => Ok(None),
    }
}

fn partition_type(alloc: Global, pieces: u32, size: u32, arg: &SeqType) -> Found
    ensures { IfOk result (λ t. option_type t ≡ partition_type pieces size (seq_tree arg.now)) }
{
    match arg {
        SeqType::Seq(count, of) if *count as u64 == pieces as u64 * size as u64 => {
            let piece = Box::new(alloc, of.copy(alloc)?)?;
            sequence(alloc, pieces, SeqType::Seq(size, piece))
        }
        _ => Ok(None),
    }
}

fn unpartition_type(alloc: Global, arg: &SeqType) -> Found
    requires { IsTrue (in_size (seq_tree arg.now)) }
    ensures { IfOk result (λ t. option_type t ≡ unpartition_type (seq_tree arg.now)) }
{
    let SeqType::Seq(pieces, piece) = arg else {
        return Ok(None);
    };
    let SeqType::Seq(size, of) = &**piece else {
        return Ok(None);
    };
    sequence(alloc, pieces * size, of.copy(alloc)?)
}

fn const_type(alloc: Global, ty: &SeqType, words: &[u64]) -> Found
    ensures { IfOk result (λ t. option_type t ≡ where_ok (fit_kinds words.now (kinds (seq_tree ty.now))) (Some (seq_tree ty.now))) }
{
    if ty.fits_words(words) {
        Ok(Some(ty.copy(alloc)?))
    } else {
        Ok(None)
    }
}

// Whether the arguments have the types of the parameters.
fn same_types(params: &[Param], args: &[&SeqType]) -> bool
    ensures { result ≡ same_types (types_of_params (param_trees params.now)) (lent_types args.now) }
{
    if params.len() != args.len() {
        return false;
    }
    for (index, arg) in args.iter().enumerate() {
        if !params[index].ty.is_same(arg) {
            return false;
        }
    }
    true
}

// The result of a function on arguments of these types, where the functions' items have the types.
fn called(
    alloc: Global,
    funcs: &[Func],
    types: &[Vec<SeqType>],
    callee: u32,
    args: &[&SeqType],
) -> Found
    ensures { IfOk result (λ t. option_type t
        ≡ called (signatures_by (func_trees funcs.now) (types_of types.now)) callee (lent_types args.now)) }
{
    let callee = callee as usize;
    if callee >= funcs.len() || callee >= types.len() {
        return Ok(None);
    }
    let func = &funcs[callee];
    if !same_types(func.params.as_slice(), args) {
        return Ok(None);
    }
    result_type(alloc, func, &types[callee])
}

// The type of a function's first result, where its items have these types.
fn result_type(alloc: Global, func: &Func, items: &[SeqType]) -> Found
    ensures { IfOk result (λ t. option_type t ≡ result_in (func_tree func.now) (type_trees items.now)) }
{
    match func.results.as_slice() {
        [first, ..] => copied(alloc, item_type(items, *first)),
        [] => Ok(None),
    }
}

// The function on each element.
fn each_type(
    alloc: Global,
    funcs: &[Func],
    types: &[Vec<SeqType>],
    callee: u32,
    arg: &SeqType,
) -> Found
    ensures { IfOk result (λ t. option_type t
        ≡ each_type (signatures_by (func_trees funcs.now) (types_of types.now)) callee (seq_tree arg.now)) }
{
    let SeqType::Seq(count, of) = arg else {
        return Ok(None);
    };
    let Some(of) = called(alloc, funcs, types, callee, &[&**of])? else {
        return Ok(None);
    };
    sequence(alloc, *count, of)
}

// The function on the elements of two sequences in pairs.
fn each_two_type(
    alloc: Global,
    funcs: &[Func],
    types: &[Vec<SeqType>],
    callee: u32,
    first: &SeqType,
    second: &SeqType,
) -> Found
    ensures { IfOk result (λ t. option_type t
        ≡ each_two_type (signatures_by (func_trees funcs.now) (types_of types.now)) callee (seq_tree first.now) (seq_tree second.now)) }
{
    let SeqType::Seq(n, t) = first else {
        return Ok(None);
    };
    let SeqType::Seq(m, u) = second else {
        return Ok(None);
    };
    if n != m {
        return Ok(None);
    }
    let Some(of) = called(alloc, funcs, types, callee, &[&**t, &**u])? else {
        return Ok(None);
    };
    sequence(alloc, *n, of)
}

/// The type of a line's result on arguments of these types, where the functions' items have the types.
pub fn op_type(
    alloc: Global,
    funcs: &[Func],
    types: &[Vec<SeqType>],
    op: &Op,
    args: &[&SeqType],
) -> Found
    requires { IsTrue (all_in_size (lent_types args.now)) }
    ensures { IfOk result (λ t. option_type t
        ≡ op_type (signatures_by (func_trees funcs.now) (types_of types.now)) (op_tree op.now) (lent_types args.now)) }
{
    match op {
        Op::Word(op) => word_type(alloc, *op, args),
        Op::CastInt(v) => Ok(as_word(Atom::Int(*v), one_word(args))),
        Op::Call(callee) => called(alloc, funcs, types, *callee, args),
        Op::Const(ty, words) => match args {
            [] => const_type(alloc, ty, words),
            _ => Ok(None),
        },
        Op::Pair => match args {
            [first, second] => pair_type(alloc, first, second),
            _ => Ok(None),
        },
        Op::Zip => match args {
            [first, second] => zip_type(alloc, first, second),
            _ => Ok(None),
        },
        Op::Map2(callee) => match args {
            [first, second] => each_two_type(alloc, funcs, types, *callee, first, second),
            _ => Ok(None),
        },
        Op::Fst => match args {
            [arg] => fst_type(alloc, arg),
            _ => Ok(None),
        },
        Op::Snd => match args {
            [arg] => snd_type(alloc, arg),
            _ => Ok(None),
        },
        Op::Map(callee) => match args {
            [arg] => each_type(alloc, funcs, types, *callee, arg),
            _ => Ok(None),
        },
        Op::Reduce(_) => match args {
            [arg] => reduce_type(alloc, arg),
            _ => Ok(None),
        },
        Op::Scan(_) => match args {
            [arg] => scan_type(alloc, arg),
            _ => Ok(None),
        },
        Op::Shift(count) => match args {
            [arg] => shift_type(alloc, *count, arg),
            _ => Ok(None),
        },
        Op::Up(count) => match args {
            [arg] => up_type(alloc, *count, arg),
            _ => Ok(None),
        },
        Op::Select(place) => match args {
            [arg] => select_type(alloc, *place, arg),
            _ => Ok(None),
        },
        Op::Partition(pieces, size) => match args {
            [arg] => partition_type(alloc, *pieces, *size, arg),
            _ => Ok(None),
        },
        Op::Unpartition => match args {
            [arg] => unpartition_type(alloc, arg),
            _ => Ok(None),
        },
    }
}

/// The type of an item, if there is such an item.
pub fn item_type(items: &[SeqType], item: u32) -> Option<&SeqType>
    ensures { option_lent result ≡ slice_get (type_trees items.now) item }
{
    let item = item as usize;
    if item >= items.len() {
        return None;
    }
    Some(&items[item])
}

// The types of the items that a node takes.
pub fn arg_types<'a>(
    alloc: Global,
    items: &'a [SeqType],
    args: &[u32],
) -> Result<Option<Vec<&'a SeqType>>, AllocError>
    ensures { IfOk result (λ ts. option_lent_types ts ≡ types_at (map Some (type_trees items.now)) args.now) }
{
    let mut found = Vec::new(alloc);
    for arg in args {
        let Some(t) = item_type(items, *arg) else {
            return Ok(None);
        };
        found.push(t)?;
    }
    Ok(Some(found))
}
