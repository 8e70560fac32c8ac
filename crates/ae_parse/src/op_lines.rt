// Operator lines: an operator's word, the fields that belong to it, and its arguments.

ghost use Rattle.std.specs.Prelude.{◌≡◌, ◌<◌, [], IfOk, length, option_map};
ghost use Rattle.ae_seqtype.specs.SeqTree.{seq_tree};
ghost use Rattle.ae_seq.specs.ProgramTree.{op_tree};
ghost use Rattle.ae_fields.specs.Cut.{fields};
ghost use Rattle.ae_fields.specs.View.{items_in, op_rest};
ghost use Rattle.ae_fields.specs.Words.{cast_op, const_from, const_of, headed_from, headed_op, operator_from, partition_from, partition_of, words_after};
ghost use Rattle.ae_fields.specs.Grammar.{places_after};

use crate::op_words::{bare_op, cast_of, fold_op, func_op, numbered_op, place};
use ae_fields::{Scope, next_field, number, plain, read_type};
use ae_seq::Op;
use ae_seqtype::SeqType;
use std::alloc::{AllocError, Global};

// The words of a constant.
fn const_words(alloc: Global, line: &[u8]) -> Result<Option<Vec<u64>>, AllocError>
    ensures { IfOk result (λ o. option_map items_in o ≡ words_after [] (fields line.now)) }
{
    let mut words = Vec::new(alloc);
    let mut rest = line;
    while let Some((field, after)) = next_field(rest) {
        let Some(word) = number(field) else {
            return Ok(None);
        };
        words.push(word)?;
        rest = after;
    }
    Ok(Some(words))
}

// A constant of a type, with the words on the line.
fn const_of(alloc: Global, ty: SeqType, line: &[u8]) -> Result<Option<Op>, AllocError>
    ensures { IfOk result (λ o. option_map op_tree o ≡ const_of (seq_tree ty) (fields line.now)) }
{
    match const_words(alloc, line)? {
        Some(words) => Ok(Some(Op::Const(ty, words))),
        None => Ok(None),
    }
}

// A constant from its type and what follows it.
fn read_const(alloc: Global, version: u32, ty: &[u8], line: &[u8]) -> Result<Option<Op>, AllocError>
    ensures { IfOk result (λ o. option_map op_tree o ≡ const_from version ty.now (fields line.now)) }
{
    let Some(ty) = read_type(alloc, version, ty)? else {
        return Ok(None);
    };
    const_of(alloc, ty, line)
}

fn partition_of(pieces: &[u8], size: &[u8]) -> Option<Op>
    ensures { option_map op_tree result ≡ partition_of pieces.now size.now }
{
    match (plain(pieces, 1, 4096), plain(size, 1, 4096)) {
        (Some(pieces), Some(size)) => Some(Op::Partition(pieces, size)),
        _ => None,
    }
}

// A partition from its first number and what follows it.
fn read_partition<'a>(pieces: &[u8], line: &'a [u8]) -> Option<(Op, &'a [u8])>
    ensures { option_map op_rest result ≡ partition_from pieces.now (fields line.now) }
{
    let Some((size, after)) = next_field(line) else {
        return None;
    };
    match partition_of(pieces, size) {
        Some(op) => Some((op, after)),
        None => None,
    }
}

fn cast_op(alloc: Global, version: u32, word: &[u8], ty: &[u8]) -> Result<Option<Op>, AllocError>
    ensures { IfOk result (λ o. option_map op_tree o ≡ cast_op version word.now ty.now) }
{
    if word != b"cast".as_slice() {
        return Ok(None);
    }
    match read_type(alloc, version, ty)? {
        Some(ty) => Ok(cast_of(&ty)),
        None => Ok(None),
    }
}

// The operator of a word and one field before the arguments.
fn headed_op(
    alloc: Global,
    version: u32,
    funcs: usize,
    names: &Scope,
    word: &[u8],
    field: &[u8],
) -> Result<Option<Op>, AllocError>
    requires { length names.now < 4294967296 }
    ensures { IfOk result (λ o. option_map op_tree o ≡ headed_op version funcs names.now word.now field.now) }
{
    if let Some(op) = numbered_op(word, field) {
        return Ok(Some(op));
    }
    if let Some(op) = func_op(funcs, names, word, field) {
        return Ok(Some(op));
    }
    if let Some(op) = fold_op(version, word, field) {
        return Ok(Some(op));
    }
    cast_op(alloc, version, word, field)
}

// A word and a field behind it, and what follows.
fn read_headed<'a>(
    alloc: Global,
    version: u32,
    funcs: usize,
    names: &Scope,
    word: &[u8],
    field: &[u8],
    line: &'a [u8],
) -> Result<Option<(Op, &'a [u8])>, AllocError>
    requires { length names.now < 4294967296 }
    ensures { IfOk result (λ o. option_map op_rest o ≡ headed_from version funcs names.now word.now field.now (fields line.now)) }
{
    if word == b"const".as_slice() {
        match read_const(alloc, version, field, line)? {
            Some(op) => Ok(Some((op, &line[..0]))),
            None => Ok(None),
        }
    } else if word == b"partition".as_slice() {
        Ok(read_partition(field, line))
    } else {
        match headed_op(alloc, version, funcs, names, word, field)? {
            Some(op) => Ok(Some((op, line))),
            None => Ok(None),
        }
    }
}

// The operator of a line, and what follows it.
pub(crate) fn read_operator<'a>(
    alloc: Global,
    version: u32,
    funcs: usize,
    names: &Scope,
    word: &[u8],
    line: &'a [u8],
) -> Result<Option<(Op, &'a [u8])>, AllocError>
    requires { length names.now < 4294967296 }
    ensures { IfOk result (λ o. option_map op_rest o ≡ operator_from version funcs names.now word.now (fields line.now)) }
{
    if let Some(op) = bare_op(word) {
        return Ok(Some((op, line)));
    }
    match next_field(line) {
        Some((field, after)) => { read_headed(alloc, version, funcs, names, word, field, after) }
        None => Ok(None),
    }
}

// The numbers of the names on a line.
pub(crate) fn places(
    alloc: Global,
    names: &Scope,
    line: &[u8],
) -> Result<Option<Vec<u32>>, AllocError>
    requires { length names.now < 4294967296 }
    ensures { IfOk result (λ o. option_map items_in o ≡ places_after names.now [] (fields line.now)) }
{
    let mut found = Vec::new(alloc);
    let mut rest = line;
    while let Some((field, after)) = next_field(rest) {
        let Some(k) = place(names, field) else {
            return Ok(None);
        };
        found.push(k)?;
        rest = after;
    }
    Ok(Some(found))
}
