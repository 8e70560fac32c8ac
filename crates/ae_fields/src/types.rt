// Types as a field spells them.

ghost use Rattle.std.specs.Prelude.{◌≡◌, IfOk, option_map};
ghost use Rattle.std.specs.Option.{option_copied};
ghost use Rattle.ae_word.specs.AtomTree.{atom_tree, pair};
ghost use Rattle.ae_seqtype.specs.SeqTree.{seq, seq_tree};
ghost use Rattle.ae_fields.specs.TypeForm.{after_digits, atom_from, atom_type_of, digits_of, is_digit, length_from, pair_from, past, sequence_from, type_from, type_of, word_from};
ghost use Rattle.ae_fields.specs.View.{atom_rest, length_rest};

use crate::numbers::plain;
use ae_seqtype::SeqType;
use ae_word::Atom;
use std::alloc::{AllocError, Global};

fn is_digit(byte: u8) -> bool
    ensures { result ≡ is_digit byte }
{
    byte >= b'0' && byte <= b'9'
}

// The digits at the head, and what follows them.
fn split_digits(bytes: &[u8]) -> (&[u8], &[u8])
    ensures digits { result.0.now ≡ digits_of bytes.now }
    ensures after { result.1.now ≡ after_digits bytes.now }
{
    let mut end = 0;
    while end < bytes.len() && is_digit(bytes[end]) {
        end += 1;
    }
    let (digits, after) = bytes.split_at(end);
    (digits, after)
}

// What follows a byte at the head.
fn past(mark: u8, bytes: &[u8]) -> Option<&[u8]>
    ensures { option_copied result ≡ past mark bytes.now }
{
    match bytes {
        [first, rest @ ..] => if *first == mark { Some(rest) } else { None },
        [] => None,
    }
}

// A word after its letter.
fn read_word(version: u32, letter: u8, bytes: &[u8]) -> Option<(Atom, &[u8])>
    ensures { option_map atom_rest result ≡ word_from version letter bytes.now }
{
    let (digits, after) = split_digits(bytes);
    let Some(width) = plain(digits, 1, 64) else {
        return None;
    };
    if letter == b'u' {
        return Some((Atom::Word(width), after));
    }
    if letter == b'i' && version == 2 {
        return Some((Atom::Int(width), after));
    }
    None
}

fn boxed_pair(alloc: Global, first: Atom, second: Atom) -> Result<Atom, AllocError>
    ensures { IfOk result (λ a. atom_tree a ≡ pair (atom_tree first) (atom_tree second)) }
{
    let first = Box::new(alloc, first)?;
    let second = Box::new(alloc, second)?;
    Ok(Atom::Pair(first, second))
}

// A pair after its parenthesis.
#[cycle(atoms)]
fn read_pair(
    alloc: Global,
    version: u32,
    levels: u32,
    bytes: &[u8],
) -> Result<Option<(Atom, &[u8])>, AllocError>
    ensures { IfOk result (λ o. option_map atom_rest o ≡ pair_from (atom_from version levels) bytes.now) }
{
    let Some((first, rest)) = read_atom(alloc, version, levels, bytes)? else {
        return Ok(None);
    };
    let Some(rest) = past(b',', rest) else {
        return Ok(None);
    };
    let Some((second, rest)) = read_atom(alloc, version, levels, rest)? else {
        return Ok(None);
    };
    let Some(rest) = past(b')', rest) else {
        return Ok(None);
    };
    let pair = boxed_pair(alloc, first, second)?;
    Ok(Some((pair, rest)))
}

// An atom, and what follows it.
#[cycle(atoms)]
fn read_atom(
    alloc: Global,
    version: u32,
    levels: u32,
    bytes: &[u8],
) -> Result<Option<(Atom, &[u8])>, AllocError>
    ensures { IfOk result (λ o. option_map atom_rest o ≡ atom_from version levels bytes.now) }
{
    let [first, rest @ ..] = bytes else {
        return Ok(None);
    };
    if *first == b'(' && levels > 0 {
        return read_pair(alloc, version, levels - 1, rest);
    }
    Ok(read_word(version, *first, rest))
}

// A type that is an atom.
fn read_plain_type(alloc: Global, version: u32, bytes: &[u8]) -> Result<Option<SeqType>, AllocError>
    ensures { IfOk result (λ o. option_map seq_tree o ≡ atom_type_of version bytes.now) }
{
    let Some((atom, rest)) = read_atom(alloc, version, 6, bytes)? else {
        return Ok(None);
    };
    if !rest.is_empty() {
        return Ok(None);
    }
    Ok(Some(SeqType::Atom(atom)))
}

fn sequence(alloc: Global, count: u32, element: SeqType) -> Result<SeqType, AllocError>
    ensures { IfOk result (λ t. seq_tree t ≡ seq count (seq_tree element)) }
{
    let element = Box::new(alloc, element)?;
    Ok(SeqType::Seq(count, element))
}

// A length after its bracket, and what follows the other one.
fn read_length(bytes: &[u8]) -> Option<(u32, &[u8])>
    ensures { option_map length_rest result ≡ length_from bytes.now }
{
    let (digits, after) = split_digits(bytes);
    let Some(count) = plain(digits, 1, 4096) else {
        return None;
    };
    let Some(rest) = past(b']', after) else {
        return None;
    };
    Some((count, rest))
}

// A sequence after its bracket.
#[cycle(nested)]
fn read_sequence(
    alloc: Global,
    version: u32,
    levels: u32,
    bytes: &[u8],
) -> Result<Option<SeqType>, AllocError>
    ensures { IfOk result (λ o. option_map seq_tree o ≡ sequence_from (type_from version levels) bytes.now) }
{
    let Some((count, rest)) = read_length(bytes) else {
        return Ok(None);
    };
    let Some(element) = read_nested(alloc, version, levels, rest)? else {
        return Ok(None);
    };
    let ty = sequence(alloc, count, element)?;
    Ok(Some(ty))
}

// A type whose sequences nest so many levels deep at most.
#[cycle(nested)]
fn read_nested(
    alloc: Global,
    version: u32,
    levels: u32,
    bytes: &[u8],
) -> Result<Option<SeqType>, AllocError>
    ensures { IfOk result (λ o. option_map seq_tree o ≡ type_from version levels bytes.now) }
{
    let [first, rest @ ..] = bytes else {
        return Ok(None);
    };
    if *first == b'[' && levels > 0 {
        return read_sequence(alloc, version, levels - 1, rest);
    }
    read_plain_type(alloc, version, bytes)
}

// The type that a field spells, if it spells one of the version.
pub fn read_type(alloc: Global, version: u32, field: &[u8]) -> Result<Option<SeqType>, AllocError>
    ensures { IfOk result (λ o. option_map seq_tree o ≡ type_of version field.now) }
{
    read_nested(alloc, version, 6, field)
}
