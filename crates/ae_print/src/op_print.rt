// Operators and names, written as the fields of a line.

ghost use Rattle.std.specs.Prelude.{◌≡◌, ◌+◌, ◌<◌, ◌≤◌, ◌^◌, ◌∷◌, [], ◌++◌, IsTrue, OnOk, codes, length, map, nat_lt, true};
ghost use Rattle.std.specs.List.{list_all};
ghost use Rattle.std.specs.Fmt.{decimal};
ghost use Rattle.std.specs.String.{string_bytes};
ghost use Rattle.ae_word.specs.WordTable.{row_of};
ghost use Rattle.ae_seqtype.specs.SeqTree.{seq_tree};
ghost use Rattle.ae_seqtype.specs.TypeText.{type_text};
ghost use Rattle.ae_seq.specs.Formed.{all_below, func_names, is_line, node_names, param_names};
ghost use Rattle.ae_seq.specs.ProgramTree.{op_tree};
ghost use Rattle.ae_seq.specs.Trees.{func_trees, node_trees, param_trees};
ghost use Rattle.ae_print.specs.Printed.{name_at, op_fields, spaced, words_fit};

use crate::op_names::{op_name, word_name};
use ae_seq::{Func, Node, Op, Param};
use ae_seqtype::SeqType;
use ae_word::WordOp;
use itoa::Buffer;
use std::alloc::AllocError;

// One more field.
pub(crate) fn put(out: &mut String, field: &str) -> Result<(), AllocError>
    ensures { OnOk result (string_bytes out.new ≡ string_bytes out.old ++ spaced (field.now ∷ [])) }
{
    out.push_str(" ")?;
    out.push_str(field)
}

fn put_number(out: &mut String, number: u32) -> Result<(), AllocError>
    ensures { OnOk result (string_bytes out.new ≡ string_bytes out.old ++ spaced (decimal number ∷ [])) }
{
    put(out, Buffer::new().format(number))
}

// A letter with a number behind it.
fn put_width(out: &mut String, letter: &str, width: u32) -> Result<(), AllocError>
    ensures { OnOk result (string_bytes out.new ≡ string_bytes out.old ++ spaced ((letter.now ++ decimal width) ∷ [])) }
{
    put(out, letter)?;
    out.push_str(Buffer::new().format(width))
}

fn put_type(out: &mut String, ty: &SeqType) -> Result<(), AllocError>
    ensures { OnOk result (string_bytes out.new ≡ string_bytes out.old ++ spaced (type_text (seq_tree ty.now) ∷ [])) }
{
    out.push_str(" ")?;
    ty.write_to(out)
}

// A word and a number.
fn put_numbered(out: &mut String, word: &str, number: u32) -> Result<(), AllocError>
    ensures { OnOk result (string_bytes out.new ≡ string_bytes out.old ++ spaced (word.now ∷ decimal number ∷ [])) }
{
    put(out, word)?;
    put_number(out, number)
}

fn put_cast(out: &mut String, letter: &str, width: u32) -> Result<(), AllocError>
    ensures { OnOk result (string_bytes out.new ≡ string_bytes out.old ++ spaced (codes "cast" ∷ (letter.now ++ decimal width) ∷ [])) }
{
    put(out, "cast")?;
    put_width(out, letter, width)
}

// The words of a constant; all have 64 bits.
fn put_words(out: &mut String, words: &[u64]) -> Result<(), AllocError>
    ensures written { OnOk result (string_bytes out.new ≡ string_bytes out.old ++ spaced (map decimal words.now)) }
    ensures fit { OnOk result (list_all (λ w. nat_lt w (2 ^ 64)) words.now ≡ true) }
{
    for word in words {
        put(out, Buffer::new().format(*word))?;
    }
    Ok(())
}

fn put_word_op(out: &mut String, op: WordOp) -> Result<(), AllocError>
    ensures { OnOk result (string_bytes out.new ≡ string_bytes out.old ++ spaced ((row_of op).fields)) }
{
    match op {
        WordOp::Shl(k) | WordOp::Shr(k) => put_numbered(out, word_name(op), k),
        WordOp::Cast(v) => put_cast(out, "u", v),
        WordOp::Add
        | WordOp::Sub
        | WordOp::Mul
        | WordOp::And
        | WordOp::Or
        | WordOp::Xor
        | WordOp::Not
        | WordOp::Min
        | WordOp::Max
        | WordOp::Eq
        | WordOp::Lt
        | WordOp::Mux
        | WordOp::SLt
        | WordOp::SMin
        | WordOp::SMax
        | WordOp::Sar(_)
        | WordOp::SCast(_) => put(out, word_name(op)),
    }
}

// A word and a folding operator.
fn put_fold(out: &mut String, word: &str, op: WordOp) -> Result<(), AllocError>
    ensures { OnOk result (string_bytes out.new ≡ string_bytes out.old ++ spaced (word.now ∷ (row_of op).fields)) }
{
    put(out, word)?;
    put_word_op(out, op)
}

fn func_name(funcs: &[Func], k: u32) -> &str
    requires { k < length funcs.now }
    ensures { result.now ≡ name_at (func_names (func_trees funcs.now)) k }
{
    funcs[k as usize].name.as_str()
}

// A word and the name of a function.
fn put_func(out: &mut String, word: &str, funcs: &[Func], k: u32) -> Result<(), AllocError>
    requires { k < length funcs.now }
    ensures { OnOk result (string_bytes out.new ≡ string_bytes out.old ++ spaced (word.now ∷ name_at (func_names (func_trees funcs.now)) k ∷ [])) }
{
    put(out, word)?;
    put(out, func_name(funcs, k))
}

fn put_const(out: &mut String, ty: &SeqType, words: &[u64]) -> Result<(), AllocError>
    ensures written { OnOk result (string_bytes out.new ≡ string_bytes out.old ++ spaced (codes "const" ∷ type_text (seq_tree ty.now) ∷ map decimal words.now)) }
    ensures fit { OnOk result (list_all (λ w. nat_lt w (2 ^ 64)) words.now ≡ true) }
{
    put(out, "const")?;
    put_type(out, ty)?;
    put_words(out, words)
}

fn put_partition(out: &mut String, pieces: u32, size: u32) -> Result<(), AllocError>
    ensures { OnOk result (string_bytes out.new ≡ string_bytes out.old ++ spaced (codes "partition" ∷ decimal pieces ∷ decimal size ∷ [])) }
{
    put_numbered(out, "partition", pieces)?;
    put_number(out, size)
}

// An operator and what belongs to it.
pub(crate) fn put_op(
    out: &mut String,
    version: u32,
    bound: usize,
    funcs: &[Func],
    op: &Op,
) -> Result<(), AllocError>
    requires line { IsTrue (is_line version bound (op_tree op.now)) }
    requires within { bound ≤ length funcs.now }
    ensures written { OnOk result (string_bytes out.new ≡ string_bytes out.old ++ spaced (op_fields (func_names (func_trees funcs.now)) (op_tree op.now))) }
    ensures fit { OnOk result (words_fit (op_tree op.now) ≡ true) }
{
    match op {
        Op::Word(op) => put_word_op(out, *op),
        Op::CastInt(v) => put_cast(out, "i", *v),
        Op::Pair | Op::Fst | Op::Snd | Op::Zip | Op::Unpartition => put(out, op_name(op)),
        Op::Const(ty, words) => put_const(out, ty, words),
        Op::Call(f) | Op::Map(f) | Op::Map2(f) => put_func(out, op_name(op), funcs, *f),
        Op::Reduce(by) | Op::Scan(by) => put_fold(out, op_name(op), *by),
        Op::Shift(k) | Op::Up(k) | Op::Select(k) => put_numbered(out, op_name(op), *k),
        Op::Partition(n, m) => put_partition(out, *n, *m),
    }
}

fn item_name<'a>(params: &'a [Param], nodes: &'a [Node], k: u32) -> &'a str
    requires { k < length params.now + length nodes.now }
    ensures { result.now ≡ name_at (param_names (param_trees params.now) ++ node_names (node_trees nodes.now)) k }
{
    let k = k as usize;
    if k < params.len() {
        params[k].name.as_str()
    } else {
        nodes[k - params.len()].name.as_str()
    }
}

// The names of some items.
pub(crate) fn put_items(
    out: &mut String,
    params: &[Param],
    nodes: &[Node],
    items: &[u32],
) -> Result<(), AllocError>
    requires { IsTrue (all_below (length params.now + length nodes.now) items.now) }
    ensures { OnOk result (string_bytes out.new ≡ string_bytes out.old ++ spaced (map (name_at (param_names (param_trees params.now) ++ node_names (node_trees nodes.now))) items.now)) }
{
    for item in items {
        put(out, item_name(params, nodes, *item))?;
    }
    Ok(())
}
