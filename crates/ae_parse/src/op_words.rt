// The words of operator lines.

ghost use Rattle.std.specs.Prelude.{◌≡◌, ◌<◌, length, option_map};
ghost use Rattle.ae_seqtype.specs.SeqTree.{seq_tree};
ghost use Rattle.ae_seq.specs.ProgramTree.{op_tree};
ghost use Rattle.ae_fields.specs.Scopes.{place};
ghost use Rattle.ae_fields.specs.Words.{cast_of, fold_op, folding_words, found, func_at, func_op, numbered_op, other_words, bare_op, plain_words};

use ae_fields::{Scope, plain};
use ae_seq::Op;
use ae_seqtype::SeqType;
use ae_word::{Atom, WordOp};

// The folding operator of a word.
fn folding_word(word: &[u8]) -> Option<WordOp>
    ensures { result ≡ found word.now folding_words }
{
    if word == b"add".as_slice() {
        Some(WordOp::Add)
    } else if word == b"mul".as_slice() {
        Some(WordOp::Mul)
    } else if word == b"and".as_slice() {
        Some(WordOp::And)
    } else if word == b"or".as_slice() {
        Some(WordOp::Or)
    } else if word == b"xor".as_slice() {
        Some(WordOp::Xor)
    } else if word == b"min".as_slice() {
        Some(WordOp::Min)
    } else if word == b"max".as_slice() {
        Some(WordOp::Max)
    } else {
        None
    }
}

// Another operator on words.
fn other_word(word: &[u8]) -> Option<WordOp>
    ensures { result ≡ found word.now other_words }
{
    if word == b"sub".as_slice() {
        Some(WordOp::Sub)
    } else if word == b"eq".as_slice() {
        Some(WordOp::Eq)
    } else if word == b"lt".as_slice() {
        Some(WordOp::Lt)
    } else if word == b"not".as_slice() {
        Some(WordOp::Not)
    } else if word == b"mux".as_slice() {
        Some(WordOp::Mux)
    } else {
        None
    }
}

fn plain_word(word: &[u8]) -> Option<Op>
    ensures { option_map op_tree result ≡ found word.now plain_words }
{
    if word == b"pair".as_slice() {
        Some(Op::Pair)
    } else if word == b"fst".as_slice() {
        Some(Op::Fst)
    } else if word == b"snd".as_slice() {
        Some(Op::Snd)
    } else if word == b"zip".as_slice() {
        Some(Op::Zip)
    } else if word == b"unpartition".as_slice() {
        Some(Op::Unpartition)
    } else {
        None
    }
}

// The operator of a word whose arguments follow at once.
pub(crate) fn bare_op(word: &[u8]) -> Option<Op>
    ensures { option_map op_tree result ≡ bare_op word.now }
{
    if let Some(op) = folding_word(word) {
        return Some(Op::Word(op));
    }
    if let Some(op) = other_word(word) {
        return Some(Op::Word(op));
    }
    plain_word(word)
}

// The operator of a word and a number.
pub(crate) fn numbered_op(word: &[u8], digits: &[u8]) -> Option<Op>
    ensures { option_map op_tree result ≡ numbered_op word.now digits.now }
{
    if word == b"shl".as_slice() {
        match plain(digits, 0, 63) {
            Some(k) => Some(Op::Word(WordOp::Shl(k))),
            None => None,
        }
    } else if word == b"shr".as_slice() {
        match plain(digits, 0, 63) {
            Some(k) => Some(Op::Word(WordOp::Shr(k))),
            None => None,
        }
    } else if word == b"shift".as_slice() {
        match plain(digits, 0, 4096) {
            Some(k) => Some(Op::Shift(k)),
            None => None,
        }
    } else if word == b"select".as_slice() {
        match plain(digits, 0, 4096) {
            Some(k) => Some(Op::Select(k)),
            None => None,
        }
    } else if word == b"up".as_slice() {
        match plain(digits, 1, 4096) {
            Some(n) => Some(Op::Up(n)),
            None => None,
        }
    } else {
        None
    }
}

// The number of a name.
pub(crate) fn place(names: &Scope, name: &[u8]) -> Option<u32>
    requires { length names.now < 4294967296 }
    ensures { result ≡ place name.now names.now }
{
    match names.find(name) {
        Some(k) => Some(k as u32),
        None => None,
    }
}

// The number of a function at its end, of which there are so many.
fn func_at(funcs: usize, names: &Scope, name: &[u8]) -> Option<u32>
    requires { length names.now < 4294967296 }
    ensures { result ≡ func_at funcs names.now name.now }
{
    match place(names, name) {
        Some(k) => if (k as usize) < funcs { Some(k) } else { None },
        None => None,
    }
}

// The operator of a word and an earlier function.
pub(crate) fn func_op(funcs: usize, names: &Scope, word: &[u8], name: &[u8]) -> Option<Op>
    requires { length names.now < 4294967296 }
    ensures { option_map op_tree result ≡ func_op funcs names.now word.now name.now }
{
    if word == b"call".as_slice() {
        match func_at(funcs, names, name) {
            Some(k) => Some(Op::Call(k)),
            None => None,
        }
    } else if word == b"map".as_slice() {
        match func_at(funcs, names, name) {
            Some(k) => Some(Op::Map(k)),
            None => None,
        }
    } else if word == b"map2".as_slice() {
        match func_at(funcs, names, name) {
            Some(k) => Some(Op::Map2(k)),
            None => None,
        }
    } else {
        None
    }
}

// The operator of a word and a folding operator.
pub(crate) fn fold_op(version: u32, word: &[u8], op: &[u8]) -> Option<Op>
    ensures { option_map op_tree result ≡ fold_op version word.now op.now }
{
    if word == b"reduce".as_slice() {
        match folding_word(op) {
            Some(op) => Some(Op::Reduce(op)),
            None => None,
        }
    } else if word == b"scan".as_slice() && version == 2 {
        match folding_word(op) {
            Some(op) => Some(Op::Scan(op)),
            None => None,
        }
    } else {
        None
    }
}

// The cast to a type that is a word.
pub(crate) fn cast_of(ty: &SeqType) -> Option<Op>
    ensures { option_map op_tree result ≡ cast_of (seq_tree ty.now) }
{
    match ty {
        SeqType::Atom(Atom::Word(width)) => Some(Op::Word(WordOp::Cast(*width))),
        SeqType::Atom(Atom::Int(width)) => Some(Op::CastInt(*width)),
        _ => None,
    }
}
