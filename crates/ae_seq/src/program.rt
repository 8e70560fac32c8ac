// Programs.

use ae_seqtype::SeqType;
use ae_word::WordOp;

/// A program; its last function is the program function.
#[derive(Debug, Drop)]
pub struct Program {
    /// 1, or 2 for the language with signed words, scans and several results.
    pub version: u32,
    pub funcs: Vec<Func>,
}

/// A function. Its items are its parameters and then its nodes, numbered from 0.
#[derive(Debug, Drop)]
pub struct Func {
    pub name: String,
    /// 1 to 8 parameters.
    pub params: Vec<Param>,
    pub nodes: Vec<Node>,
    /// The items that it answers: one, or in the program function of version 2 up to 8.
    pub results: Vec<u32>,
    /// The number of its first line in the text, counted from 1.
    pub line: u32,
    /// The number of its end line.
    pub end_line: u32,
}

#[derive(Debug, Drop)]
pub struct Param {
    pub name: String,
    pub ty: SeqType,
}

/// A node line: what it does with items above it.
#[derive(Debug, Drop)]
pub struct Node {
    pub name: String,
    pub op: Op,
    pub args: Vec<u32>,
    pub line: u32,
}

/// What a node does. Functions are named by their numbers in the program, counted from 0.
#[derive(Debug, Drop)]
pub enum Op {
    /// An operator on words, as written: one on signed words is found by their types.
    Word(WordOp),
    /// `cast` to a signed word of so many bits.
    CastInt(u32),
    Pair,
    Fst,
    Snd,
    /// A constant of a type, by its words in row-major order.
    Const(SeqType, Vec<u64>),
    Zip,
    Call(u32),
    Map(u32),
    Map2(u32),
    Reduce(WordOp),
    Scan(WordOp),
    /// By so many elements, with zero words before them.
    Shift(u32),
    /// The one element so many times.
    Up(u32),
    /// One element, counted from 0.
    Select(u32),
    /// Into so many pieces of so many elements.
    Partition(u32, u32),
    Unpartition,
}
