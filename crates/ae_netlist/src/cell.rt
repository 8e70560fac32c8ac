// What a netlist is made of.

use ae_word::WordOp;

/// A net: the number of the cell that drives it.
#[derive(Clone, Copy, PartialEq, Eq, Debug)]
pub struct NetId(pub u32);

/// The wires by which words pass into and out of a stream: at either end they pass in each clock in which both are 1.
#[derive(Clone, Copy, Debug)]
pub enum Handshake {
    /// An input: words stand at the source.
    SourceValid,
    /// An output: words are asked of the source.
    SourceReady,
    /// An output: words stand at the sink.
    SinkValid,
    /// An input: the sink takes words.
    SinkReady,
}

/// What an input or an output is for. Parameters, results, lanes and the words of a lane are numbered from 0.
#[derive(Clone, Copy, Debug)]
pub enum Port {
    /// The reset, of one bit.
    Reset,
    /// The enable, of one bit: where it is 0, registers and memories keep their words.
    Enable,
    /// A wire of a stream, of one bit.
    Stream(Handshake),
    /// A word of one lane of a parameter.
    In { param: u32, lane: u32, word: u32 },
    /// A word of one lane of a result.
    Out { result: u32, lane: u32, word: u32 },
    /// A port of some module, by its place among the module's inputs or outputs.
    Plain(u32),
}

/// What drives a net.
#[derive(Clone, Copy, Debug)]
pub enum Cell {
    /// A word from outside in each clock.
    Input(Port),
    /// The same word in each clock.
    Const(u64),
    /// An operator on words of this clock. Operands that it does not use repeat its first.
    Op(WordOp, [NetId; 3]),
    /// A register: in the next clock it has the word that `next` has in this one.
    Reg {
        next: NetId,
    },
    /// A memory of `depth` words: at the end of a clock in which `enable` is 1 the word at place `at` becomes that of
    /// `next`. One that names itself is not connected and keeps its words.
    Mem {
        depth: u32,
        at: NetId,
        next: NetId,
        enable: NetId,
    },
    /// The word of a memory at place `at`, in this clock.
    Peek {
        mem: NetId,
        at: NetId,
    },
}

/// A cell with the width of its net.
#[derive(Clone, Copy, Debug)]
pub struct SizedCell {
    pub width: u32,
    pub cell: Cell,
}

/// An output: the net whose word it shows.
#[derive(Clone, Copy, Debug)]
pub struct Outlet {
    pub port: Port,
    pub net: NetId,
}
