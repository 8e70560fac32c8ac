// Cells as a netlist keeps them.

ghost use Rattle.std.specs.Prelude.{◌≡◌, ◌<◌, ◌^◌};
ghost use Rattle.ae_netlist.specs.Packed.{cell_in, op_in};
ghost use Rattle.ae_netlist.specs.declared.packed.OpName.TheVariants as n;

use crate::cell::{Cell, Handshake, NetId, Port, SizedCell};
use ae_word::WordOp;
use std::marker::Model;

/// What a cell is but for its numbers; for an input, which port it is.
#[derive(Clone, Copy)]
enum Kind {
    Reset,
    Enable,
    SourceValid,
    SourceReady,
    SinkValid,
    SinkReady,
    In,
    Out,
    Plain,
    Const,
    Op,
    Reg,
    Mem,
    Peek,
}

/// An operator without its number.
#[derive(Clone, Copy)]
enum OpName {
    Add,
    Sub,
    Mul,
    And,
    Or,
    Xor,
    Not,
    Min,
    Max,
    Eq,
    Lt,
    Mux,
    Shl,
    Shr,
    Cast,
    SLt,
    SMin,
    SMax,
    Sar,
    SCast,
}

/// A cell with the width of its net, in 20 bytes: a `SizedCell` takes 32.
#[derive(Drop)]
pub struct PackedCell {
    width: u8,
    kind: Kind,
    /// Of an operator alone.
    op: OpName,
    /// The number of an operator, or the depth of a memory.
    number: u32,
    first: u32,
    second: u32,
    third: u32,
}

impl Model for PackedCell {
    ghost use Rattle.ae_netlist.specs.declared.cell.SizedCell.{SizedCell};
    ghost use Rattle.ae_netlist.specs.Packed.{cell_in};

    ghost Value = { SizedCell };

    ghost view = { λ c. record { width = c.width; cell = cell_in c.kind c.op c.number c.first c.second c.third } };
}

/// An operator's name and its number, 0 where it has none.
fn split(op: WordOp) -> (OpName, u32)
    ensures { op_in result.0 result.1 ≡ op }
{
    match op {
        WordOp::Add => (OpName::Add, 0),
        WordOp::Sub => (OpName::Sub, 0),
        WordOp::Mul => (OpName::Mul, 0),
        WordOp::And => (OpName::And, 0),
        WordOp::Or => (OpName::Or, 0),
        WordOp::Xor => (OpName::Xor, 0),
        WordOp::Not => (OpName::Not, 0),
        WordOp::Min => (OpName::Min, 0),
        WordOp::Max => (OpName::Max, 0),
        WordOp::Eq => (OpName::Eq, 0),
        WordOp::Lt => (OpName::Lt, 0),
        WordOp::Mux => (OpName::Mux, 0),
        WordOp::Shl(number) => (OpName::Shl, number),
        WordOp::Shr(number) => (OpName::Shr, number),
        WordOp::Cast(number) => (OpName::Cast, number),
        WordOp::SLt => (OpName::SLt, 0),
        WordOp::SMin => (OpName::SMin, 0),
        WordOp::SMax => (OpName::SMax, 0),
        WordOp::Sar(number) => (OpName::Sar, number),
        WordOp::SCast(number) => (OpName::SCast, number),
    }
}

fn joined(name: OpName, number: u32) -> WordOp
    ensures { result ≡ op_in name number }
{
    match name {
        OpName::Add => WordOp::Add,
        OpName::Sub => WordOp::Sub,
        OpName::Mul => WordOp::Mul,
        OpName::And => WordOp::And,
        OpName::Or => WordOp::Or,
        OpName::Xor => WordOp::Xor,
        OpName::Not => WordOp::Not,
        OpName::Min => WordOp::Min,
        OpName::Max => WordOp::Max,
        OpName::Eq => WordOp::Eq,
        OpName::Lt => WordOp::Lt,
        OpName::Mux => WordOp::Mux,
        OpName::Shl => WordOp::Shl(number),
        OpName::Shr => WordOp::Shr(number),
        OpName::Cast => WordOp::Cast(number),
        OpName::SLt => WordOp::SLt,
        OpName::SMin => WordOp::SMin,
        OpName::SMax => WordOp::SMax,
        OpName::Sar => WordOp::Sar(number),
        OpName::SCast => WordOp::SCast(number),
    }
}

fn packed(width: u8, kind: Kind, number: u32, first: u32, second: u32, third: u32) -> PackedCell
    ensures { result ≡ record { width = width; cell = cell_in kind n.Add number first second third } }
{
    PackedCell {
        width,
        kind,
        op: OpName::Add,
        number,
        first,
        second,
        third,
    }
}

fn packed_input(width: u8, port: Port) -> PackedCell
    ensures { result ≡ record { width = width; cell = Cell.Input port } }
{
    match port {
        Port::Reset => packed(width, Kind::Reset, 0, 0, 0, 0),
        Port::Enable => packed(width, Kind::Enable, 0, 0, 0, 0),
        Port::Stream(Handshake::SourceValid) => packed(width, Kind::SourceValid, 0, 0, 0, 0),
        Port::Stream(Handshake::SourceReady) => packed(width, Kind::SourceReady, 0, 0, 0, 0),
        Port::Stream(Handshake::SinkValid) => packed(width, Kind::SinkValid, 0, 0, 0, 0),
        Port::Stream(Handshake::SinkReady) => packed(width, Kind::SinkReady, 0, 0, 0, 0),
        Port::In { param, lane, word } => packed(width, Kind::In, 0, param, lane, word),
        Port::Out { result, lane, word } => packed(width, Kind::Out, 0, result, lane, word),
        Port::Plain(place) => packed(width, Kind::Plain, 0, place, 0, 0),
    }
}

impl PackedCell {
    /// A cell whose net has at most 255 bits.
    pub fn of(sized: SizedCell) -> PackedCell
        requires { sized.width < 2 ^ 8 }
        ensures { result ≡ sized }
    {
        let width = sized.width as u8;
        match sized.cell {
            Cell::Input(port) => packed_input(width, port),
            Cell::Const(word) => packed(
                width,
                Kind::Const,
                0,
                (word % 4_294_967_296) as u32,
                (word >> 32) as u32,
                0,
            ),
            Cell::Op(op, args) => {
                let [a, b, c] = args;
                let (op, number) = split(op);
                PackedCell {
                    width,
                    kind: Kind::Op,
                    op,
                    number,
                    first: a.0,
                    second: b.0,
                    third: c.0,
                }
            }
            Cell::Reg { next } => packed(width, Kind::Reg, 0, next.0, 0, 0),
            Cell::Mem {
                depth,
                at,
                next,
                enable,
            } => packed(width, Kind::Mem, depth, at.0, next.0, enable.0),
            Cell::Peek { mem, at } => packed(width, Kind::Peek, 0, mem.0, at.0, 0),
        }
    }

    /// The width of its net, in bits.
    pub fn width(&self) -> u32
        ensures { result ≡ self.now.width }
    {
        u32::from(self.width)
    }

    /// The cell without its width.
    pub fn cell(&self) -> Cell
        ensures { result ≡ self.now.cell }
    {
        let [first, second, third] = [NetId(self.first), NetId(self.second), NetId(self.third)];
        match self.kind {
            Kind::Reset => Cell::Input(Port::Reset),
            Kind::Enable => Cell::Input(Port::Enable),
            Kind::SourceValid => Cell::Input(Port::Stream(Handshake::SourceValid)),
            Kind::SourceReady => Cell::Input(Port::Stream(Handshake::SourceReady)),
            Kind::SinkValid => Cell::Input(Port::Stream(Handshake::SinkValid)),
            Kind::SinkReady => Cell::Input(Port::Stream(Handshake::SinkReady)),
            Kind::In => Cell::Input(Port::In {
                param: self.first,
                lane: self.second,
                word: self.third,
            }),
            Kind::Out => Cell::Input(Port::Out {
                result: self.first,
                lane: self.second,
                word: self.third,
            }),
            Kind::Plain => Cell::Input(Port::Plain(self.first)),
            Kind::Const => Cell::Const((u64::from(self.second) << 32) + u64::from(self.first)),
            Kind::Op => Cell::Op(joined(self.op, self.number), [first, second, third]),
            Kind::Reg => Cell::Reg { next: first },
            Kind::Mem => Cell::Mem {
                depth: self.number,
                at: first,
                next: second,
                enable: third,
            },
            Kind::Peek => Cell::Peek {
                mem: first,
                at: second,
            },
        }
    }

    /// The cell with the width of its net.
    pub fn sized(&self) -> SizedCell
        ensures { result ≡ self.now }
    {
        SizedCell {
            width: self.width(),
            cell: self.cell(),
        }
    }
}
