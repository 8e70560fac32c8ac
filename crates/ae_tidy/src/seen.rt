// Cells that are there already, found again by what they are.

ghost use Rattle.std.specs.Prelude.{◌≡◌, IfSome, IsTrue, true};
ghost use Rattle.ae_tidy.specs.Images.{IsThere, may_merge};

use crate::table::is_late;
use ae_netlist::{Cell, NetId, Netlist, SizedCell};
use ae_word::{WordOp, multiplies};
use indexmap::IndexMap;
use std::alloc::{AllocError, Global};

/// A table of nets by a number made of their cells. A hit is compared with the cell itself, and of two cells with one number
/// the later stays: so a cell may be missed, and never taken for another.
#[derive(Drop)]
pub struct Seen {
    nets: IndexMap<u64, NetId>,
}

/// Where each number of a cell begins: not at 0, which would stay 0 with a part that is 0.
const SEED: u64 = 0x2545_F491_4F6C_DD1D;

fn mix(code: u64, part: u64) -> u64 {
    let mixed = (code ^ part).wrapping_mul(0x9E37_79B9_7F4A_7C15);
    mixed ^ (mixed >> 29)
}

/// A number of four parts; as each has four, no short list of parts runs into a long one.
fn number(kind: u64, first: u64, second: u64, third: u64) -> u64 {
    mix(mix(mix(mix(SEED, kind), first), second), third)
}

/// Another number for each operator, and for each amount that is part of it.
fn op_kind(op: WordOp) -> u64 {
    match op {
        WordOp::Add => 0,
        WordOp::Sub => 1,
        WordOp::Mul => 2,
        WordOp::And => 3,
        WordOp::Or => 4,
        WordOp::Xor => 5,
        WordOp::Not => 6,
        WordOp::Min => 7,
        WordOp::Max => 8,
        WordOp::Eq => 9,
        WordOp::Lt => 10,
        WordOp::Mux => 11,
        WordOp::SLt => 12,
        WordOp::SMin => 13,
        WordOp::SMax => 14,
        WordOp::Shl(places) => 15 + 32 * u64::from(places),
        WordOp::Shr(places) => 16 + 32 * u64::from(places),
        WordOp::Cast(bits) => 17 + 32 * u64::from(bits),
        WordOp::Sar(places) => 18 + 32 * u64::from(places),
        WordOp::SCast(bits) => 19 + 32 * u64::from(bits),
    }
}

fn code(sized: SizedCell) -> u64 {
    match sized.cell {
        Cell::Op(op, args) => number(
            op_kind(op),
            u64::from(args[0].0),
            u64::from(args[1].0),
            u64::from(args[2].0),
        ),
        Cell::Const(word) => number(20, u64::from(sized.width), word, 0),
        Cell::Reg { next } => number(21, u64::from(next.0), 0, 0),
        Cell::Mem {
            depth: _,
            at,
            next,
            enable,
        } => number(22, u64::from(at.0), u64::from(next.0), u64::from(enable.0)),
        Cell::Peek { mem, at } => number(23, u64::from(mem.0), u64::from(at.0), 0),
        Cell::Input(_) => number(24, 0, 0, 0),
    }
}

/// Whether equal cells of this kind may be one: inputs and products are kept each for itself.
fn may_merge(cell: Cell) -> bool
    ensures { result ≡ may_merge cell }
{
    match cell {
        Cell::Input(_) => false,
        Cell::Op(op, _) => !multiplies(op),
        Cell::Const(_) | Cell::Reg { .. } | Cell::Mem { .. } | Cell::Peek { .. } => true,
    }
}

fn same_op(a: WordOp, b: WordOp) -> bool
    ensures { IsTrue result → a ≡ b }
{
    a == b
}

fn same_args(a: [NetId; 3], b: [NetId; 3]) -> bool
    ensures { IsTrue result → a ≡ b }
{
    a[0].0 == b[0].0 && a[1].0 == b[1].0 && a[2].0 == b[2].0
}

/// Whether two cells are the same, where they may be one.
fn same_cell(a: Cell, b: Cell) -> bool
    requires { may_merge a ≡ true }
    ensures { IsTrue result → a ≡ b }
{
    match (a, b) {
        (Cell::Const(x), Cell::Const(y)) => x == y,
        (Cell::Op(op, args), Cell::Op(other, nets)) => same_op(op, other) && same_args(args, nets),
        (Cell::Reg { next: x }, Cell::Reg { next: y }) => x.0 == y.0,
        (
            Cell::Mem {
                depth,
                at,
                next,
                enable,
            },
            Cell::Mem {
                depth: words,
                at: place,
                next: word,
                enable: bit,
            },
        ) => depth == words && at.0 == place.0 && next.0 == word.0 && enable.0 == bit.0,
        (
            Cell::Peek { mem, at },
            Cell::Peek {
                mem: other,
                at: place,
            },
        ) => { mem.0 == other.0 && at.0 == place.0 }
        _ => false,
    }
}

/// Whether a net has this cell; a register or a memory that names itself is not connected yet.
fn has_cell(nl: &Netlist, net: NetId, sized: SizedCell) -> bool
    requires { may_merge sized.cell ≡ true }
    ensures { IsTrue result → IsThere nl.now.cells net.0 sized }
{
    let Some(there) = nl.sized(net) else {
        return false;
    };
    there.width == sized.width && same_cell(sized.cell, there.cell) && !is_late(net, there.cell)
}

impl Seen {
    /// A table without nets. Takes no memory.
    pub fn new(alloc: Global) -> Seen {
        Seen {
            nets: IndexMap::new(alloc),
        }
    }

    /// A net that has this cell, if it is found; never a register or a memory that is not connected yet.
    pub fn find(&self, nl: &Netlist, sized: SizedCell) -> Option<NetId>
        ensures { IfSome result (λ net. IsThere nl.now.cells net.0 sized) }
    {
        if !may_merge(sized.cell) {
            return None;
        }
        match self.nets.get(&code(sized)).copied() {
            Some(net) => {
                if has_cell(nl, net, sized) {
                    return Some(net);
                }
                None
            }
            None => None,
        }
    }

    /// Keeps the net of a cell.
    pub fn put(&mut self, sized: SizedCell, net: NetId) -> Result<(), AllocError> {
        match self.nets.insert(code(sized), net) {
            Ok(_) => Ok(()),
            Err(_) => Err(AllocError),
        }
    }
}
