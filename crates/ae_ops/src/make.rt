// The result of an operator, and how many clocks after its operands it comes.

ghost use Rattle.std.specs.Prelude.{◌≤◌, if◌then◌else◌, IfOk, OnOk};
ghost use Rattle.ae_word.specs.WordTable.{HasRange, latency_of, result_width_of};
ghost use Rattle.ae_netlist.specs.Circuit.{IsNet, OperandsAre};
ghost use Rattle.ae_netlist.specs.Counts.{is_product};
ghost use Rattle.ae_netlist.specs.Runs.{InEveryRun};
ghost use Rattle.ae_netlist.specs.Room.{HasRoom};
ghost use Rattle.ae_gates.specs.Cells.{Adds};
ghost use Rattle.ae_ops.specs.Words.{IsResultLater};

use crate::compute::compute;
use crate::square::square;
use crate::sums::sum_of;
use ae_netlist::{NetId, Netlist};
use ae_word::{Width, WordOp};
use std::alloc::AllocError;

/// The net of a result, and how many clocks after its operands it comes.
#[derive(Clone, Copy)]
pub struct Made {
    pub net: NetId,
    pub late: u32,
}

/// Adds the result of an operator on words. That of a square comes one clock after its operand, and any other in the
/// clock of its operands.
pub fn make(
    nl: &mut Netlist,
    op: WordOp,
    args: [NetId; 3],
    width: Width,
) -> Result<Made, AllocError>
    requires range { HasRange op }
    requires operands { OperandsAre op (IsNet nl.old.cells) args width }
    requires room { HasRoom nl.old 9 }
    ensures adds { OnOk result (Adds nl.old nl.new 9 (if is_product op then 1 else 0)) }
    ensures late { IfOk result (λ made. made.late ≤ latency_of op) }
    ensures net { IfOk result (λ made. IsNet nl.new.cells made.net.0 (result_width_of op width)) }
    ensures words { IfOk result (λ made. InEveryRun nl.new.cells (λ run. IsResultLater run made.net.0 made.late op width args)) }
{
    match op {
        WordOp::Mul if args[0] == args[1] => {
            let net = square(nl, args[0], width)?;
            Ok(Made { net, late: 1 })
        }
        WordOp::Add => {
            let net = sum_of(nl, args[0], args[1], width)?;
            Ok(Made { net, late: 0 })
        }
        WordOp::Sub
        | WordOp::Mul
        | WordOp::And
        | WordOp::Or
        | WordOp::Xor
        | WordOp::Not
        | WordOp::Min
        | WordOp::Max
        | WordOp::Eq
        | WordOp::Lt
        | WordOp::Mux
        | WordOp::Shl(_)
        | WordOp::Shr(_)
        | WordOp::Cast(_)
        | WordOp::SLt
        | WordOp::SMin
        | WordOp::SMax
        | WordOp::Sar(_)
        | WordOp::SCast(_) => {
            let net = compute(nl, op, args, width)?;
            Ok(Made { net, late: 0 })
        }
    }
}
