// Sums of words, one of which may be a choice of 0.

ghost use Rattle.std.specs.Prelude.{◌≡◌, ◌∷◌, [], true, length, IfOk, IfSome, OnOk};
ghost use Rattle.ae_netlist.specs.Circuit.{IsConstantBelow, IsNet};
ghost use Rattle.ae_netlist.specs.Runs.{InEveryRun, InEveryRunFrom};
ghost use Rattle.ae_netlist.specs.Room.{HasRoom};
ghost use Rattle.ae_gates.specs.Cells.{Adds, IsResult};
ghost use Rattle.ae_ops.specs.Gates.{IsGate, IsGatedSum};

use ae_gates::{choose, sum};
use ae_netlist::{Cell, NetId, Netlist};
use ae_word::{Width, WordOp};
use std::alloc::AllocError;

/// What makes a net's word: 0 where the condition is 1, and else the word.
#[derive(Clone, Copy)]
pub struct Gate {
    pub condition: NetId,
    pub word: NetId,
}

/// Adds the sum of two words, modulo 2 to their width. Where one of them is a choice between 0 and a word, the choice
/// stands behind the adder instead of before it, since synthesis puts it into the adder's own cells.
pub fn sum_of(nl: &mut Netlist, a: NetId, b: NetId, width: Width) -> Result<NetId, AllocError>
    requires left { IsNet nl.old.cells a.0 width }
    requires right { IsNet nl.old.cells b.0 width }
    requires room { HasRoom nl.old 2 }
    ensures adds { OnOk result (Adds nl.old nl.new 2 0) }
    ensures net { IfOk result (λ y. IsNet nl.new.cells y.0 width) }
    ensures words { IfOk result (λ y. InEveryRun nl.new.cells (λ run. IsResult run y.0 WordOp.Add width (a ∷ b ∷ a ∷ []))) }
{
    if let Some(gate) = gate_at(nl, b) {
        let y = gated(nl, a, gate, width)?;
        return Ok(y);
    }
    if let Some(gate) = gate_at(nl, a) {
        let y = gated(nl, b, gate, width)?;
        return Ok(y);
    }
    let y = sum(nl, a, b, width)?;
    Ok(y)
}

/// Adds the sum of two words, the second of which counts as 0 where the gate's condition is 1.
fn gated(nl: &mut Netlist, a: NetId, gate: Gate, width: Width) -> Result<NetId, AllocError>
    requires condition { IsNet nl.old.cells gate.condition.0 1 }
    requires left { IsNet nl.old.cells a.0 width }
    requires right { IsNet nl.old.cells gate.word.0 width }
    requires room { HasRoom nl.old 2 }
    ensures adds { OnOk result (Adds nl.old nl.new 2 0) }
    ensures net { IfOk result (λ y. IsNet nl.new.cells y.0 width) }
    ensures words { IfOk result (λ y. InEveryRunFrom (length nl.old.cells) nl.new.cells (λ run. IsGatedSum run y.0 gate.condition.0 a.0 gate.word.0 width)) }
{
    let whole = sum(nl, a, gate.word, width)?;
    let chosen = choose(nl, gate.condition, a, whole, width)?;
    Ok(chosen)
}

/// The gate that makes a net's word, where its cell is a choice of a constant 0.
fn gate_at(nl: &Netlist, net: NetId) -> Option<Gate>
    ensures { IfSome result (λ gate. IsGate nl.now.cells net.0 gate.condition.0 gate.word.0) }
{
    nl.formed();
    let sized = nl.sized(net)?;
    match sized.cell {
        Cell::Op(WordOp::Mux, args) if is_zero(nl, args[1]) => Some(Gate {
            condition: args[0],
            word: args[2],
        }),
        Cell::Input(_) | Cell::Const(_) | Cell::Op(_, _) => None,
        Cell::Reg { .. } | Cell::Mem { .. } | Cell::Peek { .. } => None,
    }
}

fn is_zero(nl: &Netlist, net: NetId) -> bool
    ensures { result ≡ true → IsConstantBelow nl.now.cells net.0 1 }
{
    match nl.sized(net) {
        Some(sized) => match sized.cell {
            Cell::Const(k) => k == 0,
            Cell::Input(_) | Cell::Op(_, _) => false,
            Cell::Reg { .. } | Cell::Mem { .. } | Cell::Peek { .. } => false,
        },
        None => false,
    }
}
