// The stage of one operator on words.

ghost use Rattle.std.specs.Prelude.{◌≡◌, ◌<◌, ◌≤◌, [], ℕ, get_or, length};
ghost use Rattle.ae_word.specs.WordTable.{HasRange, arity_of};
ghost use Rattle.ae_ops.specs.Words.{operands_of, picked, word_part};

use crate::bundle::Bundle;
use crate::make::make;
use crate::stage::Stage;
use ae_clocked::{Clocks, line};
use ae_netlist::{NetId, Netlist};
use ae_word::{Width, WordOp, arity, latency};
use std::alloc::{AllocError, Global};
use std::marker::Model;

/// One operator on words: a word of each operand stands in the first clock of a period, and so does that of the result.
/// Signed words are their codes.
#[derive(Drop)]
pub struct WordStage {
    op: WordOp,
    width: Width,
    period: u32,
}

impl Model for WordStage {
    ghost use Rattle.std.specs.Prelude.{◌≤◌};
    ghost use Rattle.ae_word.specs.WordTable.{HasRange};
    ghost use Rattle.ae_ops.specs.Words.{Operation};

    ghost Value = { Operation };

    ghost view = { λ s. record { op = s.op; width = s.width; period = s.period } };

    ghost invariant = { λ s. HasRange s.op × (1 ≤ s.period) };
}

impl WordStage {
    /// The operator on operands of so many bits, for a choice on arms of so many, in each period of so many clocks. Its
    /// latency is the operator's.
    pub fn new(op: WordOp, width: Width, period: u32) -> WordStage
        requires range { HasRange op }
        requires some { 1 ≤ period }
        requires most { period ≤ 4096 }
        ensures { result ≡ record { op = op; width = width; period = period } }
    {
        WordStage { op, width, period }
    }
}

impl Stage for WordStage {
    ghost part = { λ s. word_part s.op s.width s.period };

    fn period(&self) -> u32 {
        self.period
    }

    fn latency(&self) -> u32 {
        latency(self.op)
    }

    fn build(
        &self,
        alloc: Global,
        nl: &mut Netlist,
        clocks: &mut Clocks,
        ins: &[Bundle],
        arrival: u32,
    ) -> Result<Bundle, AllocError> {
        let args = operands(ins, self.op);
        let made = make(nl, self.op, args, self.width)?;
        let behind = latency(self.op) - made.late;
        let tapped = line(alloc, nl, made.net, &[behind], clocks)?;
        let out = Bundle::one(alloc, tapped.tap(0))?;
        Ok(out)
    }
}

/// The net of an operand; those that the operator does not use repeat its first.
fn operand(ins: &[Bundle], op: WordOp, k: u32) -> NetId
    requires some { 1 ≤ length ins.now }
    requires few { arity_of op ≤ length ins.now }
    requires nets { (i : ℕ) → i < length ins.now → 0 < length (get_or ins.now i []) }
    ensures { result ≡ picked op ins.now k }
{
    let place = if k < arity(op) { k } else { 0 };
    ins[place as usize].nets()[0]
}

fn operands(ins: &[Bundle], op: WordOp) -> [NetId; 3]
    requires some { 1 ≤ length ins.now }
    requires few { arity_of op ≤ length ins.now }
    requires nets { (i : ℕ) → i < length ins.now → 0 < length (get_or ins.now i []) }
    ensures { result ≡ operands_of op ins.now }
{
    [
        operand(ins, op, 0),
        operand(ins, op, 1),
        operand(ins, op, 2),
    ]
}
