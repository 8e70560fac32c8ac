// The cells of one operator, on words of one clock.

ghost use Rattle.std.specs.Prelude.{◌≡◌, ◌<◌, ◌-◌, ◌^◌, ◌∷◌, [], length, false, if◌then◌else◌, IfOk, OnOk};
ghost use Rattle.ae_word.specs.WordTable.{HasRange, arity_of, is_signed, result_width_of};
ghost use Rattle.ae_netlist.specs.Circuit.{IsNet, OperandsAre};
ghost use Rattle.ae_netlist.specs.Counts.{is_product};
ghost use Rattle.ae_netlist.specs.Runs.{InEveryRunFrom};
ghost use Rattle.ae_netlist.specs.Room.{HasRoom};
ghost use Rattle.ae_gates.specs.Cells.{Adds, IsResult};
ghost use Rattle.ae_ops.specs.Signs.{IsBySign, IsComplemented};

use ae_gates::{choose, constant, less, operate, sum};
use ae_netlist::{NetId, Netlist};
use ae_word::{Width, WordOp, result_width};
use std::alloc::AllocError;

/// Adds the result of an operator on words of one clock. One that reads its operands as signed is made of others.
pub fn compute(
    nl: &mut Netlist,
    op: WordOp,
    args: [NetId; 3],
    width: Width,
) -> Result<NetId, AllocError>
    requires range { HasRange op }
    requires operands { OperandsAre op (IsNet nl.old.cells) args width }
    requires room { HasRoom nl.old 8 }
    ensures adds { OnOk result (Adds nl.old nl.new 8 (if is_product op then 1 else 0)) }
    ensures net { IfOk result (λ y. IsNet nl.new.cells y.0 (result_width_of op width)) }
    ensures words { IfOk result (λ y. InEveryRunFrom (length nl.old.cells) nl.new.cells (λ run. IsResult run y.0 op width args)) }
{
    match op {
        WordOp::SLt => less_signed(nl, args[0], args[1], width),
        WordOp::SMin => least_signed(nl, args[0], args[1], width),
        WordOp::SMax => greatest_signed(nl, args[0], args[1], width),
        WordOp::Sar(k) => {
            let y = by_sign(nl, args[0], WordOp::Shr(k), width)?;
            Ok(y)
        }
        WordOp::SCast(v) => {
            let y = by_sign(nl, args[0], WordOp::Cast(v), width)?;
            Ok(y)
        }
        WordOp::Add
        | WordOp::Sub
        | WordOp::Mul
        | WordOp::And
        | WordOp::Or
        | WordOp::Xor
        | WordOp::Not
        | WordOp::Min
        | WordOp::Max
        | WordOp::Eq
        | WordOp::Lt
        | WordOp::Mux
        | WordOp::Shl(_)
        | WordOp::Shr(_)
        | WordOp::Cast(_) => operate(nl, op, args, result_width(op, width)),
    }
}

/// The least code of a number below 0, or half of all codes.
fn half(width: Width) -> u64
    ensures { result ≡ 2 ^ (width - 1) }
{
    1 << (width.bits() - 1)
}

/// Whether the signed word of `a` is below that of `b`: with half of all codes added to both, their codes stand in the
/// order of the numbers.
fn less_signed(nl: &mut Netlist, a: NetId, b: NetId, width: Width) -> Result<NetId, AllocError>
    requires left { IsNet nl.old.cells a.0 width }
    requires right { IsNet nl.old.cells b.0 width }
    requires room { HasRoom nl.old 4 }
    ensures adds { OnOk result (Adds nl.old nl.new 4 0) }
    ensures net { IfOk result (λ y. IsNet nl.new.cells y.0 1) }
    ensures words { IfOk result (λ y. InEveryRunFrom (length nl.old.cells) nl.new.cells (λ run. IsResult run y.0 WordOp.SLt width (a ∷ b ∷ a ∷ []))) }
{
    width.limits();
    let middle = constant(nl, width, half(width))?;
    let left = sum(nl, a, middle, width)?;
    let right = sum(nl, b, middle, width)?;
    let below = less(nl, left, right, width)?;
    Ok(below)
}

fn least_signed(nl: &mut Netlist, a: NetId, b: NetId, width: Width) -> Result<NetId, AllocError>
    requires left { IsNet nl.old.cells a.0 width }
    requires right { IsNet nl.old.cells b.0 width }
    requires room { HasRoom nl.old 5 }
    ensures adds { OnOk result (Adds nl.old nl.new 5 0) }
    ensures net { IfOk result (λ y. IsNet nl.new.cells y.0 width) }
    ensures words { IfOk result (λ y. InEveryRunFrom (length nl.old.cells) nl.new.cells (λ run. IsResult run y.0 WordOp.SMin width (a ∷ b ∷ a ∷ []))) }
{
    let turned = less_signed(nl, b, a, width)?;
    let least = choose(nl, turned, b, a, width)?;
    Ok(least)
}

fn greatest_signed(nl: &mut Netlist, a: NetId, b: NetId, width: Width) -> Result<NetId, AllocError>
    requires left { IsNet nl.old.cells a.0 width }
    requires right { IsNet nl.old.cells b.0 width }
    requires room { HasRoom nl.old 5 }
    ensures adds { OnOk result (Adds nl.old nl.new 5 0) }
    ensures net { IfOk result (λ y. IsNet nl.new.cells y.0 width) }
    ensures words { IfOk result (λ y. InEveryRunFrom (length nl.old.cells) nl.new.cells (λ run. IsResult run y.0 WordOp.SMax width (a ∷ b ∷ a ∷ []))) }
{
    let turned = less_signed(nl, b, a, width)?;
    let greatest = choose(nl, turned, a, b, width)?;
    Ok(greatest)
}

/// Adds an operator on one word, of no product.
fn on_one(nl: &mut Netlist, op: WordOp, a: NetId, width: Width) -> Result<NetId, AllocError>
    requires net { IsNet nl.old.cells a.0 width }
    requires one { arity_of op ≡ 1 }
    requires unsigned { is_signed op ≡ false }
    requires range { HasRange op }
    requires room { HasRoom nl.old 1 }
    ensures adds { OnOk result (Adds nl.old nl.new 1 0) }
    ensures net { IfOk result (λ y. IsNet nl.new.cells y.0 (result_width_of op width)) }
    ensures words { IfOk result (λ y. InEveryRunFrom (length nl.old.cells) nl.new.cells (λ run. IsResult run y.0 op width (a ∷ a ∷ a ∷ []))) }
{
    let y = operate(nl, op, [a, a, a], result_width(op, width))?;
    Ok(y)
}

/// An operator on the complement of a word, and the complement of that.
fn complemented(nl: &mut Netlist, a: NetId, op: WordOp, width: Width) -> Result<NetId, AllocError>
    requires net { IsNet nl.old.cells a.0 width }
    requires one { arity_of op ≡ 1 }
    requires unsigned { is_signed op ≡ false }
    requires range { HasRange op }
    requires room { HasRoom nl.old 3 }
    ensures adds { OnOk result (Adds nl.old nl.new 3 0) }
    ensures net { IfOk result (λ y. IsNet nl.new.cells y.0 (result_width_of op width)) }
    ensures words { IfOk result (λ y. InEveryRunFrom (length nl.old.cells) nl.new.cells (λ run. IsComplemented run y.0 op width a.0)) }
{
    let turned = on_one(nl, WordOp::Not, a, width)?;
    let made = on_one(nl, op, turned, width)?;
    let back = on_one(nl, WordOp::Not, made, result_width(op, width))?;
    Ok(back)
}

/// An operator on one word: on a code of a number below 0 the complement of its result on the complement.
fn by_sign(nl: &mut Netlist, a: NetId, op: WordOp, width: Width) -> Result<NetId, AllocError>
    requires net { IsNet nl.old.cells a.0 width }
    requires one { arity_of op ≡ 1 }
    requires unsigned { is_signed op ≡ false }
    requires range { HasRange op }
    requires room { HasRoom nl.old 7 }
    ensures adds { OnOk result (Adds nl.old nl.new 7 0) }
    ensures net { IfOk result (λ y. IsNet nl.new.cells y.0 (result_width_of op width)) }
    ensures words { IfOk result (λ y. InEveryRunFrom (length nl.old.cells) nl.new.cells (λ run. IsBySign run y.0 op width a.0)) }
{
    width.limits();
    let middle = constant(nl, width, half(width))?;
    let positive = less(nl, a, middle, width)?;
    let made = on_one(nl, op, a, width)?;
    let turned = complemented(nl, a, op, width)?;
    let chosen = choose(nl, positive, made, turned, result_width(op, width))?;
    Ok(chosen)
}
