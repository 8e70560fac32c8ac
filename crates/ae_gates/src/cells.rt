// One gate at a time, with what its net holds in every run.

ghost use Rattle.std.specs.Prelude.{◌≡◌, ◌+◌, ◌<◌, ◌≤◌, ◌^◌, ◌∷◌, [], length, IfOk, OnOk, Some, slice_get, if◌then◌else◌};
ghost use Rattle.ae_netlist.specs.Circuit.{IsNet, IsOperation, main_operand, width_of};
ghost use Rattle.ae_netlist.specs.Room.{HasRoom};
ghost use Rattle.ae_netlist.specs.Counts.{count_of, is_product, is_register};
ghost use Rattle.ae_netlist.specs.Runs.{InEveryRunFrom};
ghost use Rattle.ae_gates.specs.Cells.{Adds, IsConstant, IsResult, compares, is_test};

use ae_netlist::{Cell, NetId, Netlist};
use ae_word::{Width, WordOp};
use std::alloc::AllocError;

/// The width of a net, in bits.
pub fn width_at(nl: &Netlist, x: NetId) -> Width
    requires { IsNet nl.now.cells x.0 (width_of nl.now.cells x.0) }
    ensures { result ≡ width_of nl.now.cells x.0 }
{
    nl.formed();
    match nl.sized(x) {
        Some(sized) => Width { bits: sized.width },
        None => unreachable!(),
    }
}

/// Adds a net that has the same word in each clock.
pub fn constant(nl: &mut Netlist, width: Width, word: u64) -> Result<NetId, AllocError>
    requires fits { word < 2 ^ width }
    requires room { HasRoom nl.old 1 }
    ensures adds { OnOk result (Adds nl.old nl.new 1 0) }
    ensures registers { OnOk result (count_of is_register nl.new.cells ≤ count_of is_register nl.old.cells) }
    ensures tests { OnOk result (count_of is_test nl.new.cells ≤ count_of is_test nl.old.cells) }
    ensures net { IfOk result (λ y. IsNet nl.new.cells y.0 width) }
    ensures cell { IfOk result (λ y. slice_get nl.new.cells y.0 ≡ Some (record { width = width; cell = Cell.Const word })) }
    ensures words { IfOk result (λ y. InEveryRunFrom (length nl.old.cells) nl.new.cells (λ run. IsConstant run y.0 word)) }
{
    nl.formed();
    nl.push(width, Cell::Const(word))
}

/// Adds the result of an operator on words of the same clock.
pub fn operate(
    nl: &mut Netlist,
    op: WordOp,
    args: [NetId; 3],
    width: Width,
) -> Result<NetId, AllocError>
    requires operation { IsOperation nl.old.cells op args width }
    requires room { HasRoom nl.old 1 }
    ensures adds { OnOk result (Adds nl.old nl.new 1 (if is_product op then 1 else 0)) }
    ensures registers { OnOk result (count_of is_register nl.new.cells ≤ count_of is_register nl.old.cells) }
    ensures tests { OnOk result (count_of is_test nl.new.cells ≤ count_of is_test nl.old.cells + (if compares op then 1 else 0)) }
    ensures net { IfOk result (λ y. IsNet nl.new.cells y.0 width) }
    ensures words { IfOk result (λ y. InEveryRunFrom (length nl.old.cells) nl.new.cells (λ run. IsResult run y.0 op (width_of nl.old.cells (main_operand op args)) args)) }
{
    nl.formed();
    nl.push(width, Cell::Op(op, args))
}

/// Adds the bit that says whether two nets have equal words.
pub fn equal(nl: &mut Netlist, a: NetId, b: NetId, width: Width) -> Result<NetId, AllocError>
    requires left { IsNet nl.old.cells a.0 width }
    requires right { IsNet nl.old.cells b.0 width }
    requires room { HasRoom nl.old 1 }
    ensures adds { OnOk result (Adds nl.old nl.new 1 0) }
    ensures registers { OnOk result (count_of is_register nl.new.cells ≤ count_of is_register nl.old.cells) }
    ensures tests { OnOk result (count_of is_test nl.new.cells ≤ count_of is_test nl.old.cells + 1) }
    ensures net { IfOk result (λ y. IsNet nl.new.cells y.0 1) }
    ensures words { IfOk result (λ y. InEveryRunFrom (length nl.old.cells) nl.new.cells (λ run. IsResult run y.0 WordOp.Eq width (a ∷ b ∷ a ∷ []))) }
{
    operate(nl, WordOp::Eq, [a, b, a], Width::BIT)
}

/// Adds the bit that says whether the word of `a` is less than that of `b`.
pub fn less(nl: &mut Netlist, a: NetId, b: NetId, width: Width) -> Result<NetId, AllocError>
    requires left { IsNet nl.old.cells a.0 width }
    requires right { IsNet nl.old.cells b.0 width }
    requires room { HasRoom nl.old 1 }
    ensures adds { OnOk result (Adds nl.old nl.new 1 0) }
    ensures registers { OnOk result (count_of is_register nl.new.cells ≤ count_of is_register nl.old.cells) }
    ensures tests { OnOk result (count_of is_test nl.new.cells ≤ count_of is_test nl.old.cells + 1) }
    ensures net { IfOk result (λ y. IsNet nl.new.cells y.0 1) }
    ensures words { IfOk result (λ y. InEveryRunFrom (length nl.old.cells) nl.new.cells (λ run. IsResult run y.0 WordOp.Lt width (a ∷ b ∷ a ∷ []))) }
{
    operate(nl, WordOp::Lt, [a, b, a], Width::BIT)
}

/// Adds the sum of two nets, modulo 2 to their width.
pub fn sum(nl: &mut Netlist, a: NetId, b: NetId, width: Width) -> Result<NetId, AllocError>
    requires left { IsNet nl.old.cells a.0 width }
    requires right { IsNet nl.old.cells b.0 width }
    requires room { HasRoom nl.old 1 }
    ensures adds { OnOk result (Adds nl.old nl.new 1 0) }
    ensures registers { OnOk result (count_of is_register nl.new.cells ≤ count_of is_register nl.old.cells) }
    ensures tests { OnOk result (count_of is_test nl.new.cells ≤ count_of is_test nl.old.cells) }
    ensures net { IfOk result (λ y. IsNet nl.new.cells y.0 width) }
    ensures words { IfOk result (λ y. InEveryRunFrom (length nl.old.cells) nl.new.cells (λ run. IsResult run y.0 WordOp.Add width (a ∷ b ∷ a ∷ []))) }
{
    operate(nl, WordOp::Add, [a, b, a], width)
}

/// Adds the bits that are 1 in either of two nets.
pub fn either(nl: &mut Netlist, a: NetId, b: NetId, width: Width) -> Result<NetId, AllocError>
    requires left { IsNet nl.old.cells a.0 width }
    requires right { IsNet nl.old.cells b.0 width }
    requires room { HasRoom nl.old 1 }
    ensures adds { OnOk result (Adds nl.old nl.new 1 0) }
    ensures registers { OnOk result (count_of is_register nl.new.cells ≤ count_of is_register nl.old.cells) }
    ensures tests { OnOk result (count_of is_test nl.new.cells ≤ count_of is_test nl.old.cells) }
    ensures net { IfOk result (λ y. IsNet nl.new.cells y.0 width) }
    ensures words { IfOk result (λ y. InEveryRunFrom (length nl.old.cells) nl.new.cells (λ run. IsResult run y.0 WordOp.Or width (a ∷ b ∷ a ∷ []))) }
{
    operate(nl, WordOp::Or, [a, b, a], width)
}

/// Adds the bits in which two nets differ.
pub fn differ(nl: &mut Netlist, a: NetId, b: NetId, width: Width) -> Result<NetId, AllocError>
    requires left { IsNet nl.old.cells a.0 width }
    requires right { IsNet nl.old.cells b.0 width }
    requires room { HasRoom nl.old 1 }
    ensures adds { OnOk result (Adds nl.old nl.new 1 0) }
    ensures registers { OnOk result (count_of is_register nl.new.cells ≤ count_of is_register nl.old.cells) }
    ensures tests { OnOk result (count_of is_test nl.new.cells ≤ count_of is_test nl.old.cells) }
    ensures net { IfOk result (λ y. IsNet nl.new.cells y.0 width) }
    ensures words { IfOk result (λ y. InEveryRunFrom (length nl.old.cells) nl.new.cells (λ run. IsResult run y.0 WordOp.Xor width (a ∷ b ∷ a ∷ []))) }
{
    operate(nl, WordOp::Xor, [a, b, a], width)
}

/// Adds twice a net, modulo 2 to its width.
pub fn doubled(nl: &mut Netlist, a: NetId, width: Width) -> Result<NetId, AllocError>
    requires net { IsNet nl.old.cells a.0 width }
    requires room { HasRoom nl.old 1 }
    ensures adds { OnOk result (Adds nl.old nl.new 1 0) }
    ensures registers { OnOk result (count_of is_register nl.new.cells ≤ count_of is_register nl.old.cells) }
    ensures tests { OnOk result (count_of is_test nl.new.cells ≤ count_of is_test nl.old.cells) }
    ensures net { IfOk result (λ y. IsNet nl.new.cells y.0 width) }
    ensures words { IfOk result (λ y. InEveryRunFrom (length nl.old.cells) nl.new.cells (λ run. IsResult run y.0 (WordOp.Shl 1) width (a ∷ a ∷ a ∷ []))) }
{
    operate(nl, WordOp::Shl(1), [a, a, a], width)
}

/// Adds the lowest bit of a net.
pub fn lowest(nl: &mut Netlist, a: NetId, width: Width) -> Result<NetId, AllocError>
    requires net { IsNet nl.old.cells a.0 width }
    requires room { HasRoom nl.old 1 }
    ensures adds { OnOk result (Adds nl.old nl.new 1 0) }
    ensures registers { OnOk result (count_of is_register nl.new.cells ≤ count_of is_register nl.old.cells) }
    ensures tests { OnOk result (count_of is_test nl.new.cells ≤ count_of is_test nl.old.cells) }
    ensures net { IfOk result (λ y. IsNet nl.new.cells y.0 1) }
    ensures words { IfOk result (λ y. InEveryRunFrom (length nl.old.cells) nl.new.cells (λ run. IsResult run y.0 (WordOp.Cast 1) width (a ∷ a ∷ a ∷ []))) }
{
    operate(nl, WordOp::Cast(1), [a, a, a], Width::BIT)
}

/// Adds a net with the word of `a` where the condition is 1, and else that of `b`.
pub fn choose(
    nl: &mut Netlist,
    condition: NetId,
    a: NetId,
    b: NetId,
    width: Width,
) -> Result<NetId, AllocError>
    requires condition { IsNet nl.old.cells condition.0 1 }
    requires left { IsNet nl.old.cells a.0 width }
    requires right { IsNet nl.old.cells b.0 width }
    requires room { HasRoom nl.old 1 }
    ensures adds { OnOk result (Adds nl.old nl.new 1 0) }
    ensures registers { OnOk result (count_of is_register nl.new.cells ≤ count_of is_register nl.old.cells) }
    ensures tests { OnOk result (count_of is_test nl.new.cells ≤ count_of is_test nl.old.cells) }
    ensures net { IfOk result (λ y. IsNet nl.new.cells y.0 width) }
    ensures words { IfOk result (λ y. InEveryRunFrom (length nl.old.cells) nl.new.cells (λ run. IsResult run y.0 WordOp.Mux width (condition ∷ a ∷ b ∷ []))) }
{
    operate(nl, WordOp::Mux, [condition, a, b], width)
}
