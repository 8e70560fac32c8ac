// Binary operators by the cells that they take.

ghost use Rattle.std.specs.Prelude.{ℕ, List, ◌≡◌, ◌<◌, ◌≤◌, ◌+◌, ◌*◌, ℕ, List, length, IfNone, IfOk, IfSome, OnOk};
ghost use Rattle.ae_netlist.specs.Circuit.{IsNet};
ghost use Rattle.ae_netlist.specs.Runs.{Clock};
ghost use Rattle.ae_vmodule.specs.Roots.{numbered};
ghost use Rattle.ae_vmodule.specs.View.{expr_tree};
ghost use Rattle.ae_judge.specs.Widths.{binary_width, own_width};
ghost use Rattle.ae_judge.specs.Weight.{operator_weight, shift_weight};
ghost use Rattle.ae_runs.specs.Values.{binary_result, left_width, right_width};
ghost use Rattle.ae_order.specs.Sound.{IsSound};
ghost use Rattle.ae_netlist.specs.Room.{HasRoom};
ghost use Rattle.ae_gates.specs.Cells.{AddsGates, IsWord};
ghost use Rattle.ae_express.specs.ConstantValue.{IsConstantOf};
ghost use Rattle.ae_express.specs.Forms.{IsForm, IsShiftForm, most_cells, relation_result};

use crate::own::own_width;
use ae_gates::{Way, compared, gate, opposed, shifted, tested};
use ae_judge::Names;
use ae_netlist::{NetId, Netlist};
use ae_vmodule::{BinOp, Expr, Root};
use ae_word::WordOp;
use std::alloc::AllocError;

/// A comparison of two words.
#[derive(Clone, Copy)]
pub enum Relation {
    Equal,
    Differs,
    Less,
    AtLeast,
    Greater,
    AtMost,
}

/// What a binary operator is made of.
#[derive(Clone, Copy)]
pub enum Form {
    /// One operator on words of the width.
    Word(WordOp),
    Shift(Way),
    Comparison(Relation),
    /// The opposite of an operator on the bits that say which word is 0.
    Test(WordOp),
}

/// What an operator is made of.
pub fn form_of(op: BinOp) -> Form
    ensures { IsForm op result }
{
    match op {
        BinOp::Mul => Form::Word(WordOp::Mul),
        BinOp::Add => Form::Word(WordOp::Add),
        BinOp::Sub => Form::Word(WordOp::Sub),
        BinOp::And => Form::Word(WordOp::And),
        BinOp::Xor => Form::Word(WordOp::Xor),
        BinOp::Or => Form::Word(WordOp::Or),
        BinOp::Shl => Form::Shift(Way::Left),
        BinOp::Shr => Form::Shift(Way::Right),
        BinOp::Lt => Form::Comparison(Relation::Less),
        BinOp::Le => Form::Comparison(Relation::AtMost),
        BinOp::Gt => Form::Comparison(Relation::Greater),
        BinOp::Ge => Form::Comparison(Relation::AtLeast),
        BinOp::Eq => Form::Comparison(Relation::Equal),
        BinOp::Ne => Form::Comparison(Relation::Differs),
        BinOp::Both => Form::Test(WordOp::Or),
        BinOp::Either => Form::Test(WordOp::And),
    }
}

/// The value of a constant.
fn constant_value(e: Expr<'_>) -> Option<u64>
    ensures some { (ws : List (List ℕ)) → IfSome result (λ k. IsConstantOf k (expr_tree ws (numbered e.entry))) }
    ensures none { (ws : List (List ℕ)) → IfNone result (shift_weight (expr_tree ws (numbered e.entry)) ≡ 6) }
{
    match e.root() {
        Root::Const { value, .. } => Some(value),
        _ => None,
    }
}

/// The way and the places of a shift by a constant.
pub fn fixed_shift(op: BinOp, amount: Expr<'_>) -> Option<(Way, u64)>
    ensures way { IfSome result (λ s. IsShiftForm op s.0) }
    ensures places { (ws : List (List ℕ)) → IfSome result (λ s. IsConstantOf s.1 (expr_tree ws (numbered amount.entry))) }
    ensures none { (ws : List (List ℕ)) → IfNone result (8 * operator_weight op (expr_tree ws (numbered amount.entry)) ≡ most_cells op + 1) }
{
    match form_of(op) {
        Form::Shift(way) => match constant_value(amount) {
            Some(places) => Some((way, places)),
            None => None,
        },
        _ => None,
    }
}

/// The widths at which both operands are computed, where `w` is handed down. An operand's own width is added up only where
/// the operator asks for it, so that a long sum takes time linear in it.
pub fn operand_widths(names: &Names<'_>, op: BinOp, w: u32, a: Expr<'_>, b: Expr<'_>) -> (u32, u32)
    requires left_sound { IsSound names.now.nets (expr_tree names.now.words (numbered a)) }
    requires right_sound { IsSound names.now.nets (expr_tree names.now.words (numbered b)) }
    requires within { binary_width op (own_width names.now.nets (expr_tree names.now.words (numbered a))) (own_width names.now.nets (expr_tree names.now.words (numbered b))) ≤ w }
    requires high { w ≤ 64 }
    ensures left { result.0 ≡ left_width op w (own_width names.now.nets (expr_tree names.now.words (numbered a.entry))) (own_width names.now.nets (expr_tree names.now.words (numbered b.entry))) }
    ensures right { result.1 ≡ right_width op w (own_width names.now.nets (expr_tree names.now.words (numbered a.entry))) (own_width names.now.nets (expr_tree names.now.words (numbered b.entry))) }
    ensures left_within { own_width names.now.nets (expr_tree names.now.words (numbered a.entry)) ≤ result.0 }
    ensures right_within { own_width names.now.nets (expr_tree names.now.words (numbered b.entry)) ≤ result.1 }
    ensures left_low { 1 ≤ result.0 }
    ensures right_low { 1 ≤ result.1 }
    ensures left_high { result.0 ≤ 64 }
    ensures right_high { result.1 ≤ 64 }
    ensures same_left { result.0 ≡ left_width op w result.0 result.1 }
    ensures same_right { result.1 ≡ right_width op w result.0 result.1 }
{
    match form_of(op) {
        Form::Word(_) => (w, w),
        Form::Shift(_) => (w, own_width(names, b)),
        Form::Comparison(_) => {
            let both = own_width(names, a).max(own_width(names, b));
            (both, both)
        }
        Form::Test(_) => (own_width(names, a), own_width(names, b)),
    }
}

/// The bit of a comparison of two words of one width, at a width.
pub fn compare(
    nl: &mut Netlist,
    from: u32,
    how: Relation,
    a: NetId,
    b: NetId,
    own: u32,
    width: u32,
) -> Result<NetId, AllocError>
    requires from { from ≤ length nl.old.cells }
    requires low { 1 ≤ width }
    requires high { width ≤ 64 }
    requires left { IsNet nl.old.cells a.0 own }
    requires right { IsNet nl.old.cells b.0 own }
    requires room { HasRoom nl.old 3 }
    ensures adds { OnOk result (AddsGates nl.old nl.new 3) }
    ensures net { IfOk result (λ y. IsNet nl.new.cells y.0 width) }
    ensures word { IfOk result (λ y. (f g : List Clock → ℕ → ℕ) → IsWord from nl.old.cells a.0 own f → IsWord from nl.old.cells b.0 own g → IsWord from nl.new.cells y.0 width (λ run t. relation_result how (f run t) (g run t))) }
{
    match how {
        Relation::Equal => compared(nl, from, WordOp::Eq, a, b, own, width),
        Relation::Differs => opposed(nl, from, WordOp::Eq, a, b, own, width),
        Relation::Less => compared(nl, from, WordOp::Lt, a, b, own, width),
        Relation::AtLeast => opposed(nl, from, WordOp::Lt, a, b, own, width),
        Relation::Greater => compared(nl, from, WordOp::Lt, b, a, own, width),
        Relation::AtMost => opposed(nl, from, WordOp::Lt, b, a, own, width),
    }
}

/// The result of an operator on two words, each at the width at which it is computed, where `w` is handed down.
#[tactic(auto, using(ae_gates::proofs::Words::net_grows))]
pub fn combine(
    nl: &mut Netlist,
    from: u32,
    op: BinOp,
    w: u32,
    x: NetId,
    wx: u32,
    y: NetId,
    wy: u32,
) -> Result<NetId, AllocError>
    requires from { from ≤ length nl.old.cells }
    requires low { 1 ≤ w }
    requires high { w ≤ 64 }
    requires x_low { 1 ≤ wx }
    requires x_high { wx ≤ 64 }
    requires y_low { 1 ≤ wy }
    requires y_high { wy ≤ 64 }
    requires left_width { wx ≡ left_width op w wx wy }
    requires right_width { wy ≡ right_width op w wx wy }
    requires left { IsNet nl.old.cells x.0 wx }
    requires right { IsNet nl.old.cells y.0 wy }
    requires room { HasRoom nl.old (most_cells op) }
    ensures adds { OnOk result (AddsGates nl.old nl.new (most_cells op)) }
    ensures net { IfOk result (λ z. IsNet nl.new.cells z.0 w) }
    ensures word { IfOk result (λ z. (f g : List Clock → ℕ → ℕ) → IsWord from nl.old.cells x.0 wx f → IsWord from nl.old.cells y.0 wy g → IsWord from nl.new.cells z.0 w (λ run t. binary_result op w (f run t) (g run t))) }
{
    match form_of(op) {
        Form::Word(cell) => gate(nl, from, cell, x, y, w, w),
        Form::Shift(way) => shifted(nl, from, way, x, y, wy, w),
        Form::Comparison(how) => compare(nl, from, how, x, y, wx, w),
        Form::Test(cell) => tested(nl, from, cell, x, wx, y, wy, w),
    }
}
