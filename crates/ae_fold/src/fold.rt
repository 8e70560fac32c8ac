// What is folded.

ghost use Rattle.std.specs.Prelude.{◌≡◌, ◌*◌, ◌≤◌, ◌↔◌, IfOk, IfSome, IsSome, IsTrue};
ghost use Rattle.ae_sttype.specs.StTree.{st_tree, time};
ghost use Rattle.ae_sttype.specs.Size.{IsInSize};
ghost use Rattle.ae_fold.specs.Rows.{IsPlan};
ghost use Rattle.ae_fold.specs.Shapes.{IsFoldShape, IsPlanFor, element_folds};

use crate::plan::{Plan, levels};
use crate::words::{WordFold, word_folds};
use ae_sttype::StType;
use ae_word::{WordOp, folds};
use std::alloc::{AllocError, Global};
use std::marker::Model;

/// A fold or a scan by an operator: elements of a type on so many lanes and in so many slots, in each period of so many
/// clocks; on signed words `min` and `max` are the signed ones.
#[derive(Drop)]
pub struct Fold {
    op: WordOp,
    slots: u32,
    lanes: u32,
    element: StType,
    period: u32,
}

impl Model for Fold {
    ghost use Rattle.std.specs.Coded.{codes};
    ghost use Rattle.ae_sttype.specs.contracts.st_type.StType as e;
    ghost use Rattle.ae_fold.specs.Shapes.{FoldShape, IsFoldShape};

    ghost Value = { FoldShape };

    ghost coded = { Prim.hlevel (codes, e.the_row.coded) };

    ghost view = { λ f. record { op = f.op; slots = f.slots; lanes = f.lanes; element = f.element; period = f.period } };

    ghost invariant = { λ f. IsFoldShape (record { op = f.op; slots = f.slots; lanes = f.lanes; element = f.element; period = f.period }) };
}

impl Fold {
    /// None exactly where the operator is not one of the seven that fold, slots or lanes are 0 or more than 4,096, the
    /// element is not in size, or the period is 0, more than 4,096 or too short for the slots. Takes no memory.
    pub fn new(op: WordOp, slots: u32, lanes: u32, element: StType, period: u32) -> Option<Fold>
        ensures some { IsSome result ↔ IsFoldShape (record { op = op; slots = slots; lanes = lanes; element = element; period = period }) }
        ensures is { IfSome result (λ f. f ≡ record { op = op; slots = slots; lanes = lanes; element = element; period = period }) }
    {
        if is_fold(op, slots, lanes, &element, period) {
            Some(Fold::of_shape(op, slots, lanes, element, period))
        } else {
            None
        }
    }

    /// `new`, where it is known to be one. Takes no memory.
    pub fn of_shape(op: WordOp, slots: u32, lanes: u32, element: StType, period: u32) -> Fold
        requires { IsFoldShape (record { op = op; slots = slots; lanes = lanes; element = element; period = period }) }
        ensures { result ≡ record { op = op; slots = slots; lanes = lanes; element = element; period = period } }
    {
        Fold {
            op,
            slots,
            lanes,
            element,
            period,
        }
    }

    /// The clocks of a period: 1 to 4,096.
    pub fn period(&self) -> u32
        ensures is { result ≡ self.now.period }
        ensures some { 1 ≤ result }
        ensures most { result ≤ 4096 }
    {
        self.period
    }

    /// Its numbers.
    pub fn plan(&self) -> Plan
        ensures plan { IsPlan result }
        ensures numbers { IsPlanFor (st_tree self.now.element) self.now.slots self.now.lanes self.now.period result }
    {
        plan_of(self.slots, self.lanes, &self.element, self.period)
    }

    /// What the words of an element are folded by; an error only for want of memory.
    pub fn words(&self, alloc: Global) -> Result<Vec<WordFold>, AllocError>
        ensures { IfOk result (λ folds. folds.items ≡ element_folds self.now.op (st_tree self.now.element)) }
    {
        word_folds(alloc, self.op, &self.element)
    }
}

fn plan_of(slots: u32, lanes: u32, element: &StType, period: u32) -> Plan
    requires slots_some { 1 ≤ slots }
    requires lanes_some { 1 ≤ lanes }
    requires lanes_most { lanes ≤ 4096 }
    requires element { IsInSize (st_tree element.now) }
    requires period_most { period ≤ 4096 }
    requires room { slots * time (st_tree element.now) ≤ period }
    ensures plan { IsPlan result }
    ensures numbers { IsPlanFor (st_tree element.now) slots lanes period result }
{
    Plan {
        slots,
        lanes,
        stride: element.lanes() * element.element_words(),
        inner: element.time(),
        period,
        levels: levels(lanes),
    }
}

fn within(number: u32) -> bool
    ensures { IsTrue result ↔ ((1 ≤ number) × (number ≤ 4096)) }
{
    1 <= number && number <= 4096
}

fn is_fold(op: WordOp, slots: u32, lanes: u32, element: &StType, period: u32) -> bool
    ensures { IsTrue result ↔ IsFoldShape (record { op = op; slots = slots; lanes = lanes; element = element.now; period = period }) }
{
    if !folds(op) || !element.in_size() {
        return false;
    }
    if !within(slots) || !within(lanes) || !within(period) {
        return false;
    }
    slots * element.time() <= period
}
