// The widths that expressions have by themselves, and those of the parts of their concatenations.

ghost use Rattle.std.specs.Prelude.{◌≡◌, ◌≤◌, ◌++◌, ◌∷◌, [], length, IfOk, OnOk};
ghost use Rattle.ae_vmodule.specs.Roots.{numbered};
ghost use Rattle.ae_vmodule.specs.View.{expr_tree};
ghost use Rattle.ae_judge.specs.Widths.{binary_width, own_width, unary_width};
ghost use Rattle.ae_order.specs.Sound.{IsSound};
ghost use Rattle.ae_express.specs.Asked.{part_widths};

use crate::forms::{Form, form_of};
use crate::own::{index_width, name_width};
use ae_judge::Names;
use ae_order::place_number;
use ae_vmodule::{BinOp, Expr, Root, UnOp};
use std::alloc::AllocError;

/// The width of a prefix whose operand has this.
fn unary_width(op: UnOp, a: u32) -> u32
    ensures { result ≡ unary_width op a }
{
    match op {
        UnOp::Not => 1,
        UnOp::Flip => a,
    }
}

/// The width of an operator whose operands have these.
fn binary_width(op: BinOp, a: u32, b: u32) -> u32
    ensures { result ≡ binary_width op a b }
{
    match form_of(op) {
        Form::Word(_) => a.max(b),
        Form::Shift(_) => a,
        Form::Comparison(_) => 1,
        Form::Test(_) => 1,
    }
}

/// The width that an expression has by itself. Puts that of each part of a concatenation in it behind `widths`, each once,
/// however deep the concatenations are in one another; the one that is asked for first comes last.
#[cycle(measuring)]
pub fn measure(names: &Names<'_>, e: Expr<'_>, widths: &mut Vec<u32>) -> Result<u32, AllocError>
    requires sound { IsSound names.now.nets (expr_tree names.now.words (numbered e)) }
    ensures own { IfOk result (λ w. w ≡ own_width names.now.nets (expr_tree names.now.words (numbered e.entry))) }
    ensures widths { OnOk result (widths.new.items ≡ widths.old.items ++ part_widths names.now.nets (expr_tree names.now.words (numbered e.entry))) }
{
    match e.root() {
        Root::Name(name) => Ok(name_width(names, name)),
        Root::Const { size, .. } => Ok(u32::from(size)),
        Root::Place(_) => unreachable!(),
        Root::Part { high, low, .. } => Ok(high - low + 1),
        Root::Index { name, at } => match place_number(at) {
            Some(_) => Ok(index_width(names, name)),
            None => {
                let _at = measure(names, at, widths)?;
                Ok(index_width(names, name))
            }
        },
        Root::Unary(op, a) => {
            let own = measure(names, a, widths)?;
            Ok(unary_width(op, own))
        }
        Root::Binary(op, a, b) => {
            let right = measure(names, b, widths)?;
            let left = measure(names, a, widths)?;
            Ok(binary_width(op, left, right))
        }
        Root::Choose(test, a, b) => {
            let right = measure(names, b, widths)?;
            let left = measure(names, a, widths)?;
            let _test = measure(names, test, widths)?;
            Ok(left.max(right))
        }
        Root::One(a) => {
            let own = measure(names, a, widths)?;
            widths.push(own)?;
            Ok(own)
        }
        Root::More(a, rest) => {
            let others = measure(names, rest, widths)?;
            let own = measure(names, a, widths)?;
            widths.push(own)?;
            Ok(own + others)
        }
    }
}

/// Takes the last of some widths.
pub fn last_width(widths: &mut Vec<u32>) -> u32
    requires some { 1 ≤ length widths.old.items }
    ensures { widths.old.items ≡ widths.new.items ++ result ∷ [] }
{
    match widths.pop() {
        Some(width) => width,
        None => unreachable!(),
    }
}
