// The widths that expressions have by themselves.

ghost use Rattle.std.specs.Prelude.{◌≡◌, ◌≤◌, if◌then◌else◌};
ghost use Rattle.ae_vmodule.specs.Roots.{numbered};
ghost use Rattle.ae_vmodule.specs.View.{expr_tree, word_at};
ghost use Rattle.ae_judge.specs.Names.{is_memory_name};
ghost use Rattle.ae_judge.specs.Widths.{own_width, declared_width};
ghost use Rattle.ae_runs.specs.Named.{IsNamed};
ghost use Rattle.ae_order.specs.Sound.{IsSound};

use crate::forms::{Form, form_of};
use ae_judge::Names;
use ae_vmodule::{Expr, Root, UnOp};

/// The width of a name.
pub fn name_width(names: &Names<'_>, name: u32) -> u32
    requires named { IsNamed names.now.nets (word_at names.now.words name) }
    ensures width { result ≡ declared_width names.now.nets (word_at names.now.words name) }
    ensures low { 1 ≤ result }
    ensures high { result ≤ 64 }
{
    names.width(name)
}

/// The width of one bit or one word of a name.
pub fn index_width(names: &Names<'_>, name: u32) -> u32
    requires named { IsNamed names.now.nets (word_at names.now.words name) }
    ensures width { result ≡ (if is_memory_name names.now.nets (word_at names.now.words name) then declared_width names.now.nets (word_at names.now.words name) else 1) }
    ensures low { 1 ≤ result }
    ensures high { result ≤ 64 }
{
    if names.is_memory(name) {
        return name_width(names, name);
    }
    1
}

/// The width that an expression has by itself.
#[cycle(widths)]
pub fn own_width(names: &Names<'_>, e: Expr<'_>) -> u32
    requires sound { IsSound names.now.nets (expr_tree names.now.words (numbered e)) }
    ensures own { result ≡ own_width names.now.nets (expr_tree names.now.words (numbered e.entry)) }
    ensures low { 1 ≤ result }
    ensures high { result ≤ 64 }
{
    match e.root() {
        Root::Name(name) => name_width(names, name),
        Root::Const { size, .. } => u32::from(size),
        Root::Place(_) => unreachable!(),
        Root::Part { high, low, .. } => high - low + 1,
        Root::Index { name, .. } => index_width(names, name),
        Root::Unary(UnOp::Not, _) => 1,
        Root::Unary(UnOp::Flip, a) => own_width(names, a),
        Root::Binary(op, a, b) => match form_of(op) {
            Form::Word(_) => own_width(names, a).max(own_width(names, b)),
            Form::Shift(_) => own_width(names, a),
            Form::Comparison(_) => 1,
            Form::Test(_) => 1,
        },
        Root::Choose(_, a, b) => own_width(names, a).max(own_width(names, b)),
        Root::One(a) => own_width(names, a),
        Root::More(a, rest) => own_width(names, a) + own_width(names, rest),
    }
}
