// The places of names, and those that stand as indices.

ghost use Rattle.std.specs.Prelude.{ℕ, List, ◌≡◌, IfNone, IfSome, false};
ghost use Rattle.ae_vmodule.specs.ModuleTree.{place};
ghost use Rattle.ae_vmodule.specs.View.{expr_tree, word_at};
ghost use Rattle.ae_vmodule.specs.Roots.{numbered};
ghost use Rattle.ae_judge.specs.Faults.{is_place};
ghost use Rattle.ae_runs.specs.Named.{IsNamed, place_of};

use ae_judge::Names;
use ae_vmodule::{Expr, Root};

/// The place of a declared name.
pub fn place_of(names: &Names<'_>, name: u32) -> usize
    requires named { IsNamed names.now.nets (word_at names.now.words name) }
    ensures { result ≡ place_of names.now.nets (word_at names.now.words name) }
{
    match names.place(name) {
        Some(place) => place,
        None => unreachable!(),
    }
}

/// The number of a place that stands as an index.
pub fn place_number(e: Expr<'_>) -> Option<u32>
    ensures some { (ws : List (List ℕ)) → IfSome result (λ k. expr_tree ws (numbered e.entry) ≡ place k) }
    ensures none { (ws : List (List ℕ)) → IfNone result (is_place (expr_tree ws (numbered e.entry)) ≡ false) }
{
    match e.root() {
        Root::Place(k) => Some(k),
        _ => None,
    }
}
