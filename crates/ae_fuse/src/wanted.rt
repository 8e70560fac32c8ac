// Until when the labels of items are wanted.

ghost use Rattle.std.specs.Prelude.{◌≡◌, ◌<◌, ◌≤◌, ◌+◌, ℕ, length, map, IfOk, Some, slice_get};
ghost use Rattle.ae_rewrite.specs.StProgramTree.{st_func_tree};
ghost use Rattle.ae_fuse.specs.Labels.{MovesWords};
ghost use Rattle.ae_fuse.specs.Wanted.{AreRaised, AreWants, KeepWanted};

use ae_rewrite::{StFunc, StNode};
use std::alloc::{AllocError, Global};

// Raises the entries of items to a number, where they are below it.
fn raise(last: &mut Vec<usize>, items: &[u32], to: usize)
    requires { (i a : ℕ) → slice_get items.now i ≡ Some a → a < length last.old.items }
    ensures { AreRaised items.now to last.old.items last.new.items }
{
    for k in 0..items.len() {
        let item = items[k] as usize;
        let before = last[item];
        last[item] = before.max(to);
    }
}

/// Node j of an instance.
pub(crate) fn node_at(s: &StFunc, j: usize) -> &StNode
    requires { j < length s.now.nodes.items }
    ensures { slice_get s.now.nodes.items j ≡ Some result.now }
{
    &s.nodes[j]
}

/// For each item one more than the number of the last node that has it as an argument, and for a result one more than the
/// number of nodes; 0 for one that nothing wants. An error only for want of memory.
pub(crate) fn last_wants(alloc: Global, s: &StFunc) -> Result<Vec<usize>, AllocError>
    requires moves { MovesWords (st_func_tree s.now) }
    requires results { (r a : ℕ) → slice_get s.now.results.items r ≡ Some a → a < length s.now.ins.items + length s.now.nodes.items }
    ensures { IfOk result (λ v. AreWants (st_func_tree s.now) v.items) }
{
    let mut last = vec![in alloc; 0usize; s.ins.len() + s.nodes.len()]?;
    for j in 0..s.nodes.len() {
        raise(&mut last, node_at(s, j).args.as_slice(), j + 1);
    }
    raise(&mut last, s.results.as_slice(), s.nodes.len() + 1);
    Ok(last)
}

/// Lets go of the labels of an item where it is not wanted behind node j.
pub(crate) fn forget(
    alloc: Global,
    labels: &mut Vec<Vec<u32>>,
    last: &[usize],
    item: usize,
    j: usize,
)
    requires inside { item < length labels.old.items }
    requires many { length labels.old.items ≤ length last.now }
    ensures { KeepWanted last.now j (map (λ w. w.items) labels.old.items) (map (λ w. w.items) labels.new.items) }
{
    let until = last[item];
    if until.saturating_sub(1) <= j {
        labels[item] = Vec::new(alloc);
    }
}

/// Lets go of the labels of these items where they are not wanted behind node j.
pub(crate) fn forget_all(
    alloc: Global,
    labels: &mut Vec<Vec<u32>>,
    last: &[usize],
    items: &[u32],
    j: usize,
)
    requires inside { (i a : ℕ) → slice_get items.now i ≡ Some a → a < length labels.old.items }
    requires many { length labels.old.items ≤ length last.now }
    ensures { KeepWanted last.now j (map (λ w. w.items) labels.old.items) (map (λ w. w.items) labels.new.items) }
{
    for k in 0..items.len() {
        forget(alloc, labels, last, items[k] as usize, j);
    }
}
