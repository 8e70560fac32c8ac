// The labels of the results of an instance, and when its items could arrive.

ghost use Rattle.std.specs.Prelude.{◌≡◌, ◌<◌, ◌+◌, ℕ, length, map, IfOk, Some, slice_get};
ghost use Rattle.std.specs.List.{range_with_len};
ghost use Rattle.ae_moves.specs.Origins.{move_latency};
ghost use Rattle.ae_rewrite.specs.StProgramTree.{StNodeTree, st_func_tree};
ghost use Rattle.ae_rewrite.specs.Sound.{item_layouts};
ghost use Rattle.ae_flow.specs.Flow.{words_at};
ghost use Rattle.ae_fuse.specs.Clocks.{label_clocks};
ghost use Rattle.ae_fuse.specs.Fused.{IsMovable};
ghost use Rattle.ae_fuse.specs.Moved.{HaveResults, own_labels, own_move};

use crate::clocks::label_clocks;
use crate::labelling::node_labels;
use crate::numbers::first_labels;
use crate::results::{item_arrival, item_arrivals};
use crate::wanted::{forget, forget_all, last_wants, node_at};
use ae_rewrite::StFunc;
use std::alloc::{AllocError, Global};

/// The labels of the results of an instance, each at its item, and when the items could arrive.
#[derive(Drop)]
pub(crate) struct ResultLabels {
    pub labels: Vec<Vec<u32>>,
    pub arrivals: Vec<u32>,
}

// The labels of node j, by those of the items above it that are wanted there, and when it could arrive.
fn trace_node(
    alloc: Global,
    s: &StFunc,
    j: usize,
    sources: &[u32],
    labels: &[Vec<u32>],
) -> Result<(Vec<u32>, u32), AllocError>
    requires movable { IsMovable (st_func_tree s.now) }
    requires there { j < length s.now.nodes.items }
    requires sources { sources.now ≡ label_clocks (st_func_tree s.now).ins }
    requires many { length labels.now ≡ length s.now.ins.items + j }
    requires labels { (n : StNodeTree) (i a : ℕ) → slice_get (st_func_tree s.now).nodes j ≡ Some n → slice_get n.args i ≡ Some a → words_at (map (λ w. w.items) labels.now) a ≡ words_at (own_labels (st_func_tree s.now)) a }
    ensures labels { IfOk result (λ x. x.0.items ≡ words_at (own_labels (st_func_tree s.now)) (length s.now.ins.items + j)) }
    ensures arrival { IfOk result (λ x. x.1 ≡ move_latency (own_move (st_func_tree s.now) (own_labels (st_func_tree s.now)) (length s.now.ins.items + j))) }
{
    let node = node_at(s, j);
    let own = node_labels(alloc, s, node, labels)?;
    let arrival = item_arrival(alloc, sources, &node.ty, &own)?;
    Ok((own, arrival))
}

/// Follows the words of the parameters through an instance; an error only for want of memory. The labels of an item are let go
/// of behind the last node that has it as an argument, unless it is a result.
pub(crate) fn traced(alloc: Global, s: &StFunc) -> Result<ResultLabels, AllocError>
    requires movable { IsMovable (st_func_tree s.now) }
    ensures results { IfOk result (λ t. HaveResults (st_func_tree s.now) (map (λ w. w.items) t.labels.items)) }
    ensures arrivals { IfOk result (λ t. t.arrivals.items ≡ map (λ i. move_latency (own_move (st_func_tree s.now) (own_labels (st_func_tree s.now)) i)) (range_with_len 0 (length (item_layouts (st_func_tree s.now))))) }
{
    let sources = label_clocks(alloc, &s.ins)?;
    let last = last_wants(alloc, s)?;
    let mut labels = first_labels(alloc, &s.ins)?;
    let mut arrivals = item_arrivals(alloc, s, &labels)?;
    for j in 0..s.nodes.len() {
        let (own, arrival) = trace_node(alloc, s, j, &sources, &labels)?;
        labels.push(own)?;
        arrivals.push(arrival)?;
        forget(alloc, &mut labels, &last, s.ins.len() + j, j);
        forget_all(alloc, &mut labels, &last, node_at(s, j).args.as_slice(), j);
    }
    Ok(ResultLabels { labels, arrivals })
}
