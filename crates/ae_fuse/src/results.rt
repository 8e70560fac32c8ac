// The moves of the results, and when the items could arrive by such moves.

ghost use Rattle.std.specs.Prelude.{◌≡◌, ◌<◌, ◌≤◌, ℕ, List, length, map, IfOk, Some, slice_get};
ghost use Rattle.std.specs.List.{range_with_len};
ghost use Rattle.ae_sttype.specs.declared.st_type.StType.{StType as Layout};
ghost use Rattle.ae_sttype.specs.StTree.{StTree, st_tree};
ghost use Rattle.ae_sttype.specs.Size.{IsInSize};
ghost use Rattle.ae_moves.specs.Origins.{IsMove, move_latency};
ghost use Rattle.ae_rewrite.specs.StProgramTree.{st_func_tree, st_trees};
ghost use Rattle.ae_rewrite.specs.Sound.{item_layouts};
ghost use Rattle.ae_results.specs.declared.result.FusedResult.{FusedResult as Moving};
ghost use Rattle.ae_flow.specs.Flow.{layout_words};
ghost use Rattle.ae_fuse.specs.Labels.{MovesWords, labelled_origin};
ghost use Rattle.ae_fuse.specs.Clocks.{label_clocks};
ghost use Rattle.ae_fuse.specs.Moved.{own_move};
ghost use Rattle.ae_fuse.specs.Costing.{fused_costs};
ghost use Rattle.ae_results.specs.Results.{AreAllCosts, result_move};
ghost use Rattle.ae_fuse.specs.Slowdowns.{told_costs};

use crate::clocks::{element_clocks, label_clocks, lateness};
use crate::labelling::labels_at;
use crate::numbers::label_origins;
use ae_delay::layout;
use ae_moves::Origin;
use ae_results::{
    FusedCosts, FusedResult, ResultCosts, all_columns, latest_result, result_costs, whole_load,
    whole_mems,
};
use ae_rewrite::StFunc;
use ae_sttype::StType;
use std::alloc::{AllocError, Global};

/// When an item in this layout with these labels could arrive, by the clocks of the numbers of all words.
pub(crate) fn item_arrival(
    alloc: Global,
    sources: &[u32],
    out: &StType,
    labels: &[u32],
) -> Result<u32, AllocError>
    requires size { IsInSize (st_tree out.now) }
    requires long { length labels.now ≡ layout_words (st_tree out.now) }
    ensures { IfOk result (λ n. (ins : List StTree) → sources.now ≡ label_clocks ins → n ≡ move_latency (record { ins = ins; out = st_tree out.now; origins = map (labelled_origin ins) labels.now })) }
{
    let elements = element_clocks(alloc, out)?;
    Ok(lateness(sources, labels, &elements, out.element_words()))
}

/// When the first items could arrive, each by one move from all parameters; an error only for want of memory.
pub(crate) fn item_arrivals(
    alloc: Global,
    s: &StFunc,
    labels: &[Vec<u32>],
) -> Result<Vec<u32>, AllocError>
    requires moves { MovesWords (st_func_tree s.now) }
    requires many { length labels.now ≤ length (item_layouts (st_func_tree s.now)) }
    requires each { (i : ℕ) → i < length labels.now → IsMove (own_move (st_func_tree s.now) (map (λ w. w.items) labels.now) i) }
    ensures { IfOk result (λ v. v.items ≡ map (λ i. move_latency (own_move (st_func_tree s.now) (map (λ w. w.items) labels.now) i)) (range_with_len 0 (length labels.now))) }
{
    let sources = label_clocks(alloc, &s.ins)?;
    let mut arrivals = Vec::new(alloc);
    for i in 0..labels.len() {
        let arrival = item_arrival(alloc, &sources, layout(s, i), labels_at(labels, i))?;
        arrivals.push(arrival)?;
    }
    Ok(arrivals)
}

// The item of result r.
fn result_item(s: &StFunc, r: usize) -> usize
    requires { r < length s.now.results.items }
    ensures { slice_get s.now.results.items r ≡ Some result }
{
    s.results[r] as usize
}

/// The move of each result; an error only for want of memory.
pub(crate) fn result_moves(
    alloc: Global,
    s: &StFunc,
    labels: &[Vec<u32>],
) -> Result<Vec<FusedResult>, AllocError>
    requires moves { MovesWords (st_func_tree s.now) }
    requires many { length labels.now ≡ length (item_layouts (st_func_tree s.now)) }
    requires results { (r i : ℕ) → slice_get s.now.results.items r ≡ Some i → i < length labels.now }
    ensures { IfOk result (λ v. map (result_move (st_func_tree s.now).ins) v.items ≡ map (own_move (st_func_tree s.now) (map (λ w. w.items) labels.now)) s.now.results.items) }
{
    let ins = s.ins.as_slice();
    let count = s.results.len();
    let mut moves = Vec::new(alloc);
    for r in 0..count {
        let item = result_item(s, r);
        let source = label_origins(alloc, ins, labels_at(labels, item))?;
        let out = layout(s, item).copy(alloc)?;
        moves.push(FusedResult { out, source })?;
    }
    Ok(moves)
}

/// What the move of each result costs; an error only for want of memory.
pub(crate) fn all_costs(
    alloc: Global,
    ins: &[StType],
    moves: &[FusedResult],
) -> Result<Vec<ResultCosts>, AllocError>
    requires sizes { (k : ℕ) (t : Layout) → slice_get ins.now k ≡ Some t → IsInSize (st_tree t) }
    requires few { length ins.now ≤ 8 }
    requires moves { (k : ℕ) (r : Moving) → slice_get moves.now k ≡ Some r → IsMove (result_move (st_trees ins.now) r) }
    ensures { IfOk result (λ v. AreAllCosts (map (result_move (st_trees ins.now)) moves.now) v.items) }
{
    let columns = all_columns(alloc, ins)?;
    let mut costs = Vec::new(alloc);
    for k in 0..moves.len() {
        let own = &moves[k];
        let cost = result_costs(alloc, ins, &columns, &own.out, &own.source)?;
        costs.push(cost)?;
    }
    Ok(costs)
}

/// What the moves of all results cost together, where all leave with the latest; an error only for want of memory.
pub(crate) fn together(
    alloc: Global,
    ins: &[StType],
    moves: &[FusedResult],
) -> Result<FusedCosts, AllocError>
    requires sizes { (k : ℕ) (t : Layout) → slice_get ins.now k ≡ Some t → IsInSize (st_tree t) }
    requires few { length ins.now ≤ 8 }
    requires few_moves { length moves.now ≤ 8 }
    requires moves { (k : ℕ) (r : Moving) → slice_get moves.now k ≡ Some r → IsMove (result_move (st_trees ins.now) r) }
    ensures { IfOk result (λ c. told_costs c ≡ fused_costs (map (result_move (st_trees ins.now)) moves.now)) }
{
    let costs = all_costs(alloc, ins, moves)?;
    let latency = latest_result(&costs);
    let load = whole_load(&costs, latency);
    let mems = whole_mems(&costs, latency);
    Ok(FusedCosts {
        latency,
        load,
        mems,
    })
}

/// The layouts again.
pub(crate) fn copies(alloc: Global, layouts: &[StType]) -> Result<Vec<StType>, AllocError>
    ensures { IfOk result (λ v. st_trees v.items ≡ st_trees layouts.now) }
{
    let mut copied = Vec::new(alloc);
    for k in 0..layouts.len() {
        let layout = layouts[k].copy(alloc)?;
        copied.push(layout)?;
    }
    Ok(copied)
}
