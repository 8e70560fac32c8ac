// The costs of an instance, node by node.

ghost use Rattle.std.specs.Prelude.{◌≡◌, ◌<◌, ◌≤◌, ◌+◌, ◌*◌, ℕ, List, [], length, sum_by, ◌++◌, ◌∷◌, IfOk, Some, None, slice_get, get_or};
ghost use Rattle.std.specs.List.{range_with_len};
ghost use Rattle.ae_sttype.specs.Moves.{columns_of};
ghost use Rattle.ae_moves.specs.Rings.{rings};
ghost use Rattle.ae_rewrite.specs.StProgramTree.{st_func_tree, st_node_tree};
ghost use Rattle.ae_rewrite.specs.Sound.{IsSoundNode, IsSoundFunc, item_layout, item_layouts};
ghost use Rattle.ae_delay.specs.declared.own.OwnCosts.{OwnCosts as Owned};
ghost use Rattle.ae_delay.specs.Bounds.{IsBounded};
ghost use Rattle.ae_delay.specs.OwnCosts.{body_costs, wire_costs};
ghost use Rattle.ae_delay.specs.declared.weighing.FuncTiming.{FuncTiming as FuncTimes};
ghost use Rattle.ae_delay.specs.Costs.{NodeTiming as Timed, latest, node_costs, node_timing, node_timings};
ghost use Rattle.ae_delay.specs.Weighing.{AllBelow, AreItems, AreKnown, HasProgress, HaveMet, IsAdvance, IsKnown, IsProgress, IsWeighed, chained};

use crate::known::KnownMoves;
use crate::moves::costs_of_words;
use crate::own::{
    OwnCosts, body_costs, constant_costs, fold_costs, moved_costs, scan_costs, wire_costs,
    word_costs,
};
use crate::uses::{deepen, item_columns, latest, layout, slack_load};
use ae_moves::rings;
use ae_rewrite::{MoveOp, StFunc, StNode, StOp};
use std::alloc::{AllocError, Global};

/// What a node costs: its latency in clocks, its load with the delays of its arguments, and its multipliers.
#[derive(Clone, Copy, Debug)]
pub struct Cost {
    pub latency: u32,
    pub load: u32,
    pub muls: u32,
}

/// The nodes of an instance so far: the arrivals of its items, when all arguments of each node have come, the longest delay
/// of each item, what each node costs, and the sums.
#[derive(Drop)]
pub(crate) struct Progress {
    pub arrivals: Vec<u32>,
    pub meets: Vec<u32>,
    pub chains: Vec<u32>,
    pub costs: Vec<Cost>,
    pub load: u64,
    pub muls: u64,
    pub mems: u64,
}

// Costs with a load below 1,000,000,000.
fn light(own: OwnCosts) -> Option<OwnCosts>
    requires { IsBounded own }
    ensures { IsKnown result own }
{
    if own.load < 1_000_000_000 {
        Some(own)
    } else {
        None
    }
}

// Copies of an earlier instance, where they are light.
fn body_node(known: &[Option<OwnCosts>], k: u32, copies: u32) -> Option<OwnCosts>
    requires there { k < length known.now }
    requires known { (costs : List Owned) × AreKnown known.now costs }
    requires some { 1 ≤ copies }
    requires few { copies ≤ 4096 }
    ensures { (costs : List Owned) (c : Owned) → AreKnown known.now costs → slice_get costs k ≡ Some c → IsKnown result (body_costs copies c) }
{
    match known[k as usize] {
        None => None,
        Some(costs) => light(body_costs(copies, costs)),
    }
}

/// An instance: its costs, the arrivals of its items, when all arguments of each node have come and, as the last, all
/// results, and what each node costs.
#[derive(Drop)]
pub(crate) struct FuncTiming {
    pub costs: OwnCosts,
    pub arrivals: Vec<u32>,
    pub meets: Vec<u32>,
    pub nodes: Vec<Cost>,
}

/// What is found of an instance: its costs, or the first line at which the sum of loads passes the limit, with the sum up
/// to 1,000,000,000.
#[derive(Drop)]
pub(crate) enum Weighed {
    Within(FuncTiming),
    Over { line: u32, load: u64 },
}

// What a node costs by itself, where it is light.
fn node_costs(
    alloc: Global,
    moves: &mut KnownMoves,
    known: &[Option<OwnCosts>],
    s: &StFunc,
    node: &StNode,
) -> Result<Option<OwnCosts>, AllocError>
    requires items { AreItems s.now.budget (item_layouts (st_func_tree s.now)) }
    requires sound { IsSoundNode (length known.now) s.now.budget (item_layouts (st_func_tree s.now)) (st_node_tree node.now) }
    requires known { (costs : List Owned) × AreKnown known.now costs }
    ensures { IfOk result (λ o. (costs : List Owned) → AreKnown known.now costs → IsKnown o (node_costs costs (item_layouts (st_func_tree s.now)) (st_node_tree node.now))) }
{
    match &node.op {
        StOp::Word(op) => Ok(light(word_costs(*op))),
        StOp::Join | StOp::First | StOp::Second => Ok(light(wire_costs())),
        StOp::Fixed(words) => {
            let costs = costs_of_words(alloc, words, &node.ty)?;
            Ok(light(constant_costs(costs)))
        }
        StOp::Move(how) => {
            let costs = moves.costs(alloc, *how, layout(s, node.args[0] as usize), &node.ty)?;
            Ok(light(moved_costs(costs)))
        }
        StOp::Fold {
            op,
            slots,
            lanes,
            raw,
        } => {
            let costs = moves.costs(alloc, MoveOp::Same, raw, &node.ty)?;
            Ok(light(fold_costs(*op, *slots, *lanes, raw, costs)))
        }
        StOp::Scan { op, slots, lanes } => { Ok(light(scan_costs(*op, *slots, *lanes, &node.ty))) }
        StOp::Body(k) => Ok(body_node(known, *k, node.copies)),
    }
}

// One node more; the sum of loads, up to 1,000,000,000, where it passes the limit.
fn add_node(
    alloc: Global,
    moves: &mut KnownMoves,
    known: &[Option<OwnCosts>],
    s: &StFunc,
    node: &StNode,
    progress: &mut Progress,
    limit: u64,
) -> Result<Option<u64>, AllocError>
    requires items { AreItems s.now.budget (item_layouts (st_func_tree s.now)) }
    requires sound { IsSoundNode (length known.now) s.now.budget (item_layouts (st_func_tree s.now)) (st_node_tree node.now) }
    requires known { (costs : List Owned) × AreKnown known.now costs }
    requires limit { limit < 1000000000 }
    requires progress { HasProgress (st_func_tree s.now) limit progress.old }
    requires arrived { AllBelow node.now.args.items (length progress.old.arrivals.items) }
    ensures meets { IfOk result (λ over. over ≡ None → progress.new.meets.items ≡ progress.old.meets.items ++ latest progress.old.arrivals.items node.now.args.items ∷ []) }
    ensures advance { IfOk result (λ over. (costs : List Owned) → AreKnown known.now costs → IsAdvance (item_layouts (st_func_tree s.now)) (node_timing costs (item_layouts (st_func_tree s.now)) progress.old.arrivals.items (st_node_tree node.now)) limit progress.old progress.new over) }
{
    let own = match node_costs(alloc, moves, known, s, node)? {
        None => return Ok(Some(1_000_000_000)),
        Some(own) => own,
    };
    let start = latest(&progress.arrivals, &node.args);
    let load = own.load + slack_load(s, &progress.arrivals, start, &node.args);
    let sum = progress.load + load;
    if sum > limit {
        return Ok(Some(sum.min(1_000_000_000)));
    }
    deepen(&mut progress.chains, &progress.arrivals, start, &node.args);
    progress.arrivals.push(start + own.latency as u32)?;
    progress.costs.push(Cost {
        latency: own.latency as u32,
        load: load as u32,
        muls: own.muls as u32,
    })?;
    progress.meets.push(start)?;
    progress.load = sum;
    progress.muls += own.muls;
    progress.mems += own.mems;
    Ok(None)
}

// The memories of the chains of all items.
fn chain_mems(s: &StFunc, chains: &[u32]) -> u64
    requires items { AreItems s.now.budget (item_layouts (st_func_tree s.now)) }
    requires long { length chains.now ≡ length (item_layouts (st_func_tree s.now)) }
    requires few { chained (item_layouts (st_func_tree s.now)) chains.now < 1000000000 }
    ensures { result ≡ sum_by (λ i. columns_of (item_layout (item_layouts (st_func_tree s.now)) i) * rings (get_or chains.now i 0)) (range_with_len 0 (length (item_layouts (st_func_tree s.now)))) }
{
    let mut sum = 0u64;
    for i in 0..chains.len() {
        sum += item_columns(s, i) * u64::from(rings(chains[i]));
    }
    sum
}

// The costs of an instance, after its last node.
fn finish(s: &StFunc, progress: Progress, limit: u64) -> Result<Weighed, AllocError>
    requires items { AreItems s.now.budget (item_layouts (st_func_tree s.now)) }
    requires results { AllBelow s.now.results.items (length (item_layouts (st_func_tree s.now))) }
    requires few { length s.now.results.items ≤ 8 }
    requires limit { limit < 1000000000 }
    requires progress { HasProgress (st_func_tree s.now) limit progress }
    requires whole { length progress.arrivals.items ≡ length (item_layouts (st_func_tree s.now)) }
    ensures meets { IfOk result (λ w. (t : FuncTimes) → w ≡ Weighed.Within t → (t.arrivals ≡ progress.arrivals) × (t.meets.items ≡ progress.meets.items ++ latest progress.arrivals.items s.now.results.items ∷ [])) }
    ensures weighed { IfOk result (λ w. (ts : List Timed) → IsProgress (st_func_tree s.now) ts limit progress → IsWeighed (st_func_tree s.now) ts limit w) }
{
    let Progress {
        arrivals,
        mut meets,
        mut chains,
        costs,
        load,
        muls,
        mems,
    } = progress;
    let latency = latest(&arrivals, &s.results);
    let sum = load + slack_load(s, &arrivals, latency, &s.results);
    if sum > limit {
        return Ok(Weighed::Over {
            line: s.end_line,
            load: sum.min(1_000_000_000),
        });
    }
    deepen(&mut chains, &arrivals, latency, &s.results);
    let mems = mems + chain_mems(s, &chains);
    meets.push(latency)?;
    Ok(Weighed::Within(FuncTiming {
        costs: OwnCosts {
            latency: u64::from(latency),
            load: sum,
            muls,
            mems,
        },
        arrivals,
        meets,
        nodes: costs,
    }))
}

// Before the first node: the parameters arrive in clock 0.
fn start(alloc: Global, s: &StFunc) -> Result<Progress, AllocError>
    ensures meets { IfOk result (λ p. p.meets.items ≡ []) }
    ensures progress { IfOk result (λ p. (limit : ℕ) → IsProgress (st_func_tree s.now) [] limit p) }
{
    Ok(Progress {
        arrivals: vec![in alloc; 0u32; s.ins.len()]?,
        meets: Vec::new(alloc),
        chains: vec![in alloc; 0u32; s.ins.len() + s.nodes.len()]?,
        costs: Vec::new(alloc),
        load: 0,
        muls: 0,
        mems: 0,
    })
}

/// The costs of an instance by those before it and by the moves that are known, where the sum of its loads is within the limit.
pub(crate) fn weigh(
    alloc: Global,
    moves: &mut KnownMoves,
    known: &[Option<OwnCosts>],
    s: &StFunc,
    limit: u64,
) -> Result<Weighed, AllocError>
    requires sound { IsSoundFunc (length known.now) (st_func_tree s.now) }
    requires known { (costs : List Owned) × AreKnown known.now costs }
    requires limit { limit < 1000000000 }
    ensures meets { IfOk result (HaveMet (st_func_tree s.now)) }
    ensures weighed { IfOk result (λ w. (costs : List Owned) → AreKnown known.now costs → IsWeighed (st_func_tree s.now) (node_timings costs (st_func_tree s.now)) limit w) }
{
    let mut progress = start(alloc, s)?;
    for node in &s.nodes {
        match add_node(alloc, moves, known, s, node, &mut progress, limit)? {
            None => {}
            Some(load) => {
                return Ok(Weighed::Over {
                    line: node.line,
                    load,
                });
            }
        }
    }
    finish(s, progress, limit)
}
