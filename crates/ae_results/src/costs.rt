// What moves from all parameters cost, one for each result.

ghost use Rattle.std.specs.Prelude.{◌≡◌, ◌<◌, ◌≤◌, ℕ, length, map, sum_by, IfOk, Some, slice_get};
ghost use Rattle.ae_sttype.specs.declared.st_type.StType.{StType as Layout};
ghost use Rattle.ae_sttype.specs.StTree.{st_tree};
ghost use Rattle.ae_sttype.specs.Size.{IsInSize};
ghost use Rattle.ae_sttype.specs.Moves.{columns_of, greatest};
ghost use Rattle.ae_moves.specs.Trees.{origin_tree};
ghost use Rattle.ae_moves.specs.Origins.{IsMove};
ghost use Rattle.ae_rewrite.specs.StProgramTree.{st_trees};
ghost use Rattle.ae_results.specs.Results.{AreColumns, AreCostsOf, AreLight, IsLight, own_latency, own_load, own_mems};

use ae_moves::{Origin, all_trips, latency, move_costs, rings};
use ae_sttype::StType;
use std::alloc::{AllocError, Global};

/// What the moves of all results cost together: the latency in clocks, the load and the memories.
#[derive(Clone, Copy)]
pub struct FusedCosts {
    pub latency: u32,
    pub load: u64,
    pub mems: u64,
}

/// What the move of a result costs by itself: its latency in clocks, its load and its memories; and the columns of the
/// result's layout.
#[derive(Clone, Copy)]
pub struct ResultCosts {
    pub latency: u32,
    pub load: u64,
    pub mems: u64,
    pub columns: u32,
}

/// The columns of all parameters, one after the other: the number of the first of each, and how many there are.
#[derive(Drop)]
pub struct Columns {
    pub firsts: Vec<u32>,
    pub count: u32,
}

// The columns of a layout.
fn columns_in(layout: &StType) -> u32
    requires { IsInSize (st_tree layout.now) }
    ensures columns { result ≡ columns_of (st_tree layout.now) }
    ensures few { result ≤ 16384 }
{
    layout.lanes() * layout.element_words()
}

/// The columns of parameters in these layouts; an error only for want of memory.
pub fn all_columns(alloc: Global, ins: &[StType]) -> Result<Columns, AllocError>
    requires sizes { (k : ℕ) (t : Layout) → slice_get ins.now k ≡ Some t → IsInSize (st_tree t) }
    requires few { length ins.now ≤ 8 }
    ensures { IfOk result (λ c. AreColumns (st_trees ins.now) c.firsts.items c.count) }
{
    let mut firsts = Vec::new(alloc);
    let mut count = 0u32;
    for layout in ins {
        let own = columns_in(layout);
        firsts.push(count)?;
        count += own;
    }
    Ok(Columns { firsts, count })
}

/// What the move of a result costs; an error only for want of memory.
pub fn result_costs(
    alloc: Global,
    ins: &[StType],
    columns: &Columns,
    out: &StType,
    source: &[Origin],
) -> Result<ResultCosts, AllocError>
    requires moves { IsMove (record { ins = map st_tree ins.now; out = st_tree out.now; origins = map origin_tree source.now }) }
    requires columns { AreColumns (st_trees ins.now) columns.now.firsts.items columns.now.count }
    ensures { IfOk result (λ c. AreCostsOf (record { ins = map st_tree ins.now; out = st_tree out.now; origins = map origin_tree source.now }) c) }
{
    let trips = all_trips(alloc, ins, &columns.firsts, out, source)?;
    let d = latency(ins, out, source);
    let outs = columns_in(out);
    let costs = move_costs(alloc, &trips, d, columns.count, outs, out.time())?;
    Ok(ResultCosts {
        latency: d,
        load: 1 + u64::from(d) + costs.delay + costs.runs,
        mems: costs.mems,
        columns: outs,
    })
}

/// The latency of the whole: all results leave with the latest.
pub fn latest_result(costs: &[ResultCosts]) -> u32
    ensures { result ≡ greatest own_latency costs.now }
{
    let mut most = 0u32;
    for own in costs {
        most = most.max(own.latency);
    }
    most
}

// The load of one result, with its delay where it is early.
fn own_load(c: ResultCosts, whole: u32) -> u64
    requires light { IsLight c }
    requires whole { whole ≤ 4096 }
    ensures load { result ≡ own_load whole c }
    ensures most { result ≤ 140737488355328 }
{
    let slack = whole.saturating_sub(c.latency);
    c.load + u64::from(slack) * u64::from(c.columns)
}

// The memories of one result.
fn own_mems(c: ResultCosts, whole: u32) -> u64
    requires light { IsLight c }
    requires whole { whole ≤ 4096 }
    ensures mems { result ≡ own_mems whole c }
    ensures most { result ≤ 140737488355328 }
{
    let slack = whole.saturating_sub(c.latency);
    c.mems + u64::from(c.columns) * u64::from(rings(slack))
}

/// The load of the whole, with the delays of the results that are early.
pub fn whole_load(costs: &[ResultCosts], whole: u32) -> u64
    requires few { length costs.now ≤ 8 }
    requires whole { whole ≤ 4096 }
    requires light { AreLight costs.now }
    ensures { result ≡ sum_by (own_load whole) costs.now }
{
    let mut load = 0u64;
    for own in costs {
        load += own_load(*own, whole);
    }
    load
}

/// The memories of the whole.
pub fn whole_mems(costs: &[ResultCosts], whole: u32) -> u64
    requires few { length costs.now ≤ 8 }
    requires whole { whole ≤ 4096 }
    requires light { AreLight costs.now }
    ensures { result ≡ sum_by (own_mems whole) costs.now }
{
    let mut mems = 0u64;
    for own in costs {
        mems += own_mems(*own, whole);
    }
    mems
}
