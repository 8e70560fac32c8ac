// The timing of a program.

ghost use Rattle.std.specs.Prelude.{◌≡◌, ◌<◌, ◌≤◌, ◌++◌, [], ◌∷◌, ℕ, List, length, map, IfOk, OnOk, Some, None, Err, slice_get};
ghost use Rattle.std.specs.Option.{option_and_then, option_map};
ghost use Rattle.ae_rewrite.specs.StProgramTree.{st_func_tree, st_func_trees};
ghost use Rattle.ae_rewrite.specs.Sound.{IsSoundFunc};
ghost use Rattle.ae_delay.specs.declared.own.OwnCosts.{OwnCosts as Owned};
ghost use Rattle.ae_delay.specs.Costs.{func_costs, too_large};
ghost use Rattle.ae_delay.specs.Weighing.{AreKnown, IsOverAt};
ghost use Rattle.ae_delay.specs.Arriving.{HasMore, HaveMoreMet};
ghost use Rattle.ae_delay.specs.Timings.{AreTimes};

use crate::known::KnownMoves;
use crate::own::OwnCosts;
use crate::weighing::{Cost, FuncTiming, Weighed, weigh};
use ae_rewrite::{StFunc, StProgram};
use std::alloc::{AllocError, AllocFailed, Global};
use std::marker::Model;
use thiserror::Error;

/// Why there is no timing.
#[derive(Debug, Drop, Error)]
pub enum DelayFault {
    /// The first line at which the sum of loads passes the limit, and that sum, up to 1,000,000,000.
    #[error("line {line} makes the load {load}")]
    Large { line: u32, load: u64 },
    #[error("out of memory")]
    Memory,
}

impl From<AllocError> for DelayFault {
    ghost use Rattle.std.specs.Prelude.{◌≡◌};
    ghost use Rattle.ae_delay.specs.declared.timing.DelayFault.TheVariants.{Memory};

    ghost from_gives = { λ _ fault. fault ≡ Memory };

    fn from(_: AllocError) -> DelayFault {
        DelayFault::Memory
    }
}

impl<T: Drop> From<AllocFailed<T>> for DelayFault {
    ghost use Rattle.std.specs.Prelude.{◌≡◌};
    ghost use Rattle.ae_delay.specs.declared.timing.DelayFault.TheVariants.{Memory};

    ghost from_gives = { λ _ fault. fault ≡ Memory };

    fn from(_: AllocFailed<T>) -> DelayFault {
        DelayFault::Memory
    }
}

/// When the items of a program's instances arrive and when all arguments of their nodes and all their results have come,
/// in clocks after their blocks, and what the program function costs.
#[derive(Drop)]
pub struct Timing {
    costs: OwnCosts,
    arrivals: Vec<Vec<u32>>,
    meets: Vec<Vec<u32>>,
    nodes: Vec<Cost>,
}

impl Model for Timing {
    ghost use Rattle.std.specs.Prelude.{map, ◌≤◌};
    ghost use Rattle.ae_delay.specs.Timings.{Times};
    ghost use Rattle.ae_delay.specs.Bounds.{IsBounded};

    ghost Value = { Times };

    ghost view = { λ t. record { costs = t.costs; arrivals = map (λ v. v.items) t.arrivals.items; meets = map (λ v. v.items) t.meets.items; nodes = t.nodes.items } };

    ghost invariant = { λ t. IsBounded t.costs × (t.costs.load ≤ 100000) };
}

impl Timing {
    /// The clocks from a block to its results.
    pub fn latency(&self) -> u32
        ensures { result ≡ self.now.costs.latency }
    {
        self.costs.latency as u32
    }

    /// The multipliers.
    pub fn muls(&self) -> u32
        ensures { result ≡ self.now.costs.muls }
    {
        self.costs.muls as u32
    }

    /// The load: a bound for the operators, registers and choices of a circuit.
    pub fn load(&self) -> u32
        ensures load { result ≡ self.now.costs.load }
        ensures limit { self.now.costs.load ≤ 100000 }
    {
        self.costs.load as u32
    }

    /// The memories.
    pub fn mems(&self) -> u32
        ensures { result ≡ self.now.costs.mems }
    {
        self.costs.mems as u32
    }

    /// When an item of an instance arrives, in clocks after the instance's block; None exactly where there is no such item.
    pub fn at(&self, instance: u32, item: u32) -> Option<u32>
        ensures { result ≡ option_and_then (λ arrivals. slice_get arrivals item) (slice_get self.now.arrivals instance) }
    {
        let arrivals = self.arrivals.get(instance as usize)?;
        arrivals.get(item as usize).copied()
    }

    /// When the items of an instance arrive; None exactly where there is no such instance.
    pub fn arrivals(&self, instance: u32) -> Option<&[u32]>
        ensures { option_map (λ r. r.now) result ≡ slice_get self.now.arrivals instance }
    {
        match self.arrivals.get(instance as usize) {
            Some(arrivals) => Some(arrivals.as_slice()),
            None => None,
        }
    }

    /// When all arguments of each node of an instance have come and, behind those, when all its results have, in clocks after
    /// the instance's block; None exactly where there is no such instance.
    pub fn meets(&self, instance: u32) -> Option<&[u32]>
        ensures { option_map (λ r. r.now) result ≡ slice_get self.now.meets instance }
    {
        match self.meets.get(instance as usize) {
            Some(meets) => Some(meets.as_slice()),
            None => None,
        }
    }

    /// What a node of the program function costs; None exactly where there is no such node.
    pub fn cost(&self, node: u32) -> Option<Cost>
        ensures { result ≡ slice_get self.now.nodes node }
    {
        self.nodes.get(node as usize).copied()
    }
}

// Instance number k.
fn instance(p: &StProgram, k: u32) -> &StFunc
    requires { k < length p.now }
    ensures { slice_get p.now k ≡ Some result.now }
{
    match p.instance(k) {
        Some(s) => s,
        None => unreachable!(),
    }
}

// The costs of one more instance, the arrivals of its items, and when the arguments of its nodes and its results have come;
// none where it is heavy.
fn weigh_next(
    alloc: Global,
    moves: &mut KnownMoves,
    s: &StFunc,
    known: &mut Vec<Option<OwnCosts>>,
    arrivals: &mut Vec<Vec<u32>>,
    meets: &mut Vec<Vec<u32>>,
) -> Result<(), AllocError>
    requires sound { IsSoundFunc (length known.old.items) (st_func_tree s.now) }
    requires known { (costs : List Owned) × AreKnown known.old.items costs }
    ensures known { OnOk result ((costs : List Owned) → AreKnown known.old.items costs → AreKnown known.new.items (costs ++ func_costs costs (st_func_tree s.now) ∷ [])) }
    ensures arrivals { OnOk result ((costs : List Owned) → AreKnown known.old.items costs → HasMore costs (st_func_tree s.now) (map (λ v. v.items) arrivals.old.items) (map (λ v. v.items) arrivals.new.items)) }
    ensures meets { OnOk result ((costs : List Owned) → AreKnown known.old.items costs → HaveMoreMet costs (st_func_tree s.now) (map (λ v. v.items) meets.old.items) (map (λ v. v.items) meets.new.items)) }
{
    match weigh(alloc, moves, known, s, 999_999_999)? {
        Weighed::Within(t) => {
            let FuncTiming {
                costs,
                arrivals: own,
                meets: met,
                nodes: _,
            } = t;
            known.push(Some(costs))?;
            arrivals.push(own)?;
            meets.push(met)?;
            Ok(())
        }
        Weighed::Over { line: _, load: _ } => {
            known.push(None)?;
            arrivals.push(Vec::new(alloc))?;
            meets.push(Vec::new(alloc))?;
            Ok(())
        }
    }
}

/// The timing of a program whose load is at most 100,000; else `Large`, with the first line at which the sum of the loads
/// of the program function's nodes, and at its end of the delays of its results, passes it. `Memory` comes only for want
/// of memory.
pub fn arrivals(alloc: Global, p: &StProgram) -> Result<Timing, DelayFault>
    ensures timing { IfOk result (λ t. AreTimes (st_func_trees p.now) t) }
    ensures fine { OnOk result (too_large 100000 (st_func_trees p.now) ≡ None) }
    ensures large { (line load : ℕ) → result ≡ Err (DelayFault.Large line load) → IsOverAt (too_large 100000 (st_func_trees p.now)) line load }
{
    arrivals_within(alloc, p, 100_000)
}

/// The same with another limit, at most 100,000.
pub fn arrivals_within(alloc: Global, p: &StProgram, limit: u32) -> Result<Timing, DelayFault>
    requires { limit ≤ 100000 }
    ensures timing { IfOk result (λ t. AreTimes (st_func_trees p.now) t) }
    ensures fine { OnOk result (too_large limit (st_func_trees p.now) ≡ None) }
    ensures large { (line load : ℕ) → result ≡ Err (DelayFault.Large line load) → IsOverAt (too_large limit (st_func_trees p.now)) line load }
{
    arrivals_reusing(alloc, p, limit, &mut KnownMoves::new(alloc))
}

/// The same, with what is known of moves. Those of the program are known then too: with these, the timing of a program at
/// another slowdown takes less time.
pub fn arrivals_reusing(
    alloc: Global,
    p: &StProgram,
    limit: u32,
    moves: &mut KnownMoves,
) -> Result<Timing, DelayFault>
    requires { limit ≤ 100000 }
    ensures timing { IfOk result (λ t. AreTimes (st_func_trees p.now) t) }
    ensures fine { OnOk result (too_large limit (st_func_trees p.now) ≡ None) }
    ensures large { (line load : ℕ) → result ≡ Err (DelayFault.Large line load) → IsOverAt (too_large limit (st_func_trees p.now)) line load }
{
    let last = p.count() - 1;
    let mut known = Vec::new(alloc);
    let mut arrivals = Vec::new(alloc);
    let mut meets = Vec::new(alloc);
    for k in 0..last {
        weigh_next(
            alloc,
            moves,
            instance(p, k),
            &mut known,
            &mut arrivals,
            &mut meets,
        )?;
    }
    match weigh(alloc, moves, &known, instance(p, last), u64::from(limit))? {
        Weighed::Within(t) => {
            let FuncTiming {
                costs,
                arrivals: own,
                meets: met,
                nodes,
            } = t;
            arrivals.push(own)?;
            meets.push(met)?;
            Ok(Timing {
                costs,
                arrivals,
                meets,
                nodes,
            })
        }
        Weighed::Over { line, load } => Err(DelayFault::Large { line, load }),
    }
}
