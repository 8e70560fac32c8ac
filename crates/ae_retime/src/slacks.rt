// The slacks of a program.

ghost use Rattle.std.specs.Prelude.{◌≡◌, ◌<◌, ◌-◌, ◌++◌, [], ◌∷◌, length, map, IfOk, OnOk, Some, slice_get};
ghost use Rattle.std.specs.Option.{option_and_then, option_map};
ghost use Rattle.ae_rewrite.specs.StProgramTree.{st_func_tree, st_func_trees};
ghost use Rattle.ae_rewrite.specs.Sound.{item_layouts};
ghost use Rattle.ae_delay.specs.Costs.{func_meets};
ghost use Rattle.ae_delay.specs.Timings.{AreTimes};
ghost use Rattle.ae_retime.specs.Slacks.{AreSlacks, UsesBelow, argument_slacks, item_chains, joint_slacks};

use crate::uses::{argument_slacks, item_chains, joint_slacks};
use ae_delay::Timing;
use ae_rewrite::{StFunc, StProgram};
use std::alloc::{AllocError, Global};
use std::marker::Model;

/// By how many clocks each item of a program waits for those that it is used with.
#[derive(Drop)]
pub struct Slacks {
    arguments: Vec<Vec<Vec<u32>>>,
    chains: Vec<Vec<u32>>,
    results: Vec<Vec<u32>>,
}

impl Model for Slacks {
    ghost use Rattle.std.specs.Prelude.{map};
    ghost use Rattle.ae_retime.specs.Slacks.{SlackTables};

    ghost Value = { SlackTables };

    ghost view = { λ t. record { arguments = map (λ n. map (λ v. v.items) n.items) t.arguments.items; chains = map (λ v. v.items) t.chains.items; results = map (λ v. v.items) t.results.items } };
}

impl Slacks {
    /// By how many clocks an argument of a node arrives before the node's latest; None exactly where there is no such
    /// argument, node or instance.
    pub fn slack(&self, instance: u32, node: u32, arg: u32) -> Option<u32>
        ensures { result ≡ option_and_then (λ args. slice_get args arg) (option_and_then (λ nodes. slice_get nodes node) (slice_get self.now.arguments instance)) }
    {
        let nodes = self.arguments.get(instance as usize)?;
        let args = nodes.get(node as usize)?;
        args.get(arg as usize).copied()
    }

    /// The longest delay of an item before a node or a result, in clocks; None exactly where there is no such item or
    /// instance.
    pub fn chain(&self, instance: u32, item: u32) -> Option<u32>
        ensures { result ≡ option_and_then (λ items. slice_get items item) (slice_get self.now.chains instance) }
    {
        let items = self.chains.get(instance as usize)?;
        items.get(item as usize).copied()
    }

    /// The longest delays of an instance's items, in clocks; None exactly where there is no such instance.
    pub fn chains(&self, instance: u32) -> Option<&[u32]>
        ensures { option_map (λ r. r.now) result ≡ slice_get self.now.chains instance }
    {
        match self.chains.get(instance as usize) {
            Some(chains) => Some(chains.as_slice()),
            None => None,
        }
    }

    /// By how many clocks a result of the program function, which is the last instance, arrives before the latest; None
    /// exactly where there is no such result.
    pub fn result_slack(&self, r: u32) -> Option<u32>
        ensures { result ≡ option_and_then (λ own. slice_get own r) (slice_get self.now.results (length self.now.results - 1)) }
    {
        let own = self.results.last()?;
        own.get(r as usize).copied()
    }

    /// By how many clocks each argument of a node arrives before the node's latest; None exactly where there is no such
    /// node or instance.
    pub fn waits(&self, instance: u32, node: u32) -> Option<&[u32]>
        ensures { option_map (λ r. r.now) result ≡ option_and_then (λ nodes. slice_get nodes node) (slice_get self.now.arguments instance) }
    {
        let nodes = self.arguments.get(instance as usize)?;
        match nodes.get(node as usize) {
            Some(waits) => Some(waits.as_slice()),
            None => None,
        }
    }

    /// By how many clocks each result of an instance arrives before the latest; None exactly where there is no such
    /// instance.
    pub fn result_waits(&self, instance: u32) -> Option<&[u32]>
        ensures { option_map (λ r. r.now) result ≡ slice_get self.now.results instance }
    {
        match self.results.get(instance as usize) {
            Some(waits) => Some(waits.as_slice()),
            None => None,
        }
    }
}

// Instance number k.
fn instance(p: &StProgram, k: u32) -> &StFunc
    requires { k < length p.now }
    ensures { slice_get p.now k ≡ Some result.now }
{
    match p.instance(k) {
        Some(s) => s,
        None => unreachable!(),
    }
}

// When the items of instance number k arrive.
fn arrivals_of(a: &Timing, k: u32) -> &[u32]
    requires { k < length a.now.arrivals }
    ensures { slice_get a.now.arrivals k ≡ Some result.now }
{
    match a.arrivals(k) {
        Some(arrivals) => arrivals,
        None => unreachable!(),
    }
}

// When all arguments of the nodes of instance number k have come, and behind those when all its results have.
fn met_in(a: &Timing, k: u32) -> &[u32]
    requires { k < length a.now.meets }
    ensures { slice_get a.now.meets k ≡ Some result.now }
{
    match a.meets(k) {
        Some(meets) => meets,
        None => unreachable!(),
    }
}

// The slacks and chains of one more instance, and the slacks of its results.
fn add_func(
    alloc: Global,
    s: &StFunc,
    arrivals: &[u32],
    meets: &[u32],
    arguments: &mut Vec<Vec<Vec<u32>>>,
    chains: &mut Vec<Vec<u32>>,
    results: &mut Vec<Vec<u32>>,
) -> Result<(), AllocError>
    requires uses { UsesBelow (length arrivals.now) (st_func_tree s.now) }
    requires long { length arrivals.now ≡ length (item_layouts (st_func_tree s.now)) }
    requires meets { meets.now ≡ func_meets arrivals.now (st_func_tree s.now) }
    ensures arguments { OnOk result (map (λ n. map (λ v. v.items) n.items) arguments.new.items ≡ map (λ n. map (λ v. v.items) n.items) arguments.old.items ++ argument_slacks arrivals.now (st_func_tree s.now) ∷ []) }
    ensures chains { OnOk result (map (λ v. v.items) chains.new.items ≡ map (λ v. v.items) chains.old.items ++ item_chains arrivals.now (st_func_tree s.now) ∷ []) }
    ensures results { OnOk result (map (λ v. v.items) results.new.items ≡ map (λ v. v.items) results.old.items ++ joint_slacks arrivals.now (st_func_tree s.now).results ∷ []) }
{
    let end = meets[s.nodes.len()];
    arguments.push(argument_slacks(alloc, s, arrivals, meets)?)?;
    chains.push(item_chains(alloc, s, arrivals, meets, end)?)?;
    results.push(joint_slacks(alloc, arrivals, end, &s.results)?)?;
    Ok(())
}

/// The slacks of a program by its timing; the error comes only for want of memory.
pub fn matching(alloc: Global, p: &StProgram, a: &Timing) -> Result<Slacks, AllocError>
    requires { AreTimes (st_func_trees p.now) a.now }
    ensures { IfOk result (λ t. AreSlacks (st_func_trees p.now) t) }
{
    let count = p.count();
    let mut arguments = Vec::new(alloc);
    let mut chains = Vec::new(alloc);
    let mut results = Vec::new(alloc);
    for k in 0..count {
        add_func(
            alloc,
            instance(p, k),
            arrivals_of(a, k),
            met_in(a, k),
            &mut arguments,
            &mut chains,
            &mut results,
        )?;
    }
    Ok(Slacks {
        arguments,
        chains,
        results,
    })
}
