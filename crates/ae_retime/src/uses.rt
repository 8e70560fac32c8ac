// The slacks of one instance, by the arrivals of its items.

ghost use Rattle.std.specs.Prelude.{◌≡◌, length, map, IfOk};
ghost use Rattle.ae_rewrite.specs.StProgramTree.{st_func_tree};
ghost use Rattle.ae_rewrite.specs.Sound.{item_layouts};
ghost use Rattle.ae_delay.specs.Costs.{func_meets, latest};
ghost use Rattle.ae_delay.specs.Weighing.{AllBelow, deepened};
ghost use Rattle.ae_retime.specs.Slacks.{UsesBelow, argument_slacks, item_chains, joint_slacks, joint_uses};

use ae_rewrite::StFunc;
use std::alloc::{AllocError, Global};

/// By how many clocks each of these items arrives before the latest, which comes in this clock.
pub(crate) fn joint_slacks(
    alloc: Global,
    arrivals: &[u32],
    most: u32,
    items: &[u32],
) -> Result<Vec<u32>, AllocError>
    requires below { AllBelow items.now (length arrivals.now) }
    requires most { most ≡ latest arrivals.now items.now }
    ensures { IfOk result (λ v. v.items ≡ joint_slacks arrivals.now items.now) }
{
    let mut slacks = Vec::new(alloc);
    for item in items {
        slacks.push(most.saturating_sub(arrivals[*item as usize]))?;
    }
    Ok(slacks)
}

// The longest delays by item, with those of items that are used together in this clock, when the latest arrives.
fn deepen(chains: &mut Vec<u32>, arrivals: &[u32], most: u32, items: &[u32])
    requires below { AllBelow items.now (length chains.old.items) }
    requires arrived { AllBelow items.now (length arrivals.now) }
    requires most { most ≡ latest arrivals.now items.now }
    ensures { chains.new.items ≡ deepened chains.old.items (joint_uses arrivals.now items.now) }
{
    for item in items {
        let slack = most.saturating_sub(arrivals[*item as usize]);
        let before = chains[*item as usize];
        chains[*item as usize] = before.max(slack);
    }
}

/// The slacks of each node's arguments, by when all of them have come.
pub(crate) fn argument_slacks(
    alloc: Global,
    s: &StFunc,
    arrivals: &[u32],
    meets: &[u32],
) -> Result<Vec<Vec<u32>>, AllocError>
    requires uses { UsesBelow (length arrivals.now) (st_func_tree s.now) }
    requires meets { meets.now ≡ func_meets arrivals.now (st_func_tree s.now) }
    ensures { IfOk result (λ v. map (λ x. x.items) v.items ≡ argument_slacks arrivals.now (st_func_tree s.now)) }
{
    let mut slacks = Vec::new(alloc);
    for j in 0..s.nodes.len() {
        let node = &s.nodes[j];
        slacks.push(joint_slacks(alloc, arrivals, meets[j], &node.args)?)?;
    }
    Ok(slacks)
}

/// Of each item the greatest slack of its uses, by when all arguments of each node have come, and all results.
pub(crate) fn item_chains(
    alloc: Global,
    s: &StFunc,
    arrivals: &[u32],
    meets: &[u32],
    end: u32,
) -> Result<Vec<u32>, AllocError>
    requires uses { UsesBelow (length arrivals.now) (st_func_tree s.now) }
    requires long { length arrivals.now ≡ length (item_layouts (st_func_tree s.now)) }
    requires meets { meets.now ≡ func_meets arrivals.now (st_func_tree s.now) }
    requires end { end ≡ latest arrivals.now (st_func_tree s.now).results }
    ensures { IfOk result (λ v. v.items ≡ item_chains arrivals.now (st_func_tree s.now)) }
{
    let mut chains = vec![in alloc; 0u32; arrivals.len()]?;
    for j in 0..s.nodes.len() {
        let node = &s.nodes[j];
        deepen(&mut chains, arrivals, meets[j], &node.args);
    }
    deepen(&mut chains, arrivals, end, &s.results);
    Ok(chains)
}
