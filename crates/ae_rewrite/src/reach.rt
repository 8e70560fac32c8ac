// Which functions are reached, and under which budgets.

ghost use Rattle.std.specs.Prelude.{◌≡◌, ◌<◌, ◌≤◌, ℕ, IfOk, OnOk, IsTrue, Some, length};
ghost use Rattle.ae_seq.specs.ProgramTree.{program_tree, node_tree};
ghost use Rattle.ae_seq.specs.Formed.{formed};
ghost use Rattle.ae_rewrite.specs.Calls.{called_by};
ghost use Rattle.ae_rewrite.specs.Scheduled.{IsReached};
ghost use Rattle.ae_rewrite.specs.Planned.{Adds, IsAmong, IsClosedAt, number_lists, with_number, IsWith, IfCalled, IsNodeOf, AllEmpty, Reaches};

use crate::calls::{Call, called_by};
use crate::plan::{func_of, main_of};
use ae_seq::{Node, Typed};
use std::alloc::{AllocError, Global};

// The budget among the others, once.
fn add(budgets: &mut Vec<u32>, budget: u32) -> Result<(), AllocError>
    ensures { OnOk result (budgets.new.items ≡ with_number budgets.old.items budget) }
{
    if budgets.contains(&budget) {
        return Ok(());
    }
    budgets.push(budget)?;
    Ok(())
}

fn add_call(needs: &mut Vec<Vec<u32>>, call: Call) -> Result<(), AllocError>
    requires there { call.func < length needs.old.items }
    ensures { OnOk result (IsWith (number_lists needs.old.items) call.func call.budget (number_lists needs.new.items)) }
{
    add(&mut needs[call.func as usize], call.budget)?;
    Ok(())
}

// What a node of a function calls under the budget is reached.
fn visit_node(
    p: &Typed,
    needs: &mut Vec<Vec<u32>>,
    func: u32,
    budget: u32,
    node: &Node,
) -> Result<(), AllocError>
    requires time { 0 < budget }
    requires formed { IsTrue (formed (program_tree p.now)) }
    requires there { IsNodeOf (program_tree p.now) func (node_tree node.now) }
    requires below { func ≤ length needs.old.items }
    ensures added { OnOk result (Adds (program_tree p.now) (λ s. IsReached (program_tree p.now) s func budget) func (number_lists needs.old.items) (number_lists needs.new.items)) }
    ensures called { OnOk result (IfCalled (called_by (program_tree p.now) func budget (node_tree node.now))
        (λ c. IsAmong (number_lists needs.new.items) c.func c.budget)) }
{
    if let Some(call) = called_by(p, func, budget, node) {
        add_call(needs, call)?;
    }
    Ok(())
}

// What a function calls under the budget is reached.
fn visit(p: &Typed, needs: &mut Vec<Vec<u32>>, func: u32, budget: u32) -> Result<(), AllocError>
    requires time { 0 < budget }
    requires formed { IsTrue (formed (program_tree p.now)) }
    requires there { func < length (program_tree p.now).funcs }
    requires below { func ≤ length needs.old.items }
    ensures added { OnOk result (Adds (program_tree p.now) (λ s. IsReached (program_tree p.now) s func budget) func (number_lists needs.old.items) (number_lists needs.new.items)) }
    ensures closed { OnOk result (IsClosedAt (program_tree p.now) func budget (number_lists needs.new.items)) }
{
    let f = func_of(p, func);
    for (k, node) in f.nodes.iter().enumerate() {
        visit_node(p, needs, func, budget, node)?;
    }
    Ok(())
}

// What a function calls under each of its budgets is reached.
fn visit_all(
    alloc: Global,
    p: &Typed,
    needs: &mut Vec<Vec<u32>>,
    func: u32,
) -> Result<(), AllocError>
    requires formed { IsTrue (formed (program_tree p.now)) }
    requires there { func < length (program_tree p.now).funcs }
    requires below { func < length needs.old.items }
    requires positive { (u : ℕ) → IsAmong (number_lists needs.old.items) func u → 0 < u }
    ensures added { OnOk result (Adds (program_tree p.now) (λ s. (u : ℕ) → IsAmong (number_lists needs.old.items) func u → IsReached (program_tree p.now) s func u) func
        (number_lists needs.old.items) (number_lists needs.new.items)) }
    ensures closed { OnOk result ((u : ℕ) → IsAmong (number_lists needs.new.items) func u → IsClosedAt (program_tree p.now) func u (number_lists needs.new.items)) }
{
    let own = Vec::from_slice(alloc, &needs[func as usize])?;
    for (j, budget) in own.iter().enumerate() {
        visit(p, needs, func, *budget)?;
    }
    Ok(())
}

fn empty_lists(alloc: Global, count: usize) -> Result<Vec<Vec<u32>>, AllocError>
    ensures empty { IfOk result (λ v. AllEmpty (number_lists v.items)) }
    ensures count { IfOk result (λ v. length v.items ≡ count) }
{
    let mut lists = Vec::new(alloc);
    for _ in 0..count {
        lists.push(Vec::new(alloc))?;
    }
    Ok(lists)
}

/// The budgets of each function below the program function that are reached at a slowdown of so many clocks.
pub fn reached(alloc: Global, p: &Typed, clocks: u32) -> Result<Vec<Vec<u32>>, AllocError>
    requires time { 0 < clocks }
    requires formed { IsTrue (formed (program_tree p.now)) }
    ensures { IfOk result (λ v. Reaches (program_tree p.now) clocks 0 (number_lists v.items)) }
{
    let main = main_of(p.program());
    let mut needs = empty_lists(alloc, main as usize)?;
    visit(p, &mut needs, main, clocks)?;
    let mut func = main;
    while func > 0 {
        func -= 1;
        visit_all(alloc, p, &mut needs, func)?;
    }
    Ok(needs)
}
