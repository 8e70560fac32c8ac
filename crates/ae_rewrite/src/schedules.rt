// The schedule of a program.

ghost use Rattle.std.specs.Prelude.{◌≡◌, ◌<◌, ◌≤◌, ◌+◌, ◌-◌, ◌*◌, ◌++◌, [], ◌∷◌, ℕ, IfOk, OnOk, IsTrue, Some, None, Err, length, slice_get};
ghost use Rattle.ae_seq.specs.ProgramTree.{program_tree};
ghost use Rattle.ae_seq.specs.Formed.{formed};
ghost use Rattle.ae_rewrite.specs.StProgramTree.{st_func_trees, st_func_tree};
ghost use Rattle.ae_rewrite.specs.Sound.{IsSound};
ghost use Rattle.ae_rewrite.specs.FailingLine.{failing, failing_line};
ghost use Rattle.ae_rewrite.specs.Scheduled.{AllFilled, IsSchedule};
ghost use Rattle.ae_rewrite.specs.Planned.{Plans, Reaches, AreCallsKnown, AreSound, IsMade, IsFailing, IsEachOnce, row_lists, number_lists, all_row_budgets, row_budgets};

use crate::plan::{Plan, Row, main_of, plan_func};
use crate::reach::reached;
use crate::{StFunc, StProgram};
use ae_seq::Typed;
use ae_sttype::Slowdown;
use std::alloc::{AllocError, AllocFailed, Global};
use thiserror::Error;

/// Why there is no schedule.
#[derive(Debug, Drop, Error)]
pub enum PlanFault {
    /// The first line without a layout.
    #[error("line {line} has no layout")]
    NoSchedule { line: u32 },
    #[error("out of memory")]
    Memory,
}

impl From<AllocError> for PlanFault {
    ghost use Rattle.std.specs.Prelude.{◌≡◌};
    ghost use Rattle.ae_rewrite.specs.declared.schedules.PlanFault.TheVariants.{Memory};

    ghost from_gives = { λ _ fault. fault ≡ Memory };

    fn from(_: AllocError) -> PlanFault {
        PlanFault::Memory
    }
}

impl<T: Drop> From<AllocFailed<T>> for PlanFault {
    ghost use Rattle.std.specs.Prelude.{◌≡◌};
    ghost use Rattle.ae_rewrite.specs.declared.schedules.PlanFault.TheVariants.{Memory};

    ghost from_gives = { λ _ fault. fault ≡ Memory };

    fn from(_: AllocFailed<T>) -> PlanFault {
        PlanFault::Memory
    }
}

// One more instance, and its number.
fn append(instances: &mut Vec<StFunc>, instance: StFunc) -> Result<u32, AllocError>
    requires few { length instances.old.items < 4096 * 4096 }
    ensures number { IfOk result (λ k. k ≡ length instances.old.items) }
    ensures items { OnOk result (st_func_trees instances.new.items ≡ st_func_trees instances.old.items ++ st_func_tree instance ∷ []) }
    ensures more { OnOk result (length instances.new.items ≡ length instances.old.items + 1) }
{
    let number = instances.len() as u32;
    instances.push(instance)?;
    Ok(number)
}

// The plan of a function under the budget; its instance is kept, if there is one.
fn plan_one(
    alloc: Global,
    p: &Typed,
    rows: &[Vec<Row>],
    instances: &mut Vec<StFunc>,
    func: u32,
    budget: u32,
) -> Result<Plan, PlanFault>
    requires time { 0 < budget }
    requires limit { budget ≤ 4096 }
    requires there { func < length (program_tree p.now).funcs }
    requires formed { IsTrue (formed (program_tree p.now)) }
    requires known { AreCallsKnown (program_tree p.now) func budget (row_lists rows.now) }
    requires sound { AreSound (program_tree p.now) (row_lists rows.now) }
    requires few { length instances.old.items < 4096 * 4096 }
    ensures few { OnOk result (length instances.new.items ≤ length instances.old.items + 1) }
    ensures made { IfOk result (λ plan. IsMade (program_tree p.now) (row_lists rows.now) func budget plan (st_func_trees instances.old.items) (st_func_trees instances.new.items)) }
    ensures failing { IfOk result (λ plan. IsFailing (program_tree p.now) func budget plan) }
    ensures fails { (line : ℕ) → result ≡ Err (PlanFault.NoSchedule line) → ⊥ }
{
    match plan_func(alloc, p, rows, func, budget) {
        Ok(instance) => {
            let k = append(instances, instance)?;
            Ok(Plan::Instance(k))
        }
        Err(PlanFault::NoSchedule { line }) => Ok(Plan::Failed(line)),
        Err(PlanFault::Memory) => Err(PlanFault::Memory),
    }
}

// The plans of a function under each of its budgets.
fn plan_budgets(
    alloc: Global,
    p: &Typed,
    rows: &[Vec<Row>],
    instances: &mut Vec<StFunc>,
    func: u32,
    budgets: &[u32],
) -> Result<Vec<Row>, PlanFault>
    requires within { (i u : ℕ) → slice_get budgets.now i ≡ Some u → (0 < u) × (u ≤ 4096) }
    requires there { func < length (program_tree p.now).funcs }
    requires formed { IsTrue (formed (program_tree p.now)) }
    requires known { (i u : ℕ) → slice_get budgets.now i ≡ Some u → AreCallsKnown (program_tree p.now) func u (row_lists rows.now) }
    requires once { IsEachOnce budgets.now }
    requires next { func ≡ length rows.now }
    requires plans { Plans (program_tree p.now) (row_lists rows.now) (st_func_trees instances.old.items) }
    requires few { length instances.old.items + length budgets.now ≤ 4096 * 4096 }
    ensures few { OnOk result (length instances.new.items ≤ length instances.old.items + length budgets.now) }
    ensures plans { IfOk result (λ own. Plans (program_tree p.now) (row_lists rows.now ++ own.items ∷ []) (st_func_trees instances.new.items)) }
    ensures budgets { IfOk result (λ own. row_budgets own.items ≡ budgets.now) }
    ensures fails { (line : ℕ) → result ≡ Err (PlanFault.NoSchedule line) → ⊥ }
{
    let mut own = Vec::new(alloc);
    for (j, budget) in budgets.iter().enumerate() {
        let plan = plan_one(alloc, p, rows, instances, func, *budget)?;
        own.push(Row {
            budget: *budget,
            plan,
        })?;
    }
    Ok(own)
}

// The plans of the functions below the program function, under the budgets that are reached.
fn plan_all(
    alloc: Global,
    p: &Typed,
    clocks: u32,
    needs: &[Vec<u32>],
    instances: &mut Vec<StFunc>,
) -> Result<Vec<Vec<Row>>, PlanFault>
    requires time { 0 < clocks }
    requires limit { clocks ≤ 4096 }
    requires formed { IsTrue (formed (program_tree p.now)) }
    requires reaches { Reaches (program_tree p.now) clocks 0 (number_lists needs.now) }
    requires empty { instances.old.items ≡ [] }
    ensures few { OnOk result (length instances.new.items < 4096 * 4096) }
    ensures plans { IfOk result (λ rows. Plans (program_tree p.now) (row_lists rows.items) (st_func_trees instances.new.items)) }
    ensures budgets { IfOk result (λ rows. all_row_budgets (row_lists rows.items) ≡ number_lists needs.now) }
    ensures fails { (line : ℕ) → result ≡ Err (PlanFault.NoSchedule line) → ⊥ }
{
    let mut rows = Vec::new(alloc);
    for (f, budgets) in needs.iter().enumerate() {
        let own = plan_budgets(alloc, p, &rows, instances, f as u32, budgets)?;
        append_rows(&mut rows, own)?;
    }
    Ok(rows)
}

fn append_rows(rows: &mut Vec<Vec<Row>>, own: Vec<Row>) -> Result<(), AllocError>
    ensures { OnOk result (row_lists rows.new.items ≡ row_lists rows.old.items ++ own.items ∷ []) }
{
    rows.push(own)?;
    Ok(())
}

/// The schedule of a program whose blocks follow one another in so many clocks: each function under each
/// budget that it is reached with, by the rules of docs/SPACE_TIME.md (after Durst et al., PLDI 2020). `NoSchedule` comes
/// exactly where a line has no layout, and names the first: in a function its first line for its parameters, then its
/// nodes in order, and for a node that calls or maps a function that function's line under its budget. `Memory` comes
/// only for want of memory.
pub fn schedule(alloc: Global, p: &Typed, slowdown: Slowdown) -> Result<StProgram, PlanFault>
    ensures schedule { IfOk result (λ s. IsSchedule (program_tree p.now) slowdown (st_func_trees s)) }
    ensures layouts { IfOk result (λ s. AllFilled (st_func_trees s)) }
    ensures sound { IfOk result (λ s. IsSound (st_func_trees s)) }
    ensures fine { OnOk result (failing_line (program_tree p.now) slowdown ≡ None) }
    ensures failing { (line : ℕ) → result ≡ Err (PlanFault.NoSchedule line) → failing_line (program_tree p.now) slowdown ≡ Some line }
{
    let main = main_of(p.program());
    let clocks = slowdown.clocks();
    let needs = reached(alloc, p, clocks)?;
    let mut instances = Vec::new(alloc);
    let rows = plan_all(alloc, p, clocks, &needs, &mut instances)?;
    let whole = plan_func(alloc, p, &rows, main, clocks)?;
    append(&mut instances, whole)?;
    Ok(StProgram::new(instances))
}
