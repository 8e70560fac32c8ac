// Instances, where those of the functions above are known.

ghost use Rattle.std.specs.Prelude.{◌≡◌, ◌<◌, ◌≤◌, ◌+◌, ◌-◌, ◌++◌, [], ◌∷◌, ℕ, IfOk, OnOk, IfSome, IfNone, IfErr, IsTrue, Some, None, Err, false, map, length, slice_get};
ghost use Rattle.ae_seq.specs.ProgramTree.{program_tree, node_tree, func_tree, op_tree};
ghost use Rattle.ae_seq.specs.Accepted.{is_item};
ghost use Rattle.ae_seq.specs.Formed.{formed};
ghost use Rattle.ae_seq.specs.Trees.{node_trees, param_trees};
ghost use Rattle.ae_sttype.specs.StTree.{st_tree};
ghost use Rattle.ae_rewrite.specs.Spreads.{IsShiftOfFew};
ghost use Rattle.ae_rewrite.specs.StProgramTree.{st_op_tree, st_node_tree, st_node_trees, st_func_tree, st_trees};
ghost use Rattle.ae_rewrite.specs.Calls.{called_by, plain_op, layout_at};
ghost use Rattle.ae_rewrite.specs.FailingLine.{call_line, node_line, nodes_line, params_laid, failing};
ghost use Rattle.ae_rewrite.specs.Scheduled.{IsFilling, AreFilling, IsFilled, node_layouts, IsOp, IsStNode, AreStNodes, IsInstance, param_layouts, copies_of};
ghost use Rattle.ae_rewrite.specs.Planned.{row_lists, IsRowAt, IsNodeAt, IsPlanned, HasPlan, AreSound, IsKnown, IfCalled, AreCallsKnown, AreLaid};

use crate::calls::{Call, called_by, plain_op};
use crate::{LayFault, PlanFault, StFunc, StNode, StOp, lay};
use ae_seq::{Func, Node, Program, Typed};
use ae_seqtype::SeqType;
use ae_sttype::StType;
use std::alloc::{AllocError, Global};

/// What is known of a function under a budget.
#[derive(Clone, Copy, Debug)]
pub enum Plan {
    /// It has no schedule, for want of a layout at this line.
    Failed(u32),
    /// It is this instance.
    Instance(u32),
}

/// What is known of a function under this budget.
#[derive(Clone, Copy, Debug)]
pub struct Row {
    pub budget: u32,
    pub plan: Plan,
}

// The plan of a function, of which these are the rows, under the budget.
fn find(own: &[Row], budget: u32) -> Option<Plan>
    ensures found { IfSome result (λ plan. IsRowAt own.now budget plan) }
    ensures missing { IfNone result ((k : ℕ) (plan : Plan) → slice_get own.now k ≡ Some (record { budget = budget; plan = plan }) → ⊥) }
{
    for row in own {
        if row.budget == budget {
            return Some(row.plan);
        }
    }
    None
}

// The instance that is called; the line at which there is none.
fn body(rows: &[Vec<Row>], call: Call) -> Result<u32, u32>
    requires known { IsKnown (row_lists rows.now) call }
    ensures found { IfOk result (λ k. HasPlan (row_lists rows.now) k call.func call.budget) }
    ensures failed { IfErr result (λ line. IsPlanned (row_lists rows.now) call.func call.budget (Plan.Failed line)) }
{
    match find(&rows[call.func as usize], call.budget) {
        Some(Plan::Instance(k)) => Ok(k),
        Some(Plan::Failed(line)) => Err(line),
        None => unreachable!(),
    }
}

// What a node does, where it calls this or nothing.
fn plan_op(
    alloc: Global,
    p: &Typed,
    rows: &[Vec<Row>],
    func: u32,
    budget: u32,
    node: &Node,
    call: Option<Call>,
) -> Result<StOp, PlanFault>
    requires time { 0 < budget }
    requires few { IsShiftOfFew (op_tree node.now.op) }
    requires plain { call ≡ None → plain_op (program_tree p.now) func budget (op_tree node.now.op) node.now.args.items ≡ None → ⊥ }
    requires known { IfCalled call (λ c. IsKnown (row_lists rows.now) c) }
    requires sound { AreSound (program_tree p.now) (row_lists rows.now) }
    ensures op { IfOk result (λ o. IsOp (HasPlan (row_lists rows.now)) call
        (plain_op (program_tree p.now) func budget (op_tree node.now.op) node.now.args.items) (st_op_tree o)) }
    ensures fine { OnOk result (call_line (failing (program_tree p.now)) call ≡ None) }
    ensures failing { (line : ℕ) → result ≡ Err (PlanFault.NoSchedule line) → call_line (failing (program_tree p.now)) call ≡ Some line }
{
    match call {
        Some(call) => match body(rows, call) {
            Ok(k) => Ok(StOp::Body(k)),
            Err(line) => Err(PlanFault::NoSchedule { line }),
        },
        None => match plain_op(alloc, p, func, budget, node)? {
            Some(op) => Ok(op),
            None => unreachable!(),
        },
    }
}

fn copies_of(call: Option<Call>) -> u32
    ensures { result ≡ copies_of call }
{
    match call {
        Some(call) => call.copies,
        None => 1,
    }
}

// The layout of an item of a function under the budget; the line fails where there is none.
fn layout_at(
    alloc: Global,
    p: &Typed,
    func: u32,
    budget: u32,
    item: u32,
    line: u32,
) -> Result<StType, PlanFault>
    requires time { 0 < budget }
    requires limit { budget ≤ 4096 }
    requires there { IsTrue (is_item (program_tree p.now) func item) }
    ensures layout { IfOk result (λ s. layout_at (program_tree p.now) func budget item ≡ Some (st_tree s)) }
    ensures filling { IfOk result (λ s. IsFilling budget (st_tree s)) }
    ensures failing { (l : ℕ) → result ≡ Err (PlanFault.NoSchedule l) → (layout_at (program_tree p.now) func budget item ≡ None) × (l ≡ line) }
{
    let Some(t) = p.ty(func, item) else {
        unreachable!()
    };
    match lay(alloc, t, budget) {
        Ok(layout) => Ok(layout),
        Err(LayFault::NoLayout) => Err(PlanFault::NoSchedule { line }),
        Err(LayFault::Memory) => Err(PlanFault::Memory),
    }
}

// A node of a function under the budget, which is this item.
fn plan_node(
    alloc: Global,
    p: &Typed,
    rows: &[Vec<Row>],
    func: u32,
    budget: u32,
    item: u32,
    node: &Node,
) -> Result<StNode, PlanFault>
    requires time { 0 < budget }
    requires limit { budget ≤ 4096 }
    requires there { IsNodeAt (program_tree p.now) func item (node_tree node.now) }
    requires formed { IsTrue (formed (program_tree p.now)) }
    requires laid { AreLaid (program_tree p.now) func budget item }
    requires known { IfCalled (called_by (program_tree p.now) func budget (node_tree node.now)) (λ c. IsKnown (row_lists rows.now) c) }
    requires sound { AreSound (program_tree p.now) (row_lists rows.now) }
    ensures node { IfOk result (λ n. IsStNode (program_tree p.now) (HasPlan (row_lists rows.now)) func budget item (node_tree node.now) (st_node_tree n)) }
    ensures filling { IfOk result (λ n. IsFilling budget (st_node_tree n).type) }
    ensures fine { OnOk result (node_line (program_tree p.now) (failing (program_tree p.now)) func budget item (node_tree node.now) ≡ None) }
    ensures failing { (line : ℕ) → result ≡ Err (PlanFault.NoSchedule line)
        → node_line (program_tree p.now) (failing (program_tree p.now)) func budget item (node_tree node.now) ≡ Some line }
{
    let ty = layout_at(alloc, p, func, budget, item, node.line)?;
    let call = called_by(p, func, budget, node);
    let op = plan_op(alloc, p, rows, func, budget, node, call)?;
    Ok(StNode {
        op,
        args: Vec::from_slice(alloc, &node.args)?,
        ty,
        copies: copies_of(call),
        line: node.line,
    })
}

// A function of the program.
pub fn func_of(p: &Typed, func: u32) -> &Func
    requires there { func < length (program_tree p.now).funcs }
    ensures here { slice_get (program_tree p.now).funcs func ≡ Some (func_tree result.now) }
{
    &p.program().funcs[func as usize]
}

/// The number of the program function, which is the last.
pub fn main_of(p: &Program) -> u32
    requires formed { IsTrue (formed (program_tree p.now)) }
    ensures main { result ≡ length (program_tree p.now).funcs - 1 }
    ensures there { result < length (program_tree p.now).funcs }
{
    (p.funcs.as_slice().len() - 1) as u32
}

fn param_count(f: &Func) -> u32
    requires few { length f.now.params.items ≤ 8 }
    ensures { result ≡ length f.now.params.items }
{
    f.params.len() as u32
}

// The layouts of a function's parameters.
fn plan_params(
    alloc: Global,
    p: &Typed,
    func: u32,
    budget: u32,
    f: &Func,
) -> Result<Vec<StType>, PlanFault>
    requires time { 0 < budget }
    requires limit { budget ≤ 4096 }
    requires here { slice_get (program_tree p.now).funcs func ≡ Some (func_tree f.now) }
    requires few { length f.now.params.items ≤ 8 }
    ensures layouts { IfOk result (λ ts. param_layouts budget (param_trees f.now.params.items) ≡ map Some (st_trees ts.items)) }
    ensures filling { IfOk result (λ ts. AreFilling budget (st_trees ts.items)) }
    ensures failing { (line : ℕ) → result ≡ Err (PlanFault.NoSchedule line) → (params_laid budget (param_trees f.now.params.items) ≡ false) × (line ≡ f.now.line) }
{
    let mut ins = Vec::new(alloc);
    for i in 0..param_count(f) {
        append_layout(&mut ins, layout_at(alloc, p, func, budget, i, f.line)?)?;
    }
    Ok(ins)
}

fn append_layout(layouts: &mut Vec<StType>, layout: StType) -> Result<(), AllocError>
    ensures { OnOk result (st_trees layouts.new.items ≡ st_trees layouts.old.items ++ st_tree layout ∷ []) }
{
    layouts.push(layout)?;
    Ok(())
}

fn append_node(nodes: &mut Vec<StNode>, node: StNode) -> Result<(), AllocError>
    ensures { OnOk result (st_node_trees nodes.new.items ≡ st_node_trees nodes.old.items ++ st_node_tree node ∷ []) }
{
    nodes.push(node)?;
    Ok(())
}

// The nodes of a function under the budget.
fn plan_nodes(
    alloc: Global,
    p: &Typed,
    rows: &[Vec<Row>],
    func: u32,
    budget: u32,
    f: &Func,
) -> Result<Vec<StNode>, PlanFault>
    requires time { 0 < budget }
    requires limit { budget ≤ 4096 }
    requires here { slice_get (program_tree p.now).funcs func ≡ Some (func_tree f.now) }
    requires formed { IsTrue (formed (program_tree p.now)) }
    requires laid { AreLaid (program_tree p.now) func budget (length f.now.params.items) }
    requires known { AreCallsKnown (program_tree p.now) func budget (row_lists rows.now) }
    requires sound { AreSound (program_tree p.now) (row_lists rows.now) }
    requires few { length f.now.params.items ≤ 8 }
    requires few_nodes { length f.now.nodes.items ≤ 4096 }
    ensures nodes { IfOk result (λ ns. AreStNodes (program_tree p.now) (HasPlan (row_lists rows.now)) func budget
        (length f.now.params.items) (node_trees f.now.nodes.items) (st_node_trees ns.items)) }
    ensures filling { IfOk result (λ ns. AreFilling budget (node_layouts (st_node_trees ns.items))) }
    ensures fine { OnOk result (nodes_line (program_tree p.now) (failing (program_tree p.now)) func budget
        (length f.now.params.items) (node_trees f.now.nodes.items) ≡ None) }
    ensures failing { (line : ℕ) → result ≡ Err (PlanFault.NoSchedule line) → nodes_line (program_tree p.now) (failing (program_tree p.now)) func budget
        (length f.now.params.items) (node_trees f.now.nodes.items) ≡ Some line }
{
    let params = param_count(f);
    let mut nodes = Vec::new(alloc);
    for (k, node) in f.nodes.iter().enumerate() {
        let item = params + k as u32;
        append_node(
            &mut nodes,
            plan_node(alloc, p, rows, func, budget, item, node)?,
        )?;
    }
    Ok(nodes)
}

/// The instance of a function under the budget, where all that it calls is known; the line at which there is none.
pub fn plan_func(
    alloc: Global,
    p: &Typed,
    rows: &[Vec<Row>],
    func: u32,
    budget: u32,
) -> Result<StFunc, PlanFault>
    requires time { 0 < budget }
    requires limit { budget ≤ 4096 }
    requires there { func < length (program_tree p.now).funcs }
    requires formed { IsTrue (formed (program_tree p.now)) }
    requires known { AreCallsKnown (program_tree p.now) func budget (row_lists rows.now) }
    requires sound { AreSound (program_tree p.now) (row_lists rows.now) }
    ensures instance { IfOk result (λ s. IsInstance (program_tree p.now) (HasPlan (row_lists rows.now)) (st_func_tree s)) }
    ensures key { IfOk result (λ s. (s.func ≡ func) × (s.budget ≡ budget)) }
    ensures filled { IfOk result (λ s. IsFilled (st_func_tree s)) }
    ensures fine { OnOk result (failing (program_tree p.now) func budget ≡ None) }
    ensures failing { (line : ℕ) → result ≡ Err (PlanFault.NoSchedule line) → failing (program_tree p.now) func budget ≡ Some line }
{
    let f = func_of(p, func);
    let ins = plan_params(alloc, p, func, budget, f)?;
    let nodes = plan_nodes(alloc, p, rows, func, budget, f)?;
    Ok(StFunc {
        func,
        budget,
        ins,
        nodes,
        results: Vec::from_slice(alloc, &f.results)?,
        end_line: f.end_line,
    })
}
