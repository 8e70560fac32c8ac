// The order of a graph, by a walk in depth with a stack.

ghost use Rattle.std.specs.Prelude.{◌≡◌, ◌<◌, ◌≤◌, ◌+◌, ℕ, length, slice_get, Some, IfOk, IfErr, IfSome, IfNone, slice_set, ◌^◌, OnOk, ◌++◌, ◌∷◌, []};
ghost use Rattle.ae_order.specs.Graph.{Needs, IsGraph, IsOrder};
ghost use Rattle.ae_order.specs.Walks.{IsWalk, IsTop, Steps, Begins, Fails};

use std::alloc::Global;

/// Why there is no order.
#[derive(Clone, Copy)]
pub enum OrderFault {
    /// A node that needs itself, at once or through others.
    Loop(u32),
    Memory,
}

/// How far the walk has come with a node: `At` is the next of its targets to be looked at.
#[derive(Clone, Copy)]
pub enum Mark {
    New,
    At(usize),
    Done,
}

fn keep(list: &mut Vec<u32>, node: u32) -> Result<(), OrderFault>
    ensures ok { OnOk result (list.new.items ≡ list.old.items ++ node ∷ []) }
    ensures err { IfErr result (λ e. e ≡ OrderFault.Memory) }
{
    match list.push(node) {
        Ok(()) => Ok(()),
        Err(_) => Err(OrderFault::Memory),
    }
}

fn number_at(list: &[u32], i: usize) -> u32
    requires { i < length list.now }
    ensures { slice_get list.now i ≡ Some result }
{
    list[i]
}

fn start_at(starts: &[usize], i: usize) -> usize
    requires { i < length starts.now }
    ensures { slice_get starts.now i ≡ Some result }
{
    starts[i]
}

fn mark_at(marks: &Vec<Mark>, node: u32) -> Mark
    requires { node < length marks.now.items }
    ensures { slice_get marks.now.items node ≡ Some result }
{
    marks[node as usize]
}

fn drop_top(stack: &mut Vec<u32>, _top: u32)
    requires { IsTop stack.old.items _top }
    ensures { stack.old.items ≡ stack.new.items ++ _top ∷ [] }
{
    stack.pop();
}

fn set_mark(marks: &mut Vec<Mark>, node: u32, mark: Mark)
    requires { node < length marks.old.items }
    ensures { marks.new.items ≡ slice_set marks.old.items node mark }
{
    marks[node as usize] = mark;
}

/// Puts a new node on the stack.
fn begin(
    starts: &[usize],
    targets: &[u32],
    marks: &mut Vec<Mark>,
    stack: &mut Vec<u32>,
    _order: &[u32],
    node: u32,
) -> Result<(), OrderFault>
    requires graph { IsGraph starts.now targets.now }
    requires walk { IsWalk starts.now targets.now marks.old.items stack.old.items _order.now }
    requires fresh { slice_get marks.old.items node ≡ Some Mark.New }
    requires top { (k b : ℕ) → k + 1 ≡ length stack.old.items → slice_get stack.old.items k ≡ Some b → Needs starts.now targets.now b node }
    ensures step { OnOk result (Steps starts.now targets.now marks.old.items marks.new.items stack.new.items _order.now) }
    ensures begun { OnOk result (Begins marks.new.items node) }
    ensures fault { IfErr result (λ e. e ≡ OrderFault.Memory) }
{
    keep(stack, node)?;
    set_mark(marks, node, Mark::At(start_at(starts, node as usize)));
    Ok(())
}

/// One step with the node on top of the stack.
fn step(
    starts: &[usize],
    targets: &[u32],
    marks: &mut Vec<Mark>,
    stack: &mut Vec<u32>,
    order: &mut Vec<u32>,
    top: u32,
) -> Result<(), OrderFault>
    requires graph { IsGraph starts.now targets.now }
    requires walk { IsWalk starts.now targets.now marks.old.items stack.old.items order.old.items }
    requires top { IsTop stack.old.items top }
    ensures step { OnOk result (Steps starts.now targets.now marks.old.items marks.new.items stack.new.items order.new.items) }
    ensures fault { IfErr result (Fails starts.now targets.now) }
{
    let at = match mark_at(marks, top) {
        Mark::At(at) => at,
        Mark::New => unreachable!(),
        Mark::Done => unreachable!(),
    };
    if at == start_at(starts, top as usize + 1) {
        drop_top(stack, top);
        set_mark(marks, top, Mark::Done);
        keep(order, top)?;
        return Ok(());
    }
    let next = number_at(targets, at);
    match mark_at(marks, next) {
        Mark::Done => {
            set_mark(marks, top, Mark::At(at + 1));
            Ok(())
        }
        Mark::New => match begin(starts, targets, marks, stack, order, next) {
            Ok(()) => Ok(()),
            Err(_) => Err(OrderFault::Memory),
        },
        Mark::At(_) => Err(OrderFault::Loop(next)),
    }
}

fn top_of(stack: &[u32]) -> Option<u32>
    ensures some { IfSome result (IsTop stack.now) }
    ensures none { IfNone result (stack.now ≡ []) }
{
    stack.last().copied()
}

/// Walks from a node to all that it needs.
fn visit(
    alloc: Global,
    starts: &[usize],
    targets: &[u32],
    marks: &mut Vec<Mark>,
    order: &mut Vec<u32>,
    root: u32,
) -> Result<(), OrderFault>
    requires graph { IsGraph starts.now targets.now }
    requires walk { IsWalk starts.now targets.now marks.old.items [] order.old.items }
    requires fresh { slice_get marks.old.items root ≡ Some Mark.New }
    ensures walk { OnOk result (IsWalk starts.now targets.now marks.new.items [] order.new.items) }
    ensures root { OnOk result (Begins marks.new.items root) }
    ensures begun { OnOk result ((a : ℕ) → Begins marks.old.items a → Begins marks.new.items a) }
    ensures fault { IfErr result (Fails starts.now targets.now) }
{
    let mut stack = Vec::new(alloc);
    begin(starts, targets, marks, &mut stack, order, root)?;
    while let Some(top) = top_of(&stack) {
        step(starts, targets, marks, &mut stack, order, top)?;
    }
    Ok(())
}

/// An order of all nodes, or a node that reaches itself. A walk of as many steps as there are nodes, twice, and targets.
pub fn order(alloc: Global, starts: &[usize], targets: &[u32]) -> Result<Vec<u32>, OrderFault>
    requires graph { IsGraph starts.now targets.now }
    requires few { length starts.now ≤ 2 ^ 32 }
    ensures order { IfOk result (λ order. IsOrder starts.now targets.now order.items) }
    ensures fault { IfErr result (Fails starts.now targets.now) }
{
    let count = starts.len() - 1;
    let Ok(made) = vec![in alloc; Mark::New; count] else {
        return Err(OrderFault::Memory);
    };
    let mut marks = made;
    let mut order = Vec::new(alloc);
    for root in 0..count as u32 {
        if let Mark::New = marks[root as usize] {
            visit(alloc, starts, targets, &mut marks, &mut order, root)?;
        }
    }
    Ok(order)
}
