// Moves that were weighed before.

ghost use Rattle.std.specs.Prelude.{◌≡◌, ◌<◌, ◌≤◌, ◌⊎◌, IfOk, IsTrue, Some};
ghost use Rattle.ae_sttype.specs.StTree.{element_atom, st_atoms, st_tree, time};
ghost use Rattle.ae_sttype.specs.Size.{IsInSize};
ghost use Rattle.ae_rewrite.specs.Sound.{IsMoveFrom};
ghost use Rattle.ae_delay.specs.declared.moves.MoveCosts.{MoveCosts as Costs};
ghost use Rattle.ae_delay.specs.Alike.{trimmed};
ghost use Rattle.ae_delay.specs.Moving.{costs_of_move, op_move};
ghost use Rattle.ae_delay.specs.Bounds.{AreSmall};

use crate::moves::{MoveCosts, costs_of};
use ae_rewrite::MoveOp;
use ae_sttype::StType;
use std::alloc::{AllocError, Global};

fn same_op(a: MoveOp, b: MoveOp) -> bool
    ensures { IsTrue result → a ≡ b }
{
    a == b
}

// Whether the two are the same layout.
fn is_same(a: &StType, b: &StType) -> bool
    ensures { IsTrue result → st_tree a.now ≡ st_tree b.now }
{
    match (a, b) {
        (StType::Atom(x), StType::Atom(y)) => x.is_same(y),
        (StType::T { n, i, of }, StType::T { n: m, i: j, of: to }) => {
            n == m && i == j && is_same(of, to)
        }
        (StType::S { n, of }, StType::S { n: m, of: to }) => n == m && is_same(of, to),
        _ => false,
    }
}

// Whether the two are the same layout but for the invalid slots at their end.
fn is_alike(a: &StType, b: &StType) -> bool
    ensures { IsTrue result → trimmed (st_tree a.now) ≡ trimmed (st_tree b.now) }
{
    match (a, b) {
        (StType::T { n, i: _, of }, StType::T { n: m, i: _, of: to }) => n == m && is_same(of, to),
        _ => is_same(a, b),
    }
}

// A move of an operator, and what it costs where blocks follow one another in `period` clocks.
#[derive(Drop)]
struct KnownMove {
    how: MoveOp,
    arg: StType,
    out: StType,
    period: u32,
    costs: MoveCosts,
    ghost timed: { period ≡ time (st_tree out) },
    ghost right: { costs ≡ costs_of_move (op_move how (st_tree arg) (st_tree out)) },
}

impl KnownMove {
    // Whether it costs the same where blocks follow one another in so many clocks: no word is kept longer than they do so.
    fn is_near(&self, period: u32) -> bool
        ensures { IsTrue result → (self.now.period ≡ period) ⊎ ((self.now.costs.delay ≤ self.now.period) × (self.now.costs.delay ≤ period)) }
    {
        self.period == period || self.costs.delay <= u64::from(self.period.min(period))
    }

    // Whether the elements of a move stand in the same slots.
    fn has_slots(&self, arg: &StType, out: &StType) -> bool
        ensures { IsTrue result → (trimmed (st_tree self.now.arg) ≡ trimmed (st_tree arg.now)) × (trimmed (st_tree self.now.out) ≡ trimmed (st_tree out.now)) }
    {
        is_alike(&self.arg, arg) && is_alike(&self.out, out)
    }

    // Whether a move costs the same.
    fn is_like(&self, how: MoveOp, arg: &StType, out: &StType, period: u32) -> bool
        requires { period ≡ time (st_tree out.now) }
        ensures { IsTrue result → self.now.costs ≡ costs_of_move (op_move how (st_tree arg.now) (st_tree out.now)) }
    {
        same_op(self.how, how) && self.is_near(period) && self.has_slots(arg, out)
    }
}

/// Moves that were weighed before, so that those like them need not be weighed again: the last 256 of at least 64 elements.
#[derive(Drop)]
pub struct KnownMoves {
    moves: Vec<KnownMove>,
    next: usize,
    ghost inside: { next < 256 },
}

impl KnownMoves {
    /// None yet.
    pub fn new(alloc: Global) -> KnownMoves {
        KnownMoves {
            moves: Vec::new(alloc),
            next: 0,
        }
    }

    // What a move costs, where one like it is known.
    fn find(&self, how: MoveOp, arg: &StType, out: &StType) -> Option<MoveCosts>
        requires { IsInSize (st_tree out.now) }
        ensures { (c : Costs) → result ≡ Some c → c ≡ costs_of_move (op_move how (st_tree arg.now) (st_tree out.now)) }
    {
        let period = out.time();
        for known in &self.moves {
            if known.is_like(how, arg, out, period) {
                return Some(known.costs);
            }
        }
        None
    }

    // One more, in place of the oldest where there are 256.
    fn keep(&mut self, known: KnownMove) -> Result<(), AllocError> {
        if self.moves.len() < 256 {
            self.moves.push(known)?;
        } else {
            self.moves[self.next] = known;
            self.next = (self.next + 1) % 256;
        }
        Ok(())
    }

    /// What the move of an operator costs.
    pub(crate) fn costs(
        &mut self,
        alloc: Global,
        how: MoveOp,
        arg: &StType,
        out: &StType,
    ) -> Result<MoveCosts, AllocError>
        requires arg { IsInSize (st_tree arg.now) }
        requires out { IsInSize (st_tree out.now) }
        requires time { time (st_tree arg.now) ≡ time (st_tree out.now) }
        requires atom { element_atom (st_tree arg.now) ≡ element_atom (st_tree out.now) }
        requires from { IsMoveFrom how (st_atoms (st_tree arg.now)) (st_atoms (st_tree out.now)) }
        ensures costs { IfOk result (λ c. c ≡ costs_of_move (op_move how (st_tree arg.now) (st_tree out.now))) }
        ensures small { IfOk result AreSmall }
    {
        if out.atoms() < 64 {
            return costs_of(alloc, how, arg, out);
        }
        if let Some(costs) = self.find(how, arg, out) {
            return Ok(costs);
        }
        let costs = costs_of(alloc, how, arg, out)?;
        self.keep(known_move(alloc, how, arg, out, costs)?)?;
        Ok(costs)
    }
}

// A move to be kept.
fn known_move(
    alloc: Global,
    how: MoveOp,
    arg: &StType,
    out: &StType,
    costs: MoveCosts,
) -> Result<KnownMove, AllocError>
    requires out { IsInSize (st_tree out.now) }
    requires costs { costs ≡ costs_of_move (op_move how (st_tree arg.now) (st_tree out.now)) }
{
    let period = out.time();
    let arg = arg.copy(alloc)?;
    let out = out.copy(alloc)?;
    Ok(KnownMove {
        how,
        arg,
        out,
        period,
        costs,
    })
}
