// What is the same under every slowdown, kept.

ghost use Rattle.std.specs.Prelude.{◌≡◌, ◌<◌, ◌≤◌, ◌↔◌, ℕ, true, map, IfOk, IfSome, IsSome};
ghost use Rattle.ae_seq.specs.ProgramTree.{program_tree};
ghost use Rattle.ae_rewrite.specs.Scheduled.{IsSchedule};
ghost use Rattle.ae_rewrite.specs.StProgramTree.{st_func_tree, st_func_trees};
ghost use Rattle.ae_trace.specs.Traces.{is_movement};
ghost use Rattle.ae_fuse.specs.Costing.{fused_costs};
ghost use Rattle.ae_fuse.specs.Fused.{IsMovable};
ghost use Rattle.ae_fuse.specs.Moved.{HaveResults, own_labels, own_move};
ghost use Rattle.ae_fuse.specs.Slowdowns.{AreCostsUnder, AreLabels, told_costs};

use crate::results::{result_moves, together};
use crate::tracing::traced;
use crate::whole::movable_instance;
use ae_results::FusedCosts;
use ae_rewrite::{StFunc, StProgram};
use ae_seq::Typed;
use std::alloc::{AllocError, Global};
use std::marker::Model;

/// The labels of the results of a movement program: of each word the number, from 1 on, of the word of the parameters that it is,
/// or 0 of a word 0. No slowdown changes them.
#[derive(Drop)]
pub struct WordLabels {
    items: Vec<Vec<u32>>,
}

impl Model for WordLabels {
    ghost use Rattle.std.specs.Prelude.{List, ℕ, map};

    ghost Value = { List (List ℕ) };

    ghost view = { λ l. map (λ w. w.items) l.items.items };
}

impl WordLabels {
    /// What the program costs under the slowdown of a schedule; an error only for want of memory.
    pub fn costs(&self, alloc: Global, p: &Typed, s: &StProgram) -> Result<FusedCosts, AllocError>
        requires schedule { (slowdown : ℕ) × (0 < slowdown) × (slowdown ≤ 4096) × IsSchedule (program_tree p.now) slowdown (st_func_trees s.now) }
        requires labels { AreLabels (program_tree p.now) self.now }
        ensures { IfOk result (λ c. AreCostsUnder (program_tree p.now) (st_func_trees s.now) c) }
    {
        match movable_instance(p, s) {
            Some(instance) => instance_costs(alloc, instance, self.items.as_slice()),
            None => unreachable!(),
        }
    }
}

// What the moves of an instance cost, by the labels of its items.
fn instance_costs(alloc: Global, s: &StFunc, labels: &[Vec<u32>]) -> Result<FusedCosts, AllocError>
    requires movable { IsMovable (st_func_tree s.now) }
    requires labels { HaveResults (st_func_tree s.now) (map (λ w. w.items) labels.now) }
    ensures { IfOk result (λ c. told_costs c ≡ fused_costs (map (own_move (st_func_tree s.now) (own_labels (st_func_tree s.now))) s.now.results.items)) }
{
    let moves = result_moves(alloc, s, labels)?;
    together(alloc, s.ins.as_slice(), &moves)
}

/// The labels of a movement program, by any schedule of it; None exactly where a line of the program function does more than
/// move words. An error comes only for want of memory.
pub fn labels_of(alloc: Global, p: &Typed, s: &StProgram) -> Result<Option<WordLabels>, AllocError>
    requires schedule { (slowdown : ℕ) × (0 < slowdown) × (slowdown ≤ 4096) × IsSchedule (program_tree p.now) slowdown (st_func_trees s.now) }
    ensures some { IfOk result (λ o. IsSome o ↔ (is_movement (program_tree p.now) ≡ true)) }
    ensures labels { IfOk result (λ o. IfSome o (λ l. AreLabels (program_tree p.now) l)) }
{
    match movable_instance(p, s) {
        Some(instance) => {
            let traced = traced(alloc, instance)?;
            Ok(Some(WordLabels {
                items: traced.labels,
            }))
        }
        None => Ok(None),
    }
}
