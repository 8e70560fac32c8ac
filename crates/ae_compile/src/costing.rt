// What the circuit of a program costs under a slowdown.

ghost use Rattle.std.specs.Prelude.{◌≡◌, ◌<◌, ◌≤◌, ◌-◌, ℕ, IsTrue, Some, None, IfOk, IfErr, OnOk, length, slice_get};
ghost use Rattle.ae_seq.specs.ProgramTree.{func_tree, program_tree};
ghost use Rattle.ae_seq.specs.Formed.{formed};
ghost use Rattle.ae_rewrite.specs.Scheduled.{IsSchedule};
ghost use Rattle.ae_rewrite.specs.Sound.{IsSound};
ghost use Rattle.ae_rewrite.specs.StProgramTree.{st_func_tree, st_func_trees};
ghost use Rattle.ae_rewrite.specs.Interface.{main_of};
ghost use Rattle.ae_delay.specs.Costs.{too_large};
ghost use Rattle.ae_delay.specs.Timings.{AreTimes};
ghost use Rattle.ae_lower.specs.Circuits.{last_of};
ghost use Rattle.ae_stalled.specs.Laws.{stall_limit};
ghost use Rattle.ae_compile.specs.Costing.{AreCosts, IsLargeAt, IsScheduled, IsCosted, IsCostFault, IsKnown, costs_over, load_limit};
ghost use Rattle.ae_compile.specs.Passes.{IsCostedProgram};

use crate::costs::Costs;
use crate::faults::CompileFault;
use crate::typing::typed;
use ae_delay::{DelayFault, Timing, arrivals_within};
use ae_fuse::fuse;
use ae_rewrite::{PlanFault, StFunc, StProgram, schedule};
use ae_seq::{Func, Typed};
use ae_sttype::Slowdown;
use std::alloc::Global;
use std::marker::Model;

/// The greatest load of a circuit.
pub const LOAD_LIMIT: u32 = 100_000;

/// The greatest load of a circuit that gets an enable.
pub const STALL_LIMIT: u32 = 50_000;

/// A typed program with its schedule under a slowdown, and the costs of that, whose load is at most
/// `LOAD_LIMIT`.
#[derive(Drop)]
pub struct Costed {
    slowdown: Slowdown,
    program: Typed,
    schedule: StProgram,
    costs: Costs,
}

impl Model for Costed {
    ghost use Rattle.std.specs.Coded.{codes};
    ghost use Rattle.ae_seqtype.specs.contracts.seq_type.SeqType as t;
    ghost use Rattle.ae_sttype.specs.contracts.st_type.StType as e;
    ghost use Rattle.ae_compile.specs.Passes.{CostedView, IsCostedProgram};

    ghost Value = { CostedView };

    ghost coded = { Prim.hlevel (codes, e.the_row.coded, t.the_row.coded) };

    ghost view = { λ c. record { slowdown = c.slowdown; program = c.program; schedule = c.schedule; costs = c.costs } };

    ghost invariant = { λ c. IsCostedProgram (record { slowdown = c.slowdown; program = c.program; schedule = c.schedule; costs = c.costs }) };
}

impl Costed {
    /// The clocks of a block of the program function.
    pub fn slowdown(&self) -> Slowdown
        ensures { result ≡ self.now.slowdown }
    {
        self.slowdown
    }

    /// The program.
    pub fn program(&self) -> &Typed
        ensures is { result.now ≡ self.now.program }
        ensures known { IsCostedProgram self.now }
    {
        &self.program
    }

    /// Its schedule.
    pub fn schedule(&self) -> &StProgram
        ensures is { result.now ≡ self.now.schedule }
        ensures known { IsCostedProgram self.now }
    {
        &self.schedule
    }

    /// The costs of that.
    pub fn costs(&self) -> &Costs
        ensures is { result.now ≡ self.now.costs }
        ensures known { IsCostedProgram self.now }
    {
        &self.costs
    }

    /// The program function, which is the last.
    pub fn main_func(&self) -> &Func
        ensures formed { IsTrue (formed (program_tree self.now.program)) }
        ensures last { slice_get (program_tree self.now.program).funcs (main_of (program_tree self.now.program)) ≡ Some (func_tree result.now) }
    {
        main_func(&self.program)
    }

    /// The instance of the program function, which is the last.
    pub fn main_instance(&self) -> &StFunc
        ensures last { slice_get (st_func_trees self.now.schedule) (last_of (st_func_trees self.now.schedule)) ≡ Some (st_func_tree result.now) }
        ensures known { IsCostedProgram self.now }
    {
        main_instance(&self.schedule)
    }
}

fn scheduled(
    alloc: Global,
    part: &[u8],
    slowdown: Slowdown,
) -> Result<(Typed, StProgram), CompileFault>
    requires { length part.now < 4294967295 }
    ensures scheduled { IfOk result (λ x. IsScheduled part.now slowdown (program_tree x.0) (st_func_trees x.1)) }
    ensures formed { IfOk result (λ x. IsTrue (formed (program_tree x.0))) }
    ensures sound { IfOk result (λ x. IsSound (st_func_trees x.1)) }
    ensures refused { IfErr result (λ f. (limit : ℕ) → IsCostFault limit part.now slowdown f) }
{
    let program = typed(alloc, part)?;
    match schedule(alloc, &program, slowdown) {
        Ok(schedule) => Ok((program, schedule)),
        Err(PlanFault::NoSchedule { line }) => Err(CompileFault::NoSchedule { line }),
        Err(PlanFault::Memory) => Err(CompileFault::Memory),
    }
}

// The times of a schedule, if its load is within the limit.
fn find_times(alloc: Global, schedule: &StProgram, limit: u32) -> Result<Timing, CompileFault>
    requires { limit ≤ load_limit }
    ensures times { IfOk result (λ t. AreTimes (st_func_trees schedule.now) t) }
    ensures within { OnOk result (too_large limit (st_func_trees schedule.now) ≡ None) }
    ensures refused { IfErr result (λ f. IsLargeAt (too_large limit (st_func_trees schedule.now)) f) }
{
    match arrivals_within(alloc, schedule, limit) {
        Ok(timing) => Ok(timing),
        Err(DelayFault::Large { line, load: _ }) => Err(CompileFault::TooLarge { line }),
        Err(DelayFault::Memory) => Err(CompileFault::Memory),
    }
}

// The costs of a program with a schedule: of one that only moves words those of its moves, which may be within the limit where
// the schedule is not, and the other way round.
fn find_costs(
    alloc: Global,
    program: &Typed,
    schedule: &StProgram,
    limit: u32,
) -> Result<Costs, CompileFault>
    requires schedule { (slowdown : ℕ) × (0 < slowdown) × (slowdown ≤ 4096) × IsSchedule (program_tree program.now) slowdown (st_func_trees schedule.now) }
    requires limit { limit ≤ load_limit }
    ensures costs { IfOk result (λ c. AreCosts (program_tree program.now) (st_func_trees schedule.now) c) }
    ensures within { OnOk result (costs_over limit (program_tree program.now) (st_func_trees schedule.now) ≡ None) }
    ensures refused { IfErr result (λ f. IsLargeAt (costs_over limit (program_tree program.now) (st_func_trees schedule.now)) f) }
{
    let func = main_func(program);
    match fuse(alloc, program, schedule) {
        Ok(Some(moves)) => {
            let load = moves.load();
            let most = u64::from(limit);
            if load > most {
                return Err(CompileFault::TooLarge {
                    line: func.end_line,
                });
            }
            Ok(Costs::Fused(moves))
        }
        Ok(None) => {
            let timing = find_times(alloc, schedule, limit)?;
            Ok(Costs::Plain(timing))
        }
        Err(_) => Err(CompileFault::Memory),
    }
}

/// The program of a text with its schedule under a slowdown, and the costs of that (docs/COSTS.md); or why it
/// has none: its first bad line, the first line without a type or past a limit of types, the first line without a layout, or
/// the first line at which the load passes the limit handed in, of at most `LOAD_LIMIT`. `Memory` comes only for want of
/// memory.
pub fn cost(
    alloc: Global,
    part: &[u8],
    slowdown: Slowdown,
    limit: u32,
) -> Result<Costed, CompileFault>
    requires part { length part.now < 4294967295 }
    requires limit { limit ≤ load_limit }
    ensures costed { IfOk result (λ c. IsCosted limit part.now slowdown (program_tree c.program) (st_func_trees c.schedule)) }
    ensures slowdown { IfOk result (λ c. c.slowdown ≡ slowdown) }
    ensures known { IfOk result (λ c. IsKnown limit (program_tree c.program) c.slowdown (st_func_trees c.schedule) c.costs) }
    ensures refused { IfErr result (λ f. IsCostFault limit part.now slowdown f) }
{
    slowdown.limits();
    let (program, schedule) = scheduled(alloc, part, slowdown)?;
    let costs = find_costs(alloc, &program, &schedule, limit)?;
    Ok(Costed {
        slowdown,
        program,
        schedule,
        costs,
    })
}

/// The same of a circuit that gets an enable: its load is at most `STALL_LIMIT`.
pub fn cost_stalled(alloc: Global, part: &[u8], slowdown: Slowdown) -> Result<Costed, CompileFault>
    requires part { length part.now < 4294967295 }
    ensures costed { IfOk result (λ c. IsCosted stall_limit part.now slowdown (program_tree c.program) (st_func_trees c.schedule)) }
    ensures slowdown { IfOk result (λ c. c.slowdown ≡ slowdown) }
    ensures known { IfOk result (λ c. IsKnown stall_limit (program_tree c.program) c.slowdown (st_func_trees c.schedule) c.costs) }
    ensures refused { IfErr result (λ f. IsCostFault stall_limit part.now slowdown f) }
{
    cost(alloc, part, slowdown, STALL_LIMIT)
}

// The program function, which is the last.
fn main_func(p: &Typed) -> &Func
    ensures formed { IsTrue (formed (program_tree p.now)) }
    ensures last { slice_get (program_tree p.now).funcs (main_of (program_tree p.now)) ≡ Some (func_tree result.now) }
{
    let funcs = p.program().funcs.as_slice();
    &funcs[funcs.len() - 1]
}

// The instance of the program function, which is the last.
fn main_instance(p: &StProgram) -> &StFunc
    ensures { slice_get (st_func_trees p.now) (length (st_func_trees p.now) - 1) ≡ Some (st_func_tree result.now) }
{
    let last = p.count() - 1;
    match p.instance(last) {
        Some(instance) => instance,
        None => unreachable!(),
    }
}
