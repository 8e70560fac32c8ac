// The slowdowns of a program.

ghost use Rattle.std.specs.Prelude.{◌<◌, ◌≤◌, ℕ, IfOk, IfSome, length};
ghost use Rattle.ae_seq.specs.ProgramTree.{program_tree};
ghost use Rattle.ae_rewrite.specs.Scheduled.{IsSchedule};
ghost use Rattle.ae_rewrite.specs.StProgramTree.{st_func_trees};
ghost use Rattle.ae_fuse.specs.Slowdowns.{AreLabels};

use ae_compile::{LOAD_LIMIT, typed};
use ae_delay::{DelayFault, KnownMoves, arrivals_reusing};
use ae_fuse::{WordLabels, labels_of};
use ae_items::{KitFault, lanes, layout_of, program_part};
use ae_rewrite::{PlanFault, StFunc, StProgram, schedule};
use ae_seq::Typed;
use ae_sttype::Slowdown;
use ae_why::Watch;
use std::alloc::{AllocError, Global};

/// The slowdowns that are asked for, and how they are shown.
#[derive(Clone, Copy)]
pub struct Range {
    pub from: u32,
    pub to: u32,
    /// As comma-separated values.
    pub csv: bool,
    /// Only those that need less load than all smaller ones.
    pub best: bool,
}

// What a circuit costs.
#[derive(Clone, Copy)]
struct Costs {
    latency: u32,
    load: u64,
    muls: u32,
    mems: u64,
}

// What is shown of a slowdown.
#[derive(Clone, Copy)]
struct Row {
    slowdown: u32,
    costs: Costs,
    ins: u32,
    outs: u32,
}

// The row of a slowdown, with the lanes of all parameters and of all results.
fn row_of(slowdown: u32, costs: Costs, s: &StFunc) -> Row {
    let mut ins = 0u32;
    for layout in &s.ins {
        ins = ins.saturating_add(lanes(layout));
    }
    let mut outs = 0u32;
    for item in &s.results {
        if let Some(layout) = layout_of(s, *item as usize) {
            outs = outs.saturating_add(lanes(layout));
        }
    }
    Row {
        slowdown,
        costs,
        ins,
        outs,
    }
}

fn write_head(out: &mut String, csv: bool) -> Result<(), AllocError> {
    if csv {
        out.push_str("slowdown,latency,load,muls,mems,lanes_in,lanes_out\n")
    } else {
        out.push_str("slowdown  latency     load     muls     mems  lanes in  lanes out\n")
    }
}

fn write_row(out: &mut String, csv: bool, row: Row) -> Result<(), AllocError> {
    let Row {
        slowdown,
        costs,
        ins,
        outs,
    } = row;
    let Costs {
        latency,
        load,
        muls,
        mems,
    } = costs;
    if csv {
        writeln!(
            out,
            "{slowdown},{latency},{load},{muls},{mems},{ins},{outs}"
        )
    } else {
        writeln!(
            out,
            "{slowdown:>8} {latency:>8} {load:>8} {muls:>8} {mems:>8} {ins:>9} {outs:>10}"
        )
    }
}

// The labels of a program that only moves words, by its schedule at slowdown 1, where each program has one.
fn kept_labels(alloc: Global, program: &Typed) -> Result<Option<WordLabels>, KitFault>
    ensures { IfOk result (λ o. IfSome o (λ l. AreLabels (program_tree program.now) l)) }
{
    match schedule(alloc, program, Slowdown::one()) {
        Ok(schedule) => {
            let found = labels_of(alloc, program, &schedule)?;
            Ok(found)
        }
        Err(PlanFault::NoSchedule { line: _ }) => Ok(None),
        Err(PlanFault::Memory) => Err(KitFault::Memory),
    }
}

// What the moves of a program cost under a schedule, if that is not too much.
fn moved(
    alloc: Global,
    program: &Typed,
    labels: &WordLabels,
    schedule: &StProgram,
) -> Result<Option<Costs>, KitFault>
    requires schedule { (slowdown : ℕ) × (0 < slowdown) × (slowdown ≤ 4096) × IsSchedule (program_tree program.now) slowdown (st_func_trees schedule.now) }
    requires labels { AreLabels (program_tree program.now) labels.now }
{
    let costs = labels.costs(alloc, program, schedule)?;
    if costs.load > u64::from(LOAD_LIMIT) {
        return Ok(None);
    }
    Ok(Some(Costs {
        latency: costs.latency,
        load: costs.load,
        muls: 0,
        mems: costs.mems,
    }))
}

// What the lines of a program cost under a schedule, if that is not too much.
fn computed(
    alloc: Global,
    schedule: &StProgram,
    moves: &mut KnownMoves,
) -> Result<Option<Costs>, KitFault> {
    match arrivals_reusing(alloc, schedule, LOAD_LIMIT, moves) {
        Ok(timing) => Ok(Some(Costs {
            latency: timing.latency(),
            load: u64::from(timing.load()),
            muls: timing.muls(),
            mems: u64::from(timing.mems()),
        })),
        Err(DelayFault::Large { line: _, load: _ }) => Ok(None),
        Err(DelayFault::Memory) => Err(KitFault::Memory),
    }
}

// The row of a schedule, if its circuit is not too large. The labels of a program that only moves words are made once for all
// slowdowns, and moves of other programs that cost the same at several slowdowns are weighed once.
fn row_under(
    alloc: Global,
    program: &Typed,
    labels: &Option<WordLabels>,
    moves: &mut KnownMoves,
    slowdown: Slowdown,
    schedule: &StProgram,
) -> Result<Option<Row>, KitFault>
    requires schedule { (slowdown : ℕ) × (0 < slowdown) × (slowdown ≤ 4096) × IsSchedule (program_tree program.now) slowdown (st_func_trees schedule.now) }
    requires labels { IfSome labels.now (λ l. AreLabels (program_tree program.now) l) }
{
    let costs = match labels {
        Some(labels) => moved(alloc, program, labels, schedule)?,
        None => computed(alloc, schedule, moves)?,
    };
    match (costs, schedule.instance(schedule.count().saturating_sub(1))) {
        (Some(costs), Some(main)) => Ok(Some(row_of(slowdown.clocks(), costs, main))),
        _ => Ok(None),
    }
}

// The row of a slowdown, where it has a circuit.
fn costed(
    alloc: Global,
    program: &Typed,
    labels: &Option<WordLabels>,
    moves: &mut KnownMoves,
    slowdown: Slowdown,
) -> Result<Option<Row>, KitFault>
    requires { IfSome labels.now (λ l. AreLabels (program_tree program.now) l) }
{
    slowdown.limits();
    match schedule(alloc, program, slowdown) {
        Ok(schedule) => row_under(alloc, program, labels, moves, slowdown, &schedule),
        Err(PlanFault::NoSchedule { line: _ }) => Ok(None),
        Err(PlanFault::Memory) => Err(KitFault::Memory),
    }
}

// A row for each slowdown of a range that has a circuit; each that is tried is told.
fn write_rows<W: Watch>(
    out: &mut String,
    alloc: Global,
    program: &Typed,
    labels: &Option<WordLabels>,
    range: &Range,
    watch: &mut W,
) -> Result<(), KitFault>
    requires { IfSome labels.now (λ l. AreLabels (program_tree program.now) l) }
{
    let mut moves = KnownMoves::new(alloc);
    let mut least = u64::MAX;
    let to = range.to.min(4096);
    for clocks in range.from.max(1)..to.saturating_add(1) {
        let Some(slowdown) = Slowdown::of(clocks) else {
            continue;
        };
        watch.step("slowdown", clocks, to);
        if let Some(row) = costed(alloc, program, labels, &mut moves, slowdown)? {
            if !range.best || row.costs.load < least {
                write_row(out, range.csv, row)?;
            }
            least = least.min(row.costs.load);
        }
    }
    Ok(())
}

// The table of the slowdowns of a program.
fn table_of<W: Watch>(
    alloc: Global,
    program: &Typed,
    labels: &Option<WordLabels>,
    range: &Range,
    watch: &mut W,
) -> Result<String, KitFault>
    requires { IfSome labels.now (λ l. AreLabels (program_tree program.now) l) }
{
    let mut out = String::new(alloc);
    write_head(&mut out, range.csv)?;
    write_rows(&mut out, alloc, program, labels, range, watch)?;
    Ok(out)
}

/// The table of the slowdowns of the program in the input, in order; each that is tried is told.
pub fn table<W: Watch>(
    alloc: Global,
    input: &[u8],
    range: &Range,
    watch: &mut W,
) -> Result<String, KitFault>
    requires { length input.now ≤ 16777216 }
{
    let program = typed(alloc, program_part(input))?;
    let labels = kept_labels(alloc, &program)?;
    table_of(alloc, &program, &labels, range, watch)
}
