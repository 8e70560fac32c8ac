// The jobs `run` and `wave`.

ghost use Rattle.std.specs.Prelude.{◌≡◌, ◌+◌, ◌*◌, ◌/◌, ◌<◌, ◌≤◌, ◌^◌, List, ℕ, length, map, sum_by, All, IfOk, Some, slice_get, string_bytes};
ghost use Rattle.ae_fields.specs.Rows.{rows};
ghost use Rattle.ae_sttype.specs.StTree.{StTree, st_tree};
ghost use Rattle.ae_sttype.specs.Size.{IsInSize};
ghost use Rattle.ae_sttype.specs.Moves.{columns_of};
ghost use Rattle.ae_seq.specs.ProgramTree.{program_tree};
ghost use Rattle.ae_rewrite.specs.StProgramTree.{st_func_tree, st_func_trees};
ghost use Rattle.ae_rewrite.specs.Sound.{item_layouts};
ghost use Rattle.ae_lower.specs.Circuits.{results_of};
ghost use Rattle.ae_play.specs.Lines.{clock_count};
ghost use Rattle.ae_jobs.specs.EvalRows.{AreRows, AreBlocks};
ghost use Rattle.ae_jobs.specs.RunTexts.{IsPlayed, IsRunOf, IsRunText, IsRunShown, input_count, output_count, run_limit, word_count};

use crate::blocks::fed_blocks;
use crate::reply::{RUN_LIMIT, Reply, refused, refused_program};
use crate::status::Status;
use crate::wave_text::wave_text;
use crate::widths::input_widths;
use ae_compile::{Compiled, Costed, LOAD_LIMIT, OutOfMemory, compile, cost, module_text, play};
use ae_delay::layout;
use ae_parse::{RowFault, read_rows};
use ae_play::write_clocks;
use ae_rewrite::StFunc;
use ae_sttype::{Slowdown, StType};
use std::alloc::Global;

/// What a run is written as.
#[derive(Clone, Copy)]
pub enum Form {
    /// A line for each clock.
    Lines,
    /// A value change dump.
    Dump,
}

/// How many clocks a run of so many blocks shows.
pub fn clock_count(slowdown: Slowdown, latency: u32, blocks: usize) -> u64
    requires { blocks < 2 ^ 32 }
    ensures is { result ≡ clock_count slowdown latency blocks }
    ensures few { result < 2 ^ 45 }
{
    if blocks == 0 {
        return 0;
    }
    u64::from(latency) + blocks as u64 * u64::from(slowdown.clocks())
}

// How many words a layout has in a clock.
fn columns(layout: &StType) -> u64
    requires { IsInSize (st_tree layout.now) }
    ensures is { result ≡ columns_of (st_tree layout.now) }
    ensures few { result ≤ 16384 }
{
    u64::from(layout.lanes()) * u64::from(layout.element_words())
}

// How many words the layouts have in a clock.
fn count_columns(layouts: &[StType]) -> u64
    requires sized { All IsInSize (map st_tree layouts.now) }
    requires few { length layouts.now ≤ 8 }
    ensures is { result ≡ sum_by columns_of (map st_tree layouts.now) }
    ensures few { result ≤ 131072 }
{
    let mut count = 0;
    for layout in layouts {
        count += columns(layout);
    }
    count
}

// How many words the layouts of an instance's results have in a clock.
fn count_results(s: &StFunc) -> u64
    requires below { (i r : ℕ) → slice_get (st_func_tree s.now).results i ≡ Some r → r < length (item_layouts (st_func_tree s.now)) }
    requires sized { (q : ℕ) (t : StTree) → slice_get (results_of (st_func_tree s.now)) q ≡ Some t → IsInSize t }
    requires few { length (results_of (st_func_tree s.now)) ≤ 8 }
    ensures is { result ≡ sum_by columns_of (results_of (st_func_tree s.now)) }
    ensures few { result ≤ 131072 }
{
    let mut count = 0;
    for item in &s.results {
        count += columns(layout(s, *item as usize));
    }
    count
}

// How many words all results have in a clock.
fn output_count(costed: &Costed) -> u64
    ensures is { result ≡ output_count (program_tree costed.now.program) costed.now.slowdown }
    ensures few { result ≤ 131072 }
{
    count_results(costed.main_instance())
}

// How many words all parameters have in a clock.
fn input_count(costed: &Costed) -> u64
    ensures is { result ≡ input_count (program_tree costed.now.program) costed.now.slowdown }
    ensures few { result ≤ 131072 }
{
    count_columns(&costed.main_instance().ins)
}

// How many words are written of a clock.
fn word_count(costed: &Costed, form: Form) -> u64
    ensures is { result ≡ word_count form (program_tree costed.now.program) costed.now.slowdown }
    ensures few { result ≤ 262145 }
{
    let outs = output_count(costed);
    match form {
        Form::Lines => outs,
        Form::Dump => 1 + input_count(costed) + outs,
    }
}

// The text of the module, and of its run on the rows: that of the netlist that the text itself is read as.
fn run_text(
    alloc: Global,
    compiled: &Compiled,
    words: &[u64],
    blocks: usize,
    fill: u64,
) -> Result<String, OutOfMemory>
    requires short { clock_count compiled.now.costed.slowdown compiled.now.report.latency blocks < 2 ^ 32 }
    requires rows { (table : List (List (List ℕ))) × AreBlocks (program_tree compiled.now.costed.program) blocks table words.now }
    ensures { IfOk result (λ text. (table : List (List (List ℕ))) → AreBlocks (program_tree compiled.now.costed.program) blocks table words.now
        → IsRunText fill (program_tree compiled.now.costed.program) compiled.now.costed.slowdown (st_func_trees compiled.now.costed.schedule) table (string_bytes text)) }
{
    let mut text = module_text(alloc, compiled)?;
    let played = play(alloc, compiled, text.as_str(), fill)?;
    text.push_str("%% clocks\n")?;
    let told = compiled.report();
    let fed = fed_blocks(compiled, words, blocks, fill);
    write_clocks(alloc, &mut text, &played, &fed, &told.outs, told.latency)?;
    Ok(text)
}

// The text of a run in so many clocks, which are within the limit of its form.
fn shown(
    alloc: Global,
    compiled: &Compiled,
    words: &[u64],
    blocks: usize,
    clocks: u64,
    fill: u64,
    form: Form,
) -> Result<String, OutOfMemory>
    requires clocks { clocks ≡ clock_count compiled.now.costed.slowdown compiled.now.report.latency blocks }
    requires small { clocks * (1 + word_count form (program_tree compiled.now.costed.program) compiled.now.costed.slowdown) ≤ run_limit }
    requires rows { (table : List (List (List ℕ))) × AreBlocks (program_tree compiled.now.costed.program) blocks table words.now }
    ensures { IfOk result (λ text. (table : List (List (List ℕ))) → AreBlocks (program_tree compiled.now.costed.program) blocks table words.now
        → IsRunShown form fill (program_tree compiled.now.costed.program) compiled.now.costed.slowdown (st_func_trees compiled.now.costed.schedule) table (string_bytes text)) }
{
    match form {
        Form::Lines => run_text(alloc, compiled, words, blocks, fill),
        Form::Dump => wave_text(alloc, compiled, words, blocks, clocks, fill),
    }
}

// The reply to rows of words that are right, if the run is not too long.
fn run_words(
    alloc: Global,
    costed: Costed,
    words: &[u64],
    columns: usize,
    fill: u64,
    form: Form,
) -> Result<Reply, OutOfMemory>
    requires rows { (table : List (List (List ℕ))) × AreRows (program_tree costed.program) columns table words.now }
    ensures { IfOk result (λ reply. (table : List (List (List ℕ))) → AreRows (program_tree costed.program) columns table words.now
        → IsRunOf form fill (program_tree costed.program) costed.slowdown (st_func_trees costed.schedule) table reply.status (string_bytes reply.text)) }
{
    let costs = costed.costs();
    let blocks = words.len() / columns;
    let clocks = clock_count(costed.slowdown(), costs.latency(), blocks);
    let size = clocks * (1 + word_count(&costed, form));
    if size > RUN_LIMIT {
        return refused(alloc, Status::LongRun { size });
    }
    let compiled = compile(alloc, costed)?;
    let text = shown(alloc, &compiled, words, blocks, clocks, fill, form)?;
    Ok(Reply {
        status: Status::Ok,
        text,
    })
}

// The reply for a program with costs.
fn run_rows(
    alloc: Global,
    costed: Costed,
    rest: &[u8],
    fill: u64,
    form: Form,
) -> Result<Reply, OutOfMemory>
    requires rest { length rest.now < 2 ^ 32 }
    ensures { IfOk result (λ reply. IsRunOf form fill (program_tree costed.program) costed.slowdown (st_func_trees costed.schedule) (rows rest.now) reply.status (string_bytes reply.text)) }
{
    let program = costed.program();
    let widths = input_widths(alloc, program.program())?;
    match read_rows(alloc, rest, widths.as_slice()) {
        Ok(table) => run_words(
            alloc,
            costed,
            table.words.as_slice(),
            table.columns as usize,
            fill,
            form,
        ),
        Err(RowFault::BadWords { row, column }) => refused(alloc, Status::BadWords { row, column }),
        Err(RowFault::Memory) => Err(OutOfMemory),
    }
}

/// Builds a program part and runs its module on the rows in the rest of the input, written in this form; without memory
/// there is no reply.
pub fn run(
    alloc: Global,
    part: &[u8],
    rest: &[u8],
    slowdown: Slowdown,
    fill: u64,
    form: Form,
) -> Result<Reply, OutOfMemory>
    requires part { length part.now < 4294967295 }
    requires rest { length rest.now < 2 ^ 32 }
    ensures { IfOk result (λ reply. IsPlayed form slowdown fill part.now (rows rest.now) reply.status (string_bytes reply.text)) }
{
    match cost(alloc, part, slowdown, LOAD_LIMIT) {
        Ok(costed) => run_rows(alloc, costed, rest, fill, form),
        Err(fault) => refused_program(alloc, fault),
    }
}
