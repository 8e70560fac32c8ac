// The job `demo`.

ghost use Rattle.std.specs.Prelude.{◌≡◌, ◌+◌, ◌*◌, ◌<◌, ◌≤◌, ◌^◌, ◌++◌, ℕ, List, IfOk, OnOk, codes, string_bytes};
ghost use Rattle.ae_seq.specs.ProgramTree.{program_tree};
ghost use Rattle.ae_rewrite.specs.StProgramTree.{st_func_trees};
ghost use Rattle.ae_play.specs.Lines.{clock_count};
ghost use Rattle.ae_jobs.specs.EvalRows.{AreBlocks};
ghost use Rattle.ae_jobs.specs.PlanTexts.{counted_line};
ghost use Rattle.ae_compile.specs.Costing.{IsCosted, load_limit};
ghost use Rattle.ae_jobs.specs.DemoTexts.{IsDemoText, IsSummedRun, demo_program, demo_slowdown, demo_words, summary};

use crate::blocks::fed_blocks;
use crate::run_job::clock_count;
use ae_compile::{
    CompileFault, Compiled, Costed, LOAD_LIMIT, OutOfMemory, compile, cost, module_text, play,
};
use ae_demo::demos_are_accepted;
use ae_play::{Sums, sum_clocks};
use ae_sttype::Slowdown;
use itoa::Buffer;
use std::alloc::{AllocError, Global};

// The text of the program.
fn program_text(alloc: Global, size: u32) -> Result<String, AllocError>
    requires { size ≤ 64 }
    ensures { IfOk result (λ text. string_bytes text ≡ demo_program size) }
{
    let mut text = String::from_str(alloc, "fn sum x:u16 y:u16\nz = add x y\nend z\nfn main a:[")?;
    text.push_str(Buffer::new().format(16 * size))?;
    text.push_str("]u16\nb = shift 1 a\nc = map2 sum a b\nd = reduce add c\nend d\n")?;
    Ok(text)
}

// The words of all blocks, one behind the other.
fn input_words(alloc: Global, size: u32) -> Result<Vec<u64>, AllocError>
    requires { size ≤ 64 }
    ensures { IfOk result (λ words. words.items ≡ demo_words size) }
{
    let mut words = Vec::new(alloc);
    for k in 0..2 * size * (16 * size) {
        words.push(u64::from((size + 37 * k) % 65536))?;
    }
    Ok(words)
}

fn write_number(out: &mut String, words: &str, number: u128) -> Result<(), AllocError>
    ensures { OnOk result (string_bytes out.new ≡ string_bytes out.old ++ counted_line words.now number) }
{
    out.push_str(words)?;
    out.push_str(" ")?;
    out.push_str(Buffer::new().format(number))?;
    out.push_str("\n")?;
    Ok(())
}

// The lines of the summary.
fn write_summary(
    out: &mut String,
    size: u32,
    latency: u32,
    clocks: u64,
    sums: Sums,
) -> Result<(), AllocError>
    ensures { OnOk result (string_bytes out.new ≡ string_bytes out.old ++ summary size latency clocks sums) }
{
    write_number(out, "demo", u128::from(size))?;
    write_number(out, "latency", u128::from(latency))?;
    write_number(out, "clocks", u128::from(clocks))?;
    write_number(out, "valid", u128::from(sums.valid))?;
    write_number(out, "sum", sums.valid_sum)?;
    write_number(out, "all", sums.whole_sum)
}

// The text, and the summary behind it.
fn with_summary(
    text: String,
    size: u32,
    latency: u32,
    clocks: u64,
    sums: Sums,
) -> Result<String, OutOfMemory>
    ensures { IfOk result (λ whole. string_bytes whole ≡ (string_bytes text ++ codes "%% summary\n") ++ summary size latency clocks sums) }
{
    let mut whole = text;
    whole.push_str("%% summary\n")?;
    write_summary(&mut whole, size, latency, clocks, sums)?;
    Ok(whole)
}

// The text of the module, and the sums of its run on the rows: that of the netlist that the text itself is read as.
fn summed(
    alloc: Global,
    compiled: &Compiled,
    words: &[u64],
    blocks: usize,
    fill: u64,
) -> Result<(String, Sums), OutOfMemory>
    requires short { clock_count compiled.now.costed.slowdown compiled.now.report.latency blocks < 2 ^ 32 }
    requires rows { (table : List (List (List ℕ))) × AreBlocks (program_tree compiled.now.costed.program) blocks table words.now }
    ensures { IfOk result (λ r. (table : List (List (List ℕ))) → AreBlocks (program_tree compiled.now.costed.program) blocks table words.now
        → IsSummedRun fill (program_tree compiled.now.costed.program) compiled.now.costed.slowdown (st_func_trees compiled.now.costed.schedule) table (string_bytes r.0) r.1) }
{
    let text = module_text(alloc, compiled)?;
    let played = play(alloc, compiled, text.as_str(), fill)?;
    let told = compiled.report();
    let fed = fed_blocks(compiled, words, blocks, fill);
    let sums = sum_clocks(alloc, &played, &fed, &told.outs, told.latency)?;
    Ok((text, sums))
}

// The text of the module, and the summary of its run.
fn demo_text(alloc: Global, costed: Costed, size: u32) -> Result<String, OutOfMemory>
    requires some { 1 ≤ size }
    requires limit { size ≤ 64 }
    requires is { costed.slowdown ≡ demo_slowdown size }
    requires costed { IsCosted load_limit (demo_program size) (demo_slowdown size) (program_tree costed.program) (st_func_trees costed.schedule) }
    ensures { IfOk result (λ text. IsDemoText size (string_bytes text)) }
{
    demos_are_accepted();
    let blocks = (2 * size) as usize;
    let latency = costed.costs().latency();
    let clocks = clock_count(costed.slowdown(), latency, blocks);
    let words = input_words(alloc, size)?;
    let compiled = compile(alloc, costed)?;
    let (text, sums) = summed(alloc, &compiled, &words, blocks, 0)?;
    with_summary(text, size, latency, clocks, sums)
}

// What is left of a program's faults where it is accepted.
fn memory_alone(fault: CompileFault) -> OutOfMemory
    requires { fault ≡ CompileFault.Memory }
{
    match fault {
        CompileFault::Memory => OutOfMemory,
        _ => unreachable!(),
    }
}

// The slowdown of a demo.
fn slowdown_of(size: u32) -> Slowdown
    requires some { 1 ≤ size }
    requires limit { size ≤ 64 }
    ensures { result ≡ demo_slowdown size }
{
    match Slowdown::of(4 * size) {
        Some(slowdown) => slowdown,
        None => unreachable!(),
    }
}

/// The text of the module of the generated program of a size, and the summary of its run on the generated input; without
/// memory there is no text. The program is refused at no size, by a law.
pub fn demo(alloc: Global, size: u32) -> Result<String, OutOfMemory>
    requires some { 1 ≤ size }
    requires limit { size ≤ 64 }
    ensures { IfOk result (λ text. IsDemoText size (string_bytes text)) }
{
    demos_are_accepted();
    let part = program_text(alloc, size)?;
    match cost(alloc, part.as_bytes(), slowdown_of(size), LOAD_LIMIT) {
        Ok(costed) => demo_text(alloc, costed, size),
        Err(fault) => Err(memory_alone(fault)),
    }
}
