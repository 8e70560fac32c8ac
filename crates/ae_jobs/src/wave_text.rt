// The text of `wave`.

ghost use Rattle.std.specs.Prelude.{◌≡◌, ◌*◌, ◌+◌, ◌<◌, ◌≤◌, ◌^◌, List, ℕ, IfOk, length, map, string_bytes};
ghost use Rattle.std.specs.List.{range_with_len};
ghost use Rattle.ae_seq.specs.ProgramTree.{program_tree};
ghost use Rattle.ae_rewrite.specs.StProgramTree.{st_func_trees};
ghost use Rattle.ae_rewrite.specs.Interface.{parameter_types};
ghost use Rattle.ae_verilog.specs.Notes.{note_tree, noted_module};
ghost use Rattle.ae_verilog.specs.ReportLines.{report_tree};
ghost use Rattle.ae_vread.specs.Spells.{Spells};
ghost use Rattle.ae_play.specs.Lines.{clock_count};
ghost use Rattle.ae_vcd.specs.Waves.{IsFormedWave, wave_tree};
ghost use Rattle.ae_vcd.specs.WaveText.{commented};
ghost use Rattle.ae_correct.specs.ClockTexts.{AreClockWords};
ghost use Rattle.ae_compile.specs.Passes.{IsCompiledProgram};
ghost use Rattle.ae_jobs.specs.declared.run_job.Form.TheVariants.{Dump};
ghost use Rattle.ae_jobs.specs.EvalRows.{AreBlocks};
ghost use Rattle.ae_jobs.specs.Inputs.{blocks_of};
ghost use Rattle.ae_jobs.specs.RunTexts.{run_limit, word_count};
ghost use Rattle.ae_jobs.specs.WaveTexts.{AreWordsOf, IsWaveText, run_wave};

use crate::blocks::fed_blocks;
use ae_compile::{Compiled, OutOfMemory, module_ports, module_text, play};
use ae_play::clock_words;
use ae_vcd::{Wave, comments_are_passed, texts_are_dumps, write_vcd};
use std::alloc::{AllocError, Global};

// The words of all ports in the run of a compiled program's module, whose text this is, on the rows.
fn run_words(
    alloc: Global,
    compiled: &Compiled,
    text: &str,
    words: &[u64],
    blocks: usize,
    fill: u64,
) -> Result<Vec<u64>, OutOfMemory>
    requires short { clock_count compiled.now.costed.slowdown compiled.now.report.latency blocks < 2 ^ 32 }
    requires rows { (table : List (List (List ℕ))) × AreBlocks (program_tree compiled.now.costed.program) blocks table words.now }
    requires text { length text.now < 2 ^ 32 }
    requires spells { Spells text.now (noted_module (map note_tree compiled.now.notes) compiled.now.netlist.cells compiled.now.netlist.outlets (length (report_tree compiled.now.report).outs)) }
    ensures compiled { IsCompiledProgram compiled.now }
    ensures words { IfOk result (λ all. (table : List (List (List ℕ))) → AreBlocks (program_tree compiled.now.costed.program) blocks table words.now
        → AreClockWords (noted_module (map note_tree compiled.now.notes) compiled.now.netlist.cells compiled.now.netlist.outlets (length (report_tree compiled.now.report).outs)) compiled.now.costed.slowdown compiled.now.report.latency fill (report_tree compiled.now.report).ins
        (blocks_of (parameter_types (program_tree compiled.now.costed.program)) table) all.items) }
{
    let told = compiled.report();
    let fed = fed_blocks(compiled, words, blocks, fill);
    let played = play(alloc, compiled, text, fill)?;
    let all = clock_words(alloc, &played, &fed, told.latency)?;
    Ok(all)
}

// The first times.
fn times(alloc: Global, count: u64) -> Result<Vec<u64>, AllocError>
    ensures { IfOk result (λ v. v.items ≡ range_with_len 0 count) }
{
    let mut times = Vec::new(alloc);
    for time in 0..count {
        times.push(time)?;
    }
    Ok(times)
}

// The wave with the words of a run in so many clocks, which are within the limit.
fn run_wave(
    alloc: Global,
    compiled: &Compiled,
    clocks: u64,
    words: Vec<u64>,
) -> Result<Wave, AllocError>
    requires small { clocks * (1 + word_count Dump (program_tree compiled.now.costed.program) compiled.now.costed.slowdown) ≤ run_limit }
    requires words { AreWordsOf (noted_module (map note_tree compiled.now.notes) compiled.now.netlist.cells compiled.now.netlist.outlets (length (report_tree compiled.now.report).outs)) clocks words.items }
    ensures wave { IfOk result (λ w. wave_tree w ≡ run_wave (noted_module (map note_tree compiled.now.notes) compiled.now.netlist.cells compiled.now.netlist.outlets (length (report_tree compiled.now.report).outs)) clocks words.items) }
    ensures formed { IfOk result (λ w. IsFormedWave (wave_tree w)) }
{
    let ports = module_ports(alloc, compiled)?;
    let times = times(alloc, clocks)?;
    Ok(Wave {
        names: ports.names,
        widths: ports.widths,
        times,
        words,
    })
}

// A text behind a comment of whole lines.
fn commented(alloc: Global, note: &str, text: &str) -> Result<String, AllocError>
    ensures { IfOk result (λ whole. string_bytes whole ≡ commented note.now text.now) }
{
    let mut whole = String::from_str(alloc, "$comment\n")?;
    whole.push_str(note)?;
    whole.push_str("$end\n")?;
    whole.push_str(text)?;
    Ok(whole)
}

/// The text of the module in a comment, and the dump of its run on the rows in so many clocks, which are within the limit:
/// that of the netlist that the text itself is read as.
pub fn wave_text(
    alloc: Global,
    compiled: &Compiled,
    words: &[u64],
    blocks: usize,
    clocks: u64,
    fill: u64,
) -> Result<String, OutOfMemory>
    requires clocks { clocks ≡ clock_count compiled.now.costed.slowdown compiled.now.report.latency blocks }
    requires small { clocks * (1 + word_count Dump (program_tree compiled.now.costed.program) compiled.now.costed.slowdown) ≤ run_limit }
    requires rows { (table : List (List (List ℕ))) × AreBlocks (program_tree compiled.now.costed.program) blocks table words.now }
    ensures { IfOk result (λ text. (table : List (List (List ℕ))) → AreBlocks (program_tree compiled.now.costed.program) blocks table words.now
        → IsWaveText fill (program_tree compiled.now.costed.program) compiled.now.costed.slowdown (st_func_trees compiled.now.costed.schedule) table (string_bytes text)) }
{
    comments_are_passed();
    texts_are_dumps();
    let built = module_text(alloc, compiled)?;
    let all = run_words(alloc, compiled, built.as_str(), words, blocks, fill)?;
    let wave = run_wave(alloc, compiled, clocks, all)?;
    let dump = write_vcd(alloc, &wave)?;
    let text = commented(alloc, built.as_str(), dump.as_str())?;
    Ok(text)
}
