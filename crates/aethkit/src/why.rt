// Why `aeth` refuses.

ghost use Rattle.std.specs.Prelude.{◌≡◌, ◌<◌, ◌≤◌, ◌++◌, ℕ, List, IfOk, false, length, string_bytes};
ghost use Rattle.ae_tool.specs.Commands.{word_bytes, IsCommand, TakesInput};
ghost use Rattle.ae_tool.specs.declared.command.Command.{Command as Job};
ghost use Rattle.ae_tool.specs.Outcomes.{IsOutcome, input_limit};
ghost use Rattle.aethkit.specs.Explained.{is_ok, IsExplained};

use ae_chart::load_of_moves;
use ae_compile::{LOAD_LIMIT, OutOfMemory, STALL_LIMIT};
use ae_items::program_part;
use ae_sttype::Slowdown;
use ae_syntax::bad_line;
use ae_tool::{
    Command, Reply, Status, VFaultKind, command_named, demo_size, outcome, refusal_line,
};
use ae_why::{
    ModuleFault, Watch, bad_module, bad_row, bad_sim_row, bad_type, bad_wave, bad_words,
    large_moves, long_run, no_layout, not_moves, too_large,
};
use std::alloc::{AllocError, Global};

// The slowdown that a job asks for; 1 where it asks for none.
fn asked(command: Command) -> Slowdown {
    match command {
        Command::Plan { slowdown }
        | Command::Cost { slowdown }
        | Command::Least { slowdown }
        | Command::Build { slowdown }
        | Command::Stall { slowdown } => slowdown,
        Command::Run { slowdown, fill: _ } | Command::Wave { slowdown, fill: _ } => slowdown,
        Command::Check | Command::Eval | Command::Unwave => Slowdown::one(),
        Command::Sim { fill: _ } => Slowdown::one(),
        Command::Demo { size: _ } => Slowdown::one(),
    }
}

// The same of words.
fn slowdown_of(words: &[String]) -> Slowdown {
    match command_named(words) {
        Some(command) => asked(command),
        None => Slowdown::one(),
    }
}

// The most load of a job.
fn limit_of(words: &[String]) -> u32
    ensures { result ≤ 100000 }
{
    match command_named(words) {
        Some(Command::Stall { slowdown: _ }) => STALL_LIMIT,
        _ => LOAD_LIMIT,
    }
}

fn is_sim(words: &[String]) -> bool {
    matches!(command_named(words), Some(Command::Sim { fill: _ }))
}

/// Whether `aeth` reads its input for these words.
pub fn reads_input(words: &[String]) -> bool {
    match command_named(words) {
        Some(command) => demo_size(&command).is_none(),
        None => false,
    }
}

fn module_fault(fault: VFaultKind) -> ModuleFault {
    match fault {
        VFaultKind::BadToken { at } => ModuleFault::Token(at),
        VFaultKind::BadHeader => ModuleFault::Header,
        VFaultKind::BadItem { item } => ModuleFault::Item(item),
        VFaultKind::Unknown { item } => ModuleFault::Unknown(item),
        VFaultKind::Twice { item } => ModuleFault::Twice(item),
        VFaultKind::Kind { item } => ModuleFault::Kind(item),
        VFaultKind::Undriven { net } => ModuleFault::Undriven(net),
        VFaultKind::Width { item } => ModuleFault::Width(item),
        VFaultKind::Loop { net } => ModuleFault::Loop(net),
        VFaultKind::Large => ModuleFault::Large,
    }
}

// Why a row is not right.
fn wrong_row(
    alloc: Global,
    words: &[String],
    input: &[u8],
    row: u32,
    column: u32,
) -> Result<String, AllocError> {
    if is_sim(words) {
        bad_sim_row(alloc, input, row, column)
    } else {
        bad_row(alloc, program_part(input), input, row, column)
    }
}

// Why a line is too large: of a program that only moves words the load is that of its moves.
fn larger(
    alloc: Global,
    part: &[u8],
    line: u32,
    slowdown: Slowdown,
    limit: u32,
) -> Result<String, AllocError>
    requires { limit ≤ 100000 }
{
    match load_of_moves(alloc, part, slowdown)? {
        Some(load) => large_moves(alloc, part, line, slowdown, load, limit),
        None => too_large(alloc, part, line, slowdown, limit),
    }
}

// What stands behind the line of a status, for each status that there is.
fn explanation<W: Watch>(
    alloc: Global,
    words: &[String],
    input: &[u8],
    status: Status,
    watch: &mut W,
) -> Result<String, AllocError> {
    let part = program_part(input);
    let slowdown = slowdown_of(words);
    match status {
        Status::Usage => bad_words(alloc, words),
        Status::BadLine { line } => bad_line(alloc, part, line),
        Status::BadType { line } => bad_type(alloc, part, line),
        Status::TooLarge { line } => larger(alloc, part, line, slowdown, limit_of(words)),
        Status::NoSchedule { line } => no_layout(alloc, part, line, slowdown, watch),
        Status::BadWords { row, column } => wrong_row(alloc, words, input, row, column),
        Status::BadModule { fault } => bad_module(alloc, part, module_fault(fault)),
        Status::LongRun { size } => long_run(alloc, input, size),
        Status::BadWave { at } => bad_wave(alloc, input, at),
        Status::NotMoves { line } => not_moves(alloc, part, line),
        Status::TooLong => String::from_str(
            alloc,
            "an input has at most 16777216 bytes; give the rows in several parts\n",
        ),
        Status::ReadFault => String::from_str(alloc, "the input could not be read\n"),
        Status::WriteFault => String::from_str(alloc, "the output could not be written\n"),
        Status::Memory => String::from_str(alloc, "there was no memory\n"),
        Status::Ok => Ok(String::new(alloc)),
    }
}

/// Whether nothing is refused.
pub fn is_ok(status: Status) -> bool
    ensures { result ≡ is_ok status }
{
    match status {
        Status::Ok => true,
        _ => false,
    }
}

// A text, and more behind it.
fn joined(text: String, more: &str) -> Result<String, AllocError>
    ensures { IfOk result (λ out. string_bytes out ≡ string_bytes text ++ more.now) }
{
    let mut out = text;
    out.push_str(more)?;
    Ok(out)
}

// The line of a refusal, and behind it why.
fn explained<W: Watch>(
    alloc: Global,
    words: &[String],
    input: &[u8],
    reply: Reply,
    watch: &mut W,
) -> Result<String, OutOfMemory>
    requires refused { is_ok reply.status ≡ false }
    requires outcome { IsOutcome (word_bytes words.now) input.now reply.status (string_bytes reply.text) }
    ensures { IfOk result (λ text. IsExplained (word_bytes words.now) input.now (string_bytes text)) }
{
    let more = explanation(alloc, words, input, reply.status, watch)?;
    let text = joined(reply.text, more.as_str())?;
    Ok(text)
}

/// The answer of `aeth` to these words and this input where it is a refusal, and behind it why; a line that says so where there
/// is nothing to explain. The error comes only for want of memory. A search that may take long tells how far it is.
pub fn why<W: Watch>(
    alloc: Global,
    words: &[String],
    input: &[u8],
    watch: &mut W,
) -> Result<String, OutOfMemory>
    ensures { IfOk result (λ text. IsExplained (word_bytes words.now) input.now (string_bytes text)) }
{
    let reply = outcome(alloc, words, input)?;
    if is_ok(reply.status) {
        let text = String::from_str(alloc, "nothing to explain\n")?;
        return Ok(text);
    }
    explained(alloc, words, input, reply, watch)
}

/// The same of an input that is longer than what is read of it, where the words name a job that takes it.
pub fn too_long<W: Watch>(alloc: Global, watch: &mut W) -> Result<String, AllocError>
    ensures { IfOk result (λ text. (words : List (List ℕ)) (bytes : List ℕ) (job : Job) → IsCommand words job → TakesInput job → input_limit < length bytes → IsExplained words bytes (string_bytes text)) }
{
    let line = refusal_line(alloc, Status::TooLong)?;
    let more = explanation(alloc, &[], &[], Status::TooLong, watch)?;
    joined(line, more.as_str())
}
