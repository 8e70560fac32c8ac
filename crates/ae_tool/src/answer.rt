// What a job answers to an input.

ghost use Rattle.std.specs.Prelude.{◌<◌, ◌≤◌, ◌^◌, IfOk, length, string_bytes};
ghost use Rattle.ae_fields.specs.Rows.{rows};
ghost use Rattle.ae_tool.specs.Commands.{TakesInput, takes_whole};
ghost use Rattle.ae_tool.specs.Cuts.{AreParts, IsCut};
ghost use Rattle.ae_tool.specs.Outcomes.{IsReply, IsDone};

use crate::command::{Command, takes_whole};
use ae_compile::OutOfMemory;
use ae_jobs::{
    Form, Reply, build, check, cost_of_lines, eval, least, plan, run, simulate, stall, unwave,
};
use ae_parse::split;
use std::alloc::Global;

/// The most bytes of an input.
pub const INPUT_LIMIT: usize = 16_777_216;

// The two parts of an input: the program, and the text of the rows.
fn cut(bytes: &[u8]) -> (&[u8], &[u8])
    ensures parts { IsCut bytes.now result.0.now (rows result.1.now) }
    ensures shorter { (length result.0.now ≤ length bytes.now) × (length result.1.now ≤ length bytes.now) }
{
    match split(bytes) {
        (end, Some(start)) => (&bytes[..end], &bytes[start..]),
        (end, None) => (&bytes[..end], &bytes[end..]),
    }
}

// The parts that a job takes its input as.
fn parts<'a>(command: &Command, bytes: &'a [u8]) -> (&'a [u8], &'a [u8])
    ensures parts { AreParts (takes_whole command.now) bytes.now result.0.now (rows result.1.now) }
    ensures shorter { (length result.0.now ≤ length bytes.now) × (length result.1.now ≤ length bytes.now) }
{
    if takes_whole(command) {
        (bytes, &bytes[bytes.len()..])
    } else {
        cut(bytes)
    }
}

fn answer_parts(
    alloc: Global,
    command: &Command,
    part: &[u8],
    rest: &[u8],
) -> Result<Reply, OutOfMemory>
    requires takes { TakesInput command.now }
    requires part { length part.now < 4294967295 }
    requires rest { length rest.now < 2 ^ 32 }
    ensures { IfOk result (λ reply. IsReply command.now part.now (rows rest.now) reply.status (string_bytes reply.text)) }
{
    match command {
        Command::Check => check(alloc, part),
        Command::Eval => eval(alloc, part, rest),
        Command::Plan { slowdown } => plan(alloc, part, *slowdown),
        Command::Cost { slowdown } => cost_of_lines(alloc, part, *slowdown),
        Command::Least { slowdown } => least(alloc, part, *slowdown),
        Command::Build { slowdown } => build(alloc, part, *slowdown),
        Command::Stall { slowdown } => stall(alloc, part, *slowdown),
        Command::Run { slowdown, fill } => run(alloc, part, rest, *slowdown, *fill, Form::Lines),
        Command::Wave { slowdown, fill } => run(alloc, part, rest, *slowdown, *fill, Form::Dump),
        Command::Unwave => unwave(alloc, part),
        Command::Demo { size: _ } => unreachable!(),
        Command::Sim { fill } => simulate(alloc, part, rest, *fill),
    }
}

/// What a job that takes its input answers to one within the limit; without memory there is no reply.
pub fn answer(alloc: Global, command: &Command, bytes: &[u8]) -> Result<Reply, OutOfMemory>
    requires takes { TakesInput command.now }
    requires few { length bytes.now < 4294967295 }
    ensures { IfOk result (λ reply. IsDone command.now bytes.now reply.status (string_bytes reply.text)) }
{
    let (part, rest) = parts(command, bytes);
    answer_parts(alloc, command, part, rest)
}
