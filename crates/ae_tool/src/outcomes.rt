// What a call answers, without its input and output.

ghost use Rattle.std.specs.Prelude.{List, ℕ, IfOk, string_bytes};
ghost use Rattle.ae_tool.specs.Commands.{word_bytes, IsCommand, TakesInput};
ghost use Rattle.ae_tool.specs.Outcomes.{IsOutcome};

use crate::answer::{INPUT_LIMIT, answer};
use crate::command::{Command, command_named, demo_size};
use ae_compile::OutOfMemory;
use ae_jobs::{Reply, Status, demo, refused};
use std::alloc::Global;

// What a job that takes its input answers.
fn done(alloc: Global, command: &Command, bytes: &[u8]) -> Result<Reply, OutOfMemory>
    requires { TakesInput command.now }
    ensures { IfOk result (λ reply. (words : List (List ℕ)) → IsCommand words command.now → IsOutcome words bytes.now reply.status (string_bytes reply.text)) }
{
    if bytes.len() > INPUT_LIMIT {
        return refused(alloc, Status::TooLong);
    }
    answer(alloc, command, bytes)
}

/// What `aeth` answers to these words and this input, and what it writes, where neither its source nor its sink fails; without
/// memory there is no reply.
pub fn outcome(alloc: Global, words: &[String], bytes: &[u8]) -> Result<Reply, OutOfMemory>
    ensures { IfOk result (λ reply. IsOutcome (word_bytes words.now) bytes.now reply.status (string_bytes reply.text)) }
{
    match command_named(words) {
        Some(command) => match demo_size(&command) {
            Some(size) => {
                let text = demo(alloc, size)?;
                Ok(Reply {
                    status: Status::Ok,
                    text,
                })
            }
            None => done(alloc, &command, bytes),
        },
        None => refused(alloc, Status::Usage),
    }
}
