// One call: what it reads, and what it writes.

ghost use Rattle.std.specs.Prelude.{List, ℕ};
ghost use Rattle.ae_tool.specs.Answers.{Puts, IsMade, Answers};
ghost use Rattle.ae_tool.specs.Commands.{word_bytes, IsCommand, IsDemoSize, TakesInput};

use crate::answer::{INPUT_LIMIT, answer};
use crate::command::{Command, command_named, demo_size};
use ae_io::{LoadFault, PutFault, Sink, Source, load, put_all};
use ae_jobs::{Status, demo};
use std::alloc::Global;

// Writes a text whole and answers the status, or what the sink met.
fn put<K: Sink>(sink: &mut K, text: &[u8], status: Status) -> Status
    ensures { Puts text.now status result (record { written = K.written sink.old; faults = K.faults sink.old; wants = K.wants sink.old; ends = K.ends sink.old }) (record { written = K.written sink.new; faults = K.faults sink.new; wants = K.wants sink.new; ends = K.ends sink.new }) }
{
    match put_all(sink, text) {
        Ok(()) => status,
        Err(PutFault::Write) => Status::WriteFault,
        Err(PutFault::Memory) => Status::Memory,
    }
}

// Reads the input and answers the job.
fn read_and_reply<S: Source, K: Sink>(
    alloc: Global,
    command: &Command,
    source: &mut S,
    sink: &mut K,
) -> Status
    requires { TakesInput command.now }
    ensures { (ws : List (List ℕ)) → IsCommand ws command.now → Answers ws result (record { left = S.left source.old; faults = S.faults source.old }) (record { left = S.left source.new; faults = S.faults source.new }) (record { written = K.written sink.old; faults = K.faults sink.old; wants = K.wants sink.old; ends = K.ends sink.old }) (record { written = K.written sink.new; faults = K.faults sink.new; wants = K.wants sink.new; ends = K.ends sink.new }) }
{
    match load(alloc, source, INPUT_LIMIT) {
        Ok(bytes) => match answer(alloc, command, &bytes) {
            Ok(reply) => put(sink, reply.text.as_bytes(), reply.status),
            Err(_) => put(sink, b"refused memory\n", Status::Memory),
        },
        Err(LoadFault::Read) => put(sink, b"refused read fault\n", Status::ReadFault),
        Err(LoadFault::TooLong) => put(sink, b"refused too long\n", Status::TooLong),
        Err(LoadFault::Memory) => put(sink, b"refused memory\n", Status::Memory),
    }
}

// Writes a demo.
fn make<K: Sink>(alloc: Global, size: u32, sink: &mut K) -> Status
    requires { IsDemoSize size }
    ensures { IsMade size result (record { written = K.written sink.old; faults = K.faults sink.old; wants = K.wants sink.old; ends = K.ends sink.old }) (record { written = K.written sink.new; faults = K.faults sink.new; wants = K.wants sink.new; ends = K.ends sink.new }) }
{
    match demo(alloc, size) {
        Ok(text) => put(sink, text.as_bytes(), Status::Ok),
        Err(_) => put(sink, b"refused memory\n", Status::Memory),
    }
}

// Answers the words.
pub fn serve<S: Source, K: Sink>(
    alloc: Global,
    words: &[String],
    source: &mut S,
    sink: &mut K,
) -> Status
    ensures { Answers (word_bytes words.now) result (record { left = S.left source.old; faults = S.faults source.old }) (record { left = S.left source.new; faults = S.faults source.new }) (record { written = K.written sink.old; faults = K.faults sink.old; wants = K.wants sink.old; ends = K.ends sink.old }) (record { written = K.written sink.new; faults = K.faults sink.new; wants = K.wants sink.new; ends = K.ends sink.new }) }
{
    match command_named(words) {
        Some(command) => match demo_size(&command) {
            Some(size) => make(alloc, size, sink),
            None => read_and_reply(alloc, &command, source, sink),
        },
        None => put(sink, b"refused usage\n", Status::Usage),
    }
}
