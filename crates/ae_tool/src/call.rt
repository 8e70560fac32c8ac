// The one call of the compiler.

ghost use Rattle.std.specs.Prelude.{◌≡◌, ◌⊎◌, ℕ, true};
ghost use Rattle.ae_io.specs.Counts.{Rose, Same, raised};
ghost use Rattle.ae_io.specs.Told.{Appends};
ghost use Rattle.ae_tool.specs.declared.command.Command.{Command};
ghost use Rattle.ae_tool.specs.declared.command.Command.TheVariants.{Demo};
ghost use Rattle.ae_tool.specs.Commands.{word_bytes, IsCommand, NamesNone};
ghost use Rattle.ae_jobs.specs.Refusals.{refusal_line};
ghost use Rattle.ae_tool.specs.Outcomes.{is_settled, HasOutcome, HasPart, LeavesInput, IsAccepted, RefusesWords};

use crate::serve::serve;
use ae_io::{Sink, Source};
use ae_jobs::Status;
use std::alloc::Global;

/// Answers a job, named by its words: reads the whole input, and writes the job's text or the line of a refusal.
///
/// `Command` lists the jobs; all other words are `Usage`. For these, and for `demo`, nothing is read. With `Ok` the
/// text of `build` and `run` spells a module that is correct for the program in the input, at the slowdown and with the
/// latency that its report lines tell: README.md says in plain words what that is. `run` shows behind it the module's
/// run on the rows in the input, every word of every clock; `sim` shows the run of a module that the input spells, and
/// `demo` sums the run of the module that it writes. `ReadFault` and `WriteFault` come only where the count of faults
/// of the source or sink that was handed in rose in this call; with all other answers but `Memory` the sink met nothing, and
/// its end was told once. `Memory` may stand in place of any answer, in place of `Usage` only where the sink had no memory;
/// it comes either from the sink, or behind its line, whole and ended.
pub fn aeth<S: Source, K: Sink>(
    alloc: Global,
    words: &[String],
    source: &mut S,
    sink: &mut K,
) -> Status
    ensures outcome { is_settled result ≡ true → HasOutcome (word_bytes words.now) result (S.left source.old) (K.written sink.old) (K.written sink.new) }
    ensures part { HasPart (word_bytes words.now) (S.left source.old) (K.written sink.old) (K.written sink.new) (S.faults source.old) (S.faults source.new) }
    ensures complete { (command : Command) → IsCommand (word_bytes words.now) command → (Rose (S.faults source.old) (S.faults source.new) → ⊥) → (Rose (K.faults sink.old) (K.faults sink.new) → ⊥)
        → IsAccepted command (S.left source.old) → (result ≡ Status.Ok) ⊎ (result ≡ Status.Memory) }
    ensures demo { (size : ℕ) → IsCommand (word_bytes words.now) (Demo size) → (Rose (K.faults sink.old) (K.faults sink.new) → ⊥) → (result ≡ Status.Ok) ⊎ (result ≡ Status.Memory) }
    ensures takes_nothing { (size : ℕ) → IsCommand (word_bytes words.now) (Demo size) → (S.left source.new ≡ S.left source.old) × (S.faults source.new ≡ S.faults source.old) }
    ensures left { (command : Command) → is_settled result ≡ true → IsCommand (word_bytes words.now) command → LeavesInput command result (S.left source.old) (S.left source.new) }
    ensures ended { (result ≡ Status.WriteFault → ⊥) → (result ≡ Status.Memory → ⊥) → K.ends sink.new ≡ raised (K.ends sink.old) }
    ensures no_fault { (result ≡ Status.WriteFault → ⊥) → (result ≡ Status.Memory → ⊥) → Same (K.faults sink.old) (K.faults sink.new) }
    ensures no_want { (result ≡ Status.WriteFault → ⊥) → (result ≡ Status.Memory → ⊥) → Same (K.wants sink.old) (K.wants sink.new) }

    ensures usage { result ≡ Status.Usage → NamesNone (word_bytes words.now) }
    ensures other_words { NamesNone (word_bytes words.now) → RefusesWords result (K.faults sink.old) (K.faults sink.new) (K.wants sink.old) (K.wants sink.new) }
    ensures untouched { NamesNone (word_bytes words.now) → (S.left source.new ≡ S.left source.old) × (S.faults source.new ≡ S.faults source.old) }

    ensures read { result ≡ Status.ReadFault → Rose (S.faults source.old) (S.faults source.new) }
    ensures read_line { result ≡ Status.ReadFault → Appends (K.written sink.old) (K.written sink.new) (refusal_line Status.ReadFault) }
    ensures write { result ≡ Status.WriteFault → Rose (K.faults sink.old) (K.faults sink.new) }
    ensures memory { result ≡ Status.Memory → Rose (K.wants sink.old) (K.wants sink.new)
        ⊎ (Appends (K.written sink.old) (K.written sink.new) (refusal_line Status.Memory) × (K.ends sink.new ≡ raised (K.ends sink.old))) }
{
    serve(alloc, words, source, sink)
}
