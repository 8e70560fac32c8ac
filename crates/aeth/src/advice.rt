// What a person may read next, where the compiler refused.

use ae_tool::Status;

// The words of each job. `./aeth --help` prints these lines too, without a build.
const USAGE: &str = "usage: aeth JOB < INPUT > OUTPUT

  check         the type of each line of the program
  eval          the results of the program on each row behind its line %%
  plan S        what its circuit costs, and when and where each item stands
  cost S        what each line of the program costs, as comma-separated values
  least S       of a program that only moves words: the least latency of all modules, and the words that show it
  build S       its circuit as a Verilog module
  stall S       the same with one more input, en: where it is 0, the circuit stands still
  run S FILL    the module of build S, and every word of every clock of its run on the rows
  wave S FILL   that run as a value change dump, behind the module in a comment
  unwave        the words of any value change dump of two-valued words, a line for each time
  sim FILL      every word of every clock of any Verilog module, on the rows behind the line %%
  demo N        the module of a program on 16 * N words, and sums of its run; nothing is read

S, the clocks of a block, is 1 to 4096. FILL, the first word of every register, is 0 to 18446744073709551615.
N is 1 to 64. Numbers are decimal and have no leading zeros.

example: aeth run 1 0 < examples/increment.aeth
More: docs/README.md, the pages in reading order; docs/OUTPUTS.md, what each job writes";

/// What to read about a status; nothing where the whole text was written.
pub fn advice(status: Status) -> Option<&'static str> {
    match status {
        Status::Ok => None,
        Status::Usage => Some(USAGE),
        Status::BadLine { line: _ } => Some(
            "aeth: on this line the text leaves the language: `aethkit why` with these words says where; docs/REFUSED.md, 'bad line'",
        ),
        Status::BadType { line: _ } => Some(
            "aeth: the arguments of this line have other types than its operator takes: `aethkit why` with these words tells them; docs/REFUSED.md, 'bad type'",
        ),
        Status::TooLarge { line: _ } => Some(
            "aeth: this line passes a limit: `aethkit why` with these words says which; docs/LIMITS.md; docs/REFUSED.md, 'too large'",
        ),
        Status::NoSchedule { line: _ } => Some(
            "aeth: a type of this line has no layout in so many clocks: `aethkit why` with these words tells near ones that have; docs/SLOWDOWN.md",
        ),
        Status::BadWords { row: _, column: _ } => Some(
            "aeth: a row has one decimal number for each word of all parameters, each below 2 to its width: `aethkit why` with these words shows which is none; docs/REFUSED.md, 'bad words'",
        ),
        Status::BadModule { fault: _ } => Some(
            "aeth: the text is no module that can be simulated: `aethkit why` with these words says where; docs/VERILOG.md has the whole subset",
        ),
        Status::LongRun { size: _ } => Some(
            "aeth: a run has at most 4194304 words, clock or row numbers among them: `aethkit why` with these words says how many rows fit; docs/LIMITS.md",
        ),
        Status::BadWave { at: _ } => Some(
            "aeth: the word, counted from 0, is the first at which the text is no dump of two-valued words: `aethkit why unwave` shows it; docs/WAVES.md",
        ),
        Status::NotMoves { line: _ } => Some(
            "aeth: this line computes, and `least` takes programs that only move words: `aethkit why` with these words says what it does; docs/FUSED.md",
        ),
        Status::TooLong => Some("aeth: the input has more than 16777216 bytes; docs/LIMITS.md"),
        _ => Some("aeth: docs/REFUSED.md has the usual causes of each answer, and what to try"),
    }
}
