// The words that name a job.

ghost use Rattle.std.specs.Prelude.{◌≡◌, ◌∷◌, [], ℕ, ◌<◌, ◌^◌, codes, MatchOption};
ghost use Rattle.std.specs.Fmt.{decimal};
ghost use Rattle.ae_sttype.specs.Slowdowns.{IsSlowdown};
ghost use Rattle.ae_tool.specs.declared.command.Command.TheVariants.{Demo};
ghost use Rattle.ae_tool.specs.Commands.{word_bytes, IsCommand, IsDemoSize, NamesNone, TakesInput, takes_whole};

use ae_parse::number;
use ae_sttype::Slowdown;

/// A job.
#[derive(Clone, Copy)]
pub enum Command {
    /// `check`: the type of each line of the program.
    Check,
    /// `eval`: the program's results on each row.
    Eval,
    /// `plan S`: what the program's circuit costs, and when and how its items arrive.
    Plan { slowdown: Slowdown },
    /// `cost S`: what each node line costs, as a table.
    Cost { slowdown: Slowdown },
    /// `least S`: the least latency of a program that only moves words, and what shows it.
    Least { slowdown: Slowdown },
    /// `build S`: the text of the program's module.
    Build { slowdown: Slowdown },
    /// `stall S`: that text with one more input, `en`, which holds the circuit where it is 0.
    Stall { slowdown: Slowdown },
    /// `run S FILL`: the text of `build S`, and the lines of the module's run on the rows.
    Run { slowdown: Slowdown, fill: u64 },
    /// `wave S FILL`: the same text in a comment, and the module's run on the rows as a value change dump.
    Wave { slowdown: Slowdown, fill: u64 },
    /// `unwave`: the words of the wave that a value change dump holds.
    Unwave,
    /// `sim FILL`: the clock lines of the module that a text spells, on the rows.
    Sim { fill: u64 },
    /// `demo N`: the module of a program that grows with N, and what is summed of its run.
    Demo { size: u32 },
}

/// The job that the words name, if they name one.
pub fn command_named(words: &[String]) -> Option<Command>
    ensures { MatchOption result (NamesNone (word_bytes words.now)) (λ c. IsCommand (word_bytes words.now) c) }
{
    match words {
        [job] => one_word(job.as_str()),
        [job, number] => two_words(job.as_str(), number.as_str()),
        [job, slowdown, fill] => three_words(job.as_str(), slowdown.as_str(), fill.as_str()),
        _ => None,
    }
}

/// The size of a demo, if the job is one.
pub fn demo_size(command: &Command) -> Option<u32>
    ensures { MatchOption result (TakesInput command.now) (λ n. command.now ≡ Demo n) }
{
    match command {
        Command::Demo { size } => Some(*size),
        Command::Check | Command::Eval | Command::Unwave => None,
        Command::Plan { slowdown: _ } => None,
        Command::Cost { slowdown: _ } => None,
        Command::Least { slowdown: _ } => None,
        Command::Build { slowdown: _ } => None,
        Command::Stall { slowdown: _ } => None,
        Command::Run {
            slowdown: _,
            fill: _,
        } => None,
        Command::Wave {
            slowdown: _,
            fill: _,
        } => None,
        Command::Sim { fill: _ } => None,
    }
}

/// Whether the job takes its input as one part, without rows.
pub fn takes_whole(command: &Command) -> bool
    ensures { result ≡ takes_whole command.now }
{
    matches!(command, Command::Unwave)
}

fn one_word(job: &str) -> Option<Command>
    ensures { MatchOption result (NamesNone (job.now ∷ [])) (λ c. IsCommand (job.now ∷ []) c) }
{
    if job == "check" {
        Some(Command::Check)
    } else if job == "eval" {
        Some(Command::Eval)
    } else if job == "unwave" {
        Some(Command::Unwave)
    } else {
        None
    }
}

fn two_words(job: &str, number: &str) -> Option<Command>
    ensures { MatchOption result (NamesNone (job.now ∷ number.now ∷ [])) (λ c. IsCommand (job.now ∷ number.now ∷ []) c) }
{
    if job == "build" {
        build(number)
    } else if job == "stall" {
        stall(number)
    } else if job == "plan" {
        plan(number)
    } else if job == "cost" {
        cost(number)
    } else if job == "least" {
        least(number)
    } else if job == "demo" {
        demo(number)
    } else if job == "sim" {
        sim(number)
    } else {
        None
    }
}

fn build(slowdown: &str) -> Option<Command>
    ensures { MatchOption result (NamesNone (codes "build" ∷ slowdown.now ∷ [])) (λ c. IsCommand (codes "build" ∷ slowdown.now ∷ []) c) }
{
    match slowdown_of(slowdown) {
        Some(slowdown) => Some(Command::Build { slowdown }),
        None => None,
    }
}

fn stall(slowdown: &str) -> Option<Command>
    ensures { MatchOption result (NamesNone (codes "stall" ∷ slowdown.now ∷ [])) (λ c. IsCommand (codes "stall" ∷ slowdown.now ∷ []) c) }
{
    match slowdown_of(slowdown) {
        Some(slowdown) => Some(Command::Stall { slowdown }),
        None => None,
    }
}

fn plan(slowdown: &str) -> Option<Command>
    ensures { MatchOption result (NamesNone (codes "plan" ∷ slowdown.now ∷ [])) (λ c. IsCommand (codes "plan" ∷ slowdown.now ∷ []) c) }
{
    match slowdown_of(slowdown) {
        Some(slowdown) => Some(Command::Plan { slowdown }),
        None => None,
    }
}

fn cost(slowdown: &str) -> Option<Command>
    ensures { MatchOption result (NamesNone (codes "cost" ∷ slowdown.now ∷ [])) (λ c. IsCommand (codes "cost" ∷ slowdown.now ∷ []) c) }
{
    match slowdown_of(slowdown) {
        Some(slowdown) => Some(Command::Cost { slowdown }),
        None => None,
    }
}

fn least(slowdown: &str) -> Option<Command>
    ensures { MatchOption result (NamesNone (codes "least" ∷ slowdown.now ∷ [])) (λ c. IsCommand (codes "least" ∷ slowdown.now ∷ []) c) }
{
    match slowdown_of(slowdown) {
        Some(slowdown) => Some(Command::Least { slowdown }),
        None => None,
    }
}

fn sim(fill: &str) -> Option<Command>
    ensures { MatchOption result (NamesNone (codes "sim" ∷ fill.now ∷ [])) (λ c. IsCommand (codes "sim" ∷ fill.now ∷ []) c) }
{
    match plain_number(fill.as_bytes()) {
        Some(fill) => Some(Command::Sim { fill }),
        None => None,
    }
}

fn demo(size: &str) -> Option<Command>
    ensures { MatchOption result (NamesNone (codes "demo" ∷ size.now ∷ [])) (λ c. IsCommand (codes "demo" ∷ size.now ∷ []) c) }
{
    match size_of(size) {
        Some(size) => Some(Command::Demo { size }),
        None => None,
    }
}

// The slowdown that the digits write without leading zeros.
fn slowdown_of(digits: &str) -> Option<Slowdown>
    ensures { MatchOption result ((s : ℕ) → IsSlowdown s → digits.now ≡ decimal s → ⊥) (λ s. (digits.now ≡ decimal s) × IsSlowdown s) }
{
    match plain_number(digits.as_bytes()) {
        Some(n) => {
            if n <= 4096 {
                Slowdown::of(n as u32)
            } else {
                None
            }
        }
        None => None,
    }
}

// The size of a demo that the digits write without leading zeros.
fn size_of(digits: &str) -> Option<u32>
    ensures { MatchOption result ((s : ℕ) → IsDemoSize s → digits.now ≡ decimal s → ⊥) (λ s. (digits.now ≡ decimal s) × IsDemoSize s) }
{
    match plain_number(digits.as_bytes()) {
        Some(n) => {
            if 1 <= n && n <= 64 {
                let size = n as u32;
                Some(size)
            } else {
                None
            }
        }
        None => None,
    }
}

fn three_words(job: &str, slowdown: &str, fill: &str) -> Option<Command>
    ensures { MatchOption result (NamesNone (job.now ∷ slowdown.now ∷ fill.now ∷ [])) (λ c. IsCommand (job.now ∷ slowdown.now ∷ fill.now ∷ []) c) }
{
    if job == "run" {
        run(slowdown, fill)
    } else if job == "wave" {
        wave(slowdown, fill)
    } else {
        None
    }
}

fn run(slowdown: &str, fill: &str) -> Option<Command>
    ensures { MatchOption result (NamesNone (codes "run" ∷ slowdown.now ∷ fill.now ∷ [])) (λ c. IsCommand (codes "run" ∷ slowdown.now ∷ fill.now ∷ []) c) }
{
    match slowdown_of(slowdown) {
        Some(slowdown) => match plain_number(fill.as_bytes()) {
            Some(fill) => Some(Command::Run { slowdown, fill }),
            None => None,
        },
        None => None,
    }
}

fn wave(slowdown: &str, fill: &str) -> Option<Command>
    ensures { MatchOption result (NamesNone (codes "wave" ∷ slowdown.now ∷ fill.now ∷ [])) (λ c. IsCommand (codes "wave" ∷ slowdown.now ∷ fill.now ∷ []) c) }
{
    match slowdown_of(slowdown) {
        Some(slowdown) => match plain_number(fill.as_bytes()) {
            Some(fill) => Some(Command::Wave { slowdown, fill }),
            None => None,
        },
        None => None,
    }
}

// The number below 2^64 that the bytes write without leading zeros.
fn plain_number(digits: &[u8]) -> Option<u64>
    ensures { MatchOption result ((n : ℕ) → n < 2 ^ 64 → digits.now ≡ decimal n → ⊥) (λ n. digits.now ≡ decimal n) }
{
    if digits.len() > 1 && digits[0] == b'0' {
        return None;
    }
    number(digits)
}
