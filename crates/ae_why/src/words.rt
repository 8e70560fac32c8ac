// Why words name no job.

use ae_places::nearest;
use std::alloc::{AllocError, Global};

const JOBS: [&str; 12] = [
    "check", "eval", "plan", "cost", "least", "build", "stall", "run", "wave", "unwave", "sim",
    "demo",
];

const NOTHING: &str = "no word behind it; the input is standard input";

const SLOWDOWN: &str = "one number behind it, the slowdown S";

const RUN: &str = "two numbers behind it, the slowdown S and FILL, what registers begin with";

const SIM: &str = "one number behind it, FILL, what registers begin with";

const DEMO: &str = "one number behind it, N from 1 to 64";

// What each job has behind its word.
const FORMS: [(&str, &str); 12] = [
    ("check", NOTHING),
    ("eval", NOTHING),
    ("plan", SLOWDOWN),
    ("cost", SLOWDOWN),
    ("least", SLOWDOWN),
    ("build", SLOWDOWN),
    ("stall", SLOWDOWN),
    ("run", RUN),
    ("wave", RUN),
    ("unwave", NOTHING),
    ("sim", SIM),
    ("demo", DEMO),
];

fn form_of(job: &str) -> Option<&'static str> {
    for (known, form) in &FORMS {
        if *known == job {
            return Some(*form);
        }
    }
    None
}

// A word that is no job.
fn push_unknown(out: &mut String, job: &str) -> Result<(), AllocError> {
    match nearest(job, &JOBS) {
        Some(other) => writeln!(out, "{job}: no job has this word; the nearest is {other}"),
        None => writeln!(out, "{job}: no job has this word"),
    }
}

/// Why some words name no job.
pub fn bad_words(alloc: Global, words: &[String]) -> Result<String, AllocError> {
    let mut out = String::new(alloc);
    let Some(job) = words.first() else {
        out.push_str("there is no word; the first word names the job\n")?;
        return Ok(out);
    };
    let job = job.as_str();
    match form_of(job) {
        Some(form) => writeln!(
            out,
            "{job} has {form}\nS is 1 to 4096, FILL below 2 to 64; numbers are decimal, without leading zeros"
        )?,
        None => push_unknown(&mut out, job)?,
    }
    Ok(out)
}
