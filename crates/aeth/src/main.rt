//! The compiler as a program: its words name a job, standard input is the job's input and standard output its result. On
//! standard error it says more about a refusal, to a person; no other program has to read that.
#![tactic(auto)]

mod advice;

use advice::advice;
use ae_io::{StdSink, StdSource};
use ae_tool::aeth;
use std::alloc::Global;
use std::env::{self, Env};
use std::io;
use std::process::ExitCode;

// The status of a program without memory.
const NO_MEMORY: u8 = 12;

// The words behind the program's name.
fn words<R: Env + Alloc<A = Global>>(rt: &R) -> io::Result<Vec<String>> {
    let mut words = Vec::new(rt.alloc());
    for word in env::args(rt)?.skip(1) {
        words.push(word)?;
    }
    Ok(words)
}

fn main(rt: HostRuntime) -> ExitCode {
    let words = match words(&rt) {
        Ok(words) => words,
        Err(e) if e.kind() == io::ErrorKind::OutOfMemory => return ExitCode::from(NO_MEMORY),
        // A word that is no UTF-8 names no job, and neither do no words.
        Err(_) => Vec::new(rt.alloc()),
    };
    let mut source = StdSource::new(rt.reader());
    let mut sink = StdSink::new(io::writer(&rt));
    let status = aeth(rt.alloc(), &words, &mut source, &mut sink);
    if let Some(text) = advice(status) {
        // Where standard error is closed, nobody wants to read it.
        let _ = rt.eprintln(text);
    }
    ExitCode::from(status.number())
}
