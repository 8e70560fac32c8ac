//! A second program beside the compiler: why an input is refused, which slowdowns a program has, what its layouts look like, how
//! long its chains of operators are, a test bench for its module and a wrapper around that. It asks the passes of the compiler
//! themselves, and takes no text of the compiler apart.
//!
//! The exit status is 0 where the whole text was written, 1 where the words ask for nothing, 2 where the input is refused, 9
//! where reading and 10 where writing failed, and 12 where there was no memory.
#![tactic(auto)]

mod circuits;
mod keywords;
mod progress;
mod renamed;
mod request;
mod top;
mod usage;
mod why;

use crate::circuits::{bench, drawn, notes, paths, stream};
use crate::progress::Progress;
use crate::request::{Picture, Request, request_of};
use crate::top::top;
use ae_chart::table;
use ae_io::{LoadFault, StdSink, StdSource, load, put_all};
use ae_items::KitFault;
use ae_sttype::Slowdown;
use ae_why::Watch;
use std::alloc::{AllocError, Global};
use std::env::{self, Env};
use std::io::{self, IsTerminal};
use std::process::ExitCode;

// The most bytes of an input.
const INPUT_LIMIT: usize = 16_777_216;

// The words behind the program's name.
fn words<R: Env + Alloc<A = Global>>(rt: &R) -> io::Result<Vec<String>> {
    let mut words = Vec::new(rt.alloc());
    for word in env::args(rt)?.skip(1) {
        words.push(word)?;
    }
    Ok(words)
}

// The words behind the request's own.
fn behind(words: &[String]) -> &[String] {
    match words {
        [_, rest @ ..] => rest,
        [] => words,
    }
}

// Whether a request takes the input.
fn reads_input(request: &Request, words: &[String]) -> bool {
    match request {
        Request::Why => why::reads_input(behind(words)),
        Request::Draw { is_alone, .. } => !*is_alone,
        _ => true,
    }
}

// The last word.
fn last(words: &[String]) -> &str {
    match words.last() {
        Some(word) => word.as_str(),
        None => "",
    }
}

// A program with one parameter of the type that is spelled so.
fn alone(alloc: Global, spelled: &str) -> Result<String, AllocError> {
    format!(in alloc; "aeth 2\nfn main type:{spelled}\nend type\n")
}

// A picture of the layouts of a type alone.
fn drawn_alone(
    alloc: Global,
    spelled: &str,
    slowdown: Slowdown,
    picture: Picture,
) -> Result<String, KitFault> {
    let program = alone(alloc, spelled)?;
    if program.len() > INPUT_LIMIT {
        return Err(KitFault::TooLong);
    }
    drawn(alloc, program.as_bytes(), slowdown, picture)
}

// The name that a module gets.
fn name_in(words: &[String], is_named: bool) -> &str {
    if is_named { last(words) } else { "aeth" }
}

// What is answered to a request on an input.
fn answer<W: Watch>(
    alloc: Global,
    request: &Request,
    words: &[String],
    input: &[u8],
    watch: &mut W,
) -> Result<String, KitFault> {
    if input.len() > INPUT_LIMIT {
        return Err(KitFault::TooLong);
    }
    match request {
        Request::Why => Ok(why::why(alloc, behind(words), input, watch)?),
        Request::Slowdowns(range) => table(alloc, input, range, watch),
        Request::Draw {
            slowdown,
            picture,
            is_alone,
        } => {
            if *is_alone {
                drawn_alone(alloc, last(words), *slowdown, *picture)
            } else {
                drawn(alloc, input, *slowdown, *picture)
            }
        }
        Request::Notes { slowdown, form } => notes(alloc, input, *slowdown, *form),
        Request::Top { slowdown, is_named } => {
            top(alloc, input, *slowdown, name_in(words, *is_named))
        }
        Request::Stream { slowdown, is_named } => {
            stream(alloc, input, *slowdown, name_in(words, *is_named))
        }
        Request::Paths { slowdown, most } => paths(alloc, input, *slowdown, *most),
        Request::Bench {
            slowdown,
            fill,
            dumps,
        } => bench(alloc, input, *slowdown, *fill, *dumps, watch),
    }
}

// What is answered to a request on what was read.
fn answer_read<W: Watch>(
    alloc: Global,
    request: &Request,
    words: &[String],
    read: Result<Vec<u8>, LoadFault>,
    watch: &mut W,
) -> Result<String, KitFault> {
    match read {
        Ok(bytes) => answer(alloc, request, words, &bytes, watch),
        Err(LoadFault::Read) => Err(KitFault::Read),
        Err(LoadFault::TooLong) => match request {
            Request::Why => Ok(why::too_long(alloc, watch)?),
            _ => Err(KitFault::TooLong),
        },
        Err(LoadFault::Memory) => Err(KitFault::Memory),
    }
}

fn main(rt: HostRuntime) -> ExitCode {
    let alloc = rt.alloc();
    let words = match words(&rt) {
        Ok(words) => words,
        Err(_) => Vec::new(alloc),
    };
    let Some(request) = request_of(&words) else {
        let _ = rt.eprintln(usage::USAGE);
        return ExitCode::from(1);
    };
    let mut progress = Progress::new(&rt, rt.stderr().is_terminal());
    let answered = if reads_input(&request, &words) {
        let mut source = StdSource::new(rt.reader());
        let read = load(alloc, &mut source, INPUT_LIMIT);
        answer_read(alloc, &request, &words, read, &mut progress)
    } else {
        answer(alloc, &request, &words, &[], &mut progress)
    };
    progress.clear();
    match answered {
        Ok(text) => {
            let mut sink = StdSink::new(io::writer(&rt));
            match put_all(&mut sink, text.as_bytes()) {
                Ok(()) => ExitCode::from(0),
                Err(_) => ExitCode::from(10),
            }
        }
        Err(fault) => {
            let _ = eprintln!(rt; "aethkit: {fault}");
            ExitCode::from(fault.number())
        }
    }
}
