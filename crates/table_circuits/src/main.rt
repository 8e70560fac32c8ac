//! A table of cases: each builds a netlist, a call a line, and steps it; printed is what the calls answer and what the
//! outputs show.
#![tactic(auto)]

mod channels;
mod circuits;
mod counters;
mod netlists;
mod nets;
mod plays;
mod programs;
mod sizes;
mod stepping;
mod streams;
mod transfers;

use std::alloc::Global;
use std::io;
use table_text::{Page, word_at};

// One case: its first line says what its other lines are.
fn tell(alloc: Global, out: &mut Page, case: &str) {
    let Some((head, body)) = case.split_once("\n") else {
        return;
    };
    out.say(head);
    out.say("\n");
    match word_at(head, 0) {
        "netlist" => netlists::tell(alloc, out, head, body),
        "tidied" => netlists::tell_tidied(alloc, out, head, body),
        "counters" => counters::tell(alloc, out, head, body),
        "program" | "moved" => programs::tell(alloc, out, head, body),
        "played" => plays::tell(alloc, out, head, body),
        "stream" => streams::tell(alloc, out, head, body),
        _ => (),
    }
}

fn answers(alloc: Global, out: &mut Page, text: &str) {
    for case in text.split("\n\n") {
        tell(alloc, out, case);
        out.say("\n");
    }
}

fn main(rt: HostRuntime) -> io::Result<()> {
    let text = io::read_to_string(rt.alloc(), rt.reader())?;
    let mut out = Page::new(rt.alloc());
    answers(rt.alloc(), &mut out, text.as_str());
    out.print(&rt)
}
