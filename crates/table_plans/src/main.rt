//! Says what program texts are, and how they are scheduled. Standard input has one case behind the other: a line `== ASKED`,
//! and behind it either lines that are answered one by one, or one program.
#![tactic(auto)]

mod layouts;
mod pieces;
mod programs;
mod replaced;
mod scheduled;
mod spelled;
mod timed;

use crate::spelled::bytes_of;
use std::alloc::{AllocError, Global};
use std::io;
use table_text::{Page, parted, word_at};

// Answers each line; what begins with `##` is a remark.
fn answer_lines(alloc: Global, out: &mut Page, head: &str, text: &str) -> Result<(), AllocError> {
    for line in text.lines() {
        if !line.is_empty() && !line.starts_with("##") {
            out.say(line);
            out.say(" ->");
            pieces::answer(alloc, out, head, line)?;
            out.say("\n");
        }
    }
    Ok(())
}

// Answers what is asked of a program.
fn answer_program(alloc: Global, out: &mut Page, head: &str, text: &str) -> Result<(), AllocError> {
    out.say(text);
    out.say("\n->\n");
    let bytes = bytes_of(alloc, text)?;
    programs::answer(alloc, out, head, &bytes)
}

// Answers a case.
fn answer(alloc: Global, out: &mut Page, case: &str) -> Result<(), AllocError> {
    let (head, text) = parted(case, "\n");
    out.say("== ");
    out.say(head);
    out.say("\n");
    match word_at(head, 0) {
        "read" | "print" | "types" | "instances" | "timings" | "limits" | "moves" => {
            answer_program(alloc, out, head, text)
        }
        _ => answer_lines(alloc, out, head, text),
    }
}

fn main(rt: HostRuntime) -> io::Result<()> {
    let text = io::read_to_string(rt.alloc(), rt.reader())?;
    let mut out = Page::new(rt.alloc());
    for case in text.as_str().split("\n== ").skip(1) {
        let done = answer(rt.alloc(), &mut out, case);
        out.note(done);
    }
    out.print(&rt)
}
