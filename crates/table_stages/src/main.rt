//! Reads cases, builds the stage that each one names, and prints what it shows of words: each line, and its answer below.
#![tactic(auto)]

mod bench;
mod cases;
mod words;

use cases::answer;
use std::alloc::Global;
use std::io;
use table_text::Page;

// Each line, and the answer to it if it is a case.
fn answers(alloc: Global, out: &mut Page, text: &str) {
    for line in text.lines() {
        out.say(line);
        out.say("\n");
        if !line.is_empty() && !line.starts_with("#") {
            out.say("    ");
            answer(alloc, out, line);
            out.say("\n");
        }
    }
}

fn main(rt: HostRuntime) -> io::Result<()> {
    let text = io::read_to_string(rt.alloc(), rt.reader())?;
    let mut out = Page::new(rt.alloc());
    answers(rt.alloc(), &mut out, text.as_str());
    out.print(&rt)
}
