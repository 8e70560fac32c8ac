//! Answers each line of its input by a public call on words, types, layouts or moves: the line comes again, with the answer
//! behind it. A line that begins otherwise comes as it is, so what it says of the next ones stands beside their answers.
#![tactic(auto)]

mod layouts;
mod moves;
mod reader;
mod types;
mod words;

use std::alloc::Global;
use std::io;
use table_text::{Page, parted};

fn answer(alloc: Global, out: &mut Page, line: &str) {
    let (kind, text) = parted(line, " ");
    match kind {
        "word" => words::results(out, text),
        "operator" => words::traits(out, text),
        "type" => types::sizes(alloc, out, text),
        "same" => types::same(alloc, out, text),
        "fits" => types::fits(alloc, out, text),
        "size" => layouts::size(alloc, out, text),
        "layout" => layouts::places(alloc, out, text),
        "rows" => layouts::rows(alloc, out, text),
        "trips" => moves::costs(alloc, out, text),
        "move" => moves::trips(alloc, out, text),
        "memories" => moves::memories(out, text),
        _ => (),
    }
}

fn answers(alloc: Global, out: &mut Page, text: &str) {
    for line in text.lines() {
        out.say(line);
        answer(alloc, out, line);
        out.say("\n");
    }
}

fn main(rt: HostRuntime) -> io::Result<()> {
    let text = io::read_to_string(rt.alloc(), rt.reader())?;
    let mut out = Page::new(rt.alloc());
    answers(rt.alloc(), &mut out, text.as_str());
    out.print(&rt)
}
