// The evaluator.

use ae_eval::{eval, fits};
use ae_parse::parse;
use ae_seq::{Typed, check};
use ae_seqtype::Value;
use std::alloc::{AllocError, Global};
use table_text::Page;

// Five lines on words of 16 bits, on each word of a sequence of 4,096 rows of four.
const FIVE_LINES: &str = "fn f x:u16
a = add x x
b = mul a x
c = xor b x
d = shr 1 c
e = add d a
end e
fn row x:[4]u16
y = map f x
end y
fn main x:[4096][4]u16
y = map row x
end y
";

// One word, 4,096 times.
const COPIES: &str = "fn main x:[1]u8
y = up 4096 x
end y
";

fn typed(alloc: Global, text: &str) -> Option<Typed> {
    if text.len() > 1000 {
        return None;
    }
    let Ok(program) = parse(alloc, text.as_bytes()) else {
        return None;
    };
    match check(alloc, program) {
        Ok(typed) => Some(typed),
        Err(_) => None,
    }
}

// The words 0, 1, 2 and so on.
fn counted(alloc: Global, count: u64) -> Result<Vec<u64>, AllocError> {
    let mut words = Vec::new(alloc);
    for word in 0..count {
        words.push(word)?;
    }
    Ok(words)
}

// How many words an evaluation answers, and the last of them.
fn answered(alloc: Global, typed: &Typed, inputs: &[Value]) -> Option<(u64, u64)> {
    if !fits(typed, inputs) {
        return None;
    }
    let Ok(results) = eval(alloc, typed, inputs) else {
        return None;
    };
    let words = &results.first()?.words;
    Some((words.len() as u64, *words.last()?))
}

// How many words so many evaluations answer, and the last of them.
fn tell_answers(alloc: Global, out: &mut Page, typed: &Typed, inputs: &[Value], times: u32) {
    let mut count = 0u64;
    let mut last = 0;
    for _ in 0..times {
        if let Some((more, word)) = answered(alloc, typed, inputs) {
            count = count.saturating_add(more);
            last = word;
        }
    }
    out.tell("", &times);
    out.tell(" times, ", &count);
    out.tell_line(" words, the last is ", &last);
}

// Evaluates a program so many times on the words 0, 1, 2 and so on.
fn evaluate(alloc: Global, out: &mut Page, text: &str, words: u64, times: u32) {
    let Some(typed) = typed(alloc, text) else {
        return out.say("no program\n");
    };
    match counted(alloc, words) {
        Ok(words) => tell_answers(alloc, out, &typed, &[Value { words }], times),
        Err(_) => out.cut(),
    }
}

/// Five lines on each of 16,384 words, so many times.
pub fn map(alloc: Global, out: &mut Page, times: u32) {
    evaluate(alloc, out, FIVE_LINES, 16384, times)
}

/// 4,096 copies of a word, so many times.
pub fn up(alloc: Global, out: &mut Page, times: u32) {
    evaluate(alloc, out, COPIES, 1, times)
}
