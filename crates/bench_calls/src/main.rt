//! Calls of single layers on inputs as large as is asked, for the scripts of `bench/`, which time them. The first word names
//! the call, and a number behind it says how much: `write CELLS`, `step GROUPS CLOCKS`, `map TIMES`, `up TIMES`,
//! `reversed CLOCKS`, `transposed CLOCKS`; `waves` and `rewrite` read a dump from standard input. `all` makes each call once on
//! something small.
#![tactic(auto)]

mod evaluating;
mod moving;
mod stepping;
mod waving;
mod writing;

use crate::moving::Order;
use std::alloc::Global;
use std::env::{self, Env};
use std::io;
use table_text::Page;

#[derive(Clone, Copy)]
enum Call {
    Write,
    Step,
    Map,
    Up,
    Move(Order),
    Waves,
    Rewrite,
    All,
}

fn call_named(word: &str) -> Option<Call> {
    match word {
        "write" => Some(Call::Write),
        "step" => Some(Call::Step),
        "map" => Some(Call::Map),
        "up" => Some(Call::Up),
        "reversed" => Some(Call::Move(Order::Reversed)),
        "transposed" => Some(Call::Move(Order::Transposed)),
        "waves" => Some(Call::Waves),
        "rewrite" => Some(Call::Rewrite),
        "all" => Some(Call::All),
        _ => None,
    }
}

// The call that the first word names, if it names one.
fn asked<R: Env + Alloc<A = Global>>(rt: &R) -> io::Result<Option<Call>> {
    for word in env::args(rt)?.skip(1) {
        return Ok(call_named(word.as_str()));
    }
    Ok(None)
}

// The number at a place among the words; 1 where there is none.
fn number<R: Env + Alloc<A = Global>>(rt: &R, place: usize) -> io::Result<u32> {
    for word in env::args(rt)?.skip(place) {
        if let Ok(count) = word.as_str().parse::<u32>() {
            return Ok(count);
        }
    }
    Ok(1)
}

// Each call once, on something small.
fn all(alloc: Global, out: &mut Page, dump: &str) {
    writing::write(alloc, out, 3);
    stepping::step(alloc, out, 100, 10);
    evaluating::map(alloc, out, 2);
    evaluating::up(alloc, out, 1);
    moving::build(alloc, out, Order::Reversed, 2);
    waving::read(alloc, out, dump, true);
}

// What a call says; a dump is given to those that want one.
fn answer(alloc: Global, out: &mut Page, call: Call, first: u32, second: u32, dump: &str) {
    match call {
        Call::Write => writing::write(alloc, out, first),
        Call::Step => stepping::step(alloc, out, first, second),
        Call::Map => evaluating::map(alloc, out, first),
        Call::Up => evaluating::up(alloc, out, first),
        Call::Move(order) => moving::build(alloc, out, order, first),
        Call::Waves => waving::read(alloc, out, dump, false),
        Call::Rewrite => waving::read(alloc, out, dump, true),
        Call::All => all(alloc, out, dump),
    }
}

fn main(rt: HostRuntime) -> io::Result<()> {
    let Some(call) = asked(&rt)? else {
        return println!(rt; "no such call");
    };
    let first = number(&rt, 2)?;
    let second = number(&rt, 3)?;
    let dump = match call {
        Call::Waves | Call::Rewrite | Call::All => io::read_to_string(rt.alloc(), rt.reader())?,
        _ => String::new(rt.alloc()),
    };
    let mut out = Page::new(rt.alloc());
    answer(rt.alloc(), &mut out, call, first, second, dump.as_str());
    out.print(&rt)
}
