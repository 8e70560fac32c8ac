// The instances of a schedule, its timing, and its moves.

use crate::layouts::tell_layout;
use crate::timed::{tell_each, tell_timing};
use ae_fuse::{Fused, fuse};
use ae_rewrite::{StFunc, StNode, StProgram, schedule};
use ae_seq::Typed;
use ae_sttype::Slowdown;
use std::alloc::{AllocError, Global};
use table_text::Page;

// Line, operator, copies and layout of a node.
fn tell_node(out: &mut Page, node: &StNode) {
    out.tell("; ", &node.line);
    out.show(": ", &node.op);
    out.tell(" x ", &node.copies);
    tell_layout(out, " ", &node.ty);
}

// Function, budget, layouts of parameters, and each node with its copies and its layout.
fn tell_instance(out: &mut Page, f: &StFunc) {
    out.tell("f", &f.func);
    out.tell(" in ", &f.budget);
    for layout in &f.ins {
        tell_layout(out, ", ", layout);
    }
    for node in &f.nodes {
        tell_node(out, node);
    }
    out.say("\n");
}

fn tell_schedule(out: &mut Page, s: &StProgram) {
    out.tell_line("instances ", &s.count());
    for k in 0..100 {
        let Some(f) = s.instance(k) else {
            break;
        };
        tell_instance(out, f);
    }
}

// What the moves cost, and when each item could arrive.
fn tell_moves(out: &mut Page, moves: &Fused) {
    out.tell("latency ", &moves.latency());
    out.tell(", load ", &moves.load());
    out.tell(", mems ", &moves.mems());
    out.say(", arrive");
    for item in 0..100 {
        if !tell_each(out, moves.arrival(item)) {
            break;
        }
    }
    out.say("\n");
}

/// Under the slowdown of so many clocks the timing of the schedule, the moves of a program that only moves, or else the instances.
pub fn tell_at(
    alloc: Global,
    out: &mut Page,
    p: &Typed,
    asked: &str,
    clocks: u32,
) -> Result<(), AllocError> {
    out.tell("slowdown ", &clocks);
    let Some(slowdown) = Slowdown::of(clocks) else {
        out.say(": not asked so\n");
        return Ok(());
    };
    out.say(": ");
    slowdown.limits();
    match schedule(alloc, p, slowdown) {
        Ok(s) => match asked {
            "timings" => tell_timing(alloc, out, &s)?,
            "moves" => match fuse(alloc, p, &s)? {
                Some(moves) => tell_moves(out, &moves),
                None => out.say("more than moves\n"),
            },
            _ => tell_schedule(out, &s),
        },
        Err(fault) => out.tell_line("", &fault),
    }
    Ok(())
}
