// What a schedule costs, when its items arrive, and how long they wait.

ghost use Rattle.std.specs.Prelude.{◌≤◌};

use ae_delay::{Timing, arrivals, arrivals_within};
use ae_retime::{Slacks, matching};
use ae_rewrite::{StProgram, schedule};
use ae_seq::Typed;
use ae_sttype::Slowdown;
use std::alloc::{AllocError, Global};
use table_text::Page;

// More than a table has.
const MANY: u32 = 100;

/// A number, if there is one; whether there was.
pub fn tell_each(out: &mut Page, number: Option<u32>) -> bool {
    match number {
        Some(number) => {
            out.tell(" ", &number);
            true
        }
        None => false,
    }
}

fn tell_costs(out: &mut Page, t: &Timing) {
    out.tell("latency ", &t.latency());
    out.tell(", muls ", &t.muls());
    out.tell(", load ", &t.load());
    out.tell_line(", mems ", &t.mems());
    for node in 0..MANY {
        let Some(cost) = t.cost(node) else {
            break;
        };
        out.tell("node ", &node);
        out.show(": ", &cost);
        out.say("\n");
    }
}

// The arrivals of the items of an instance, one by one and together.
fn tell_arrivals(out: &mut Page, t: &Timing, k: u32) {
    out.say("arrive");
    for item in 0..MANY {
        if !tell_each(out, t.at(k, item)) {
            break;
        }
    }
    if let Some(all) = t.arrivals(k) {
        out.show(", ", &all);
        out.say("; ");
    }
}

// The longest delays of the items of an instance.
fn tell_chains(out: &mut Page, w: &Slacks, k: u32) {
    out.say("are kept");
    for item in 0..MANY {
        if !tell_each(out, w.chain(k, item)) {
            break;
        }
    }
    out.say("\n");
}

// How long the arguments of a node wait, one by one and together.
fn tell_waits(out: &mut Page, w: &Slacks, k: u32, node: u32, waits: &[u32]) {
    out.tell("node ", &node);
    out.tell(" of ", &k);
    out.say(" waits");
    for arg in 0..MANY {
        if !tell_each(out, w.slack(k, node, arg)) {
            break;
        }
    }
    out.show(", ", &waits);
    out.say("\n");
}

fn tell_nodes(out: &mut Page, w: &Slacks, k: u32) {
    for node in 0..MANY {
        let Some(waits) = w.waits(k, node) else {
            break;
        };
        tell_waits(out, w, k, node, waits);
    }
}

// The items, nodes and results of an instance.
fn tell_instance(out: &mut Page, t: &Timing, w: &Slacks, k: u32, waits: &[u32]) {
    out.tell("items of ", &k);
    out.say(" ");
    tell_arrivals(out, t, k);
    tell_chains(out, w, k);
    tell_nodes(out, w, k);
    out.tell("results of ", &k);
    out.show(" wait ", &waits);
    out.say("\n");
}

// How long the results of the program function wait.
fn tell_results(out: &mut Page, w: &Slacks) {
    out.say("results wait");
    for result in 0..MANY {
        if !tell_each(out, w.result_slack(result)) {
            break;
        }
    }
    out.say("\n");
}

fn tell_slacks(out: &mut Page, t: &Timing, w: &Slacks) {
    for k in 0..MANY {
        let Some(waits) = w.result_waits(k) else {
            break;
        };
        tell_instance(out, t, w, k, waits);
    }
    tell_results(out, w);
}

/// The timing of a schedule, and its slacks.
pub fn tell_timing(alloc: Global, out: &mut Page, s: &StProgram) -> Result<(), AllocError> {
    match arrivals(alloc, s) {
        Ok(t) => {
            tell_costs(out, &t);
            tell_slacks(out, &t, &matching(alloc, s, &t)?);
        }
        Err(fault) => out.tell_line("", &fault),
    }
    Ok(())
}

fn tell_within(alloc: Global, out: &mut Page, s: &StProgram, limit: u32)
    requires { limit ≤ 100000 }
{
    match arrivals_within(alloc, s, limit) {
        Ok(t) => {
            tell_arrivals(out, &t, 0);
            tell_costs(out, &t);
        }
        Err(fault) => out.tell_line("", &fault),
    }
}

/// What comes out under a limit of the load, at slowdown 1.
pub fn tell_limit(alloc: Global, out: &mut Page, p: &Typed, limit: u32) {
    out.tell("limit ", &limit);
    if limit > 100_000 {
        return out.say(": not asked so\n");
    }
    out.say(": ");
    match schedule(alloc, p, Slowdown::one()) {
        Ok(s) => tell_within(alloc, out, &s, limit),
        Err(fault) => out.tell_line("", &fault),
    }
}
