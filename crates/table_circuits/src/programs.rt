// Circuits of programs.

ghost use Rattle.std.specs.Prelude.{◌<◌, IfSome};
ghost use Rattle.ae_seq.specs.ProgramTree.{program_tree};
ghost use Rattle.ae_eval.specs.Stack.{IsTyped};
ghost use Rattle.ae_rewrite.specs.StProgramTree.{st_func_trees};
ghost use Rattle.ae_flow.specs.Fitted.{AreFitted};

use crate::sizes;
use crate::stepping::step_all;
use ae_delay::arrivals;
use ae_flow::schedules_fit;
use ae_fuse::{Certificate, Fused, fuse};
use ae_lower::{Lowered, lower};
use ae_parse::parse;
use ae_retime::matching;
use ae_rewrite::{StProgram, schedule};
use ae_seq::{Typed, check};
use ae_sttype::Slowdown;
use std::alloc::Global;
use table_text::{Page, number_at, parted, word_at};

// The program of a text with the types of its items.
fn typed(alloc: Global, text: &str) -> Option<Typed>
    ensures { IfSome result (λ t. IsTyped (program_tree t)) }
{
    if text.len() >= 4_294_967_295 {
        return None;
    }
    let Ok(program) = parse(alloc, text.as_bytes()) else {
        return None;
    };
    match check(alloc, program) {
        Ok(typed) => Some(typed),
        Err(_) => None,
    }
}

// The circuit of a schedule, and its latency.
fn lowered(alloc: Global, s: &StProgram) -> Option<(Lowered, u32)>
    requires { AreFitted (st_func_trees s.now) }
{
    let Ok(a) = arrivals(alloc, s) else {
        return None;
    };
    let Ok(slacks) = matching(alloc, s, &a) else {
        return None;
    };
    match lower(alloc, s, &a, &slacks) {
        Ok(lowered) => Some((lowered, a.latency())),
        Err(_) => None,
    }
}

// The circuit of a program under a slowdown, and its latency.
fn circuit(alloc: Global, typed: &Typed, slowdown: Slowdown) -> Option<(Lowered, u32)>
    requires { IsTyped (program_tree typed.now) }
{
    schedules_fit();
    slowdown.limits();
    let Ok(s) = schedule(alloc, typed, slowdown) else {
        return None;
    };
    lowered(alloc, &s)
}

// The latency of a circuit, its marks, and its run on rows of words.
fn tell_latency(out: &mut Page, lowered: &Lowered, latency: u32) {
    out.tell("latency ", &latency);
    out.show(", marks ", &lowered.marks.as_slice());
    out.say("\n");
}

// The circuit of a program, its size where it is limited, and its run on rows of words.
fn tell_circuit(
    alloc: Global,
    out: &mut Page,
    typed: &Typed,
    slowdown: Slowdown,
    head: &str,
    rows: &str,
)
    requires { IsTyped (program_tree typed.now) }
{
    let Some((lowered, latency)) = circuit(alloc, typed, slowdown) else {
        return out.say("no circuit\n");
    };
    tell_latency(out, &lowered, latency);
    if !word_at(head, 3).is_empty() {
        sizes::tell(
            out,
            &lowered.netlist,
            number_at(head, 2),
            number_at(head, 3),
        );
    }
    step_all(alloc, out, &lowered.netlist, rows);
}

// A program as one move for each result.
fn fused(alloc: Global, typed: &Typed, slowdown: Slowdown) -> Option<Fused> {
    slowdown.limits();
    let Ok(s) = schedule(alloc, typed, slowdown) else {
        return None;
    };
    let Ok(moves) = fuse(alloc, typed, &s) else {
        return None;
    };
    moves
}

// The word that shows the latency, and the word that it is.
fn tell_certificate(out: &mut Page, certificate: Option<Certificate>) {
    let Some(c) = certificate else {
        return out.say("no certificate\n");
    };
    out.tell("word ", &c.result);
    out.tell(" ", &c.lane);
    out.tell(" ", &c.word);
    out.tell(" clock ", &c.clock);
    out.tell(" from ", &c.param);
    out.tell(" ", &c.from_lane);
    out.tell(" ", &c.from_word);
    out.tell_line(" clock ", &c.from_clock);
}

// The circuit of a program by its moves, and its run on rows of words.
fn tell_moved(alloc: Global, out: &mut Page, moves: &Fused, rows: &str) {
    if moves.load() > 100_000 {
        return out.say("no moves\n");
    }
    let Ok(lowered) = moves.lower(alloc) else {
        return out.say("no moves\n");
    };
    tell_latency(out, &lowered, moves.latency());
    tell_certificate(out, moves.certificate());
    step_all(alloc, out, &lowered.netlist, rows);
}

// What is asked of a program.
fn tell_asked(alloc: Global, out: &mut Page, typed: &Typed, head: &str, rows: &str)
    requires { IsTyped (program_tree typed.now) }
{
    let Some(slowdown) = Slowdown::of(number_at(head, 1)) else {
        return;
    };
    if word_at(head, 0) == "program" {
        return tell_circuit(alloc, out, typed, slowdown, head, rows);
    }
    match fused(alloc, typed, slowdown) {
        Some(moves) => tell_moved(alloc, out, &moves, rows),
        None => out.say("no moves\n"),
    }
}

/// A program and its circuit under the slowdown in the first line: of its lines, and how it keeps to the numbers of registers
/// and comparisons behind that, or of one move for each result; and the circuit's run.
pub fn tell(alloc: Global, out: &mut Page, head: &str, body: &str) {
    let (text, rows) = parted(body, "%% ");
    out.say(text);
    match typed(alloc, text) {
        Some(typed) => tell_asked(alloc, out, &typed, head, rows),
        None => out.say("no program\n"),
    }
}
