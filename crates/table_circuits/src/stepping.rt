// Netlists stepped clock by clock.

ghost use Rattle.std.specs.Prelude.{◌≡◌, ◌<◌, length};

use ae_gates::width_at;
use ae_netlist::Netlist;
use ae_sim::Sim;
use std::alloc::Global;
use table_text::{Page, fits, numbers, parted, tell_outputs};

// A row and the words of the outputs in its clock; a row that begins with a point is stepped and not told.
fn step_line(alloc: Global, out: &mut Page, nl: &Netlist, sim: &mut Sim<'_>, line: &str)
    requires cells { sim.old.cells ≡ nl.now.cells }
    requires outlets { sim.old.outlets ≡ nl.now.outlets }
    ensures cells { sim.new.cells ≡ sim.old.cells }
    ensures outlets { sim.new.outlets ≡ sim.old.outlets }
{
    let Ok(row) = numbers(alloc, line) else {
        return out.cut();
    };
    if !fits(nl, &row) {
        return;
    }
    sim.step(&row);
    if line.starts_with(".") {
        return;
    }
    out.say(line);
    out.say(" ->");
    tell_outputs(out, sim, 0, nl.outputs());
    out.say("\n");
}

/// The words of the outputs in each clock of a run. The first line has the fill, and each further line the words of the
/// inputs in one clock.
pub fn step_all(alloc: Global, out: &mut Page, nl: &Netlist, text: &str) {
    if text.is_empty() {
        return;
    }
    let (fill, rows) = parted(text, "\n");
    let fill = fill.parse::<u64>().unwrap_or(0);
    out.tell_line("%% ", &fill);
    let Ok(mut sim) = Sim::new(alloc, nl, fill) else {
        return out.cut();
    };
    for line in rows.lines() {
        step_line(alloc, out, nl, &mut sim, line);
    }
}

// The width of an output.
fn width_of_output(nl: &Netlist, k: u32) -> u32
    requires { k < length nl.now.outlets }
{
    nl.formed();
    match nl.output(k) {
        Some(outlet) => width_at(nl, outlet.net).bits(),
        None => 0,
    }
}

/// The words of one output in so many clocks after one of reset, which is the only input.
pub fn step_one(alloc: Global, out: &mut Page, nl: &Netlist, k: u32, clocks: u32)
    requires { k < length nl.now.outlets }
{
    if !fits(nl, &[1]) {
        return;
    }
    if !fits(nl, &[0]) {
        return;
    }
    let Ok(mut sim) = Sim::new(alloc, nl, u64::MAX) else {
        return out.cut();
    };
    sim.step(&[1]);
    out.tell("output ", &k);
    out.tell(" of ", &width_of_output(nl, k));
    out.say(" bits:");
    for _clock in 0..clocks {
        sim.step(&[0]);
        out.tell(" ", &sim.output(k));
    }
    out.say("\n");
}
