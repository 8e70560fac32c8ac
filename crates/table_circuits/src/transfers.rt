// What passes between two channels, clock by clock.

ghost use Rattle.std.specs.Prelude.{◌≡◌, ◌≤◌, length};

use ae_netlist::Netlist;
use ae_sim::Sim;
use std::alloc::{AllocError, Global};
use table_text::{Page, fits, number_at, tell_outputs, word_at};

// Whether a pattern, which comes again and again, has a 1 in this clock.
fn has_one(pattern: &str, clock: u32) -> bool {
    let bits = pattern.as_bytes();
    bits.len() > 0 && bits[clock as usize % bits.len()] == b'1'
}

// The words of the inputs in a clock: the reset, both channels, and the words of a line.
fn row_of(
    alloc: Global,
    nl: &Netlist,
    bits: [bool; 3],
    line: &str,
) -> Result<Vec<u64>, AllocError> {
    let mut row = Vec::new(alloc);
    for bit in bits {
        row.push(u64::from(bit))?;
    }
    for word in line.split_whitespace() {
        row.push(word.parse::<u64>().unwrap_or(0))?;
    }
    for _more in row.len()..nl.inputs() as usize {
        row.push(0)?;
    }
    Ok(row)
}

// One clock with the reset, both channels and the words of a line; false where these are no words of the inputs.
fn step(
    alloc: Global,
    out: &mut Page,
    nl: &Netlist,
    sim: &mut Sim<'_>,
    bits: [bool; 3],
    line: &str,
) -> bool
    requires { sim.old.cells ≡ nl.now.cells }
    ensures cells { sim.new.cells ≡ sim.old.cells }
    ensures outlets { sim.new.outlets ≡ sim.old.outlets }
{
    let Ok(row) = row_of(alloc, nl, bits, line) else {
        out.cut();
        return false;
    };
    let fit = fits(nl, &row);
    if fit {
        sim.step(&row);
    }
    fit
}

/// The transfers of a run, whose first two clocks are of reset.
pub fn tell_transfers(alloc: Global, out: &mut Page, nl: &Netlist, how: &str, rows: &str)
    requires { 2 ≤ length nl.now.outlets }
{
    let Ok(mut sim) = Sim::new(alloc, nl, u64::MAX) else {
        return out.cut();
    };
    let mut lines = rows.lines();
    let mut line = lines.next();
    let mut taken = 0u32;
    for clock in 0..number_at(how, 0) {
        let resets = clock < 2;
        let offers = !resets && line.is_some() && has_one(word_at(how, 1), clock);
        let takes = !resets && has_one(word_at(how, 2), clock);
        let words = if offers { line.unwrap_or("") } else { "" };
        if !step(alloc, out, nl, &mut sim, [resets, offers, takes], words) {
            return out.say("not allowed\n");
        }
        if takes && sim.output(1) == 1 {
            out.say("->");
            tell_outputs(out, &sim, 2, nl.outputs());
            out.say("\n");
        }
        if offers && sim.output(0) == 1 {
            taken = taken.saturating_add(1);
            line = lines.next();
        }
    }
    out.tell("", &taken);
    out.say(" transfers at the source\n");
}
