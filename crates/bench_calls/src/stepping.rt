// The steps of the simulator.

ghost use Rattle.std.specs.Prelude.{IfOk, OnOk, ◌≡◌, ◌≤◌, length};
ghost use Rattle.ae_netlist.specs.Circuit.{IsNet};
ghost use Rattle.ae_netlist.specs.Room.{HasRoom};
ghost use Rattle.ae_netlist.specs.Counts.{is_input, count_of};
ghost use Rattle.ae_gates.specs.Cells.{Adds};

use ae_gates::{choose, constant, less, sum};
use ae_netlist::{NetId, Netlist, Port};
use ae_sim::Sim;
use ae_word::Width;
use std::alloc::{AllocError, Global};
use table_text::Page;

// Two nets, and the netlist's next pair.
#[derive(Clone, Copy)]
struct Pair {
    left: NetId,
    right: NetId,
}

// Three cells: a sum, a comparison with it, and a choice.
fn group(nl: &mut Netlist, pair: Pair) -> Result<Pair, AllocError>
    requires left { IsNet nl.old.cells pair.left.0 16 }
    requires right { IsNet nl.old.cells pair.right.0 16 }
    requires room { HasRoom nl.old 3 }
    ensures adds { OnOk result (Adds nl.old nl.new 3 0) }
    ensures left { IfOk result (λ p. IsNet nl.new.cells p.left.0 16) }
    ensures right { IfOk result (λ p. IsNet nl.new.cells p.right.0 16) }
{
    let wide = Width { bits: 16 };
    let total = sum(nl, pair.left, pair.right, wide)?;
    let test = less(nl, pair.left, total, wide)?;
    let chosen = choose(nl, test, total, pair.right, wide)?;
    Ok(Pair {
        left: total,
        right: chosen,
    })
}

// A netlist of so many groups.
fn circuit(alloc: Global, groups: u32) -> Result<Netlist, AllocError>
    requires { groups ≤ 3000000 }
    ensures inputs { IfOk result (λ nl. count_of is_input nl.cells ≡ 0) }
    ensures outlets { IfOk result (λ nl. length nl.outlets ≡ 1) }
{
    let mut nl = Netlist::new(alloc, 10_000_000);
    let first = constant(&mut nl, Width { bits: 16 }, 1)?;
    let second = constant(&mut nl, Width { bits: 16 }, 3)?;
    let mut pair = Pair {
        left: first,
        right: second,
    };
    for made in 0..groups {
        pair = group(&mut nl, pair)?;
    }
    nl.add_output(Port::Plain(0), pair.right)?;
    Ok(nl)
}

// The word of the output in the last of so many clocks.
fn run(alloc: Global, nl: &Netlist, clocks: u32) -> Result<u64, AllocError>
    requires inputs { count_of is_input nl.now.cells ≡ 0 }
    requires outlets { length nl.now.outlets ≡ 1 }
{
    let mut sim = Sim::new(alloc, nl, 0)?;
    for _ in 0..clocks {
        sim.step(&[]);
    }
    Ok(sim.output(0))
}

/// Steps a netlist of so many groups of three cells for so many clocks, and tells a word of the last.
pub fn step(alloc: Global, out: &mut Page, groups: u32, clocks: u32) {
    if groups > 3_000_000 {
        return out.say("no room\n");
    }
    let Ok(nl) = circuit(alloc, groups) else {
        return out.say("no room\n");
    };
    out.tell("", &groups);
    out.tell(" groups, ", &clocks);
    match run(alloc, &nl, clocks) {
        Ok(word) => out.tell_line(" clocks, ", &word),
        Err(_) => out.cut(),
    }
}
