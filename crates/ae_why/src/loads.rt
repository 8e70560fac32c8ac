// Why a line is too large.

ghost use Rattle.std.specs.Prelude.{◌≤◌};

use crate::sorts::{Spot, program_of, spot_of, typed_above, typed_of};
use crate::types::{push_line, push_types};
use ae_delay::{DelayFault, Timing, arrivals_within};
use ae_rewrite::{PlanFault, schedule};
use ae_seq::{Func, Program, Typed};
use ae_sttype::Slowdown;
use std::alloc::{AllocError, Global};

// What a program costs under a slowdown, or the sum of loads at which it passes the limit.
#[derive(Drop)]
enum Loads {
    Within(Timing),
    Past(u64),
    Unknown,
}

fn loads_of(
    alloc: Global,
    typed: &Typed,
    slowdown: Slowdown,
    limit: u32,
) -> Result<Loads, AllocError>
    requires { limit ≤ 100000 }
{
    let scheduled = match schedule(alloc, typed, slowdown) {
        Ok(scheduled) => scheduled,
        Err(PlanFault::NoSchedule { line: _ }) => return Ok(Loads::Unknown),
        Err(PlanFault::Memory) => return Err(AllocError),
    };
    match arrivals_within(alloc, &scheduled, limit) {
        Ok(timing) => Ok(Loads::Within(timing)),
        Err(DelayFault::Large { line: _, load }) => Ok(Loads::Past(load)),
        Err(DelayFault::Memory) => Err(AllocError),
    }
}

// A node and its load.
#[derive(Clone, Copy)]
struct Heavy {
    node: u32,
    load: u32,
}

// Whether one is heavier than another, or as heavy and above it.
fn is_before(one: Heavy, other: Heavy) -> bool {
    one.load > other.load || (one.load == other.load && one.node < other.node)
}

// The heaviest node behind one in this order.
fn heaviest(timing: &Timing, count: u32, last: Option<Heavy>) -> Option<Heavy> {
    let mut found: Option<Heavy> = None;
    for node in 0..count {
        if let Some(cost) = timing.cost(node) {
            let own = Heavy {
                node,
                load: cost.load,
            };
            let is_left = match last {
                Some(last) => is_before(last, own),
                None => true,
            };
            let is_first = match found {
                Some(found) => is_before(own, found),
                None => true,
            };
            if is_left && is_first {
                found = Some(own);
            }
        }
    }
    found
}

// The greatest loads of nodes, three at most.
fn push_heaviest(
    out: &mut String,
    func: &Func,
    timing: &Timing,
    count: u32,
) -> Result<(), AllocError> {
    let mut last = None;
    for _ in 0..3 {
        let Some(heavy) = heaviest(timing, count, last) else {
            return Ok(());
        };
        if let Some(node) = func.nodes.get(heavy.node as usize) {
            let (line, name) = (node.line, node.name.as_str());
            writeln!(out, "line {line} {name} has the load {}", heavy.load)?;
        }
        last = Some(heavy);
    }
    Ok(())
}

// The loads of the lines above.
fn push_above(
    out: &mut String,
    alloc: Global,
    part: &[u8],
    p: &Program,
    spot: Spot,
    slowdown: Slowdown,
    limit: u32,
) -> Result<(), AllocError>
    requires { limit ≤ 100000 }
{
    let Some(typed) = typed_above(alloc, part, p, spot)? else {
        return Ok(());
    };
    let Loads::Within(timing) = loads_of(alloc, &typed, slowdown, limit)? else {
        return Ok(());
    };
    writeln!(out, "the lines above it have the load {}", timing.load())?;
    match (p.funcs.get(spot.func as usize), spot.node) {
        (Some(func), Some(count)) => push_heaviest(out, func, &timing, count),
        _ => Ok(()),
    }
}

// The load at which a program passes the limit.
fn push_load(
    out: &mut String,
    alloc: Global,
    typed: &Typed,
    slowdown: Slowdown,
    limit: u32,
) -> Result<(), AllocError>
    requires { limit ≤ 100000 }
{
    let clocks = slowdown.clocks();
    match loads_of(alloc, typed, slowdown, limit)? {
        Loads::Past(load) => writeln!(
            out,
            "with this line the load at the slowdown {clocks} is {load}; the limit is {limit}: a greater slowdown mostly needs less"
        ),
        _ => Ok(()),
    }
}

// Which types of a line are too large.
fn push_sizes(
    out: &mut String,
    alloc: Global,
    part: &[u8],
    p: &Program,
    spot: Spot,
) -> Result<(), AllocError> {
    out.push_str(
        "a type has at most 16384 words, lengths to 4096, and sequences and pairs 6 deep\n",
    )?;
    if spot.node.is_some() {
        out.push_str("the type of this line has more\n")?;
        return push_types(out, alloc, part, p, spot);
    }
    let Some(func) = p.funcs.get(spot.func as usize) else {
        return Ok(());
    };
    for param in &func.params {
        if !param.ty.in_size() {
            write!(out, "{} is ", param.name.as_str())?;
            param.ty.write_to(out)?;
            out.push_str(", which is more\n")?;
        }
    }
    Ok(())
}

/// Why a program that only moves words is too large: the load of one move for each result (docs/FUSED.md), which no line above
/// the end has a part of.
pub fn large_moves(
    alloc: Global,
    part: &[u8],
    number: u32,
    slowdown: Slowdown,
    load: u64,
    limit: u32,
) -> Result<String, AllocError> {
    let mut out = String::new(alloc);
    push_line(&mut out, alloc, part, number)?;
    out.push_str(
        "the program only moves words: each result is one move from the parameters, and their load counts at the end line\n",
    )?;
    let clocks = slowdown.clocks();
    writeln!(
        out,
        "at the slowdown {clocks} it is {load}; the limit is {limit}: `aethkit slowdowns` tells which slowdowns need less"
    )?;
    Ok(out)
}

// The load up to a line, or its types, where a function has the line.
fn push_cause(
    out: &mut String,
    alloc: Global,
    part: &[u8],
    p: &Program,
    number: u32,
    slowdown: Slowdown,
    limit: u32,
) -> Result<(), AllocError>
    requires { limit ≤ 100000 }
{
    let Some(spot) = spot_of(p, number) else {
        return Ok(());
    };
    let Some(typed) = typed_of(alloc, part)? else {
        return push_sizes(out, alloc, part, p, spot);
    };
    push_load(out, alloc, &typed, slowdown, limit)?;
    push_above(out, alloc, part, p, spot, slowdown, limit)
}

/// Why a line of a program is too large: its type, or the load up to it at a slowdown, with the three greatest loads above. The
/// loads are those of lines, which a program that only moves words does not have.
pub fn too_large(
    alloc: Global,
    part: &[u8],
    number: u32,
    slowdown: Slowdown,
    limit: u32,
) -> Result<String, AllocError>
    requires { limit ≤ 100000 }
{
    let mut out = String::new(alloc);
    push_line(&mut out, alloc, part, number)?;
    if let Some(p) = program_of(alloc, part)? {
        push_cause(&mut out, alloc, part, &p, number, slowdown, limit)?;
    }
    Ok(out)
}
