// What is told of the circuit of a program under a slowdown.

ghost use Rattle.std.specs.Prelude.{◌≤◌, length};

use crate::request::Picture;
use ae_bench::{bench_text, wrapper_text};
use ae_channel::stream_text;
use ae_chart::{draw_svg, draw_text};
use ae_compile::{Compiled, LOAD_LIMIT, STALL_LIMIT, compile, cost};
use ae_items::{KitFault, program_part, rows_part};
use ae_netlist::NetFault;
use ae_notes::{NoteForm, net_notes, paths_text, port_notes};
use ae_sttype::Slowdown;
use ae_why::Watch;
use std::alloc::{AllocError, Global};

// A text, or that there was no memory for it.
fn told(text: Result<String, AllocError>) -> Result<String, KitFault> {
    Ok(text?)
}

/// A picture of its layouts.
pub fn drawn(
    alloc: Global,
    input: &[u8],
    slowdown: Slowdown,
    picture: Picture,
) -> Result<String, KitFault>
    requires { length input.now ≤ 16777216 }
{
    let costed = cost(alloc, program_part(input), slowdown, LOAD_LIMIT)?;
    told(match picture {
        Picture::Svg => draw_svg(alloc, &costed),
        Picture::Text => draw_text(alloc, &costed),
    })
}

/// A module around its module, which has a name in place of `aeth`.
pub fn wrapper(
    alloc: Global,
    input: &[u8],
    slowdown: Slowdown,
    name: &str,
) -> Result<String, KitFault>
    requires { length input.now ≤ 16777216 }
{
    let costed = cost(alloc, program_part(input), slowdown, LOAD_LIMIT)?;
    told(wrapper_text(alloc, &costed, name))
}

/// Its test bench, on the rows of the input.
pub fn bench<W: Watch>(
    alloc: Global,
    input: &[u8],
    slowdown: Slowdown,
    fill: u64,
    dumps: bool,
    watch: &mut W,
) -> Result<String, KitFault>
    requires { length input.now ≤ 16777216 }
{
    let costed = cost(alloc, program_part(input), slowdown, LOAD_LIMIT)?;
    bench_text(alloc, &costed, rows_part(input), fill, dumps, watch)
}

// The circuit, if its load is within a limit.
fn compiled(
    alloc: Global,
    input: &[u8],
    slowdown: Slowdown,
    limit: u32,
) -> Result<Compiled, KitFault>
    requires few { length input.now ≤ 16777216 }
    requires limit { limit ≤ 100000 }
{
    let costed = cost(alloc, program_part(input), slowdown, limit)?;
    let compiled = compile(alloc, costed)?;
    Ok(compiled)
}

// What the names of its ports come from.
fn notes_of_ports(
    alloc: Global,
    input: &[u8],
    slowdown: Slowdown,
    form: NoteForm,
) -> Result<String, KitFault>
    requires { length input.now ≤ 16777216 }
{
    let costed = cost(alloc, program_part(input), slowdown, LOAD_LIMIT)?;
    told(port_notes(alloc, &costed, form))
}

// The same of its ports and nets.
fn notes_of_nets(
    alloc: Global,
    input: &[u8],
    slowdown: Slowdown,
    form: NoteForm,
) -> Result<String, KitFault>
    requires { length input.now ≤ 16777216 }
{
    let compiled = compiled(alloc, input, slowdown, LOAD_LIMIT)?;
    told(net_notes(alloc, &compiled, form))
}

/// What its names come from: those of its ports, or of its nets too.
pub fn notes(
    alloc: Global,
    input: &[u8],
    slowdown: Slowdown,
    form: NoteForm,
) -> Result<String, KitFault>
    requires { length input.now ≤ 16777216 }
{
    if form.has_nets {
        notes_of_nets(alloc, input, slowdown, form)
    } else {
        notes_of_ports(alloc, input, slowdown, form)
    }
}

/// Its longest chains of operators; those of more than so many are marked.
pub fn paths(alloc: Global, input: &[u8], slowdown: Slowdown, most: u32) -> Result<String, KitFault>
    requires { length input.now ≤ 16777216 }
{
    let compiled = compiled(alloc, input, slowdown, LOAD_LIMIT)?;
    told(paths_text(alloc, &compiled, most))
}

/// The module of it between two channels, under a name.
pub fn stream(
    alloc: Global,
    input: &[u8],
    slowdown: Slowdown,
    name: &str,
) -> Result<String, KitFault>
    requires { length input.now ≤ 16777216 }
{
    let compiled = compiled(alloc, input, slowdown, STALL_LIMIT)?;
    match stream_text(alloc, &compiled, name) {
        Ok(text) => Ok(text),
        Err(NetFault::Full) => Err(KitFault::LargeStream),
        Err(NetFault::Memory) => Err(KitFault::Memory),
    }
}
