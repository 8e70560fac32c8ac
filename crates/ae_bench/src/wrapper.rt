// A wrapper around the module of a program, for use in a design.

use crate::wires::Wires;
use ae_compile::Costed;
use ae_items::{Bundle, Item, Role, element, inputs, item_of, lanes, outputs};
use ae_sttype::Slowdown;
use std::alloc::{AllocError, Global};
use std::fmt::{self, Display};

// A bundle under the name of its item.
#[derive(Clone, Copy)]
struct Port<'a> {
    bundle: Bundle<'a>,
    item: Item<'a>,
}

// Its name: that of the item behind what it is.
impl Display for Port<'_> {
    fn fmt<W: fmt::Write>(&self, f: &mut fmt::Formatter<W>) -> fmt::Result {
        let number = self.bundle.number;
        let name = self.item.name;
        match self.bundle.role {
            Role::Parameter => write!(f, "in_{name}"),
            Role::Result => write!(f, "out_{name}"),
            Role::OneResult => write!(f, "out{number}_{name}"),
        }
    }
}

// The port that tells in which clocks an element of a result stands.
#[derive(Clone, Copy)]
struct Strobe<'a>(Port<'a>);

impl Display for Strobe<'_> {
    fn fmt<W: fmt::Write>(&self, f: &mut fmt::Formatter<W>) -> fmt::Result {
        let number = self.0.bundle.number;
        let name = self.0.item.name;
        match self.0.bundle.role {
            Role::OneResult => write!(f, "valid{number}_{name}"),
            _ => write!(f, "valid_{name}"),
        }
    }
}

impl<'a> Port<'a> {
    // The wires of all words of all lanes.
    fn wires(&self, kind: &'a str) -> Wires<'a> {
        Wires {
            kind,
            bits: self.bits(),
        }
    }

    // The bits of all words of all lanes.
    fn bits(&self) -> u32 {
        let mut bits = 0u32;
        for number in 0..self.bundle.columns() {
            if let Some(column) = self.bundle.column(number) {
                bits = bits.saturating_add(column.width);
            }
        }
        bits
    }

    // Whether an element stands in a clock of the block.
    fn stands(&self, clock: u32) -> bool {
        element(self.bundle.layout, clock, 0).is_some()
    }
}

// The ports of the wrapper for some bundles.
fn ports<'a>(
    alloc: Global,
    costed: &'a Costed,
    bundles: &[Bundle<'a>],
) -> Result<Vec<Port<'a>>, AllocError> {
    let mut ports = Vec::new(alloc);
    for bundle in bundles {
        if let Some(item) = item_of(costed, bundle) {
            ports.push(Port {
                bundle: *bundle,
                item,
            })?;
        }
    }
    Ok(ports)
}

// The ports of the parameters.
fn parameters<'a>(alloc: Global, costed: &'a Costed) -> Result<Vec<Port<'a>>, AllocError> {
    let bundles = inputs(alloc, costed)?;
    ports(alloc, costed, &bundles)
}

// The ports of the results.
fn results<'a>(alloc: Global, costed: &'a Costed) -> Result<Vec<Port<'a>>, AllocError> {
    let bundles = outputs(alloc, costed)?;
    ports(alloc, costed, &bundles)
}

// The clocks from the reset to the end of the first block of the results.
#[derive(Clone, Copy)]
struct Clocks {
    slowdown: Slowdown,
    latency: u32,
}

impl Clocks {
    fn count(&self) -> u32 {
        self.latency.saturating_add(self.slowdown.clocks())
    }

    // The bits of a number below the count.
    fn bits(&self) -> u32 {
        let mut bits = 1u32;
        let mut reach = 2u32;
        for _ in 0..32u32 {
            if reach < self.count() {
                bits = bits.saturating_add(1);
                reach = reach.saturating_mul(2);
            }
        }
        bits
    }
}

// The ports.
fn write_head(
    out: &mut String,
    name: &str,
    ins: &[Port<'_>],
    outs: &[Port<'_>],
) -> Result<(), AllocError> {
    write!(
        out,
        "module {name}_top (\n  input wire clk,\n  input wire rst"
    )?;
    for port in ins {
        let wires = port.wires("input wire");
        write!(out, ",\n  {wires} {port}")?;
    }
    out.push_str(",\n  output wire block")?;
    for port in outs {
        let (wires, strobe) = (port.wires("output wire"), Strobe(*port));
        write!(out, ",\n  {wires} {port},\n  output wire {strobe}")?;
    }
    out.push_str("\n);\n")
}

// A bit for each clock, the last first: whether a block begins in it.
fn write_blocks(out: &mut String, clocks: &Clocks) -> Result<(), AllocError> {
    let count = clocks.count();
    write!(
        out,
        "  localparam [{}:0] BLOCK = {count}'b",
        count.saturating_sub(1)
    )?;
    let period = clocks.slowdown.clocks();
    for left in 0..count {
        let clock = count.saturating_sub(1).saturating_sub(left);
        out.push_str(if clock % period == 0 { "1" } else { "0" })?;
    }
    out.push_str(";\n")
}

// The same: whether an element of a result stands in it.
fn write_stands(out: &mut String, clocks: &Clocks, port: &Port<'_>) -> Result<(), AllocError> {
    let count = clocks.count();
    let number = port.bundle.number;
    write!(
        out,
        "  localparam [{}:0] VALID{number} = {count}'b",
        count.saturating_sub(1)
    )?;
    for left in 0..count {
        let clock = count.saturating_sub(1).saturating_sub(left);
        let stands = clock >= clocks.latency && port.stands(clock.saturating_sub(clocks.latency));
        out.push_str(if stands { "1" } else { "0" })?;
    }
    out.push_str(";\n")
}

// How many lanes a port has.
fn write_lanes(out: &mut String, port: &Port<'_>) -> Result<(), AllocError> {
    let lanes = lanes(port.bundle.layout);
    writeln!(out, "  localparam LANES_{port} = {lanes};")
}

// The numbers that a design may want.
fn write_numbers(
    out: &mut String,
    clocks: &Clocks,
    ins: &[Port<'_>],
    outs: &[Port<'_>],
) -> Result<(), AllocError> {
    let (slowdown, latency) = (clocks.slowdown.clocks(), clocks.latency);
    writeln!(
        out,
        "  // verilator lint_off UNUSEDPARAM\n  localparam SLOWDOWN = {slowdown};\n  localparam LATENCY = {latency};"
    )?;
    for port in ins {
        write_lanes(out, port)?;
    }
    for port in outs {
        write_lanes(out, port)?;
    }
    out.push_str("  // verilator lint_on UNUSEDPARAM\n")
}

// The counter of clocks: behind the first block of the results it goes on with the next.
fn write_counter(out: &mut String, clocks: &Clocks) -> Result<(), AllocError> {
    let bits = clocks.bits();
    let last = clocks.count().saturating_sub(1);
    let latency = clocks.latency;
    let wires = Wires { kind: "reg", bits };
    writeln!(
        out,
        "  {wires} clock;\n  always @(posedge clk)\n    if (rst) clock <= {bits}'d0;\n    else if (clock == {bits}'d{last}) clock <= {bits}'d{latency};\n    else clock <= clock + {bits}'d1;\n  assign block = !rst & BLOCK[clock];"
    )
}

// The module's ports, each a piece of a port of the wrapper.
fn write_pieces(out: &mut String, port: &Port<'_>) -> Result<(), AllocError> {
    let mut from = 0u32;
    let is_whole = port.bundle.columns() == 1;
    for number in 0..port.bundle.columns() {
        if let Some(column) = port.bundle.column(number) {
            let name = port.bundle.port_name(column);
            let to = from.saturating_add(column.width);
            if is_whole {
                write!(out, ",\n    .{name}({port})")?;
            } else {
                let last = to.saturating_sub(1);
                write!(out, ",\n    .{name}({port}[{last}:{from}])")?;
            }
            from = to;
        }
    }
    Ok(())
}

// The module in the wrapper.
fn write_instance(
    out: &mut String,
    name: &str,
    ins: &[Port<'_>],
    outs: &[Port<'_>],
) -> Result<(), AllocError> {
    write!(
        out,
        "  {name} module_of_program (\n    .clk(clk),\n    .rst(rst)"
    )?;
    for port in ins {
        write_pieces(out, port)?;
    }
    for port in outs {
        write_pieces(out, port)?;
    }
    out.push_str("\n  );\nendmodule\n")
}

fn write_top(
    out: &mut String,
    name: &str,
    clocks: &Clocks,
    ins: &[Port<'_>],
    outs: &[Port<'_>],
) -> Result<(), AllocError> {
    write_head(out, name, ins, outs)?;
    write_numbers(out, clocks, ins, outs)?;
    write_blocks(out, clocks)?;
    for port in outs {
        write_stands(out, clocks, port)?;
    }
    write_counter(out, clocks)?;
    for port in outs {
        let (strobe, number) = (Strobe(*port), port.bundle.number);
        writeln!(out, "  assign {strobe} = !rst & VALID{number}[clock];")?;
    }
    write_instance(out, name, ins, outs)
}

/// A module around that of `aeth build S`, which has this name in place of `aeth`: its own name is that with `_top` behind it. Its
/// ports are named by the parameters and results of the program, and each holds all words of all lanes, lane by lane and word by
/// word, the first in the lowest bits. `block` is 1 in the clocks in which a block of the parameters begins, and a `valid` in
/// those in which an element of its result stands. The error comes only for want of memory.
pub fn wrapper_text(alloc: Global, costed: &Costed, name: &str) -> Result<String, AllocError> {
    let ins = parameters(alloc, costed)?;
    let outs = results(alloc, costed)?;
    let clocks = Clocks {
        slowdown: costed.slowdown(),
        latency: costed.costs().latency(),
    };
    let mut out = String::new(alloc);
    write_top(&mut out, name, &clocks, &ins, &outs)?;
    Ok(out)
}
