// The text of a module.

use ae_netlist::Netlist;
use ae_sttype::Slowdown;
use ae_verilog::{Report, write_module};
use ae_word::Width;
use std::alloc::{AllocError, Global};
use table_text::Page;

// The length of the text of the module of so many registers; 0 where there was no memory for the netlist.
fn length(alloc: Global, count: u32) -> Result<usize, AllocError> {
    let mut nl = Netlist::new(alloc, count);
    for _ in 0..count {
        if nl.state(Width { bits: 8 }).is_err() {
            return Ok(0);
        }
    }
    let report = Report {
        slowdown: Slowdown::one(),
        latency: 0,
        muls: 0,
        load: count,
        enable: false,
        ins: Vec::new(alloc),
        outs: Vec::new(alloc),
    };
    let text = write_module(alloc, &nl, &report, &[])?;
    Ok(text.len())
}

/// Writes the module of a netlist of so many registers.
pub fn write(alloc: Global, out: &mut Page, count: u32) {
    out.tell("", &count);
    match length(alloc, count) {
        Ok(bytes) => out.tell(" cells, ", &bytes),
        Err(_) => out.cut(),
    }
    out.say(" bytes\n");
}
