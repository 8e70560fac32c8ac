// Small circuits between two channels, and what passes there.

use crate::channels::streamed;
use crate::circuits::{built, layouts};
use crate::transfers::tell_transfers;
use ae_netlist::{NetFault, Netlist};
use ae_sttype::Slowdown;
use std::alloc::{AllocError, Global};
use table_text::{Page, number_at, parted};

// The circuit of a first line between two channels: its limit of cells, how many bytes come one after the other and how many
// clocks without one, how many parameters it has, and its latency.
fn made(alloc: Global, head: &str) -> Result<Option<Result<Netlist, NetFault>>, AllocError> {
    let (n, i) = (number_at(head, 2), number_at(head, 3));
    let (params, latency) = (number_at(head, 4), number_at(head, 5));
    let Some(slowdown) = Slowdown::of(n.saturating_add(i)) else {
        return Ok(None);
    };
    if latency > 4096 {
        return Ok(None);
    }
    let Some(nl) = built(alloc, number_at(head, 1), params == 2, latency) else {
        return Ok(None);
    };
    let ins = layouts(alloc, params, n, i)?;
    let outs = layouts(alloc, 1, n, i)?;
    Ok(streamed(alloc, nl, &ins, &outs, slowdown, latency))
}

/// What is made of the first line, and, behind `%%`, how many clocks it runs, in which of them words stand at the source, and in
/// which the sink takes; a further line has the words of one transfer at the source.
pub fn tell(alloc: Global, out: &mut Page, head: &str, body: &str) {
    let (notes, run) = parted(body, "%% ");
    let (how, rows) = parted(run, "\n");
    out.say(notes);
    out.say("%% ");
    out.say(how);
    out.say("\n");
    match made(alloc, head) {
        Err(_) => out.cut(),
        Ok(None) => out.say("no circuit\n"),
        Ok(Some(Err(fault))) => {
            out.show("", &fault);
            out.say("\n");
        }
        Ok(Some(Ok(nl))) => {
            if nl.outputs() >= 2 {
                tell_transfers(alloc, out, &nl, how, rows);
            }
        }
    }
}
