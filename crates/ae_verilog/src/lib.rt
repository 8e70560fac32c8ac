//! The text of a netlist's module.
#![tactic(auto)]

mod cells;
mod clocked;
mod header;
mod interface;
mod names;
mod notes;
mod report;

ghost use Rattle.std.specs.Prelude.{◌≡◌, ◌<◌, ◌^◌, [], All, length, map, IfOk, string_bytes};
ghost use Rattle.ae_verilog.specs.Notes.{ArePrinted, note_tree};
ghost use Rattle.ae_verilog.specs.ReportLines.{report_tree, report_lines};
ghost use Rattle.ae_verilog.specs.Text.{named_text, stream_listing, whole_text, PortFits, CellPortFits};
ghost use Rattle.ae_verilog.specs.Written.{HaveNumbers, IsListable};

use ae_netlist::Netlist;
pub use interface::{PortList, ports_of};
pub use notes::Note;
pub use report::Report;
use std::alloc::{AllocError, Global};

/// The text of the module `aeth` that a netlist is (docs/VERILOG.md), behind its report lines (docs/OUTPUTS.md): the listing
/// of the netlist with its notes, byte by byte, of which `ae_spelled::listings_spell` tells what Verilog module it spells.
/// Each note is a comment line before the declaration of its cell, behind those of the notes before it, and a net that no
/// input drives is named by its number behind the line of the last note whose cell is at most the net. Writing takes time
/// linear in the number of cells. The error comes where there is no memory for the text.
pub fn write_module(
    alloc: Global,
    nl: &Netlist,
    report: &Report,
    notes: &[Note],
) -> Result<String, AllocError>
    requires printed { ArePrinted (map note_tree notes.now) }
    ensures text { IfOk result (λ text. string_bytes text ≡ whole_text (report_lines (report_tree report.now)) (map note_tree notes.now) nl.now.cells nl.now.outlets (length report.now.outs.items)) }
    ensures listable { IfOk result (λ text. IsListable nl.now.cells nl.now.outlets) }
    ensures numbers { IfOk result (λ text. HaveNumbers (report_tree report.now) (map note_tree notes.now)) }
{
    nl.formed();
    let outs = report.outs.as_slice().len();
    write_text(alloc, nl, outs, report, notes, "", "aeth")
}

/// The text of the module, under a name, that a circuit between two channels is (docs/STREAMS.md), behind the report lines of the
/// circuit and the line `// stream`: the listing of the netlist without notes, byte by byte, of which
/// `ae_spelled::streams_spell` tells what Verilog module it spells. The error comes where there is no memory for the text.
pub fn write_stream(
    alloc: Global,
    nl: &Netlist,
    report: &Report,
    name: &str,
) -> Result<String, AllocError>
    ensures text { IfOk result (λ text. string_bytes text ≡ stream_listing name.now (report_lines (report_tree report.now)) nl.now.cells nl.now.outlets (length report.now.outs.items)) }
    ensures listable { IfOk result (λ text. IsListable nl.now.cells nl.now.outlets) }
    ensures numbers { IfOk result (λ text. HaveNumbers (report_tree report.now) []) }
{
    nl.formed();
    let outs = report.outs.as_slice().len();
    write_text(alloc, nl, outs, report, &[], "// stream\n", name)
}

// The text of a netlist with so many results, under a name, with what stands behind the report lines.
fn write_text(
    alloc: Global,
    nl: &Netlist,
    outs: usize,
    report: &Report,
    notes: &[Note],
    behind: &str,
    name: &str,
) -> Result<String, AllocError>
    ensures text { IfOk result (λ text. string_bytes text ≡ named_text name.now behind.now (report_lines (report_tree report.now)) (map note_tree notes.now) nl.now.cells nl.now.outlets outs) }
    ensures few { length nl.now.cells < 2 ^ 32 }
    ensures inputs { IfOk result (λ text. All (λ sized. CellPortFits sized.cell) nl.now.cells) }
    ensures outputs { IfOk result (λ text. All (λ outlet. PortFits outlet.port) nl.now.outlets) }
    ensures numbers { IfOk result (λ text. HaveNumbers (report_tree report.now) (map note_tree notes.now)) }
{
    let cells = nl.cells();
    let outlets = nl.outlets();
    let lines = notes::lines_of(alloc, notes, nl.len() as usize)?;
    let names = names::Names {
        cells,
        lines: lines.as_slice(),
    };
    let mut out = String::new(alloc);
    report::write_report(&mut out, report)?;
    write!(
        out,
        "{behind}// verilator lint_off CMPCONST\n// verilator lint_off DECLFILENAME\n// verilator lint_off UNSIGNED\n// verilator lint_off UNUSEDSIGNAL\n"
    )?;
    header::write_header(&mut out, name, cells, outlets, outs)?;
    cells::write_cells(&mut out, &names, notes)?;
    clocked::write_outlets(&mut out, &names, outlets, outs)?;
    clocked::write_edges(&mut out, &names)?;
    write!(out, "endmodule\n")?;
    Ok(out)
}
