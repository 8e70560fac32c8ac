// The names of ports and nets, and ranges.

ghost use Rattle.std.specs.Prelude.{◌≡◌, ◌++◌, OnOk, get_or, string_bytes};
ghost use Rattle.ae_verilog.specs.NetlistModule.{port_name, number_name, cell_name, net_name};
ghost use Rattle.ae_verilog.specs.Text.{range_text, PortFits};
ghost use Rattle.ae_verilog.specs.Notes.{table_line};

use ae_netlist::{Cell, Handshake, NetId, PackedCell, Port};
use std::alloc::AllocError;

// The name of a port; an output names its result where there are several.
pub fn write_port(out: &mut String, port: Port, outs: usize) -> Result<(), AllocError>
    ensures text { OnOk result (string_bytes out.new ≡ string_bytes out.old ++ port_name outs port) }
    ensures fits { PortFits port }
{
    match port {
        Port::Reset => write!(out, "rst"),
        Port::Enable => write!(out, "en"),
        Port::Stream(Handshake::SourceValid) => write!(out, "s_valid"),
        Port::Stream(Handshake::SourceReady) => write!(out, "s_ready"),
        Port::Stream(Handshake::SinkValid) => write!(out, "m_valid"),
        Port::Stream(Handshake::SinkReady) => write!(out, "m_ready"),
        Port::In { param, lane, word } => write!(out, "i{param}_{lane}_{word}"),
        Port::Out { result, lane, word } => {
            if outs == 1 {
                write!(out, "o_{lane}_{word}")
            } else {
                write!(out, "o{result}_{lane}_{word}")
            }
        }
        Port::Plain(k) => write!(out, "p{k}"),
    }
}

// What nets are named by: the cells, and the line of each.
#[derive(Drop)]
pub struct Names<'a> {
    pub cells: &'a [PackedCell],
    // 0 where a cell has no line
    pub lines: &'a [u32],
}

// The name of a net: that of its port for an input, and else its number.
#[tactic(auto, unfolding(crate::specs::NetlistModule::net_name))]
pub fn write_net(out: &mut String, names: &Names<'_>, net: NetId) -> Result<(), AllocError>
    ensures { OnOk result (string_bytes out.new ≡ string_bytes out.old ++ net_name (table_line names.now.lines.now) names.now.cells.now net.0) }
{
    let k = net.0 as usize;
    match names.cells.get(k) {
        Some(packed) => write_cell_name(out, names.lines, k, packed.cell()),
        None => write_number(out, names.lines, k),
    }
}

fn write_cell_name(out: &mut String, lines: &[u32], k: usize, cell: Cell) -> Result<(), AllocError>
    ensures { OnOk result (string_bytes out.new ≡ string_bytes out.old ++ cell_name (table_line lines.now) k cell) }
{
    match cell {
        Cell::Input(port) => write_port(out, port, 1),
        Cell::Const(_) | Cell::Op(_, _) | Cell::Reg { .. } | Cell::Mem { .. } | Cell::Peek { .. } =>
            write_number(out, lines, k),
    }
}

// The name of a net that no input drives: its number, behind that of its line where it has one.
#[tactic(auto, unfolding(crate::specs::NetlistModule::number_name))]
pub fn write_number(out: &mut String, lines: &[u32], k: usize) -> Result<(), AllocError>
    ensures { OnOk result (string_bytes out.new ≡ string_bytes out.old ++ number_name (table_line lines.now) k) }
{
    let line = line_at(lines, k);
    if line == 0 {
        write!(out, "n{k}")
    } else {
        write!(out, "l{line}_n{k}")
    }
}

// The line of a cell, 0 where it has none.
fn line_at(lines: &[u32], k: usize) -> u32
    ensures { result ≡ get_or lines.now k 0 }
{
    match lines.get(k) {
        Some(line) => *line,
        None => 0,
    }
}

// The range of a declaration, and a blank behind it; a single bit has none.
pub fn write_range(out: &mut String, width: u32) -> Result<(), AllocError>
    ensures { OnOk result (string_bytes out.new ≡ string_bytes out.old ++ range_text width) }
{
    if width > 1 {
        let high = width - 1;
        write!(out, "[{high}:0] ")
    } else {
        Ok(())
    }
}
