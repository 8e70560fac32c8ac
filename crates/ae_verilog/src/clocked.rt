// What drives the outputs, and what happens at a clock edge.

ghost use Rattle.std.specs.Prelude.{◌≡◌, ◌++◌, OnOk, string_bytes};
ghost use Rattle.std.specs.List.{flat_map};
ghost use Rattle.ae_verilog.specs.NetlistModule.{each_numbered, number_name, net_name};
ghost use Rattle.ae_verilog.specs.Text.{assignment_text, edge_text, register_edge, memory_edge};
ghost use Rattle.ae_verilog.specs.Notes.{table_line};

use crate::names::{Names, write_net, write_number, write_port};
use ae_netlist::{Cell, NetId, Outlet, SizedCell};
use std::alloc::AllocError;

// The assignments of the outputs.
pub fn write_outlets(
    out: &mut String,
    names: &Names<'_>,
    outlets: &[Outlet],
    outs: usize,
) -> Result<(), AllocError>
    ensures { OnOk result (string_bytes out.new ≡ string_bytes out.old ++ flat_map (assignment_text (table_line names.now.lines.now) names.now.cells.now outs) outlets.now) }
{
    for outlet in outlets {
        write_outlet(out, names, *outlet, outs)?;
    }
    Ok(())
}

fn write_outlet(
    out: &mut String,
    names: &Names<'_>,
    outlet: Outlet,
    outs: usize,
) -> Result<(), AllocError>
    ensures { OnOk result (string_bytes out.new ≡ string_bytes out.old ++ assignment_text (table_line names.now.lines.now) names.now.cells.now outs outlet) }
{
    write!(out, "  assign ")?;
    write_port(out, outlet.port, outs)?;
    write!(out, " = ")?;
    write_net(out, names, outlet.net)?;
    write!(out, ";\n")
}

// What registers and memories take at a clock edge.
pub fn write_edges(out: &mut String, names: &Names<'_>) -> Result<(), AllocError>
    ensures { OnOk result (string_bytes out.new ≡ string_bytes out.old ++ each_numbered (λ net sized. edge_text (table_line names.now.lines.now) names.now.cells.now net sized.cell) 0 names.now.cells.now) }
{
    for (k, packed) in names.cells.iter().enumerate() {
        write_edge(out, names, k, packed.sized())?;
    }
    Ok(())
}

fn write_edge(
    out: &mut String,
    names: &Names<'_>,
    k: usize,
    sized: SizedCell,
) -> Result<(), AllocError>
    ensures { OnOk result (string_bytes out.new ≡ string_bytes out.old ++ edge_text (table_line names.now.lines.now) names.now.cells.now k sized.cell) }
{
    match sized.cell {
        Cell::Reg { next } => write_register_edge(out, names, k, next),
        Cell::Mem {
            depth: _,
            at,
            next,
            enable,
        } => write_memory_edge(out, names, k, at, next, enable),
        Cell::Input(_) | Cell::Const(_) | Cell::Op(_, _) | Cell::Peek { .. } => Ok(()),
    }
}

fn write_register_edge(
    out: &mut String,
    names: &Names<'_>,
    k: usize,
    next: NetId,
) -> Result<(), AllocError>
    ensures { OnOk result (string_bytes out.new ≡ string_bytes out.old ++ register_edge (number_name (table_line names.now.lines.now) k) (net_name (table_line names.now.lines.now) names.now.cells.now next.0)) }
{
    write!(out, "  always @(posedge clk) ")?;
    write_number(out, names.lines, k)?;
    write!(out, " <= ")?;
    write_net(out, names, next)?;
    write!(out, ";\n")
}

fn write_memory_edge(
    out: &mut String,
    names: &Names<'_>,
    k: usize,
    at: NetId,
    next: NetId,
    enable: NetId,
) -> Result<(), AllocError>
    ensures { OnOk result (string_bytes out.new ≡ string_bytes out.old ++ memory_edge (number_name (table_line names.now.lines.now) k) (net_name (table_line names.now.lines.now) names.now.cells.now at.0) (net_name (table_line names.now.lines.now) names.now.cells.now next.0) (net_name (table_line names.now.lines.now) names.now.cells.now enable.0)) }
{
    write!(out, "  always @(posedge clk) if (")?;
    write_net(out, names, enable)?;
    write!(out, ") ")?;
    write_number(out, names.lines, k)?;
    write!(out, "[")?;
    write_net(out, names, at)?;
    write!(out, "] <= ")?;
    write_net(out, names, next)?;
    write!(out, ";\n")
}
