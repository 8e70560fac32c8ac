// The head of a module: its ports.

ghost use Rattle.std.specs.Prelude.{◌≡◌, ◌++◌, OnOk, All, string_bytes};
ghost use Rattle.std.specs.List.{flat_map};
ghost use Rattle.ae_netlist.specs.Circuit.{width_of};
ghost use Rattle.ae_verilog.specs.Text.{header_text, input_text, output_text, PortFits, CellPortFits};

use crate::names::{write_port, write_range};
use ae_netlist::{Cell, NetId, Outlet, PackedCell, SizedCell};
use std::alloc::AllocError;

// The module's name and its ports: the clock, the inputs, the outputs.
pub fn write_header(
    out: &mut String,
    name: &str,
    cells: &[PackedCell],
    outlets: &[Outlet],
    outs: usize,
) -> Result<(), AllocError>
    ensures text { OnOk result (string_bytes out.new ≡ string_bytes out.old ++ header_text name.now cells.now outlets.now outs) }
    ensures inputs { OnOk result (All (λ sized. CellPortFits sized.cell) cells.now) }
    ensures outputs { OnOk result (All (λ outlet. PortFits outlet.port) outlets.now) }
{
    write!(out, "module {name} (\n  input wire clk")?;
    write_inputs(out, cells)?;
    write_outputs(out, cells, outlets, outs)?;
    write!(out, "\n);\n")
}

fn write_inputs(out: &mut String, cells: &[PackedCell]) -> Result<(), AllocError>
    ensures text { OnOk result (string_bytes out.new ≡ string_bytes out.old ++ flat_map (λ sized. input_text sized.width sized.cell) cells.now) }
    ensures fits { OnOk result (All (λ sized. CellPortFits sized.cell) cells.now) }
{
    for packed in cells {
        write_input(out, packed.sized())?;
    }
    Ok(())
}

fn write_outputs(
    out: &mut String,
    cells: &[PackedCell],
    outlets: &[Outlet],
    outs: usize,
) -> Result<(), AllocError>
    ensures text { OnOk result (string_bytes out.new ≡ string_bytes out.old ++ flat_map (output_text cells.now outs) outlets.now) }
    ensures fits { OnOk result (All (λ outlet. PortFits outlet.port) outlets.now) }
{
    for outlet in outlets {
        write_output(out, cells, *outlet, outs)?;
    }
    Ok(())
}

// The port of an input.
fn write_input(out: &mut String, sized: SizedCell) -> Result<(), AllocError>
    ensures text { OnOk result (string_bytes out.new ≡ string_bytes out.old ++ input_text sized.width sized.cell) }
    ensures fits { OnOk result (CellPortFits sized.cell) }
{
    match sized.cell {
        Cell::Input(port) => {
            write!(out, ",\n  input wire ")?;
            write_range(out, sized.width)?;
            write_port(out, port, 1)
        }
        Cell::Const(_) | Cell::Op(_, _) | Cell::Reg { .. } | Cell::Mem { .. } | Cell::Peek { .. } =>
            Ok(()),
    }
}

// The port of an output.
fn write_output(
    out: &mut String,
    cells: &[PackedCell],
    outlet: Outlet,
    outs: usize,
) -> Result<(), AllocError>
    ensures text { OnOk result (string_bytes out.new ≡ string_bytes out.old ++ output_text cells.now outs outlet) }
    ensures fits { OnOk result (PortFits outlet.port) }
{
    write!(out, ",\n  output wire ")?;
    write_range(out, width_at(cells, outlet.net))?;
    write_port(out, outlet.port, outs)
}

// The width of a net, 0 where there is none.
#[tactic(auto, unfolding(ae_netlist::specs::Circuit::width_of))]
pub fn width_at(cells: &[PackedCell], net: NetId) -> u32
    ensures { result ≡ width_of cells.now net.0 }
{
    match cells.get(net.0 as usize) {
        Some(packed) => packed.width(),
        None => 0,
    }
}
