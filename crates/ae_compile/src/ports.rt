// The ports of a program's module.

ghost use Rattle.std.specs.Prelude.{IfOk, length, map};
ghost use Rattle.ae_verilog.specs.Notes.{lines_of, note_tree};
ghost use Rattle.ae_verilog.specs.PortNets.{HasNets, port_nets};
ghost use Rattle.ae_verilog.specs.ReportLines.{report_tree};
ghost use Rattle.ae_verilog.specs.Written.{IsWritableNetlist};
ghost use Rattle.ae_spelled.specs.ModulePorts.{ArePorts};
ghost use Rattle.ae_compile.specs.Passes.{IsCompiledProgram};

use crate::circuits::Compiled;
use ae_correct::circuits_are_writable;
use ae_spelled::module_keeps;
use ae_verilog::{PortList, ports_of};
use std::alloc::{AllocError, Global};

/// The inputs but the clock, and then the outputs, of the module of a compiled program. The error comes only for want of
/// memory.
pub fn module_ports(alloc: Global, compiled: &Compiled) -> Result<PortList, AllocError>
    ensures nets { IfOk result (λ ports. HasNets (port_nets compiled.now.netlist.cells compiled.now.netlist.outlets (length (report_tree compiled.now.report).outs)) ports) }
    ensures writable { IsWritableNetlist compiled.now.netlist.cells compiled.now.netlist.outlets (length (report_tree compiled.now.report).outs) }
    ensures known { IsCompiledProgram compiled.now }
    ensures own { ArePorts (lines_of (map note_tree compiled.now.notes) (length compiled.now.netlist.cells)) compiled.now.netlist (length (report_tree compiled.now.report).outs) }
{
    circuits_are_writable();
    module_keeps();
    let netlist = compiled.netlist();
    let told = compiled.report();
    ports_of(alloc, netlist, told.outs.as_slice().len())
}
