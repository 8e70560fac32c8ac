// The ports of a netlist's module.

ghost use Rattle.std.specs.Prelude.{◌≡◌, ◌++◌, ◌∷◌, [], List, OnOk, IfOk, map, string_bytes};
ghost use Rattle.ae_vmodule.specs.ModuleTree.{NetTree};
ghost use Rattle.ae_verilog.specs.NetlistModule.{input_nets, output_net, port_name};
ghost use Rattle.ae_verilog.specs.PortNets.{HasNets, input_ports, port_nets};

use crate::header::width_at;
use crate::names::write_port;
use ae_netlist::{Cell, Netlist, Outlet, PackedCell, Port, SizedCell};
use std::alloc::{AllocError, Global};

/// The names of ports and their widths in bits, in order.
#[derive(Drop)]
pub struct PortList {
    pub names: Vec<String>,
    pub widths: Vec<u32>,
}

impl PortList {
    // Appends a port of one of so many results, or an input where this is 1.
    fn push(&mut self, alloc: Global, port: Port, outs: usize, width: u32) -> Result<(), AllocError>
        ensures names { OnOk result (map string_bytes self.new.names.items ≡ map string_bytes self.old.names.items ++ port_name outs port ∷ []) }
        ensures widths { OnOk result (self.new.widths.items ≡ self.old.widths.items ++ width ∷ []) }
    {
        let mut name = String::new(alloc);
        write_port(&mut name, port, outs)?;
        self.names.push(name)?;
        Ok(self.widths.push(width)?)
    }

    // Appends the input that a cell is, if it is one.
    fn push_input(&mut self, alloc: Global, sized: SizedCell) -> Result<(), AllocError>
        ensures { OnOk result ((before : List NetTree) → HasNets before self.old → HasNets (before ++ input_nets sized.width sized.cell) self.new) }
    {
        match sized.cell {
            Cell::Input(port) => self.push(alloc, port, 1, sized.width),
            Cell::Const(_)
            | Cell::Op(_, _)
            | Cell::Reg { .. }
            | Cell::Mem { .. }
            | Cell::Peek { .. } => Ok(()),
        }
    }

    fn push_inputs(&mut self, alloc: Global, cells: &[PackedCell]) -> Result<(), AllocError>
        ensures { OnOk result ((before : List NetTree) → HasNets before self.old → HasNets (before ++ input_ports cells.now) self.new) }
    {
        for packed in cells {
            self.push_input(alloc, packed.sized())?;
        }
        Ok(())
    }

    fn push_outputs(
        &mut self,
        alloc: Global,
        cells: &[PackedCell],
        outlets: &[Outlet],
        outs: usize,
    ) -> Result<(), AllocError>
        ensures { OnOk result ((before : List NetTree) → HasNets before self.old → HasNets (before ++ map (output_net cells.now outs) outlets.now) self.new) }
    {
        for outlet in outlets {
            self.push(alloc, outlet.port, outs, width_at(cells, outlet.net))?;
        }
        Ok(())
    }
}

/// The ports of the module that a netlist with so many results is written as, but its clock: the inputs, and then the
/// outputs. The error comes only for want of memory.
pub fn ports_of(alloc: Global, nl: &Netlist, outs: usize) -> Result<PortList, AllocError>
    ensures { IfOk result (λ ports. HasNets (port_nets nl.now.cells nl.now.outlets outs) ports) }
{
    let mut ports = PortList {
        names: Vec::new(alloc),
        widths: Vec::new(alloc),
    };
    ports.push_inputs(alloc, nl.cells())?;
    ports.push_outputs(alloc, nl.cells(), nl.outlets(), outs)?;
    Ok(ports)
}
