// The nets of the inputs of a netlist.

ghost use Rattle.std.specs.Prelude.{◌≡◌, ◌++◌, ◌∷◌, [], length, slice_get, OnErr, OnOk};

use crate::cell::NetId;
use std::alloc::{AllocError, Global};
use std::marker::Model;

/// The nets of the inputs, in order. Those that stand in front of all other cells, as most do, take no memory.
#[derive(Drop)]
pub struct InputNets {
    /// How many cells in front of all others are inputs.
    leading: u32,
    others: Vec<NetId>,
}

impl Model for InputNets {
    ghost use Rattle.std.specs.Prelude.{List, ◌++◌};
    ghost use Rattle.ae_netlist.specs.declared.cell.NetId.{NetId};
    ghost use Rattle.ae_netlist.specs.Packed.{first_nets};

    ghost Value = { List NetId };

    ghost view = { λ n. first_nets n.leading ++ n.others.items };
}

fn net_at(nets: &[NetId], place: u32) -> Option<NetId>
    ensures { result ≡ slice_get nets.now place }
{
    nets.get(place as usize).copied()
}

impl InputNets {
    pub fn new(alloc: Global) -> InputNets
        ensures { result ≡ [] }
    {
        InputNets {
            leading: 0,
            others: Vec::new(alloc),
        }
    }

    pub fn len(&self) -> usize
        ensures { result ≡ length self.now }
    {
        self.leading as usize + self.others.len()
    }

    /// None where there are not so many.
    pub fn net(&self, number: u32) -> Option<NetId>
        ensures { result ≡ slice_get self.now number }
    {
        if number < self.leading {
            return Some(NetId(number));
        }
        net_at(&self.others, number - self.leading)
    }

    pub fn push(&mut self, net: NetId) -> Result<(), AllocError>
        ensures ok { OnOk result (self.new ≡ self.old ++ net ∷ []) }
        ensures err { OnErr result (self.new ≡ self.old) }
    {
        if self.others.is_empty() && net.0 == self.leading && self.leading < u32::MAX {
            self.leading += 1;
            return Ok(());
        }
        self.others.push(net)?;
        Ok(())
    }
}
