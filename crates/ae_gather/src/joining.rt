// The nets of several bundles as one list.

ghost use Rattle.std.specs.Prelude.{◌<◌, ◌^◌, length, sum_by, IfOk};
ghost use Rattle.ae_gather.specs.Joins.{AreJoined};

use ae_netlist::NetId;
use ae_ops::Bundle;
use std::alloc::{AllocError, Global};

/// The nets of all bundles, and the place of each bundle's first.
#[derive(Drop)]
pub struct Joined {
    pub nets: Vec<NetId>,
    pub firsts: Vec<u32>,
}

/// Joins the bundles, which have few enough nets for numbers of 32 bits; an error only for want of memory.
pub fn join(alloc: Global, ins: &[Bundle]) -> Result<Joined, AllocError>
    requires few { sum_by length ins.now < 2 ^ 31 }
    ensures joined { IfOk result (λ j. AreJoined ins.now j.nets.items j.firsts.items) }
    ensures few { IfOk result (λ j. length j.nets.items < 2 ^ 31) }
{
    let mut nets = Vec::new(alloc);
    let mut firsts = Vec::new(alloc);
    for k in 0..ins.len() {
        firsts.push(nets.len() as u32)?;
        nets.extend_from_slice(ins[k].nets())?;
    }
    Ok(Joined { nets, firsts })
}
