// What stands at a place that is known to be there.

ghost use Rattle.std.specs.Prelude.{◌≡◌, ◌<◌, Some, length, slice_get};

use ae_netlist::{NetId, Netlist, Outlet, SizedCell};

pub fn cell_at(nl: &Netlist, net: NetId) -> SizedCell
    requires { net.0 < length nl.now.cells }
    ensures { slice_get nl.now.cells net.0 ≡ Some result }
{
    nl.cells()[net.0 as usize].sized()
}

pub fn outlet_at(nl: &Netlist, k: u32) -> Outlet
    requires { k < length nl.now.outlets }
    ensures { slice_get nl.now.outlets k ≡ Some result }
{
    nl.outlets()[k as usize]
}

pub fn net_at(nets: &[NetId], k: usize) -> NetId
    requires { k < length nets.now }
    ensures { slice_get nets.now k ≡ Some result }
{
    nets[k]
}

pub fn is_kept(keep: &[bool], net: NetId) -> bool
    requires { net.0 < length keep.now }
    ensures { slice_get keep.now net.0 ≡ Some result }
{
    keep[net.0 as usize]
}
