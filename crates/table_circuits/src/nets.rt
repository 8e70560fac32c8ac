// Nets that are there: what the calls require of them is tested here.

ghost use Rattle.std.specs.Prelude.{◌≤◌, ◌^◌, IfSome, IsTrue};
ghost use Rattle.ae_netlist.specs.Circuit.{IsAddress, IsMemory, IsNet, IsPlain, IsRegister, width_of};

use ae_gates::width_at;
use ae_netlist::{Cell, NetFault, NetId, Netlist};
use ae_word::{Width, WordOp};

fn is_plain(cell: Cell) -> bool
    ensures { IsTrue result → IsPlain cell }
{
    match cell {
        Cell::Mem { .. } => false,
        Cell::Input(_) | Cell::Const(_) | Cell::Op(_, _) => true,
        Cell::Reg { .. } | Cell::Peek { .. } => true,
    }
}

/// The net of a number, if it has this width.
pub fn net(nl: &Netlist, number: u32, width: u32) -> Option<NetId>
    ensures { IfSome result (λ n. IsNet nl.now.cells n.0 width) }
{
    let Some(sized) = nl.sized(NetId(number)) else {
        return None;
    };
    if sized.width != width {
        return None;
    }
    if !is_plain(sized.cell) {
        return None;
    }
    Some(NetId(number))
}

/// The net of a number.
pub fn any_net(nl: &Netlist, number: u32) -> Option<NetId>
    ensures { IfSome result (λ n. IsNet nl.now.cells n.0 (width_of nl.now.cells n.0)) }
{
    let Some(sized) = nl.sized(NetId(number)) else {
        return None;
    };
    if !is_plain(sized.cell) {
        return None;
    }
    Some(NetId(number))
}

/// The register of a number, if it has this width.
pub fn register(nl: &Netlist, number: u32, width: u32) -> Option<NetId>
    ensures { IfSome result (λ n. IsRegister nl.now.cells n.0 width) }
{
    let Some(sized) = nl.sized(NetId(number)) else {
        return None;
    };
    if sized.width != width {
        return None;
    }
    let Cell::Reg { next: _ } = sized.cell else {
        return None;
    };
    Some(NetId(number))
}

/// The memory of a number with its depth, if it has this width.
pub fn memory(nl: &Netlist, number: u32, width: u32) -> Option<(NetId, u32)>
    ensures { IfSome result (λ m. IsMemory nl.now.cells m.0.0 width m.1) }
{
    let Some(sized) = nl.sized(NetId(number)) else {
        return None;
    };
    if sized.width != width {
        return None;
    }
    let Cell::Mem { depth, .. } = sized.cell else {
        return None;
    };
    Some((NetId(number), depth))
}

fn has_room(depth: u32, width: u32) -> bool
    ensures { IsTrue result → 2 ^ width ≤ depth }
{
    width < 32 && 1u32 << width <= depth
}

/// The net of a number, if it is an address of a memory of this depth.
pub fn address(nl: &Netlist, number: u32, depth: u32) -> Option<NetId>
    ensures { IfSome result (λ n. IsAddress nl.now.cells n.0 depth) }
{
    let Some(net) = any_net(nl, number) else {
        return None;
    };
    let width = width_at(nl, net).bits();
    if !has_room(depth, width) {
        return None;
    }
    Some(net)
}

/// Adds the sum of two nets, and says so where the netlist is full.
pub fn add_sum(nl: &mut Netlist, a: NetId, b: NetId, width: Width) -> Result<NetId, NetFault>
    requires left { IsNet nl.old.cells a.0 width }
    requires right { IsNet nl.old.cells b.0 width }
{
    nl.add(width, Cell::Op(WordOp::Add, [a, b, a]))
}
