// Declared names in few bytes.

ghost use Rattle.std.specs.Prelude.{◌≡◌, ◌≤◌, false};
ghost use Rattle.ae_vmodule.specs.PackedNets.{FitsKind, kept_kind};

use crate::module::{NetKind, VNet};
use std::marker::Model;

/// A declared name in 12 bytes: half of what a `VNet` takes.
#[derive(Debug, Drop)]
pub struct PackedNet {
    name: u32,
    item: u32,
    /// The number of the last word of a memory; 0 where there is none.
    last: u16,
    /// The width in bits, where there is a range; else 0, and the width is 1.
    range: u8,
    kind: PackedKind,
}

/// The kind of a declared name, but for the depth of a memory.
#[derive(Clone, Copy, Debug)]
enum PackedKind {
    Input,
    Wire,
    OutWire,
    Reg,
    OutReg,
    Memory,
    /// A memory of 65,537 words: the number of the last one does not fit 16 bits.
    DeepMemory,
}

impl Model for PackedNet {
    ghost use Rattle.ae_vmodule.specs.declared.module.VNet.{VNet};
    ghost use Rattle.ae_vmodule.specs.PackedNets.{kept_ranged, kept_kind, kept_width};

    ghost Value = { VNet };

    ghost view = { λ n. record { name = n.name; width = kept_width n.range; ranged = kept_ranged n.range; kind = kept_kind n.kind n.last; item = n.item } };
}

/// A kind without its depth, and the number of the last word of a memory.
fn pack_kind(kind: NetKind) -> (PackedKind, u16)
    requires { FitsKind kind }
    ensures { kept_kind result.0 result.1 ≡ kind }
{
    match kind {
        NetKind::Input => (PackedKind::Input, 0),
        NetKind::Wire => (PackedKind::Wire, 0),
        NetKind::OutWire => (PackedKind::OutWire, 0),
        NetKind::Reg => (PackedKind::Reg, 0),
        NetKind::OutReg => (PackedKind::OutReg, 0),
        NetKind::Memory(depth) => {
            if depth > 65536 {
                (PackedKind::DeepMemory, 0)
            } else {
                (PackedKind::Memory, (depth - 1) as u16)
            }
        }
    }
}

impl PackedNet {
    /// A declared name of at most 255 bits; a memory has at most 65,537 words.
    pub fn of(net: VNet) -> PackedNet
        requires low { 1 ≤ net.width }
        requires high { net.width ≤ 255 }
        requires plain { net.ranged ≡ false → net.width ≡ 1 }
        requires kind { FitsKind net.kind }
        ensures { result ≡ net }
    {
        let (kind, last) = pack_kind(net.kind);
        PackedNet {
            name: net.name,
            item: net.item,
            last,
            range: if net.ranged { net.width as u8 } else { 0 },
            kind,
        }
    }

    /// All of it.
    pub fn net(&self) -> VNet
        ensures { result ≡ self.now }
    {
        VNet {
            name: self.name,
            width: self.width(),
            ranged: self.ranged(),
            kind: self.kind(),
            item: self.item,
        }
    }

    pub fn name(&self) -> u32
        ensures { result ≡ self.now.name }
    {
        self.name
    }

    /// In bits.
    pub fn width(&self) -> u32
        ensures { result ≡ self.now.width }
    {
        if self.range == 0 {
            1
        } else {
            self.range as u32
        }
    }

    /// Whether its declaration or port group has a range.
    pub fn ranged(&self) -> bool
        ensures { result ≡ self.now.ranged }
    {
        self.range > 0
    }

    pub fn kind(&self) -> NetKind
        ensures { result ≡ self.now.kind }
    {
        match self.kind {
            PackedKind::Input => NetKind::Input,
            PackedKind::Wire => NetKind::Wire,
            PackedKind::OutWire => NetKind::OutWire,
            PackedKind::Reg => NetKind::Reg,
            PackedKind::OutReg => NetKind::OutReg,
            PackedKind::Memory => NetKind::Memory(self.last as u32 + 1),
            PackedKind::DeepMemory => NetKind::Memory(65537),
        }
    }

    /// The number of its item.
    pub fn item(&self) -> u32
        ensures { result ≡ self.now.item }
    {
        self.item
    }
}
