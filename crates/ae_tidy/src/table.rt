// Which net stands in the place of each old one.

ghost use Rattle.std.specs.Prelude.{◌≡◌, ◌++◌, ◌∷◌, [], OnOk, None, Some};
ghost use Rattle.ae_tidy.specs.Copies.{IsMapped};
ghost use Rattle.ae_tidy.specs.Images.{IsImage, Maps, late_cell};
ghost use Rattle.ae_tidy.specs.Marks.{EachRead};

use ae_netlist::{Cell, NetId};
use std::alloc::{AllocError, Global};

/// For each old net the net in its place, if it is kept; and for each new cell the old one that it was made of.
#[derive(Drop)]
pub struct Table {
    pub at: Vec<Option<NetId>>,
    pub made: Vec<NetId>,
}

/// Whether a register or a memory takes a net that does not stand before it.
pub fn is_late(own: NetId, cell: Cell) -> bool
    ensures { result ≡ late_cell own.0 cell }
{
    match cell {
        Cell::Reg { next } => own.0 <= next.0,
        Cell::Mem {
            depth: _,
            at,
            next,
            enable,
        } => own.0 <= at.0 || own.0 <= next.0 || own.0 <= enable.0,
        Cell::Input(_) | Cell::Const(_) | Cell::Op(_, _) | Cell::Peek { .. } => false,
    }
}

impl Table {
    pub fn new(alloc: Global) -> Table
        ensures at { result.at.items ≡ [] }
        ensures made { result.made.items ≡ [] }
    {
        Table {
            at: Vec::new(alloc),
            made: Vec::new(alloc),
        }
    }

    /// The next old net has none in its place.
    pub fn skip(&mut self) -> Result<(), AllocError>
        ensures at { OnOk result (self.new.at.items ≡ self.old.at.items ++ None ∷ []) }
        ensures made { OnOk result (self.new.made.items ≡ self.old.made.items) }
    {
        self.at.push(None)?;
        Ok(())
    }

    /// The next old net has this one in its place, which was made before.
    pub fn merge(&mut self, net: NetId) -> Result<(), AllocError>
        ensures at { OnOk result (self.new.at.items ≡ self.old.at.items ++ (Some net) ∷ []) }
        ensures made { OnOk result (self.new.made.items ≡ self.old.made.items) }
    {
        self.at.push(Some(net))?;
        Ok(())
    }

    /// The next old net, `old`, has this one in its place, which was made of it.
    pub fn add(&mut self, old: NetId, net: NetId) -> Result<(), AllocError>
        ensures at { OnOk result (self.new.at.items ≡ self.old.at.items ++ (Some net) ∷ []) }
        ensures made { OnOk result (self.new.made.items ≡ self.old.made.items ++ old ∷ []) }
    {
        self.at.push(Some(net))?;
        self.made.push(old)?;
        Ok(())
    }

    /// The net in the place of an old one.
    pub fn net(&self, old: NetId) -> NetId
        requires { IsMapped self.now.at.items old.0 }
        ensures { Maps self.now.at.items old.0 result.0 }
    {
        match self.at[old.0 as usize] {
            Some(net) => net,
            None => unreachable!(),
        }
    }

    /// A cell on the nets in the places of those that it reads.
    pub fn image(&self, cell: Cell) -> Cell
        requires { EachRead (IsMapped self.now.at.items) cell }
        ensures { IsImage self.now.at.items cell result }
    {
        match cell {
            Cell::Op(op, args) => {
                Cell::Op(
                    op,
                    [self.net(args[0]), self.net(args[1]), self.net(args[2])],
                )
            }
            Cell::Reg { next } => Cell::Reg {
                next: self.net(next),
            },
            Cell::Mem {
                depth,
                at,
                next,
                enable,
            } => Cell::Mem {
                depth,
                at: self.net(at),
                next: self.net(next),
                enable: self.net(enable),
            },
            Cell::Peek { mem, at } => Cell::Peek {
                mem: self.net(mem),
                at: self.net(at),
            },
            Cell::Input(_) | Cell::Const(_) => cell,
        }
    }
}
