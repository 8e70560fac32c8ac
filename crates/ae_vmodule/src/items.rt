// The items of a module.

ghost use Rattle.std.specs.Prelude.{◌≡◌, ◌∷◌, [], Some, None};
ghost use Rattle.ae_vmodule.specs.Items.{always, assigns, nets, parts_item};
ghost use Rattle.ae_vmodule.specs.Listed.{listed};
ghost use Rattle.ae_vmodule.specs.declared.module.Drive.{Drive};

use crate::module::Drive;
use crate::symbols::{Stmt, StmtCode};
use std::marker::Model;
use std::slice::from_ref;

/// An item of a module: a declaration with the names that it gives a value, an `assign`, or an `always`. A drive that stands
/// alone takes no memory of its own.
#[derive(Debug, Drop)]
pub struct VItem {
    kept: Kept,
}

#[derive(Debug, Drop)]
enum Kept {
    Net(Drive),
    Nets(Vec<Drive>),
    Assign(Drive),
    Assigns(Vec<Drive>),
    Always { clock: u32, body: StmtCode },
}

/// What an item holds.
#[derive(Clone, Copy)]
pub enum ItemParts<'m> {
    /// A declaration: the names that it gives a value.
    Nets(&'m [Drive]),
    Assign(&'m [Drive]),
    Always { clock: u32, body: Stmt<'m> },
}

impl Model for VItem {
    ghost use Rattle.ae_vmodule.specs.Items.{Item, item_of};

    ghost Value = { Item };

    ghost view = { λ i. item_of i.kept };
}

/// The only one of drives, which goes; where there are others, they stay as they are.
fn take_only(drives: &mut Vec<Drive>) -> Option<Drive>
    ensures only { (d : Drive) → result ≡ Some d → drives.old.items ≡ d ∷ [] }
    ensures others { result ≡ None → drives.new.items ≡ drives.old.items }
{
    if drives.len() == 1 {
        drives.pop()
    } else {
        None
    }
}

impl VItem {
    /// A declaration with the names that it gives a value.
    pub fn nets(drives: Vec<Drive>) -> VItem
        ensures { result ≡ nets drives.items }
    {
        let mut drives = drives;
        match take_only(&mut drives) {
            Some(drive) => VItem {
                kept: Kept::Net(drive),
            },
            None => VItem {
                kept: Kept::Nets(drives),
            },
        }
    }

    /// An `assign` of drives.
    pub fn assigns(drives: Vec<Drive>) -> VItem
        ensures { result ≡ assigns drives.items }
    {
        let mut drives = drives;
        match take_only(&mut drives) {
            Some(drive) => VItem {
                kept: Kept::Assign(drive),
            },
            None => VItem {
                kept: Kept::Assigns(drives),
            },
        }
    }

    /// An `always` with a clock and a statement.
    pub fn always(clock: u32, body: StmtCode) -> VItem
        ensures { result ≡ always clock (listed body.symbols) }
    {
        VItem {
            kept: Kept::Always { clock, body },
        }
    }

    /// What it holds.
    pub fn parts(&self) -> ItemParts<'_>
        ensures { parts_item result ≡ self.now }
    {
        match &self.kept {
            Kept::Net(drive) => ItemParts::Nets(from_ref(drive)),
            Kept::Nets(drives) => ItemParts::Nets(drives.as_slice()),
            Kept::Assign(drive) => ItemParts::Assign(from_ref(drive)),
            Kept::Assigns(drives) => ItemParts::Assign(drives.as_slice()),
            Kept::Always { clock, body } => ItemParts::Always {
                clock: *clock,
                body: body.stmt(),
            },
        }
    }
}
