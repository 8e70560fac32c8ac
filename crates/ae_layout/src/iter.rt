// The slots of a type one after the other.

ghost use Rattle.std.specs.Prelude.{◌≡◌, ◌≤◌};
ghost use Rattle.ae_sttype.specs.StTree.{st_tree, st_atoms};
ghost use Rattle.ae_sttype.specs.Size.{IsInSize, IsInSize-prop};

use ae_sttype::{Slot, StType};

/// The slots of elements 0 upwards; it ends after the last.
#[derive(Drop)]
pub struct SlotIter<'a> {
    of: &'a StType,
    next: u32,
    end: u32,
    ghost whole: { IsInSize (st_tree of.now) } by { IsInSize-prop (st_tree of.now) },
    ghost ends: { end ≡ st_atoms (st_tree of.now) },
    ghost within: { next ≤ end },
}

impl<'a> Iterator for SlotIter<'a> {
    ghost use Rattle.std.specs.Iterator.{YieldsFirst, item_count};
    ghost use Rattle.ae_layout.specs.Rest.{slots_left};

    type Item = Slot;

    ghost next_gives = { YieldsFirst slots_left };

    ghost remaining = { item_count slots_left };

    fn next(&mut self) -> Option<Slot> {
        if self.next == self.end {
            return None;
        }
        let slot = self.of.slot(self.next);
        self.next += 1;
        Some(slot)
    }
}

impl<'a> SlotIter<'a> {
    ghost use Rattle.ae_layout.specs.Rest.{slots_left};
    ghost use Rattle.ae_sttype.specs.Slots.{slots as slots_of};

    // The slots from the first on.
    pub(crate) fn new(of: &'a StType) -> SlotIter<'a>
        requires { IsInSize (st_tree of.now) }
        ensures { slots_left result ≡ slots_of (st_tree of.now) }
    {
        SlotIter {
            of,
            next: 0,
            end: of.atoms(),
        }
    }
}
