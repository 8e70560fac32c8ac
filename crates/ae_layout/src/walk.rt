// Going over the slots of a type.

ghost use Rattle.std.specs.Prelude.{◌≡◌};
ghost use Rattle.ae_sttype.specs.StTree.{st_tree};
ghost use Rattle.ae_sttype.specs.Slots.{slots as slots_of};
ghost use Rattle.ae_sttype.specs.Size.{IsInSize};
ghost use Rattle.ae_layout.specs.Rest.{slots_left};

use crate::SlotIter;
use ae_sttype::StType;

/// The slots of elements 0 upwards, exactly those of the type.
pub fn slots(s: &StType) -> SlotIter<'_>
    requires { IsInSize (st_tree s.now) }
    ensures { slots_left result ≡ slots_of (st_tree s.now) }
{
    SlotIter::new(s)
}
