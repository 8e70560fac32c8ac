// What registers and memories take at a clock edge, by the places of their names.

ghost use Rattle.std.specs.Prelude.{◌≡◌, ◌<◌, ◌^◌, Some, length, replicate, slice_get, slice_set, OnErr, OnOk};

use crate::statements::Next;
use ae_order::Sparse;
use std::alloc::{AllocError, Global};
use std::marker::Model;

/// What registers and memories take, by places. It takes no memory where nothing is assigned, and else four bytes a place beside what
/// is assigned.
#[derive(Drop)]
pub struct Nexts {
    assigned: Sparse<Next>,
}

impl Model for Nexts {
    ghost use Rattle.std.specs.Prelude.{List, map};
    ghost use Rattle.ae_assign.specs.Assigned.{next_of};
    ghost use Rattle.ae_assign.specs.declared.statements.Next.{Next};

    ghost Value = { List Next };

    ghost view = { λ n. map next_of n.assigned };
}

impl Nexts {
    /// So many places at which nothing is assigned.
    pub fn none(alloc: Global, count: usize) -> Nexts
        requires few { count < 2 ^ 32 }
        ensures { result ≡ replicate count Next.Keep }
    {
        Nexts {
            assigned: Sparse::none(alloc, count),
        }
    }

    /// What is taken at a place.
    pub fn at(&self, place: usize) -> Next
        requires inside { place < length self.now }
        ensures { slice_get self.now place ≡ Some result }
    {
        match self.assigned.at(place) {
            Some(next) => next,
            None => Next::Keep,
        }
    }

    /// Sets what is taken at a place. Nothing has changed where memory ran out.
    pub fn set(&mut self, place: usize, next: Next) -> Result<(), AllocError>
        requires inside { place < length self.old }
        ensures ok { OnOk result (self.new ≡ slice_set self.old place next) }
        ensures err { OnErr result (self.new ≡ self.old) }
    {
        self.assigned.set(place, next)
    }
}
