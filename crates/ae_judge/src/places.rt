// Names with places.

ghost use Rattle.std.specs.Prelude.{◌≡◌, [], IfOk, OnOk, is_some};
ghost use Rattle.ae_judge.specs.Places.{place_in, with_place};

use ae_keyed::Keyed;
use indexmap::IndexMap;
use std::alloc::{AllocError, Global};
use std::marker::Model;

/// Names, each with the place that it was first put in with. A look-up takes the time of its name; the names are borrowed.
#[derive(Drop)]
pub struct Places<'m> {
    first: IndexMap<&'m str, usize, Keyed>,
}

impl<'m> Model for Places<'m> {
    ghost use Rattle.std.specs.Prelude.{List};
    ghost use Rattle.ae_judge.specs.Places.{Entry, places_of};

    ghost Value = { List Entry };

    ghost view = { λ s. places_of s.first.entries };
}

impl<'m> Places<'m> {
    /// No names.
    pub fn new(alloc: Global, keyed: Keyed) -> Places<'m>
        ensures { result ≡ [] }
    {
        Places {
            first: IndexMap::with_hasher(alloc, keyed),
        }
    }

    /// No names, and room for so many.
    pub fn with_room(alloc: Global, keyed: Keyed, count: usize) -> Result<Places<'m>, AllocError>
        ensures { IfOk result (λ p. p ≡ []) }
    {
        Ok(Places {
            first: IndexMap::with_capacity_and_hasher(alloc, count, keyed)?,
        })
    }

    /// The allocator that it was made with.
    pub fn alloc(&self) -> Global {
        *self.first.allocator()
    }

    /// How its names are hashed.
    pub fn keyed(&self) -> Keyed {
        *self.first.hasher()
    }

    /// The place of a name.
    pub fn find(&self, name: &str) -> Option<usize>
        ensures { result ≡ place_in self.now name.now }
    {
        self.first.get(name).copied()
    }

    /// Whether a name is there.
    pub fn has(&self, name: &str) -> bool
        ensures { result ≡ is_some (place_in self.now name.now) }
    {
        self.find(name).is_some()
    }

    /// Puts a name in, unless it is there, and tells whether it was.
    pub fn put(&mut self, name: &'m str, place: usize) -> Result<bool, AllocError>
        ensures put { OnOk result (self.new ≡ with_place self.old name.now place) }
        ensures there { IfOk result (λ b. b ≡ is_some (place_in self.old name.now)) }
    {
        let before = self.first.len();
        self.first.entry(name)?.or_insert(place);
        Ok(self.first.len() == before)
    }
}
