// Names that were seen.

ghost use Rattle.std.specs.Prelude.{◌≡◌, [], IfOk, OnOk, is_some};
ghost use Rattle.ae_vmodule.specs.View.{word_at};
ghost use Rattle.ae_judge.specs.Places.{place_in, with_place};

use crate::names::Names;
use std::alloc::{AllocError, Global};
use std::marker::Model;

/// Names of a module that were seen, each once. One that is declared is marked at the place of its declaration.
#[derive(Drop)]
pub struct Seen<'m> {
    names: &'m Names<'m>,
    order: Vec<u32>,
    marks: Vec<bool>,
}

impl<'m> Model for Seen<'m> {
    ghost use Rattle.ae_judge.specs.Seen.{AreMarked, SeenNames, entries_of};

    ghost Value = { SeenNames };

    ghost view = { λ s. record { table = s.names.now; entries = entries_of s.names.now.words s.order.items } };

    ghost invariant = { λ s. AreMarked s.names.now.nets (entries_of s.names.now.words s.order.items) s.marks.items };
}

impl<'m> Seen<'m> {
    /// None of the names of a table.
    #[tactic(auto, using(crate::proofs::SeenLaws::none_marked))]
    pub fn of(alloc: Global, names: &'m Names<'m>) -> Result<Seen<'m>, AllocError>
        ensures { IfOk result (λ s. s ≡ record { table = names.now; entries = [] }) }
    {
        let marks = vec![in alloc; false; names.len()]?;
        Ok(Seen {
            names,
            order: Vec::new(alloc),
            marks,
        })
    }

    /// The table of the names.
    pub fn names(&self) -> &'m Names<'m>
        ensures { result.now ≡ self.now.table }
    {
        self.names
    }

    /// Whether a name with this text is among those that were seen, in time linear in them.
    fn lists(&self, word: &str) -> bool
        ensures { result ≡ is_some (place_in self.now.entries word.now) }
    {
        'name: for name in &self.order {
            if word == self.names.word(*name) {
                return true;
            }
        }
        false
    }

    /// Whether a name was seen.
    pub fn has(&self, name: u32) -> bool
        ensures { result ≡ is_some (place_in self.now.entries (word_at self.now.table.words name)) }
    {
        match self.names.place(name) {
            Some(place) => self.marks[place],
            None => self.lists(self.names.word(name)),
        }
    }

    /// Sees a name, and tells whether it was seen before.
    pub fn put(&mut self, name: u32) -> Result<bool, AllocError>
        ensures put { OnOk result (self.new ≡ record self.old { entries = with_place self.old.entries (word_at self.old.table.words name) 0 }) }
        ensures there { IfOk result (λ b. b ≡ is_some (place_in self.old.entries (word_at self.old.table.words name))) }
    {
        if self.has(name) {
            return Ok(true);
        }
        let place = self.names.place(name);
        self.order.push(name)?;
        if let Some(place) = place {
            self.marks[place] = true;
        }
        Ok(false)
    }
}
