// Names in scope.

ghost use Rattle.std.specs.Prelude.{◌≡◌, [], ◌∷◌, ◌++◌, IfOk, OnErr, OnOk, not, if◌then◌else◌};
ghost use Rattle.ae_fields.specs.Scopes.{place, is_known};

use indexmap::IndexMap;
use std::alloc::{AllocError, Global};
use std::marker::Model;

/// The names in scope: the number of a name is how many came before it.
#[derive(Drop)]
pub struct Scope {
    names: IndexMap<Vec<u8>, ()>,
}

impl Model for Scope {
    ghost use Rattle.std.specs.Prelude.{List, ℕ};
    ghost use Rattle.ae_fields.specs.Scopes.{names_of};

    ghost Value = { List (List ℕ) };

    ghost view = { λ s. names_of s.names.entries };
}

impl Scope {
    /// No names.
    pub fn new(alloc: Global) -> Scope
        ensures { result ≡ [] }
    {
        Scope {
            names: IndexMap::new(alloc),
        }
    }

    /// The number of a name.
    pub fn find(&self, name: &[u8]) -> Option<usize>
        ensures { result ≡ place name.now self.now }
    {
        self.names.get_index_of(name)
    }

    /// Puts a name after the others, if it is not there yet, and says whether it was not.
    pub fn add(&mut self, alloc: Global, name: &[u8]) -> Result<bool, AllocError>
        ensures added { IfOk result (λ b. b ≡ not (is_known name.now self.old)) }
        ensures names { OnOk result (self.new ≡ (if is_known name.now self.old then self.old else self.old ++ name.now ∷ [])) }
        ensures unchanged { OnErr result (self.new ≡ self.old) }
    {
        if self.find(name).is_some() {
            return Ok(false);
        }
        let mut key = Vec::new(alloc);
        key.extend_from_slice(name)?;
        self.names.insert(key, ())?;
        Ok(true)
    }
}
