// The codes of a header.

ghost use Rattle.std.specs.Prelude.{◌≡◌, [], ◌∷◌, ◌++◌, None, OnOk, length};
ghost use Rattle.ae_vcd.specs.Codes.{place};

use ae_keyed::Keyed;
use indexmap::IndexMap;
use std::alloc::{AllocError, Global};
use std::marker::Model;

/// Codes, each once: the number of a code is how many came before it.
#[derive(Drop)]
pub struct Codes {
    numbers: IndexMap<Vec<u8>, (), Keyed>,
}

impl Model for Codes {
    ghost use Rattle.std.specs.Prelude.{List, ℕ};
    ghost use Rattle.ae_vcd.specs.Codes.{codes_of};

    ghost Value = { List (List ℕ) };

    ghost view = { λ c. codes_of c.numbers.entries };
}

impl Codes {
    /// No codes.
    pub fn new(alloc: Global, keyed: Keyed) -> Codes
        ensures { result ≡ [] }
    {
        Codes {
            numbers: IndexMap::with_hasher(alloc, keyed),
        }
    }

    /// How many codes there are.
    pub fn len(&self) -> usize
        ensures { result ≡ length self.now }
    {
        self.numbers.len()
    }

    /// The number of a code.
    pub fn find(&self, code: &[u8]) -> Option<usize>
        ensures { result ≡ place code.now self.now }
    {
        self.numbers.get_index_of(code)
    }

    /// Puts a code behind the others.
    pub fn add(&mut self, alloc: Global, code: &[u8]) -> Result<(), AllocError>
        requires { place code.now self.old ≡ None }
        ensures { OnOk result (self.new ≡ self.old ++ code.now ∷ []) }
    {
        let mut key = Vec::new(alloc);
        key.extend_from_slice(code)?;
        self.numbers.insert(key, ())?;
        Ok(())
    }
}
