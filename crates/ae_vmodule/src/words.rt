// The different names of a text, by numbers.

ghost use Rattle.std.specs.Prelude.{◌≡◌, ◌<◌, ◌≤◌, ◌+◌, ◌^◌, [], bytes_eq, length, slice_get, Some, IfOk};
ghost use Rattle.std.specs.List.{IsDistinct};
ghost use Rattle.ae_vmodule.specs.View.{word_at};
ghost use Rattle.ae_vmodule.specs.Words.{Extends};

use ae_keyed::Keyed;
use indexmap::IndexSet;
use std::alloc::{AllocError, Global};
use std::marker::Model;

/// Names, each once: the number of a name is how many came before it. They are borrowed from the text.
#[derive(Drop)]
pub struct Words<'a> {
    numbers: IndexSet<&'a str, Keyed>,
}

impl<'a> Model for Words<'a> {
    ghost use Rattle.std.specs.Prelude.{List, ℕ};
    ghost use Rattle.ae_vmodule.specs.Words.{words_of};

    ghost Value = { List (List ℕ) };

    ghost view = { λ w. words_of w.numbers.keys };
}

impl<'a> Words<'a> {
    /// No names.
    pub fn new(alloc: Global, keyed: Keyed) -> Words<'a>
        ensures { result ≡ [] }
    {
        Words {
            numbers: IndexSet::with_hasher(alloc, keyed),
        }
    }

    /// The number of a name, which goes behind the others unless it is there.
    pub fn number(&mut self, word: &'a str) -> Result<u32, AllocError>
        requires few { length self.old < 2 ^ 32 }
        ensures number { IfOk result (λ k. slice_get self.new k ≡ Some word.now) }
        ensures extends { Extends self.old self.new }
        ensures few { length self.new ≤ length self.old + 1 }
    {
        let (number, _) = self.numbers.insert_full(word)?;
        Ok(number as u32)
    }

    /// All names, without what finds a name among them: that takes as much memory as the names themselves.
    pub fn listed(self) -> Result<WordList<'a>, AllocError>
        ensures { IfOk result (λ list. list ≡ self.entry) }
    {
        let keyed = *self.numbers.hasher();
        let words = Vec::from_iter(*self.numbers.allocator(), self.numbers)?;
        Ok(WordList { words, keyed })
    }
}

/// The different names of a text that was read, by their numbers. They are borrowed from the text.
#[derive(Drop)]
pub struct WordList<'a> {
    words: Vec<&'a str>,
    keyed: Keyed,
}

impl<'a> Model for WordList<'a> {
    ghost use Rattle.std.specs.List.{IsDistinct};
    ghost use Rattle.std.specs.Prelude.{List, ℕ, bytes_eq};
    ghost use Rattle.ae_vmodule.specs.Words.{words_of};

    ghost Value = { List (List ℕ) };

    ghost view = { λ w. words_of w.words.items };

    ghost invariant = { λ w. IsDistinct bytes_eq (words_of w.words.items) };
}

impl<'a> WordList<'a> {
    /// No two of them are equal.
    pub fn apart(&self)
        ensures { IsDistinct bytes_eq self.now }
    {
        let _len = self.words.len();
    }

    /// How names of the text are hashed.
    pub fn keyed(&self) -> Keyed {
        self.keyed
    }

    /// How many names there are.
    pub fn len(&self) -> usize
        ensures { result ≡ length self.now }
    {
        self.words.len()
    }

    /// The name of a number; of one that no name has it is empty.
    pub fn name(&self, number: u32) -> &'a str
        ensures { result.now ≡ word_at self.now number }
    {
        match self.words.get(number as usize) {
            Some(word) => *word,
            None => "",
        }
    }
}
