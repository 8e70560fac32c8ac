// Values.

ghost use Rattle.std.specs.Prelude.{◌↔◌, IsTrue};
ghost use Rattle.ae_seqtype.specs.SeqTree.{seq_tree};
ghost use Rattle.ae_seqtype.specs.ValueTree.{Fit};

use crate::SeqType;
use std::marker::Model;

/// A value: its words in row-major order, of a pair the words of the first part before those of the second.
#[derive(Debug, Drop)]
pub struct Value {
    pub words: Vec<u64>,
}

impl Model for Value {
    ghost use Rattle.std.specs.Prelude.{List, ℕ};

    ghost Value = { List ℕ };

    ghost view = { λ v. v.words.items };
}

impl Value {
    /// Whether the words are those of a value of the type: as many as it has, each below 2 to its width.
    pub fn fits(&self, t: &SeqType) -> bool
        ensures { IsTrue result ↔ Fit (seq_tree t.now) self.now }
    {
        match t.after_value(&self.words) {
            Some(rest) => rest.is_empty(),
            None => false,
        }
    }
}
