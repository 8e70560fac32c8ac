// Sequence types.

ghost use Rattle.std.specs.Prelude.{◌≡◌, ◌++◌, IfOk, IsTrue, OnOk, nat_le};
ghost use Rattle.std.specs.Option.{option_copied};
ghost use Rattle.std.specs.String.{string_bytes};
ghost use Rattle.ae_word.specs.AtomTree.{atom_kinds, atom_tree};
ghost use Rattle.ae_seqtype.specs.SeqTree.{atom_of, atoms, depth, few, in_size, kinds, parts_in_size, same_type, seq_tree, words};
ghost use Rattle.ae_seqtype.specs.TypeText.{type_text};
ghost use Rattle.ae_seqtype.specs.ValueTree.{after, fit_kinds};

use ae_word::{Atom, fits_width};
use itoa::Buffer;
use std::alloc::{AllocError, Global};

/// The type of a value: an atom, or a sequence of so many elements of a type (`Seq n t` of Durst et al., PLDI 2020).
#[derive(Debug, Drop)]
pub enum SeqType {
    Atom(Atom),
    Seq(u32, Box<SeqType>),
}

impl SeqType {
    /// Whether a program may have the type: each length is 1 to 4,096, each width 1 to 64, sequences nest at most 6 deep,
    /// pairs nest at most 6 deep, and there are at most 16,384 words.
    pub fn in_size(&self) -> bool
        ensures { result ≡ in_size (seq_tree self.now) }
    {
        self.has_parts_in_size() && self.nests_within(6) && self.few_words().is_some()
    }

    /// How many atoms a value has.
    pub fn atoms(&self) -> u32
        requires { IsTrue (in_size (seq_tree self.now)) }
        ensures { result ≡ atoms (seq_tree self.now) }
    {
        match self {
            SeqType::Atom(_) => 1,
            SeqType::Seq(count, of) => count * of.atoms(),
        }
    }

    /// How deep sequences nest.
    pub fn depth(&self) -> u32
        requires { IsTrue (in_size (seq_tree self.now)) }
        ensures { result ≡ depth (seq_tree self.now) }
    {
        match self {
            SeqType::Atom(_) => 0,
            SeqType::Seq(_, of) => of.depth() + 1,
        }
    }

    /// How many words a value has.
    pub fn words(&self) -> u32
        requires { IsTrue (in_size (seq_tree self.now)) }
        ensures { result ≡ words (seq_tree self.now) }
    {
        match self {
            SeqType::Atom(atom) => atom.words(),
            SeqType::Seq(count, of) => count * of.words(),
        }
    }

    /// The atom that all elements are made of.
    pub fn atom(&self) -> &Atom
        ensures { atom_tree result.now ≡ atom_of (seq_tree self.now) }
    {
        match self {
            SeqType::Atom(atom) => atom,
            SeqType::Seq(_, of) => of.atom(),
        }
    }

    /// Whether the two are the same type.
    pub fn is_same(&self, other: &SeqType) -> bool
        ensures { result ≡ same_type (seq_tree self.now) (seq_tree other.now) }
    {
        match (self, other) {
            (SeqType::Atom(a), SeqType::Atom(b)) => a.is_same(b),
            (SeqType::Seq(n, t), SeqType::Seq(m, u)) => n == m && t.is_same(u),
            _ => false,
        }
    }

    /// An equal type; an error only for want of memory.
    pub fn copy(&self, alloc: Global) -> Result<SeqType, AllocError>
        ensures { IfOk result (λ t. seq_tree t ≡ seq_tree self.now) }
    {
        match self {
            SeqType::Atom(atom) => Ok(SeqType::Atom(atom.copy(alloc)?)),
            SeqType::Seq(count, of) => {
                let of = Box::new(alloc, of.copy(alloc)?)?;
                Ok(SeqType::Seq(*count, of))
            }
        }
    }

    /// The type's spelling, as `[2][4](u8,i16)`; an error only for want of memory.
    pub fn print(&self, alloc: Global) -> Result<String, AllocError>
        ensures { IfOk result (λ s. string_bytes s ≡ type_text (seq_tree self.now)) }
    {
        let mut out = String::new(alloc);
        self.write_to(&mut out)?;
        Ok(out)
    }

    /// Appends the type's spelling; after an error, which comes only for want of memory, a part of it may stand there.
    pub fn write_to(&self, out: &mut String) -> Result<(), AllocError>
        ensures { OnOk result (string_bytes out.new ≡ string_bytes out.old ++ type_text (seq_tree self.now)) }
    {
        match self {
            SeqType::Atom(atom) => atom.write_to(out),
            SeqType::Seq(count, of) => {
                out.push_str("[")?;
                out.push_str(Buffer::new().format(*count))?;
                out.push_str("]")?;
                of.write_to(out)
            }
        }
    }

    /// Whether the words are those of a value of the type: as many as it has, each below 2 to its width.
    pub fn fits_words(&self, words: &[u64]) -> bool
        ensures { result ≡ fit_kinds words.now (kinds (seq_tree self.now)) }
    {
        match self.after_value(words) {
            Some(rest) => rest.is_empty(),
            None => false,
        }
    }

    // What is left after the words of a value of the type, if the words begin with one.
    pub(crate) fn after_value<'a>(&self, words: &'a [u64]) -> Option<&'a [u64]>
        ensures { option_copied result ≡ after (kinds (seq_tree self.now)) words.now }
    {
        match self {
            SeqType::Atom(atom) => after_atom(atom, words),
            SeqType::Seq(count, of) => {
                let mut rest = words;
                for _turn in 0..*count {
                    rest = of.after_value(rest)?;
                }
                Some(rest)
            }
        }
    }

    fn has_parts_in_size(&self) -> bool
        ensures { result ≡ parts_in_size (seq_tree self.now) }
    {
        match self {
            SeqType::Atom(atom) => atom.in_size(),
            SeqType::Seq(count, of) => 1 <= *count && *count <= 4096 && of.has_parts_in_size(),
        }
    }

    fn nests_within(&self, levels: u32) -> bool
        ensures { result ≡ nat_le (depth (seq_tree self.now)) levels }
    {
        match self {
            SeqType::Atom(_) => true,
            SeqType::Seq(_, of) => levels > 0 && of.nests_within(levels - 1),
        }
    }

    // The number of words, where it is at most 16,384.
    fn few_words(&self) -> Option<u32>
        requires { IsTrue (parts_in_size (seq_tree self.now)) }
        ensures { result ≡ few (words (seq_tree self.now)) }
    {
        match self {
            SeqType::Atom(atom) => Some(atom.words()),
            SeqType::Seq(count, of) => {
                let all = *count * of.few_words()?;
                (all <= 16384).then_some(all)
            }
        }
    }
}

// What is left after an atom's words, if the words begin with them.
fn after_atom<'a>(atom: &Atom, words: &'a [u64]) -> Option<&'a [u64]>
    ensures { option_copied result ≡ after (atom_kinds (atom_tree atom.now)) words.now }
{
    match atom {
        Atom::Word(width) | Atom::Int(width) => {
            let (first, rest) = words.split_first()?;
            if fits_width(*first, *width) {
                Some(rest)
            } else {
                None
            }
        }
        Atom::Pair(first, second) => after_atom(second, after_atom(first, words)?),
    }
}
