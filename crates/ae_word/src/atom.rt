// Atoms: words, and pairs of atoms.

ghost use Rattle.std.specs.Prelude.{◌≡◌, ◌+◌, ◌<◌, ◌≤◌, ◌++◌, IfOk, IsTrue, MatchResult, OnOk, Some, length, nat_le, slice_get};
ghost use Rattle.std.specs.Fmt.{decimal};
ghost use Rattle.std.specs.Option.{option_map};
ghost use Rattle.std.specs.String.{string_bytes};
ghost use Rattle.ae_word.specs.AtomText.{atom_text};
ghost use Rattle.ae_word.specs.AtomTree.{WordKind, atom_in_size, atom_kinds, atom_tree, atom_words, kind_tree, pair_depth, same_atom, widths_in_range};

use crate::width::Width;
use itoa::Buffer;
use std::alloc::{AllocError, Global};

/// What one place of a sequence holds: a word, or a pair of atoms.
#[derive(Debug, Drop)]
pub enum Atom {
    /// An unsigned word of so many bits, written `u8`.
    Word(u32),
    /// A signed word of so many bits, written `i8`; it is kept as its code.
    Int(u32),
    /// The words of the first part before those of the second.
    Pair(Box<Atom>, Box<Atom>),
}

/// The kind of a word: whether it is signed, and its width in bits.
#[derive(Clone, Copy, Debug)]
struct Kind {
    signed: bool,
    width: u32,
}

impl Atom {
    /// How many words the atom has, at most 64.
    pub fn words(&self) -> u32
        requires { pair_depth (atom_tree self.now) ≤ 6 }
        ensures { result ≡ atom_words (atom_tree self.now) }
    {
        match self {
            Atom::Word(_) | Atom::Int(_) => 1,
            Atom::Pair(first, second) => first.words() + second.words(),
        }
    }

    /// The width in bits of word k, counted from 0; None exactly where there is no word k.
    pub fn width(&self, k: u32) -> Option<u32>
        ensures { result ≡ option_map (λ (w : WordKind). w.width) (slice_get (atom_kinds (atom_tree self.now)) k) }
    {
        match self.find(k) {
            Ok(kind) => Some(kind.width),
            Err(_) => None,
        }
    }

    /// The width of word k, counted from 0, of an atom in size.
    pub fn word_width(&self, k: u32) -> Width
        requires in_size { IsTrue (atom_in_size (atom_tree self.now)) }
        requires there { k < length (atom_kinds (atom_tree self.now)) }
        ensures { option_map (λ (w : WordKind). w.width) (slice_get (atom_kinds (atom_tree self.now)) k) ≡ Some result }
    {
        match self.find(k) {
            Ok(kind) => Width { bits: kind.width },
            Err(_) => unreachable!(),
        }
    }

    /// Whether word k, counted from 0, is signed; None exactly where there is no word k.
    pub fn signed(&self, k: u32) -> Option<bool>
        ensures { result ≡ option_map (λ (w : WordKind). w.signed) (slice_get (atom_kinds (atom_tree self.now)) k) }
    {
        match self.find(k) {
            Ok(kind) => Some(kind.signed),
            Err(_) => None,
        }
    }

    /// Whether a program may have the atom: widths are 1 to 64, and pairs nest at most 6 deep.
    pub fn in_size(&self) -> bool
        ensures { result ≡ atom_in_size (atom_tree self.now) }
    {
        self.has_widths() && self.nests_within(6)
    }

    /// Whether the two are the same atom.
    pub fn is_same(&self, other: &Atom) -> bool
        ensures { result ≡ same_atom (atom_tree self.now) (atom_tree other.now) }
    {
        match (self, other) {
            (Atom::Word(w), Atom::Word(v)) => w == v,
            (Atom::Int(w), Atom::Int(v)) => w == v,
            (Atom::Pair(a, b), Atom::Pair(c, d)) => a.is_same(c) && b.is_same(d),
            _ => false,
        }
    }

    /// An equal atom; an error only for want of memory.
    pub fn copy(&self, alloc: Global) -> Result<Atom, AllocError>
        ensures { IfOk result (λ a. atom_tree a ≡ atom_tree self.now) }
    {
        match self {
            Atom::Word(width) => Ok(Atom::Word(*width)),
            Atom::Int(width) => Ok(Atom::Int(*width)),
            Atom::Pair(first, second) => {
                let first = Box::new(alloc, first.copy(alloc)?)?;
                let second = Box::new(alloc, second.copy(alloc)?)?;
                Ok(Atom::Pair(first, second))
            }
        }
    }

    /// Appends the atom's spelling, `u8`, `i8` or `(A,B)`; after an error, which comes only for want of memory, a part
    /// of it may stand there.
    pub fn write_to(&self, out: &mut String) -> Result<(), AllocError>
        ensures { OnOk result (string_bytes out.new ≡ string_bytes out.old ++ atom_text (atom_tree self.now)) }
    {
        match self {
            Atom::Word(width) => write_word(out, "u", *width),
            Atom::Int(width) => write_word(out, "i", *width),
            Atom::Pair(first, second) => {
                out.push_str("(")?;
                first.write_to(out)?;
                out.push_str(",")?;
                second.write_to(out)?;
                out.push_str(")")
            }
        }
    }

    // Word k's kind, or how many words there would have to be more.
    fn find(&self, k: u32) -> Result<Kind, u32>
        ensures { MatchResult result
            (λ kind. slice_get (atom_kinds (atom_tree self.now)) k ≡ Some (kind_tree kind))
            (λ rest. length (atom_kinds (atom_tree self.now)) + rest ≡ k) }
    {
        match self {
            Atom::Word(width) => word_found(
                k,
                Kind {
                    signed: false,
                    width: *width,
                },
            ),
            Atom::Int(width) => word_found(
                k,
                Kind {
                    signed: true,
                    width: *width,
                },
            ),
            Atom::Pair(first, second) => match first.find(k) {
                Ok(kind) => Ok(kind),
                Err(rest) => second.find(rest),
            },
        }
    }

    fn has_widths(&self) -> bool
        ensures { result ≡ widths_in_range (atom_tree self.now) }
    {
        match self {
            Atom::Word(width) | Atom::Int(width) => 1 <= *width && *width <= 64,
            Atom::Pair(first, second) => first.has_widths() && second.has_widths(),
        }
    }

    fn nests_within(&self, levels: u32) -> bool
        ensures { result ≡ nat_le (pair_depth (atom_tree self.now)) levels }
    {
        match self {
            Atom::Word(_) | Atom::Int(_) => true,
            Atom::Pair(first, second) => {
                levels > 0 && first.nests_within(levels - 1) && second.nests_within(levels - 1)
            }
        }
    }
}

// The one word's kind as word 0.
fn word_found(k: u32, kind: Kind) -> Result<Kind, u32>
    ensures { MatchResult result (λ found. (k ≡ 0) × (found ≡ kind)) (λ rest. 1 + rest ≡ k) }
{
    if k == 0 { Ok(kind) } else { Err(k - 1) }
}

// A letter and a number after it.
fn write_word(out: &mut String, letter: &str, width: u32) -> Result<(), AllocError>
    ensures { OnOk result (string_bytes out.new ≡ string_bytes out.old ++ letter.now ++ decimal width) }
{
    out.push_str(letter)?;
    out.push_str(Buffer::new().format(width))
}
