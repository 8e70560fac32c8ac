// Space-time types, and where their elements stand.
#![tactic(auto, using(crate::proofs::Bounds::sizes))]

ghost use Rattle.std.specs.Prelude.{◌≡◌, ◌*◌, ◌/◌, ◌<◌, ◌++◌, ◌↔◌, slice_get, IsTrue, Some, IfOk, OnOk, nat_le, nat_lt};
ghost use Rattle.std.specs.String.{string_bytes};
ghost use Rattle.ae_word.specs.AtomTree.{atom_tree};
ghost use Rattle.ae_sttype.specs.StTree.{st_tree, time, lanes, st_atoms, st_depth, element_atom, element_words};
ghost use Rattle.ae_sttype.specs.Slots.{slots, IsLive, IsElementAt};
ghost use Rattle.ae_sttype.specs.Size.{IsInSize, HasLengths, at_most};
ghost use Rattle.ae_sttype.specs.TypeText.{st_text};

use ae_word::Atom;
use itoa::Buffer;
use std::alloc::{AllocError, Global};

/// A space-time type (Durst et al., PLDI 2020).
#[derive(Debug, Drop)]
pub enum StType {
    /// One element, in one clock on one lane.
    Atom(Atom),
    /// `TSeq n i`: n valid and then i invalid slots of a type, one after the other.
    T { n: u32, i: u32, of: Box<StType> },
    /// `SSeq n`: n of a type side by side, in the same clocks.
    S { n: u32, of: Box<StType> },
}

/// Where an element stands: a clock and a lane, counted from 0.
#[derive(Clone, Copy, Debug)]
pub struct Slot {
    pub clock: u32,
    pub lane: u32,
}

impl StType {
    /// Whether the type is in size: each n is at least 1, the atom is in size, time is at most 4,096, there are at most
    /// 16,384 words, and sequences nest at most 16 deep.
    pub fn in_size(&self) -> bool
        ensures { IsTrue result ↔ IsInSize (st_tree self.now) }
    {
        self.nests_within(16)
            && self.has_lengths()
            && self.short_time().is_some()
            && self.few_words().is_some()
    }

    /// The clocks of a value.
    pub fn time(&self) -> u32
        requires { IsInSize (st_tree self.now) }
        ensures { result ≡ time (st_tree self.now) }
    {
        match self {
            StType::Atom(_) => 1,
            StType::T { n, i, of } => (n + i) * of.time(),
            StType::S { n: _, of } => of.time(),
        }
    }

    /// The lanes of a value.
    pub fn lanes(&self) -> u32
        requires { IsInSize (st_tree self.now) }
        ensures { result ≡ lanes (st_tree self.now) }
    {
        match self {
            StType::Atom(_) => 1,
            StType::T { n: _, i: _, of } => of.lanes(),
            StType::S { n, of } => n * of.lanes(),
        }
    }

    /// The elements of a value.
    pub fn atoms(&self) -> u32
        requires { IsInSize (st_tree self.now) }
        ensures { result ≡ st_atoms (st_tree self.now) }
    {
        match self {
            StType::Atom(_) => 1,
            StType::T { n, i: _, of } => n * of.atoms(),
            StType::S { n, of } => n * of.atoms(),
        }
    }

    /// What each element is.
    pub fn atom(&self) -> &Atom
        ensures { atom_tree result.now ≡ element_atom (st_tree self.now) }
    {
        match self {
            StType::Atom(atom) => atom,
            StType::T { n: _, i: _, of } => of.atom(),
            StType::S { n: _, of } => of.atom(),
        }
    }

    /// The words of one element.
    pub fn element_words(&self) -> u32
        requires { IsInSize (st_tree self.now) }
        ensures { result ≡ element_words (st_tree self.now) }
    {
        match self {
            StType::Atom(atom) => atom.words(),
            StType::T { n: _, i: _, of } => of.element_words(),
            StType::S { n: _, of } => of.element_words(),
        }
    }

    /// The slot of element `e`.
    #[tactic(auto, using(crate::proofs::Bounds::sizes, crate::proofs::Places::places))]
    pub fn slot(&self, e: u32) -> Slot
        requires in_size { IsInSize (st_tree self.now) }
        requires below { e < st_atoms (st_tree self.now) }
        ensures place { slice_get (slots (st_tree self.now)) e ≡ Some result }
        ensures clock_in { result.clock < time (st_tree self.now) }
        ensures lane_in { result.lane < lanes (st_tree self.now) }
    {
        match self {
            StType::Atom(_) => Slot { clock: 0, lane: 0 },
            StType::T { n: _, i: _, of } => {
                let of: &StType = of;
                let size = of.atoms();
                let inner = of.slot(e % size);
                Slot {
                    clock: e / size * of.time() + inner.clock,
                    lane: inner.lane,
                }
            }
            StType::S { n: _, of } => {
                let of: &StType = of;
                let size = of.atoms();
                let inner = of.slot(e % size);
                Slot {
                    clock: inner.clock,
                    lane: e / size * of.lanes() + inner.lane,
                }
            }
        }
    }

    /// The element whose slot is in this clock on this lane; None exactly where no element has it.
    pub fn element(&self, clock: u32, lane: u32) -> Option<u32>
        requires { IsInSize (st_tree self.now) }
        ensures { IsElementAt (st_tree self.now) clock lane result }
    {
        match self {
            StType::Atom(_) => {
                if clock == 0 && lane == 0 {
                    Some(0)
                } else {
                    None
                }
            }
            StType::T { n, i: _, of } => {
                let of: &StType = of;
                let time = of.time();
                let copy = clock / time;
                if copy >= *n {
                    return None;
                }
                let inner = of.element(clock % time, lane)?;
                Some(copy * of.atoms() + inner)
            }
            StType::S { n, of } => {
                let of: &StType = of;
                let width = of.lanes();
                let copy = lane / width;
                if copy >= *n {
                    return None;
                }
                let inner = of.element(clock, lane % width)?;
                Some(copy * of.atoms() + inner)
            }
        }
    }

    /// Whether some element stands in the clock; false where the clock is not below the time.
    pub fn live(&self, clock: u32) -> bool
        requires { IsInSize (st_tree self.now) }
        ensures { IsTrue result ↔ IsLive (st_tree self.now) clock }
    {
        match self {
            StType::Atom(_) => clock == 0,
            StType::T { n, i: _, of } => {
                let of: &StType = of;
                let time = of.time();
                is_valid_slot(clock, time, *n) && of.live(clock % time)
            }
            StType::S { n: _, of } => of.live(clock),
        }
    }

    /// An equal type; an error only for want of memory.
    pub fn copy(&self, alloc: Global) -> Result<StType, AllocError>
        ensures { IfOk result (λ t. st_tree t ≡ st_tree self.now) }
    {
        match self {
            StType::Atom(atom) => Ok(StType::Atom(atom.copy(alloc)?)),
            StType::T { n, i, of } => {
                let of = Box::new(alloc, of.copy(alloc)?)?;
                Ok(StType::T { n: *n, i: *i, of })
            }
            StType::S { n, of } => {
                let of = Box::new(alloc, of.copy(alloc)?)?;
                Ok(StType::S { n: *n, of })
            }
        }
    }

    /// The type's spelling, as `TSeq 2 1 SSeq 2 u8`; an error only for want of memory.
    pub fn print(&self, alloc: Global) -> Result<String, AllocError>
        ensures { IfOk result (λ s. string_bytes s ≡ st_text (st_tree self.now)) }
    {
        let mut out = String::new(alloc);
        self.write_to(&mut out)?;
        Ok(out)
    }

    /// Appends the type's spelling; after an error, which comes only for want of memory, a part of it may stand there.
    pub fn write_to(&self, out: &mut String) -> Result<(), AllocError>
        ensures { OnOk result (string_bytes out.new ≡ string_bytes out.old ++ st_text (st_tree self.now)) }
    {
        match self {
            StType::Atom(atom) => atom.write_to(out),
            StType::T { n, i, of } => {
                out.push_str("TSeq ")?;
                out.push_str(Buffer::new().format(*n))?;
                out.push_str(" ")?;
                out.push_str(Buffer::new().format(*i))?;
                out.push_str(" ")?;
                of.write_to(out)
            }
            StType::S { n, of } => {
                out.push_str("SSeq ")?;
                out.push_str(Buffer::new().format(*n))?;
                out.push_str(" ")?;
                of.write_to(out)
            }
        }
    }

    fn has_lengths(&self) -> bool
        ensures { IsTrue result ↔ HasLengths (st_tree self.now) }
    {
        match self {
            StType::Atom(atom) => atom.in_size(),
            StType::T { n, i: _, of } => *n > 0 && of.has_lengths(),
            StType::S { n, of } => *n > 0 && of.has_lengths(),
        }
    }

    fn nests_within(&self, levels: u32) -> bool
        ensures { result ≡ nat_le (st_depth (st_tree self.now)) levels }
    {
        match self {
            StType::Atom(_) => true,
            StType::T { n: _, i: _, of } => levels > 0 && of.nests_within(levels - 1),
            StType::S { n: _, of } => levels > 0 && of.nests_within(levels - 1),
        }
    }

    // The time, where it is at most 4,096.
    fn short_time(&self) -> Option<u32>
        requires { HasLengths (st_tree self.now) }
        ensures { result ≡ at_most 4096 (time (st_tree self.now)) }
    {
        match self {
            StType::Atom(_) => Some(1),
            StType::T { n, i, of } => {
                product_within(4096, u64::from(*n) + u64::from(*i), of.short_time()?)
            }
            StType::S { n: _, of } => of.short_time(),
        }
    }

    // The words, where there are at most 16,384.
    fn few_words(&self) -> Option<u32>
        requires { HasLengths (st_tree self.now) }
        ensures { result ≡ at_most 16384 (st_atoms (st_tree self.now) * element_words (st_tree self.now)) }
    {
        match self {
            StType::Atom(atom) => product_within(16384, 1, atom.words()),
            StType::T { n, i: _, of } => product_within(16384, u64::from(*n), of.few_words()?),
            StType::S { n, of } => product_within(16384, u64::from(*n), of.few_words()?),
        }
    }
}

// Whether the clock is in one of the n valid slots of so many clocks, which come before the invalid ones.
fn is_valid_slot(clock: u32, time: u32, n: u32) -> bool
    requires { 0 < time }
    ensures { result ≡ nat_lt (clock / time) n }
{
    clock / time < n
}

// The product, where it is at most the limit.
fn product_within(limit: u32, a: u64, b: u32) -> Option<u32>
    ensures { result ≡ at_most limit (a * b) }
{
    let all = a.saturating_mul(u64::from(b));
    if all <= u64::from(limit) {
        Some(all as u32)
    } else {
        None
    }
}
