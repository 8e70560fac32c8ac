// The layout of a sequence type.

ghost use Rattle.std.specs.Prelude.{◌≡◌, ◌≤◌, ◌<◌, ◌↔◌, Some, None, IfOk, IsTrue, Err};
ghost use Rattle.ae_word.specs.AtomTree.{atom_tree};
ghost use Rattle.ae_seqtype.specs.SeqTree.{seq_tree, in_size, parts_in_size, atom, atoms, atom_of};
ghost use Rattle.ae_sttype.specs.StTree.{st_tree, tseq, sseq, time, st_atoms, element_atom};
ghost use Rattle.ae_sttype.specs.Size.{IsInSize};
ghost use Rattle.ae_rewrite.specs.LayoutRule.{case_of, lay_of, arranged};

use crate::Case;
use ae_seqtype::SeqType;
use ae_sttype::StType;
use ae_word::Atom;
use std::alloc::{AllocError, Global};

/// Why there is no layout.
#[derive(Debug, Drop)]
pub enum LayFault {
    /// The rule has none for so many clocks.
    NoLayout,
    /// There was no memory for it.
    Memory,
}

impl From<AllocError> for LayFault {
    ghost use Rattle.ae_rewrite.specs.declared.layout.LayFault.TheVariants.{Memory};

    ghost from_gives = { λ _ e. e ≡ Memory };

    fn from(_: AllocError) -> Self {
        LayFault::Memory
    }
}

/// The layout of a type in so many clocks, by the rule of docs/SPACE_TIME.md (after Durst et al., PLDI 2020). It takes
/// all the clocks, and has the type's atoms. `NoLayout` comes exactly where the rule has no layout, and `Memory` only
/// for want of memory.
pub fn lay(alloc: Global, t: &SeqType, clocks: u32) -> Result<StType, LayFault>
    requires in_size { IsTrue (in_size (seq_tree t.now)) }
    requires some { 0 < clocks }
    requires limit { clocks ≤ 4096 }
    ensures layout { IfOk result (λ s. lay_of (seq_tree t.now) clocks ≡ Some (st_tree s)) }
    ensures none { (result ≡ Err LayFault.NoLayout) ↔ (lay_of (seq_tree t.now) clocks ≡ None) }
    ensures time { IfOk result (λ s. time (st_tree s) ≡ clocks) }
    ensures atoms { IfOk result (λ s. st_atoms (st_tree s) ≡ atoms (seq_tree t.now)) }
    ensures atom { IfOk result (λ s. element_atom (st_tree s) ≡ atom_of (seq_tree t.now)) }
    ensures size { IfOk result (λ s. IsInSize (st_tree s)) }
{
    let layout = lay_part(alloc, t, clocks)?;
    Ok(layout)
}

pub(crate) fn lay_part(alloc: Global, t: &SeqType, clocks: u32) -> Result<StType, LayFault>
    requires parts { IsTrue (parts_in_size (seq_tree t.now)) }
    requires some { 0 < clocks }
    ensures layout { IfOk result (λ s. lay_of (seq_tree t.now) clocks ≡ Some (st_tree s)) }
    ensures none { (result ≡ Err LayFault.NoLayout) ↔ (lay_of (seq_tree t.now) clocks ≡ None) }
{
    match t {
        SeqType::Atom(atom) => Ok(first_of(alloc, atom, clocks)?),
        SeqType::Seq(n, of) => {
            let Some(case) = Case::first(*n, clocks) else {
                return Err(LayFault::NoLayout);
            };
            let inner = case.inner(*n, clocks);
            let element = lay_part(alloc, of, inner)?;
            Ok(arrange(alloc, case, *n, clocks, element)?)
        }
    }
}

// An atom, in the first of its clocks.
fn first_of(alloc: Global, a: &Atom, clocks: u32) -> Result<StType, AllocError>
    requires { 0 < clocks }
    ensures { IfOk result (λ s. lay_of (atom (atom_tree a.now)) clocks ≡ Some (st_tree s)) }
{
    let alone = StType::Atom(a.copy(alloc)?);
    if clocks == 1 {
        return Ok(alone);
    }
    in_time(alloc, 1, clocks - 1, alone)
}

// Elements with the layout `of`, by the case.
fn arrange(alloc: Global, case: Case, n: u32, clocks: u32, of: StType) -> Result<StType, AllocError>
    requires some { 0 < n }
    requires time { 0 < clocks }
    requires case { case_of n clocks ≡ Some case }
    ensures { IfOk result (λ s. st_tree s ≡ arranged n clocks case (st_tree of)) }
{
    match case {
        Case::Parallel => side_by_side(alloc, n, of),
        Case::Spread => in_time(alloc, n, 0, of),
        Case::Grouped => {
            let group = side_by_side(alloc, n / clocks, of)?;
            in_time(alloc, clocks, 0, group)
        }
        Case::Padded => in_time(alloc, n, clocks - n, of),
        Case::Folded(d) => {
            let group = side_by_side(alloc, n / d, of)?;
            in_time(alloc, d, clocks - d, group)
        }
    }
}

pub(crate) fn in_time(alloc: Global, n: u32, i: u32, of: StType) -> Result<StType, AllocError>
    ensures { IfOk result (λ s. st_tree s ≡ tseq n i (st_tree of)) }
{
    let of = Box::new(alloc, of)?;
    Ok(StType::T { n, i, of })
}

pub(crate) fn side_by_side(alloc: Global, n: u32, of: StType) -> Result<StType, AllocError>
    ensures { IfOk result (λ s. st_tree s ≡ sseq n (st_tree of)) }
{
    let of = Box::new(alloc, of)?;
    Ok(StType::S { n, of })
}
