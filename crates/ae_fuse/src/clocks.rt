// The clocks in which words stand, in tables that are made in one pass.

ghost use Rattle.std.specs.Prelude.{◌≡◌, ◌<◌, ◌≤◌, ◌*◌, ◌+◌, ◌++◌, ℕ, length, map, IfOk, OnOk, Some, slice_get, get_or};
ghost use Rattle.std.specs.List.{range_with_len};
ghost use Rattle.ae_sttype.specs.declared.st_type.StType.{StType as Layout};
ghost use Rattle.ae_sttype.specs.StTree.{st_tree};
ghost use Rattle.ae_sttype.specs.Size.{IsInSize};
ghost use Rattle.ae_sttype.specs.Moves.{greatest};
ghost use Rattle.ae_rewrite.specs.StProgramTree.{st_trees};
ghost use Rattle.ae_fuse.specs.Clocks.{clock_copies, element_clocks, label_clocks, lead_of, spread, word_clocks};

use ae_sttype::StType;
use std::alloc::{AllocError, Global};

// The clocks again, all of them so many later.
fn add_later(clocks: &mut Vec<u32>, one: &[u32], by: u32) -> Result<(), AllocError>
    requires few { by ≤ 4096 }
    requires early { (k c : ℕ) → slice_get one.now k ≡ Some c → c < 4096 }
    ensures { OnOk result (clocks.new.items ≡ clocks.old.items ++ map (λ k. by + k) one.now) }
{
    for clock in one {
        clocks.push(by + *clock)?;
    }
    Ok(())
}

// So many copies of the clocks of one value, each of which takes so many clocks.
fn copied_clocks(alloc: Global, one: &[u32], count: u32, time: u32) -> Result<Vec<u32>, AllocError>
    requires few { count * time ≤ 4096 }
    requires early { (k c : ℕ) → slice_get one.now k ≡ Some c → c < 4096 }
    ensures { IfOk result (λ v. v.items ≡ clock_copies count time one.now) }
{
    let mut clocks = Vec::new(alloc);
    for copy in 0..count {
        add_later(&mut clocks, one, copy * time)?;
    }
    Ok(clocks)
}

/// The clocks of the elements of a layout, in order; an error only for want of memory.
#[tactic(auto, using(ae_sttype::proofs::Bounds::sizes))]
pub(crate) fn element_clocks(alloc: Global, layout: &StType) -> Result<Vec<u32>, AllocError>
    requires { IsInSize (st_tree layout.now) }
    ensures { IfOk result (λ v. v.items ≡ element_clocks (st_tree layout.now)) }
{
    match layout {
        StType::Atom(_) => {
            let mut clocks = Vec::new(alloc);
            clocks.push(0)?;
            Ok(clocks)
        }
        StType::T { n, i: _, of } => {
            let of: &StType = of;
            let one = element_clocks(alloc, of)?;
            copied_clocks(alloc, &one, *n, of.time())
        }
        StType::S { n, of } => {
            let of: &StType = of;
            let one = element_clocks(alloc, of)?;
            copied_clocks(alloc, &one, *n, 0)
        }
    }
}

// The clocks of the words of elements that have so many, behind others.
fn add_words(clocks: &mut Vec<u32>, elements: &[u32], words: u32) -> Result<(), AllocError>
    requires some { 0 < words }
    requires few { length elements.now * words ≤ 16384 }
    ensures { OnOk result (clocks.new.items ≡ clocks.old.items ++ spread words elements.now) }
{
    let each = words as usize;
    for o in 0..elements.len() * each {
        clocks.push(elements[o / each])?;
    }
    Ok(())
}

// The clocks of the words of a layout, behind others.
fn add_layout(alloc: Global, clocks: &mut Vec<u32>, layout: &StType) -> Result<(), AllocError>
    requires { IsInSize (st_tree layout.now) }
    ensures { OnOk result (clocks.new.items ≡ clocks.old.items ++ word_clocks (st_tree layout.now)) }
{
    let elements = element_clocks(alloc, layout)?;
    add_words(clocks, &elements, layout.element_words())
}

/// The clocks of the numbered words of parameters in these layouts; an error only for want of memory.
pub(crate) fn label_clocks(alloc: Global, ins: &[StType]) -> Result<Vec<u32>, AllocError>
    requires sizes { (k : ℕ) (t : Layout) → slice_get ins.now k ≡ Some t → IsInSize (st_tree t) }
    ensures { IfOk result (λ v. v.items ≡ label_clocks (st_trees ins.now)) }
{
    let mut clocks = Vec::new(alloc);
    clocks.push(0)?;
    for layout in ins {
        add_layout(alloc, &mut clocks, layout)?;
    }
    Ok(clocks)
}

// The clock of the word of a number, and 0 where there is none.
fn source_clock(sources: &[u32], label: u32) -> u32
    ensures { result ≡ get_or sources.now label 0 }
{
    match sources.get(label as usize) {
        Some(clock) => *clock,
        None => 0,
    }
}

/// By how many clocks words of these numbers have to be late, by the clocks of the numbers and those of the elements of
/// the words.
pub(crate) fn lateness(sources: &[u32], labels: &[u32], elements: &[u32], words: u32) -> u32
    requires some { 0 < words }
    requires long { length labels.now ≡ length elements.now * words }
    ensures { result ≡ greatest (lead_of sources.now labels.now elements.now words) (range_with_len 0 (length labels.now)) }
{
    let each = words as usize;
    let mut most = 0u32;
    for o in 0..labels.len() {
        let source = source_clock(sources, labels[o]);
        most = most.max(source.saturating_sub(elements[o / each]));
    }
    most
}
