// The numbers of the words of the parameters, and back.

ghost use Rattle.std.specs.Prelude.{◌≡◌, ◌<◌, ◌≤◌, ◌+◌, ◌^◌, ℕ, length, map, IfOk, Some, slice_get};
ghost use Rattle.std.specs.List.{range_with_len};
ghost use Rattle.ae_sttype.specs.declared.st_type.StType.{StType as Layout};
ghost use Rattle.ae_sttype.specs.StTree.{st_tree};
ghost use Rattle.ae_sttype.specs.Size.{IsInSize};
ghost use Rattle.ae_moves.specs.Trees.{origin_tree};
ghost use Rattle.ae_rewrite.specs.StProgramTree.{st_trees};
ghost use Rattle.ae_flow.specs.Flow.{layout_words};
ghost use Rattle.ae_fuse.specs.Labels.{labelled_origin, layout_numbers};

use ae_moves::Origin;
use ae_sttype::StType;
use std::alloc::{AllocError, Global};

// The words of a value in a layout.
fn count_words(layout: &StType) -> u32
    requires { IsInSize (st_tree layout.now) }
    ensures words { result ≡ layout_words (st_tree layout.now) }
    ensures few { result ≤ 16384 }
{
    layout.atoms() * layout.element_words()
}

// So many numbers from the first on.
fn numbers(alloc: Global, first: u32, count: u32) -> Result<Vec<u32>, AllocError>
    requires { first + count < 2 ^ 32 }
    ensures { IfOk result (λ v. v.items ≡ range_with_len first count) }
{
    let mut own = Vec::new(alloc);
    for k in 0..count {
        own.push(first + k)?;
    }
    Ok(own)
}

/// The words of parameters in these layouts, numbered from 1 on; an error only for want of memory.
pub(crate) fn first_labels(alloc: Global, ins: &[StType]) -> Result<Vec<Vec<u32>>, AllocError>
    requires sizes { (k : ℕ) (t : Layout) → slice_get ins.now k ≡ Some t → IsInSize (st_tree t) }
    requires few { length ins.now ≤ 8 }
    ensures { IfOk result (λ v. map (λ w. w.items) v.items ≡ layout_numbers 1 (st_trees ins.now)) }
{
    let mut labels = Vec::new(alloc);
    let mut first = 1u32;
    for layout in ins {
        let count = count_words(layout);
        let own = numbers(alloc, first, count)?;
        labels.push(own)?;
        first += count;
    }
    Ok(labels)
}

// Where the word of a number stands.
fn origin(ins: &[StType], label: u32) -> Origin
    requires sizes { (k : ℕ) (t : Layout) → slice_get ins.now k ≡ Some t → IsInSize (st_tree t) }
    requires few { length ins.now ≤ 8 }
    ensures { origin_tree result ≡ labelled_origin (st_trees ins.now) label }
{
    if label == 0 {
        return Origin::Fixed(0);
    }
    let mut rest = label - 1;
    for (i, layout) in ins.iter().enumerate() {
        let count = count_words(layout);
        if rest < count {
            let words = layout.element_words();
            return Origin::Word {
                input: i as u32,
                element: rest / words,
                word: rest % words,
            };
        }
        rest -= count;
    }
    Origin::Fixed(0)
}

/// Where the words of these numbers stand; an error only for want of memory.
pub(crate) fn label_origins(
    alloc: Global,
    ins: &[StType],
    labels: &[u32],
) -> Result<Vec<Origin>, AllocError>
    requires sizes { (k : ℕ) (t : Layout) → slice_get ins.now k ≡ Some t → IsInSize (st_tree t) }
    requires few { length ins.now ≤ 8 }
    ensures { IfOk result (λ v. map origin_tree v.items ≡ map (labelled_origin (st_trees ins.now)) labels.now) }
{
    let mut found = Vec::new(alloc);
    for label in labels {
        found.push(origin(ins, *label))?;
    }
    Ok(found)
}
