// The stages of the operators that call nothing. An error comes only for want of memory.

ghost use Rattle.std.specs.Prelude.{◌≡◌, ◌≤◌, ◌<◌, ◌*◌, ℕ, true, map, IfOk};
ghost use Rattle.ae_word.specs.WordTable.{folds};
ghost use Rattle.ae_sttype.specs.StTree.{StTree, st_tree, time};
ghost use Rattle.ae_sttype.specs.Size.{IsInSize};
ghost use Rattle.ae_rewrite.specs.Sound.{FixedFits, IsSpread};
ghost use Rattle.ae_delay.specs.Moving.{constant_move, op_move};
ghost use Rattle.ae_gather.specs.Gathers.{move_of};
ghost use Rattle.ae_flow.specs.Flow.{first_width};
ghost use Rattle.ae_flow.specs.Fitted.{FitsMove, IsArranged, IsOneOf};

use ae_delay::origins;
use ae_fold::Fold;
use ae_gather::{Gather, Origin};
use ae_reduce::Reduce;
use ae_rewrite::MoveOp;
use ae_scan::Scan;
use ae_sttype::StType;
use ae_word::{Width, WordOp};
use std::alloc::{AllocError, Global};

/// The width of the first word of each element.
pub fn first_width(s: &StType) -> Width
    requires { IsInSize (st_tree s.now) }
    ensures { result ≡ first_width (st_tree s.now) }
{
    s.atom().word_width(0)
}

fn words(alloc: Global, words: &[u64]) -> Result<Vec<Origin>, AllocError>
    ensures { IfOk result (λ v. v.items ≡ map (λ w. Origin.Fixed w) words.now) }
{
    words.iter().map(|w| Origin::Fixed(*w)).collect(alloc)
}

/// A constant: a move in which every word is fixed.
pub fn constant(alloc: Global, fixed: &[u64], out: &StType) -> Result<Gather, AllocError>
    requires out { IsInSize (st_tree out.now) }
    requires fits { FixedFits (st_tree out.now) fixed.now }
    ensures is { IfOk result (λ g. move_of g ≡ constant_move fixed.now (st_tree out.now)) }
{
    let source = words(alloc, fixed)?;
    let layout = out.copy(alloc)?;
    Ok(Gather::of_move(Vec::new(alloc), layout, source))
}

/// A move of elements.
pub fn moving(alloc: Global, how: MoveOp, arg: &StType, out: &StType) -> Result<Gather, AllocError>
    requires arg { IsInSize (st_tree arg.now) }
    requires out { IsInSize (st_tree out.now) }
    requires time { time (st_tree arg.now) ≡ time (st_tree out.now) }
    requires fits { FitsMove how (st_tree arg.now) (st_tree out.now) }
    ensures is { IfOk result (λ g. move_of g ≡ op_move how (st_tree arg.now) (st_tree out.now)) }
{
    let source = origins(alloc, how, arg, out)?;
    let mut ins = Vec::new(alloc);
    ins.push(arg.copy(alloc)?)?;
    let layout = out.copy(alloc)?;
    Ok(Gather::of_move(ins, layout, source))
}

// The layout of the one element that comes in this one.
fn element_of(raw: &StType) -> &StType
    requires { (t : StTree) × IsOneOf t (st_tree raw.now) }
    ensures { IsOneOf (st_tree result.now) (st_tree raw.now) }
{
    match raw {
        StType::S { n: _, of } => of,
        StType::T { n: _, i: _, of } => of,
        StType::Atom(_) => unreachable!(),
    }
}

/// The fold of elements on lanes and in slots into one that comes in the layout `raw`; what follows begins its blocks `wait`
/// clocks later.
pub fn reducing(
    alloc: Global,
    op: WordOp,
    slots: u32,
    lanes: u32,
    raw: &StType,
    budget: u32,
    wait: u32,
) -> Result<Reduce, AllocError>
    requires op { folds op ≡ true }
    requires spread { IsSpread slots lanes }
    requires some { 1 ≤ budget }
    requires most { budget ≤ 4096 }
    requires raw { IsInSize (st_tree raw.now) }
    requires one { (t : StTree) × (IsOneOf t (st_tree raw.now) × (slots * time t ≤ budget)) }
    ensures is { IfOk result (λ r. (r.op ≡ op) × (r.slots ≡ slots) × (r.lanes ≡ lanes) × (r.period ≡ budget) × IsOneOf (st_tree r.element) (st_tree raw.now)) }
{
    let element = element_of(raw).copy(alloc)?;
    Ok(Reduce::of(Fold::of_shape(op, slots, lanes, element, budget)).followed(wait))
}

// The layout of the elements that come on so many lanes.
fn elements_of(s: &StType, lanes: u32) -> &StType
    requires { (slots : ℕ) × (t : StTree) × IsArranged slots lanes t (st_tree s.now) }
    ensures { (slots : ℕ) (t : StTree) → IsArranged slots lanes t (st_tree s.now) → st_tree result.now ≡ t }
{
    match s {
        StType::S { n: _, of } => of,
        StType::T { n: _, i: _, of } => {
            if lanes == 1 {
                return of;
            }
            match &**of {
                StType::S { n: _, of } => of,
                StType::T { .. } | StType::Atom(_) => unreachable!(),
            }
        }
        StType::Atom(_) => unreachable!(),
    }
}

/// The folds of elements on lanes and in slots up to each one.
pub fn scanning(
    alloc: Global,
    op: WordOp,
    slots: u32,
    lanes: u32,
    out: &StType,
    budget: u32,
) -> Result<Scan, AllocError>
    requires op { folds op ≡ true }
    requires spread { IsSpread slots lanes }
    requires some { 1 ≤ budget }
    requires most { budget ≤ 4096 }
    requires out { IsInSize (st_tree out.now) }
    requires arranged { (t : StTree) × (IsArranged slots lanes t (st_tree out.now) × (slots * time t ≤ budget)) }
    ensures is { IfOk result (λ r. (r.op ≡ op) × (r.slots ≡ slots) × (r.lanes ≡ lanes) × (r.period ≡ budget) × IsArranged slots lanes (st_tree r.element) (st_tree out.now)) }
{
    let element = elements_of(out, lanes).copy(alloc)?;
    Ok(Scan::of(Fold::of_shape(op, slots, lanes, element, budget)))
}
