// The word that shows that a movement program cannot be faster.

ghost use Rattle.std.specs.Prelude.{◌≡◌, ◌<◌, ◌≤◌, ◌*◌, ◌↔◌, ℕ, None, Some, IfSome, length, map, slice_get};
ghost use Rattle.ae_sttype.specs.declared.st_type.StType.{StType as Layout};
ghost use Rattle.ae_sttype.specs.StTree.{element_words, st_atoms, st_tree};
ghost use Rattle.ae_sttype.specs.Size.{IsInSize};
ghost use Rattle.ae_sttype.specs.Moves.{greatest};
ghost use Rattle.ae_moves.specs.Trees.{origin_tree};
ghost use Rattle.ae_moves.specs.Origins.{HasOrigin, IsMove, move_latency};
ghost use Rattle.ae_rewrite.specs.StProgramTree.{st_trees};
ghost use Rattle.ae_results.specs.declared.result.FusedResult.{FusedResult as Moving};
ghost use Rattle.ae_results.specs.Certified.{FirstIn, IsFirstOf, IsWayOf};
ghost use Rattle.ae_results.specs.Results.{result_move};

use crate::result::FusedResult;
use ae_moves::Origin;
use ae_sttype::StType;

/// A word of a result and the word of a parameter that it is: the results, the parameters, and in each its lane, its word
/// in the lane and its clock in the block.
#[derive(Clone, Copy)]
pub struct Certificate {
    pub result: u32,
    pub lane: u32,
    pub word: u32,
    pub clock: u32,
    pub param: u32,
    pub from_lane: u32,
    pub from_word: u32,
    pub from_clock: u32,
}

// Where word `o` of result `number` and the word that it comes from stand; None for a word 0.
fn way(ins: &[StType], out: &StType, origin: Origin, number: u32, o: u32) -> Option<Certificate>
    requires sizes { (i : ℕ) (t : Layout) → slice_get ins.now i ≡ Some t → IsInSize (st_tree t) }
    requires there { (width : ℕ) × HasOrigin (map st_tree ins.now) width (origin_tree origin) }
    requires out_in_size { IsInSize (st_tree out.now) }
    requires below { o < st_atoms (st_tree out.now) * element_words (st_tree out.now) }
    ensures way { IsWayOf (map st_tree ins.now) (st_tree out.now) (origin_tree origin) o result }
    ensures number { IfSome result (λ c. c.result ≡ number) }
{
    let words = out.element_words();
    let slot = out.slot(o / words);
    match origin {
        Origin::Fixed(_) => None,
        Origin::Word {
            input,
            element,
            word,
        } => {
            let from = ins[input as usize].slot(element);
            Some(Certificate {
                result: number,
                lane: slot.lane,
                word: o % words,
                clock: slot.clock,
                param: input,
                from_lane: from.lane,
                from_word: word,
                from_clock: from.clock,
            })
        }
    }
}

// The first word of a result that stands so many clocks before its source, if there is one.
fn first_in(ins: &[StType], own: &FusedResult, number: u32, late: u32) -> Option<Certificate>
    requires some { 0 < late }
    requires moves { IsMove (result_move (st_trees ins.now) own.now) }
    ensures first { FirstIn late (result_move (st_trees ins.now) own.now) result }
    ensures number { IfSome result (λ c. c.result ≡ number) }
{
    for o in 0..own.source.len() {
        let found = way(ins, &own.out, own.source[o], number, o as u32);
        match found {
            Some(c) => {
                let lead = c.from_clock.saturating_sub(c.clock);
                if lead >= late {
                    return Some(c);
                }
            }
            None => {}
        }
    }
    None
}

/// The first word of the results, by result, element and word, that stands `latest` clocks before the word that it comes
/// from, where this is the greatest number of clocks by which a word does so; None exactly where it is 0.
pub fn certify(ins: &[StType], moves: &[FusedResult], latest: u32) -> Option<Certificate>
    requires few { length moves.now ≤ 8 }
    requires moves { (k : ℕ) (r : Moving) → slice_get moves.now k ≡ Some r → IsMove (result_move (st_trees ins.now) r) }
    requires latest { latest ≡ greatest move_latency (map (result_move (st_trees ins.now)) moves.now) }
    ensures none { result ≡ None ↔ latest ≡ 0 }
    ensures first { IfSome result (λ c. IsFirstOf latest (map (result_move (st_trees ins.now)) moves.now) c) }
{
    if latest == 0 {
        return None;
    }
    for k in 0..moves.len() {
        let found = first_in(ins, &moves[k], k as u32, latest);
        if found.is_some() {
            return found;
        }
    }
    None
}
