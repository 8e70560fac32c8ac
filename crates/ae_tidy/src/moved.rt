// Where parts of a netlist begin in its copy.

ghost use Rattle.std.specs.Prelude.{◌≤◌, ◌<◌, ℕ, IfOk, length};
ghost use Rattle.ae_tidy.specs.Places.{AreBefore, AreCut, AreMarks, AreRising, IsCut};

use crate::look::net_at;
use ae_netlist::NetId;
use std::alloc::{AllocError, Global};

// How many cells of the copy were made of cells before `mark`, where it is sure of the first `from`.
fn made_before(made: &[NetId], from: u32, mark: u32) -> u32
    requires few { length made.now < 4294967296 }
    requires sure { from ≤ length made.now }
    requires rising { AreRising made.now }
    ensures more { from ≤ result }
    ensures within { result ≤ length made.now }
    ensures cut { AreBefore made.now from mark → IsCut made.now mark result }
{
    let end = made.len() as u32;
    for count in from..end {
        let own = net_at(made, count as usize);
        if own.0 >= mark {
            return count;
        }
    }
    end
}

/// For each mark, a number of old cells, the number of cells in the copy that were made of them. Marks rise, so this takes
/// one pass.
pub fn all_moved(alloc: Global, made: &[NetId], marks: &[u32]) -> Result<Vec<u32>, AllocError>
    requires few { length made.now < 4294967296 }
    requires rising { AreRising made.now }
    ensures marks { IfOk result (λ v. AreMarks (length made.now) (length marks.now) v.items) }
    ensures cut { IfOk result (λ v. (cells count : ℕ) → AreMarks cells count marks.now → AreCut made.now marks.now v.items) }
{
    let mut places = Vec::new(alloc);
    let mut count = 0;
    for mark in marks {
        count = made_before(made, count, *mark);
        places.push(count)?;
    }
    Ok(places)
}
