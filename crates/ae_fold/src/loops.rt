// A loop for each place of a lane.

ghost use Rattle.std.specs.Prelude.{◌≡◌, ℕ, ◌+◌, ◌-◌, ◌*◌, ◌≤◌, ◌++◌, length, map, slice_get, Some, IfOk, OnOk};
ghost use Rattle.ae_netlist.specs.Circuit.{IsNet};
ghost use Rattle.ae_netlist.specs.Room.{HasRoom};
ghost use Rattle.ae_clocked.specs.Rings.{rings};
ghost use Rattle.ae_fold.specs.declared.feedback.Loop.{Loop as Ring};
ghost use Rattle.ae_fold.specs.Feedback.{AddsStores, MayPlace, TurnsAlways};
ghost use Rattle.ae_fold.specs.Folding.{AreFolds, fold_at, products_in};
ghost use Rattle.ae_fold.specs.Rows.{AreFoldNets, AreLoops};

use crate::feedback::{Loop, RingCounter, accumulate};
use crate::words::WordFold;
use ae_netlist::{NetId, Netlist};
use std::alloc::{AllocError, Global};

/// A copy of the nets; an error only for want of memory.
pub fn copied(alloc: Global, nets: &[NetId]) -> Result<Vec<NetId>, AllocError>
    ensures ok { IfOk result (λ copy. copy.items ≡ nets.now) }
{
    let mut copy = Vec::new(alloc);
    for net in nets {
        copy.push(*net)?;
    }
    Ok(copy)
}

/// A loop over each net from a place on. It takes at most `inner + 9` cells for each, of which one may be a memory.
pub fn accumulate_all(
    alloc: Global,
    nl: &mut Netlist,
    ring: Option<RingCounter>,
    folds: &[WordFold],
    nets: &[NetId],
    from: usize,
    first: NetId,
    inner: u32,
) -> Result<Vec<Loop>, AllocError>
    requires folds { AreFolds folds.now }
    requires nets { AreFoldNets nl.old.cells folds.now nets.now }
    requires first { IsNet nl.old.cells first.0 1 }
    requires lasting { 1 ≤ inner }
    requires within { from ≤ length nets.now }
    requires place { MayPlace nl.old.cells (inner - 1) ring }
    requires room { HasRoom nl.old ((length nets.now - from) * (inner + 9)) }
    ensures adds { OnOk result (AddsStores nl.old nl.new ((length nets.now - from) * (inner + 9)) ((length nets.now - from) * products_in folds.now) ((length nets.now - from) * rings inner)) }
    ensures long { IfOk result (λ loops. length loops.items ≡ length nets.now - from) }
    ensures backs { IfOk result (λ loops. (p : ℕ) (one : Ring) → slice_get loops.items p ≡ Some one → IsNet nl.new.cells one.back.0 (fold_at folds.now (from + p)).width) }
    ensures loops { IfOk result (λ loops. (rst : ℕ) → TurnsAlways nl.old.cells rst ring → AreLoops nl.new.cells rst folds.now nets.now from first.0 inner loops.items) }
{
    let mut loops = Vec::new(alloc);
    for p in 0..nets.len() - from {
        let fold = folds[(from + p) % folds.len()];
        let one = accumulate(nl, ring, fold, nets[from + p], first, inner)?;
        loops.push(one)?;
    }
    Ok(loops)
}

/// Appends the nets of the loops.
pub fn append_loops(nets: &mut Vec<NetId>, loops: &[Loop]) -> Result<(), AllocError>
    ensures ok { OnOk result (nets.new.items ≡ nets.old.items ++ map (λ (one : Ring). one.word) loops.now) }
{
    for one in loops {
        nets.push(one.word)?;
    }
    Ok(())
}
