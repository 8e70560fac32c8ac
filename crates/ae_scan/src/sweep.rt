// A sweep over the lanes of many nets.

ghost use Rattle.std.specs.Prelude.{◌≡◌, ◌-◌, ◌*◌, ◌%◌, ◌^◌, ◌<◌, ◌≤◌, ℕ, nat_lt, length, IfOk, OnOk, not};
ghost use Rattle.ae_word.specs.WordTable.{bit};
ghost use Rattle.ae_netlist.specs.Circuit.{IsNet};
ghost use Rattle.ae_netlist.specs.Room.{HasRoom};
ghost use Rattle.ae_gates.specs.Cells.{Adds};
ghost use Rattle.ae_ops.specs.Folds.{IsFold};
ghost use Rattle.ae_fold.specs.Folding.{AreFolds, product_of, products_in};
ghost use Rattle.ae_fold.specs.Rows.{AreFoldNets, AreOverLanes, net_at};
ghost use Rattle.ae_scan.specs.Sweeps.{AreJoins, IsJoin};
ghost use Rattle.ae_scan.specs.Scans.{sweep_joins};

use ae_clocked::delayed;
use ae_fold::{WordFold, joined};
use ae_netlist::{NetId, Netlist};
use ae_word::Width;
use std::alloc::{AllocError, Global};

/// A net behind the one `reach` places before it, one clock later, or alone where there is none.
fn join(
    nl: &mut Netlist,
    fold: WordFold,
    nets: &[NetId],
    q: usize,
    reach: usize,
) -> Result<NetId, AllocError>
    requires low { 1 ≤ fold.width }
    requires high { fold.width ≤ 64 }
    requires folds { IsFold fold.op }
    requires there { q < length nets.now }
    requires own { IsNet nl.old.cells (net_at nets.now q) fold.width }
    requires before { reach ≤ q → IsNet nl.old.cells (net_at nets.now (q - reach)) fold.width }
    requires room { HasRoom nl.old 9 }
    ensures adds { OnOk result (Adds nl.old nl.new 9 (bit (not (nat_lt q reach)) * product_of fold.op)) }
    ensures join { IfOk result (λ y. IsJoin nl.new.cells fold nets.now q reach y.0) }
{
    if q < reach {
        let later = delayed(nl, nets[q], Width { bits: fold.width })?;
        Ok(later)
    } else {
        let both = joined(nl, fold, nets[q - reach], nets[q])?;
        Ok(both)
    }
}

/// One level: each net behind the one `reach` places before it.
fn level(
    alloc: Global,
    nl: &mut Netlist,
    folds: &[WordFold],
    nets: &[NetId],
    reach: usize,
) -> Result<Vec<NetId>, AllocError>
    requires folds { AreFolds folds.now }
    requires nets { AreFoldNets nl.old.cells folds.now nets.now }
    requires whole { reach % length folds.now ≡ 0 }
    requires room { HasRoom nl.old (length nets.now * 9) }
    ensures adds { OnOk result (Adds nl.old nl.new (length nets.now * 9) ((length nets.now - reach) * products_in folds.now)) }
    ensures long { IfOk result (λ outs. length outs.items ≡ length nets.now) }
    ensures joins { IfOk result (λ outs. AreJoins nl.new.cells folds.now nets.now reach outs.items) }
{
    let mut outs = Vec::new(alloc);
    for q in 0..nets.len() {
        let fold = folds[q % folds.len()];
        let net = join(nl, fold, nets, q, reach)?;
        outs.push(net)?;
    }
    Ok(outs)
}

/// The folds from lane 0 to each lane at each place, `levels` clocks later.
pub fn sweep(
    alloc: Global,
    nl: &mut Netlist,
    folds: &[WordFold],
    nets: Vec<NetId>,
    lanes: usize,
    stride: usize,
    levels: u32,
) -> Result<Vec<NetId>, AllocError>
    requires folds { AreFolds folds.now }
    requires nets { AreFoldNets nl.old.cells folds.now nets.items }
    requires long { length nets.items ≡ lanes * stride }
    requires some { 1 ≤ lanes }
    requires few { lanes ≤ 4096 }
    requires deep { lanes ≤ 2 ^ levels }
    requires least { (k : ℕ) → k < levels → 2 ^ k < lanes }
    requires placed { 1 ≤ stride }
    requires small { stride ≤ 16384 }
    requires whole { stride % length folds.now ≡ 0 }
    requires room { HasRoom nl.old (levels * (lanes * stride * 9)) }
    ensures adds { OnOk result (Adds nl.old nl.new (levels * (lanes * stride * 9)) (sweep_joins lanes stride levels * products_in folds.now)) }
    ensures long { IfOk result (λ outs. length outs.items ≡ lanes * stride) }
    ensures nets { IfOk result (λ outs. AreFoldNets nl.new.cells folds.now outs.items) }
    ensures words { IfOk result (λ outs. AreOverLanes nl.new.cells folds.now nets.items stride levels 0 outs.items) }
{
    let mut last = nets;
    let mut reach = stride;
    for i in 0..levels {
        last = level(alloc, nl, folds, &last, reach)?;
        reach *= 2;
    }
    Ok(last)
}
