// A tree over the lanes of many nets.

ghost use Rattle.std.specs.Prelude.{◌≡◌, ◌+◌, ◌-◌, ◌*◌, ◌/◌, ◌%◌, ◌^◌, ◌<◌, ◌≤◌, nat_lt, length, IfOk, OnOk};
ghost use Rattle.ae_word.specs.WordTable.{bit};
ghost use Rattle.ae_netlist.specs.Circuit.{IsNet};
ghost use Rattle.ae_netlist.specs.Room.{HasRoom};
ghost use Rattle.ae_gates.specs.Cells.{Adds};
ghost use Rattle.ae_ops.specs.Folds.{IsFold};
ghost use Rattle.ae_fold.specs.Folding.{AreFolds, product_of, products_in};
ghost use Rattle.ae_fold.specs.Rows.{AreFoldNets, AreOverLanes, net_at};
ghost use Rattle.ae_reduce.specs.Trees.{ArePairs, IsPair};

use ae_clocked::delayed;
use ae_fold::{WordFold, joined};
use ae_netlist::{NetId, Netlist};
use ae_word::Width;
use std::alloc::{AllocError, Global};

/// The pair of two places, one clock later, or the left one alone where the right one is past the last.
fn pair(
    nl: &mut Netlist,
    fold: WordFold,
    nets: &[NetId],
    left: usize,
    right: usize,
) -> Result<NetId, AllocError>
    requires low { 1 ≤ fold.width }
    requires high { fold.width ≤ 64 }
    requires folds { IsFold fold.op }
    requires there { left < length nets.now }
    requires first { IsNet nl.old.cells (net_at nets.now left) fold.width }
    requires second { right < length nets.now → IsNet nl.old.cells (net_at nets.now right) fold.width }
    requires room { HasRoom nl.old (1 + 8 * bit (nat_lt right (length nets.now))) }
    ensures adds { OnOk result (Adds nl.old nl.new (1 + 8 * bit (nat_lt right (length nets.now))) (bit (nat_lt right (length nets.now)) * product_of fold.op)) }
    ensures pair { IfOk result (λ y. IsPair nl.new.cells fold nets.now left right y.0) }
{
    if right < nets.len() {
        let both = joined(nl, fold, nets[left], nets[right])?;
        Ok(both)
    } else {
        let later = delayed(nl, nets[left], Width { bits: fold.width })?;
        Ok(later)
    }
}

/// One level: a net at each place for each pair of lanes.
fn level(
    alloc: Global,
    nl: &mut Netlist,
    folds: &[WordFold],
    nets: &[NetId],
    lanes: usize,
    stride: usize,
) -> Result<Vec<NetId>, AllocError>
    requires folds { AreFolds folds.now }
    requires nets { AreFoldNets nl.old.cells folds.now nets.now }
    requires long { length nets.now ≡ lanes * stride }
    requires few { lanes ≤ 4096 }
    requires placed { 1 ≤ stride }
    requires small { stride ≤ 16384 }
    requires whole { stride % length folds.now ≡ 0 }
    requires room { HasRoom nl.old ((lanes + 1) / 2 * stride + 8 * (lanes / 2 * stride)) }
    ensures adds { OnOk result (Adds nl.old nl.new ((lanes + 1) / 2 * stride + 8 * (lanes / 2 * stride)) (lanes / 2 * stride * products_in folds.now)) }
    ensures long { IfOk result (λ outs. length outs.items ≡ (lanes + 1) / 2 * stride) }
    ensures pairs { IfOk result (λ outs. ArePairs nl.new.cells folds.now nets.now stride outs.items) }
{
    let mut outs = Vec::new(alloc);
    for q in 0..(lanes + 1) / 2 * stride {
        let fold = folds[q % folds.len()];
        let left = q + q / stride * stride;
        let net = pair(nl, fold, nets, left, left + stride)?;
        outs.push(net)?;
    }
    Ok(outs)
}

/// The folds over the lanes at each place, `levels` clocks later.
pub fn tree(
    alloc: Global,
    nl: &mut Netlist,
    folds: &[WordFold],
    nets: Vec<NetId>,
    lanes: usize,
    stride: usize,
    levels: u32,
) -> Result<Vec<NetId>, AllocError>
    requires folds { AreFolds folds.now }
    requires nets { AreFoldNets nl.old.cells folds.now nets.items }
    requires long { length nets.items ≡ lanes * stride }
    requires some { 1 ≤ lanes }
    requires few { lanes ≤ 4096 }
    requires deep { lanes ≤ 2 ^ levels }
    requires placed { 1 ≤ stride }
    requires small { stride ≤ 16384 }
    requires whole { stride % length folds.now ≡ 0 }
    requires room { HasRoom nl.old (9 * (lanes * stride) + levels * stride) }
    ensures adds { OnOk result (Adds nl.old nl.new (9 * (lanes * stride) + levels * stride) ((lanes * stride - stride) * products_in folds.now)) }
    ensures long { IfOk result (λ outs. length outs.items ≡ stride) }
    ensures nets { IfOk result (λ outs. AreFoldNets nl.new.cells folds.now outs.items) }
    ensures words { IfOk result (λ outs. AreOverLanes nl.new.cells folds.now nets.items stride levels ((lanes - 1) * stride) outs.items) }
{
    let mut last = nets;
    let mut count = lanes;
    for i in 0..levels {
        last = level(alloc, nl, folds, &last, count, stride)?;
        count = (count + 1) / 2;
    }
    Ok(last)
}
