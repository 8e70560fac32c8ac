// Nodes that call nothing.

ghost use Rattle.std.specs.Prelude.{◌≡◌, ◌≤◌, ◌+◌, ◌-◌, ◌∷◌, [], ℕ, List, length, if◌then◌else◌, IfOk, OnOk, ◌*◌};
ghost use Rattle.ae_netlist.specs.declared.cell.SizedCell.{SizedCell};
ghost use Rattle.ae_netlist.specs.Counts.{AreWhole, count_of, is_memory, is_mul};
ghost use Rattle.ae_netlist.specs.Room.{HasRoom};
ghost use Rattle.ae_gates.specs.Cells.{Grows};
ghost use Rattle.ae_clocked.specs.Phases.{Belongs, KeepsCounters};
ghost use Rattle.ae_sttype.specs.StTree.{element_words, st_tree};
ghost use Rattle.ae_ops.specs.Waves.{AreNets};
ghost use Rattle.ae_ops.specs.Blocks.{AllAreWords, AreBundles, KeepsLaw, stream_widths};
ghost use Rattle.ae_gather.specs.Gathers.{gather_part, move_of};
ghost use Rattle.ae_reduce.specs.Reduces.{reduce_part};
ghost use Rattle.ae_rewrite.specs.StProgramTree.{st_func_tree, st_node_tree, word, join, first, second};
ghost use Rattle.ae_flow.specs.Flow.{Callee, width_of};
ghost use Rattle.ae_ports.specs.Ports.{streams_of};
ghost use Rattle.ae_lower.specs.Growth.{AddsMulsAndMemories, GrowsBy, IsBuilt};
ghost use Rattle.ae_lower.specs.Nodes.{CallsNothing, IsNodePart, IsReady, IsReadyNode, PairsArguments, TakesWords, argument_words, arguments_of, moved_fold, node_part, plain_costs};

use crate::stages::{constant, first_width, moving, reducing, scanning};
use crate::wires::{pairs, parts};
use ae_clocked::Clocks;
use ae_delay::layout;
use ae_gather::Gather;
use ae_netlist::Netlist;
use ae_ops::{Bundle, Stage, WordStage};
use ae_reduce::Reduce;
use ae_rewrite::{MoveOp, StFunc, StNode, StOp};
use ae_word::{WordOp, main_place};
use std::alloc::{AllocError, Global};

/// Builds a stage that does what a node does, within its costs. The instance and the node only say which node it is.
fn place<S: Stage>(
    alloc: Global,
    nl: &mut Netlist,
    clocks: &mut Clocks,
    stage: &S,
    s: &StFunc,
    node: &StNode,
    args: &[Bundle],
    at: u32,
) -> Result<Bundle, AllocError>
    requires belongs { Belongs clocks.old nl.old.cells }
    requires bundles { AreBundles nl.old.cells (streams_of (arguments_of (st_func_tree s.now) (st_node_tree node.now))) args.now }
    requires does { (known : List Callee) → IsNodePart known (st_func_tree s.now) (st_node_tree node.now) (S.part stage.now) }
    requires room { HasRoom nl.old (16 * (plain_costs (st_func_tree s.now) (st_node_tree node.now)).load) }
    ensures belongs { OnOk result (Belongs clocks.new nl.new.cells) }
    ensures keeps { OnOk result (KeepsCounters clocks.old clocks.new) }
    ensures grows { OnOk result (GrowsBy nl.old nl.new (plain_costs (st_func_tree s.now) (st_node_tree node.now)).load) }
    ensures adds { OnOk result (AddsMulsAndMemories nl.old nl.new (plain_costs (st_func_tree s.now) (st_node_tree node.now)).muls (plain_costs (st_func_tree s.now) (st_node_tree node.now)).mems) }
    ensures built { IfOk result (λ y. (known : List Callee) → IsBuilt nl.new clocks.old.rst at (node_part known (plain_costs (st_func_tree s.now) (st_node_tree node.now)).latency (st_func_tree s.now) (st_node_tree node.now)) args.now y) }
{
    let out = stage.build(alloc, nl, clocks, args, at)?;
    Ok(out)
}

/// An operator on words.
fn operation(op: WordOp, s: &StFunc, node: &StNode) -> WordStage
    requires ready { IsReadyNode (st_func_tree s.now) (st_node_tree node.now) }
    requires is { (st_node_tree node.now).op ≡ word op }
    ensures { result ≡ record { op = op; width = width_of op (arguments_of (st_func_tree s.now) (st_node_tree node.now)); period = s.now.budget } }
{
    let main = main_place(op) as usize;
    let width = first_width(layout(s, node.args[main] as usize));
    WordStage::new(op, width, s.budget)
}

/// A move that may be the only reader of its argument.
fn reading(moved: Gather, alone: bool) -> Gather
    ensures { move_of result ≡ move_of moved }
{
    if alone { moved.alone() } else { moved }
}

/// A fold, and a move of its result.
fn fold_and_move(
    alloc: Global,
    nl: &mut Netlist,
    clocks: &mut Clocks,
    fold: &Reduce,
    moved: &Gather,
    args: &[Bundle],
    at: u32,
) -> Result<Bundle, AllocError>
    requires belongs { Belongs clocks.old nl.old.cells }
    requires bundles { AreBundles nl.old.cells (reduce_part fold.now).ins args.now }
    requires follows { (gather_part (move_of moved.now)).ins ≡ (reduce_part fold.now).out ∷ [] }
    requires period { (gather_part (move_of moved.now)).period ≡ (reduce_part fold.now).period }
    requires typed { (vs : List (List ℕ)) → AllAreWords (reduce_part fold.now).ins vs → AllAreWords ((reduce_part fold.now).out ∷ []) ((reduce_part fold.now).means vs ∷ []) }
    requires early { at ≤ 100000 }
    requires short { (reduce_part fold.now).latency ≤ 100000 }
    requires room { HasRoom nl.old (moved_fold fold.now moved.now).most_cells }
    ensures belongs { OnOk result (Belongs clocks.new nl.new.cells) }
    ensures keeps { OnOk result (KeepsCounters clocks.old clocks.new) }
    ensures grows { OnOk result (Grows nl.old nl.new) }
    ensures cells { OnOk result (length nl.new.cells ≤ length nl.old.cells + (moved_fold fold.now moved.now).most_cells) }
    ensures muls { OnOk result (count_of is_mul nl.new.cells ≡ count_of is_mul nl.old.cells + (moved_fold fold.now moved.now).products) }
    ensures memories { OnOk result (count_of is_memory nl.new.cells ≤ count_of is_memory nl.old.cells + (moved_fold fold.now moved.now).most_memories) }
    ensures whole { OnOk result (AreWhole nl.old.cells → AreWhole nl.new.cells) }
    ensures bundle { IfOk result (λ y. AreNets nl.new.cells (stream_widths (gather_part (move_of moved.now)).out) y) }
    ensures law { IfOk result (λ y. KeepsLaw nl.new.cells clocks.old.rst at (moved_fold fold.now moved.now) args.now y) }
{
    let raw = fold.build(alloc, nl, clocks, args, at)?;
    let mid = one_bundle(alloc, raw)?;
    let out = moved.build(alloc, nl, clocks, &mid, at + fold.latency())?;
    Ok(out)
}

fn one_bundle(alloc: Global, bundle: Bundle) -> Result<Vec<Bundle>, AllocError>
    ensures ok { IfOk result (λ v. v.items ≡ bundle ∷ []) }
{
    let mut bundles = Vec::new(alloc);
    bundles.push(bundle)?;
    Ok(bundles)
}

/// The nets of pairs, lane by lane.
fn pairs_of(alloc: Global, s: &StFunc, node: &StNode, args: &[Bundle]) -> Result<Bundle, AllocError>
    requires ready { (cells : List SizedCell) × IsReady cells (st_func_tree s.now) (st_node_tree node.now) args.now }
    requires is { (st_node_tree node.now).op ≡ join }
    ensures pairs { IfOk result (PairsArguments (st_func_tree s.now) (st_node_tree node.now) args.now) }
{
    let count = node.ty.lanes() as usize;
    let k = layout(s, node.args[0] as usize).element_words() as usize;
    let l = layout(s, node.args[1] as usize).element_words() as usize;
    pairs(alloc, args[0].nets(), args[1].nets(), count, k, l)
}

/// The nets of the first or the second of pairs, lane by lane.
fn part_of(
    alloc: Global,
    s: &StFunc,
    node: &StNode,
    args: &[Bundle],
    is_first: bool,
) -> Result<Bundle, AllocError>
    requires ready { (cells : List SizedCell) × IsReady cells (st_func_tree s.now) (st_node_tree node.now) args.now }
    requires is { (st_node_tree node.now).op ≡ (if is_first then first else second) }
    ensures parts { IfOk result (TakesWords (st_func_tree s.now) (st_node_tree node.now) (if is_first then 0 else argument_words (st_func_tree s.now) (st_node_tree node.now) 0 - element_words (st_tree node.now.ty)) args.now) }
{
    let count = node.ty.lanes() as usize;
    let k = layout(s, node.args[0] as usize).element_words() as usize;
    let l = node.ty.element_words() as usize;
    let from = if is_first { 0 } else { k - l };
    parts(alloc, args[0].nets(), count, k, from, l)
}

/// A node that calls nothing, on arguments whose block 0 begins in clock `at` after reset. With `alone` nothing else reads
/// its argument.
pub fn build(
    alloc: Global,
    nl: &mut Netlist,
    clocks: &mut Clocks,
    s: &StFunc,
    node: &StNode,
    args: &[Bundle],
    at: u32,
    alone: bool,
) -> Result<Bundle, AllocError>
    requires belongs { Belongs clocks.old nl.old.cells }
    requires ready { IsReady nl.old.cells (st_func_tree s.now) (st_node_tree node.now) args.now }
    requires plain { CallsNothing (st_node_tree node.now).op }
    requires early { at ≤ 100000 }
    requires room { HasRoom nl.old (16 * (plain_costs (st_func_tree s.now) (st_node_tree node.now)).load) }
    ensures belongs { OnOk result (Belongs clocks.new nl.new.cells) }
    ensures keeps { OnOk result (KeepsCounters clocks.old clocks.new) }
    ensures grows { OnOk result (GrowsBy nl.old nl.new (plain_costs (st_func_tree s.now) (st_node_tree node.now)).load) }
    ensures adds { OnOk result (AddsMulsAndMemories nl.old nl.new (plain_costs (st_func_tree s.now) (st_node_tree node.now)).muls (plain_costs (st_func_tree s.now) (st_node_tree node.now)).mems) }
    ensures built { IfOk result (λ y. (known : List Callee) → IsBuilt nl.new clocks.old.rst at (node_part known (plain_costs (st_func_tree s.now) (st_node_tree node.now)).latency (st_func_tree s.now) (st_node_tree node.now)) args.now y) }
{
    match &node.op {
        StOp::Word(op) => {
            let stage = operation(*op, s, node);
            place(alloc, nl, clocks, &stage, s, node, args, at)
        }
        StOp::Join => {
            let out = pairs_of(alloc, s, node, args)?;
            Ok(out)
        }
        StOp::First => {
            let out = part_of(alloc, s, node, args, true)?;
            Ok(out)
        }
        StOp::Second => {
            let out = part_of(alloc, s, node, args, false)?;
            Ok(out)
        }
        StOp::Fixed(words) => {
            let stage = constant(alloc, words, &node.ty)?;
            place(alloc, nl, clocks, &stage, s, node, args, at)
        }
        StOp::Move(how) => {
            let stage = moving(alloc, *how, layout(s, node.args[0] as usize), &node.ty)?;
            let reader = reading(stage, alone);
            place(alloc, nl, clocks, &reader, s, node, args, at)
        }
        StOp::Fold {
            op,
            slots,
            lanes,
            raw,
        } => {
            let moved = moving(alloc, MoveOp::Same, raw, &node.ty)?;
            let wait = moved.latency();
            let fold = reducing(alloc, *op, *slots, *lanes, raw, s.budget, wait)?;
            let out = fold_and_move(alloc, nl, clocks, &fold, &moved, args, at)?;
            Ok(out)
        }
        StOp::Scan { op, slots, lanes } => {
            let stage = scanning(alloc, *op, *slots, *lanes, &node.ty, s.budget)?;
            place(alloc, nl, clocks, &stage, s, node, args, at)
        }
        StOp::Body(_) => unreachable!(),
    }
}
