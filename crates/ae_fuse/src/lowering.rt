// The circuit of a fused program.

ghost use Rattle.std.specs.Prelude.{◌≡◌, ◌<◌, ◌≤◌, ◌*◌, ◌-◌, [], ℕ, List, IfOk, OnOk, Some, flat_map, length, map, slice_get, sum_by};
ghost use Rattle.ae_sttype.specs.StTree.{st_tree};
ghost use Rattle.ae_sttype.specs.Size.{IsInSize};
ghost use Rattle.ae_netlist.specs.declared.cell.NetId.{NetId as Net};
ghost use Rattle.ae_netlist.specs.Room.{HasRoom};
ghost use Rattle.ae_clocked.specs.Phases.{Belongs, KeepsCounters};
ghost use Rattle.ae_ops.specs.Waves.{AreNets};
ghost use Rattle.ae_ops.specs.Blocks.{AreBundles, stream_widths};
ghost use Rattle.ae_moves.specs.Origins.{IsMove, move_latency};
ghost use Rattle.ae_gather.specs.Gathers.{IsGather, move_of};
ghost use Rattle.ae_rewrite.specs.StProgramTree.{st_trees};
ghost use Rattle.ae_ports.specs.Ports.{output_ports, streams_of};
ghost use Rattle.ae_tidy.specs.Places.{AreMarks};
ghost use Rattle.ae_lower.specs.Growth.{AddsMulsAndMemories, GrowsBy};
ghost use Rattle.ae_lower.specs.PortNets.{AddsOutputs};
ghost use Rattle.ae_results.specs.declared.result.FusedResult.{FusedResult as Moving};
ghost use Rattle.ae_fuse.specs.Costing.{result_load, result_mems};
ghost use Rattle.ae_results.specs.Results.{result_move};
ghost use Rattle.ae_fuse.specs.Lowered.{AreLateResults, IsLateResult, result_stream};

use crate::results::copies;
use ae_clocked::Clocks;
use ae_gather::Gather;
use ae_lower::{add_outputs, later};
use ae_moves::Origin;
use ae_netlist::Netlist;
use ae_ops::{Bundle, Stage};
use ae_results::FusedResult;
use ae_sttype::StType;
use std::alloc::{AllocError, Global};

// The origins again.
fn same_origins(alloc: Global, source: &[Origin]) -> Result<Vec<Origin>, AllocError>
    ensures { IfOk result (λ v. v.items ≡ source.now) }
{
    let mut copied = Vec::new(alloc);
    copied.extend_from_slice(source)?;
    Ok(copied)
}

// The move of a result as a stage, which may be the only reader of the parameters.
fn stage(
    alloc: Global,
    ins: &[StType],
    own: &FusedResult,
    alone: bool,
) -> Result<Gather, AllocError>
    requires { IsGather (result_move (st_trees ins.now) own.now) }
    ensures { IfOk result (λ g. move_of g ≡ result_move (st_trees ins.now) own.now) }
{
    let layouts = copies(alloc, ins)?;
    let out = own.out.copy(alloc)?;
    let source = same_origins(alloc, &own.source)?;
    let gather = Gather::of_move(layouts, out, source);
    if alone {
        Ok(gather.alone())
    } else {
        Ok(gather)
    }
}

// The nets of a result, for which there is room, by its move from the parameters' nets, as late as the latest result.
fn result_nets(
    alloc: Global,
    nl: &mut Netlist,
    clocks: &mut Clocks,
    gather: Gather,
    args: &[Bundle],
    whole: u32,
) -> Result<Bundle, AllocError>
    requires moves { IsMove (move_of gather) }
    requires latest { move_latency (move_of gather) ≤ whole }
    requires belongs { Belongs clocks.old nl.old.cells }
    requires args { AreBundles nl.old.cells (streams_of (move_of gather).ins) args.now }
    requires room { HasRoom nl.old (16 * result_load whole (move_of gather)) }
    ensures belongs { OnOk result (Belongs clocks.new nl.new.cells) }
    ensures keeps { OnOk result (KeepsCounters clocks.old clocks.new) }
    ensures grows { OnOk result (GrowsBy nl.old nl.new (result_load whole (move_of gather))) }
    ensures adds { OnOk result (AddsMulsAndMemories nl.old nl.new 0 (result_mems whole (move_of gather))) }
    ensures moved { IfOk result (λ b. IsLateResult nl.new.cells clocks.old.rst whole (move_of gather) args.now b) }
{
    let slack = whole - gather.latency();
    let bundle = gather.build(alloc, nl, clocks, args, 0)?;
    let late = later(alloc, nl, clocks, &bundle, slack)?;
    Ok(late)
}

/// The nets of all results, and for each the number of the cells before its own.
#[derive(Drop)]
pub(crate) struct Built {
    pub bundles: Vec<Bundle>,
    pub marks: Vec<u32>,
}

/// The nets of all results, for which there is room, each by its move from the parameters' nets; an error only for want of
/// memory.
pub(crate) fn all_nets(
    alloc: Global,
    nl: &mut Netlist,
    clocks: &mut Clocks,
    ins: &[StType],
    results: &[FusedResult],
    args: &[Bundle],
    whole: u32,
) -> Result<Built, AllocError>
    requires moves { (k : ℕ) (r : Moving) → slice_get results.now k ≡ Some r → IsMove (result_move (st_trees ins.now) r) }
    requires latest { (k : ℕ) (r : Moving) → slice_get results.now k ≡ Some r → move_latency (result_move (st_trees ins.now) r) ≤ whole }
    requires belongs { Belongs clocks.old nl.old.cells }
    requires args { AreBundles nl.old.cells (streams_of (st_trees ins.now)) args.now }
    requires few { length ins.now ≤ 8 }
    requires room { HasRoom nl.old (16 * sum_by (result_load whole) (map (result_move (st_trees ins.now)) results.now)) }
    ensures grows { OnOk result (GrowsBy nl.old nl.new (sum_by (result_load whole) (map (result_move (st_trees ins.now)) results.now))) }
    ensures adds { OnOk result (AddsMulsAndMemories nl.old nl.new 0 (sum_by (result_mems whole) (map (result_move (st_trees ins.now)) results.now))) }
    ensures moved { IfOk result (λ b. AreLateResults nl.new.cells clocks.old.rst whole (map (result_move (st_trees ins.now)) results.now) (length results.now) args.now b.bundles.items) }
    ensures marks { IfOk result (λ b. AreMarks (length nl.new.cells) (length results.now) b.marks.items) }
{
    let alone = results.len() == 1;
    let mut bundles = Vec::new(alloc);
    let mut marks = Vec::new(alloc);
    for k in 0..results.len() {
        let mark = nl.len();
        let gather = stage(alloc, ins, &results[k], alone)?;
        let bundle = result_nets(alloc, nl, clocks, gather, args, whole)?;
        bundles.push(bundle)?;
        marks.push(mark)?;
    }
    Ok(Built { bundles, marks })
}

/// Adds the outputs of the results, each from its bundle.
pub(crate) fn show_results(
    nl: &mut Netlist,
    results: &[FusedResult],
    bundles: &[Bundle],
) -> Result<(), AllocError>
    requires few { length results.now ≤ 8 }
    requires sizes { (k : ℕ) (r : Moving) → slice_get results.now k ≡ Some r → IsInSize (st_tree r.out) }
    requires long { length bundles.now ≡ length results.now }
    requires nets { (k : ℕ) (r : Moving) (nets : List Net) → slice_get results.now k ≡ Some r → slice_get bundles.now k ≡ Some nets → AreNets nl.old.cells (stream_widths (result_stream r)) nets }
    requires none { nl.old.outlets ≡ [] }
    ensures { OnOk result (AddsOutputs nl.old nl.new (output_ports (map result_stream results.now)) (flat_map (λ (b : List Net). b) bundles.now)) }
{
    for k in 0..results.len() {
        let own = &results[k];
        add_outputs(nl, &bundles[k], &own.out, k as u32)?;
    }
    Ok(())
}
