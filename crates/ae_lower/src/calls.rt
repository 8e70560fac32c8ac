// Instances: each call is lowered where it stands.

ghost use Rattle.std.specs.Prelude.{◌≡◌, ◌≤◌, ◌<◌, ◌+◌, ◌*◌, ◌++◌, ◌∷◌, [], ℕ, List, length, map, take, IfOk, OnOk, Some, slice_get, get_or};
ghost use Rattle.std.specs.Option.{option_and_then};
ghost use Rattle.ae_netlist.specs.declared.cell.NetId.{NetId as Net};
ghost use Rattle.ae_netlist.specs.Room.{HasRoom};
ghost use Rattle.ae_clocked.specs.Phases.{Belongs, KeepsCounters};
ghost use Rattle.ae_clocked.specs.KeptRings.{RingsBelong};
ghost use Rattle.ae_ops.specs.Blocks.{AreBundles};
ghost use Rattle.ae_rewrite.specs.StProgramTree.{StFuncTree as Tree, StNodeTree as Node};
ghost use Rattle.ae_delay.specs.Costs.{NodeTiming, latest};
ghost use Rattle.ae_retime.specs.Slacks.{joint_slacks};
ghost use Rattle.ae_flow.specs.Flow.{callees};
ghost use Rattle.ae_flow.specs.Fitted.{elements_stream};
ghost use Rattle.ae_ports.specs.Ports.{streams_of};
ghost use Rattle.ae_lower.specs.Growth.{AddsMulsAndMemories, GrowsBy, IsBuilt, Spends};
ghost use Rattle.ae_lower.specs.Lowering.{AreChosen, AreItems, AreStanding, IsItem, IsLight, IsNodeAt, IsTimedProgram, arrivals_in, bodies_part, instance_costs, instances_of, lane_nets};
ghost use Rattle.ae_lower.specs.Sections.{AreSections, HaveSections, IsSectionFor, IsSectionWithin};
ghost use Rattle.ae_lower.specs.Stretches.{AreNodeCells};
ghost use Rattle.ae_tidy.specs.Places.{AreMarks};

use crate::items::{joined, waiting_memories};
use crate::nodes::build;
use crate::sections::{Section, begin};
use crate::wires::{copied, piece};
use ae_clocked::{Clocks, Rings};
use ae_delay::Timing;
use ae_flow::flows_fit;
use ae_netlist::Netlist;
use ae_ops::Bundle;
use ae_retime::Slacks;
use ae_rewrite::{StFunc, StNode, StOp, StProgram};
use std::alloc::{AllocError, Global};

/// A program with its timing and its slacks: when each of its items arrives, in clocks after its block, and how many clocks
/// each argument and each result waits. Lowering reads it and never changes it.
#[derive(Clone, Copy)]
pub struct TimedProgram<'a> {
    pub program: &'a StProgram,
    pub timing: &'a Timing,
    pub slacks: &'a Slacks,
}

// An instance whose block 0 begins in some clock: what all its nodes share.
#[derive(Clone, Copy)]
struct InstanceAt<'a> {
    whole: TimedProgram<'a>,
    number: u32,
    // The clock after reset in which its block 0 begins.
    at: u32,
    // How often each of its items is read.
    readers: &'a Vec<u32>,
}

// Instance number k.
pub fn instance(p: &StProgram, k: u32) -> &StFunc
    requires { k < length p.now }
    ensures { slice_get p.now k ≡ Some result.now }
{
    match p.instance(k) {
        Some(s) => s,
        None => unreachable!(),
    }
}

// When its items arrive.
fn arrivals_of(a: &Timing, k: u32) -> &[u32]
    requires { (own : List ℕ) × (slice_get a.now.arrivals k ≡ Some own) }
    ensures { slice_get a.now.arrivals k ≡ Some result.now }
{
    match a.arrivals(k) {
        Some(arrivals) => arrivals,
        None => unreachable!(),
    }
}

// How long each argument of one of its nodes waits.
fn waits_of(slacks: &Slacks, k: u32, node: u32) -> &[u32]
    requires { (own : List ℕ) × (option_and_then (λ nodes. slice_get nodes node) (slice_get slacks.now.arguments k) ≡ Some own) }
    ensures { option_and_then (λ nodes. slice_get nodes node) (slice_get slacks.now.arguments k) ≡ Some result.now }
{
    match slacks.waits(k, node) {
        Some(waits) => waits,
        None => unreachable!(),
    }
}

// How long each of its items waits at most.
fn chains_of(slacks: &Slacks, k: u32) -> &[u32]
    requires { (own : List ℕ) × (slice_get slacks.now.chains k ≡ Some own) }
    ensures { slice_get slacks.now.chains k ≡ Some result.now }
{
    match slacks.chains(k) {
        Some(chains) => chains,
        None => unreachable!(),
    }
}

// How long each of its results waits.
fn result_waits_of(slacks: &Slacks, k: u32) -> &[u32]
    requires { (own : List ℕ) × (slice_get slacks.now.results k ≡ Some own) }
    ensures { slice_get slacks.now.results k ≡ Some result.now }
{
    match slacks.result_waits(k) {
        Some(waits) => waits,
        None => unreachable!(),
    }
}

// When these items, each with so long a wait, have all come: as the first does after its wait; 0 of none.
fn start_of(arrivals: &[u32], waits: &[u32], items: &[u32]) -> u32
    requires below { (r i : ℕ) → slice_get items.now r ≡ Some i → i < length arrivals.now }
    requires waits { waits.now ≡ joint_slacks arrivals.now items.now }
    requires early { latest arrivals.now items.now ≤ 100000 }
    ensures { result ≡ latest arrivals.now items.now }
{
    if items.is_empty() {
        return 0;
    }
    arrivals[items[0] as usize] + waits[0]
}

// The bundles again.
fn all_copied(alloc: Global, bundles: &[Bundle]) -> Result<Vec<Bundle>, AllocError>
    ensures ok { IfOk result (λ v. v.items ≡ bundles.now) }
{
    let mut all = Vec::new(alloc);
    for bundle in bundles {
        let again = copied(alloc, bundle)?;
        all.push(again)?;
    }
    Ok(all)
}

// The nets of one of so many lanes, of each bundle.
fn lane_of(
    alloc: Global,
    bundles: &[Bundle],
    copies: u32,
    lane: u32,
) -> Result<Vec<Bundle>, AllocError>
    requires { lane < copies }
    ensures ok { IfOk result (λ v. v.items ≡ map (lane_nets copies lane) bundles.now) }
{
    let mut all = Vec::new(alloc);
    for bundle in bundles {
        let columns = bundle.nets().len() / copies as usize;
        let nets = piece(alloc, bundle.nets(), lane as usize * columns, columns)?;
        all.push(nets)?;
    }
    Ok(all)
}

// One item more, and the number of cells before it.
fn keep_item(
    items: &mut Vec<Bundle>,
    marks: &mut Vec<u32>,
    made: Bundle,
    mark: u32,
) -> Result<(), AllocError>
    ensures ok { OnOk result (items.new.items ≡ items.old.items ++ made ∷ []) }
    ensures marked { OnOk result (marks.new.items ≡ marks.old.items ++ mark ∷ []) }
{
    items.push(made)?;
    marks.push(mark)?;
    Ok(())
}

// One more reader.
fn count_reader(counts: &mut Vec<u32>, item: u32) {
    let k = item as usize;
    if k < counts.len() {
        counts[k] = counts[k].saturating_add(1);
    }
}

fn no_readers(alloc: Global, count: usize) -> Result<Vec<u32>, AllocError> {
    let mut counts = Vec::new(alloc);
    for i in 0..count {
        counts.push(0)?;
    }
    Ok(counts)
}

// How often each item is read, by a node or as a result.
fn readers(alloc: Global, s: &StFunc) -> Result<Vec<u32>, AllocError> {
    let mut counts = no_readers(alloc, s.ins.len() + s.nodes.len())?;
    for node in &s.nodes {
        for item in &node.args {
            count_reader(&mut counts, *item);
        }
    }
    for item in &s.results {
        count_reader(&mut counts, *item);
    }
    Ok(counts)
}

// Whether nothing but this node reads its one argument. Only a choice between circuits with the same words hangs on it.
fn reads_alone(counts: &Vec<u32>, node: &StNode) -> bool {
    if node.args.len() != 1 {
        return false;
    }
    match counts.get(node.args[0] as usize) {
        Some(count) => *count == 1,
        None => false,
    }
}

/// The results of instance `k` on bundles whose block 0 begins in clock `at` after reset, all as late as the latest. The
/// number of cells before each of its nodes is put behind the marks, and the sections of its cells and of those of the
/// instances that it calls behind the sections.
#[cycle(lowering)]
pub fn lower_instance(
    alloc: Global,
    nl: &mut Netlist,
    clocks: &mut Clocks,
    whole: &TimedProgram<'_>,
    k: u32,
    ins: &[Bundle],
    at: u32,
    marks: &mut Vec<u32>,
    sections: &mut Vec<Section>,
) -> Result<Vec<Bundle>, AllocError>
    requires belongs { Belongs clocks.old nl.old.cells }
    requires whole { IsTimedProgram whole.now }
    requires light { (s : Tree) × IsLight (instances_of whole.now) k at s }
    requires ins { (s : Tree) → slice_get (instances_of whole.now) k ≡ Some s → AreBundles nl.old.cells (streams_of s.ins) ins.now }
    requires room { HasRoom nl.old (16 * (instance_costs (instances_of whole.now) k).load) }
    ensures belongs { OnOk result (Belongs clocks.new nl.new.cells) }
    ensures keeps { OnOk result (KeepsCounters clocks.old clocks.new) }
    ensures grows { OnOk result (GrowsBy nl.old nl.new (instance_costs (instances_of whole.now) k).load) }
    ensures adds { OnOk result (AddsMulsAndMemories nl.old nl.new (instance_costs (instances_of whole.now) k).muls (instance_costs (instances_of whole.now) k).mems) }
    ensures results { IfOk result (λ v. (s : Tree) → slice_get (instances_of whole.now) k ≡ Some s → AreChosen nl.new.cells clocks.old.rst at (callees (take k (instances_of whole.now))) s ins.now (instance_costs (instances_of whole.now) k).latency s.results v.items) }
    ensures marks { OnOk result ((s : Tree) (count : ℕ) → slice_get (instances_of whole.now) k ≡ Some s → AreMarks (length nl.old.cells) count marks.old.items → AreMarks (length nl.new.cells) (count + length s.nodes) marks.new.items) }
    ensures nodes { OnOk result ((s : Tree) → slice_get (instances_of whole.now) k ≡ Some s → marks.old.items ≡ [] → AreNodeCells (instances_of whole.now) k s nl.new.cells (length nl.old.cells) marks.new.items) }
    ensures sections { OnOk result (AreSections (length nl.old.cells) sections.old.items
        → HaveSections (IsSectionWithin (instances_of whole.now) k) (length nl.old.cells) (length nl.new.cells) sections.old.items sections.new.items) }
{
    let s = instance(whole.program, k);
    let counts = readers(alloc, s)?;
    let chains = chains_of(whole.slacks, k);
    let most = waiting_memories(s, chains);
    let mut kept = Rings::new(alloc, most);
    let mut items = all_copied(alloc, ins)?;
    let within = InstanceAt {
        whole: *whole,
        number: k,
        at,
        readers: &counts,
    };
    for j in 0..s.nodes.len() {
        let mark = nl.len();
        let made = lower_node(alloc, nl, clocks, &mut kept, &within, j, &items, sections)?;
        keep_item(&mut items, marks, made, mark)?;
    }
    let waits = result_waits_of(whole.slacks, k);
    let cell = nl.len();
    let node = s.nodes.len() as u32;
    begin(
        sections,
        Section {
            cell,
            instance: k,
            node,
        },
    )?;
    let results = joined(
        alloc, nl, clocks, &mut kept, chains, &items, waits, &s.results,
    )?;
    Ok(results)
}

// Node `j` of an instance, on the items before it.
#[cycle(lowering)]
fn lower_node(
    alloc: Global,
    nl: &mut Netlist,
    clocks: &mut Clocks,
    kept: &mut Rings,
    within: &InstanceAt<'_>,
    j: usize,
    items: &[Bundle],
    sections: &mut Vec<Section>,
) -> Result<Bundle, AllocError>
    requires belongs { Belongs clocks.old nl.old.cells }
    requires rings { RingsBelong kept.old clocks.old.rst nl.old.cells }
    requires whole { IsTimedProgram within.now.whole }
    requires light { (s : Tree) × IsLight (instances_of within.now.whole) within.now.number within.now.at s }
    requires node { (s : Tree) → slice_get (instances_of within.now.whole) within.now.number ≡ Some s → j < length s.nodes }
    requires items { (s : Tree) → slice_get (instances_of within.now.whole) within.now.number ≡ Some s → AreStanding nl.old.cells s (length s.ins + j) items.now }
    requires room { (s : Tree) (n : Node) (t : NodeTiming) → IsNodeAt (instances_of within.now.whole) within.now.number j s n t → HasRoom nl.old (16 * t.load) }
    ensures belongs { OnOk result (Belongs clocks.new nl.new.cells) }
    ensures keeps { OnOk result (KeepsCounters clocks.old clocks.new) }
    ensures rings { OnOk result (RingsBelong kept.new clocks.old.rst nl.new.cells) }
    ensures grows { OnOk result ((s : Tree) (n : Node) (t : NodeTiming) → IsNodeAt (instances_of within.now.whole) within.now.number j s n t → GrowsBy nl.old nl.new t.load) }
    ensures spends { OnOk result ((s : Tree) (n : Node) (t : NodeTiming) → IsNodeAt (instances_of within.now.whole) within.now.number j s n t → Spends nl.old nl.new t.muls t.mems kept.old.left kept.new.left) }
    ensures item { IfOk result (λ y. (s : Tree) (ins : List (List Net)) → slice_get (instances_of within.now.whole) within.now.number ≡ Some s
        → AreItems nl.old.cells clocks.old.rst within.now.at (callees (take within.now.number (instances_of within.now.whole))) s (arrivals_in (instances_of within.now.whole) within.now.number s) ins (length s.ins + j) items.now
        → IsItem nl.new.cells clocks.old.rst within.now.at (callees (take within.now.number (instances_of within.now.whole))) s ins (get_or (arrivals_in (instances_of within.now.whole) within.now.number s) (length s.ins + j) 0) (length s.ins + j) y) }
    ensures sections { OnOk result (AreSections (length nl.old.cells) sections.old.items
        → HaveSections (IsSectionFor (instances_of within.now.whole) within.now.number j) (length nl.old.cells) (length nl.new.cells) sections.old.items sections.new.items) }
{
    flows_fit();
    let at = within.at;
    let s = instance(within.whole.program, within.number);
    let arrivals = arrivals_of(within.whole.timing, within.number);
    let node = &s.nodes[j];
    let number = j as u32;
    let waits = waits_of(within.whole.slacks, within.number, number);
    let start = start_of(arrivals, waits, &node.args);
    let chains = chains_of(within.whole.slacks, within.number);
    let cell = nl.len();
    begin(
        sections,
        Section {
            cell,
            instance: within.number,
            node: number,
        },
    )?;
    let args = joined(alloc, nl, clocks, kept, chains, items, waits, &node.args)?;
    match &node.op {
        StOp::Body(m) => {
            let made = lower_bodies(
                alloc,
                nl,
                clocks,
                &within.whole,
                *m,
                node.copies,
                &args,
                at + start,
                sections,
            )?;
            Ok(made)
        }
        StOp::Word(_)
        | StOp::Join
        | StOp::First
        | StOp::Second
        | StOp::Fixed(_)
        | StOp::Move(_)
        | StOp::Fold { .. }
        | StOp::Scan { .. } => {
            let alone = reads_alone(within.readers, node);
            let made = build(alloc, nl, clocks, s, node, &args, at + start, alone)?;
            Ok(made)
        }
    }
}

// So many copies of instance `m`, one a lane.
#[cycle(lowering)]
fn lower_bodies(
    alloc: Global,
    nl: &mut Netlist,
    clocks: &mut Clocks,
    whole: &TimedProgram<'_>,
    m: u32,
    copies: u32,
    args: &[Bundle],
    at: u32,
    sections: &mut Vec<Section>,
) -> Result<Bundle, AllocError>
    requires belongs { Belongs clocks.old nl.old.cells }
    requires whole { IsTimedProgram whole.now }
    requires light { (f : Tree) × IsLight (instances_of whole.now) m at f }
    requires some { 1 ≤ copies }
    requires args { (f : Tree) → slice_get (instances_of whole.now) m ≡ Some f → (slots : ℕ) × AreBundles nl.old.cells (map (elements_stream slots copies) f.ins) args.now }
    requires room { HasRoom nl.old (16 * (copies * (instance_costs (instances_of whole.now) m).load)) }
    ensures belongs { OnOk result (Belongs clocks.new nl.new.cells) }
    ensures keeps { OnOk result (KeepsCounters clocks.old clocks.new) }
    ensures grows { OnOk result (GrowsBy nl.old nl.new (copies * (instance_costs (instances_of whole.now) m).load)) }
    ensures adds { OnOk result (AddsMulsAndMemories nl.old nl.new (copies * (instance_costs (instances_of whole.now) m).muls) (copies * (instance_costs (instances_of whole.now) m).mems)) }
    ensures built { IfOk result (λ y. (f : Tree) (slots rounds : ℕ) → slice_get (instances_of whole.now) m ≡ Some f → slots ≤ rounds
        → IsBuilt nl.new clocks.old.rst at (bodies_part (callees (take m (instances_of whole.now))) f slots rounds copies (instance_costs (instances_of whole.now) m).latency) args.now y) }
    ensures sections { OnOk result (AreSections (length nl.old.cells) sections.old.items
        → HaveSections (IsSectionWithin (instances_of whole.now) m) (length nl.old.cells) (length nl.new.cells) sections.old.items sections.new.items) }
{
    flows_fit();
    let mut out = Vec::new(alloc);
    for lane in 0..copies {
        let own = lane_of(alloc, args, copies, lane)?;
        let mut inner = Vec::new(alloc);
        let results = lower_instance(alloc, nl, clocks, whole, m, &own, at, &mut inner, sections)?;
        out.extend_from_slice(results[0].nets())?;
    }
    Ok(Bundle::new(out))
}
