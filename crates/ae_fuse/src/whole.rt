// A movement program as one move for each result.

ghost use Rattle.std.specs.Prelude.{◌≡◌, ◌-◌, ◌<◌, ◌≤◌, ◌↔◌, ℕ, [], true, length, IfOk, IfSome, IsSome, Some, slice_get};
ghost use Rattle.ae_seq.specs.ProgramTree.{func_tree, node_tree, program_tree};
ghost use Rattle.ae_eval.specs.Stack.{IsTyped};
ghost use Rattle.ae_rewrite.specs.Interface.{main_of};
ghost use Rattle.ae_rewrite.specs.Scheduled.{IsSchedule};
ghost use Rattle.ae_rewrite.specs.Sound.{IsSound};
ghost use Rattle.ae_rewrite.specs.StProgramTree.{st_func_tree, st_func_trees};
ghost use Rattle.ae_trace.specs.Traces.{are_movements, is_movement};
ghost use Rattle.ae_tidy.specs.Places.{AreMarks};
ghost use Rattle.ae_fuse.specs.Fused.{IsFusedBy, IsFusedOf, IsMovable};
ghost use Rattle.ae_fuse.specs.Slowdowns.{IsMovableMain};
ghost use Rattle.ae_fuse.specs.Lowered.{IsFusedCircuit};

use crate::lowering::{all_nets, show_results};
use crate::results::{copies, result_moves, together};
use crate::tracing::traced;
use ae_clocked::Clocks;
use ae_flow::schedules_fit;
use ae_lower::{Lowered, MOST_CELLS, add_input, add_inputs};
use ae_netlist::{Netlist, Port};
use ae_results::{Certificate, FusedResult, certify};
use ae_rewrite::{StFunc, StProgram};
use ae_seq::{Func, Node, Typed};
use ae_sttype::StType;
use ae_tidy::tidy;
use ae_trace::moves_words;
use ae_word::Width;
use std::alloc::{AllocError, Global};
use std::marker::Model;

/// A movement program, each of whose results is made by one move straight from the parameters.
#[derive(Drop)]
pub struct Fused {
    ins: Vec<StType>,
    results: Vec<FusedResult>,
    arrivals: Vec<u32>,
    latency: u32,
    load: u64,
    mems: u64,
    certificate: Option<Certificate>,
}

impl Model for Fused {
    ghost use Rattle.std.specs.Coded.{codes};
    ghost use Rattle.ae_sttype.specs.contracts.st_type.StType as e;
    ghost use Rattle.ae_fuse.specs.Fused.{FusedView};
    ghost use Rattle.ae_fuse.specs.Lowered.{IsWhole};

    ghost Value = { FusedView };

    ghost coded = { Prim.hlevel (codes, e.the_row.coded) };

    ghost view = { λ f. record { ins = f.ins.items; results = f.results.items; arrivals = f.arrivals.items; latency = f.latency; load = f.load; mems = f.mems; certificate = f.certificate } };

    ghost invariant = { λ f. IsWhole (record { ins = f.ins.items; results = f.results.items; arrivals = f.arrivals.items; latency = f.latency; load = f.load; mems = f.mems; certificate = f.certificate }) };
}

impl Fused {
    /// The clocks from a block to its results: the least that a correct module can have.
    pub fn latency(&self) -> u32
        ensures { result ≡ self.now.latency }
    {
        self.latency
    }

    /// The load: a bound for the operators, registers and choices of a circuit.
    pub fn load(&self) -> u64
        ensures { result ≡ self.now.load }
    {
        self.load
    }

    /// The memories of its delay lines.
    pub fn mems(&self) -> u64
        ensures { result ≡ self.now.mems }
    {
        self.mems
    }

    /// When an item of the program function would arrive by one move from all parameters, in clocks after the block; None
    /// exactly where there is no such item.
    pub fn arrival(&self, item: u32) -> Option<u32>
        ensures { result ≡ slice_get self.now.arrivals item }
    {
        self.arrivals.get(item as usize).copied()
    }

    /// The same of all items of the program function, its parameters first.
    pub fn arrivals(&self) -> &[u32]
        ensures { result.now ≡ self.now.arrivals }
    {
        self.arrivals.as_slice()
    }

    /// The first word of the results, by result, element and word, that stands so many clocks before the word that it comes
    /// from as the latency has; None exactly where this is 0. It shows that no module is faster.
    pub fn certificate(&self) -> Option<Certificate>
        ensures { result ≡ self.now.certificate }
    {
        self.certificate
    }

    /// The circuit: the reset and the words of the parameters go in, and in every reset run each block of them makes the
    /// words of the program's results come out, the latency later. It has at most 16 cells for each unit of the load, one for
    /// the reset and one for each word of the parameters, no product, and none that no output needs, but the
    /// inputs. The marks tell where the cells of each result begin, and there are no sections, since no node has cells of
    /// its own. The error comes only for want of memory.
    pub fn lower(&self, alloc: Global) -> Result<Lowered, AllocError>
        requires light { self.now.load ≤ 100000 }
        ensures circuit { IfOk result (λ l. IsFusedCircuit self.now l.netlist) }
        ensures marks { IfOk result (λ l. AreMarks (length l.netlist.cells) (length self.now.results) l.marks.items) }
        ensures sections { IfOk result (λ l. l.sections.items ≡ []) }
    {
        let ins = self.ins.as_slice();
        let results = self.results.as_slice();
        let mut nl = Netlist::new(alloc, MOST_CELLS);
        let rst = add_input(&mut nl, Width::BIT, Port::Reset)?;
        let args = add_inputs(alloc, &mut nl, ins)?;
        let mut clocks = Clocks::new(alloc, rst);
        let built = all_nets(
            alloc,
            &mut nl,
            &mut clocks,
            ins,
            results,
            &args,
            self.latency,
        )?;
        show_results(&mut nl, results, &built.bundles)?;
        nl.formed();
        let tidied = tidy(alloc, nl, built.marks)?;
        Ok(Lowered {
            netlist: tidied.netlist,
            marks: tidied.marks,
            sections: Vec::new(alloc),
        })
    }
}

// A node of a function.
fn node(f: &Func, k: usize) -> &Node
    requires { k < length f.now.nodes.items }
    ensures { slice_get (func_tree f.now).nodes k ≡ Some (node_tree result.now) }
{
    &f.nodes[k]
}

// Whether all lines of a function move words.
fn all_move(f: &Func) -> bool
    ensures { result ≡ are_movements (func_tree f.now).nodes }
{
    for k in 0..f.nodes.len() {
        let moves = moves_words(&node(f, k).op);
        if !moves {
            return false;
        }
    }
    true
}

// The program function.
fn main_func(p: &Typed) -> &Func
    ensures there { slice_get (program_tree p.now).funcs (main_of (program_tree p.now)) ≡ Some (func_tree result.now) }
    ensures typed { IsTyped (program_tree p.now) }
{
    let funcs = p.program().funcs.as_slice();
    &funcs[funcs.len() - 1]
}

// The instance of the program function.
fn main_instance(s: &StProgram) -> &StFunc
    ensures last { slice_get (st_func_trees s.now) (length (st_func_trees s.now) - 1) ≡ Some (st_func_tree result.now) }
    ensures sound { IsSound (st_func_trees s.now) }
{
    match s.instance(s.count() - 1) {
        Some(instance) => instance,
        None => unreachable!(),
    }
}

/// The instance of the program function, where all of that's lines move words: each of its items could be moved straight from
/// the parameters.
pub(crate) fn movable_instance<'s>(p: &Typed, s: &'s StProgram) -> Option<&'s StFunc>
    requires schedule { (slowdown : ℕ) × (0 < slowdown) × (slowdown ≤ 4096) × IsSchedule (program_tree p.now) slowdown (st_func_trees s.now) }
    ensures some { IsSome result ↔ (is_movement (program_tree p.now) ≡ true) }
    ensures instance { IfSome result (λ i. IsMovableMain (program_tree p.now) (st_func_trees s.now) (st_func_tree i.now)) }
{
    schedules_fit();
    let func = main_func(p);
    let moves = all_move(func);
    if moves { Some(main_instance(s)) } else { None }
}

// The moves of an instance, each of whose items could be moved straight from the parameters.
fn fuse_instance(alloc: Global, s: &StFunc) -> Result<Fused, AllocError>
    requires movable { IsMovable (st_func_tree s.now) }
    ensures { IfOk result (λ f. IsFusedBy (st_func_tree s.now) f) }
{
    let traced = traced(alloc, s)?;
    let results = result_moves(alloc, s, &traced.labels)?;
    let ins = copies(alloc, &s.ins)?;
    let costs = together(alloc, &ins, &results)?;
    let certificate = certify(&ins, &results, costs.latency);
    Ok(Fused {
        ins,
        results,
        arrivals: traced.arrivals,
        latency: costs.latency,
        load: costs.load,
        mems: costs.mems,
        certificate,
    })
}

/// A movement program, by its schedule, as one move for each result; None exactly where a line of the program function does
/// more than move words. An error comes only for want of memory.
pub fn fuse(alloc: Global, p: &Typed, s: &StProgram) -> Result<Option<Fused>, AllocError>
    requires schedule { (slowdown : ℕ) × (0 < slowdown) × (slowdown ≤ 4096) × IsSchedule (program_tree p.now) slowdown (st_func_trees s.now) }
    ensures some { IfOk result (λ o. IsSome o ↔ (is_movement (program_tree p.now) ≡ true)) }
    ensures is { IfOk result (λ o. IfSome o (λ f. IsFusedOf (program_tree p.now) (st_func_trees s.now) f)) }
{
    match movable_instance(p, s) {
        Some(instance) => {
            let fused = fuse_instance(alloc, instance)?;
            Ok(Some(fused))
        }
        None => Ok(None),
    }
}
