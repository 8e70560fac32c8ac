// From a module to its netlist.

ghost use Rattle.std.specs.Prelude.{◌≡◌, ◌<◌, ◌≤◌, ◌*◌, ◌^◌, ℕ, List, length, map, IfErr, IfOk, OnOk};
ghost use Rattle.ae_vread.specs.Spells.{Spells};
ghost use Rattle.ae_vmodule.specs.View.{module_tree};
ghost use Rattle.ae_judge.specs.Table.{table_of};
ghost use Rattle.ae_judge.specs.Weight.{weight};
ghost use Rattle.ae_judge.specs.Faults.{IsFault, IsWellFormed};
ghost use Rattle.ae_judge.specs.Regular.{IsRegular};
ghost use Rattle.ae_judge.specs.Shape.{IsShapely};
ghost use Rattle.ae_runs.specs.SameRuns.{HasSameRuns};
ghost use Rattle.ae_order.specs.Drives.{IsWireOrder, value_tree, values_of};
ghost use Rattle.ae_elab.specs.Declaring.{HasPlainPorts};
ghost use Rattle.ae_runs.specs.Realizes.{Realizes};

use crate::declare::declare_nets;
use crate::edges::perform;
use crate::outputs::add_outputs;
use crate::wires::add_wires;
use ae_judge::{ElabFault, Names, judge, spelled_shape};
use ae_netlist::{Netlist, has_one_run};
use ae_order::{Sparse, drive_values, sorted_wires};
use ae_runs::same_runs;
use ae_vmodule::{Expr, VModule};
use std::alloc::{AllocError, Global};

/// The most cells of a netlist: 8 for each unit of the greatest weight.
const MOST_CELLS: u32 = 80_000_000;

/// The netlist of a module without a fault whose wires are in this order: first the inputs, registers and memories, then
/// the wires, then what each register and each memory takes at a clock edge.
fn construct(
    alloc: Global,
    names: &Names<'_>,
    m: &VModule<'_>,
    values: Sparse<Expr<'_>>,
    order: Vec<u32>,
) -> Result<Netlist, AllocError>
    requires names { names.now ≡ table_of m.now.words m.now.nets.items }
    requires shape { IsShapely (module_tree m.now) }
    requires regular { IsRegular (module_tree m.now) }
    requires values { map (value_tree names.now.words) values ≡ values_of (module_tree m.now) }
    requires sorted { IsWireOrder (module_tree m.now) order.items }
    requires small { weight (module_tree m.now) ≤ 10000000 }
    ensures realizes { IfOk result (λ n. (at : List ℕ → ℕ) × Realizes (module_tree m.now) n at) }
    ensures few { IfOk result (λ n. length n.cells ≤ 8 * weight (module_tree m.now)) }
    ensures plain { IfOk result (λ n. HasPlainPorts n) }
{
    let mut nl = Netlist::new(alloc, MOST_CELLS);
    let mut nets = declare_nets(alloc, &mut nl, names, m)?;
    let from = nl.len();
    add_wires(&mut nl, from, names, m, values, order, &mut nets)?;
    perform(alloc, &mut nl, from, names, m, &nets)?;
    add_outputs(&mut nl, m, &nets)?;
    Ok(nl)
}

/// The netlist of a module that has no fault but, it may be, a loop or too great a weight.
fn ordered(alloc: Global, names: &Names<'_>, m: &VModule<'_>) -> Result<Netlist, ElabFault>
    requires names { names.now ≡ table_of m.now.words m.now.nets.items }
    requires shape { IsShapely (module_tree m.now) }
    requires regular { IsRegular (module_tree m.now) }
    ensures well_formed { OnOk result (IsWellFormed (module_tree m.now)) }
    ensures fault { IfErr result (λ f. IsFault (module_tree m.now) f) }
    ensures realizes { IfOk result (λ n. (at : List ℕ → ℕ) × Realizes (module_tree m.now) n at) }
    ensures few { IfOk result (λ n. length n.cells ≤ 8 * weight (module_tree m.now)) }
    ensures plain { IfOk result (λ n. HasPlainPorts n) }
{
    let order = sorted_wires(alloc, names, m)?;
    let values = drive_values(alloc, names, m)?;
    let nl = construct(alloc, names, m, values, order)?;
    Ok(nl)
}

/// The netlist of a module: it has the module's runs, whatever the order of the items. Its inputs are the module's but
/// the clock, and its outputs the module's, both in port order and as plain ports. Ok exactly where the module is well
/// formed; else its first fault, in the order of `ElabFault`, or `Memory` where memory ran out. At most 8 cells for each
/// unit of weight. The time is linear in the module, as long as each name is found in time linear in it. The rules are
/// those of docs/VERILOG.md.
pub fn elaborate(alloc: Global, m: &VModule<'_>) -> Result<Netlist, ElabFault>
    requires spelled { (text : List ℕ) × (length text < 2 ^ 32) × Spells text (module_tree m.now) }
    ensures well_formed { OnOk result (IsWellFormed (module_tree m.now)) }
    ensures fault { IfErr result (λ f. IsFault (module_tree m.now) f) }
    ensures runs { IfOk result (λ n. HasSameRuns (module_tree m.now) n) }
    ensures few { IfOk result (λ n. length n.cells ≤ 8 * weight (module_tree m.now)) }
    ensures plain { IfOk result (λ n. HasPlainPorts n) }
{
    spelled_shape();
    let names = Names::of(alloc, &m.words, &m.nets)?;
    judge(alloc, m, &names)?;
    let nl = ordered(alloc, &names, m)?;
    has_one_run(&nl);
    same_runs();
    Ok(nl)
}
