// The order of the wires of a module.

ghost use Rattle.std.specs.Prelude.{ℕ, List, ◌≡◌, ◌<◌, ◌^◌, ◌++◌, ◌+◌, ◌∷◌, [], IfErr, IfOk, IfSome, OnOk, length, map};
ghost use Rattle.ae_vmodule.specs.Roots.{numbered};
ghost use Rattle.ae_vmodule.specs.View.{drive_tree, expr_tree, item_tree, module_tree, word_at};
ghost use Rattle.ae_judge.specs.Names.{Among, drives_of};
ghost use Rattle.ae_judge.specs.Symbols.{words_read};
ghost use Rattle.ae_judge.specs.Faults.{HasLoop, IsFault, IsWellFormed, Never};
ghost use Rattle.ae_judge.specs.Shape.{IsShapely};
ghost use Rattle.ae_judge.specs.Regular.{IsRegular};
ghost use Rattle.ae_runs.specs.Named.{IsNamed, place_of};
ghost use Rattle.ae_order.specs.Sound.{IsSound};
ghost use Rattle.ae_order.specs.Drives.{AreDriven, AreSoundValues, IsFlat, IsLoopFault, IsWireOrder, noted, places_in, value_tree, values_of};
ghost use Rattle.ae_judge.specs.Table.{table_of};

use crate::places::place_of;
use crate::sort::{OrderFault, order};
use crate::sparse::Sparse;
use ae_judge::{ElabFault, Names, is_large};
use ae_vmodule::{Drive, Expr, ItemParts, Symbol, VItem, VModule};
use std::alloc::{AllocError, Global};

/// Notes the value of each equation at the place of its name.
fn note_drives<'m>(
    names: &Names<'_>,
    drives: &'m [Drive],
    values: &mut Sparse<Expr<'m>>,
) -> Result<(), AllocError>
    requires driven { AreDriven names.now.nets (map (drive_tree names.now.words) drives.now) }
    requires long { length values.old ≡ length names.now.nets }
    ensures long { OnOk result (length values.new ≡ length names.now.nets) }
    ensures noted { OnOk result (map (value_tree names.now.words) values.new ≡ noted names.now.nets (map (value_tree names.now.words) values.old) (map (drive_tree names.now.words) drives.now)) }
{
    'drive: for drive in drives {
        let place = place_of(names, drive.name);
        values.set(place, drive.value.expr())?;
    }
    Ok(())
}

/// Adds the place of a name.
fn add_name(names: &Names<'_>, name: u32, targets: &mut Vec<u32>) -> Result<(), AllocError>
    requires few { length names.now.nets < 2 ^ 32 }
    requires named { IsNamed names.now.nets (word_at names.now.words name) }
    ensures { OnOk result (targets.new.items ≡ targets.old.items ++ place_of names.now.nets (word_at names.now.words name) ∷ []) }
{
    targets.push(place_of(names, name) as u32)?;
    Ok(())
}

/// Adds the places of the names that symbols read.
fn add_names(
    names: &Names<'_>,
    symbols: &[Symbol],
    targets: &mut Vec<u32>,
) -> Result<(), AllocError>
    requires few { length names.now.nets < 2 ^ 32 }
    requires named { (n : List ℕ) → Among n (words_read names.now.words symbols.now) → IsNamed names.now.nets n }
    ensures { OnOk result (targets.new.items ≡ targets.old.items ++ map (place_of names.now.nets) (words_read names.now.words symbols.now)) }
{
    'symbol: for symbol in symbols {
        if let Some(name) = symbol.read() {
            add_name(names, name, targets)?;
        }
    }
    Ok(())
}

/// Adds the places that the value of an equation reads.
fn add_value(
    names: &Names<'_>,
    value: Option<Expr<'_>>,
    targets: &mut Vec<u32>,
) -> Result<(), AllocError>
    requires few { length names.now.nets < 2 ^ 32 }
    requires sound { IfSome value (λ e. IsSound names.now.nets (expr_tree names.now.words (numbered e))) }
    ensures { OnOk result (targets.new.items ≡ targets.old.items ++ places_in names.now.nets (value_tree names.now.words value.entry)) }
{
    match value {
        Some(e) => add_names(names, e.symbols(), targets),
        None => Ok(()),
    }
}

/// Which nets the equation of each net reads: those of net `p` are the targets from `starts[p]` up to `starts[p + 1]`.
#[derive(Drop)]
struct Graph {
    starts: Vec<usize>,
    targets: Vec<u32>,
}

fn graph_of(
    alloc: Global,
    names: &Names<'_>,
    values: &Sparse<Expr<'_>>,
) -> Result<Graph, AllocError>
    requires few { length names.now.nets < 2 ^ 32 }
    requires sound { AreSoundValues names.now.nets (map (value_tree names.now.words) values.now) }
    ensures { IfOk result (λ g. IsFlat names.now.nets (map (value_tree names.now.words) values.now) (length values.now + 1) g.starts.items g.targets.items) }
{
    let mut starts = Vec::new(alloc);
    let mut targets = Vec::new(alloc);
    'value: for place in 0..values.len() {
        starts.push(targets.len())?;
        add_value(names, values.at(place), &mut targets)?;
    }
    starts.push(targets.len())?;
    Ok(Graph { starts, targets })
}

/// The values of the equations of one item.
fn note_item<'m>(
    names: &Names<'_>,
    item: &'m VItem,
    values: &mut Sparse<Expr<'m>>,
) -> Result<(), AllocError>
    requires driven { AreDriven names.now.nets (drives_of (item_tree names.now.words item.now)) }
    requires long { length values.old ≡ length names.now.nets }
    ensures long { OnOk result (length values.new ≡ length names.now.nets) }
    ensures noted { OnOk result (map (value_tree names.now.words) values.new ≡ noted names.now.nets (map (value_tree names.now.words) values.old) (drives_of (item_tree names.now.words item.now))) }
{
    match item.parts() {
        ItemParts::Nets(drives) => note_drives(names, drives, values),
        ItemParts::Assign(drives) => note_drives(names, drives, values),
        ItemParts::Always { .. } => Ok(()),
    }
}

/// The value of the equation of each net, by places.
pub fn drive_values<'m>(
    alloc: Global,
    names: &Names<'_>,
    m: &'m VModule<'_>,
) -> Result<Sparse<Expr<'m>>, AllocError>
    requires names { names.now ≡ table_of m.now.words m.now.nets.items }
    requires shape { IsShapely (module_tree m.now) }
    requires regular { IsRegular (module_tree m.now) }
    ensures { IfOk result (λ values. map (value_tree names.now.words) values ≡ values_of (module_tree m.now)) }
{
    let mut values = Sparse::none(alloc, m.nets.len());
    'item: for item in &m.items {
        note_item(names, item, &mut values)?;
    }
    Ok(values)
}

/// The graph of what the wires read. The values that it is made of are not in memory beside what comes after.
fn wire_graph(alloc: Global, names: &Names<'_>, m: &VModule<'_>) -> Result<Graph, AllocError>
    requires names { names.now ≡ table_of m.now.words m.now.nets.items }
    requires shape { IsShapely (module_tree m.now) }
    requires regular { IsRegular (module_tree m.now) }
    ensures { IfOk result (λ g. IsFlat (module_tree m.now).nets (values_of (module_tree m.now)) (length (values_of (module_tree m.now)) + 1) g.starts.items g.targets.items) }
{
    let values = drive_values(alloc, names, m)?;
    graph_of(alloc, names, &values)
}

/// The nets in an order in which each wire stands behind all that its equation reads, or a net that reaches itself. In
/// time linear in the text.
fn wire_order(alloc: Global, names: &Names<'_>, m: &VModule<'_>) -> Result<Vec<u32>, OrderFault>
    requires names { names.now ≡ table_of m.now.words m.now.nets.items }
    requires shape { IsShapely (module_tree m.now) }
    requires regular { IsRegular (module_tree m.now) }
    ensures order { IfOk result (λ order. IsWireOrder (module_tree m.now) order.items) }
    ensures no_loop { OnOk result (Never (HasLoop (module_tree m.now))) }
    ensures fault { IfErr result (IsLoopFault (module_tree m.now)) }
{
    match wire_graph(alloc, names, m) {
        Ok(graph) => order(alloc, &graph.starts, &graph.targets),
        Err(_) => Err(OrderFault::Memory),
    }
}

/// An order of the wires of a module that is well formed, or the module's fault: a loop, or too great a weight.
pub fn sorted_wires(
    alloc: Global,
    names: &Names<'_>,
    m: &VModule<'_>,
) -> Result<Vec<u32>, ElabFault>
    requires names { names.now ≡ table_of m.now.words m.now.nets.items }
    requires shape { IsShapely (module_tree m.now) }
    requires regular { IsRegular (module_tree m.now) }
    ensures sorted { IfOk result (λ order. IsWireOrder (module_tree m.now) order.items) }
    ensures well_formed { OnOk result (IsWellFormed (module_tree m.now)) }
    ensures fault { IfErr result (λ f. IsFault (module_tree m.now) f) }
{
    let order = match wire_order(alloc, names, m) {
        Ok(order) => order,
        Err(OrderFault::Loop(net)) => return Err(ElabFault::Loop { net }),
        Err(OrderFault::Memory) => return Err(ElabFault::Memory),
    };
    if is_large(m) {
        return Err(ElabFault::Large);
    }
    Ok(order)
}
