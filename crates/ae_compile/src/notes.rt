// Where the cells of the lines of a program begin.

ghost use Rattle.std.specs.Prelude.{◌≡◌, ◌+◌, ◌<◌, ◌≤◌, ℕ, length, map, IfOk, Some, slice_get};
ghost use Rattle.ae_seq.specs.ProgramTree.{func_tree, node_tree};
ghost use Rattle.ae_sttype.specs.StTree.{st_tree};
ghost use Rattle.ae_rewrite.specs.StProgramTree.{st_func_tree};
ghost use Rattle.ae_rewrite.specs.Sound.{item_layouts};
ghost use Rattle.ae_verilog.specs.Notes.{note_tree};
ghost use Rattle.ae_print.specs.Printed.{item_names, name_at};
ghost use Rattle.ae_compile.specs.LineNotes.{item_note, node_note, node_notes, result_notes};
ghost use Rattle.ae_compile.specs.Mains.{IsInstanceOf};

use ae_delay::layout;
use ae_rewrite::StFunc;
use ae_seq::{Func, Node};
use ae_sttype::StType;
use ae_verilog::Note;
use std::alloc::{AllocError, Global};

// What is told of a node.
fn note(alloc: Global, cell: u32, node: &Node, layout: &StType) -> Result<Note, AllocError>
    ensures { IfOk result (λ n. note_tree n ≡ node_note cell (node_tree node.now) (st_tree layout.now)) }
{
    Ok(Note {
        cell,
        line: node.line,
        name: String::from_str(alloc, node.name.as_str())?,
        layout: layout.copy(alloc)?,
    })
}

// The same of nodes behind so many parameters, by the numbers of the cells before them.
fn notes_behind(
    alloc: Global,
    params: u32,
    nodes: &[Node],
    instance: &StFunc,
    marks: &[u32],
) -> Result<Vec<Note>, AllocError>
    requires few { params + length nodes.now ≤ length (item_layouts (st_func_tree instance.now)) }
    requires numbers { length (item_layouts (st_func_tree instance.now)) < 4294967296 }
    requires marks { length marks.now ≡ length nodes.now }
    ensures { IfOk result (λ v. map note_tree v.items ≡ node_notes (item_layouts (st_func_tree instance.now)) params (map node_tree nodes.now) marks.now) }
{
    let mut notes = Vec::new(alloc);
    let mut item = params;
    for (j, node) in nodes.iter().enumerate() {
        let told = note(alloc, marks[j], node, layout(instance, item as usize))?;
        notes.push(told)?;
        item += 1;
    }
    Ok(notes)
}

// The name of an item of a function.
fn item_name(func: &Func, item: usize) -> &str
    requires { item < length (func_tree func.now).params + length (func_tree func.now).nodes }
    ensures { result.now ≡ name_at (item_names (func_tree func.now)) item }
{
    let params = func.params.as_slice();
    let nodes = func.nodes.as_slice();
    if item < params.len() {
        let param = &params[item];
        return param.name.as_str();
    }
    let node = &nodes[item - params.len()];
    node.name.as_str()
}

// What is told of a result at the end line.
fn end_note(
    alloc: Global,
    cell: u32,
    func: &Func,
    item: usize,
    layout: &StType,
) -> Result<Note, AllocError>
    requires { item < length (func_tree func.now).params + length (func_tree func.now).nodes }
    ensures { IfOk result (λ n. note_tree n ≡ item_note (func_tree func.now) item cell (st_tree layout.now)) }
{
    Ok(Note {
        cell,
        line: func.end_line,
        name: String::from_str(alloc, item_name(func, item))?,
        layout: layout.copy(alloc)?,
    })
}

// The same of these items of it.
fn notes_of_items(
    alloc: Global,
    func: &Func,
    items: &[u32],
    instance: &StFunc,
    marks: &[u32],
) -> Result<Vec<Note>, AllocError>
    requires many { length (item_layouts (st_func_tree instance.now)) ≡ length (func_tree func.now).params + length (func_tree func.now).nodes }
    requires there { (i r : ℕ) → slice_get items.now i ≡ Some r → r < length (item_layouts (st_func_tree instance.now)) }
    requires marks { length marks.now ≡ length items.now }
    ensures { IfOk result (λ v. map note_tree v.items ≡ result_notes (item_layouts (st_func_tree instance.now)) (func_tree func.now) items.now marks.now) }
{
    let mut notes = Vec::new(alloc);
    for (k, item) in items.iter().enumerate() {
        let item = *item as usize;
        let told = end_note(alloc, marks[k], func, item, layout(instance, item))?;
        notes.push(told)?;
    }
    Ok(notes)
}

/// A note for each result of a function, by the numbers of the cells before those of the results.
pub fn end_notes(
    alloc: Global,
    func: &Func,
    instance: &StFunc,
    marks: &[u32],
) -> Result<Vec<Note>, AllocError>
    requires instance { IsInstanceOf (func_tree func.now) (st_func_tree instance.now) }
    requires marks { length marks.now ≡ length (func_tree func.now).results }
    ensures { IfOk result (λ v. map note_tree v.items ≡ result_notes (item_layouts (st_func_tree instance.now)) (func_tree func.now) (func_tree func.now).results marks.now) }
{
    notes_of_items(alloc, func, &func.results, instance, marks)
}

/// A note for each node of a function, by the numbers of the cells before its nodes.
pub fn line_notes(
    alloc: Global,
    func: &Func,
    instance: &StFunc,
    marks: &[u32],
) -> Result<Vec<Note>, AllocError>
    requires instance { IsInstanceOf (func_tree func.now) (st_func_tree instance.now) }
    requires marks { length marks.now ≡ length (func_tree func.now).nodes }
    ensures { IfOk result (λ v. map note_tree v.items ≡ node_notes (item_layouts (st_func_tree instance.now)) (length (func_tree func.now).params) (func_tree func.now).nodes marks.now) }
{
    let params = func.params.len() as u32;
    notes_behind(alloc, params, &func.nodes, instance, marks)
}
