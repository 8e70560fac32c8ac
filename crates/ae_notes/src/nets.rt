// Which line of the program each net of its module belongs to.

use crate::form::NoteForm;
use crate::operators::word_of;
use ae_compile::{Compiled, Costs};
use ae_items::BitRange;
use ae_lower::Section;
use ae_netlist::{Cell, PackedCell, SizedCell};
use ae_print::op_name;
use ae_seq::{Func, Node};
use ae_verilog::Note;
use std::alloc::AllocError;

// What a cell is.
fn cell_word(cell: Cell) -> &'static str {
    match cell {
        Cell::Input(_) => "input",
        Cell::Const(_) => "const",
        Cell::Op(op, _) => word_of(op),
        Cell::Reg { next: _ } => "register",
        Cell::Mem {
            depth: _,
            at: _,
            next: _,
            enable: _,
        } => "memory",
        Cell::Peek { mem: _, at: _ } => "read",
    }
}

// The section in which a cell stands.
fn section_of(sections: &[Section], cell: usize) -> Option<Section> {
    let begun = sections.partition_point(|section| section.cell as usize <= cell);
    sections.get(begun.checked_sub(1)?).copied()
}

// The line of a called function for which a cell is made, and that function.
fn inner_line(compiled: &Compiled, cell: usize) -> Option<(&Func, &Node)> {
    let section = section_of(compiled.sections(), cell)?;
    let costed = compiled.costed();
    let schedule = costed.schedule();
    if section.instance.saturating_add(1) >= schedule.count() {
        return None;
    }
    let instance = schedule.instance(section.instance)?;
    let func = costed
        .program()
        .program()
        .funcs
        .get(instance.func as usize)?;
    let node = func.nodes.get(section.node as usize)?;
    Some((func, node))
}

// That line, if there is one.
fn write_inner(out: &mut String, compiled: &Compiled, cell: usize) -> Result<(), AllocError> {
    match inner_line(compiled, cell) {
        Some((func, node)) => {
            let (line, name) = (node.line, node.name.as_str());
            let operator = op_name(&node.op);
            write!(out, ", {line} {name} {operator} in {}", func.name.as_str())
        }
        None => Ok(()),
    }
}

// What is told of all nets of a line.
#[derive(Clone, Copy)]
struct Line<'a> {
    compiled: &'a Compiled,
    note: &'a Note,
    operator: &'static str,
}

// A net, its line and its cell.
fn write_net(out: &mut String, line: &Line<'_>, net: usize, cell: Cell) -> Result<(), AllocError> {
    let (number, name, operator) = (line.note.line, line.note.name.as_str(), line.operator);
    let word = cell_word(cell);
    write!(out, "l{number}_n{net} {number} {name} {operator}: {word}")?;
    write_inner(out, line.compiled, net)
}

// The same as a signal of a save file; a dump has no memories.
fn write_signal(
    out: &mut String,
    line: &Line<'_>,
    net: usize,
    sized: SizedCell,
    form: NoteForm,
) -> Result<(), AllocError> {
    if let Cell::Mem {
        depth: _,
        at: _,
        next: _,
        enable: _,
    } = sized.cell
    {
        return Ok(());
    }
    let (scope, number, range) = (form.scope(), line.note.line, BitRange(sized.width));
    out.push_str("+{")?;
    write_net(out, line, net, sized.cell)?;
    writeln!(out, "}} {scope}.l{number}_n{net}{range}")
}

// The nets of a line.
fn write_line_nets(
    out: &mut String,
    line: &Line<'_>,
    cells: &[PackedCell],
    from: usize,
    form: NoteForm,
) -> Result<(), AllocError> {
    let mut net = from;
    for packed in cells {
        if form.is_file {
            write_signal(out, line, net, packed.sized(), form)?;
        } else {
            write_net(out, line, net, packed.cell())?;
            out.push_str("\n")?;
        }
        net = net.saturating_add(1);
    }
    Ok(())
}

// What is told of the nets of the line of a note: of a program that only moves words they are those of a result.
fn line_of<'a>(compiled: &'a Compiled, note: &'a Note, number: usize) -> Line<'a> {
    let costed = compiled.costed();
    let node = match costed.costs() {
        Costs::Plain(_) => costed.main_func().nodes.get(number),
        Costs::Fused(_) => None,
    };
    Line {
        compiled,
        note,
        operator: match node {
            Some(node) => op_name(&node.op),
            None => "end",
        },
    }
}

/// A line for each net of the module but those of ports: its name, the line of the program with its operator, the cell, and
/// where the line calls a function, the line of that or of one that it calls for which the cell is made, with its operator.
pub fn write_nets(out: &mut String, compiled: &Compiled, form: NoteForm) -> Result<(), AllocError> {
    let cells = compiled.netlist().cells();
    let notes = compiled.notes();
    for number in 0..notes.len() {
        if let Some(note) = notes.get(number) {
            let from = note.cell as usize;
            let to = match notes.get(number.saturating_add(1)) {
                Some(next) => next.cell as usize,
                None => cells.len(),
            };
            if let Some(own) = cells.get(from..to) {
                let line = line_of(compiled, note, number);
                write_line_nets(out, &line, own, from, form)?;
            }
        }
    }
    Ok(())
}
