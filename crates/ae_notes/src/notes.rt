// Which line of the program each name of its module belongs to.

use crate::form::NoteForm;
use crate::nets::write_nets;
use crate::operators::reached;
use ae_compile::{Compiled, Costed, Costs};
use ae_items::{BitRange, Bundle, Column, Item, inputs, item_of, outputs};
use ae_print::op_name;
use ae_seq::Func;
use std::alloc::{AllocError, Global};
use std::fmt::{self, Display};

// A word of an item: its name, its lane, and which word of the lane where there are several.
#[derive(Clone, Copy)]
struct ItemWord<'a> {
    name: &'a str,
    column: Column,
    is_one: bool,
}

impl Display for ItemWord<'_> {
    fn fmt<W: fmt::Write>(&self, f: &mut fmt::Formatter<W>) -> fmt::Result {
        let name = self.name;
        let Column {
            lane,
            word,
            width: _,
        } = self.column;
        if self.is_one {
            write!(f, "{name} {lane}")
        } else {
            write!(f, "{name} {lane}.{word}")
        }
    }
}

// The word of an item on a column of a bundle.
fn word_on<'a>(bundle: &Bundle<'_>, item: Item<'a>, column: Column) -> ItemWord<'a> {
    ItemWord {
        name: item.name,
        column,
        is_one: bundle.words() <= 1,
    }
}

// A line for each port of a bundle: its name, the line of the program, and the word.
fn write_ports(out: &mut String, bundle: &Bundle<'_>, item: Item<'_>) -> Result<(), AllocError> {
    for number in 0..bundle.columns() {
        if let Some(column) = bundle.column(number) {
            let (port, word) = (bundle.port_name(column), word_on(bundle, item, column));
            writeln!(out, "{port} {} {word}", item.line)?;
        }
    }
    Ok(())
}

// The signals of a bundle in a save file: a comment with the line, and each port under the name of its word.
fn write_signals(
    out: &mut String,
    bundle: &Bundle<'_>,
    item: Item<'_>,
    form: NoteForm,
) -> Result<(), AllocError> {
    write!(out, "@200\n-line {} {}, ", item.line, item.name)?;
    item.layout.write_to(out)?;
    out.push_str("\n@24\n")?;
    for number in 0..bundle.columns() {
        if let Some(column) = bundle.column(number) {
            let (port, word) = (bundle.port_name(column), word_on(bundle, item, column));
            let (scope, range) = (form.scope(), BitRange(column.width));
            writeln!(out, "+{{{word}}} {scope}.{port}{range}")?;
        }
    }
    Ok(())
}

// The ports of some bundles.
fn write_bundles(
    out: &mut String,
    costed: &Costed,
    bundles: &[Bundle<'_>],
    form: NoteForm,
) -> Result<(), AllocError> {
    for bundle in bundles {
        if let Some(item) = item_of(costed, bundle) {
            if form.is_file {
                write_signals(out, bundle, item, form)?;
            } else {
                write_ports(out, bundle, item)?;
            }
        }
    }
    Ok(())
}

// The ports, as lines of a table, or as signals of a save file behind the reset.
fn write_all_ports(
    out: &mut String,
    alloc: Global,
    costed: &Costed,
    form: NoteForm,
) -> Result<(), AllocError> {
    if form.is_file {
        writeln!(out, "@28\n{}.rst", form.scope())?;
    }
    write_bundles(out, costed, &inputs(alloc, costed)?, form)?;
    write_bundles(out, costed, &outputs(alloc, costed)?, form)
}

// A line for each line of a function.
fn write_inner(out: &mut String, line: u32, func: &Func) -> Result<(), AllocError> {
    for node in &func.nodes {
        writeln!(
            out,
            "l{line}_ {} {} {} in {}",
            node.line,
            node.name.as_str(),
            op_name(&node.op),
            func.name.as_str()
        )?;
    }
    Ok(())
}

// A line for each line of the program function: how the names of its nets begin; and for those of the functions that it calls.
fn write_prefixes(out: &mut String, alloc: Global, costed: &Costed) -> Result<(), AllocError> {
    for node in &costed.main_func().nodes {
        let (line, name) = (node.line, node.name.as_str());
        writeln!(out, "l{line}_ {line} {name} {}", op_name(&node.op))?;
        for func in &reached(alloc, costed.program().program(), &node.op)? {
            write_inner(out, line, func)?;
        }
    }
    Ok(())
}

// The same of a program that only moves words: its module has a move for each result.
fn write_moves(
    out: &mut String,
    costed: &Costed,
    bundles: &[Bundle<'_>],
) -> Result<(), AllocError> {
    let line = costed.main_func().end_line;
    for bundle in bundles {
        if let Some(item) = item_of(costed, bundle) {
            writeln!(out, "l{line}_ {line} {} end", item.name)?;
        }
    }
    Ok(())
}

// How the names of nets begin.
fn write_lines(out: &mut String, alloc: Global, costed: &Costed) -> Result<(), AllocError> {
    match costed.costs() {
        Costs::Plain(_) => write_prefixes(out, alloc, costed),
        Costs::Fused(_) => write_moves(out, costed, &outputs(alloc, costed)?),
    }
}

/// Which line and which word of the program each port of the module of `aeth build S` belongs to, and how the names of the nets
/// of each line begin, with its operator and the lines of the functions that it calls; or a save file that shows the names of the
/// ports in GTKWave, in a dump of `aeth wave S FILL`. The error comes only for want of memory.
pub fn port_notes(alloc: Global, costed: &Costed, form: NoteForm) -> Result<String, AllocError> {
    let mut out = String::new(alloc);
    write_all_ports(&mut out, alloc, costed, form)?;
    if !form.is_file {
        write_lines(&mut out, alloc, costed)?;
    }
    Ok(out)
}

/// The ports in the same way, and each net, with its line, its cell and the line of a called function for which that is made; or a
/// save file that shows these names in GTKWave, in a dump of the bench of `bench S FILL dump`. The error comes only for want of
/// memory.
pub fn net_notes(alloc: Global, compiled: &Compiled, form: NoteForm) -> Result<String, AllocError> {
    let mut out = String::new(alloc);
    write_all_ports(&mut out, alloc, compiled.costed(), form)?;
    write_nets(&mut out, compiled, form)?;
    Ok(out)
}
