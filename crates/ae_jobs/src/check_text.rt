// The text of the job `check`.

ghost use Rattle.std.specs.Prelude.{◌≡◌, ◌++◌, ◌+◌, ◌<◌, length, map, flat_map, IfOk, OnOk, string_bytes, Some};
ghost use Rattle.ae_seq.specs.ProgramTree.{param_tree, node_tree, func_tree, program_tree};
ghost use Rattle.ae_seq.specs.Typing.{type_at};
ghost use Rattle.ae_jobs.specs.CheckTexts.{item_text, param_text, function_line, node_text, node_lines, result_text, end_line_text, func_text, check_text};

use ae_seq::{Func, Node, Param, Typed};
use itoa::Buffer;
use std::alloc::{AllocError, Global};

// The type of an item, as a program writes it.
fn write_type(out: &mut String, p: &Typed, func: u32, item: u32) -> Result<(), AllocError>
    ensures { OnOk result (string_bytes out.new ≡ string_bytes out.old ++ item_text (type_at (program_tree p.now) func item)) }
{
    match p.ty(func, item) {
        Some(ty) => ty.write_to(out),
        None => Ok(()),
    }
}

fn write_params(out: &mut String, params: &[Param]) -> Result<(), AllocError>
    ensures { OnOk result (string_bytes out.new ≡ string_bytes out.old ++ flat_map param_text (map param_tree params.now)) }
{
    for param in params {
        out.push_str(" ")?;
        out.push_str(param.name.as_str())?;
        out.push_str(":")?;
        param.ty.write_to(out)?;
    }
    Ok(())
}

// The line that opens a function.
fn write_function_line(out: &mut String, func: &Func) -> Result<(), AllocError>
    ensures { OnOk result (string_bytes out.new ≡ string_bytes out.old ++ function_line (func_tree func.now)) }
{
    out.push_str(Buffer::new().format(func.line))?;
    out.push_str(" fn ")?;
    out.push_str(func.name.as_str())?;
    write_params(out, func.params.as_slice())?;
    out.push_str("\n")?;
    Ok(())
}

fn write_node_line(
    out: &mut String,
    p: &Typed,
    func: u32,
    item: u32,
    node: &Node,
) -> Result<(), AllocError>
    ensures { OnOk result (string_bytes out.new ≡ string_bytes out.old ++ node_text (type_at (program_tree p.now) func item) (node_tree node.now)) }
{
    out.push_str(Buffer::new().format(node.line))?;
    out.push_str(" ")?;
    out.push_str(node.name.as_str())?;
    out.push_str(" ")?;
    write_type(out, p, func, item)?;
    out.push_str("\n")?;
    Ok(())
}

// The lines of a function's nodes, behind so many parameters.
fn write_node_lines(
    out: &mut String,
    p: &Typed,
    func: u32,
    params: u32,
    nodes: &[Node],
) -> Result<(), AllocError>
    requires { params + length nodes.now < 4294967296 }
    ensures { OnOk result (string_bytes out.new ≡ string_bytes out.old ++ node_lines (program_tree p.now) func params (map node_tree nodes.now)) }
{
    let mut item = params;
    for node in nodes {
        write_node_line(out, p, func, item, node)?;
        item += 1;
    }
    Ok(())
}

// The types of a function's results.
fn write_results(out: &mut String, p: &Typed, func: u32, results: &[u32]) -> Result<(), AllocError>
    ensures { OnOk result (string_bytes out.new ≡ string_bytes out.old ++ flat_map (λ i. result_text (type_at (program_tree p.now) func i)) results.now) }
{
    for item in results {
        out.push_str(" ")?;
        write_type(out, p, func, *item)?;
    }
    Ok(())
}

fn write_end_line(out: &mut String, p: &Typed, number: u32, func: &Func) -> Result<(), AllocError>
    ensures { OnOk result (string_bytes out.new ≡ string_bytes out.old ++ end_line_text (program_tree p.now) number (func_tree func.now)) }
{
    out.push_str(Buffer::new().format(func.end_line))?;
    out.push_str(" end")?;
    write_results(out, p, number, func.results.as_slice())?;
    out.push_str("\n")?;
    Ok(())
}

// The lines of a function.
fn write_func(out: &mut String, p: &Typed, number: u32, func: &Func) -> Result<(), AllocError>
    requires { length func.now.params.items + length func.now.nodes.items < 4294967296 }
    ensures { OnOk result (string_bytes out.new ≡ string_bytes out.old ++ func_text (program_tree p.now) number (func_tree func.now)) }
{
    write_function_line(out, func)?;
    let params = func.params.len() as u32;
    write_node_lines(out, p, number, params, func.nodes.as_slice())?;
    write_end_line(out, p, number, func)
}

/// One line for each function line, node line and end line, in order, with the types that it gives.
pub fn check_text(alloc: Global, p: &Typed) -> Result<String, AllocError>
    ensures { IfOk result (λ text. string_bytes text ≡ check_text (program_tree p.now)) }
{
    let mut out = String::new(alloc);
    let funcs = p.program().funcs.as_slice();
    let mut number = 0;
    for func in funcs {
        write_func(&mut out, p, number, func)?;
        number += 1;
    }
    Ok(out)
}
