// The text of a program.

ghost use Rattle.std.specs.Prelude.{◌≡◌, ◌+◌, ◌≤◌, ◌∷◌, [], ◌++◌, IfOk, IsTrue, OnOk, length, map, true};
ghost use Rattle.std.specs.String.{string_bytes};
ghost use Rattle.ae_seq.specs.Formed.{all_below, formed, formed_funcs, formed_nodes, func_names, is_line, node_names, param_names};
ghost use Rattle.ae_seq.specs.ProgramTree.{func_tree, node_tree, op_tree, param_tree, program_tree};
ghost use Rattle.ae_seq.specs.Trees.{func_trees, node_trees, param_trees};
ghost use Rattle.ae_fields.specs.Grammar.{IsProgramText};
ghost use Rattle.ae_print.specs.Printed.{end_fields, name_at, op_fields, func_statements, funcs_fit, funcs_statements, head_fields, node_fields, nodes_fit, numbered, param_field, program_text, spaced, text_of, words_fit};

use crate::op_print::{put, put_items, put_op};
use ae_seq::{Func, Node, Param, Program};
use std::alloc::{AllocError, Global};

// An operator and its arguments.
fn put_operation(
    out: &mut String,
    version: u32,
    bound: usize,
    funcs: &[Func],
    params: &[Param],
    nodes: &[Node],
    node: &Node,
) -> Result<(), AllocError>
    requires line { IsTrue (is_line version bound (op_tree node.now.op)) }
    requires within { bound ≤ length funcs.now }
    requires below { IsTrue (all_below (length params.now + length nodes.now) node.now.args.items) }
    ensures written { OnOk result (string_bytes out.new ≡ string_bytes out.old ++ spaced (op_fields (func_names (func_trees funcs.now)) (op_tree node.now.op) ++ map (name_at (param_names (param_trees params.now) ++ node_names (node_trees nodes.now))) node.now.args.items)) }
    ensures fit { OnOk result (words_fit (op_tree node.now.op) ≡ true) }
{
    put_op(out, version, bound, funcs, &node.op)?;
    put_items(out, params, nodes, &node.args)
}

// A node line.
fn put_node(
    out: &mut String,
    version: u32,
    bound: usize,
    funcs: &[Func],
    params: &[Param],
    nodes: &[Node],
    node: &Node,
) -> Result<(), AllocError>
    requires line { IsTrue (is_line version bound (op_tree node.now.op)) }
    requires within { bound ≤ length funcs.now }
    requires below { IsTrue (all_below (length params.now + length nodes.now) node.now.args.items) }
    ensures written { OnOk result (string_bytes out.new ≡ string_bytes out.old ++ text_of (node_fields (func_names (func_trees funcs.now)) (param_names (param_trees params.now) ++ node_names (node_trees nodes.now)) (node_tree node.now) ∷ [])) }
    ensures fit { OnOk result (words_fit (op_tree node.now.op) ≡ true) }
{
    out.push_str(node.name.as_str())?;
    put(out, "=")?;
    put_operation(out, version, bound, funcs, params, nodes, node)?;
    out.push_str("\n")
}

// The node lines of a function.
fn put_nodes(
    out: &mut String,
    version: u32,
    bound: usize,
    funcs: &[Func],
    params: &[Param],
    nodes: &[Node],
) -> Result<(), AllocError>
    requires nodes { IsTrue (formed_nodes version bound (length params.now) (node_trees nodes.now)) }
    requires within { bound ≤ length funcs.now }
    ensures written { OnOk result (string_bytes out.new ≡ string_bytes out.old ++ text_of (map (node_fields (func_names (func_trees funcs.now)) (param_names (param_trees params.now) ++ node_names (node_trees nodes.now))) (node_trees nodes.now))) }
    ensures fit { OnOk result (nodes_fit (node_trees nodes.now) ≡ true) }
{
    for node in nodes {
        put_node(out, version, bound, funcs, params, nodes, node)?;
    }
    Ok(())
}

fn put_param(out: &mut String, param: &Param) -> Result<(), AllocError>
    ensures { OnOk result (string_bytes out.new ≡ string_bytes out.old ++ spaced (param_field (param_tree param.now) ∷ [])) }
{
    put(out, param.name.as_str())?;
    out.push_str(":")?;
    param.ty.write_to(out)
}

fn put_params(out: &mut String, params: &[Param]) -> Result<(), AllocError>
    ensures { OnOk result (string_bytes out.new ≡ string_bytes out.old ++ spaced (map param_field (param_trees params.now))) }
{
    for param in params {
        put_param(out, param)?;
    }
    Ok(())
}

// A function line.
fn put_head(out: &mut String, func: &Func) -> Result<(), AllocError>
    ensures { OnOk result (string_bytes out.new ≡ string_bytes out.old ++ text_of (head_fields (func_tree func.now) ∷ [])) }
{
    out.push_str("fn")?;
    put(out, func.name.as_str())?;
    put_params(out, &func.params)?;
    out.push_str("\n")
}

// An end line.
fn put_end(
    out: &mut String,
    params: &[Param],
    nodes: &[Node],
    results: &[u32],
) -> Result<(), AllocError>
    requires { IsTrue (all_below (length params.now + length nodes.now) results.now) }
    ensures { OnOk result (string_bytes out.new ≡ string_bytes out.old ++ text_of (end_fields (param_names (param_trees params.now) ++ node_names (node_trees nodes.now)) results.now ∷ [])) }
{
    out.push_str("end")?;
    put_items(out, params, nodes, results)?;
    out.push_str("\n")
}

// The lines of a function, with so many functions above it.
fn put_func(
    out: &mut String,
    version: u32,
    bound: usize,
    funcs: &[Func],
    func: &Func,
) -> Result<(), AllocError>
    requires nodes { IsTrue (formed_nodes version bound (length func.now.params.items) (node_trees func.now.nodes.items)) }
    requires below { IsTrue (all_below (length func.now.params.items + length func.now.nodes.items) func.now.results.items) }
    requires within { bound ≤ length funcs.now }
    ensures written { OnOk result (string_bytes out.new ≡ string_bytes out.old ++ text_of (func_statements (func_names (func_trees funcs.now)) (func_tree func.now))) }
    ensures fit { OnOk result (nodes_fit (node_trees func.now.nodes.items) ≡ true) }
{
    put_head(out, func)?;
    put_nodes(out, version, bound, funcs, &func.params, &func.nodes)?;
    put_end(out, &func.params, &func.nodes, &func.results)
}

// The lines of all functions.
fn put_funcs(out: &mut String, version: u32, funcs: &[Func]) -> Result<(), AllocError>
    requires { IsTrue (formed_funcs version 0 (func_trees funcs.now)) }
    ensures written { OnOk result (string_bytes out.new ≡ string_bytes out.old ++ text_of (funcs_statements (func_names (func_trees funcs.now)) (func_trees funcs.now))) }
    ensures fit { OnOk result (funcs_fit (func_trees funcs.now) ≡ true) }
{
    for (i, func) in funcs.iter().enumerate() {
        put_func(out, version, i, funcs, func)?;
    }
    Ok(())
}

fn put_program(out: &mut String, program: &Program) -> Result<(), AllocError>
    requires { IsTrue (formed (program_tree program.now)) }
    ensures written { OnOk result (string_bytes out.new ≡ string_bytes out.old ++ program_text (program_tree program.now)) }
    ensures fit { OnOk result (funcs_fit (func_trees program.now.funcs.items) ≡ true) }
{
    if program.version == 2 {
        out.push_str("aeth 2\n")?;
    }
    put_funcs(out, program.version, &program.funcs)
}

/// The text of a program: one statement a line, one space between fields, and `aeth 2` first for version 2.
///
/// It is the text of an equal program, but for the numbers of the lines. An error comes only for want of memory.
pub fn print(alloc: Global, program: &Program) -> Result<String, AllocError>
    requires { IsTrue (formed (program_tree program.now)) }
    ensures text { IfOk result (λ s. string_bytes s ≡ program_text (program_tree program.now)) }
    ensures read { IfOk result (λ s. IsProgramText (string_bytes s) (numbered (program_tree program.now))) }
{
    let mut out = String::new(alloc);
    put_program(&mut out, program)?;
    Ok(out)
}
