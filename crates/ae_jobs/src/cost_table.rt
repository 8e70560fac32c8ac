// The table of the job `cost`.

ghost use Rattle.std.specs.Prelude.{◌≡◌, ◌<◌, ◌++◌, ◌≤◌, [], ◌∷◌, map, length, true, IfOk, OnOk, string_bytes, Some};
ghost use Rattle.std.specs.Fmt.{decimal};
ghost use Rattle.ae_seq.specs.ProgramTree.{node_tree};
ghost use Rattle.ae_seq.specs.Formed.{all_name_bytes};
ghost use Rattle.ae_compile.specs.Costing.{load_limit, whole_costs};
ghost use Rattle.ae_compile.specs.LineNotes.{AllNamed};
ghost use Rattle.ae_jobs.specs.CostTables.{ArePlain, comma_line, cost_row, cost_table, fused_table, table_head};

use ae_compile::{Costs, OutOfMemory};
use ae_delay::{Cost, Timing};
use ae_print::op_name;
use ae_seq::Node;
use itoa::Buffer;
use std::alloc::{AllocError, Global};

// A field behind others, with a comma before it.
fn write_field(out: &mut String, field: &str) -> Result<(), AllocError>
    ensures { OnOk result (string_bytes out.new ≡ string_bytes out.old ++ 44 ∷ field.now) }
{
    out.push_str(",")?;
    out.push_str(field)?;
    Ok(())
}

// The record of a line. Its fields are letters, digits and `_` alone, so that none needs quotes.
fn write_row(
    out: &mut String,
    line: u32,
    name: &str,
    op: &str,
    cost: Cost,
) -> Result<(), AllocError>
    requires name { all_name_bytes name.now ≡ true }
    requires op { all_name_bytes op.now ≡ true }
    ensures text { OnOk result (string_bytes out.new ≡ string_bytes out.old ++ comma_line (decimal line ∷ name.now ∷ op.now ∷ decimal cost.latency ∷ decimal cost.load ∷ decimal cost.muls ∷ [])) }
    ensures plain { OnOk result (ArePlain (decimal line ∷ name.now ∷ op.now ∷ decimal cost.latency ∷ decimal cost.load ∷ decimal cost.muls ∷ [])) }
{
    out.push_str(Buffer::new().format(line))?;
    write_field(out, name)?;
    write_field(out, op)?;
    write_field(out, Buffer::new().format(cost.latency))?;
    write_field(out, Buffer::new().format(cost.load))?;
    write_field(out, Buffer::new().format(cost.muls))?;
    out.push_str("\n")?;
    Ok(())
}

// The record of a node line.
fn write_cost(out: &mut String, node: &Node, cost: Cost) -> Result<(), AllocError>
    requires { all_name_bytes (node_tree node.now).name ≡ true }
    ensures { OnOk result (string_bytes out.new ≡ string_bytes out.old ++ cost_row (node_tree node.now) cost) }
{
    write_row(out, node.line, node.name.as_str(), op_name(&node.op), cost)
}

// The names of the columns.
fn head(alloc: Global) -> Result<String, AllocError>
    ensures { IfOk result (λ text. string_bytes text ≡ table_head) }
{
    String::from_str(alloc, "line,name,op,latency,load,muls\n")
}

/// The costs of the node lines of the program function, as comma-separated values under a header.
pub fn cost_table(alloc: Global, nodes: &[Node], timing: &Timing) -> Result<String, OutOfMemory>
    requires named { AllNamed (map node_tree nodes.now) }
    requires long { length timing.now.nodes ≡ length nodes.now }
    requires few { length nodes.now < 4294967296 }
    ensures { IfOk result (λ text. string_bytes text ≡ cost_table (map node_tree nodes.now) timing.now.nodes) }
{
    let mut out = head(alloc)?;
    let mut number = 0u32;
    for node in nodes {
        let cost = match timing.cost(number) {
            Some(cost) => cost,
            None => unreachable!(),
        };
        write_cost(&mut out, node, cost)?;
        number += 1;
    }
    Ok(out)
}

/// The costs of a program that only moves words, all of them at its end line, under the same header.
pub fn fused_table(alloc: Global, end_line: u32, costs: &Costs) -> Result<String, OutOfMemory>
    requires { (whole_costs costs.now).load ≤ load_limit }
    ensures { IfOk result (λ text. string_bytes text ≡ fused_table end_line (whole_costs costs.now)) }
{
    let mut out = head(alloc)?;
    let cost = Cost {
        latency: costs.latency(),
        load: costs.load() as u32,
        muls: costs.muls(),
    };
    write_row(&mut out, end_line, "end", "fused", cost)?;
    Ok(out)
}
