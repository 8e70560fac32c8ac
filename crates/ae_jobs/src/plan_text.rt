// The text of the job `plan`.

ghost use Rattle.std.specs.Prelude.{◌≡◌, ◌++◌, ◌+◌, ◌<◌, ◌≤◌, ℕ, length, map, flat_map, IfOk, OnOk, string_bytes, slice_get, unwrap_or, Some};
ghost use Rattle.ae_seq.specs.ProgramTree.{param_tree, node_tree, func_tree};
ghost use Rattle.ae_sttype.specs.StTree.{st_tree};
ghost use Rattle.ae_rewrite.specs.StProgramTree.{st_func_tree};
ghost use Rattle.ae_rewrite.specs.Sound.{item_layouts};
ghost use Rattle.ae_compile.specs.Costing.{whole_costs};
ghost use Rattle.ae_compile.specs.Mains.{IsInstanceOf};
ghost use Rattle.ae_jobs.specs.PlanTexts.{cost_lines, item_line, item_lines, node_item_lines, counted_line, param_item_lines, planned_text, result_line};

use ae_compile::Costs;
use ae_delay::layout;
use ae_rewrite::StFunc;
use ae_seq::{Func, Node, Param};
use ae_sttype::{Slowdown, StType};
use itoa::Buffer;
use std::alloc::{AllocError, Global};

fn write_number(out: &mut String, words: &str, number: u64) -> Result<(), AllocError>
    ensures { OnOk result (string_bytes out.new ≡ string_bytes out.old ++ counted_line words.now number) }
{
    out.push_str(words)?;
    out.push_str(" ")?;
    out.push_str(Buffer::new().format(number))?;
    out.push_str("\n")?;
    Ok(())
}

// The line of an item.
fn write_item(
    out: &mut String,
    line: u32,
    name: &str,
    arrival: u32,
    layout: &StType,
) -> Result<(), AllocError>
    ensures { OnOk result (string_bytes out.new ≡ string_bytes out.old ++ item_line line name.now arrival (st_tree layout.now)) }
{
    out.push_str(Buffer::new().format(line))?;
    out.push_str(" ")?;
    out.push_str(name)?;
    out.push_str(" ")?;
    out.push_str(Buffer::new().format(arrival))?;
    out.push_str(" ")?;
    layout.write_to(out)?;
    out.push_str("\n")?;
    Ok(())
}

// When an item arrives.
fn arrival(arrivals: &[u32], item: usize) -> u32
    requires { item < length arrivals.now }
    ensures { result ≡ unwrap_or (slice_get arrivals.now item) 0 }
{
    arrivals[item]
}

// The lines of the parameters.
fn write_params(
    out: &mut String,
    line: u32,
    params: &[Param],
    instance: &StFunc,
    arrivals: &[u32],
) -> Result<(), AllocError>
    requires items { length (item_layouts (st_func_tree instance.now)) ≡ length arrivals.now }
    requires few { length params.now ≤ length arrivals.now }
    requires numbers { length arrivals.now < 4294967296 }
    ensures { OnOk result (string_bytes out.new ≡ string_bytes out.old ++ param_item_lines line arrivals.now (item_layouts (st_func_tree instance.now)) 0 (map param_tree params.now)) }
{
    let mut item = 0u32;
    for param in params {
        write_item(
            out,
            line,
            param.name.as_str(),
            arrival(arrivals, item as usize),
            layout(instance, item as usize),
        )?;
        item += 1;
    }
    Ok(())
}

// The lines of the nodes, behind so many parameters.
fn write_nodes(
    out: &mut String,
    params: u32,
    nodes: &[Node],
    instance: &StFunc,
    arrivals: &[u32],
) -> Result<(), AllocError>
    requires items { length (item_layouts (st_func_tree instance.now)) ≡ length arrivals.now }
    requires few { params + length nodes.now ≤ length arrivals.now }
    requires numbers { length arrivals.now < 4294967296 }
    ensures { OnOk result (string_bytes out.new ≡ string_bytes out.old ++ node_item_lines arrivals.now (item_layouts (st_func_tree instance.now)) params (map node_tree nodes.now)) }
{
    let mut item = params;
    for node in nodes {
        write_item(
            out,
            node.line,
            node.name.as_str(),
            arrival(arrivals, item as usize),
            layout(instance, item as usize),
        )?;
        item += 1;
    }
    Ok(())
}

// The lines of the results.
fn write_results(
    out: &mut String,
    line: u32,
    results: &[u32],
    instance: &StFunc,
    arrivals: &[u32],
) -> Result<(), AllocError>
    requires items { length (item_layouts (st_func_tree instance.now)) ≡ length arrivals.now }
    requires there { (i r : ℕ) → slice_get results.now i ≡ Some r → r < length arrivals.now }
    ensures { OnOk result (string_bytes out.new ≡ string_bytes out.old ++ flat_map (result_line line arrivals.now (item_layouts (st_func_tree instance.now))) results.now) }
{
    for item in results {
        write_item(
            out,
            line,
            "end",
            arrival(arrivals, *item as usize),
            layout(instance, *item as usize),
        )?;
    }
    Ok(())
}

// The lines of costs.
fn write_costs(out: &mut String, slowdown: Slowdown, costs: &Costs) -> Result<(), AllocError>
    ensures { OnOk result (string_bytes out.new ≡ string_bytes out.old ++ cost_lines slowdown (whole_costs costs.now)) }
{
    write_number(out, "slowdown", u64::from(slowdown.clocks()))?;
    write_number(out, "latency", u64::from(costs.latency()))?;
    write_number(out, "muls", u64::from(costs.muls()))?;
    write_number(out, "load", costs.load())
}

// The lines of a function's items and results.
fn write_items(
    out: &mut String,
    func: &Func,
    instance: &StFunc,
    arrivals: &[u32],
) -> Result<(), AllocError>
    requires instance { IsInstanceOf (func_tree func.now) (st_func_tree instance.now) }
    requires arrivals { length (item_layouts (st_func_tree instance.now)) ≡ length arrivals.now }
    ensures { OnOk result (string_bytes out.new ≡ string_bytes out.old ++ item_lines (func_tree func.now) arrivals.now (item_layouts (st_func_tree instance.now))) }
{
    let params = func.params.len() as u32;
    write_params(out, func.line, &func.params, instance, arrivals)?;
    write_nodes(out, params, &func.nodes, instance, arrivals)?;
    write_results(out, func.end_line, &func.results, instance, arrivals)
}

/// The costs of a program function, and when and in which layout each of its items and results arrives.
pub fn plan_text(
    alloc: Global,
    slowdown: Slowdown,
    costs: &Costs,
    func: &Func,
    instance: &StFunc,
    arrivals: &[u32],
) -> Result<String, AllocError>
    requires instance { IsInstanceOf (func_tree func.now) (st_func_tree instance.now) }
    requires arrivals { length (item_layouts (st_func_tree instance.now)) ≡ length arrivals.now }
    ensures { IfOk result (λ text. string_bytes text ≡ planned_text slowdown (whole_costs costs.now) (func_tree func.now) arrivals.now (item_layouts (st_func_tree instance.now))) }
{
    let mut out = String::new(alloc);
    write_costs(&mut out, slowdown, costs)?;
    write_items(&mut out, func, instance, arrivals)?;
    Ok(out)
}
