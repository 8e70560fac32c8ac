// The lines before a module.

ghost use Rattle.std.specs.Prelude.{◌≡◌, ◌<◌, ◌^◌, ◌++◌, length, map, OnOk, string_bytes};
ghost use Rattle.ae_sttype.specs.StTree.{st_tree};
ghost use Rattle.ae_verilog.specs.NetlistModule.{each_numbered};
ghost use Rattle.ae_verilog.specs.ReportLines.{report_tree, number_line, enable_line, in_line, out_line, report_lines};

use ae_sttype::{Slowdown, StType};
use std::alloc::AllocError;

/// What is told of a module in the comment lines before it.
#[derive(Debug, Drop)]
pub struct Report {
    /// The clocks of a block.
    pub slowdown: Slowdown,
    /// The clocks from an input block to its output block.
    pub latency: u32,
    /// The multipliers.
    pub muls: u32,
    /// The words of operators, registers and switches (docs/COSTS.md).
    pub load: u32,
    /// Whether the module has an enable.
    pub enable: bool,
    /// The layout of each parameter.
    pub ins: Vec<StType>,
    /// The layout of each result. Outputs name their result where there are several.
    pub outs: Vec<StType>,
}

// The report lines.
pub fn write_report(out: &mut String, report: &Report) -> Result<(), AllocError>
    ensures text { OnOk result (string_bytes out.new ≡ string_bytes out.old ++ report_lines (report_tree report.now)) }
    ensures slowdown { report.now.slowdown < 2 ^ 32 }
    ensures latency { report.now.latency < 2 ^ 32 }
    ensures muls { report.now.muls < 2 ^ 32 }
    ensures load { report.now.load < 2 ^ 32 }
{
    let slowdown = report.slowdown.clocks();
    let latency = report.latency;
    let muls = report.muls;
    let load = report.load;
    write!(out, "// aeth 1\n")?;
    write_number(out, "slowdown", slowdown)?;
    write_number(out, "latency", latency)?;
    write_number(out, "muls", muls)?;
    write_number(out, "load", load)?;
    write_enable(out, report.enable)?;
    write_ins(out, report.ins.as_slice())?;
    write_outs(out, report.outs.as_slice())
}

fn write_number(out: &mut String, name: &str, number: u32) -> Result<(), AllocError>
    ensures { OnOk result (string_bytes out.new ≡ string_bytes out.old ++ number_line name.now number) }
{
    write!(out, "// {name} {number}\n")
}

fn write_enable(out: &mut String, enable: bool) -> Result<(), AllocError>
    ensures { OnOk result (string_bytes out.new ≡ string_bytes out.old ++ enable_line enable) }
{
    if enable {
        write!(out, "// enable\n")?;
    }
    Ok(())
}

// The layouts of the parameters.
fn write_ins(out: &mut String, ins: &[StType]) -> Result<(), AllocError>
    ensures { OnOk result (string_bytes out.new ≡ string_bytes out.old ++ each_numbered in_line 0 (map st_tree ins.now)) }
{
    for (k, layout) in ins.iter().enumerate() {
        write_in(out, k, layout)?;
    }
    Ok(())
}

fn write_in(out: &mut String, k: usize, layout: &StType) -> Result<(), AllocError>
    ensures { OnOk result (string_bytes out.new ≡ string_bytes out.old ++ in_line k (st_tree layout.now)) }
{
    write!(out, "// in {k} ")?;
    layout.write_to(out)?;
    write!(out, "\n")
}

// The layouts of the results.
fn write_outs(out: &mut String, outs: &[StType]) -> Result<(), AllocError>
    ensures { OnOk result (string_bytes out.new ≡ string_bytes out.old ++ each_numbered (out_line (length outs.now)) 0 (map st_tree outs.now)) }
{
    for (k, layout) in outs.iter().enumerate() {
        write_out(out, outs.len(), k, layout)?;
    }
    Ok(())
}

// The layout of a result, numbered where there are several.
fn write_out(out: &mut String, outs: usize, k: usize, layout: &StType) -> Result<(), AllocError>
    ensures { OnOk result (string_bytes out.new ≡ string_bytes out.old ++ out_line outs k (st_tree layout.now)) }
{
    if outs == 1 {
        write!(out, "// out ")?;
    } else {
        write!(out, "// out {k} ")?;
    }
    layout.write_to(out)?;
    write!(out, "\n")
}
