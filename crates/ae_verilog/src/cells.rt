// Declarations: one line for each cell that is no input, in their order, and the notes between them.

ghost use Rattle.std.specs.Prelude.{◌≡◌, ◌<◌, ◌^◌, ◌++◌, ◌&&◌, true, nat_lt, All, map, codes, OnOk, string_bytes};
ghost use Rattle.ae_vmodule.specs.ModuleTree.{index, constant};
ghost use Rattle.ae_vmodule.specs.declared.module.BinOp.TheVariants.{Lt as Less};
ghost use Rattle.ae_netlist.specs.Circuit.{width_of};
ghost use Rattle.ae_verilog.specs.NetlistModule.{op_expression, net_value, net_name, cast_to, binary_nets};
ghost use Rattle.ae_verilog.specs.Notes.{note_tree, table_line};
ghost use Rattle.ae_verilog.specs.Text.{between, noted, wire_text, value_text, register_text, memory_text, op_text, declaration_text, expr_text, is_cast, arms_text, shift_text};

use crate::header::width_at;
use crate::names::{Names, write_net, write_number, write_range};
use crate::notes::{Note, write_note};
use ae_netlist::{Cell, NetId, PackedCell, SizedCell};
use ae_word::WordOp;
use std::alloc::AllocError;

// The declarations of all cells, and each note before its cell.
pub fn write_cells(out: &mut String, names: &Names<'_>, notes: &[Note]) -> Result<(), AllocError>
    ensures text { OnOk result (string_bytes out.new ≡ string_bytes out.old ++ noted (λ net sized. declaration_text (table_line names.now.lines.now) names.now.cells.now net sized.width sized.cell) names.now.cells.now 0 (map note_tree notes.now)) }
    ensures fits { OnOk result (All (λ note. note.line < 2 ^ 32) notes.now) }
{
    let mut from = 0usize;
    for note in notes {
        let cell = note.cell as usize;
        write_between(out, names, from, cell)?;
        write_note(out, note)?;
        from = from.max(cell);
    }
    write_between(out, names, from, names.cells.len())
}

// The declarations of the cells from one on, up to another.
fn write_between(
    out: &mut String,
    names: &Names<'_>,
    from: usize,
    to: usize,
) -> Result<(), AllocError>
    ensures { OnOk result (string_bytes out.new ≡ string_bytes out.old ++ between (λ net sized. declaration_text (table_line names.now.lines.now) names.now.cells.now net sized.width sized.cell) names.now.cells.now from to) }
{
    let end = to.min(names.cells.len());
    for k in from..end {
        write_cell(out, names, k, names.cells[k].sized())?;
    }
    Ok(())
}

// The declaration of one cell.
fn write_cell(
    out: &mut String,
    names: &Names<'_>,
    k: usize,
    sized: SizedCell,
) -> Result<(), AllocError>
    ensures { OnOk result (string_bytes out.new ≡ string_bytes out.old ++ declaration_text (table_line names.now.lines.now) names.now.cells.now k sized.width sized.cell) }
{
    let width = sized.width;
    match sized.cell {
        Cell::Input(_) => Ok(()),
        Cell::Const(constant) => write_constant(out, names.lines, k, width, constant),
        Cell::Op(op, args) => write_op(out, names, k, width, op, args[0], args[1], args[2]),
        Cell::Reg { next: _ } => write_register(out, names.lines, k, width),
        Cell::Mem { depth, .. } => write_memory(out, names.lines, k, width, depth),
        Cell::Peek { mem, at } => write_peek(out, names, k, width, mem, at),
    }
}

// A wire, up to its value.
fn write_wire(out: &mut String, lines: &[u32], k: usize, width: u32) -> Result<(), AllocError>
    ensures { OnOk result (string_bytes out.new ≡ string_bytes out.old ++ wire_text (table_line lines.now) width k) }
{
    write!(out, "  wire ")?;
    write_range(out, width)?;
    write_number(out, lines, k)?;
    write!(out, " = ")
}

fn write_constant(
    out: &mut String,
    lines: &[u32],
    k: usize,
    width: u32,
    value: u64,
) -> Result<(), AllocError>
    ensures { OnOk result (string_bytes out.new ≡ string_bytes out.old ++ value_text (table_line lines.now) width k (constant width value true)) }
{
    write_wire(out, lines, k, width)?;
    write!(out, "{width}'d{value};\n")
}

fn write_register(out: &mut String, lines: &[u32], k: usize, width: u32) -> Result<(), AllocError>
    ensures { OnOk result (string_bytes out.new ≡ string_bytes out.old ++ register_text (table_line lines.now) width k) }
{
    write!(out, "  reg ")?;
    write_range(out, width)?;
    write_number(out, lines, k)?;
    write!(out, ";\n")
}

fn write_memory(
    out: &mut String,
    lines: &[u32],
    k: usize,
    width: u32,
    depth: u32,
) -> Result<(), AllocError>
    ensures { OnOk result (string_bytes out.new ≡ string_bytes out.old ++ memory_text (table_line lines.now) width k depth) }
{
    let last = depth.saturating_sub(1);
    write!(out, "  reg ")?;
    write_range(out, width)?;
    write_number(out, lines, k)?;
    write!(out, " [0:{last}];\n")
}

fn write_peek(
    out: &mut String,
    names: &Names<'_>,
    k: usize,
    width: u32,
    mem: NetId,
    at: NetId,
) -> Result<(), AllocError>
    ensures { OnOk result (string_bytes out.new ≡ string_bytes out.old ++ value_text (table_line names.now.lines.now) width k (index (net_name (table_line names.now.lines.now) names.now.cells.now mem.0) (net_value (table_line names.now.lines.now) names.now.cells.now at.0))) }
{
    write_wire(out, names.lines, k, width)?;
    write_net(out, names, mem)?;
    write!(out, "[")?;
    write_net(out, names, at)?;
    write!(out, "];\n")
}

// The wire of an operator. One that widens a word says so to Verilator, since the assignment itself does it.
fn write_op(
    out: &mut String,
    names: &Names<'_>,
    k: usize,
    width: u32,
    op: WordOp,
    a: NetId,
    b: NetId,
    c: NetId,
) -> Result<(), AllocError>
    ensures { OnOk result (string_bytes out.new ≡ string_bytes out.old ++ op_text (table_line names.now.lines.now) names.now.cells.now width k op a.0 b.0 c.0) }
{
    if widens(names.cells, width, op, a) {
        write!(out, "  // verilator lint_off WIDTH\n")?;
        write_wire_of(out, names, k, width, op, a, b, c)?;
        write!(out, "  // verilator lint_on WIDTH\n")
    } else {
        write_wire_of(out, names, k, width, op, a, b, c)
    }
}

// Whether an operator makes a word of more bits.
fn widens(cells: &[PackedCell], width: u32, op: WordOp, a: NetId) -> bool
    ensures { result ≡ (is_cast op && nat_lt (width_of cells.now a.0) width) }
{
    match op {
        WordOp::Cast(_) | WordOp::SCast(_) => width_at(cells, a) < width,
        WordOp::Add | WordOp::Sub | WordOp::Mul => false,
        WordOp::And | WordOp::Or | WordOp::Xor | WordOp::Not => false,
        WordOp::Min | WordOp::Max | WordOp::Eq | WordOp::Lt | WordOp::Mux => false,
        WordOp::SLt | WordOp::SMin | WordOp::SMax => false,
        WordOp::Shl(_) | WordOp::Shr(_) | WordOp::Sar(_) => false,
    }
}

fn write_wire_of(
    out: &mut String,
    names: &Names<'_>,
    k: usize,
    width: u32,
    op: WordOp,
    a: NetId,
    b: NetId,
    c: NetId,
) -> Result<(), AllocError>
    ensures { OnOk result (string_bytes out.new ≡ string_bytes out.old ++ value_text (table_line names.now.lines.now) width k (op_expression (table_line names.now.lines.now) names.now.cells.now width op a.0 b.0 c.0)) }
{
    write_wire(out, names.lines, k, width)?;
    write_value(out, names, width, op, a, b, c)?;
    write!(out, ";\n")
}

// The value of an operator.
fn write_value(
    out: &mut String,
    names: &Names<'_>,
    width: u32,
    op: WordOp,
    a: NetId,
    b: NetId,
    c: NetId,
) -> Result<(), AllocError>
    ensures { OnOk result (string_bytes out.new ≡ string_bytes out.old ++ expr_text (op_expression (table_line names.now.lines.now) names.now.cells.now width op a.0 b.0 c.0)) }
{
    match op {
        WordOp::Add => write_joined(out, names, a, "+", b),
        WordOp::Sub => write_joined(out, names, a, "-", b),
        WordOp::Mul => write_joined(out, names, a, "*", b),
        WordOp::And => write_joined(out, names, a, "&", b),
        WordOp::Or => write_joined(out, names, a, "|", b),
        WordOp::Xor => write_joined(out, names, a, "^", b),
        WordOp::Eq => write_joined(out, names, a, "==", b),
        WordOp::Lt => write_joined(out, names, a, "<", b),
        WordOp::Not => write_flipped(out, names, a),
        WordOp::Min => write_less(out, names, a, b, a, b),
        WordOp::Max => write_less(out, names, a, b, b, a),
        WordOp::Mux => write_choice(out, names, a, b, c),
        WordOp::Shl(by) => write_shift(out, names, width, a, "<<", by),
        WordOp::Shr(by) => write_shift(out, names, width, a, ">>", by),
        WordOp::Cast(to) => write_cast(out, names, a, to),
        WordOp::SLt => write_net(out, names, a),
        WordOp::SMin => write_net(out, names, a),
        WordOp::SMax => write_net(out, names, a),
        WordOp::Sar(_) => write_net(out, names, a),
        WordOp::SCast(_) => write_net(out, names, a),
    }
}

fn write_joined(
    out: &mut String,
    names: &Names<'_>,
    a: NetId,
    sign: &str,
    b: NetId,
) -> Result<(), AllocError>
    ensures { OnOk result (string_bytes out.new ≡ string_bytes out.old ++ (net_name (table_line names.now.lines.now) names.now.cells.now a.0 ++ (codes " " ++ (sign.now ++ (codes " " ++ net_name (table_line names.now.lines.now) names.now.cells.now b.0))))) }
{
    write_net(out, names, a)?;
    write!(out, " {sign} ")?;
    write_net(out, names, b)
}

fn write_flipped(out: &mut String, names: &Names<'_>, a: NetId) -> Result<(), AllocError>
    ensures { OnOk result (string_bytes out.new ≡ string_bytes out.old ++ (codes "~" ++ net_name (table_line names.now.lines.now) names.now.cells.now a.0)) }
{
    write!(out, "~")?;
    write_net(out, names, a)
}

// A choice of two nets by a third.
fn write_choice(
    out: &mut String,
    names: &Names<'_>,
    test: NetId,
    a: NetId,
    b: NetId,
) -> Result<(), AllocError>
    ensures { OnOk result (string_bytes out.new ≡ string_bytes out.old ++ (net_name (table_line names.now.lines.now) names.now.cells.now test.0 ++ arms_text (net_name (table_line names.now.lines.now) names.now.cells.now a.0) (net_name (table_line names.now.lines.now) names.now.cells.now b.0))) }
{
    write_net(out, names, test)?;
    write_arms(out, names, a, b)
}

// A choice of two nets by the order of two nets.
fn write_less(
    out: &mut String,
    names: &Names<'_>,
    low: NetId,
    high: NetId,
    a: NetId,
    b: NetId,
) -> Result<(), AllocError>
    ensures { OnOk result (string_bytes out.new ≡ string_bytes out.old ++ (expr_text (binary_nets (table_line names.now.lines.now) names.now.cells.now Less low.0 high.0) ++ arms_text (net_name (table_line names.now.lines.now) names.now.cells.now a.0) (net_name (table_line names.now.lines.now) names.now.cells.now b.0))) }
{
    write_joined(out, names, low, "<", high)?;
    write_arms(out, names, a, b)
}

// The arms of a choice behind its test.
fn write_arms(out: &mut String, names: &Names<'_>, a: NetId, b: NetId) -> Result<(), AllocError>
    ensures { OnOk result (string_bytes out.new ≡ string_bytes out.old ++ arms_text (net_name (table_line names.now.lines.now) names.now.cells.now a.0) (net_name (table_line names.now.lines.now) names.now.cells.now b.0)) }
{
    write!(out, " ? ")?;
    write_net(out, names, a)?;
    write!(out, " : ")?;
    write_net(out, names, b)
}

// A shift by places within the word; one by the width or more leaves nothing.
fn write_shift(
    out: &mut String,
    names: &Names<'_>,
    width: u32,
    a: NetId,
    sign: &str,
    by: u32,
) -> Result<(), AllocError>
    ensures { OnOk result (string_bytes out.new ≡ string_bytes out.old ++ shift_text (net_name (table_line names.now.lines.now) names.now.cells.now a.0) sign.now width by) }
{
    if by < width {
        write_net(out, names, a)?;
        write!(out, " {sign} 6'd{by}")
    } else {
        write!(out, "{width}'d0")
    }
}

// A word to as many bits or fewer.
fn write_cast(out: &mut String, names: &Names<'_>, a: NetId, to: u32) -> Result<(), AllocError>
    ensures { OnOk result (string_bytes out.new ≡ string_bytes out.old ++ expr_text (cast_to (table_line names.now.lines.now) names.now.cells.now to a.0)) }
{
    if to < width_at(names.cells, a) {
        let high = to.saturating_sub(1);
        write_net(out, names, a)?;
        write!(out, "[{high}:0]")
    } else {
        write_net(out, names, a)
    }
}
