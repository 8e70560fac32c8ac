// The lines that refusals write.

ghost use Rattle.std.specs.Prelude.{◌≡◌, ◌++◌, IfOk, OnOk, string_bytes};
ghost use Rattle.ae_jobs.specs.Refusals.{refusal_text, refusal_line, fault_text};

use crate::status::{Status, VFaultKind};
use std::alloc::{AllocError, Global};

/// The line of a refusal, with its LF.
pub fn refusal_line(alloc: Global, status: Status) -> Result<String, AllocError>
    ensures { IfOk result (λ text. string_bytes text ≡ refusal_line status) }
{
    let mut out = String::from_str(alloc, "refused ")?;
    write_refusal(&mut out, status)?;
    out.push_str("\n")?;
    Ok(out)
}

fn write_refusal(out: &mut String, status: Status) -> Result<(), AllocError>
    ensures { OnOk result (string_bytes out.new ≡ string_bytes out.old ++ refusal_text status) }
{
    match status {
        Status::Ok | Status::WriteFault => Ok(()),
        Status::Usage => out.push_str("usage"),
        Status::BadLine { line } => write!(out, "bad line {line}"),
        Status::BadType { line } => write!(out, "bad type line {line}"),
        Status::TooLarge { line } => write!(out, "too large line {line}"),
        Status::NoSchedule { line } => write!(out, "no schedule line {line}"),
        Status::BadWords { row, column } => write!(out, "bad words row {row} column {column}"),
        Status::BadModule { fault } => {
            out.push_str("bad module ")?;
            write_fault(out, fault)
        }
        Status::LongRun { size } => write!(out, "long run {size}"),
        Status::ReadFault => out.push_str("read fault"),
        Status::TooLong => out.push_str("too long"),
        Status::Memory => out.push_str("memory"),
        Status::BadWave { at } => write!(out, "bad wave word {at}"),
        Status::NotMoves { line } => write!(out, "not moves line {line}"),
    }
}

fn write_fault(out: &mut String, fault: VFaultKind) -> Result<(), AllocError>
    ensures { OnOk result (string_bytes out.new ≡ string_bytes out.old ++ fault_text fault) }
{
    match fault {
        VFaultKind::BadToken { at } => write!(out, "token {at}"),
        VFaultKind::BadHeader => out.push_str("header"),
        VFaultKind::BadItem { item } => write!(out, "item {item}"),
        VFaultKind::Unknown { item } => write!(out, "unknown item {item}"),
        VFaultKind::Twice { item } => write!(out, "twice item {item}"),
        VFaultKind::Kind { item } => write!(out, "kind item {item}"),
        VFaultKind::Undriven { net } => write!(out, "undriven net {net}"),
        VFaultKind::Width { item } => write!(out, "width item {item}"),
        VFaultKind::Loop { net } => write!(out, "loop net {net}"),
        VFaultKind::Large => out.push_str("large"),
    }
}
