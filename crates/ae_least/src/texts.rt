// The text of `least`.

ghost use Rattle.std.specs.Prelude.{◌≡◌, ◌++◌, ◌<◌, ◌≤◌, ℕ, None, IfErr, IfOk, OnOk, string_bytes, true};
ghost use Rattle.ae_seq.specs.ProgramTree.{program_tree};
ghost use Rattle.ae_netlist.specs.declared.cell.Port.TheVariants.{In, Out};
ghost use Rattle.ae_verilog.specs.NetlistModule.{port_name};
ghost use Rattle.ae_rewrite.specs.FailingLine.{failing_line};
ghost use Rattle.ae_rewrite.specs.Scheduled.{IsSchedule};
ghost use Rattle.ae_rewrite.specs.Sound.{IsSound};
ghost use Rattle.ae_rewrite.specs.StProgramTree.{st_func_trees};
ghost use Rattle.ae_trace.specs.Traces.{is_movement};
ghost use Rattle.ae_results.specs.Certified.{certificate_tree};
ghost use Rattle.ae_fuse.specs.Fused.{IsFusedOf};
ghost use Rattle.ae_least.specs.LeastTexts.{certificate_line, latency_line, shown_lines, IsLeastFault, IsLeastText};

use crate::faults::LeastFault;
use crate::others::{main_func, other_line};
use ae_fuse::{Certificate, Fused, fuse, latency_is_least};
use ae_rewrite::{PlanFault, StProgram, schedule};
use ae_seq::Typed;
use ae_sttype::Slowdown;
use std::alloc::{AllocError, Global};

// The port of a word of a result, of which there are so many.
fn write_output(out: &mut String, outs: usize, c: &Certificate) -> Result<(), AllocError>
    ensures { OnOk result (string_bytes out.new ≡ string_bytes out.old ++ port_name outs (Out c.now.result c.now.lane c.now.word)) }
{
    if outs == 1 {
        write!(out, "o_{}_{}", c.lane, c.word)
    } else {
        write!(out, "o{}_{}_{}", c.result, c.lane, c.word)
    }
}

// The port of the word of a parameter that it is.
fn write_input(out: &mut String, c: &Certificate) -> Result<(), AllocError>
    ensures { OnOk result (string_bytes out.new ≡ string_bytes out.old ++ port_name 1 (In c.now.param c.now.from_lane c.now.from_word)) }
{
    write!(out, "i{}_{}_{}", c.param, c.from_lane, c.from_word)
}

fn write_certificate(out: &mut String, outs: usize, c: &Certificate) -> Result<(), AllocError>
    ensures { OnOk result (string_bytes out.new ≡ string_bytes out.old ++ certificate_line outs (certificate_tree c.now)) }
{
    out.push_str("word ")?;
    write_output(out, outs, c)?;
    write!(out, " clock {} from ", c.clock)?;
    write_input(out, c)?;
    write!(out, " clock {}\n", c.from_clock)
}

// The latency, and the line of what shows it, for so many results.
fn lines(
    alloc: Global,
    latency: u32,
    certificate: Option<Certificate>,
    outs: usize,
) -> Result<String, AllocError>
    ensures { IfOk result (λ text. string_bytes text ≡ latency_line latency ++ shown_lines outs certificate) }
{
    let mut out = String::from_str(alloc, "latency ")?;
    write!(out, "{latency}\n")?;
    match certificate {
        Some(c) => write_certificate(&mut out, outs, &c)?,
        None => {}
    }
    Ok(out)
}

// The schedule of a movement program.
fn scheduled(alloc: Global, p: &Typed, slowdown: Slowdown) -> Result<StProgram, LeastFault>
    requires { is_movement (program_tree p.now) ≡ true }
    ensures schedule { IfOk result (λ s. IsSchedule (program_tree p.now) slowdown (st_func_trees s)) }
    ensures sound { IfOk result (λ s. IsSound (st_func_trees s)) }
    ensures laid { OnOk result (failing_line (program_tree p.now) slowdown ≡ None) }
    ensures refused { IfErr result (λ fault. IsLeastFault (program_tree p.now) slowdown fault) }
{
    match schedule(alloc, p, slowdown) {
        Ok(schedule) => Ok(schedule),
        Err(PlanFault::NoSchedule { line }) => Err(LeastFault::NoSchedule { line }),
        Err(PlanFault::Memory) => Err(LeastFault::Memory),
    }
}

// The moves of a movement program with this schedule.
fn moved(alloc: Global, p: &Typed, s: &StProgram) -> Result<Fused, AllocError>
    requires moves { is_movement (program_tree p.now) ≡ true }
    requires schedule { (slowdown : ℕ) × (0 < slowdown) × (slowdown ≤ 4096) × IsSchedule (program_tree p.now) slowdown (st_func_trees s.now) }
    ensures { IfOk result (λ f. IsFusedOf (program_tree p.now) (st_func_trees s.now) f) }
{
    let fused = fuse(alloc, p, s)?;
    match fused {
        Some(fused) => Ok(fused),
        None => unreachable!(),
    }
}

// The text of a movement program, or the line without a layout.
fn movement_text(alloc: Global, p: &Typed, slowdown: Slowdown) -> Result<String, LeastFault>
    requires { is_movement (program_tree p.now) ≡ true }
    ensures text { IfOk result (λ text. IsLeastText (program_tree p.now) slowdown (string_bytes text)) }
    ensures laid { OnOk result (failing_line (program_tree p.now) slowdown ≡ None) }
    ensures refused { IfErr result (λ fault. IsLeastFault (program_tree p.now) slowdown fault) }
{
    latency_is_least();
    slowdown.limits();
    let schedule = scheduled(alloc, p, slowdown)?;
    let fused = moved(alloc, p, &schedule)?;
    let outs = main_func(p).results.len();
    let text = lines(alloc, fused.latency(), fused.certificate(), outs)?;
    Ok(text)
}

/// The least latency of a movement program under a slowdown, in a line `latency L`, and where L is above 0 a line
/// `word O clock C from I clock K` behind it: the port and the clock of the first word of the results, by result, element and
/// word, that stands L clocks before the word of a parameter that it is, and the port and the clock of that. No well-formed
/// module that is correct for the program has a smaller latency. A fault tells the first line of the program function that
/// does more than move words, or the first line without a layout; `Memory` comes only for want of memory. No load is too
/// large.
pub fn least_text(alloc: Global, p: &Typed, slowdown: Slowdown) -> Result<String, LeastFault>
    ensures text { IfOk result (λ text. IsLeastText (program_tree p.now) slowdown (string_bytes text)) }
    ensures laid { OnOk result (failing_line (program_tree p.now) slowdown ≡ None) }
    ensures refused { IfErr result (λ fault. IsLeastFault (program_tree p.now) slowdown fault) }
{
    match other_line(p) {
        Some(line) => Err(LeastFault::NotMoves { line }),
        None => movement_text(alloc, p, slowdown),
    }
}
