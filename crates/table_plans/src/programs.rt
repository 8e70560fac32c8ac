// Answers to a program.

ghost use Rattle.std.specs.Prelude.{IfOk, IsTrue};
ghost use Rattle.ae_seq.specs.Formed.{formed};
ghost use Rattle.ae_seq.specs.ProgramTree.{program_tree};

use crate::scheduled::tell_at;
use crate::timed::tell_limit;
use ae_parse::{ParseFault, parse};
use ae_print::print;
use ae_seq::{Program, Typed, check};
use std::alloc::{AllocError, Global};
use table_text::{Page, number_at, parted, word_at};

/// No text is as long.
pub const LONGEST: usize = 4294967295;

/// The program of a text.
pub fn read(alloc: Global, text: &[u8]) -> Result<Program, ParseFault>
    ensures { IfOk result (λ p. IsTrue (formed (program_tree p))) }
{
    if text.len() >= LONGEST {
        return Err(ParseFault::Memory);
    }
    parse(alloc, text)
}

/// The typed program of a text; where there is none, the answer says why.
pub fn typed(alloc: Global, out: &mut Page, text: &[u8]) -> Option<Typed> {
    match read(alloc, text) {
        Ok(p) => checked(alloc, out, p),
        Err(fault) => {
            out.tell(" ", &fault);
            None
        }
    }
}

fn checked(alloc: Global, out: &mut Page, p: Program) -> Option<Typed>
    requires { IsTrue (formed (program_tree p)) }
{
    match check(alloc, p) {
        Ok(typed) => Some(typed),
        Err(fault) => {
            out.tell(" ", &fault);
            None
        }
    }
}

/// Whether a program is formed and has types.
pub fn tell_checked(alloc: Global, out: &mut Page, p: Program) {
    if !p.formed() {
        return out.say(" not formed");
    }
    if checked(alloc, out, p).is_some() {
        out.say(" typed");
    }
}

// The program as it is kept, or as it is printed.
fn tell_program(
    alloc: Global,
    out: &mut Page,
    is_printed: bool,
    text: &[u8],
) -> Result<(), AllocError> {
    match read(alloc, text) {
        Ok(p) => {
            if is_printed {
                out.tell("", &print(alloc, &p)?);
            } else {
                out.show("", &p);
                out.say("\n");
            }
        }
        Err(fault) => out.tell_line("", &fault),
    }
    Ok(())
}

// The types of the items of a function.
fn tell_items(out: &mut Page, p: &Typed, func: u32) {
    out.tell("function ", &func);
    out.say(":");
    for item in 0..100 {
        let Some(ty) = p.ty(func, item) else {
            break;
        };
        out.say(" ");
        let done = ty.write_to(out.text());
        out.note(done);
    }
    out.say("\n");
}

fn tell_types(out: &mut Page, p: &Typed) {
    out.tell_line("functions ", &p.program().funcs.len());
    for func in 0..100 {
        if p.ty(func, 0).is_none() {
            break;
        }
        tell_items(out, p, func);
    }
}

// Answers each number behind what is asked; what begins with `#` is a remark.
fn answer_typed(alloc: Global, out: &mut Page, head: &str, p: &Typed) -> Result<(), AllocError> {
    let asked = word_at(head, 0);
    if asked == "types" {
        tell_types(out, p);
    }
    let (given, _) = parted(head, "#");
    for number in given.split_whitespace().skip(1) {
        if asked == "limits" {
            tell_limit(alloc, out, p, number_at(number, 0));
        } else {
            tell_at(alloc, out, p, asked, number_at(number, 0))?;
        }
    }
    Ok(())
}

/// Answers what the head asks of a program.
pub fn answer(alloc: Global, out: &mut Page, head: &str, text: &[u8]) -> Result<(), AllocError> {
    let asked = word_at(head, 0);
    if asked == "read" || asked == "print" {
        return tell_program(alloc, out, asked == "print", text);
    }
    match typed(alloc, out, text) {
        Some(p) => answer_typed(alloc, out, head, &p)?,
        None => out.say("\n"),
    }
    Ok(())
}
