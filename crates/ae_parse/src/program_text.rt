// The program of a text.

ghost use Rattle.std.specs.Prelude.{◌≡◌, ◌<◌, IfErr, IfOk, IsTrue, length};
ghost use Rattle.ae_seq.specs.Formed.{formed};
ghost use Rattle.ae_seq.specs.ProgramTree.{program_tree};
ghost use Rattle.ae_fields.specs.Grammar.{IsProgramText, at_end, program, refused};
ghost use Rattle.ae_parse.specs.Refusal.{IsRefused, IsRefusedAs};
ghost use Rattle.ae_parse.specs.StateView.{state_of};

use crate::parser::{Known, Parser};
use ae_fields::{is_mark, next_line, said};
use ae_seq::Program;
use std::alloc::{AllocError, Global};
use thiserror::Error;

/// Why a text is not read.
#[derive(Debug, Drop, Error)]
pub enum ParseFault {
    /// The first line that is refused, counted from 1.
    #[error("bad line {line}")]
    BadLine { line: u32 },
    /// Want of memory.
    #[error("out of memory")]
    Memory,
}

impl From<AllocError> for ParseFault {
    ghost use Rattle.std.specs.Prelude.{◌≡◌};
    ghost use Rattle.ae_parse.specs.declared.program_text.ParseFault.TheVariants.{Memory};

    ghost from_gives = { λ e r. r ≡ Memory };

    fn from(_error: AllocError) -> ParseFault {
        ParseFault::Memory
    }
}

// At the end of the program part.
fn finished(number: u32, parser: Parser) -> Result<Program, ParseFault>
    ensures program { IfOk result (λ p. at_end number (state_of parser) ≡ program (program_tree p)) }
    ensures refused { IfErr result (λ e. IsRefusedAs e (at_end number (state_of parser))) }
{
    let Parser { known, part } = parser;
    let Known { version, funcs, .. } = known;
    if funcs.is_empty() || part.is_some() {
        return Err(ParseFault::BadLine { line: number });
    }
    Ok(Program { version, funcs })
}

/// The program of a text (docs/LANGUAGE.md).
///
/// `BadLine` comes exactly where the text is no program. It names the first line that has none of the line forms, stands
/// out of place, uses a name that is not in scope, or gives a name a second time. Where there is no such line, and the
/// program part ends inside a function or has no function, it names the `%%` line, or the number of lines plus 1.
pub fn parse(alloc: Global, text: &[u8]) -> Result<Program, ParseFault>
    requires { length text.now < 4294967295 }
    ensures program { IfOk result (λ p. IsProgramText text.now (program_tree p)) }
    ensures formed { IfOk result (λ p. IsTrue (formed (program_tree p))) }
    ensures refused { IfErr result (λ e. IsRefused e text.now) }
{
    let mut parser = Parser::new(alloc);
    let mut rest = text;
    let mut number = 1;
    while let Some((line, after)) = next_line(rest) {
        if is_mark(line) {
            return finished(number, parser);
        }
        let Some(next) = parser.after_line(alloc, number, said(line))? else {
            return Err(ParseFault::BadLine { line: number });
        };
        parser = next;
        rest = after;
        number += 1;
    }
    finished(number, parser)
}
