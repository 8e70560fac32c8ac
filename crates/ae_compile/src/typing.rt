// The program of an input.

ghost use Rattle.std.specs.Prelude.{◌≡◌, ◌<◌, None, length, IfOk, IfErr, IsTrue};
ghost use Rattle.ae_seq.specs.ProgramTree.{program_tree};
ghost use Rattle.ae_seq.specs.Formed.{formed};
ghost use Rattle.ae_seq.specs.Typing.{refused_line};
ghost use Rattle.ae_compile.specs.Programs.{IsTypedText, IsTypedFault, IsTypeFault};

use crate::faults::CompileFault;
use ae_parse::{ParseFault, parse};
use ae_seq::{CheckFault, Program, Typed, check};
use std::alloc::Global;

// The program with the types of its items.
fn checked(alloc: Global, p: Program) -> Result<Typed, CompileFault>
    requires { IsTrue (formed (program_tree p)) }
    ensures typed { IfOk result (λ t. (program_tree t ≡ program_tree p) × (refused_line (program_tree p) ≡ None)) }
    ensures refused { IfErr result (λ s. IsTypeFault s (program_tree p)) }
{
    match check(alloc, p) {
        Ok(typed) => Ok(typed),
        Err(CheckFault::BadType { line }) => Err(CompileFault::BadType { line }),
        Err(CheckFault::Large { line }) => Err(CompileFault::TooLarge { line }),
        Err(CheckFault::Memory) => Err(CompileFault::Memory),
    }
}

/// The program of a text with the types of its items, or the status of its first refused line; `Memory` only for want of
/// memory.
pub fn typed(alloc: Global, part: &[u8]) -> Result<Typed, CompileFault>
    requires { length part.now < 4294967295 }
    ensures typed { IfOk result (λ t. IsTypedText part.now (program_tree t)) }
    ensures formed { IfOk result (λ t. IsTrue (formed (program_tree t))) }
    ensures refused { IfErr result (λ s. IsTypedFault part.now s) }
{
    match parse(alloc, part) {
        Ok(p) => checked(alloc, p),
        Err(ParseFault::BadLine { line }) => Err(CompileFault::BadLine { line }),
        Err(ParseFault::Memory) => Err(CompileFault::Memory),
    }
}
