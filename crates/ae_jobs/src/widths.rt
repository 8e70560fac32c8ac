// The widths of the words of a program's parameters.

ghost use Rattle.std.specs.Prelude.{◌≡◌, ◌++◌, IfOk, OnOk, map};
ghost use Rattle.ae_word.specs.AtomTree.{WordKind, atom_tree, atom_kinds};
ghost use Rattle.ae_seqtype.specs.SeqTree.{seq_tree};
ghost use Rattle.ae_seq.specs.ProgramTree.{ParamTree, param_tree, program_tree};
ghost use Rattle.ae_jobs.specs.Inputs.{type_widths, widths_of};
ghost use Rattle.ae_jobs.specs.RunTexts.{input_widths};

use ae_seq::{Param, Program};
use ae_seqtype::SeqType;
use ae_word::Atom;
use std::alloc::{AllocError, Global};

fn push_atom(widths: &mut Vec<u32>, atom: &Atom) -> Result<(), AllocError>
    ensures { OnOk result (widths.new.items ≡ widths.old.items ++ map (λ (k : WordKind). k.width) (atom_kinds (atom_tree atom.now))) }
{
    match atom {
        Atom::Word(width) | Atom::Int(width) => Ok(widths.push(*width)?),
        Atom::Pair(first, second) => {
            push_atom(widths, first)?;
            push_atom(widths, second)
        }
    }
}

fn push_type(widths: &mut Vec<u32>, ty: &SeqType) -> Result<(), AllocError>
    ensures { OnOk result (widths.new.items ≡ widths.old.items ++ type_widths (seq_tree ty.now)) }
{
    match ty {
        SeqType::Atom(atom) => push_atom(widths, atom),
        SeqType::Seq(count, of) => {
            for _ in 0..*count {
                push_type(widths, of)?;
            }
            Ok(())
        }
    }
}

fn push_all(widths: &mut Vec<u32>, params: &[Param]) -> Result<(), AllocError>
    ensures { OnOk result (widths.new.items ≡ widths.old.items ++ widths_of (map (λ (p : ParamTree). p.type) (map param_tree params.now))) }
{
    for param in params {
        push_type(widths, &param.ty)?;
    }
    Ok(())
}

/// The widths in bits of the words of all parameters of the program function, in order.
pub fn input_widths(alloc: Global, p: &Program) -> Result<Vec<u32>, AllocError>
    ensures { IfOk result (λ widths. widths.items ≡ input_widths (program_tree p.now)) }
{
    let mut widths = Vec::new(alloc);
    if !p.funcs.is_empty() {
        push_all(&mut widths, &p.funcs[p.funcs.len() - 1].params)?;
    }
    Ok(widths)
}
