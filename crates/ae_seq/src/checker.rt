// The types of a program's items, or the first line that is refused.

ghost use Rattle.std.specs.Prelude.{◌≡◌, ◌↔◌, [], ◌∷◌, ◌++◌, OnOk, IfOk, IfErr, IfSome, IsSome, IsTrue, map, Some, None, is_some};
ghost use Rattle.ae_seqtype.specs.SeqTree.{in_size, seq_tree};
ghost use Rattle.ae_seq.specs.Accepted.{AllSized, IsCausedBy, is_item};
ghost use Rattle.ae_seq.specs.Formed.{formed};
ghost use Rattle.ae_seq.specs.ProgramTree.{func_tree, node_tree, program_tree};
ghost use Rattle.ae_seq.specs.Signatures.{HaveTypes, kept_type, signatures_by};
ghost use Rattle.ae_seq.specs.Trees.{func_trees, option_lent, option_type, type_trees, types_of};
ghost use Rattle.ae_seq.specs.Typing.{all_in_size, item_types, judged, judged_func, node_type, param_types, refused, refused_line, type_at};

use crate::line_type::{arg_types, item_type, op_type};
use crate::{Func, Node, Program};
use ae_seqtype::SeqType;
use std::alloc::{AllocError, Global};
use std::marker::Model;
use thiserror::Error;

/// Why a program is refused.
#[derive(Debug, Drop, Error)]
pub enum CheckFault {
    /// The first line without a type, where no earlier line is too large.
    #[error("line {line} has no type")]
    BadType { line: u32 },
    /// The first line whose type is not in size, where neither it nor an earlier line has no type.
    #[error("the type of line {line} is too large")]
    Large { line: u32 },
    #[error("out of memory")]
    Memory,
}

impl From<AllocError> for CheckFault {
    ghost use Rattle.std.specs.Prelude.{◌≡◌};
    ghost use Rattle.ae_seq.specs.declared.checker.CheckFault.TheVariants.{Memory};

    ghost from_gives = { λ _ fault. fault ≡ Memory };

    fn from(_: AllocError) -> CheckFault {
        CheckFault::Memory
    }
}

/// A program whose lines all have a type in size, with the types of its items.
#[derive(Drop)]
pub struct Typed {
    program: Program,
    types: Vec<Vec<SeqType>>,
}

impl Model for Typed {
    ghost use Rattle.ae_seq.specs.Accepted.{IsAccepted};
    ghost use Rattle.ae_seq.specs.ProgramTree.{program_tree};
    ghost use Rattle.ae_seq.specs.Trees.{types_of};
    ghost use Rattle.ae_seq.specs.declared.program.Program.{Program};
    ghost use Rattle.ae_seqtype.specs.contracts.seq_type.SeqType as e;
    ghost use Rattle.std.specs.Coded.{codes};

    ghost Value = { Program };

    ghost coded = { Prim.hlevel (codes, e.the_row.coded) };

    ghost view = { λ t. t.program };

    ghost invariant = { λ t. IsAccepted (program_tree t.program) (types_of t.types.items) };
}

/// Finds the types of a program's items, or the first line that is refused, in the order of the lines (docs/LANGUAGE.md).
/// `BadType` comes exactly where that line has no type, `Large` where its type is not in size.
pub fn check(alloc: Global, p: Program) -> Result<Typed, CheckFault>
    requires { IsTrue (formed (program_tree p)) }
    ensures program { IfOk result (λ t. t ≡ p) }
    ensures accepted { IfOk result (λ t. refused_line (program_tree p) ≡ None) }
    ensures cause { IfErr result (λ e. IsCausedBy e (refused_line (program_tree p))) }
{
    let types = all_types(alloc, p.funcs.as_slice())?;
    Ok(Typed { program: p, types })
}

impl Typed {
    /// The program, formed and well typed.
    pub fn program(&self) -> &Program
        ensures program { result.now ≡ self.now }
        ensures is_formed { IsTrue (formed (program_tree self.now)) }
        ensures accepted { refused_line (program_tree self.now) ≡ None }
    {
        &self.program
    }

    /// The type of an item of a function, which is in size; None exactly where there is no such item.
    pub fn ty(&self, func: u32, item: u32) -> Option<&SeqType>
        ensures ty { option_lent result ≡ type_at (program_tree self.now) func item }
        ensures there { is_some result ≡ is_item (program_tree self.now) func item }
        ensures sized { IfSome result (λ t. IsTrue (in_size (seq_tree t.now))) }
    {
        kept_type(&self.types, func, item)
    }
}

// The type that is kept of an item of a function.
fn kept_type(types: &[Vec<SeqType>], func: u32, item: u32) -> Option<&SeqType>
    ensures { option_lent result ≡ kept_type (types_of types.now) func item }
{
    let func = func as usize;
    if func >= types.len() {
        return None;
    }
    item_type(&types[func], item)
}

// The type of a node after these items.
fn node_type(
    alloc: Global,
    funcs: &[Func],
    types: &[Vec<SeqType>],
    items: &[SeqType],
    node: &Node,
) -> Result<Option<SeqType>, AllocError>
    requires { IsTrue (all_in_size (type_trees items.now)) }
    ensures { IfOk result (λ t. option_type t
        ≡ node_type (signatures_by (func_trees funcs.now) (types_of types.now)) (map Some (type_trees items.now)) (node_tree node.now)) }
{
    let Some(args) = arg_types(alloc, items, &node.args)? else {
        return Ok(None);
    };
    op_type(alloc, funcs, types, &node.op, &args)
}

// The types of the parameters, where all are in size.
fn params(alloc: Global, func: &Func) -> Result<Option<Vec<SeqType>>, AllocError>
    ensures some { IfOk result (λ ts. IfSome ts (λ v. type_trees v.items ≡ param_types (func_tree func.now))) }
    ensures sized { IfOk result (λ ts. IsSome ts ↔ IsTrue (all_in_size (param_types (func_tree func.now)))) }
{
    let mut found = Vec::new(alloc);
    for param in &func.params {
        if !param.ty.in_size() {
            return Ok(None);
        }
        found.push(param.ty.copy(alloc)?)?;
    }
    Ok(Some(found))
}

// The types of a function's items, where the functions above it have these.
fn check_func(
    alloc: Global,
    funcs: &[Func],
    types: &[Vec<SeqType>],
    func: &Func,
) -> Result<Vec<SeqType>, CheckFault>
    ensures fine { IfOk result (λ ts. refused (judged_func (signatures_by (func_trees funcs.now) (types_of types.now)) (func_tree func.now)) ≡ None) }
    ensures types { IfOk result (λ ts. item_types (signatures_by (func_trees funcs.now) (types_of types.now)) (func_tree func.now) ≡ map Some (type_trees ts.items)) }
    ensures sized { IfOk result (λ ts. IsTrue (all_in_size (type_trees ts.items))) }
    ensures cause { IfErr result (λ e. IsCausedBy e
        (refused (judged_func (signatures_by (func_trees funcs.now) (types_of types.now)) (func_tree func.now)))) }
{
    let Some(mut items) = params(alloc, func)? else {
        return Err(CheckFault::Large { line: func.line });
    };
    for node in &func.nodes {
        let Some(ty) = node_type(alloc, funcs, types, &items, node)? else {
            return Err(CheckFault::BadType { line: node.line });
        };
        if !ty.in_size() {
            return Err(CheckFault::Large { line: node.line });
        }
        append_type(&mut items, ty)?;
    }
    Ok(items)
}

// The types of the items of these functions, or the first line that is refused.
fn all_types(alloc: Global, funcs: &[Func]) -> Result<Vec<Vec<SeqType>>, CheckFault>
    ensures fine { IfOk result (λ ts. refused (judged [] (func_trees funcs.now)) ≡ None) }
    ensures types { IfOk result (λ ts. HaveTypes [] (func_trees funcs.now) (types_of ts.items)) }
    ensures sized { IfOk result (λ ts. AllSized (types_of ts.items)) }
    ensures cause { IfErr result (λ e. IsCausedBy e (refused (judged [] (func_trees funcs.now)))) }
{
    let mut types = Vec::new(alloc);
    for func in funcs {
        let own = check_func(alloc, funcs, &types, func)?;
        append(&mut types, own)?;
    }
    Ok(types)
}

fn append(types: &mut Vec<Vec<SeqType>>, own: Vec<SeqType>) -> Result<(), AllocError>
    ensures { OnOk result (types_of types.new.items ≡ types_of types.old.items ++ type_trees own.items ∷ []) }
{
    types.push(own)?;
    Ok(())
}

fn append_type(items: &mut Vec<SeqType>, ty: SeqType) -> Result<(), AllocError>
    ensures { OnOk result (type_trees items.new.items ≡ type_trees items.old.items ++ seq_tree ty ∷ []) }
{
    items.push(ty)?;
    Ok(())
}
