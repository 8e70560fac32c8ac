// Where the items of functions stand.

ghost use Rattle.std.specs.Prelude.{◌≡◌, ◌∷◌, [], ◌++◌, ◌+◌, ◌≤◌, ◌<◌, Some, OnOk, IfOk, IsTrue, length, slice_get, take};
ghost use Rattle.ae_seqtype.specs.SeqTree.{in_size, seq_tree};
ghost use Rattle.ae_seq.specs.ProgramTree.{program_tree};
ghost use Rattle.ae_eval.specs.Stack.{HaveStarts, starts_of, IsTyped, starts_from, types_in, words_of};

use ae_seq::Typed;
use ae_seqtype::SeqType;
use std::alloc::{AllocError, Global};

/// The type of an item of a function.
pub fn item_type(p: &Typed, func: usize, item: u32) -> &SeqType
    requires typed { IsTyped (program_tree p.now) }
    requires small { func < 4294967296 }
    requires there { item < length (types_in (program_tree p.now) func) }
    ensures is { slice_get (types_in (program_tree p.now) func) item ≡ Some (seq_tree result.now) }
    ensures sized { IsTrue (in_size (seq_tree result.now)) }
{
    let Some(ty) = p.ty(func as u32, item) else {
        unreachable!();
    };
    ty
}

/// How many items a function has.
fn count_items(p: &Typed, func: usize) -> u32
    requires typed { IsTyped (program_tree p.now) }
    requires known { func < length (program_tree p.now).funcs }
    ensures count { result ≡ length (types_in (program_tree p.now) func) }
    ensures few { result ≤ 4104 }
{
    let func = &p.program().funcs[func];
    (func.params.len() + func.nodes.len()) as u32
}

// Where the items of a function begin, and where they end.
fn func_starts(alloc: Global, p: &Typed, func: usize) -> Result<Vec<usize>, AllocError>
    requires typed { IsTyped (program_tree p.now) }
    requires known { func < length (program_tree p.now).funcs }
    ensures { IfOk result (λ v. v.items ≡ starts_from 0 (types_in (program_tree p.now) func)) }
{
    let mut found = Vec::new(alloc);
    let mut end = 0;
    found.push(end)?;
    for item in 0..count_items(p, func) {
        end += item_type(p, func, item).words() as usize;
        found.push(end)?;
    }
    Ok(found)
}

fn append(found: &mut Vec<Vec<usize>>, own: Vec<usize>) -> Result<(), AllocError>
    ensures { OnOk result (starts_of found.new.items ≡ starts_of found.old.items ++ own.items ∷ []) }
{
    found.push(own)?;
    Ok(())
}

/// For each function where its items begin, and where they end, counted in words from its first argument.
pub fn all_starts(alloc: Global, p: &Typed) -> Result<Vec<Vec<usize>>, AllocError>
    ensures { IfOk result (λ v. HaveStarts (program_tree p.now) (starts_of v.items)) }
{
    let mut found = Vec::new(alloc);
    for func in 0..p.program().funcs.len() {
        let own = func_starts(alloc, p, func)?;
        append(&mut found, own)?;
    }
    Ok(found)
}

/// The words of an item on the stack: their type and where they begin.
#[derive(Clone, Copy)]
pub struct Place<'a> {
    pub ty: &'a SeqType,
    pub start: usize,
}

/// Where an item of a function stands whose first argument stands at the base.
pub fn place_of<'a>(
    p: &'a Typed,
    starts: &[Vec<usize>],
    func: usize,
    item: u32,
    base: usize,
) -> Place<'a>
    requires typed { IsTyped (program_tree p.now) }
    requires starts { HaveStarts (program_tree p.now) (starts_of starts.now) }
    requires known { func < length (program_tree p.now).funcs }
    requires there { item < length (types_in (program_tree p.now) func) }
    requires room { base + words_of (take item (types_in (program_tree p.now) func)) < 18446744073709551616 }
    ensures is { slice_get (types_in (program_tree p.now) func) item ≡ Some (seq_tree result.ty.now) }
    ensures sized { IsTrue (in_size (seq_tree result.ty.now)) }
    ensures start { result.start ≡ base + words_of (take item (types_in (program_tree p.now) func)) }
{
    let ty = item_type(p, func, item);
    let start = base + starts[func][item as usize];
    Place { ty, start }
}
