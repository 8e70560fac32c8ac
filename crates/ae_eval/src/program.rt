// The values of programs.

ghost use Rattle.std.specs.Prelude.{◌≡◌, ◌∷◌, [], ◌++◌, ◌<◌, ◌↔◌, IsTrue, OnOk, IfOk, Some, length, map, slice_get};
ghost use Rattle.std.specs.List.{concat};
ghost use Rattle.ae_seqtype.specs.SeqTree.{SeqTree};
ghost use Rattle.ae_seqtype.specs.ValueTree.{Fit, flat};
ghost use Rattle.ae_seq.specs.ProgramTree.{program_tree};
ghost use Rattle.ae_seq.specs.Meaning.{at, mean};
ghost use Rattle.ae_eval.specs.Stack.{AllFit, FitIn, HaveStarts, IsTyped, starts_of, types_in, values_of, values_in};
ghost use Rattle.ae_eval.specs.Lines.{input_types, last_func, output_types, results_in, results_types};

use crate::functions::eval_func;
use crate::lines::{params, results};
use crate::stack::{push_words, words_at};
use crate::starts::{all_starts, place_of};
use ae_seq::Typed;
use ae_seqtype::Value;
use std::alloc::{AllocError, Global};
use std::marker::Model;

/// Whether there is one value for each parameter of the program function, in order, and each fits its type.
pub fn fits(p: &Typed, inputs: &[Value]) -> bool
    ensures { IsTrue result ↔ AllFit (input_types (program_tree p.now)) inputs.now }
{
    let params = params(p, last_func(p));
    if params.len() != inputs.len() {
        return false;
    }
    for (index, input) in inputs.iter().enumerate() {
        if !input.fits(&params[index].ty) {
            return false;
        }
    }
    true
}

/// A program that is ready to be evaluated, row after row: where the items of its functions stand is worked out once.
#[derive(Drop)]
pub struct Evaluator<'a> {
    program: &'a Typed,
    starts: Vec<Vec<usize>>,
}

impl<'a> Model for Evaluator<'a> {
    ghost use Rattle.std.specs.Coded.{codes};
    ghost use Rattle.ae_seqtype.specs.contracts.seq_type.SeqType as e;
    ghost use Rattle.ae_seq.specs.declared.program.Program.{Program};
    ghost use Rattle.ae_seq.specs.ProgramTree.{program_tree};
    ghost use Rattle.ae_eval.specs.Stack.{HaveStarts, starts_of};

    ghost Value = { Program };

    ghost coded = { Prim.hlevel (codes, e.the_row.coded) };

    ghost view = { λ e. e.program.now };

    ghost invariant = { λ e. HaveStarts (program_tree e.program.now) (starts_of e.starts.items) };
}

impl Evaluator<'_> {
    /// Makes a program ready. An error comes only for want of memory.
    pub fn new(alloc: Global, program: &Typed) -> Result<Evaluator<'_>, AllocError>
        ensures { IfOk result (λ e. e ≡ program.now) }
    {
        let starts = all_starts(alloc, program)?;
        Ok(Evaluator { program, starts })
    }

    /// The program.
    pub fn program(&self) -> &Typed
        ensures { result.now ≡ self.now }
    {
        self.program
    }

    /// The results of the program function on a value for each of its parameters, in order (docs/LANGUAGE.md), each value
    /// as its words in row-major order. An error comes only for want of memory.
    pub fn eval(&self, alloc: Global, inputs: &[Value]) -> Result<Vec<Value>, AllocError>
        requires { AllFit (input_types (program_tree self.now)) inputs.now }
        ensures words { IfOk result (λ vs. vs.items
            ≡ map flat (mean (program_tree self.now) (values_of (input_types (program_tree self.now)) inputs.now))) }
        ensures fits { IfOk result (λ vs. AllFit (output_types (program_tree self.now)) vs.items) }
    {
        let last = last_func(self.program);
        let mut stack = Vec::new(alloc);
        push_inputs(&mut stack, inputs)?;
        eval_func(self.program, &self.starts, last, &mut stack, 0)?;
        outputs(alloc, self.program, &self.starts, last, &stack)
    }
}

/// The results of the program function on a value for each of its parameters, in order (docs/LANGUAGE.md), each value as
/// its words in row-major order; of many rows an evaluator answers them sooner. An error comes only for want of memory.
pub fn eval(alloc: Global, p: &Typed, inputs: &[Value]) -> Result<Vec<Value>, AllocError>
    requires { AllFit (input_types (program_tree p.now)) inputs.now }
    ensures words { IfOk result (λ vs. vs.items
        ≡ map flat (mean (program_tree p.now) (values_of (input_types (program_tree p.now)) inputs.now))) }
    ensures fits { IfOk result (λ vs. AllFit (output_types (program_tree p.now)) vs.items) }
{
    let evaluator = Evaluator::new(alloc, p)?;
    evaluator.eval(alloc, inputs)
}

// The number of the program function.
fn last_func(p: &Typed) -> usize
    ensures is { result ≡ last_func (program_tree p.now) }
    ensures known { result < length (program_tree p.now).funcs }
    ensures typed { IsTyped (program_tree p.now) }
{
    p.program().funcs.len() - 1
}

// Pushes the words of values, one value after another.
fn push_inputs(stack: &mut Vec<u64>, inputs: &[Value]) -> Result<(), AllocError>
    ensures { OnOk result (stack.new.items ≡ stack.old.items ++ concat inputs.now) }
{
    for input in inputs {
        push_words(stack, &input.words)?;
    }
    Ok(())
}

// The values of the items that a function answers, where those of all its items stand from the bottom on.
fn outputs(
    alloc: Global,
    p: &Typed,
    starts: &[Vec<usize>],
    func: usize,
    stack: &[u64],
) -> Result<Vec<Value>, AllocError>
    requires typed { IsTyped (program_tree p.now) }
    requires starts { HaveStarts (program_tree p.now) (starts_of starts.now) }
    requires known { func < length (program_tree p.now).funcs }
    requires fits { FitIn (types_in (program_tree p.now) func) stack.now }
    ensures words { IfOk result (λ vs. vs.items
        ≡ map flat (map (at (values_in (types_in (program_tree p.now) func) stack.now)) (results_in (program_tree p.now) func))) }
    ensures fits { IfOk result (λ vs. AllFit (results_types (program_tree p.now) func) vs.items) }
{
    let mut found = Vec::new(alloc);
    for item in results(p, func) {
        let value = output(alloc, p, starts, func, *item, stack)?;
        append(&mut found, value)?;
    }
    Ok(found)
}

fn append(found: &mut Vec<Value>, value: Value) -> Result<(), AllocError>
    ensures { OnOk result (found.new.items ≡ found.old.items ++ value ∷ []) }
{
    found.push(value)?;
    Ok(())
}

// The value of an item.
fn output(
    alloc: Global,
    p: &Typed,
    starts: &[Vec<usize>],
    func: usize,
    item: u32,
    stack: &[u64],
) -> Result<Value, AllocError>
    requires typed { IsTyped (program_tree p.now) }
    requires starts { HaveStarts (program_tree p.now) (starts_of starts.now) }
    requires known { func < length (program_tree p.now).funcs }
    requires there { item < length (types_in (program_tree p.now) func) }
    requires fits { FitIn (types_in (program_tree p.now) func) stack.now }
    ensures words { IfOk result (λ v. v ≡ flat (at (values_in (types_in (program_tree p.now) func) stack.now) item)) }
    ensures fits { IfOk result (λ v. (t : SeqTree) → slice_get (types_in (program_tree p.now) func) item ≡ Some t → Fit t v) }
{
    let place = place_of(p, starts, func, item, 0);
    Ok(Value {
        words: words_at(alloc, stack, place.start, place.ty.words() as usize)?,
    })
}
