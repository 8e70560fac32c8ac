// The job `eval`.

ghost use Rattle.std.specs.Prelude.{◌≡◌, [], ◌∷◌, ◌++◌, ◌<◌, ◌≤◌, ◌^◌, List, ℕ, length, flat_map, sum_by, IfOk, OnOk, string_bytes};
ghost use Rattle.std.specs.List.{concat};
ghost use Rattle.ae_seqtype.specs.ValueTree.{flat};
ghost use Rattle.ae_seq.specs.ProgramTree.{program_tree};
ghost use Rattle.ae_seq.specs.Typing.{type_at};
ghost use Rattle.ae_seq.specs.Meaning.{mean};
ghost use Rattle.ae_fields.specs.Rows.{rows};
ghost use Rattle.ae_eval.specs.Stack.{AllFit, FitIn, IsTyped, values_of};
ghost use Rattle.ae_eval.specs.Lines.{input_types, last_func};
ghost use Rattle.ae_play.specs.Lines.{spaced};
ghost use Rattle.ae_rewrite.specs.Interface.{result_types};
ghost use Rattle.ae_jobs.specs.EvalRows.{AreRows, values_in_row};
ghost use Rattle.ae_jobs.specs.EvalTexts.{IsEvalOf, IsEvaluated, eval_text, type_words, words_line};

use crate::reply::{RUN_LIMIT, Reply, refused, refused_program};
use crate::status::Status;
use crate::widths::input_widths;
use ae_compile::{OutOfMemory, typed};
use ae_eval::Evaluator;
use ae_parse::{RowFault, read_rows};
use ae_seq::Typed;
use ae_seqtype::Value;
use itoa::Buffer;
use std::alloc::{AllocError, Global};

// The number of the program function.
fn last_func(p: &Typed) -> u32
    ensures is { result ≡ last_func (program_tree p.now) }
    ensures known { result < length (program_tree p.now).funcs }
    ensures typed { IsTyped (program_tree p.now) }
{
    (p.program().funcs.len() - 1) as u32
}

// How many words an item of a function has.
fn item_words(p: &Typed, func: u32, item: u32) -> u64
    ensures is { result ≡ type_words (type_at (program_tree p.now) func item) }
    ensures few { result ≤ 16384 }
{
    match p.ty(func, item) {
        Some(ty) => u64::from(ty.words()),
        None => 0,
    }
}

// How many words all results have.
fn count_results(p: &Typed) -> u64
    ensures is { result ≡ sum_by type_words (result_types (program_tree p.now)) }
    ensures few { result ≤ 131072 }
{
    let last = last_func(p);
    let mut count = 0;
    for item in &p.program().funcs[last as usize].results {
        count += item_words(p, last, *item);
    }
    count
}

// The value with these words, behind others.
fn push_value(values: &mut Vec<Value>, alloc: Global, words: &[u64]) -> Result<(), AllocError>
    ensures { OnOk result (values.new.items ≡ values.old.items ++ words.now ∷ []) }
{
    let words = Vec::from_slice(alloc, words)?;
    values.push(Value { words })?;
    Ok(())
}

// The values of a row, one for each parameter.
fn row_values(alloc: Global, p: &Typed, row: &[u64]) -> Result<Vec<Value>, AllocError>
    requires { FitIn (input_types (program_tree p.now)) row.now }
    ensures fits { IfOk result (λ vs. AllFit (input_types (program_tree p.now)) vs.items) }
    ensures values { IfOk result (λ vs. values_of (input_types (program_tree p.now)) vs.items ≡ values_in_row (program_tree p.now) row.now) }
{
    let last = last_func(p);
    let mut values = Vec::new(alloc);
    let mut rest = row;
    for param in &p.program().funcs[last as usize].params {
        let (own, after) = rest.split_at(param.ty.words() as usize);
        push_value(&mut values, alloc, own)?;
        rest = after;
    }
    Ok(values)
}

// The words of values, one value after another.
fn joined(alloc: Global, values: &[Value]) -> Result<Vec<u64>, AllocError>
    ensures { IfOk result (λ words. words.items ≡ concat values.now) }
{
    let mut words = Vec::new(alloc);
    for value in values {
        words.extend_from_slice(&value.words)?;
    }
    Ok(words)
}

// The words of all results on the values of a row.
fn row_results(
    alloc: Global,
    evaluator: &Evaluator<'_>,
    row: &[u64],
) -> Result<Vec<u64>, AllocError>
    requires { FitIn (input_types (program_tree evaluator.now)) row.now }
    ensures { IfOk result (λ words. words.items ≡ flat_map flat (mean (program_tree evaluator.now) (values_in_row (program_tree evaluator.now) row.now))) }
{
    let values = row_values(alloc, evaluator.program(), row)?;
    let results = evaluator.eval(alloc, &values)?;
    joined(alloc, &results)
}

// Words, each with a space before it.
fn write_words(out: &mut String, words: &[u64]) -> Result<(), AllocError>
    ensures { OnOk result (string_bytes out.new ≡ string_bytes out.old ++ spaced words.now) }
{
    for word in words {
        out.push_str(" ")?;
        out.push_str(Buffer::new().format(*word))?;
    }
    Ok(())
}

// The line of a row.
fn write_line(out: &mut String, words: &[u64]) -> Result<(), AllocError>
    ensures { OnOk result (string_bytes out.new ≡ string_bytes out.old ++ words_line words.now) }
{
    if let [first, rest @ ..] = words {
        out.push_str(Buffer::new().format(*first))?;
        write_words(out, rest)?;
    }
    out.push_str("\n")?;
    Ok(())
}

// The lines of rows of words that are right.
fn eval_text(alloc: Global, p: &Typed, words: &[u64], columns: usize) -> Result<String, AllocError>
    requires typed { IsTyped (program_tree p.now) }
    requires rows { (table : List (List (List ℕ))) × AreRows (program_tree p.now) columns table words.now }
    ensures { IfOk result (λ text. (table : List (List (List ℕ))) → AreRows (program_tree p.now) columns table words.now
        → string_bytes text ≡ eval_text (program_tree p.now) table) }
{
    let evaluator = Evaluator::new(alloc, p)?;
    let mut out = String::new(alloc);
    let mut rest = words;
    for _ in 0..words.len() / columns {
        let (row, after) = rest.split_at(columns);
        let results = row_results(alloc, &evaluator, row)?;
        write_line(&mut out, &results)?;
        rest = after;
    }
    Ok(out)
}

// The reply to rows of words that are right.
fn eval_rows(alloc: Global, p: &Typed, words: &[u64], columns: usize) -> Result<Reply, OutOfMemory>
    requires typed { IsTyped (program_tree p.now) }
    requires rows { (table : List (List (List ℕ))) × AreRows (program_tree p.now) columns table words.now }
    ensures { IfOk result (λ reply. (table : List (List (List ℕ))) → AreRows (program_tree p.now) columns table words.now
        → IsEvalOf (program_tree p.now) table reply.status (string_bytes reply.text)) }
{
    let count = words.len() / columns;
    let size = count as u64 * (1 + count_results(p));
    if size > RUN_LIMIT {
        return refused(alloc, Status::LongRun { size });
    }
    let text = eval_text(alloc, p, words, columns)?;
    Ok(Reply {
        status: Status::Ok,
        text,
    })
}

/// Evaluates a program on the values of each row of words: a line for each row, with the words of all results. Rows that
/// are not right are refused before a run that is too long, and that before anything is evaluated; without memory there
/// is no reply.
pub fn evaluate(alloc: Global, p: &Typed, rest: &[u8]) -> Result<Reply, OutOfMemory>
    requires { length rest.now < 2 ^ 32 }
    ensures { IfOk result (λ reply. IsEvalOf (program_tree p.now) (rows rest.now) reply.status (string_bytes reply.text)) }
{
    let widths = input_widths(alloc, p.program())?;
    match read_rows(alloc, rest, widths.as_slice()) {
        Ok(table) => eval_rows(alloc, p, table.words.as_slice(), table.columns as usize),
        Err(RowFault::BadWords { row, column }) => refused(alloc, Status::BadWords { row, column }),
        Err(RowFault::Memory) => Err(OutOfMemory),
    }
}

/// The words of the program's results on the rows, or a refusal, the program's before those of the rows; without memory there
/// is no reply.
pub fn eval(alloc: Global, part: &[u8], rest: &[u8]) -> Result<Reply, OutOfMemory>
    requires part { length part.now < 4294967295 }
    requires rest { length rest.now < 2 ^ 32 }
    ensures { IfOk result (λ reply. IsEvaluated part.now (rows rest.now) reply.status (string_bytes reply.text)) }
{
    match typed(alloc, part) {
        Ok(p) => evaluate(alloc, &p, rest),
        Err(fault) => refused_program(alloc, fault),
    }
}
