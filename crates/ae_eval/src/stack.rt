// Words on a stack.

ghost use Rattle.std.specs.Prelude.{◌≡◌, ◌∷◌, ◌++◌, ◌+◌, ◌-◌, ◌*◌, ◌≤◌, ◌<◌, IfOk, IsTrue, OnOk, [], length, take, drop, replicate};
ghost use Rattle.ae_seqtype.specs.SeqTree.{in_size, repeated, seq_tree, words};
ghost use Rattle.ae_eval.specs.Stack.{paired};

use ae_seqtype::SeqType;
use std::alloc::{AllocError, Global};

/// Pushes a word.
pub fn push_word(stack: &mut Vec<u64>, word: u64) -> Result<(), AllocError>
    ensures { OnOk result (stack.new.items ≡ stack.old.items ++ word ∷ []) }
{
    stack.push(word)?;
    Ok(())
}

/// Pushes so many words from a place on again.
pub fn push_copy(stack: &mut Vec<u64>, start: usize, count: usize) -> Result<(), AllocError>
    requires { start + count ≤ length stack.old.items }
    ensures { OnOk result (stack.new.items ≡ stack.old.items ++ take count (drop start stack.old.items)) }
{
    for index in 0..count {
        let word = stack[start + index];
        push_word(stack, word)?;
    }
    Ok(())
}

/// Pushes words.
pub fn push_words(stack: &mut Vec<u64>, words: &[u64]) -> Result<(), AllocError>
    ensures { OnOk result (stack.new.items ≡ stack.old.items ++ words.now) }
{
    stack.extend_from_slice(words)?;
    Ok(())
}

/// Pushes zeros.
pub fn push_zeros(stack: &mut Vec<u64>, count: usize) -> Result<(), AllocError>
    ensures { OnOk result (stack.new.items ≡ stack.old.items ++ replicate count 0) }
{
    for _index in 0..count {
        push_word(stack, 0)?;
    }
    Ok(())
}

/// Pushes the words from a place on again and again.
pub fn push_copies(
    stack: &mut Vec<u64>,
    times: u32,
    start: usize,
    count: usize,
) -> Result<(), AllocError>
    requires { start + count ≤ length stack.old.items }
    ensures { OnOk result (stack.new.items ≡ stack.old.items ++ repeated times (take count (drop start stack.old.items))) }
{
    for _turn in 0..times {
        push_copy(stack, start, count)?;
    }
    Ok(())
}

/// Moves so many words from a place on down to a lower one, and drops all after them.
pub fn settle(stack: &mut Vec<u64>, base: usize, start: usize, count: usize)
    requires down { base ≤ start }
    requires room { start + count ≤ length stack.old.items }
    ensures { stack.new.items ≡ take base stack.old.items ++ take count (drop start stack.old.items) }
{
    stack.copy_within(start..start + count, base);
    stack.truncate(base + count);
}

/// Pushes so many pieces of the words from one place on, each before a piece of those from another.
pub fn push_paired(
    stack: &mut Vec<u64>,
    pieces: usize,
    first: usize,
    size: usize,
    second: usize,
    other: usize,
) -> Result<(), AllocError>
    requires first_room { first + pieces * size ≤ length stack.old.items }
    requires second_room { second + pieces * other ≤ length stack.old.items }
    ensures { OnOk result (stack.new.items ≡ stack.old.items
        ++ paired pieces size other (drop first stack.old.items) (drop second stack.old.items)) }
{
    for piece in 0..pieces {
        push_copy(stack, first + piece * size, size)?;
        push_copy(stack, second + piece * other, other)?;
    }
    Ok(())
}

/// Pushes an element of a sequence whose elements have a type and stand from a place on.
pub fn push_element(
    stack: &mut Vec<u64>,
    of: &SeqType,
    start: usize,
    index: u32,
) -> Result<(), AllocError>
    requires sized { IsTrue (in_size (seq_tree of.now)) }
    requires room { start + index * words (seq_tree of.now) + words (seq_tree of.now) ≤ length stack.old.items }
    ensures { OnOk result (stack.new.items ≡ stack.old.items
        ++ take (words (seq_tree of.now)) (drop (start + index * words (seq_tree of.now)) stack.old.items)) }
{
    let size = of.words() as usize;
    push_copy(stack, start + index as usize * size, size)
}

/// So many words from a place on.
pub fn words_at(
    alloc: Global,
    stack: &[u64],
    start: usize,
    count: usize,
) -> Result<Vec<u64>, AllocError>
    requires { start + count ≤ length stack.now }
    ensures { IfOk result (λ v. v.items ≡ take count (drop start stack.now)) }
{
    Vec::from_slice(alloc, &stack[start..start + count])
}
