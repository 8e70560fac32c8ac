// The words of a case.

ghost use Rattle.std.specs.Prelude.{IfSome};
ghost use Rattle.ae_word.specs.WordTable.{HasRange};

use ae_gather::Origin;
use ae_word::WordOp;
use std::alloc::{AllocError, Global};
use table_text::{names_width, number_at, operator};

/// The operator of a name, and of a number where it has one; a width that it names is 1 to 64.
pub fn op_named(name: &str, number: u32) -> Option<WordOp>
    ensures { IfSome result (λ op. HasRange op) }
{
    let op = operator(name, number)?;
    if names_width(op) { Some(op) } else { None }
}

/// Where the words of a move come from: `=w` is the fixed word w, and a number alone an element of the one input.
pub fn origins(alloc: Global, text: &str) -> Result<Vec<Origin>, AllocError> {
    let mut source = Vec::new(alloc);
    for word in text.split_whitespace() {
        source.push(match word.strip_prefix("=") {
            Some(fixed) => Origin::Fixed(u64::from(number_at(fixed, 0))),
            None => Origin::Word {
                input: 0,
                element: number_at(word, 0),
                word: 0,
            },
        })?;
    }
    Ok(source)
}
