// The program part of a text and what follows it.

ghost use Rattle.std.specs.Prelude.{◌≡◌, MatchOption};
ghost use Rattle.ae_fields.specs.Cut.{fields, said};
ghost use Rattle.ae_fields.specs.Parts.{is_mark, IsSplit, HasNoMark};

use crate::fields::{next_field, said};
use crate::lines::next_line;

// Whether a line says `%%` alone.
pub fn is_mark(line: &[u8]) -> bool
    ensures { result ≡ is_mark (fields (said line.now)) }
{
    match next_field(said(line)) {
        Some((field, after)) => field == b"%%".as_slice() && next_field(after).is_none(),
        None => false,
    }
}

/// The end of the program part, and where what follows its `%%` line begins; `None` exactly where no line is `%%`.
///
/// Both are numbers of bytes. The program part ends where the first `%%` line begins, or at the text's end.
pub fn split(text: &[u8]) -> (usize, Option<usize>)
    ensures { MatchOption result.1 (HasNoMark text.now result.0) (λ start. IsSplit text.now result.0 start) }
{
    let mut rest = text;
    while let Some((line, after)) = next_line(rest) {
        if is_mark(line) {
            return (text.len() - rest.len(), Some(text.len() - after.len()));
        }
        rest = after;
    }
    (text.len(), None)
}
