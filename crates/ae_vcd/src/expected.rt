// Where a reader stands.

ghost use Rattle.std.specs.Prelude.{◌≡◌};
ghost use Rattle.ae_vcd.specs.Forms.{is_other};
ghost use Rattle.ae_vcd.specs.Held.{behind, behind_head};

use crate::shapes::{is_end, is_other, width};
use crate::wave::MOST_VARIABLES;

/// What the next word has to be.
#[derive(Clone, Copy)]
pub enum Expected {
    /// The first word of a command.
    CommandHead,
    /// The kind of a variable.
    KindWord,
    /// Its width.
    WidthWord,
    /// Its code, where this is its width.
    CodeWord(u32),
    /// Its name.
    NameWord(u32),
    /// A further word of a command, or its end.
    CommandRest,
    /// The end of the header.
    HeaderEnd,
    /// The first word of a piece.
    PieceHead,
    /// The code that gets this word.
    ValueCode(u64),
    /// A further word of a comment, or its end.
    CommentRest,
}

// What is expected behind the first word of a command.
fn behind_head(variables: usize, word: &[u8]) -> Option<Expected>
    ensures { result ≡ behind_head variables word.now }
{
    if word == b"$var".as_slice() {
        return if variables < MOST_VARIABLES {
            Some(Expected::KindWord)
        } else {
            None
        };
    }
    if word == b"$enddefinitions".as_slice() {
        return if variables > 0 {
            Some(Expected::HeaderEnd)
        } else {
            None
        };
    }
    if is_other(word) {
        Some(Expected::CommandRest)
    } else {
        None
    }
}

/// What is expected behind a word of which nothing is kept, where so many variables are declared; none where no dump
/// goes on so.
pub fn behind(expected: Expected, variables: usize, word: &[u8]) -> Option<Expected>
    ensures { result ≡ behind expected variables word.now }
{
    match expected {
        Expected::CommandHead => behind_head(variables, word),
        Expected::KindWord => Some(Expected::WidthWord),
        Expected::WidthWord => match width(word) {
            Some(width) => Some(Expected::CodeWord(width)),
            None => None,
        },
        Expected::CommandRest => Some(if is_end(word) {
            Expected::CommandHead
        } else {
            Expected::CommandRest
        }),
        Expected::CommentRest => Some(if is_end(word) {
            Expected::PieceHead
        } else {
            Expected::CommentRest
        }),
        _ => None,
    }
}
