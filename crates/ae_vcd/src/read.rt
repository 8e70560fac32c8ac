// The wave of a text.

ghost use Rattle.std.specs.Prelude.{◌≡◌, ℕ, ◌<◌, ◌≤◌, ◌^◌, List, length, Some, Err, IfOk};
ghost use Rattle.ae_vcd.specs.declared.read.VcdFault.TheVariants.{BadWord, Large};
ghost use Rattle.ae_vcd.specs.Waves.{IsFormedWave, WaveTree, most_variables, size_limit, wave_tree};
ghost use Rattle.ae_vcd.specs.TextWords.{text_words};
ghost use Rattle.ae_vcd.specs.Readings.{IsBadWord, IsVcd};
ghost use Rattle.ae_vcd.specs.Machine.{State, go_on, start};
ghost use Rattle.ae_vcd.specs.Held.{Follows, IsReader};
ghost use Rattle.ae_vcd.specs.Reads.{EndsIn, size_of_wave};

use crate::body::Recorded;
use crate::expected::Expected;
use crate::header::Declared;
use crate::reader::Reader;
use crate::wave::{SIZE_LIMIT, Wave};
use crate::words::next_word;
use ae_keyed::Keyed;
use std::alloc::Global;

/// Why a text has no wave.
#[derive(Clone, Copy, Debug)]
pub enum VcdFault {
    /// The first word with which no dump begins; the number of words where the text ends too early. Words count from 0.
    BadWord { at: u32 },
    /// The text is a dump, and its wave is past the limit: a number and the words of all variables for each time.
    Large { size: u64 },
    /// There was no memory for it.
    Memory,
}

// The variables of a header, and the times and words of a body.
fn wave_of(declared: Declared, recorded: Recorded) -> Wave
    ensures names { result.names ≡ declared.names }
    ensures widths { result.widths ≡ declared.widths }
    ensures times { result.times ≡ recorded.times }
    ensures words { result.words ≡ recorded.words }
{
    Wave {
        names: declared.names,
        widths: declared.widths,
        times: recorded.times,
        words: recorded.words,
    }
}

// The wave of what a reader has read.
fn finish(reader: Reader, at: u32) -> Result<Wave, VcdFault>
    requires reader { IsReader reader }
    requires times { reader.recorded.count < 2 ^ 32 }
    requires variables { length reader.declared.numbers.items ≤ most_variables }
    ensures { (text : List ℕ) (s : State) → go_on (Some start) (text_words text) ≡ Some s → Follows reader s → at ≡ length (text_words text) → EndsIn text result }
{
    let Reader {
        expected,
        code: _,
        declared,
        mut recorded,
    } = reader;
    let Expected::PieceHead = expected else {
        return Err(VcdFault::BadWord { at });
    };
    let size = recorded.count * (1 + declared.numbers.len() as u64);
    if size > SIZE_LIMIT {
        return Err(VcdFault::Large { size });
    }
    match recorded.close(&declared.numbers) {
        Ok(()) => Ok(wave_of(declared, recorded)),
        Err(_) => Err(VcdFault::Memory),
    }
}

/// The wave of a text of fewer than 2^32 bytes. `BadWord` comes exactly where the text is no dump, and `Large` exactly
/// where it is one whose wave is past the limit.
pub fn read_vcd(alloc: Global, text: &[u8]) -> Result<Wave, VcdFault>
    requires { length text.now < 2 ^ 32 }
    ensures wave { IfOk result (λ w. IsVcd text.now (wave_tree w) × IsFormedWave (wave_tree w)) }
    ensures bad { (at : ℕ) → result ≡ Err (BadWord at) → IsBadWord (text_words text.now) at }
    ensures large { (size : ℕ) → result ≡ Err (Large size) → (w : WaveTree) × IsVcd text.now w × (size ≡ size_of_wave w) × (size_limit < size) }
{
    let mut reader = Reader::new(alloc, Keyed::behind(text));
    let mut at = 0;
    let mut rest = text;
    while let Some((word, after)) = next_word(rest) {
        match reader.step(alloc, word) {
            Ok(true) => {}
            Ok(false) => return Err(VcdFault::BadWord { at }),
            Err(_) => return Err(VcdFault::Memory),
        }
        at += 1;
        rest = after;
    }
    finish(reader, at)
}
