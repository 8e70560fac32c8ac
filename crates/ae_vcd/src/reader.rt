// A reader of dumps, word by word.

ghost use Rattle.std.specs.Prelude.{◌≡◌, ◌+◌, ◌<◌, ◌≤◌, ◌^◌, ◌∷◌, ◌||◌, nat_eq, true, false, IfOk, OnOk, IsTrue, if◌then◌else◌};
ghost use Rattle.ae_vcd.specs.Forms.{is_binary_digit};
ghost use Rattle.ae_vcd.specs.Machine.{State, start, step};
ghost use Rattle.ae_vcd.specs.declared.expected.Expected.TheVariants.{CodeWord, HeaderEnd, NameWord, PieceHead, ValueCode};
ghost use Rattle.ae_vcd.specs.Held.{Answers, Follows, IsReader, is_marked, is_passed};

use crate::body::Recorded;
use crate::expected::{Expected, behind};
use crate::header::Declared;
use crate::shapes::{binary, fits, is_code, is_comment, is_end, is_name, is_silent, time};
use ae_keyed::Keyed;
use std::alloc::{AllocError, Global};

// The word that the digit of a bit gives.
fn word_of_bit(bit: u8) -> u64
    ensures { result ≡ (if nat_eq bit 49 then 1 else 0) }
{
    if bit == b'1' { 1 } else { 0 }
}

/// What has been read of a dump.
#[derive(Drop)]
pub struct Reader {
    /// What the next word has to be.
    pub expected: Expected,
    /// The code of a variable whose name comes next.
    pub code: Vec<u8>,
    pub declared: Declared,
    pub recorded: Recorded,
}

impl Reader {
    /// A reader before the first word.
    pub fn new(alloc: Global, keyed: Keyed) -> Reader
        ensures { Follows result start }
    {
        Reader {
            expected: Expected::CommandHead,
            code: Vec::new(alloc),
            declared: Declared::new(alloc, keyed),
            recorded: Recorded::new(alloc),
        }
    }

    // A word of which nothing is kept.
    fn pass(&mut self, word: &[u8]) -> bool
        requires { is_passed self.old.expected ≡ true }
        ensures answer { (s : State) → Follows self.old s → Answers result self.new (step s word.now) }
        ensures count { self.new.recorded.count ≡ self.old.recorded.count }
    {
        match behind(self.expected, self.declared.numbers.len(), word) {
            Some(next) => {
                self.expected = next;
                true
            }
            None => false,
        }
    }

    // The code of a variable of this width.
    fn code(&mut self, word: &[u8], width: u32) -> Result<bool, AllocError>
        requires reader { IsReader self.old }
        requires here { self.old.expected ≡ CodeWord width }
        ensures answer { (s : State) → Follows self.old s → IfOk result (λ b. Answers b self.new (step s word.now)) }
        ensures count { self.new.recorded.count ≡ self.old.recorded.count }
    {
        if !is_code(word) {
            return Ok(false);
        }
        if !self.declared.agrees(word, width) {
            return Ok(false);
        }
        self.code.clear();
        self.code.extend_from_slice(word)?;
        self.expected = Expected::NameWord(width);
        Ok(true)
    }

    // The name of a variable of this width.
    fn name(&mut self, alloc: Global, word: &[u8], width: u32) -> Result<bool, AllocError>
        requires { self.old.expected ≡ NameWord width }
        ensures answer { (s : State) → Follows self.old s → IfOk result (λ b. Answers b self.new (step s word.now)) }
        ensures count { self.new.recorded.count ≡ self.old.recorded.count }
    {
        if !is_name(word) {
            return Ok(false);
        }
        self.declared.add(alloc, &self.code, width, word)?;
        self.expected = Expected::CommandRest;
        Ok(true)
    }

    // The end of the header.
    fn begin(&mut self, word: &[u8]) -> Result<bool, AllocError>
        requires { self.old.expected ≡ HeaderEnd }
        ensures answer { (s : State) → Follows self.old s → IfOk result (λ b. Answers b self.new (step s word.now)) }
        ensures count { self.new.recorded.count ≡ self.old.recorded.count }
    {
        if !is_end(word) {
            return Ok(false);
        }
        self.recorded.begin(self.declared.codes.len())?;
        self.expected = Expected::PieceHead;
        Ok(true)
    }

    // A time: `#` and digits.
    fn time(&mut self, digits: &[u8]) -> Result<bool, AllocError>
        requires reader { IsReader self.old }
        requires here { self.old.expected ≡ PieceHead }
        requires room { self.old.recorded.count < 2 ^ 32 }
        ensures answer { (s : State) → Follows self.old s → IfOk result (λ b. Answers b self.new (step s (35 ∷ digits.now))) }
        ensures count { OnOk result (self.new.recorded.count ≤ self.old.recorded.count + 1) }
    {
        let Some(time) = time(digits) else {
            return Ok(false);
        };
        let taken = self.recorded.advance(time, &self.declared.numbers)?;
        Ok(taken)
    }

    // A bit: `0` or `1` and a code.
    fn bit(&mut self, bit: u8, code: &[u8]) -> bool
        requires reader { IsReader self.old }
        requires here { self.old.expected ≡ PieceHead }
        requires bit { IsTrue (is_binary_digit bit) }
        ensures answer { (s : State) → Follows self.old s → Answers result self.new (step s (bit ∷ code.now)) }
        ensures count { self.new.recorded.count ≡ self.old.recorded.count }
    {
        if !self.recorded.is_timed() {
            return false;
        }
        let Some(slot) = self.declared.find(code) else {
            return false;
        };
        if slot.width != 1 {
            return false;
        }
        self.recorded.latest[slot.number] = word_of_bit(bit);
        true
    }

    // A binary word, whose code comes next.
    fn binary(&mut self, letter: u8, digits: &[u8]) -> bool
        requires here { self.old.expected ≡ PieceHead }
        requires letter { IsTrue (nat_eq letter 98 || nat_eq letter 66) }
        ensures answer { (s : State) → Follows self.old s → Answers result self.new (step s (letter ∷ digits.now)) }
        ensures count { self.new.recorded.count ≡ self.old.recorded.count }
    {
        if !self.recorded.is_timed() {
            return false;
        }
        match binary(digits) {
            Some(value) if fits(value, self.declared.widest) => {
                self.expected = Expected::ValueCode(value);
                true
            }
            _ => false,
        }
    }

    // The code that gets a word.
    fn value(&mut self, code: &[u8], value: u64) -> bool
        requires reader { IsReader self.old }
        requires here { self.old.expected ≡ ValueCode value }
        ensures answer { (s : State) → Follows self.old s → Answers result self.new (step s code.now) }
        ensures count { self.new.recorded.count ≡ self.old.recorded.count }
    {
        let Some(slot) = self.declared.find(code) else {
            return false;
        };
        if !fits(value, slot.width) {
            return false;
        }
        self.recorded.latest[slot.number] = value;
        self.expected = Expected::PieceHead;
        true
    }

    // A word between pieces that is no time and no value.
    fn other(&mut self, word: &[u8]) -> bool
        requires here { self.old.expected ≡ PieceHead }
        requires unmarked { is_marked word.now ≡ false }
        ensures answer { (s : State) → Follows self.old s → Answers result self.new (step s word.now) }
        ensures count { self.new.recorded.count ≡ self.old.recorded.count }
    {
        if is_comment(word) {
            self.expected = Expected::CommentRest;
            return true;
        }
        is_silent(word)
    }

    // The first word of a piece.
    fn piece(&mut self, word: &[u8]) -> Result<bool, AllocError>
        requires reader { IsReader self.old }
        requires here { self.old.expected ≡ PieceHead }
        requires room { self.old.recorded.count < 2 ^ 32 }
        ensures answer { (s : State) → Follows self.old s → IfOk result (λ b. Answers b self.new (step s word.now)) }
        ensures count { OnOk result (self.new.recorded.count ≤ self.old.recorded.count + 1) }
    {
        let [first, rest @ ..] = word else {
            return Ok(false);
        };
        if *first == b'#' {
            return self.time(rest);
        }
        if *first == b'0' || *first == b'1' {
            return Ok(self.bit(*first, rest));
        }
        if *first == b'b' || *first == b'B' {
            return Ok(self.binary(*first, rest));
        }
        Ok(self.other(word))
    }

    /// Takes a word, if some dump goes on so.
    pub fn step(&mut self, alloc: Global, word: &[u8]) -> Result<bool, AllocError>
        requires reader { IsReader self.old }
        requires room { self.old.recorded.count < 2 ^ 32 }
        ensures answer { (s : State) → Follows self.old s → IfOk result (λ b. Answers b self.new (step s word.now)) }
        ensures count { OnOk result (self.new.recorded.count ≤ self.old.recorded.count + 1) }
    {
        match self.expected {
            Expected::CodeWord(width) => self.code(word, width),
            Expected::NameWord(width) => self.name(alloc, word, width),
            Expected::HeaderEnd => self.begin(word),
            Expected::PieceHead => self.piece(word),
            Expected::ValueCode(value) => Ok(self.value(word, value)),
            _ => Ok(self.pass(word)),
        }
    }
}
