// Types as they are spelled, in size or not.

use ae_seqtype::SeqType;
use ae_sttype::StType;
use ae_word::Atom;
use std::alloc::{AllocError, Global};

/// What is left of a text. What stands where a number should be is read as 0.
#[derive(Drop)]
pub struct Reader<'a> {
    rest: &'a [u8],
}

impl<'a> Reader<'a> {
    pub fn new(text: &'a str) -> Reader<'a> {
        Reader {
            rest: text.as_bytes(),
        }
    }

    // Goes over these bytes, if they come next, and says whether they did.
    fn skips(&mut self, bytes: &[u8]) -> bool {
        match self.rest.strip_prefix(bytes) {
            Some(rest) => {
                self.rest = rest;
                true
            }
            None => false,
        }
    }

    // Goes over a number, and one space behind it.
    fn number(&mut self) -> u32 {
        let mut number = 0u32;
        for _digit in 0..10 {
            match self.rest.split_first() {
                Some((digit, rest)) if digit.is_ascii_digit() => {
                    number = number
                        .saturating_mul(10)
                        .saturating_add(u32::from(digit.saturating_sub(b'0')));
                    self.rest = rest;
                }
                _ => break,
            }
        }
        self.skips(b" ");
        number
    }

    /// An atom, `u8`, `i8` or `(A,B)`, with pairs in it at most so deep.
    pub fn atom(&mut self, alloc: Global, levels: u32) -> Result<Atom, AllocError> {
        if levels > 0 && self.skips(b"(") {
            let first = Box::new(alloc, self.atom(alloc, levels - 1)?)?;
            self.skips(b",");
            let second = Box::new(alloc, self.atom(alloc, levels - 1)?)?;
            self.skips(b")");
            return Ok(Atom::Pair(first, second));
        }
        if self.skips(b"i") {
            return Ok(Atom::Int(self.number()));
        }
        self.skips(b"u");
        Ok(Atom::Word(self.number()))
    }

    /// A sequence type, as `[2][4](u8,i16)`, at most so deep.
    pub fn sequence(&mut self, alloc: Global, levels: u32) -> Result<SeqType, AllocError> {
        if levels > 0 && self.skips(b"[") {
            let count = self.number();
            self.skips(b"]");
            let of = Box::new(alloc, self.sequence(alloc, levels - 1)?)?;
            return Ok(SeqType::Seq(count, of));
        }
        Ok(SeqType::Atom(self.atom(alloc, 32)?))
    }

    /// A space-time type, as `TSeq 2 1 SSeq 2 u8`, at most so deep.
    pub fn layout(&mut self, alloc: Global, levels: u32) -> Result<StType, AllocError> {
        let in_time = self.skips(b"TSeq ");
        if levels == 0 || !(in_time || self.skips(b"SSeq ")) {
            return Ok(StType::Atom(self.atom(alloc, 32)?));
        }
        let n = self.number();
        let i = if in_time { self.number() } else { 0 };
        let of = Box::new(alloc, self.layout(alloc, levels - 1)?)?;
        Ok(if in_time {
            StType::T { n, i, of }
        } else {
            StType::S { n, of }
        })
    }
}
