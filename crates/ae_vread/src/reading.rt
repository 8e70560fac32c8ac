// What readers have read, and steps over tokens that they share.

ghost use Rattle.std.specs.Prelude.{◌≡◌, ◌<◌, ◌+◌, ◌^◌, length, drop, true, false, Some, None, IfErr, IfOk, IfSome, IfNone, OnOk, option_map};
ghost use Rattle.ae_vtoken.specs.Ahead.{ahead};
ghost use Rattle.ae_vmodule.specs.Held.{held};
ghost use Rattle.ae_vmodule.specs.Stacks.{size_of};
ghost use Rattle.ae_vread.specs.TokenTests.{after_mark, after_word, first_name, first_number, is_mark_first, is_word_first, name_of_first, number_of_first};
ghost use Rattle.ae_vread.specs.Reading.{deeper};
ghost use Rattle.ae_vread.specs.Read.{Deepens, Fails, IsNamed, Steps};
ghost use Rattle.ae_vtoken.specs.Scan.{token_view};
ghost use Rattle.ae_vmodule.specs.Words.{Extends};

use ae_vmodule::{Stack, Words};
use ae_vtoken::{Key, Sign, Token, Tokens};
use std::alloc::{AllocError, AllocFailed};

/// Why nothing was read.
#[derive(Clone, Copy)]
pub enum ReadFault {
    Syntax,
    Memory,
}

impl From<AllocError> for ReadFault {
    ghost use Rattle.std.specs.Prelude.{◌≡◌};
    ghost use Rattle.ae_vread.specs.declared.reading.ReadFault.TheVariants.{Memory};

    ghost from_gives = { λ _ e. e ≡ Memory };

    fn from(_: AllocError) -> ReadFault {
        ReadFault::Memory
    }
}

impl<T: Drop> From<AllocFailed<T>> for ReadFault {
    ghost use Rattle.std.specs.Prelude.{◌≡◌};
    ghost use Rattle.ae_vread.specs.declared.reading.ReadFault.TheVariants.{Memory};

    ghost from_gives = { λ _ e. e ≡ Memory };

    fn from(_: AllocFailed<T>) -> ReadFault {
        ReadFault::Memory
    }
}

/// The names and pieces that were read so far, and the tokens behind them. There are fewer than 2 to the 32 symbols of pieces and
/// tokens together, and of names and tokens.
#[derive(Drop)]
pub struct Reader<'a> {
    pub words: Words<'a>,
    pub stack: Stack,
    pub tokens: Tokens<'a>,
    ghost symbols: { size_of (held stack) + length (ahead tokens) < 2 ^ 32 },
    ghost names: { length words + length (ahead tokens) < 2 ^ 32 },
}

impl Reader<'_> {
    /// Goes on behind the first token.
    pub fn skip(&mut self)
        ensures tokens { ahead self.new.tokens ≡ drop 1 (ahead self.old.tokens) }
        ensures stack { self.new.stack ≡ self.old.stack }
        ensures words { self.new.words ≡ self.old.words }
    {
        self.tokens = self.tokens.rest();
    }

    /// Goes on behind this sign, if it stands in front.
    pub fn mark(&mut self, sign: Sign) -> bool
        ensures there { result ≡ true → after_mark sign (ahead self.old.tokens) ≡ Some (ahead self.new.tokens) }
        ensures shorter { result ≡ true → length (ahead self.new.tokens) + 1 ≡ length (ahead self.old.tokens) }
        ensures none { result ≡ false → after_mark sign (ahead self.old.tokens) ≡ None }
        ensures tokens { result ≡ false → self.new.tokens ≡ self.old.tokens }
        ensures stack { self.new.stack ≡ self.old.stack }
        ensures words { self.new.words ≡ self.old.words }
    {
        let there = is_mark(sign, self.tokens.first());
        if there {
            self.skip();
        }
        there
    }

    /// Goes on behind this word, if it stands in front.
    pub fn word(&mut self, key: Key) -> bool
        ensures there { result ≡ true → after_word key (ahead self.old.tokens) ≡ Some (ahead self.new.tokens) }
        ensures shorter { result ≡ true → length (ahead self.new.tokens) + 1 ≡ length (ahead self.old.tokens) }
        ensures none { result ≡ false → after_word key (ahead self.old.tokens) ≡ None }
        ensures tokens { result ≡ false → self.new.tokens ≡ self.old.tokens }
        ensures stack { self.new.stack ≡ self.old.stack }
        ensures words { self.new.words ≡ self.old.words }
    {
        let there = is_word(key, self.tokens.first());
        if there {
            self.skip();
        }
        there
    }

    /// Goes on behind this sign, which has to stand in front.
    pub fn want_mark(&mut self, sign: Sign) -> Result<(), ReadFault>
        ensures read { Steps (ahead self.new.tokens) result (after_mark sign (ahead self.old.tokens)) }
        ensures shorter { OnOk result (length (ahead self.new.tokens) + 1 ≡ length (ahead self.old.tokens)) }
        ensures stack { self.new.stack ≡ self.old.stack }
        ensures words { self.new.words ≡ self.old.words }
    {
        if self.mark(sign) {
            Ok(())
        } else {
            Err(ReadFault::Syntax)
        }
    }

    /// Goes on behind this word, which has to stand in front.
    pub fn want_word(&mut self, key: Key) -> Result<(), ReadFault>
        ensures read { Steps (ahead self.new.tokens) result (after_word key (ahead self.old.tokens)) }
        ensures shorter { OnOk result (length (ahead self.new.tokens) + 1 ≡ length (ahead self.old.tokens)) }
        ensures stack { self.new.stack ≡ self.old.stack }
        ensures words { self.new.words ≡ self.old.words }
    {
        if self.word(key) {
            Ok(())
        } else {
            Err(ReadFault::Syntax)
        }
    }

    /// The decimal number in front, if one is there.
    pub fn number(&mut self) -> Option<u32>
        ensures there { IfSome result (λ n. first_number (ahead self.old.tokens) ≡ Some (n, ahead self.new.tokens)) }
        ensures shorter { IfSome result (λ n. length (ahead self.new.tokens) + 1 ≡ length (ahead self.old.tokens)) }
        ensures none { IfNone result (first_number (ahead self.old.tokens) ≡ None) }
        ensures tokens { IfNone result (self.new.tokens ≡ self.old.tokens) }
        ensures stack { self.new.stack ≡ self.old.stack }
        ensures words { self.new.words ≡ self.old.words }
    {
        let number = number_of(self.tokens.first())?;
        self.skip();
        Some(number)
    }

    /// The number of the name in front, if one is there.
    pub fn name(&mut self) -> Result<Option<u32>, AllocError>
        ensures there { IfOk result (λ o. IfSome o (λ k. IsNamed (ahead self.old.tokens) (ahead self.new.tokens) self.new.words k)) }
        ensures shorter { IfOk result (λ o. IfSome o (λ k. length (ahead self.new.tokens) + 1 ≡ length (ahead self.old.tokens))) }
        ensures none { IfOk result (λ o. IfNone o (first_name (ahead self.old.tokens) ≡ None)) }
        ensures tokens { IfOk result (λ o. IfNone o (self.new.tokens ≡ self.old.tokens)) }
        ensures same { IfOk result (λ o. IfNone o (self.new.words ≡ self.old.words)) }
        ensures stack { self.new.stack ≡ self.old.stack }
        ensures words { Extends self.old.words self.new.words }
    {
        match name_of(self.tokens.first()) {
            Some(name) => {
                self.skip();
                let number = self.words.number(name)?;
                Ok(Some(number))
            }
            None => Ok(None),
        }
    }

    /// The number of the name in front, which has to be there.
    pub fn want_name(&mut self) -> Result<u32, ReadFault>
        ensures there { IfOk result (λ k. IsNamed (ahead self.old.tokens) (ahead self.new.tokens) self.new.words k) }
        ensures shorter { OnOk result (length (ahead self.new.tokens) + 1 ≡ length (ahead self.old.tokens)) }
        ensures none { IfErr result (λ e. Fails e (first_name (ahead self.old.tokens))) }
        ensures stack { self.new.stack ≡ self.old.stack }
        ensures words { Extends self.old.words self.new.words }
    {
        match self.name()? {
            Some(number) => Ok(number),
            None => Err(ReadFault::Syntax),
        }
    }
}

/// One level more, up to the greatest depth of 256.
pub fn deeper(depth: u32) -> Result<u32, ReadFault>
    ensures { Deepens result (deeper depth) }
{
    if depth < 256 {
        Ok(depth + 1)
    } else {
        Err(ReadFault::Syntax)
    }
}

fn number_of(token: Option<Token<'_>>) -> Option<u32>
    ensures { result ≡ number_of_first (option_map token_view token.entry) }
{
    match token {
        Some(Token::Zero) => Some(0),
        Some(Token::Decimal(n)) => Some(n),
        _ => None,
    }
}

fn name_of<'a>(token: Option<Token<'a>>) -> Option<&'a str>
    ensures { option_map (λ s. s.now) result ≡ name_of_first (option_map token_view token.entry) }
{
    match token {
        Some(Token::Name(name)) => Some(name),
        _ => None,
    }
}

/// Whether the token is this sign.
pub fn is_mark(sign: Sign, token: Option<Token<'_>>) -> bool
    ensures { result ≡ is_mark_first sign (option_map token_view token.entry) }
{
    match token {
        Some(Token::Mark(other)) => sign == other,
        _ => false,
    }
}

/// Whether the token is this word.
pub fn is_word(key: Key, token: Option<Token<'_>>) -> bool
    ensures { result ≡ is_word_first key (option_map token_view token.entry) }
{
    match token {
        Some(Token::Word(other)) => key == other,
        _ => false,
    }
}
