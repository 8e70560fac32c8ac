// The tokens of a text, one after the other.

ghost use Rattle.std.specs.Prelude.{◌≡◌, ◌<◌, ◌≤◌, ◌^◌, ℕ, List, length, drop, IfOk, option_map, slice_get};
ghost use Rattle.ae_vtoken.specs.Tokens.{TokenTree, AreTokens, IsBadToken};
ghost use Rattle.ae_vtoken.specs.Scan.{token_view};
ghost use Rattle.ae_vtoken.specs.Front.{tokens_of, HasTokens, FaultIs, GivesTokens, GivesPlace};

use crate::gaps::gap_end;
use crate::scan::token_at;
use crate::token::Token;

/// Why a text has no tokens: the place, in bytes from 0, of the first byte outside blanks, comments and tokens.
#[derive(Clone, Copy, Debug)]
pub struct BadToken {
    pub at: u32,
}

/// The tokens of a text from one of them on. The first is known, and the others are found one by one.
#[derive(Clone, Copy)]
pub struct Tokens<'a> {
    text: &'a [u8],
    /// How many there are.
    left: u32,
    /// The first, where there is one.
    first: Token<'a>,
    /// The place behind it.
    past: usize,
    ghost within: { past ≤ length text.now },
}

/// How many tokens a text has.
fn count(text: &[u8]) -> Result<u32, BadToken>
    requires { length text.now < 2 ^ 32 }
    ensures few { IfOk result (λ n. n ≤ length text.now) }
    ensures ok { IfOk result (λ n. HasTokens text.now n) }
    ensures fault { FaultIs text.now result }
{
    let mut count: u32 = 0;
    let mut i: usize = 0;
    'scan: loop {
        let at = gap_end(text, i);
        if at == text.len() {
            return Ok(count);
        }
        let Some((_token, end)) = token_at(text, at) else {
            return Err(BadToken { at: at as u32 });
        };
        count += 1;
        i = end;
    }
}

impl<'a> Tokens<'a> {
    ghost use Rattle.ae_vtoken.specs.Ahead.{ahead};

    fn start(text: &'a [u8]) -> Result<Tokens<'a>, BadToken>
        requires short { length text.now < 2 ^ 32 }
        ensures few { IfOk result (λ ts. length (ahead ts) ≤ length text.now) }
        ensures tokens { IfOk result (λ ts. AreTokens text.now (ahead ts)) }
        ensures fault { FaultIs text.now result }
    {
        match count(text) {
            Ok(left) => Ok(Tokens::behind(text, 0, left)),
            Err(bad) => Err(bad),
        }
    }

    /// The tokens of a text of fewer than 2 to the 32 bytes, by the lexical rules of IEEE 1364-2001: each is the longest
    /// that begins there, behind blanks and comments. `BadToken` where there is a byte that is in none of these.
    pub fn of(text: &'a [u8]) -> Result<Tokens<'a>, BadToken>
        requires short { length text.now < 2 ^ 32 }
        ensures few { IfOk result (λ ts. length (ahead ts) ≤ length text.now) }
        ensures tokens { IfOk result (λ ts. AreTokens text.now (ahead ts)) }
        ensures fault { FaultIs text.now result }
        ensures every_list { (ts : List TokenTree) → AreTokens text.now ts → GivesTokens ahead ts result }
        ensures every_place { (at : ℕ) → IsBadToken text.now at → GivesPlace at result }
    {
        Tokens::start(text)
    }

    /// So many tokens behind a place.
    fn behind(text: &'a [u8], from: usize, left: u32) -> Tokens<'a>
        requires { from ≤ length text.now }
        ensures { ahead result ≡ tokens_of left (drop from text.now) }
    {
        let none = Tokens {
            text,
            left,
            first: Token::Unused,
            past: text.len(),
        };
        let at = gap_end(text, from);
        if at == text.len() {
            return none;
        }
        let Some((first, past)) = token_at(text, at) else {
            return none;
        };
        Tokens {
            text,
            left,
            first,
            past,
        }
    }

    /// How many there are.
    pub fn len(self) -> u32
        ensures { result ≡ length (ahead self.entry) }
    {
        self.left
    }

    /// The first.
    pub fn first(self) -> Option<Token<'a>>
        ensures { option_map token_view result ≡ slice_get (ahead self.entry) 0 }
    {
        if self.left == 0 {
            None
        } else {
            Some(self.first)
        }
    }

    /// Those behind the first.
    pub fn rest(self) -> Tokens<'a>
        ensures { ahead result ≡ drop 1 (ahead self.entry) }
    {
        if self.left < 2 {
            Tokens {
                text: self.text,
                left: 0,
                first: self.first,
                past: self.past,
            }
        } else {
            Tokens::behind(self.text, self.past, self.left - 1)
        }
    }
}
