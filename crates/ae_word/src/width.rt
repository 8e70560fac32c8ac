// Widths.

ghost use Rattle.std.specs.Prelude.{◌≡◌, ◌≤◌, MatchOption};
ghost use Rattle.ae_word.specs.Widths.{IsWidth};

use std::fmt::{self, Debug};
use std::marker::Model;

/// How many bits a word has: 1 to 64. Clauses see the number.
#[derive(Clone, Copy, PartialEq, Eq)]
pub struct Width {
    pub bits: u32,
}

impl Model for Width {
    ghost use Rattle.std.specs.Prelude.{ℕ};

    ghost Value = { ℕ };

    ghost use Rattle.ae_word.specs.Widths.{IsWidth};

    ghost view = { λ w. w.bits };

    ghost invariant = { λ w. IsWidth w.bits };

    ghost inverse = { λ n. record { bits = n } };
}

// The number alone.
impl Debug for Width {
    fn fmt<W: fmt::Write>(&self, f: &mut fmt::Formatter<W>) -> fmt::Result {
        write!(f, "{}", self.bits)
    }
}

impl Width {
    /// One bit.
    pub const BIT: Width = Width { bits: 1 };

    /// The width of so many bits, where they are 1 to 64.
    pub fn of(bits: u32) -> Option<Width>
        ensures { MatchOption result (IsWidth bits → ⊥) (λ w. (w ≡ bits) × IsWidth w) }
    {
        if 1 <= bits && bits <= 64 {
            Some(Width { bits })
        } else {
            None
        }
    }

    /// The bits: 1 to 64.
    pub fn bits(self) -> u32
        ensures is { result ≡ self }
        ensures low { 1 ≤ result }
        ensures high { result ≤ 64 }
    {
        self.bits
    }

    /// What is so of each width.
    pub fn limits(self)
        ensures { IsWidth self }
    {
        let _ = self.bits;
    }
}
