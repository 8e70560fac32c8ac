// Slowdowns.

ghost use Rattle.std.specs.Prelude.{◌≡◌, ◌≤◌, MatchOption};
ghost use Rattle.ae_sttype.specs.Slowdowns.{IsSlowdown};

use std::marker::Model;

/// In how many clocks a block follows the one before it: 1 to 4,096 (the factor by which a circuit is slower than one
/// that takes a whole block in each clock; Durst et al., PLDI 2020). Clauses see the number.
#[derive(Clone, Copy, Debug)]
pub struct Slowdown {
    clocks: u32,
}

impl Model for Slowdown {
    ghost use Rattle.std.specs.Prelude.{ℕ};

    ghost Value = { ℕ };

    ghost use Rattle.ae_sttype.specs.Slowdowns.{IsSlowdown};

    ghost view = { λ s. s.clocks };

    ghost invariant = { λ s. IsSlowdown s.clocks };

    ghost inverse = { λ n. record { clocks = n } };
}

impl Slowdown {
    /// One clock: a whole block in each clock.
    pub fn one() -> Slowdown
        ensures { result ≡ 1 }
    {
        Slowdown { clocks: 1 }
    }

    /// The slowdown of so many clocks, where they are 1 to 4,096.
    pub fn of(clocks: u32) -> Option<Slowdown>
        ensures { MatchOption result (IsSlowdown clocks → ⊥) (λ s. (s ≡ clocks) × IsSlowdown s) }
    {
        if 1 <= clocks && clocks <= 4096 {
            Some(Slowdown { clocks })
        } else {
            None
        }
    }

    /// The clocks: 1 to 4,096.
    pub fn clocks(self) -> u32
        ensures is { result ≡ self }
        ensures some { 1 ≤ result }
        ensures most { result ≤ 4096 }
    {
        self.clocks
    }

    /// What is so of each slowdown.
    pub fn limits(self)
        ensures { IsSlowdown self }
    {
        let _ = self.clocks;
    }
}
