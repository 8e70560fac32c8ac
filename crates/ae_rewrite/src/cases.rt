// By which case elements are laid out in so many clocks.

ghost use Rattle.std.specs.Prelude.{◌≡◌, ◌≤◌, ◌<◌, ◌*◌, ◌%◌, ℕ, Some, IfSome};
ghost use Rattle.ae_rewrite.specs.LayoutRule.{greatest_divisor, case_of, slots_of, lanes_of, inner_of, rounds_of};

/// By which case of the layout rule (docs/SPACE_TIME.md) elements are laid out in so many clocks.
#[derive(Clone, Copy, Debug)]
pub enum Case {
    /// All side by side, in one clock.
    Parallel,
    /// One after the other, each in an equal part of the clocks.
    Spread,
    /// Equal groups, one for each clock.
    Grouped,
    /// One in a clock, and clocks left over.
    Padded,
    /// As many equal groups as this divisor, one in a clock, and clocks left over.
    Folded(u32),
}

impl Case {
    /// The first case that applies to `n` elements in so many clocks; None exactly where none does. Its slots and lanes
    /// have place for just the elements, and its outer slots, with those left empty, fill the clocks.
    #[tactic(auto, using(crate::proofs::Applies::whole))]
    pub fn first(n: u32, clocks: u32) -> Option<Case>
        requires some { 0 < n }
        requires time { 0 < clocks }
        ensures case { result ≡ case_of n clocks }
        ensures all { IfSome result (λ c. slots_of n clocks c * lanes_of n clocks c ≡ n) }
        ensures within { IfSome result (λ c. slots_of n clocks c ≤ rounds_of n clocks c) }
        ensures filled { IfSome result (λ c. rounds_of n clocks c * inner_of n clocks c ≡ clocks) }
    {
        if clocks == 1 {
            Some(Case::Parallel)
        } else if clocks % n == 0 {
            Some(Case::Spread)
        } else if n % clocks == 0 {
            Some(Case::Grouped)
        } else if n < clocks {
            Some(Case::Padded)
        } else {
            let d = divisor(n, clocks - 1);
            if d > 1 { Some(Case::Folded(d)) } else { None }
        }
    }

    /// How many outer slots, one after the other, have elements.
    pub fn slots(self, n: u32, clocks: u32) -> u32
        ensures { result ≡ slots_of n clocks self }
    {
        match self {
            Case::Parallel => 1,
            Case::Spread | Case::Padded => n,
            Case::Grouped => clocks,
            Case::Folded(d) => d,
        }
    }

    /// How many elements stand side by side in an outer slot.
    pub fn lanes(self, n: u32, clocks: u32) -> u32
        requires time { 0 < clocks }
        requires case { case_of n clocks ≡ Some self }
        ensures { result ≡ lanes_of n clocks self }
    {
        match self {
            Case::Parallel => n,
            Case::Spread | Case::Padded => 1,
            Case::Grouped => n / clocks,
            Case::Folded(d) => n / d,
        }
    }

    /// The clocks of an outer slot: the budget of each element.
    pub fn inner(self, n: u32, clocks: u32) -> u32
        requires some { 0 < n }
        requires time { 0 < clocks }
        requires case { case_of n clocks ≡ Some self }
        ensures value { result ≡ inner_of n clocks self }
        ensures within { (0 < result) × (result ≤ clocks) }
    {
        match self {
            Case::Spread => clocks / n,
            Case::Parallel | Case::Padded | Case::Grouped | Case::Folded(_) => 1,
        }
    }
}

// The greatest divisor of `n` from 1 to `m`, and 0 where `m` is 0.
#[tactic(auto, using(crate::proofs::Divisors::searching))]
fn divisor(n: u32, m: u32) -> u32
    ensures value { result ≡ greatest_divisor n m }
    ensures within { result ≤ m }
    ensures divides { 0 < m → n % result ≡ 0 }
    ensures greatest { (e : ℕ) → 0 < e → e ≤ m → n % e ≡ 0 → e ≤ result }
{
    let mut d = m;
    while d > 0 && n % d != 0 {
        d -= 1;
    }
    d
}
