// What the circuit of a program costs, by its schedule or by its moves.

ghost use Rattle.std.specs.Prelude.{◌≡◌};
ghost use Rattle.std.specs.Option.{option_map};
ghost use Rattle.ae_compile.specs.Costing.{arrivals_in, whole_costs};

use ae_delay::Timing;
use ae_fuse::Fused;

/// The costs of a program: those of its schedule, or, where it only moves words, of one move for each result (docs/COSTS.md).
#[derive(Drop)]
pub enum Costs {
    Plain(Timing),
    Fused(Fused),
}

impl Costs {
    /// The clocks from a block to its results.
    pub fn latency(&self) -> u32
        ensures { result ≡ (whole_costs self.now).latency }
    {
        match self {
            Costs::Plain(timing) => timing.latency(),
            Costs::Fused(moves) => moves.latency(),
        }
    }

    /// The multipliers.
    pub fn muls(&self) -> u32
        ensures { result ≡ (whole_costs self.now).muls }
    {
        match self {
            Costs::Plain(timing) => timing.muls(),
            Costs::Fused(_) => 0,
        }
    }

    /// The load: a bound for the operators, registers and choices of the circuit.
    pub fn load(&self) -> u64
        ensures { result ≡ (whole_costs self.now).load }
    {
        match self {
            Costs::Plain(timing) => u64::from(timing.load()),
            Costs::Fused(moves) => moves.load(),
        }
    }

    /// The memories.
    pub fn mems(&self) -> u64
        ensures { result ≡ (whole_costs self.now).mems }
    {
        match self {
            Costs::Plain(timing) => u64::from(timing.mems()),
            Costs::Fused(moves) => moves.mems(),
        }
    }

    /// When the items of the program function arrive, its parameters first, in clocks after the block; the number is that of
    /// the last instance of the schedule.
    pub fn arrivals(&self, last: u32) -> Option<&[u32]>
        ensures { option_map (λ r. r.now) result ≡ arrivals_in last self.now }
    {
        match self {
            Costs::Plain(timing) => timing.arrivals(last),
            Costs::Fused(moves) => Some(moves.arrivals()),
        }
    }
}
