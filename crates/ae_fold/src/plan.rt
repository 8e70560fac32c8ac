// The numbers of a fold.

ghost use Rattle.std.specs.Prelude.{◌≡◌, ◌^◌, ◌<◌, ◌≤◌, ℕ};
ghost use Rattle.ae_ops.specs.Folds.{log_up};

/// Slots in time, lanes, places of a lane, clocks of an element and of a block, and levels over the lanes.
#[derive(Clone, Copy, Debug)]
pub struct Plan {
    pub slots: u32,
    pub lanes: u32,
    pub stride: u32,
    pub inner: u32,
    pub period: u32,
    pub levels: u32,
}

/// The levels of pairs over so many lanes: the logarithm to base 2, rounded up.
pub fn levels(lanes: u32) -> u32
    requires low { 1 ≤ lanes }
    requires high { lanes ≤ 4096 }
    ensures is { result ≡ log_up lanes }
    ensures deep { lanes ≤ 2 ^ result }
    ensures least { (k : ℕ) → k < result → 2 ^ k < lanes }
    ensures small { result ≤ 12 }
{
    for level in 0..12u32 {
        if lanes <= 1u32 << level {
            return level;
        }
    }
    12
}
