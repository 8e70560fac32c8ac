// Why there is no least latency to tell.

use std::alloc::AllocError;
use thiserror::Error;

/// Why there is no least latency to tell; lines are numbered from 1.
#[derive(Debug, Drop, Error)]
pub enum LeastFault {
    /// The first node line of the program function that does more than move words.
    #[error("line {line} does more than move words")]
    NotMoves { line: u32 },
    /// The first line without a layout.
    #[error("line {line} has no layout")]
    NoSchedule { line: u32 },
    #[error("out of memory")]
    Memory,
}

impl From<AllocError> for LeastFault {
    ghost use Rattle.std.specs.Prelude.{◌≡◌};
    ghost use Rattle.ae_least.specs.declared.faults.LeastFault.TheVariants.{Memory};

    ghost from_gives = { λ _ fault. fault ≡ Memory };

    fn from(_: AllocError) -> LeastFault {
        LeastFault::Memory
    }
}
