// Why there is no circuit of a program.

use std::alloc::AllocError;
use thiserror::Error;

/// Why a program has no circuit under a slowdown; lines are numbered from 1.
#[derive(Debug, Drop, Error)]
pub enum CompileFault {
    /// The line is none of a program; past the last line where one is missing.
    #[error("line {line} is no line of a program")]
    BadLine { line: u32 },
    /// The line has no type.
    #[error("line {line} has no type")]
    BadType { line: u32 },
    /// The line's type, or the load up to it, is past a limit.
    #[error("line {line} is too large")]
    TooLarge { line: u32 },
    /// The line has no layout under the slowdown.
    #[error("line {line} has no layout")]
    NoSchedule { line: u32 },
    #[error("out of memory")]
    Memory,
}

/// There was no memory.
#[derive(Debug, Drop, Error)]
#[error("out of memory")]
pub struct OutOfMemory;

impl From<AllocError> for OutOfMemory {
    fn from(_: AllocError) -> OutOfMemory {
        OutOfMemory
    }
}
