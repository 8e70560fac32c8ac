// Why there is no answer.

use ae_compile::{CompileFault, OutOfMemory};
use ae_parse::RowFault;
use std::alloc::{AllocError, AllocFailed};
use thiserror::Error;

/// Why there is no answer; rows and columns are numbered from 1.
#[derive(Debug, Drop, Error)]
pub enum KitFault {
    #[error(transparent)]
    Compile(CompileFault),
    #[error("row {row} is not right at column {column}")]
    BadWords { row: u32, column: u32 },
    #[error("`aeth` refuses it; `aethkit why` tells why")]
    Refused,
    #[error("the bench would have more than 1000000 words")]
    LongBench,
    #[error("the circuit would have too many cells")]
    LargeStream,
    #[error("the input has more than 16777216 bytes")]
    TooLong,
    #[error("the input cannot be read")]
    Read,
    #[error("out of memory")]
    Memory,
}

impl KitFault {
    /// The exit status.
    pub fn number(&self) -> u8 {
        match self {
            KitFault::Read => 9,
            KitFault::Memory | KitFault::Compile(CompileFault::Memory) => 12,
            _ => 2,
        }
    }
}

impl From<CompileFault> for KitFault {
    fn from(fault: CompileFault) -> KitFault {
        KitFault::Compile(fault)
    }
}

impl From<RowFault> for KitFault {
    fn from(fault: RowFault) -> KitFault {
        match fault {
            RowFault::BadWords { row, column } => KitFault::BadWords { row, column },
            RowFault::Memory => KitFault::Memory,
        }
    }
}

impl From<OutOfMemory> for KitFault {
    fn from(_: OutOfMemory) -> KitFault {
        KitFault::Memory
    }
}

impl From<AllocError> for KitFault {
    fn from(_: AllocError) -> KitFault {
        KitFault::Memory
    }
}

impl<T: Drop> From<AllocFailed<T>> for KitFault {
    fn from(_: AllocFailed<T>) -> KitFault {
        KitFault::Memory
    }
}
