// How a call of the compiler ends.

ghost use Rattle.std.specs.Prelude.{◌≡◌};
ghost use Rattle.ae_jobs.specs.Numbers.{status_number};

/// How a call ended. Each refusal has a line of its own, which was written in place of a result, but `WriteFault`,
/// whose line could not be.
#[derive(Clone, Copy)]
pub enum Status {
    /// The whole result was written.
    Ok,
    /// The words name no job.
    Usage,
    /// The line is none of a program, by its number from 1; past the last line where one is missing.
    BadLine { line: u32 },
    /// The line has no type.
    BadType { line: u32 },
    /// The line's type, or the load up to it, is past a limit.
    TooLarge { line: u32 },
    /// The line has no layout under the slowdown.
    NoSchedule { line: u32 },
    /// A row of input words is wrong in a column; both are numbered from 1.
    BadWords { row: u32, column: u32 },
    /// The Verilog text is no module that can be simulated.
    BadModule { fault: VFaultKind },
    /// The run is past its limit; its size in words.
    LongRun { size: u64 },
    /// The input failed.
    ReadFault,
    /// The output failed.
    WriteFault,
    /// The input is longer than 16,777,216 bytes.
    TooLong,
    /// There was no memory.
    Memory,
    /// The text is no value change dump of the form that is read; its first bad word, counted from 0.
    BadWave { at: u32 },
    /// The line computes: the program is no movement program.
    NotMoves { line: u32 },
}

/// What is wrong with a Verilog text: the byte, item or net that is at fault. The header is item 0.
#[derive(Clone, Copy)]
pub enum VFaultKind {
    BadToken { at: u32 },
    BadHeader,
    BadItem { item: u32 },
    Unknown { item: u32 },
    Twice { item: u32 },
    Kind { item: u32 },
    Undriven { net: u32 },
    Width { item: u32 },
    Loop { net: u32 },
    Large,
}

impl Status {
    /// The number with which the program ends.
    pub fn number(self) -> u8
        ensures { result ≡ status_number self }
    {
        match self {
            Status::Ok => 0,
            Status::Usage => 1,
            Status::BadLine { line: _ } => 2,
            Status::BadType { line: _ } => 3,
            Status::TooLarge { line: _ } => 4,
            Status::NoSchedule { line: _ } => 5,
            Status::BadWords { row: _, column: _ } => 6,
            Status::BadModule { fault: _ } => 7,
            Status::LongRun { size: _ } => 8,
            Status::ReadFault => 9,
            Status::WriteFault => 10,
            Status::TooLong => 11,
            Status::Memory => 12,
            Status::BadWave { at: _ } => 13,
            Status::NotMoves { line: _ } => 14,
        }
    }
}
