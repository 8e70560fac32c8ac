// Where the words of a move come from, and the ways that they go.

/// Where an output word comes from: a word of an element of an input, all counted from 0, or it is fixed.
#[derive(Clone, Copy, Debug)]
pub enum Origin {
    Word { input: u32, element: u32, word: u32 },
    Fixed(u64),
}

/// Where an output word comes from, by clock and column of the inputs; the columns of all inputs are numbered one after
/// the other, each by lane and then by word.
#[derive(Clone, Copy, Debug)]
pub enum Source {
    Place { clock: u32, column: u32 },
    Fixed(u64),
}

/// What an output column takes in a clock: a column so many clocks late, or a fixed word.
#[derive(Clone, Copy, Debug, PartialEq, Eq)]
pub enum Choice {
    Delayed { column: u32, age: u32 },
    Constant(u64),
}

/// The way of one output word: its own clock and column, and its source.
#[derive(Clone, Copy, Debug)]
pub struct Trip {
    pub clock: u32,
    pub column: u32,
    pub source: Source,
}
