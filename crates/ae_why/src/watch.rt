// Who is told how far a search is.

/// Who is told how far something is that may take long.
pub trait Watch {
    /// So many of all such things are done.
    fn step(&mut self, what: &str, done: u32, all: u32);
}
