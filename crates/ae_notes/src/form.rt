// How notes are written.

/// How names are told.
#[derive(Clone, Copy)]
pub struct NoteForm {
    /// The nets too.
    pub has_nets: bool,
    /// As a save file of GTKWave.
    pub is_file: bool,
}

impl NoteForm {
    /// Where the signals stand in the dump that a save file shows: with the nets that of a test bench.
    pub fn scope(self) -> &'static str {
        if self.has_nets { "bench.dut" } else { "aeth" }
    }
}
