// Waves.

ghost use Rattle.std.specs.Prelude.{◌≡◌, ◌<◌, length};
ghost use Rattle.ae_vcd.specs.Waves.{IsFormedWave, wave_tree, wave_word};

/// A header declares at most this many variables.
pub(crate) const MOST_VARIABLES: usize = 300_000;

/// The size of a wave, a number and the words of all variables for each time, is at most this.
pub(crate) const SIZE_LIMIT: u64 = 4_194_304;

/// The words of some variables at some times: by time, and then by variable.
#[derive(Drop)]
pub struct Wave {
    pub names: Vec<String>,
    pub widths: Vec<u32>,
    pub times: Vec<u64>,
    pub words: Vec<u64>,
}

impl Wave {
    /// The word of variable k at the time numbered i.
    pub fn word(&self, i: usize, k: usize) -> u64
        requires formed { IsFormedWave (wave_tree self.now) }
        requires time { i < length self.now.times.items }
        requires variable { k < length self.now.names.items }
        ensures { result ≡ wave_word (wave_tree self.now) i k }
    {
        self.words[i * self.names.len() + k]
    }
}
