// What is shown of something that takes long.

use ae_why::Watch;
use std::rt::Clock;
use std::time::Instant;

/// Shows on standard error how far something is that takes over a second, where that is a terminal.
#[derive(Drop)]
pub struct Progress<'a, R> {
    rt: &'a R,
    /// When the call began; none where nothing is to be shown.
    since: Option<Instant>,
    /// The fifth of a second after that in which something was shown last; 0 where nothing was.
    shown: u64,
}

impl<'a, R: Clock + Eprint> Progress<'a, R> {
    pub fn new(rt: &'a R, is_terminal: bool) -> Progress<'a, R> {
        let since = if is_terminal {
            Instant::now(rt).ok()
        } else {
            None
        };
        Progress {
            rt,
            since,
            shown: 0,
        }
    }

    /// Takes away what was shown.
    pub fn clear(&self) {
        if self.shown > 0 {
            let _ = self
                .rt
                .eprint("\r                                                  \r");
        }
    }

    // The fifths of a second since the call began; 0 in the first second.
    fn fifths(&self) -> u64 {
        let Some(since) = self.since else {
            return 0;
        };
        match since.elapsed(self.rt) {
            Ok(elapsed) if elapsed.as_secs() > 0 => elapsed
                .as_secs()
                .saturating_mul(5)
                .saturating_add(u64::from(elapsed.subsec_millis() / 200)),
            _ => 0,
        }
    }
}

impl<R: Clock + Eprint> Watch for Progress<'_, R> {
    fn step(&mut self, what: &str, done: u32, all: u32) {
        let fifths = self.fifths();
        if fifths > self.shown {
            self.shown = fifths;
            // Where standard error is closed, nobody wants to read it.
            let _ = eprint!(self.rt; "\raethkit: {what} {done} of {all} ");
        }
    }
}
