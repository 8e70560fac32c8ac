// Std's readers and writers as sources and sinks. What they give or keep is not told.

ghost use Rattle.std.specs.Prelude.{◌≡◌, ℕ, ◌<◌, ◌≤◌, length, take, None, IfOk, OnOk, OnErr, IsErrOf};
ghost use Rattle.ae_io.specs.Counts.{Rose, Same, raised};
ghost use Rattle.ae_io.specs.Told.{EndsWhereEmpty, Takes, Appends, Stays};

use crate::{Failed, GiveFault, Sink, Source};
use std::io::{Read, Write};
use std::marker::Model;

/// A source over a reader of std. It raises its count of faults at each error.
#[derive(Drop)]
pub struct StdSource<R> {
    inner: R,
    faults: u64,
}

impl<R> Model for StdSource<R> {
    ghost use Rattle.std.specs.Prelude.{ℕ};

    ghost Value = { ℕ };

    ghost view = { λ s. s.faults };
}

impl<R> StdSource<R> {
    /// A source over this reader, with no faults so far.
    pub fn new(inner: R) -> StdSource<R>
        ensures { result ≡ 0 }
    {
        StdSource { inner, faults: 0 }
    }
}

impl<R: Read> Source for StdSource<R> {
    ghost left = { λ s. None };

    ghost faults = { λ s. s };

    fn take(&mut self, buf: &mut [u8]) -> Result<usize, Failed>
        requires { 0 < length buf.old }

        ensures count { IfOk result (λ n. n ≤ length buf.new) }
        ensures taken { IfOk result (λ n. Takes None None (take n buf.new)) }
        ensures end { IfOk result (EndsWhereEmpty None) }
        ensures failed { OnErr result (Rose self.old self.new) }
        ensures unchanged { OnErr result (Stays None None) }
        ensures no_fault { OnOk result (Same self.old self.new) }
        ensures faults_kept { self.old ≤ self.new }

        ensures ok { OnOk result (self.new ≡ self.old) }
        ensures err { OnErr result (self.new ≡ raised self.old) }
    {
        match self.inner.read(buf) {
            Ok(n) => Ok(n),
            Err(_) => {
                self.faults = self.faults.saturating_add(1);
                Err(Failed)
            }
        }
    }
}

/// A sink over a writer of std. It raises its count of faults at each error and where the writer takes nothing.
#[derive(Drop)]
pub struct StdSink<W> {
    inner: W,
    faults: u64,
    ends: u64,
}

impl<W> Model for StdSink<W> {
    ghost use Rattle.ae_io.specs.States.{EdgeState};

    ghost Value = { EdgeState };

    ghost view = { λ s. record { faults = s.faults; ends = s.ends } };
}

impl<W> StdSink<W> {
    /// A sink over this writer, with no faults so far.
    pub fn new(inner: W) -> StdSink<W>
        ensures { result ≡ record { faults = 0; ends = 0 } }
    {
        StdSink {
            inner,
            faults: 0,
            ends: 0,
        }
    }
}

impl<W: Write> Sink for StdSink<W> {
    ghost written = { λ s. None };

    ghost faults = { λ s. s.faults };

    ghost wants = { λ s. 0 };

    ghost ends = { λ s. s.ends };

    /// Writes once. It never answers `Memory`.
    fn give(&mut self, part: &[u8]) -> Result<usize, GiveFault>
        requires { 0 < length part.now }

        ensures some { IfOk result (λ n. 1 ≤ n) }
        ensures count { IfOk result (λ n. n ≤ length part.now) }
        ensures appended { IfOk result (λ n. Appends None None (take n part.now)) }
        ensures unchanged { OnErr result (Stays None None) }
        ensures failed { IsErrOf result GiveFault.Failed → Rose self.old.faults self.new.faults }
        ensures memory { IsErrOf result GiveFault.Memory → Rose 0 0 }
        ensures no_fault { OnOk result (Same self.old.faults self.new.faults) }
        ensures no_want { OnOk result (Same 0 0) }
        ensures no_end { self.new.ends ≡ self.old.ends }
        ensures faults_kept { self.old.faults ≤ self.new.faults }
        ensures wants_kept { 0 ≤ 0 }

        ensures ok { OnOk result (self.new ≡ self.old) }
        ensures err { OnErr result (self.new ≡ record self.old { faults = raised self.old.faults }) }
    {
        match self.inner.write(part) {
            Ok(n) if n > 0 => Ok(n),
            _ => {
                self.faults = self.faults.saturating_add(1);
                Err(GiveFault::Failed)
            }
        }
    }

    /// Flushes the writer. It never answers `Memory`.
    fn finish(&mut self) -> Result<(), GiveFault>
        ensures unchanged { Stays None None }
        ensures ended { OnOk result (self.new.ends ≡ raised self.old.ends) }
        ensures no_fault { OnOk result (Same self.old.faults self.new.faults) }
        ensures no_want { OnOk result (Same 0 0) }
        ensures no_end { OnErr result (self.new.ends ≡ self.old.ends) }
        ensures failed { IsErrOf result GiveFault.Failed → Rose self.old.faults self.new.faults }
        ensures memory { IsErrOf result GiveFault.Memory → Rose 0 0 }
        ensures faults_kept { self.old.faults ≤ self.new.faults }
        ensures wants_kept { 0 ≤ 0 }
        ensures ends_kept { self.old.ends ≤ self.new.ends }

        ensures ok { OnOk result (self.new ≡ record self.old { ends = raised self.old.ends }) }
        ensures err { OnErr result (self.new ≡ record self.old { faults = raised self.old.faults }) }
    {
        match self.inner.flush() {
            Ok(()) => {
                self.ends = self.ends.saturating_add(1);
                Ok(())
            }
            Err(_) => {
                self.faults = self.faults.saturating_add(1);
                Err(GiveFault::Failed)
            }
        }
    }
}
