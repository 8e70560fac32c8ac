// Where bytes go.

ghost use Rattle.std.specs.Prelude.{◌≡◌, ℕ, ◌↔◌, true, ◌<◌, ◌≤◌, List, [], ◌++◌, length, take, min, Option, Some, IfOk, OnOk, OnErr, IsOk, IsErrOf, is_err};
ghost use Rattle.ae_io.specs.Counts.{Rose, Same, raised};
ghost use Rattle.ae_io.specs.Told.{Appends, Stays};
ghost use Rattle.ae_io.specs.States.{fails};

use crate::source::is_failing;
use std::alloc::{AllocError, Global};
use std::marker::Model;

/// Why a sink took nothing.
#[derive(Clone, Copy, Debug, PartialEq, Eq)]
pub enum GiveFault {
    /// The sink failed.
    Failed,
    /// The sink had no memory for the bytes.
    Memory,
}

/// Something that takes bytes, a few with each call, and is told the end.
pub trait Sink {
    /// The bytes taken so far, where they are told.
    ghost written: { Self → Option (List ℕ) };

    /// A count of failed calls, which never falls.
    ghost faults: { Self → ℕ };

    /// A count of calls without memory, which never falls.
    ghost wants: { Self → ℕ };

    /// A count of ends, which never falls.
    ghost ends: { Self → ℕ };

    /// Appends the first bytes of `part`, and answers how many. A fault appends nothing; it comes only where its
    /// count rose, and the counts of a call that answers a number stay.
    fn give(&mut self, part: &[u8]) -> Result<usize, GiveFault>
        requires { 0 < length part.now }
        ensures some { IfOk result (λ n. 1 ≤ n) }
        ensures count { IfOk result (λ n. n ≤ length part.now) }
        ensures appended { IfOk result (λ n. Appends (written self.old) (written self.new) (take n part.now)) }
        ensures unchanged { OnErr result (Stays (written self.old) (written self.new)) }
        ensures failed { IsErrOf result GiveFault.Failed → Rose (faults self.old) (faults self.new) }
        ensures memory { IsErrOf result GiveFault.Memory → Rose (wants self.old) (wants self.new) }
        ensures no_fault { OnOk result (Same (faults self.old) (faults self.new)) }
        ensures no_want { OnOk result (Same (wants self.old) (wants self.new)) }
        ensures no_end { ends self.new ≡ ends self.old }
        ensures faults_kept { faults self.old ≤ faults self.new }
        ensures wants_kept { wants self.old ≤ wants self.new };

    /// Tells the sink the end, which counts as one. It appends nothing; a fault comes only where its count rose.
    fn finish(&mut self) -> Result<(), GiveFault>
        ensures unchanged { Stays (written self.old) (written self.new) }
        ensures ended { OnOk result (ends self.new ≡ raised (ends self.old)) }
        ensures no_fault { OnOk result (Same (faults self.old) (faults self.new)) }
        ensures no_want { OnOk result (Same (wants self.old) (wants self.new)) }
        ensures no_end { OnErr result (ends self.new ≡ ends self.old) }
        ensures failed { IsErrOf result GiveFault.Failed → Rose (faults self.old) (faults self.new) }
        ensures memory { IsErrOf result GiveFault.Memory → Rose (wants self.old) (wants self.new) }
        ensures faults_kept { faults self.old ≤ faults self.new }
        ensures wants_kept { wants self.old ≤ wants self.new }
        ensures ends_kept { ends self.old ≤ ends self.new };
}

/// A sink in memory that takes at most some bytes with each call and fails at chosen calls.
#[derive(Drop)]
pub struct MemSink {
    bytes: Vec<u8>,
    piece: u32,
    failing: Vec<u32>,
    calls: u64,
    faults: u64,
    wants: u64,
    ends: u64,
}

impl Model for MemSink {
    ghost use Rattle.std.specs.Prelude.{◌≤◌};
    ghost use Rattle.ae_io.specs.States.{SinkState};

    ghost Value = { SinkState };

    ghost view = { λ s. record { written = s.bytes.items; piece = s.piece; failing = s.failing.items; calls = s.calls; faults = s.faults; wants = s.wants; ends = s.ends } };

    ghost invariant = { λ s. 1 ≤ s.piece };
}

impl MemSink {
    /// An empty sink. A call of `give` takes at most `piece` bytes; the calls whose numbers, from 0, stand in
    /// `failing` fail.
    pub fn new(alloc: Global, piece: u32, failing: &[u32]) -> Result<MemSink, AllocError>
        requires { 1 ≤ piece }
        ensures { IfOk result (λ s. s ≡ record { written = []; piece = piece; failing = failing.now; calls = 0; faults = 0; wants = 0; ends = 0 }) }
    {
        Ok(MemSink {
            bytes: Vec::new(alloc),
            piece,
            failing: failing.to_vec(alloc)?,
            calls: 0,
            faults: 0,
            wants: 0,
            ends: 0,
        })
    }

    /// What was written.
    pub fn bytes(&self) -> &[u8]
        ensures { result.now ≡ self.now.written }
    {
        &self.bytes
    }
}

impl Sink for MemSink {
    ghost written = { λ s. Some s.written };

    ghost faults = { λ s. s.faults };

    ghost wants = { λ s. s.wants };

    ghost ends = { λ s. s.ends };

    /// Fails exactly where the call's number stands in `failing`; else it takes as many bytes as there are and
    /// `piece` allows, or has no memory for them.
    fn give(&mut self, part: &[u8]) -> Result<usize, GiveFault>
        requires { 0 < length part.now }

        ensures some { IfOk result (λ n. 1 ≤ n) }
        ensures count { IfOk result (λ n. n ≤ length part.now) }
        ensures appended { IfOk result (λ n. Appends (Some self.old.written) (Some self.new.written) (take n part.now)) }
        ensures unchanged { OnErr result (Stays (Some self.old.written) (Some self.new.written)) }
        ensures failed { IsErrOf result GiveFault.Failed → Rose self.old.faults self.new.faults }
        ensures memory { IsErrOf result GiveFault.Memory → Rose self.old.wants self.new.wants }
        ensures no_fault { OnOk result (Same self.old.faults self.new.faults) }
        ensures no_want { OnOk result (Same self.old.wants self.new.wants) }
        ensures no_end { self.new.ends ≡ self.old.ends }
        ensures faults_kept { self.old.faults ≤ self.new.faults }
        ensures wants_kept { self.old.wants ≤ self.new.wants }

        ensures fails { IsErrOf result GiveFault.Failed ↔ (fails self.old.failing self.old.calls ≡ true) }
        ensures most { IfOk result (λ n. n ≡ min self.old.piece (length part.now)) }
        ensures ok { IfOk result (λ n. self.new ≡ record self.old { written = self.old.written ++ take n part.now; calls = raised self.old.calls }) }
        ensures failed_state { IsErrOf result GiveFault.Failed → self.new ≡ record self.old { calls = raised self.old.calls; faults = raised self.old.faults } }
        ensures memory_state { IsErrOf result GiveFault.Memory → self.new ≡ record self.old { calls = raised self.old.calls; wants = raised self.old.wants } }
    {
        let fails = is_failing(&self.failing, self.calls);
        self.calls = self.calls.saturating_add(1);
        if fails {
            self.faults = self.faults.saturating_add(1);
            return Err(GiveFault::Failed);
        }
        let n = part.len().min(self.piece as usize);
        if self.bytes.extend_from_slice(&part[..n]).is_err() {
            self.wants = self.wants.saturating_add(1);
            return Err(GiveFault::Memory);
        }
        Ok(n)
    }

    fn finish(&mut self) -> Result<(), GiveFault>
        ensures unchanged { Stays (Some self.old.written) (Some self.new.written) }
        ensures ended { OnOk result (self.new.ends ≡ raised self.old.ends) }
        ensures no_fault { OnOk result (Same self.old.faults self.new.faults) }
        ensures no_want { OnOk result (Same self.old.wants self.new.wants) }
        ensures no_end { OnErr result (self.new.ends ≡ self.old.ends) }
        ensures failed { IsErrOf result GiveFault.Failed → Rose self.old.faults self.new.faults }
        ensures memory { IsErrOf result GiveFault.Memory → Rose self.old.wants self.new.wants }
        ensures faults_kept { self.old.faults ≤ self.new.faults }
        ensures wants_kept { self.old.wants ≤ self.new.wants }
        ensures ends_kept { self.old.ends ≤ self.new.ends }

        ensures sure { IsOk result }
        ensures state { self.new ≡ record self.old { ends = raised self.old.ends } }
    {
        self.ends = self.ends.saturating_add(1);
        Ok(())
    }
}

/// A sink in memory that never fails.
#[derive(Drop)]
pub struct SureSink {
    bytes: Vec<u8>,
    wants: u64,
    ends: u64,
}

impl Model for SureSink {
    ghost use Rattle.ae_io.specs.States.{SureState};

    ghost Value = { SureState };

    ghost view = { λ s. record { written = s.bytes.items; wants = s.wants; ends = s.ends } };
}

impl SureSink {
    /// An empty sink, which takes no memory yet.
    pub fn new(alloc: Global) -> SureSink
        ensures { result ≡ record { written = []; wants = 0; ends = 0 } }
    {
        SureSink {
            bytes: Vec::new(alloc),
            wants: 0,
            ends: 0,
        }
    }

    /// What was written.
    pub fn bytes(&self) -> &[u8]
        ensures { result.now ≡ self.now.written }
    {
        &self.bytes
    }
}

impl Sink for SureSink {
    ghost written = { λ s. Some s.written };

    ghost faults = { λ s. 0 };

    ghost wants = { λ s. s.wants };

    ghost ends = { λ s. s.ends };

    /// Takes all of `part`, or has no memory for it.
    fn give(&mut self, part: &[u8]) -> Result<usize, GiveFault>
        requires { 0 < length part.now }

        ensures some { IfOk result (λ n. 1 ≤ n) }
        ensures count { IfOk result (λ n. n ≤ length part.now) }
        ensures appended { IfOk result (λ n. Appends (Some self.old.written) (Some self.new.written) (take n part.now)) }
        ensures unchanged { OnErr result (Stays (Some self.old.written) (Some self.new.written)) }
        ensures failed { IsErrOf result GiveFault.Failed → Rose 0 0 }
        ensures memory { IsErrOf result GiveFault.Memory → Rose self.old.wants self.new.wants }
        ensures no_fault { OnOk result (Same 0 0) }
        ensures no_want { OnOk result (Same self.old.wants self.new.wants) }
        ensures no_end { self.new.ends ≡ self.old.ends }
        ensures faults_kept { 0 ≤ 0 }
        ensures wants_kept { self.old.wants ≤ self.new.wants }

        ensures ok { IfOk result (λ n. self.new ≡ record self.old { written = self.old.written ++ part.now }) }
        ensures memory_state { IsErrOf result GiveFault.Memory → self.new ≡ record self.old { wants = raised self.old.wants } }
    {
        if self.bytes.extend_from_slice(part).is_err() {
            self.wants = self.wants.saturating_add(1);
            return Err(GiveFault::Memory);
        }
        Ok(part.len())
    }

    fn finish(&mut self) -> Result<(), GiveFault>
        ensures unchanged { Stays (Some self.old.written) (Some self.new.written) }
        ensures ended { OnOk result (self.new.ends ≡ raised self.old.ends) }
        ensures no_fault { OnOk result (Same 0 0) }
        ensures no_want { OnOk result (Same self.old.wants self.new.wants) }
        ensures no_end { OnErr result (self.new.ends ≡ self.old.ends) }
        ensures failed { IsErrOf result GiveFault.Failed → Rose 0 0 }
        ensures memory { IsErrOf result GiveFault.Memory → Rose self.old.wants self.new.wants }
        ensures faults_kept { 0 ≤ 0 }
        ensures wants_kept { self.old.wants ≤ self.new.wants }
        ensures ends_kept { self.old.ends ≤ self.new.ends }

        ensures sure { IsOk result }
        ensures state { self.new ≡ record self.old { ends = raised self.old.ends } }
    {
        self.ends = self.ends.saturating_add(1);
        Ok(())
    }
}
