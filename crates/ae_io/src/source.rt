// Where bytes come from.

ghost use Rattle.std.specs.Prelude.{◌≡◌, ℕ, ◌<◌, ◌≤◌, List, length, take, drop, min, Option, Some, IfOk, OnOk, OnErr, IsOk, is_err};
ghost use Rattle.ae_io.specs.Counts.{Rose, Same, raised};
ghost use Rattle.ae_io.specs.Told.{EndsWhereEmpty, Takes, Stays};
ghost use Rattle.ae_io.specs.States.{fails};

use std::alloc::{AllocError, Global};
use std::marker::Model;

/// A call of a source failed.
#[derive(Clone, Copy, Debug, PartialEq, Eq)]
pub struct Failed;

/// Something that gives bytes, a few with each call, until its end.
pub trait Source {
    /// The bytes not yet taken, where they are told.
    ghost left: { Self → Option (List ℕ) };

    /// A count of failed calls, which never falls.
    ghost faults: { Self → ℕ };

    /// Moves the next bytes into the front of `buf`, and answers how many. `Ok(0)` is the end. `Failed` takes nothing,
    /// and comes only where the count of faults rose.
    fn take(&mut self, buf: &mut [u8]) -> Result<usize, Failed>
        requires { 0 < length buf.old }
        ensures count { IfOk result (λ n. n ≤ length buf.new) }
        ensures taken { IfOk result (λ n. Takes (left self.old) (left self.new) (take n buf.new)) }
        ensures end { IfOk result (EndsWhereEmpty (left self.old)) }
        ensures failed { OnErr result (Rose (faults self.old) (faults self.new)) }
        ensures unchanged { OnErr result (Stays (left self.old) (left self.new)) }
        ensures no_fault { OnOk result (Same (faults self.old) (faults self.new)) }
        ensures faults_kept { faults self.old ≤ faults self.new };
}

/// A source in memory that gives at most some bytes with each call and fails at chosen calls.
#[derive(Drop)]
pub struct MemSource {
    bytes: Vec<u8>,
    at: usize,
    piece: u32,
    failing: Vec<u32>,
    calls: u64,
    faults: u64,
}

impl Model for MemSource {
    ghost use Rattle.std.specs.Prelude.{◌≤◌, drop, length};
    ghost use Rattle.ae_io.specs.States.{SourceState};

    ghost Value = { SourceState };

    ghost view = { λ s. record { left = drop s.at s.bytes.items; piece = s.piece; failing = s.failing.items; calls = s.calls; faults = s.faults } };

    ghost invariant = { λ s. (s.at ≤ length s.bytes.items) × (1 ≤ s.piece) };
}

impl MemSource {
    /// A source of these bytes. A call gives at most `piece` bytes; the calls whose numbers, from 0, stand in
    /// `failing` fail.
    pub fn new(
        alloc: Global,
        bytes: &[u8],
        piece: u32,
        failing: &[u32],
    ) -> Result<MemSource, AllocError>
        requires { 1 ≤ piece }
        ensures { IfOk result (λ s. s ≡ record { left = bytes.now; piece = piece; failing = failing.now; calls = 0; faults = 0 }) }
    {
        Ok(MemSource {
            bytes: bytes.to_vec(alloc)?,
            at: 0,
            piece,
            failing: failing.to_vec(alloc)?,
            calls: 0,
            faults: 0,
        })
    }
}

// Whether the call of this number fails.
pub(crate) fn is_failing(failing: &[u32], call: u64) -> bool
    ensures { result ≡ fails failing.now call }
{
    failing.iter().any(|f| u64::from(*f) == call)
}

impl Source for MemSource {
    ghost left = { λ s. Some s.left };

    ghost faults = { λ s. s.faults };

    /// Fails exactly where the call's number stands in `failing`; else it gives as many bytes as there are, `piece`
    /// and the room in `buf` allow.
    fn take(&mut self, buf: &mut [u8]) -> Result<usize, Failed>
        requires { 0 < length buf.old }

        ensures count { IfOk result (λ n. n ≤ length buf.new) }
        ensures taken { IfOk result (λ n. Takes (Some self.old.left) (Some self.new.left) (take n buf.new)) }
        ensures end { IfOk result (EndsWhereEmpty (Some self.old.left)) }
        ensures failed { OnErr result (Rose self.old.faults self.new.faults) }
        ensures unchanged { OnErr result (Stays (Some self.old.left) (Some self.new.left)) }
        ensures no_fault { OnOk result (Same self.old.faults self.new.faults) }
        ensures faults_kept { self.old.faults ≤ self.new.faults }

        ensures fails { is_err result ≡ fails self.old.failing self.old.calls }
        ensures most { IfOk result (λ n. n ≡ min self.old.piece (min (length buf.old) (length self.old.left))) }
        ensures ok { IfOk result (λ n. self.new ≡ record self.old { left = drop n self.old.left; calls = raised self.old.calls }) }
        ensures err { OnErr result (self.new ≡ record self.old { calls = raised self.old.calls; faults = raised self.old.faults }) }
    {
        let fails = is_failing(&self.failing, self.calls);
        self.calls = self.calls.saturating_add(1);
        if fails {
            self.faults = self.faults.saturating_add(1);
            return Err(Failed);
        }
        let n = give_front(&self.bytes[self.at..], self.piece as usize, buf);
        self.at += n;
        Ok(n)
    }
}

// Moves the first bytes of `bytes` to the front of `buf`, at most `most` of them.
fn give_front(bytes: &[u8], most: usize, buf: &mut [u8]) -> usize
    ensures count { result ≡ min most (min (length buf.old) (length bytes.now)) }
    ensures front { take result buf.new ≡ take result bytes.now }
{
    let n = most.min(buf.len()).min(bytes.len());
    buf[..n].copy_from_slice(&bytes[..n]);
    n
}

/// A source in memory that never fails.
#[derive(Drop)]
pub struct SureSource {
    bytes: Vec<u8>,
    at: usize,
}

impl Model for SureSource {
    ghost use Rattle.std.specs.Prelude.{◌≤◌, ℕ, List, drop, length};

    ghost Value = { List ℕ };

    ghost view = { λ s. drop s.at s.bytes.items };

    ghost invariant = { λ s. s.at ≤ length s.bytes.items };
}

impl SureSource {
    /// A source of these bytes.
    pub fn new(alloc: Global, bytes: &[u8]) -> Result<SureSource, AllocError>
        ensures { IfOk result (λ s. s ≡ bytes.now) }
    {
        Ok(SureSource {
            bytes: bytes.to_vec(alloc)?,
            at: 0,
        })
    }
}

impl Source for SureSource {
    ghost left = { λ s. Some s };

    ghost faults = { λ s. 0 };

    /// Gives as many bytes as there are and as `buf` has room for.
    fn take(&mut self, buf: &mut [u8]) -> Result<usize, Failed>
        requires { 0 < length buf.old }

        ensures count { IfOk result (λ n. n ≤ length buf.new) }
        ensures taken { IfOk result (λ n. Takes (Some self.old) (Some self.new) (take n buf.new)) }
        ensures end { IfOk result (EndsWhereEmpty (Some self.old)) }
        ensures failed { OnErr result (Rose 0 0) }
        ensures unchanged { OnErr result (Stays (Some self.old) (Some self.new)) }
        ensures no_fault { OnOk result (Same 0 0) }
        ensures faults_kept { 0 ≤ 0 }

        ensures sure { IsOk result }
        ensures most { IfOk result (λ n. n ≡ min (length buf.old) (length self.old)) }
    {
        let n = give_front(&self.bytes[self.at..], buf.len(), buf);
        self.at += n;
        Ok(n)
    }
}
