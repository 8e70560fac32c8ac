// The times and words of a body.

ghost use Rattle.std.specs.Prelude.{◌≡◌, ℕ, ◌+◌, ◌++◌, ◌∷◌, [], ◌<◌, ◌≤◌, ◌^◌, length, List, true, None, Some, IfOk, OnOk, is_some, replicate, if◌then◌else◌};
ghost use Rattle.std.specs.List.{All};
ghost use Rattle.std.specs.Str.Parse.{digits_value};
ghost use Rattle.ae_vcd.specs.Forms.{Piece, Time, Variable};
ghost use Rattle.ae_vcd.specs.Machine.{time_of};
ghost use Rattle.ae_vcd.specs.Rows.{words_now};
ghost use Rattle.ae_vcd.specs.Held.{HasAdvanced, HasTimes, IsClosed, IsFresh, IsLater, is_small, row};

use crate::wave::SIZE_LIMIT;
use std::alloc::{AllocError, Global};

/// What a body has said so far.
#[derive(Drop)]
pub struct Recorded {
    /// The word that each code has now.
    pub latest: Vec<u64>,
    /// How many different times there were.
    pub count: u64,
    /// The last of them.
    pub last: Option<u64>,
    /// The times, while the size of the wave is within its limit.
    pub times: Vec<u64>,
    /// The words of all times but the last, as long.
    pub words: Vec<u64>,
}

impl Recorded {
    /// Nothing.
    pub fn new(alloc: Global) -> Recorded
        ensures { IsFresh result }
    {
        Recorded {
            latest: Vec::new(alloc),
            count: 0,
            last: None,
            times: Vec::new(alloc),
            words: Vec::new(alloc),
        }
    }

    /// Whether there was a time.
    pub fn is_timed(&self) -> bool
        ensures { result ≡ is_some self.now.last }
    {
        self.last.is_some()
    }

    /// Gives so many codes the word 0.
    pub fn begin(&mut self, codes: usize) -> Result<(), AllocError>
        ensures now { OnOk result (self.new.latest.items ≡ self.old.latest.items ++ replicate codes 0) }
        ensures count { self.new.count ≡ self.old.count }
        ensures last { self.new.last ≡ self.old.last }
        ensures times { self.new.times.items ≡ self.old.times.items }
        ensures words { self.new.words.items ≡ self.old.words.items }
    {
        for _code in 0..codes {
            self.latest.push(0)?;
        }
        Ok(())
    }

    // Whether the wave is within its limit.
    fn within_limit(&self, numbers: &[usize]) -> bool
        ensures { result ≡ is_small self.now.count (length numbers.now) }
    {
        self.count <= SIZE_LIMIT / (1 + numbers.len() as u64)
    }

    // Keeps the present words of the variables.
    fn push_row(&mut self, numbers: &[usize]) -> Result<(), AllocError>
        requires { All (λ n. n < length self.old.latest.items) numbers.now }
        ensures words { OnOk result (self.new.words.items ≡ self.old.words.items ++ row self.old.latest.items numbers.now) }
        ensures now { self.new.latest.items ≡ self.old.latest.items }
        ensures count { self.new.count ≡ self.old.count }
        ensures last { self.new.last ≡ self.old.last }
        ensures times { self.new.times.items ≡ self.old.times.items }
    {
        for number in numbers {
            let word = self.latest[*number];
            self.words.push(word)?;
        }
        Ok(())
    }

    /// Keeps the words of the last time, if there is one.
    pub fn close(&mut self, numbers: &[usize]) -> Result<(), AllocError>
        requires { All (λ n. n < length self.old.latest.items) numbers.now }
        ensures { OnOk result (IsClosed self.old self.new numbers.now) }
    {
        if !self.is_timed() || !self.within_limit(numbers) {
            return Ok(());
        }
        self.push_row(numbers)
    }

    // Keeps a time.
    fn push_time(&mut self, time: u64, numbers: &[usize]) -> Result<(), AllocError>
        ensures times { OnOk result (self.new.times.items ≡ (if is_small self.old.count (length numbers.now) then self.old.times.items ++ time ∷ [] else self.old.times.items)) }
        ensures now { self.new.latest ≡ self.old.latest }
        ensures count { self.new.count ≡ self.old.count }
        ensures last { self.new.last ≡ self.old.last }
        ensures words { self.new.words ≡ self.old.words }
    {
        if !self.within_limit(numbers) {
            return Ok(());
        }
        self.times.push(time)?;
        Ok(())
    }

    // Begins a time that is later than the last.
    fn open(&mut self, time: u64, numbers: &[usize]) -> Result<(), AllocError>
        requires known { All (λ n. n < length self.old.latest.items) numbers.now }
        requires room { self.old.count < 2 ^ 32 }
        ensures answer { (vs : List Variable) (ps : List Piece) (digits : List ℕ) → HasTimes self.old vs ps → length numbers.now ≡ length vs → row self.old.latest.items numbers.now ≡ words_now vs ps → time ≡ digits_value 10 digits → IsLater (time_of None ps) time → OnOk result (HasTimes self.new vs (ps ++ Time digits ∷ []) × (self.new.latest.items ≡ self.old.latest.items)) }
        ensures count { OnOk result (self.new.count ≡ self.old.count + 1) }
    {
        self.close(numbers)?;
        self.count += 1;
        self.last = Some(time);
        self.push_time(time, numbers)?;
        Ok(())
    }

    /// Goes on to a time, unless it is before the last one, and says whether it did.
    pub fn advance(&mut self, time: u64, numbers: &[usize]) -> Result<bool, AllocError>
        requires known { All (λ n. n < length self.old.latest.items) numbers.now }
        requires room { self.old.count < 2 ^ 32 }
        ensures answer { (vs : List Variable) (ps : List Piece) (digits : List ℕ) → HasTimes self.old vs ps → length numbers.now ≡ length vs → row self.old.latest.items numbers.now ≡ words_now vs ps → time ≡ digits_value 10 digits → IfOk result (λ b. HasAdvanced b self.old self.new vs ps digits) }
        ensures count { OnOk result (self.new.count ≤ self.old.count + 1) }
    {
        let Some(last) = self.last else {
            self.open(time, numbers)?;
            return Ok(true);
        };
        if time < last {
            return Ok(false);
        }
        if time == last {
            return Ok(true);
        }
        self.open(time, numbers)?;
        Ok(true)
    }
}
