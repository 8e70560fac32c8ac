// Counters of clocks, made once for each period and offset, and marks, made once for each period, offset and length.

ghost use Rattle.std.specs.Prelude.{◌≡◌, ◌+◌, ◌<◌, ◌≤◌, [], IfOk, OnErr, OnOk, Some, None, Ok, Err, length, if◌then◌else◌};
ghost use Rattle.ae_netlist.specs.declared.cell.NetId.{NetId};
ghost use Rattle.ae_netlist.specs.Circuit.{IsNet};
ghost use Rattle.ae_netlist.specs.Room.{HasRoom};
ghost use Rattle.ae_netlist.specs.Counts.{count_of, is_register};
ghost use Rattle.ae_netlist.specs.Runs.{InEveryResetRun};
ghost use Rattle.ae_clocked.specs.declared.clocks.Phase.{Phase};
ghost use Rattle.ae_clocked.specs.declared.clocks.Mark.{Mark};
ghost use Rattle.ae_gates.specs.Cells.{Adds, is_test};
ghost use Rattle.ae_clocked.specs.Phases.{Belongs, HoldsPhases, IsCounter, IsMark, IsPhaseMark, KeepsCounters, MarksPhases, kept_at, made_of, mark_at, same_mark, same_phase};

use crate::counter::counter;
use crate::marks::marked;
use ae_netlist::{NetId, Netlist};
use ae_word::Width;
use indexmap::IndexMap;
use std::alloc::{AllocError, Global};
use std::marker::Model;

/// What a counter counts: the clocks from `offset` on, from 0 to `period - 1` and round again.
#[derive(Clone, Copy, PartialEq, Eq, Hash)]
pub struct Phase {
    pub period: u32,
    pub offset: u32,
}

/// What a mark tells: the first `from` clocks of each period, where a period begins in the clock `offset`.
#[derive(Clone, Copy, PartialEq, Eq, Hash)]
pub struct Mark {
    pub period: u32,
    pub offset: u32,
    pub from: u32,
}

/// The counters and marks of one netlist.
#[derive(Drop)]
pub struct Clocks {
    rst: NetId,
    counters: IndexMap<Phase, NetId>,
    marks: IndexMap<Mark, NetId>,
}

impl Model for Clocks {
    ghost use Rattle.ae_clocked.specs.Phases.{Kept};

    ghost Value = { Kept };

    ghost view = { λ c. record { rst = c.rst.0; counters = c.counters.entries; marks = c.marks.entries } };
}

impl Clocks {
    /// No counters and no marks are kept yet; `rst` is the net of the reset. Takes no memory.
    pub fn new(alloc: Global, rst: NetId) -> Clocks
        ensures { result ≡ record { rst = rst.0; counters = []; marks = [] } }
    {
        Clocks {
            rst,
            counters: IndexMap::new(alloc),
            marks: IndexMap::new(alloc),
        }
    }

    /// The net of the reset.
    pub fn reset(&self) -> NetId
        ensures { result.0 ≡ self.now.rst }
    {
        self.rst
    }

    /// How many counters and marks are kept.
    pub fn made(&self) -> usize
        ensures { result ≡ made_of self.now }
    {
        self.counters.len() + self.marks.len()
    }

    fn find(&self, phase: Phase) -> Option<NetId>
        ensures { result ≡ kept_at self.now phase }
    {
        self.counters.get(&phase).copied()
    }

    fn keep(&mut self, phase: Phase, net: NetId) -> Result<(), AllocError>
        ensures kept { OnOk result ((q : Phase) → kept_at self.new q ≡ (if same_phase phase q then Some net else kept_at self.old q)) }
        ensures rst { self.new.rst ≡ self.old.rst }
        ensures marks { self.new.marks ≡ self.old.marks }
        ensures more { OnOk result (kept_at self.old phase ≡ None → made_of self.new ≡ made_of self.old + 1) }
        ensures err { OnErr result (self.new ≡ self.old) }
    {
        match self.counters.insert(phase, net) {
            Ok(_) => Ok(()),
            Err(_) => Err(AllocError),
        }
    }

    fn find_mark(&self, mark: Mark) -> Option<NetId>
        ensures { result ≡ mark_at self.now mark }
    {
        self.marks.get(&mark).copied()
    }

    fn keep_mark(&mut self, mark: Mark, net: NetId) -> Result<(), AllocError>
        ensures kept { OnOk result ((q : Mark) → mark_at self.new q ≡ (if same_mark mark q then Some net else mark_at self.old q)) }
        ensures rst { self.new.rst ≡ self.old.rst }
        ensures counters { self.new.counters ≡ self.old.counters }
        ensures more { OnOk result (mark_at self.old mark ≡ None → length self.new.marks ≡ length self.old.marks + 1) }
        ensures err { OnErr result (self.new ≡ self.old) }
    {
        match self.marks.insert(mark, net) {
            Ok(_) => Ok(()),
            Err(_) => Err(AllocError),
        }
    }

    /// The net that counts the clocks after reset from `offset` on, from 0 to `period - 1` and round again: in clock c
    /// its word is `(c + period - offset) mod period`. Its width is the least one that holds them. A counter that was
    /// made before is answered again, and nothing is added; a new one takes at most 12 cells.
    pub fn phase(&mut self, nl: &mut Netlist, period: u32, offset: u32) -> Result<NetId, AllocError>
        requires belongs { Belongs self.old nl.old.cells }
        requires low { offset < period }
        requires high { period ≤ 4096 }
        requires room { HasRoom nl.old 12 }
        ensures belongs { OnOk result (Belongs self.new nl.new.cells) }
        ensures adds { OnOk result (Adds nl.old nl.new 12 0) }
        ensures registers { OnOk result (count_of is_register nl.new.cells + made_of self.old ≤ count_of is_register nl.old.cells + made_of self.new) }
        ensures tests { OnOk result (count_of is_test nl.new.cells + made_of self.old ≤ count_of is_test nl.old.cells + made_of self.new) }
        ensures gained { OnOk result (made_of self.new ≤ made_of self.old + 1) }
        ensures marks { OnOk result (self.new.marks ≡ self.old.marks) }
        ensures rst { OnOk result (self.new.rst ≡ self.old.rst) }
        ensures again { (net : NetId) → kept_at self.old (record { period = period; offset = offset }) ≡ Some net → (result ≡ Ok net) × (nl.new ≡ nl.old) × (self.new ≡ self.old) }
        ensures keeps { IfOk result (λ net. (q : Phase) → kept_at self.new q ≡ (if same_phase (record { period = period; offset = offset }) q then Some net else kept_at self.old q)) }
        ensures refused { OnErr result (self.new ≡ self.old) }
        ensures counts { IfOk result (λ net. IsCounter nl.new.cells self.old.rst (record { period = period; offset = offset }) net.0) }
    {
        let phase = Phase { period, offset };
        if let Some(net) = self.find(phase) {
            return Ok(net);
        }
        let width = width_for(period);
        let first = (period - offset) % period;
        let net = counter(nl, self.rst, width, u64::from(period - 1), u64::from(first))?;
        self.keep(phase, net)?;
        Ok(net)
    }

    /// Makes a mark that is not kept yet, by a counter of its period that begins in the clock `at`, and keeps it.
    fn make_mark(
        &mut self,
        nl: &mut Netlist,
        counter: NetId,
        at: u32,
        mark: Mark,
    ) -> Result<NetId, AllocError>
        requires belongs { Belongs self.old nl.old.cells }
        requires counter { IsCounter nl.old.cells self.old.rst (record { period = mark.period; offset = at }) counter.0 }
        requires new { mark_at self.old mark ≡ None }
        requires begins { at < mark.period }
        requires low { mark.offset < mark.period }
        requires high { mark.period ≤ 4096 }
        requires within { mark.from ≤ mark.period }
        requires room { HasRoom nl.old 9 }
        ensures belongs { OnOk result (Belongs self.new nl.new.cells) }
        ensures counters { OnOk result (self.new.counters ≡ self.old.counters) }
        ensures rst { OnOk result (self.new.rst ≡ self.old.rst) }
        ensures adds { OnOk result (Adds nl.old nl.new 9 0) }
        ensures registers { OnOk result (count_of is_register nl.new.cells ≤ count_of is_register nl.old.cells + 1) }
        ensures tests { OnOk result (count_of is_test nl.new.cells ≤ count_of is_test nl.old.cells + 2) }
        ensures gained { OnOk result (length self.new.marks ≡ length self.old.marks + 1) }
        ensures mark { IfOk result (λ y. IsPhaseMark nl.new.cells self.old.rst mark y.0) }
    {
        let y = marked(
            nl,
            self.rst,
            counter,
            mark.period,
            at,
            mark.offset,
            mark.from,
        )?;
        self.keep_mark(mark, y)?;
        Ok(y)
    }

    /// The bit that is 1 in those clocks after reset in which the phase of this counter is below `from`, and else 0: what a
    /// comparison of the counter would say, but kept in a register, where that is smaller. A mark of these clocks that was
    /// made before is answered again, and nothing is added; a new one takes at most 9 cells.
    pub fn mark(
        &mut self,
        nl: &mut Netlist,
        phase: NetId,
        period: u32,
        offset: u32,
        from: u32,
    ) -> Result<NetId, AllocError>
        requires belongs { Belongs self.old nl.old.cells }
        requires counter { IsCounter nl.old.cells self.old.rst (record { period = period; offset = offset }) phase.0 }
        requires low { offset < period }
        requires high { period ≤ 4096 }
        requires within { from ≤ period }
        requires room { HasRoom nl.old 9 }
        ensures belongs { OnOk result (Belongs self.new nl.new.cells) }
        ensures keeps { OnOk result (KeepsCounters self.old self.new) }
        ensures adds { OnOk result (Adds nl.old nl.new 9 0) }
        ensures registers { OnOk result (count_of is_register nl.new.cells + made_of self.old ≤ count_of is_register nl.old.cells + made_of self.new) }
        ensures tests { OnOk result (count_of is_test nl.new.cells + made_of self.old + length self.old.marks ≤ count_of is_test nl.old.cells + made_of self.new + length self.new.marks) }
        ensures gained { OnOk result (length self.new.marks ≤ length self.old.marks + 1) }
        ensures net { IfOk result (λ y. IsNet nl.new.cells y.0 1) }
        ensures marks { IfOk result (λ y. InEveryResetRun nl.new.cells self.old.rst (λ run start. IsMark run start y.0 phase.0 from)) }
    {
        let mark = Mark {
            period,
            offset,
            from,
        };
        if let Some(net) = self.find_mark(mark) {
            return Ok(net);
        }
        let y = self.make_mark(nl, phase, offset, mark)?;
        Ok(y)
    }

    /// The offset of one of the last counters that were made, if it has this period, or else the wanted one.
    fn offset_for(&self, period: u32, wanted: u32) -> u32
        requires wanted { wanted < period }
        ensures { result < period }
    {
        if self
            .find(Phase {
                period,
                offset: wanted,
            })
            .is_some()
        {
            return wanted;
        }
        let count = self.counters.len();
        for k in 0..count.min(8) {
            if let Some((phase, _)) = self.counters.get_index(count - 1 - k) {
                if phase.period == period && phase.offset < period {
                    return phase.offset;
                }
            }
        }
        wanted
    }

    /// The bit that is 1 in the first `from` clocks of each period from the clock `offset` after reset on, and else 0. It is
    /// told by a counter of that period that was made lately, or by one that is made now and begins in the clock `wanted`:
    /// where a later stage will ask for a counter, the two can share it. A mark of these clocks that was made before is
    /// answered again, and nothing is added; a new one takes at most 21 cells.
    pub fn lead(
        &mut self,
        nl: &mut Netlist,
        period: u32,
        offset: u32,
        from: u32,
        wanted: u32,
    ) -> Result<NetId, AllocError>
        requires belongs { Belongs self.old nl.old.cells }
        requires low { offset < period }
        requires wanted { wanted < period }
        requires high { period ≤ 4096 }
        requires within { from ≤ period }
        requires room { HasRoom nl.old 21 }
        ensures belongs { OnOk result (Belongs self.new nl.new.cells) }
        ensures keeps { OnOk result (KeepsCounters self.old self.new) }
        ensures adds { OnOk result (Adds nl.old nl.new 21 0) }
        ensures registers { OnOk result (count_of is_register nl.new.cells + made_of self.old ≤ count_of is_register nl.old.cells + made_of self.new) }
        ensures tests { OnOk result (count_of is_test nl.new.cells + made_of self.old + length self.old.marks ≤ count_of is_test nl.old.cells + made_of self.new + length self.new.marks) }
        ensures net { IfOk result (λ y. IsNet nl.new.cells y.0 1) }
        ensures marks { IfOk result (λ y. InEveryResetRun nl.new.cells self.old.rst (λ run start. MarksPhases run start y.0 period offset from)) }
    {
        let mark = Mark {
            period,
            offset,
            from,
        };
        if let Some(net) = self.find_mark(mark) {
            return Ok(net);
        }
        let at = self.offset_for(period, wanted);
        let counter = self.phase(nl, period, at)?;
        let y = self.make_mark(nl, counter, at, mark)?;
        Ok(y)
    }
}

/// The bits that hold all numbers below the period.
fn width_for(period: u32) -> Width
    requires low { 1 ≤ period }
    requires high { period ≤ 4096 }
    ensures holds { HoldsPhases result period }
    ensures small { result ≤ 12 }
{
    for bits in 1..12u32 {
        if period <= 1u32 << bits {
            return Width { bits };
        }
    }
    Width { bits: 12 }
}
