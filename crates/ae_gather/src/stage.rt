// The stage of a move.

ghost use Rattle.std.specs.Prelude.{◌≡◌, ◌≤◌, ◌+◌, ◌↔◌, length, map, IsSome, IfOk, IfSome, OnOk, Some};
ghost use Rattle.ae_netlist.specs.Counts.{AreWhole, count_of, is_memory, is_mul};
ghost use Rattle.ae_netlist.specs.Room.{HasRoom};
ghost use Rattle.ae_gates.specs.Cells.{Grows};
ghost use Rattle.ae_clocked.specs.Phases.{Belongs, KeepsCounters, made_of};
ghost use Rattle.ae_ops.specs.Waves.{AreNets};
ghost use Rattle.ae_ops.specs.Blocks.{AreBundles, KeepsLaw, stream_widths};
ghost use Rattle.ae_columns.specs.Counts.{Counted};
ghost use Rattle.ae_sttype.specs.StTree.{st_tree, time};
ghost use Rattle.ae_moves.specs.Trees.{origin_tree};
ghost use Rattle.ae_gather.specs.Gathers.{IsGather, gather_part, move_of, move_registers, move_tests};

use crate::joining::join;
use crate::layouts::all_widths;
use crate::moving::{BlockTimes, gather};
use ae_clocked::Clocks;
use ae_moves::{Origin, all_trips, is_move, latency};
use ae_netlist::Netlist;
use ae_ops::{Bundle, Stage};
use ae_sttype::StType;
use std::alloc::{AllocError, Global};
use std::marker::Model;

/// The most inputs of a move. So the numbers of their columns have 32 bits.
const MOST_ARGUMENTS: usize = 65536;

/// A move between layouts: each word of the output is that of its origin, or it is fixed.
#[derive(Drop)]
pub struct Gather {
    ins: Vec<StType>,
    out: StType,
    source: Vec<Origin>,
    alone: bool,
}

impl Model for Gather {
    ghost use Rattle.std.specs.Prelude.{map};
    ghost use Rattle.std.specs.Coded.{codes};
    ghost use Rattle.ae_sttype.specs.contracts.st_type.StType as e;
    ghost use Rattle.ae_moves.specs.Trees.{origin_tree};
    ghost use Rattle.ae_gather.specs.Gathers.{IsGather, Layouts, move_of};

    ghost Value = { Layouts };

    ghost coded = { Prim.hlevel (codes, e.the_row.coded) };

    ghost view = { λ g. record { ins = g.ins.items; out = g.out; origins = map origin_tree g.source.items } };

    ghost invariant = { λ g. IsGather (move_of (record { ins = g.ins.items; out = g.out; origins = map origin_tree g.source.items })) };
}

impl Gather {
    /// The move between these layouts, where `source` has one entry for each output word, by element and then by word.
    /// None exactly where a type is not in size, their times differ, there are more or fewer entries, an origin is not
    /// there, its width is not that of its output word or too small for the fixed word, or more than 65,536 layouts come
    /// in. Takes no memory.
    pub fn new(ins: Vec<StType>, out: StType, source: Vec<Origin>) -> Option<Gather>
        ensures some { IsSome result ↔ IsGather (record { ins = map st_tree ins.items; out = st_tree out; origins = map origin_tree source.items }) }
        ensures is { IfSome result (λ g. move_of g ≡ record { ins = map st_tree ins.items; out = st_tree out; origins = map origin_tree source.items }) }
    {
        let few = ins.len() <= MOST_ARGUMENTS;
        if few && is_move(&ins, &out, &source) {
            Some(Gather::of_move(ins, out, source))
        } else {
            None
        }
    }

    /// The same of what is known to be such a move: nothing is tested.
    pub fn of_move(ins: Vec<StType>, out: StType, source: Vec<Origin>) -> Gather
        requires { IsGather (record { ins = map st_tree ins.items; out = st_tree out; origins = map origin_tree source.items }) }
        ensures { move_of result ≡ record { ins = map st_tree ins.items; out = st_tree out; origins = map origin_tree source.items } }
    {
        Gather {
            ins,
            out,
            source,
            alone: false,
        }
    }

    /// Says that nothing but this move reads its arguments, so that a choice may stand in front of a register. The
    /// circuit's words are the same.
    pub fn alone(self) -> Gather
        ensures { move_of result ≡ move_of self }
    {
        Gather {
            ins: self.ins,
            out: self.out,
            source: self.source,
            alone: true,
        }
    }
}

impl Stage for Gather {
    ghost part = { λ g. gather_part (move_of g) };

    fn period(&self) -> u32 {
        self.out.time()
    }

    fn latency(&self) -> u32 {
        latency(&self.ins, &self.out, &self.source)
    }

    /// Beside what it promises as a stage: its registers are at most one for each held column of the inputs, 7 for each other
    /// that is used, and one for each counter and mark that it makes; its comparisons at most one for each step of an output
    /// column, for each held column, and for each counter and mark.
    fn build(
        &self,
        alloc: Global,
        nl: &mut Netlist,
        clocks: &mut Clocks,
        ins: &[Bundle],
        arrival: u32,
    ) -> Result<Bundle, AllocError>
        requires belongs { Belongs clocks.old nl.old.cells }
        requires bundles { AreBundles nl.old.cells (gather_part (move_of self.now)).ins ins.now }
        requires room { HasRoom nl.old ((gather_part (move_of self.now)).most_cells) }
        ensures belongs { OnOk result (Belongs clocks.new nl.new.cells) }
        ensures keeps { OnOk result (KeepsCounters clocks.old clocks.new) }
        ensures grows { OnOk result (Grows nl.old nl.new) }
        ensures cells { OnOk result (length nl.new.cells ≤ length nl.old.cells + (gather_part (move_of self.now)).most_cells) }
        ensures muls { OnOk result (count_of is_mul nl.new.cells ≡ count_of is_mul nl.old.cells + (gather_part (move_of self.now)).products) }
        ensures memories { OnOk result (count_of is_memory nl.new.cells ≤ count_of is_memory nl.old.cells + (gather_part (move_of self.now)).most_memories) }
        ensures whole { OnOk result (AreWhole nl.old.cells → AreWhole nl.new.cells) }
        ensures bundle { IfOk result (λ out. AreNets nl.new.cells (stream_widths (gather_part (move_of self.now)).out) out) }
        ensures law { IfOk result (λ out. KeepsLaw nl.new.cells clocks.old.rst arrival (gather_part (move_of self.now)) ins.now out) }
        ensures counted { OnOk result (Counted nl.old nl.new (made_of clocks.old) (made_of clocks.new) (move_registers (move_of self.now)) (move_tests (move_of self.now))) }
    {
        let period = self.out.time();
        let joined = join(alloc, ins)?;
        let trips = all_trips(alloc, &self.ins, &joined.firsts, &self.out, &self.source)?;
        let widths = all_widths(alloc, &self.out)?;
        let latency = latency(&self.ins, &self.out, &self.source);
        let times = BlockTimes {
            period,
            latency,
            arrival,
        };
        let nets = gather(
            alloc,
            nl,
            clocks,
            &joined.nets,
            &widths,
            &trips,
            times,
            self.alone,
        )?;
        Ok(Bundle::new(nets))
    }
}
