// The building of moves.

ghost use Rattle.std.specs.Prelude.{◌≡◌, ◌≤◌, ◌+◌, ◌∷◌, [], ◌++◌, IfOk, IfSome, OnOk, length};
ghost use Rattle.ae_word.specs.AtomTree.{unsigned_word};
ghost use Rattle.ae_sttype.specs.StTree.{atom, sseq, st_tree, tseq};
ghost use Rattle.ae_netlist.specs.Circuit.{Extends, IsNet};
ghost use Rattle.ae_sttype.specs.Moves.{columns_of};
ghost use Rattle.ae_ops.specs.Waves.{AreNets};
ghost use Rattle.ae_gather.specs.Gathers.{IsGather, move_of};

use ae_clocked::Clocks;
use ae_gather::{Gather, Origin};
use ae_netlist::{Cell, NetFault, NetId, Netlist, Port};
use ae_ops::{Bundle, Stage};
use ae_sttype::StType;
use ae_word::{Atom, Width};
use std::alloc::{AllocError, Global};
use table_text::Page;

/// Where the words of the result come from.
#[derive(Clone, Copy)]
pub enum Order {
    /// Backwards: the last word comes first.
    Reversed,
    /// Each lane has a quarter of the words, one behind the other.
    Transposed,
}

// Words of 16 bits in so many clocks, four side by side in each.
fn rows(alloc: Global, clocks: u32) -> Result<StType, AllocError>
    ensures { IfOk result (λ t. st_tree t ≡ tseq clocks 0 (sseq 4 (atom (unsigned_word 16)))) }
{
    let of = Box::new(alloc, StType::Atom(Atom::Word(16)))?;
    let of = Box::new(alloc, StType::S { n: 4, of })?;
    Ok(StType::T {
        n: clocks,
        i: 0,
        of,
    })
}

// Words of 16 bits on four lanes, so many behind one another on each.
fn columns(alloc: Global, clocks: u32) -> Result<StType, AllocError>
    ensures { IfOk result (λ t. columns_of (st_tree t) ≡ 4) }
{
    let of = Box::new(alloc, StType::Atom(Atom::Word(16)))?;
    let of = Box::new(
        alloc,
        StType::T {
            n: clocks,
            i: 0,
            of,
        },
    )?;
    Ok(StType::S { n: 4, of })
}

// The origins of so many words, the last word first or all in order.
fn origins(alloc: Global, order: Order, words: u32) -> Result<Vec<Origin>, AllocError> {
    let mut source = Vec::new(alloc);
    for place in 0..words {
        let element = match order {
            Order::Reversed => words - 1 - place,
            Order::Transposed => place,
        };
        source.push(Origin::Word {
            input: 0,
            element,
            word: 0,
        })?;
    }
    Ok(source)
}

// The move in so many clocks; none where they are none or too many.
fn stage(alloc: Global, order: Order, clocks: u16) -> Result<Option<Gather>, AllocError>
    ensures moves { IfOk result (λ found. IfSome found (λ stage. IsGather (move_of stage))) }
    ensures ins { IfOk result (λ found. IfSome found (λ stage. (move_of stage).ins ≡ tseq clocks 0 (sseq 4 (atom (unsigned_word 16))) ∷ [])) }
    ensures out { IfOk result (λ found. IfSome found (λ stage. columns_of (move_of stage).out ≡ 4)) }
{
    let clocks = u32::from(clocks);
    let mut ins = Vec::new(alloc);
    ins.push(rows(alloc, clocks)?)?;
    let out = match order {
        Order::Reversed => rows(alloc, clocks)?,
        Order::Transposed => columns(alloc, clocks)?,
    };
    let found = Gather::new(ins, out, origins(alloc, order, 4 * clocks)?);
    Ok(found)
}

// One more input, and its net.
fn input(nl: &mut Netlist, width: Width, port: Port) -> Result<NetId, NetFault>
    ensures extends { Extends nl.old.cells nl.new.cells }
    ensures cells { length nl.new.cells ≤ length nl.old.cells + 1 }
    ensures limit { nl.new.limit ≡ nl.old.limit }
    ensures net { IfOk result (λ y. IsNet nl.new.cells y.0 width) }
{
    nl.add(width, Cell::Input(port))
}

fn keep(nets: &mut Vec<NetId>, net: NetId) -> Result<(), NetFault>
    ensures { OnOk result (nets.new.items ≡ nets.old.items ++ net ∷ []) }
{
    match nets.push(net) {
        Ok(()) => Ok(()),
        Err(_) => Err(NetFault::Memory),
    }
}

// Inputs for four words of 16 bits.
fn inputs(alloc: Global, nl: &mut Netlist) -> Result<Bundle, NetFault>
    ensures extends { Extends nl.old.cells nl.new.cells }
    ensures cells { length nl.new.cells ≤ length nl.old.cells + 4 }
    ensures limit { nl.new.limit ≡ nl.old.limit }
    ensures nets { IfOk result (λ nets. AreNets nl.new.cells (16 ∷ 16 ∷ 16 ∷ 16 ∷ []) nets) }
{
    let mut nets = Vec::new(alloc);
    for lane in 0..4 {
        let port = Port::In {
            param: 0,
            lane,
            word: 0,
        };
        let net = input(nl, Width { bits: 16 }, port)?;
        keep(&mut nets, net)?;
    }
    Ok(Bundle::new(nets))
}

// How many cells the stage and its inputs take.
fn cells(alloc: Global, stage: &Gather, clocks: u16) -> Result<u32, NetFault>
    requires moves { IsGather (move_of stage.now) }
    requires ins { (move_of stage.now).ins ≡ tseq clocks 0 (sseq 4 (atom (unsigned_word 16))) ∷ [] }
    requires out { columns_of (move_of stage.now).out ≡ 4 }
{
    // no move is as late; with this its cells have room
    if stage.latency() > 4096 {
        return Err(NetFault::Full);
    }
    let mut nl = Netlist::new(alloc, 10_000_000);
    let rst = input(&mut nl, Width::BIT, Port::Reset)?;
    let mut counters = Clocks::new(alloc, rst);
    let ins = [inputs(alloc, &mut nl)?];
    stage.build(alloc, &mut nl, &mut counters, &ins, 0)?;
    Ok(nl.len())
}

fn tell_stage(alloc: Global, out: &mut Page, stage: &Gather, clocks: u16)
    requires moves { IsGather (move_of stage.now) }
    requires ins { (move_of stage.now).ins ≡ tseq clocks 0 (sseq 4 (atom (unsigned_word 16))) ∷ [] }
    requires out { columns_of (move_of stage.now).out ≡ 4 }
{
    match cells(alloc, stage, clocks) {
        Ok(cells) => {
            out.tell("", &clocks);
            out.tell(" clocks, ", &cells);
            out.tell_line(" cells, latency ", &stage.latency());
        }
        Err(_) => out.say("no room\n"),
    }
}

/// Builds a move of four words in so many clocks, and tells its cells and its latency.
pub fn build(alloc: Global, out: &mut Page, order: Order, clocks: u32) {
    let few = u16::try_from(clocks).unwrap_or(0);
    match stage(alloc, order, few) {
        Ok(Some(stage)) => tell_stage(alloc, out, &stage, few),
        Ok(None) => {
            out.tell("no move of ", &clocks);
            out.say(" clocks\n");
        }
        Err(_) => out.cut(),
    }
}
