// Nets with what names have: words, bits, parts, and words of memories.

ghost use Rattle.std.specs.Prelude.{◌≡◌, ◌<◌, ◌≤◌, ◌+◌, ◌-◌, ◌^◌, ℕ, List, length, get_or, IfOk, OnOk, true, if◌then◌else◌, Some, slice_get};
ghost use Rattle.ae_netlist.specs.Circuit.{IsAddress, IsMemory, IsNet};
ghost use Rattle.ae_netlist.specs.Runs.{Clock, store_at};
ghost use Rattle.ae_vmodule.specs.ModuleTree.{index as index_tree, name as name_tree, part as part_tree, place as place_tree};
ghost use Rattle.ae_judge.specs.Names.{depth_of, is_memory_name};
ghost use Rattle.ae_judge.specs.Widths.{declared_width};
ghost use Rattle.ae_runs.specs.Values.{value_at};
ghost use Rattle.ae_netlist.specs.Room.{HasRoom};
ghost use Rattle.ae_gates.specs.Cells.{AddsGates, IsWord};
ghost use Rattle.ae_runs.specs.Named.{AreNamed, AreNets, IsNamed, IsReady, place_of, read};
ghost use Rattle.ae_order.specs.Sound.{IsWordName, places_of};
ghost use Rattle.ae_vmodule.specs.View.{word_at};

use crate::maybe_net::MaybeNet;
use crate::own::name_width;
use ae_gates::{constant, cut, widen};
use ae_judge::Names;
use ae_netlist::{Cell, NetId, Netlist};
use ae_order::place_of;
use ae_word::Width;
use std::alloc::AllocError;

/// The net of a name that has one.
pub fn net_of(names: &Names<'_>, nets: &[MaybeNet], name: u32) -> NetId
    requires named { IsNamed names.now.nets (word_at names.now.words name) }
    requires ready { IsReady names.now.nets nets.now (word_at names.now.words name) }
    ensures { slice_get nets.now (place_of names.now.nets (word_at names.now.words name)) ≡ Some (Some result) }
{
    match nets[place_of(names, name)].net() {
        Some(net) => net,
        None => unreachable!(),
    }
}

/// The word of a name.
pub fn read_name(
    nl: &mut Netlist,
    from: u32,
    names: &Names<'_>,
    nets: &[MaybeNet],
    w: u32,
    name: u32,
) -> Result<NetId, AllocError>
    requires from { from ≤ length nl.old.cells }
    requires nets { AreNets names.now.nets nets.now nl.old.cells }
    requires named { IsWordName names.now.nets (word_at names.now.words name) }
    requires ready { IsReady names.now.nets nets.now (word_at names.now.words name) }
    requires high { w ≤ 64 }
    requires within { declared_width names.now.nets (word_at names.now.words name) ≤ w }
    requires room { HasRoom nl.old 1 }
    ensures adds { OnOk result (AddsGates nl.old nl.new 1) }
    ensures net { IfOk result (λ y. IsNet nl.new.cells y.0 w) }
    ensures word { IfOk result (λ y. (at : List ℕ → ℕ) → AreNamed names.now.nets nets.now at → IsWord from nl.new.cells y.0 w (λ run t. value_at names.now.nets (read at run t) w (name_tree (word_at names.now.words name)))) }
{
    let net = net_of(names, nets, name);
    let width = name_width(names, name);
    let y = widen(nl, from, net, width, w)?;
    Ok(y)
}

/// A part of the word of a name.
pub fn read_part(
    nl: &mut Netlist,
    from: u32,
    names: &Names<'_>,
    nets: &[MaybeNet],
    w: u32,
    name: u32,
    high: u32,
    low: u32,
) -> Result<NetId, AllocError>
    requires from { from ≤ length nl.old.cells }
    requires nets { AreNets names.now.nets nets.now nl.old.cells }
    requires named { IsWordName names.now.nets (word_at names.now.words name) }
    requires ready { IsReady names.now.nets nets.now (word_at names.now.words name) }
    requires order { low ≤ high }
    requires inside { high < declared_width names.now.nets (word_at names.now.words name) }
    requires most { w ≤ 64 }
    requires within { high - low + 1 ≤ w }
    requires room { HasRoom nl.old 3 }
    ensures adds { OnOk result (AddsGates nl.old nl.new 3) }
    ensures net { IfOk result (λ y. IsNet nl.new.cells y.0 w) }
    ensures word { IfOk result (λ y. (at : List ℕ → ℕ) → AreNamed names.now.nets nets.now at → IsWord from nl.new.cells y.0 w (λ run t. value_at names.now.nets (read at run t) w (part_tree (word_at names.now.words name) high low))) }
{
    let net = net_of(names, nets, name);
    let width = name_width(names, name);
    let y = cut(nl, from, net, width, low, high - low + 1, w)?;
    Ok(y)
}

/// The word of a memory at the place that a net says.
fn peek(
    nl: &mut Netlist,
    from: u32,
    memory: NetId,
    at: NetId,
    width: u32,
    _depth: u32,
    _own: u32,
) -> Result<NetId, AllocError>
    requires from { from ≤ length nl.old.cells }
    requires low { 1 ≤ width }
    requires high { width ≤ 64 }
    requires memory { IsMemory nl.old.cells memory.0 width _depth }
    requires address { IsAddress nl.old.cells at.0 _depth }
    requires room { HasRoom nl.old 1 }
    ensures adds { OnOk result (AddsGates nl.old nl.new 1) }
    ensures net { IfOk result (λ y. IsNet nl.new.cells y.0 width) }
    ensures word { IfOk result (λ y. (f : List Clock → ℕ → ℕ) → IsWord from nl.old.cells at.0 _own f → IsWord from nl.new.cells y.0 width (λ run t. get_or (store_at run t memory.0) (f run t) 0)) }
{
    let y = nl.push(Width { bits: width }, Cell::Peek { mem: memory, at })?;
    Ok(y)
}

/// A net with the number of a place in a memory.
pub fn address(nl: &mut Netlist, from: u32, place: u32) -> Result<NetId, AllocError>
    requires from { from ≤ length nl.old.cells }
    requires below { place < 65536 }
    requires room { HasRoom nl.old 1 }
    ensures adds { OnOk result (AddsGates nl.old nl.new 1) }
    ensures net { IfOk result (λ y. IsNet nl.new.cells y.0 16) }
    ensures word { IfOk result (λ y. IsWord from nl.new.cells y.0 16 (λ run t. place)) }
    ensures address { IfOk result (λ y. (depth : ℕ) → place < depth → IsAddress nl.new.cells y.0 depth) }
{
    let y = constant(nl, Width { bits: 16 }, u64::from(place))?;
    Ok(y)
}

/// A bit of the word of a name, or a word of a memory, at a place that is given.
pub fn read_place(
    nl: &mut Netlist,
    from: u32,
    names: &Names<'_>,
    nets: &[MaybeNet],
    w: u32,
    name: u32,
    k: u32,
) -> Result<NetId, AllocError>
    requires from { from ≤ length nl.old.cells }
    requires nets { AreNets names.now.nets nets.now nl.old.cells }
    requires named { IsNamed names.now.nets (word_at names.now.words name) }
    requires ready { IsReady names.now.nets nets.now (word_at names.now.words name) }
    requires inside { k < places_of names.now.nets (word_at names.now.words name) }
    requires high { w ≤ 64 }
    requires within { (if is_memory_name names.now.nets (word_at names.now.words name) then declared_width names.now.nets (word_at names.now.words name) else 1) ≤ w }
    requires room { HasRoom nl.old 3 }
    ensures adds { OnOk result (AddsGates nl.old nl.new 3) }
    ensures net { IfOk result (λ y. IsNet nl.new.cells y.0 w) }
    ensures word { IfOk result (λ y. (at : List ℕ → ℕ) → AreNamed names.now.nets nets.now at → IsWord from nl.new.cells y.0 w (λ run t. value_at names.now.nets (read at run t) w (index_tree (word_at names.now.words name) (place_tree k)))) }
{
    let net = net_of(names, nets, name);
    let width = name_width(names, name);
    if names.is_memory(name) {
        let at = address(nl, from, k)?;
        let word = peek(nl, from, net, at, width, names.depth(name), 16)?;
        let read = widen(nl, from, word, width, w)?;
        return Ok(read);
    }
    let y = cut(nl, from, net, width, k, 1, w)?;
    Ok(y)
}

/// The word of a memory at the place that a net of some width says.
pub fn read_word(
    nl: &mut Netlist,
    from: u32,
    names: &Names<'_>,
    nets: &[MaybeNet],
    w: u32,
    name: u32,
    at: NetId,
    own: u32,
) -> Result<NetId, AllocError>
    requires from { from ≤ length nl.old.cells }
    requires nets { AreNets names.now.nets nets.now nl.old.cells }
    requires named { IsNamed names.now.nets (word_at names.now.words name) }
    requires ready { IsReady names.now.nets nets.now (word_at names.now.words name) }
    requires memory { is_memory_name names.now.nets (word_at names.now.words name) ≡ true }
    requires inside { 2 ^ own ≤ depth_of names.now.nets (word_at names.now.words name) }
    requires at { IsNet nl.old.cells at.0 own }
    requires high { w ≤ 64 }
    requires within { declared_width names.now.nets (word_at names.now.words name) ≤ w }
    requires room { HasRoom nl.old 2 }
    ensures adds { OnOk result (AddsGates nl.old nl.new 2) }
    ensures net { IfOk result (λ y. IsNet nl.new.cells y.0 w) }
    ensures word { IfOk result (λ y. (at_of : List ℕ → ℕ) (f : List Clock → ℕ → ℕ) → AreNamed names.now.nets nets.now at_of → IsWord from nl.old.cells at.0 own f → IsWord from nl.new.cells y.0 w (λ run t. get_or ((read at_of run t).store (word_at names.now.words name)) (f run t) 0)) }
{
    let net = net_of(names, nets, name);
    let width = name_width(names, name);
    let word = peek(nl, from, net, at, width, names.depth(name), own)?;
    let y = widen(nl, from, word, width, w)?;
    Ok(y)
}
