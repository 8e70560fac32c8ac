// What a node costs by itself, apart from the delays before it.

ghost use Rattle.std.specs.Prelude.{◌≡◌, ◌<◌, ◌≤◌, ◌+◌, ◌-◌, ◌*◌, ◌^◌};
ghost use Rattle.ae_sttype.specs.StTree.{st_tree, time};
ghost use Rattle.ae_sttype.specs.Size.{IsInSize};
ghost use Rattle.ae_moves.specs.Rings.{rings};
ghost use Rattle.ae_rewrite.specs.Sound.{IsSpread};
ghost use Rattle.ae_delay.specs.OwnCosts.{body_costs, constant_costs, fold_costs, inner_time, log_up, moved_costs, scan_costs, where_many, where_mul, wire_costs, word_costs};
ghost use Rattle.ae_delay.specs.Bounds.{AreSmall, IsBounded};

use crate::moves::{MoveCosts, columns_in};
use ae_moves::rings;
use ae_rewrite::MoveOp;
use ae_sttype::StType;
use ae_word::{WordOp, latency, multiplies};
use std::alloc::{AllocError, Global};

/// What a node or an instance costs: its latency, its load, its multipliers and its memories.
#[derive(Clone, Copy, Debug)]
pub(crate) struct OwnCosts {
    pub latency: u64,
    pub load: u64,
    pub muls: u64,
    pub mems: u64,
}

// A tree of lanes: its levels, and how many leaves so many levels have.
#[derive(Clone, Copy, Debug)]
struct Levels {
    count: u64,
    leaves: u64,
}

// The tree for so many lanes: its levels are the logarithm to base two, rounded up.
fn levels_for(lanes: u32) -> Levels
    requires { lanes ≤ 4096 }
    ensures count { result.count ≡ log_up lanes }
    ensures leaves { result.leaves ≡ 2 ^ result.count }
    ensures few { result.count ≤ 12 }
    ensures small { result.leaves ≤ 4096 }
{
    let mut leaves = 1u64;
    for count in 0..12u64 {
        if u64::from(lanes) <= leaves {
            return Levels { count, leaves };
        }
        leaves *= 2;
    }
    Levels { count: 12, leaves }
}

// The clocks of an outer slot.
fn inner_time(s: &StType) -> u64
    requires { IsInSize (st_tree s.now) }
    ensures inner { result ≡ inner_time (st_tree s.now) }
    ensures few { result ≤ 4096 }
{
    match s {
        StType::T { n: _, i: _, of } => u64::from(of.time()),
        StType::S { .. } | StType::Atom(_) => 1,
    }
}

// A number where there is more than one outer slot.
fn where_many(slots: u32, n: u64) -> u64
    ensures many { result ≡ where_many slots n }
    ensures most { result ≤ n }
{
    if slots > 1 { n } else { 0 }
}

// A number where the operator multiplies.
fn where_mul(op: WordOp, n: u64) -> u64
    ensures mul { result ≡ where_mul op n }
    ensures most { result ≤ n }
{
    if multiplies(op) { n } else { 0 }
}

/// An operator on words.
pub(crate) fn word_costs(op: WordOp) -> OwnCosts
    ensures costs { result ≡ word_costs op }
    ensures bounded { IsBounded result }
{
    let clocks = u64::from(latency(op));
    OwnCosts {
        latency: clocks,
        load: 1 + clocks,
        muls: where_mul(op, 1),
        mems: 0,
    }
}

/// Wires only.
pub(crate) fn wire_costs() -> OwnCosts
    ensures costs { result ≡ wire_costs }
    ensures bounded { IsBounded result }
{
    OwnCosts {
        latency: 0,
        load: 1,
        muls: 0,
        mems: 0,
    }
}

/// A constant, by the costs of its move.
pub(crate) fn constant_costs(m: MoveCosts) -> OwnCosts
    requires { AreSmall m }
    ensures costs { result ≡ constant_costs m }
    ensures bounded { IsBounded result }
{
    OwnCosts {
        latency: 0,
        load: 1 + m.runs,
        muls: 0,
        mems: 0,
    }
}

/// A move, by its costs.
pub(crate) fn moved_costs(m: MoveCosts) -> OwnCosts
    requires { AreSmall m }
    ensures costs { result ≡ moved_costs m }
    ensures bounded { IsBounded result }
{
    OwnCosts {
        latency: m.latency,
        load: 1 + m.latency + m.delay + m.runs,
        muls: 0,
        mems: m.mems,
    }
}

/// A fold that comes in the layout `raw`, by the costs of the move from there.
pub(crate) fn fold_costs(op: WordOp, slots: u32, lanes: u32, raw: &StType, m: MoveCosts) -> OwnCosts
    requires raw { IsInSize (st_tree raw.now) }
    requires spread { IsSpread slots lanes }
    requires small { AreSmall m }
    ensures costs { result ≡ fold_costs op slots lanes (st_tree raw.now) m }
    ensures bounded { IsBounded result }
{
    let inner = inner_time(raw);
    let columns = u64::from(columns_in(raw));
    let rounds = where_many(slots, u64::from(slots - 1) * inner + 1);
    let clocks = levels_for(lanes).count + rounds + m.latency;
    let lanes = u64::from(lanes);
    let registers = 2 * lanes + where_many(slots, inner + 2);
    let products = lanes - 1 + where_many(slots, 1);
    let memories = columns * u64::from(rings(inner as u32));
    OwnCosts {
        latency: clocks,
        load: 1 + clocks + columns * registers + m.delay + m.runs,
        muls: where_mul(op, columns * products),
        mems: m.mems + where_many(slots, memories),
    }
}

/// A scan into this layout.
pub(crate) fn scan_costs(op: WordOp, slots: u32, lanes: u32, out: &StType) -> OwnCosts
    requires out { IsInSize (st_tree out.now) }
    requires spread { IsSpread slots lanes }
    ensures costs { result ≡ scan_costs op slots lanes (st_tree out.now) }
    ensures bounded { IsBounded result }
{
    let inner = inner_time(out);
    let columns = u64::from(columns_in(out) / lanes);
    let Levels { count, leaves } = levels_for(lanes);
    let lanes = u64::from(lanes);
    let clocks = count + where_many(slots, 1);
    let registers = lanes * (1 + 2 * count) + where_many(slots, 3 * lanes + inner);
    let products = (count * lanes).saturating_sub(leaves - 1) + where_many(slots, lanes);
    let memories = columns * u64::from(rings(inner as u32));
    OwnCosts {
        latency: clocks,
        load: 1 + clocks + columns * registers,
        muls: where_mul(op, columns * products),
        mems: where_many(slots, memories),
    }
}

/// So many copies of an instance.
pub(crate) fn body_costs(copies: u32, f: OwnCosts) -> OwnCosts
    requires some { 1 ≤ copies }
    requires few { copies ≤ 4096 }
    requires bounded { IsBounded f }
    requires light { f.load < 1000000000 }
    ensures costs { result ≡ body_costs copies f }
    ensures bounded { IsBounded result }
{
    let copies = u64::from(copies);
    OwnCosts {
        latency: f.latency,
        load: 1 + copies * f.load,
        muls: copies * f.muls,
        mems: copies * f.mems,
    }
}
