// What is asked of stages.

ghost use Rattle.std.specs.Prelude.{◌≡◌, ◌≤◌, IfOk, IfSome, OnOk, true};
ghost use Rattle.ae_word.specs.AtomTree.{unsigned_word, word};
ghost use Rattle.ae_word.specs.WordTable.{HasRange, arity_of};
ghost use Rattle.ae_sttype.specs.StTree.{atom, sseq, st_tree, tseq};
ghost use Rattle.ae_sttype.specs.Moves.{columns_of};
ghost use Rattle.ae_netlist.specs.Circuit.{IsNet};
ghost use Rattle.ae_netlist.specs.Room.{HasRoom};
ghost use Rattle.ae_clocked.specs.Phases.{Belongs};
ghost use Rattle.ae_gather.specs.Gathers.{gather_part, move_of};
ghost use Rattle.table_stages.specs.Even.{TakesLanes};
ghost use Rattle.table_stages.specs.Gains.{Gains};

use crate::bench::{MOST_CELLS, NoRoom, Times, delayed_words, input, over_lanes, run, tell_makers};
use crate::words::{op_named, origins};
use ae_clocked::Clocks;
use ae_fold::{Fold, levels, word_folds};
use ae_gates::{choose, constant};
use ae_gather::{Gather, Origin};
use ae_netlist::{NetFault, NetId, Netlist};
use ae_ops::{Bundle, Stage, WordStage};
use ae_reduce::Reduce;
use ae_scan::Scan;
use ae_sttype::StType;
use ae_word::{Atom, Width, WordOp, arity};
use std::alloc::{AllocError, Global};
use table_text::{Page, number_at, numbers, parted, word_at};

/// The numbers of a fold: what it folds, and in which period.
#[derive(Clone, Copy)]
struct FoldCase {
    op: WordOp,
    signed: bool,
    slots: u32,
    lanes: u32,
    clocks: u32,
    width: u32,
    period: u32,
}

// What stands at the two operands of a word stage.
#[derive(Clone, Copy)]
enum Form {
    // A word each.
    Apart,
    // The same word.
    Same,
    // A choice of 0 or a word by a bit, on one side or the other.
    ChoiceLeft,
    ChoiceRight,
}

fn refused(out: &mut Page) -> Result<(), NoRoom> {
    out.say("refused");
    Ok(())
}

// So many words one after the other.
fn row(alloc: Global, signed: bool, width: u32, clocks: u32) -> Result<StType, AllocError>
    ensures { IfOk result (λ s. st_tree s ≡ tseq clocks 0 (atom (word (record { signed = signed; width = width })))) }
{
    let atom = if signed {
        Atom::Int(width)
    } else {
        Atom::Word(width)
    };
    let of = Box::new(alloc, StType::Atom(atom))?;
    Ok(StType::T {
        n: clocks,
        i: 0,
        of,
    })
}

// Words in so many clocks, side by side on lanes, and then clocks with none.
fn grid(alloc: Global, n: u32, i: u32, lanes: u32, width: u32) -> Result<StType, AllocError>
    ensures { IfOk result (λ t. st_tree t ≡ tseq n i (sseq lanes (atom (unsigned_word width)))) }
{
    let of = Box::new(alloc, StType::Atom(Atom::Word(width)))?;
    let of = Box::new(alloc, StType::S { n: lanes, of })?;
    Ok(StType::T { n, i, of })
}

// In each period so many clocks are shown, from the first block on.
fn blocks(arrival: u32, shown: u32) -> Times {
    Times {
        arrival,
        latency: 0,
        period: 1,
        shown,
        from_0: false,
    }
}

// Whether a stage of the fold has few cells by its lanes and clocks.
fn is_small(fold: FoldCase) -> bool
    ensures lanes { result ≡ true → fold.lanes ≤ 4096 }
    ensures clocks { result ≡ true → fold.clocks ≤ 4096 }
{
    fold.lanes <= 4096 && fold.clocks <= 4096
}

// The fold of a case, if it is one.
fn fold_in(alloc: Global, fold: FoldCase) -> Result<Option<Fold>, AllocError>
    ensures { IfOk result (λ found. IfSome found (λ f. (f.lanes ≡ fold.lanes) × (st_tree f.element ≡ tseq fold.clocks 0 (atom (word (record { signed = fold.signed; width = fold.width })))))) }
{
    let element = row(alloc, fold.signed, fold.width, fold.clocks)?;
    Ok(Fold::new(fold.op, fold.slots, fold.lanes, element, fold.period))
}

#[tactic(auto, using(crate::proofs::Taking::reduce_takes))]
fn reduce(alloc: Global, out: &mut Page, fold: FoldCase, words: &[u64]) -> Result<(), NoRoom> {
    match fold_in(alloc, fold)? {
        Some(of) if 1 <= fold.width && fold.width <= 64 && is_small(fold) => {
            let stage = Reduce::of(of);
            if stage.latency() > 100_000 {
                return Err(NoRoom);
            }
            let times = blocks(0, fold.clocks);
            over_lanes(
                alloc,
                out,
                &stage,
                fold.lanes,
                Width { bits: fold.width },
                words,
                times,
            )
        }
        _ => refused(out),
    }
}

#[tactic(auto, using(crate::proofs::Taking::scan_takes))]
fn scan(alloc: Global, out: &mut Page, fold: FoldCase, words: &[u64]) -> Result<(), NoRoom> {
    match fold_in(alloc, fold)? {
        Some(of) if 1 <= fold.width && fold.width <= 64 && is_small(fold) => {
            let stage = Scan::of(of);
            if stage.latency() > 100 {
                return Err(NoRoom);
            }
            let times = blocks(0, fold.slots.saturating_mul(fold.clocks));
            over_lanes(
                alloc,
                out,
                &stage,
                fold.lanes,
                Width { bits: fold.width },
                words,
                times,
            )
        }
        _ => refused(out),
    }
}

// The numbers that a fold is built by.
fn plan(alloc: Global, out: &mut Page, fold: FoldCase) -> Result<(), NoRoom> {
    let Some(of) = fold_in(alloc, fold)? else {
        return refused(out);
    };
    out.show("", &of.plan());
    Ok(())
}

// The fold that a case names.
fn fold_of(head: &str, op: WordOp) -> FoldCase {
    FoldCase {
        op,
        signed: head.contains("signed"),
        slots: number_at(head, 2),
        lanes: number_at(head, 4),
        clocks: number_at(head, 6),
        width: number_at(head, 8),
        period: number_at(head, 11),
    }
}

// The levels over so many lanes each.
fn all_levels(out: &mut Page, text: &str) {
    out.say("levels");
    for word in text.split_whitespace() {
        let lanes = number_at(word, 0);
        if 1 <= lanes && lanes <= 4096 {
            out.tell(" ", &levels(lanes));
        }
    }
}

// An unsigned and a signed word.
fn mixed_pair(alloc: Global, first: u32, second: u32) -> Result<StType, AllocError> {
    let left = Box::new(alloc, Atom::Word(first))?;
    let right = Box::new(alloc, Atom::Int(second))?;
    Ok(StType::Atom(Atom::Pair(left, right)))
}

// What the words of such a pair are folded by: `(u8,i16)`.
fn pair_folds(alloc: Global, out: &mut Page, op: WordOp, text: &str) -> Result<(), NoRoom> {
    let (first, second) = parted(text, ",i");
    let first = number_at(parted(first, "(u").1, 0);
    let second = number_at(parted(second, ")").0, 0);
    let element = mixed_pair(alloc, first, second)?;
    if !element.in_size() {
        return refused(out);
    }
    out.show("", &word_folds(alloc, op, &element)?);
    Ok(())
}

// A move of one input.
fn moved(
    alloc: Global,
    clocks: u32,
    lanes: u32,
    width: u32,
    out: StType,
    source: Vec<Origin>,
) -> Result<Option<Gather>, AllocError>
    requires few { lanes ≤ 16 }
    requires out { columns_of (st_tree out) ≤ 16 }
    ensures takes { IfOk result (λ found. IfSome found (λ stage. TakesLanes (gather_part (move_of stage)) lanes width)) }
    ensures small { IfOk result (λ found. IfSome found (λ stage. (gather_part (move_of stage)).most_cells ≤ 20000000)) }
{
    let layout = grid(alloc, clocks, 0, lanes, width)?;
    let mut ins = Vec::new(alloc);
    ins.push(layout)?;
    let found = Gather::new(ins, out, source);
    Ok(found)
}

// The same move, alone at its arguments or not.
fn alone_if(stage: Gather, alone: bool) -> Gather
    ensures { move_of result ≡ move_of stage }
{
    if alone { stage.alone() } else { stage }
}

fn gather(
    alloc: Global,
    out: &mut Page,
    head: &str,
    source: &str,
    words: &[u64],
) -> Result<(), NoRoom> {
    let width = number_at(head, 1);
    let lanes = number_at(head, 5);
    let clocks = number_at(head, 8);
    let lanes_out = number_at(head, 12);
    if lanes > 16 || lanes_out > 16 {
        return Err(NoRoom);
    }
    let layout = grid(alloc, clocks, number_at(head, 10), lanes_out, width)?;
    let source = origins(alloc, source)?;
    match moved(alloc, number_at(head, 3), lanes, width, layout, source)? {
        Some(stage) if 1 <= width && width <= 64 => {
            let stage = alone_if(stage, head.contains("alone"));
            let times = blocks(number_at(head, 15), clocks);
            over_lanes(
                alloc,
                out,
                &stage,
                lanes,
                Width { bits: width },
                words,
                times,
            )
        }
        _ => refused(out),
    }
}

// A word or 0 by a bit, and the bit is 1 for 0.
fn gated(nl: &mut Netlist, width: Width) -> Result<NetId, NetFault>
    requires room { HasRoom nl.old 4 }
    ensures gains { OnOk result (Gains nl.old nl.new 4) }
    ensures net { IfOk result (λ y. IsNet nl.new.cells y.0 width) }
{
    let bit = input(nl, Width::BIT)?;
    let word = input(nl, width)?;
    let none = constant(nl, width, 0)?;
    let chosen = choose(nl, bit, none, word, width)?;
    Ok(chosen)
}

// The two operands of a stage.
#[derive(Clone, Copy)]
struct Pair {
    left: NetId,
    right: NetId,
}

fn operands(nl: &mut Netlist, form: Form, width: Width) -> Result<Pair, NetFault>
    requires room { HasRoom nl.old 5 }
    ensures gains { OnOk result (Gains nl.old nl.new 5) }
    ensures left { IfOk result (λ pair. IsNet nl.new.cells pair.left.0 width) }
    ensures right { IfOk result (λ pair. IsNet nl.new.cells pair.right.0 width) }
{
    if form == Form::Same {
        let left = input(nl, width)?;
        return Ok(Pair { left, right: left });
    }
    if form == Form::Apart {
        let left = input(nl, width)?;
        let right = input(nl, width)?;
        return Ok(Pair { left, right });
    }
    let chosen = gated(nl, width)?;
    let other = input(nl, width)?;
    if form == Form::ChoiceLeft {
        Ok(Pair {
            left: chosen,
            right: other,
        })
    } else {
        Ok(Pair {
            left: other,
            right: chosen,
        })
    }
}

// A word in each clock, shown from the first clock on.
fn each_clock() -> Times {
    Times {
        arrival: 0,
        latency: 0,
        period: 1,
        shown: 1,
        from_0: true,
    }
}

// What an operator makes of one word, or of two.
fn of_operands(
    alloc: Global,
    out: &mut Page,
    nl: &mut Netlist,
    clocks: &mut Clocks,
    op: WordOp,
    pair: Pair,
    width: Width,
    words: &[u64],
) -> Result<(), NoRoom>
    requires range { HasRange op }
    requires few { arity_of op ≤ 2 }
    requires belongs { Belongs clocks.old nl.old.cells }
    requires left { IsNet nl.old.cells pair.left.0 width }
    requires right { IsNet nl.old.cells pair.right.0 width }
    requires room { HasRoom nl.old 48 }
{
    let stage = WordStage::new(op, width, 1);
    let left = Bundle::one(alloc, pair.left)?;
    if arity(op) == 1 {
        return run(alloc, out, &stage, nl, clocks, &[left], words, each_clock());
    }
    let right = Bundle::one(alloc, pair.right)?;
    run(
        alloc,
        out,
        &stage,
        nl,
        clocks,
        &[left, right],
        words,
        each_clock(),
    )
}

fn word_in(
    alloc: Global,
    out: &mut Page,
    nl: &mut Netlist,
    op: WordOp,
    form: Form,
    width: Width,
    words: &[u64],
) -> Result<(), NoRoom>
    requires range { HasRange op }
    requires few { arity_of op ≤ 2 }
    requires room { HasRoom nl.old 54 }
{
    let rst = input(nl, Width::BIT)?;
    let pair = operands(nl, form, width)?;
    let mut clocks = Clocks::new(alloc, rst);
    of_operands(alloc, out, nl, &mut clocks, op, pair, width, words)
}

// The same in a netlist of its own; where the operands have to do with one another, also what makes the result.
fn word(
    alloc: Global,
    out: &mut Page,
    op: WordOp,
    form: Form,
    width: u32,
    words: &[u64],
) -> Result<(), NoRoom>
    requires range { HasRange op }
{
    let Some(width) = Width::of(width) else {
        return refused(out);
    };
    if arity(op) > 2 {
        return refused(out);
    }
    let mut nl = Netlist::new(alloc, MOST_CELLS);
    word_in(alloc, out, &mut nl, op, form, width, words)?;
    if form != Form::Apart && arity(op) == 2 {
        tell_makers(out, &nl);
    }
    Ok(())
}

// What stands at the operands by what the case says.
fn form_of(head: &str, op: WordOp) -> Form {
    if arity(op) == 1 || head.contains("itself") {
        Form::Same
    } else if head.contains("choice left") {
        Form::ChoiceLeft
    } else if head.contains("choice right") {
        Form::ChoiceRight
    } else {
        Form::Apart
    }
}

// The cases that have an operator.
fn of_operator(
    alloc: Global,
    out: &mut Page,
    head: &str,
    op: WordOp,
    words: &[u64],
) -> Result<(), NoRoom>
    requires range { HasRange op }
{
    match word_at(head, 0) {
        "reduce" => reduce(alloc, out, fold_of(head, op), words),
        "scan" => scan(alloc, out, fold_of(head, op), words),
        "plan" => plan(alloc, out, fold_of(head, op)),
        "folds" => pair_folds(alloc, out, op, word_at(head, 3)),
        "word" => word(alloc, out, op, form_of(head, op), number_at(head, 2), words),
        _ => refused(out),
    }
}

// A bundle some clocks later.
fn late(alloc: Global, out: &mut Page, head: &str, words: &[u64]) -> Result<(), NoRoom> {
    let Some(width) = Width::of(number_at(head, 5)) else {
        return refused(out);
    };
    delayed_words(
        alloc,
        out,
        number_at(head, 3),
        width,
        number_at(head, 1),
        words,
    )
}

// The answer to a case by its words.
fn asked(alloc: Global, out: &mut Page, head: &str, words: &[u64]) -> Result<(), NoRoom> {
    if word_at(head, 0) == "delay" {
        return late(alloc, out, head, words);
    }
    match op_named(word_at(head, 1), number_at(head, 5)) {
        Some(op) => of_operator(alloc, out, head, op, words),
        None => refused(out),
    }
}

fn answer_by(alloc: Global, out: &mut Page, head: &str, rest: &str) -> Result<(), NoRoom> {
    let (source, words) = parted(rest, "|");
    if word_at(head, 0) == "gather" {
        return gather(alloc, out, head, source, &numbers(alloc, words)?);
    }
    asked(alloc, out, head, &numbers(alloc, source)?)
}

/// Tells the answer to a case: its head, then behind `|` its words, for a move with the origins and another `|` before them.
pub fn answer(alloc: Global, out: &mut Page, line: &str) {
    let (head, rest) = parted(line, "|");
    if word_at(head, 0) == "levels" {
        return all_levels(out, rest);
    }
    if answer_by(alloc, out, head, rest).is_err() {
        out.say(" no room");
    }
}
