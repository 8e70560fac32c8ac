// Answers to one line: layouts of types, cases of the layout rule, moves between layouts.

ghost use Rattle.std.specs.Prelude.{IfSome, IsTrue};
ghost use Rattle.ae_sttype.specs.StTree.{st_tree};
ghost use Rattle.ae_sttype.specs.Size.{IsInSize};
ghost use Rattle.ae_rewrite.specs.Sound.{IsMoveFrom};

use crate::programs::typed;
use ae_delay::origins;
use ae_moves::Origin;
use ae_rewrite::{Case, LayFault, MoveOp, lay};
use ae_seq::Typed;
use ae_sttype::StType;
use std::alloc::{AllocError, Global};
use table_text::{Page, number_at, word_at};

/// A text, and behind it a layout.
pub fn tell_layout(out: &mut Page, text: &str, layout: &StType) {
    out.say(text);
    let done = layout.write_to(out.text());
    out.note(done);
}

// The program that answers its argument of a spelled type.
fn program_on(alloc: Global, out: &mut Page, ty: &str) -> Option<Typed> {
    match format!(in alloc; "aeth 2\nfn main a:{ty}\nend a\n") {
        Ok(text) => typed(alloc, out, text.as_bytes()),
        Err(_) => {
            out.cut();
            None
        }
    }
}

// The layout of a spelled type in so many clocks, if there is one.
fn layout_of(alloc: Global, out: &mut Page, ty: &str, clocks: u32) -> Option<StType>
    ensures { IfSome result (λ s. IsInSize (st_tree s)) }
{
    let p = program_on(alloc, out, ty)?;
    let ty = p.ty(0, 0)?;
    if clocks == 0 || clocks > 4096 {
        return None;
    }
    match lay(alloc, ty, clocks) {
        Ok(layout) => Some(layout),
        Err(LayFault::NoLayout) => None,
        Err(LayFault::Memory) => {
            out.cut();
            None
        }
    }
}

/// The layouts of a type in these clocks, from the first number to the second.
pub fn tell_layouts(alloc: Global, out: &mut Page, line: &str) {
    let first = number_at(line, 1);
    for clocks in first..=number_at(line, 2) {
        let mark = if clocks > first { ", " } else { " " };
        match layout_of(alloc, out, word_at(line, 0), clocks) {
            Some(layout) => tell_layout(out, mark, &layout),
            None => {
                out.say(mark);
                out.say("none");
            }
        }
    }
}

/// By which outer slots, lanes and inner clocks so many elements lie in so many clocks.
pub fn tell_case(out: &mut Page, line: &str) {
    let n = number_at(line, 0);
    let clocks = number_at(line, 1);
    if n == 0 || clocks == 0 {
        return out.say(" not asked so");
    }
    match Case::first(n, clocks) {
        Some(case) => {
            out.tell(" ", &case.slots(n, clocks));
            out.tell(" slots, ", &case.lanes(n, clocks));
            out.tell(" lanes, ", &case.inner(n, clocks));
            out.say(" clocks each");
        }
        None => out.say(" none"),
    }
}

fn move_of(word: &str, k: u32) -> MoveOp {
    match word {
        "shift" => MoveOp::Shift(k),
        "up" => MoveOp::Up(k),
        "select" => MoveOp::Select(k),
        _ => MoveOp::Same,
    }
}

// Whether a move is one by how many elements the argument and the result have.
fn is_move_from(how: MoveOp, n: u32, m: u32) -> bool
    ensures { IsTrue result → IsMoveFrom how n m }
{
    let (wide, few) = (u64::from(n), u64::from(m));
    match how {
        MoveOp::Shift(k) => n == m && k <= m,
        MoveOp::Up(c) => few == u64::from(c) * wide,
        MoveOp::Select(k) => u64::from(k) * few + few <= wide,
        MoveOp::Same => n == m,
    }
}

fn tell_origin(out: &mut Page, origin: &Origin) {
    match origin {
        Origin::Fixed(word) => out.tell(" ", word),
        Origin::Word {
            input,
            element,
            word,
        } => {
            out.tell(" ", input);
            out.tell("/", element);
            out.tell("/", word);
        }
    }
}

// The origins of the words of a move.
fn tell_move(
    alloc: Global,
    out: &mut Page,
    how: MoveOp,
    arg: &StType,
    to: &StType,
) -> Result<(), AllocError>
    requires arg { IsInSize (st_tree arg.now) }
    requires to { IsInSize (st_tree to.now) }
{
    if !is_move_from(how, arg.atoms(), to.atoms()) {
        out.say(" no move");
        return Ok(());
    }
    for origin in &origins(alloc, how, arg, to)? {
        tell_origin(out, origin);
    }
    Ok(())
}

/// The origins of a move: its word and number, and twice a type and the clocks of its layout.
pub fn tell_origins(alloc: Global, out: &mut Page, line: &str) -> Result<(), AllocError> {
    let Some(arg) = layout_of(alloc, out, word_at(line, 2), number_at(line, 3)) else {
        out.say(" none");
        return Ok(());
    };
    let Some(to) = layout_of(alloc, out, word_at(line, 4), number_at(line, 5)) else {
        out.say(" none");
        return Ok(());
    };
    let how = move_of(word_at(line, 0), number_at(line, 1));
    tell_move(alloc, out, how, &arg, &to)
}
