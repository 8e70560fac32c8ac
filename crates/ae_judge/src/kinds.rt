// Whether names are used as their kinds allow.

ghost use Rattle.std.specs.Prelude.{◌≡◌, ◌<◌, ◌^◌, IfOk, None, false, length, map, option_map};
ghost use Rattle.std.specs.List.{list_any};
ghost use Rattle.ae_vmodule.specs.Roots.{numbered, numbered_stmt};
ghost use Rattle.ae_vmodule.specs.View.{drive_tree, expr_tree, item_tree, stmt_tree, word_at};
ghost use Rattle.ae_judge.specs.Names.{first_clock, clock_or, is_named};
ghost use Rattle.ae_judge.specs.Symbols.{any_misread, is_misread, is_number};
ghost use Rattle.ae_judge.specs.Judging.{first_from, misused_in, misuses};
ghost use Rattle.ae_judge.specs.Faults.{is_misused, is_misused_in_stmt, is_misused_in_drive};

use crate::names::{Names, is_input_kind};
use crate::reads::item_reads;
use ae_vmodule::{Drive, Expr, ItemParts, Stmt, StmtRoot, Symbol, VItem};
use std::alloc::{AllocError, Global};

/// Whether a symbol misuses the name that it reads; `placed` tells whether a decimal number stands right before it.
fn is_misread(names: &Names<'_>, placed: bool, symbol: Symbol) -> bool
    ensures { result ≡ is_misread names.now.nets names.now.words placed symbol }
{
    match symbol {
        Symbol::Name(name) => names.is_memory(name),
        Symbol::Part(name) => names.is_memory(name) || !names.is_ranged(name),
        Symbol::Index(name) => !names.is_memory(name) && !(names.is_ranged(name) && placed),
        Symbol::Number(_) | Symbol::Const { .. } | Symbol::Unary(_) | Symbol::Binary(_, _) => false,
        Symbol::Choose(_, _) | Symbol::One | Symbol::More(_) => false,
        Symbol::Set(_) | Symbol::Put(_, _) | Symbol::When(_) | Symbol::Either(_, _) => false,
        Symbol::End | Symbol::Then(_) => false,
    }
}

fn any_misread(names: &Names<'_>, symbols: &[Symbol]) -> bool
    ensures { result ≡ any_misread names.now.nets names.now.words false symbols.now }
{
    let mut placed = false;
    'symbol: for symbol in symbols {
        if is_misread(names, placed, *symbol) {
            return true;
        }
        placed = is_number(*symbol);
    }
    false
}

/// Whether a symbol is a decimal number.
pub fn is_number(symbol: Symbol) -> bool
    ensures { result ≡ is_number symbol }
{
    matches!(symbol, Symbol::Number(_))
}

/// Whether in the expression a memory stands without an index or is cut, or a name without a range is, or an index of
/// what is no memory is no decimal number.
pub fn is_misused(names: &Names<'_>, value: Expr<'_>) -> bool
    ensures { result ≡ is_misused names.now.nets (expr_tree names.now.words (numbered value.entry)) }
{
    any_misread(names, value.symbols())
}

/// Whether in the statement a name is, or one that is assigned without an index is no register, or with one no memory.
#[cycle(misused_stmt)]
pub fn is_misused_in_stmt(names: &Names<'_>, whole: Stmt<'_>) -> bool
    ensures { result ≡ is_misused_in_stmt names.now.nets (stmt_tree names.now.words (numbered_stmt whole.entry)) }
{
    let mut stmt = whole;
    'stmt: loop {
        match stmt.root() {
            StmtRoot::Set { name, value } => return !names.is_register(name)
                || is_misused(names, value),
            StmtRoot::Put { name, at, value } => return !names.is_memory(name)
                || is_misused(names, at)
                || is_misused(names, value),
            StmtRoot::When(test, then) => {
                if is_misused(names, test) {
                    return true;
                }
                stmt = then;
            }
            StmtRoot::Either(test, then, otherwise) => {
                if is_misused(names, test) || is_misused_in_stmt(names, then) {
                    return true;
                }
                stmt = otherwise;
            }
            StmtRoot::End => return false,
            StmtRoot::Then(first, rest) => {
                if is_misused_in_stmt(names, first) {
                    return true;
                }
                stmt = rest;
            }
        }
    }
}

/// Whether in the equation a name is, or it is not of a wire.
fn is_misused_in_drive(names: &Names<'_>, drive: &Drive) -> bool
    ensures { result ≡ is_misused_in_drive names.now.nets (drive_tree names.now.words drive.now) }
{
    !names.is_wire(drive.name) || is_misused(names, drive.value.expr())
}

pub fn any_misused_drive(names: &Names<'_>, drives: &[Drive]) -> bool
    ensures { result ≡ list_any (is_misused_in_drive names.now.nets) (map (drive_tree names.now.words) drives.now) }
{
    'drive: for drive in drives {
        if is_misused_in_drive(names, drive) {
            return true;
        }
    }
    false
}

/// Whether a name is the clock.
pub fn is_named(names: &Names<'_>, name: u32, clock: Option<u32>) -> bool
    ensures { result ≡ is_named (word_at names.now.words name) (option_map (word_at names.now.words) clock) }
{
    match clock {
        Some(clock) => names.word(clock) == names.word(name),
        None => false,
    }
}

/// Whether one of the names is the clock.
fn any_named(names: &Names<'_>, used: &[u32], clock: Option<u32>) -> bool
    ensures { result ≡ list_any (λ n. is_named n (option_map (word_at names.now.words) clock)) (map (word_at names.now.words) used.now) }
{
    'name: for name in used {
        if is_named(names, *name, clock) {
            return true;
        }
    }
    false
}

/// The clock that the first `always` item names.
fn first_clock(names: &Names<'_>, items: &[VItem]) -> Option<u32>
    ensures { option_map (word_at names.now.words) result ≡ first_clock (map (item_tree names.now.words) items.now) }
{
    'item: for item in items {
        if let ItemParts::Always { clock, .. } = item.parts() {
            return Some(clock);
        }
    }
    None
}

/// The input `clk` of one bit, if there is one.
fn clk_input(names: &Names<'_>) -> Option<u32>
    ensures { option_map (word_at names.now.words) result ≡ clock_or names.now.nets None }
{
    match names.named("clk") {
        Some(net) => {
            if is_input_kind(net.kind()) && net.width() == 1 {
                Some(net.name())
            } else {
                None
            }
        }
        None => None,
    }
}

/// The clock: that of the first `always` item, and without one the input `clk` of one bit, if there is one.
pub fn clock_of(names: &Names<'_>, items: &[VItem]) -> Option<u32>
    ensures { option_map (word_at names.now.words) result ≡ clock_or names.now.nets (first_clock (map (item_tree names.now.words) items.now)) }
{
    match first_clock(names, items) {
        Some(clock) => Some(clock),
        None => clk_input(names),
    }
}

/// Whether the item's clock is another or no input of one bit, or a name in it is misused.
fn is_misused_in_item(names: &Names<'_>, clock: Option<u32>, item: &VItem) -> bool
    ensures { result ≡ misused_in names.now.nets (option_map (word_at names.now.words) clock) (item_tree names.now.words item.now) }
{
    match item.parts() {
        ItemParts::Nets(drives) => any_misused_drive(names, drives),
        ItemParts::Assign(drives) => any_misused_drive(names, drives),
        ItemParts::Always { clock: named, body } => {
            !is_named(names, named, clock)
                || !names.is_one_bit_input(named)
                || is_misused_in_stmt(names, body)
        }
    }
}

/// Whether the item uses a name as its kind does not allow, or the clock as data, or another clock.
fn misuses(
    alloc: Global,
    names: &Names<'_>,
    clock: Option<u32>,
    item: &VItem,
) -> Result<bool, AllocError>
    ensures { IfOk result (λ b. b ≡ misuses names.now.nets (option_map (word_at names.now.words) clock) (item_tree names.now.words item.now)) }
{
    if is_misused_in_item(names, clock, item) {
        return Ok(true);
    }
    match clock {
        None => Ok(false),
        Some(_) => {
            let reads = item_reads(alloc, item)?;
            Ok(any_named(names, &reads, clock))
        }
    }
}

/// The number of the first item that does.
pub fn first_misuse(
    alloc: Global,
    names: &Names<'_>,
    clock: Option<u32>,
    items: &[VItem],
) -> Result<Option<u32>, AllocError>
    requires few { length items.now < 2 ^ 32 }
    ensures { IfOk result (λ o. o ≡ first_from (λ _. misuses names.now.nets (option_map (word_at names.now.words) clock)) 1 (map (item_tree names.now.words) items.now)) }
{
    let mut number: u32 = 0;
    'item: for item in items {
        number += 1;
        if misuses(alloc, names, clock, item)? {
            return Ok(Some(number));
        }
    }
    Ok(None)
}
