// Names that are used before they are declared.

ghost use Rattle.std.specs.Prelude.{ℕ, List, ◌≡◌, ◌<◌, ◌++◌, ◌^◌, IfOk, length, map, []};
ghost use Rattle.std.specs.List.{list_any};
ghost use Rattle.ae_vmodule.specs.View.{drive_tree, expr_tree, item_tree, word_at};
ghost use Rattle.ae_vmodule.specs.Roots.{numbered};
ghost use Rattle.ae_judge.specs.Names.{names_in, item_reads, item_targets};
ghost use Rattle.ae_judge.specs.Symbols.{words_read};
ghost use Rattle.ae_judge.specs.Judging.{item_clock, first_from, is_declared_before, is_unknown, is_late, drives_unknown, uses_unknown};

use crate::names::Names;
use crate::places::Places;
use crate::reads::{push_item_reads, push_item_targets, push_name};
use ae_vmodule::{Drive, Expr, ItemParts, Symbol, VItem};
use std::alloc::{AllocError, Global};

fn is_declared_before(names: &Names<'_>, number: u32, name: u32) -> bool
    ensures { result ≡ is_declared_before names.now.nets number (word_at names.now.words name) }
{
    match names.net(name) {
        Some(net) => net.item() < number,
        None => false,
    }
}

/// Whether the name is neither declared before the item nor given.
fn is_unknown(names: &Names<'_>, number: u32, given: &Places<'_>, name: u32) -> bool
    ensures { result ≡ is_unknown names.now.nets number given.now (word_at names.now.words name) }
{
    !is_declared_before(names, number, name) && !given.has(names.word(name))
}

fn any_unknown(names: &Names<'_>, number: u32, given: &Places<'_>, used: &[u32]) -> bool
    ensures { result ≡ list_any (is_unknown names.now.nets number given.now) (map (word_at names.now.words) used.now) }
{
    'name: for name in used {
        if is_unknown(names, number, given, *name) {
            return true;
        }
    }
    false
}

/// Whether a symbol reads a name that is neither declared before the item nor given.
fn symbols_unknown(names: &Names<'_>, number: u32, given: &Places<'_>, symbols: &[Symbol]) -> bool
    ensures { result ≡ list_any (is_unknown names.now.nets number given.now) (words_read names.now.words symbols.now) }
{
    'symbol: for symbol in symbols {
        if let Some(name) = symbol.read() {
            if is_unknown(names, number, given, name) {
                return true;
            }
        }
    }
    false
}

/// Whether the value uses a name that is neither declared before the item nor given.
fn value_unknown(names: &Names<'_>, number: u32, given: &Places<'_>, value: Expr<'_>) -> bool
    ensures { result ≡ list_any (is_unknown names.now.nets number given.now) (names_in (expr_tree names.now.words (numbered value.entry))) }
{
    symbols_unknown(names, number, given, value.symbols())
}

/// Whether a value of a declaration uses a name that is not declared before the item.
fn any_late(alloc: Global, names: &Names<'_>, number: u32, drives: &[Drive]) -> bool
    ensures { result ≡ list_any (is_late names.now.nets number) (map (drive_tree names.now.words) drives.now) }
{
    let none = Places::new(alloc, names.keyed());
    'drive: for drive in drives {
        if value_unknown(names, number, &none, drive.value.expr()) {
            return true;
        }
    }
    false
}

/// Whether a value uses a name that is neither declared before the item nor given, or given by a drive before its own.
fn any_ungiven<'m>(
    names: &Names<'m>,
    number: u32,
    given: &mut Places<'m>,
    drives: &[Drive],
) -> Result<bool, AllocError>
    ensures { IfOk result (λ b. b ≡ drives_unknown names.now.nets number given.old (map (drive_tree names.now.words) drives.now)) }
{
    'drive: for drive in drives {
        if value_unknown(names, number, given, drive.value.expr()) {
            return Ok(true);
        }
        given.put(names.word(drive.name), 0)?;
    }
    Ok(false)
}

/// Whether a value of a declaration uses a name that is neither declared before nor given a value before it. Most use none
/// that is not declared before, and then no table of the given names is made.
#[tactic(auto, using(crate::proofs::Firsts::none_late))]
fn drives_unknown(
    alloc: Global,
    names: &Names<'_>,
    number: u32,
    drives: &[Drive],
) -> Result<bool, AllocError>
    ensures { IfOk result (λ b. b ≡ drives_unknown names.now.nets number [] (map (drive_tree names.now.words) drives.now)) }
{
    if !any_late(alloc, names, number, drives) {
        return Ok(false);
    }
    let mut given = Places::with_room(alloc, names.keyed(), drives.len())?;
    any_ungiven(names, number, &mut given, drives)
}

/// The clock that an item names, the names that it drives, and those that it reads.
fn named_outside(alloc: Global, item: &VItem) -> Result<Vec<u32>, AllocError>
    ensures { (ws : List (List ℕ)) → IfOk result (λ v. map (word_at ws) v.items ≡ (item_clock (item_tree ws item.now) ++ item_targets (item_tree ws item.now)) ++ item_reads (item_tree ws item.now)) }
{
    let mut used = Vec::new(alloc);
    if let ItemParts::Always { clock, .. } = item.parts() {
        push_name(clock, &mut used)?;
    }
    push_item_targets(item, &mut used)?;
    push_item_reads(item, &mut used)?;
    Ok(used)
}

/// Whether the item uses a name that is not declared before.
fn uses_unknown(
    alloc: Global,
    names: &Names<'_>,
    number: u32,
    item: &VItem,
) -> Result<bool, AllocError>
    ensures { IfOk result (λ b. b ≡ uses_unknown names.now.nets number (item_tree names.now.words item.now)) }
{
    if let ItemParts::Nets(drives) = item.parts() {
        return drives_unknown(alloc, names, number, drives);
    }
    let none = Places::new(alloc, names.keyed());
    let used = named_outside(alloc, item)?;
    Ok(any_unknown(names, number, &none, &used))
}

/// The number of the first item that uses a name that is not declared before.
pub fn first_unknown(
    alloc: Global,
    names: &Names<'_>,
    items: &[VItem],
) -> Result<Option<u32>, AllocError>
    requires few { length items.now < 2 ^ 32 }
    ensures { IfOk result (λ o. o ≡ first_from (uses_unknown names.now.nets) 1 (map (item_tree names.now.words) items.now)) }
{
    let mut number: u32 = 0;
    'item: for item in items {
        number += 1;
        if uses_unknown(alloc, names, number, item)? {
            return Ok(Some(number));
        }
    }
    Ok(None)
}
