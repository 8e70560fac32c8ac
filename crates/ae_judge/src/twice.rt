// Names that are declared or driven twice, and nets that nothing drives.

ghost use Rattle.std.specs.Prelude.{◌≡◌, ◌<◌, ◌^◌, IfOk, None, false, length, map, flat_map};
ghost use Rattle.std.specs.List.{list_any};
ghost use Rattle.ae_vmodule.specs.View.{item_tree, net_tree, word_at};
ghost use Rattle.ae_judge.specs.Names.{item_targets};
ghost use Rattle.ae_judge.specs.Faults.{may_repeat};
ghost use Rattle.ae_judge.specs.Judging.{first_from, with_names, is_driven, repeats, drives_twice, first_twice, is_undriven};

use crate::names::{Names, is_input_kind};
use crate::reads::item_targets;
use crate::seen::Seen;
use ae_vmodule::{ItemParts, PackedNet, VItem};
use std::alloc::{AllocError, Global};

fn is_driven(driven: &Seen<'_>, name: u32) -> bool
    ensures { result ≡ is_driven driven.now.table.nets driven.now.entries (word_at driven.now.table.words name) }
{
    driven.names().is_input(name) || driven.has(name)
}

/// Whether one of the names is an input or driven by an earlier item.
fn any_driven(driven: &Seen<'_>, targets: &[u32]) -> bool
    ensures { result ≡ list_any (is_driven driven.now.table.nets driven.now.entries) (map (word_at driven.now.table.words) targets.now) }
{
    'name: for name in targets {
        if is_driven(driven, *name) {
            return true;
        }
    }
    false
}

/// One `always` item may assign a register in several places.
fn may_repeat(names: &Names<'_>, item: &VItem, name: u32) -> bool
    ensures { result ≡ may_repeat names.now.nets (item_tree names.now.words item.now) (word_at names.now.words name) }
{
    match item.parts() {
        ItemParts::Nets(_) => false,
        ItemParts::Assign(_) => false,
        ItemParts::Always { .. } => names.is_register(name),
    }
}

/// Whether the item drives a name again that it may drive once, where none of its names is among those that earlier items
/// drive; its names are put there.
fn repeats(driven: &mut Seen<'_>, item: &VItem, targets: &[u32]) -> Result<bool, AllocError>
    ensures repeats { IfOk result (λ b. b ≡ repeats driven.old.table.nets (item_tree driven.old.table.words item.now) driven.old.entries (map (word_at driven.old.table.words) targets.now)) }
    ensures driven { IfOk result (λ b. b ≡ false → driven.new ≡ record driven.old { entries = with_names driven.old.entries (map (word_at driven.old.table.words) targets.now) }) }
{
    'name: for name in targets {
        if driven.put(*name)? && !may_repeat(driven.names(), item, *name) {
            return Ok(true);
        }
    }
    Ok(false)
}

/// Whether the item drives a name that is driven before, or one again; its names are put behind the others.
fn drives_twice(driven: &mut Seen<'_>, item: &VItem, targets: &[u32]) -> Result<bool, AllocError>
    requires { map (word_at driven.old.table.words) targets.now ≡ item_targets (item_tree driven.old.table.words item.now) }
    ensures twice { IfOk result (λ b. b ≡ drives_twice driven.old.table.nets driven.old.entries (item_tree driven.old.table.words item.now)) }
    ensures driven { IfOk result (λ b. b ≡ false → driven.new ≡ record driven.old { entries = with_names driven.old.entries (item_targets (item_tree driven.old.table.words item.now)) }) }
{
    if any_driven(driven, targets) {
        return Ok(true);
    }
    repeats(driven, item, targets)
}

/// The number of the first item that drives a name that is driven before: an input, by the header. Where there is none, the
/// names that all items drive are put behind those that are driven.
pub fn first_twice(
    alloc: Global,
    driven: &mut Seen<'_>,
    items: &[VItem],
) -> Result<Option<u32>, AllocError>
    requires few { length items.now < 2 ^ 32 }
    ensures first { IfOk result (λ o. o ≡ first_twice driven.old.table.nets 1 driven.old.entries (map (item_tree driven.old.table.words) items.now)) }
    ensures driven { IfOk result (λ o. o ≡ None → driven.new ≡ record driven.old { entries = with_names driven.old.entries (flat_map item_targets (map (item_tree driven.old.table.words) items.now)) }) }
{
    let mut number: u32 = 0;
    'item: for item in items {
        number += 1;
        let targets = item_targets(alloc, item)?;
        let twice = drives_twice(driven, item, &targets)?;
        if twice {
            return Ok(Some(number));
        }
    }
    Ok(None)
}

/// Whether the net is no input, and its name none of those that are driven.
fn is_undriven(driven: &Seen<'_>, net: &PackedNet) -> bool
    ensures { result ≡ is_undriven driven.now.entries (net_tree driven.now.table.words net.now) }
{
    !is_input_kind(net.kind()) && !driven.has(net.name())
}

/// The place of the first net that nothing drives.
pub fn first_undriven(driven: &Seen<'_>, nets: &[PackedNet]) -> Option<u32>
    requires few { length nets.now < 2 ^ 32 }
    ensures { result ≡ first_from (λ _. is_undriven driven.now.entries) 0 (map (net_tree driven.now.table.words) nets.now) }
{
    let mut place: u32 = 0;
    'net: for net in nets {
        if is_undriven(driven, net) {
            return Some(place);
        }
        place += 1;
    }
    None
}
