// The first fault of a module.

ghost use Rattle.std.specs.Prelude.{◌≡◌, IfErr, IfOk, OnOk, None, [], flat_map};
ghost use Rattle.ae_vmodule.specs.View.{module_tree};
ghost use Rattle.ae_judge.specs.Faults.{HasUnknown, HasTwice, HasKind, HasUndriven, HasWidth, IsFault};
ghost use Rattle.ae_judge.specs.Judging.{IsEarly, IsFirstOf, IsSound, earlier, with_names};
ghost use Rattle.ae_judge.specs.Names.{item_targets};
ghost use Rattle.ae_judge.specs.Shape.{IsShapely};
ghost use Rattle.ae_judge.specs.Table.{table_of};

use crate::fault::ElabFault;
use crate::kinds::{clock_of, first_misuse};
use crate::names::Names;
use crate::seen::Seen;
use crate::twice::{first_twice, first_undriven};
use crate::unknown::first_unknown;
use crate::widths::{first_too_large, first_too_wide};
use ae_vmodule::VModule;
use std::alloc::{AllocError, Global};

impl From<AllocError> for ElabFault {
    ghost use Rattle.std.specs.Prelude.{◌≡◌};
    ghost use Rattle.ae_judge.specs.declared.fault.ElabFault.TheVariants.{Memory};

    ghost from_gives = { λ _ e. e ≡ Memory };

    fn from(_: AllocError) -> ElabFault {
        ElabFault::Memory
    }
}

/// The lesser of two numbers, where both are there.
fn earlier(a: Option<u32>, b: Option<u32>) -> Option<u32>
    ensures { result ≡ earlier a b }
{
    match (a, b) {
        (Some(a), Some(b)) => Some(a.min(b)),
        (Some(a), None) => Some(a),
        (None, b) => b,
    }
}

/// The first item that uses a name that is not declared before.
fn unknown_item(
    alloc: Global,
    m: &VModule<'_>,
    names: &Names<'_>,
) -> Result<Option<u32>, AllocError>
    requires shape { IsShapely (module_tree m.now) }
    requires names { names.now ≡ table_of m.now.words m.now.nets.items }
    ensures { IfOk result (λ o. IsFirstOf (HasUnknown (module_tree m.now)) o) }
{
    first_unknown(alloc, names, &m.items)
}

/// The first item that declares or drives a name again. Where there is none, the names that items drive are put into `driven`.
fn twice_item(
    alloc: Global,
    m: &VModule<'_>,
    driven: &mut Seen<'_>,
) -> Result<Option<u32>, AllocError>
    requires shape { IsShapely (module_tree m.now) }
    requires names { driven.old.table ≡ table_of m.now.words m.now.nets.items }
    requires none { driven.old.entries ≡ [] }
    ensures first { IfOk result (λ o. IsFirstOf (HasTwice (module_tree m.now)) o) }
    ensures driven { IfOk result (λ o. o ≡ None → driven.new ≡ record driven.old { entries = with_names [] (flat_map item_targets (module_tree m.now).items) }) }
{
    let again = driven.names().again();
    let twice = first_twice(alloc, driven, &m.items)?;
    Ok(earlier(again, twice))
}

/// The first item that uses a name as its kind does not allow.
fn kind_item(alloc: Global, m: &VModule<'_>, names: &Names<'_>) -> Result<Option<u32>, AllocError>
    requires shape { IsShapely (module_tree m.now) }
    requires names { names.now ≡ table_of m.now.words m.now.nets.items }
    ensures { IfOk result (λ o. IsFirstOf (HasKind (module_tree m.now)) o) }
{
    let clock = clock_of(names, &m.items);
    first_misuse(alloc, names, clock, &m.items)
}

/// The place of the first net that nothing drives.
fn undriven_net(m: &VModule<'_>, driven: &Seen<'_>) -> Option<u32>
    requires names { driven.now.table ≡ table_of m.now.words m.now.nets.items }
    requires shape { IsShapely (module_tree m.now) }
    requires driven { driven.now.entries ≡ with_names [] (flat_map item_targets (module_tree m.now).items) }
    ensures { IsFirstOf (HasUndriven (module_tree m.now)) result }
{
    first_undriven(driven, &m.nets)
}

/// The first item in which something is out of its range.
fn width_item(m: &VModule<'_>, names: &Names<'_>) -> Option<u32>
    requires shape { IsShapely (module_tree m.now) }
    requires names { names.now ≡ table_of m.now.words m.now.nets.items }
    ensures { IsFirstOf (HasWidth (module_tree m.now)) result }
{
    earlier(
        first_too_large(names, &m.nets),
        first_too_wide(names, &m.items),
    )
}

/// Whether a module has no fault but, it may be, a loop or too great a weight; else its first fault. Kinds of fault come
/// in the order of `ElabFault`, each over the whole module. The time is linear in the module, as long as each name is found
/// in time linear in it (`Keyed`).
pub fn judge(alloc: Global, m: &VModule<'_>, names: &Names<'_>) -> Result<(), ElabFault>
    requires shape { IsShapely (module_tree m.now) }
    requires names { names.now ≡ table_of m.now.words m.now.nets.items }
    ensures sound { OnOk result (IsSound (module_tree m.now)) }
    ensures fault { IfErr result (λ e. IsFault (module_tree m.now) e) }
    ensures early { IfErr result (λ e. IsEarly e) }
{
    if let Some(item) = unknown_item(alloc, m, names)? {
        return Err(ElabFault::Unknown { item });
    }
    let mut driven = Seen::of(alloc, names)?;
    if let Some(item) = twice_item(alloc, m, &mut driven)? {
        return Err(ElabFault::Twice { item });
    }
    if let Some(item) = kind_item(alloc, m, names)? {
        return Err(ElabFault::Kind { item });
    }
    if let Some(net) = undriven_net(m, &driven) {
        return Err(ElabFault::Undriven { net });
    }
    if let Some(item) = width_item(m, names) {
        return Err(ElabFault::Width { item });
    }
    Ok(())
}
