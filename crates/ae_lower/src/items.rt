// The arguments of a node, and the results of an instance, all as late as the latest.

ghost use Rattle.std.specs.Prelude.{◌≡◌, ◌≤◌, ◌<◌, ◌+◌, ◌*◌, ℕ, List, length, sum_by, IfOk, OnOk, Some, slice_get, get_or};
ghost use Rattle.std.specs.List.{range_with_len};
ghost use Rattle.ae_sttype.specs.StTree.{st_tree};
ghost use Rattle.ae_sttype.specs.Size.{IsInSize};
ghost use Rattle.ae_sttype.specs.Moves.{columns_of};
ghost use Rattle.ae_moves.specs.Rings.{rings};
ghost use Rattle.ae_rewrite.specs.StProgramTree.{st_func_tree};
ghost use Rattle.ae_rewrite.specs.Sound.{item_layout, item_layouts};
ghost use Rattle.ae_netlist.specs.declared.cell.NetId.{NetId as Net};
ghost use Rattle.ae_netlist.specs.Room.{HasRoom};
ghost use Rattle.ae_clocked.specs.Phases.{Belongs, KeepsCounters};
ghost use Rattle.ae_clocked.specs.KeptRings.{RingsBelong};
ghost use Rattle.ae_ops.specs.Waves.{AreLate, AreNets, HaveOwnWidths};
ghost use Rattle.ae_lower.specs.Growth.{AddsMulsAndMemories, GrowsBy, Spends};
ghost use Rattle.ae_lower.specs.Delaying.{AreDelayed, delay_load};

use crate::wires::copied;
use ae_clocked::{Clocks, Rings};
use ae_delay::layout;
use ae_moves::rings;
use ae_netlist::{NetId, Netlist};
use ae_ops::{Bundle, delay};
use ae_rewrite::StFunc;
use ae_sttype::StType;
use std::alloc::{AllocError, Global};

/// A bundle, some clocks later: without a cell where it is not later at all, and from 8 clocks on in rings.
pub fn later(
    alloc: Global,
    nl: &mut Netlist,
    clocks: &mut Clocks,
    bundle: &Bundle,
    slack: u32,
) -> Result<Bundle, AllocError>
    requires belongs { Belongs clocks.old nl.old.cells }
    requires nets { HaveOwnWidths nl.old.cells bundle.now }
    requires room { HasRoom nl.old (16 * (slack * length bundle.now)) }
    ensures belongs { OnOk result (Belongs clocks.new nl.new.cells) }
    ensures keeps { OnOk result (KeepsCounters clocks.old clocks.new) }
    ensures grows { OnOk result (GrowsBy nl.old nl.new (slack * length bundle.now)) }
    ensures adds { OnOk result (AddsMulsAndMemories nl.old nl.new 0 (length bundle.now * rings slack)) }
    ensures nets { IfOk result (λ late. (widths : List ℕ) → AreNets nl.old.cells widths bundle.now → AreNets nl.new.cells widths late) }
    ensures late { IfOk result (λ late. AreLate nl.new.cells clocks.old.rst slack bundle.now late) }
{
    if slack == 0 {
        let same = copied(alloc, bundle)?;
        return Ok(same);
    }
    let late = delay(alloc, nl, clocks, bundle, slack)?;
    Ok(late)
}

/// The columns of a layout, or fewer where they do not fit.
fn columns(ty: &StType) -> u32
    requires { IsInSize (st_tree ty.now) }
    ensures { result ≤ columns_of (st_tree ty.now) }
{
    ty.lanes().saturating_mul(ty.element_words())
}

/// A number of memories with those of some more columns, or less where it does not fit.
fn with_each(most: u32, columns: u32, each: u32) -> u32
    ensures { result ≤ most + columns * each }
{
    most.saturating_add(columns.saturating_mul(each))
}

/// The memories that the items of an instance may wait in, which arrive so long before the last of their uses.
pub fn waiting_memories(s: &StFunc, chains: &[u32]) -> u32
    requires long { length chains.now ≡ length (item_layouts (st_func_tree s.now)) }
    requires sizes { (i : ℕ) → i < length chains.now → IsInSize (item_layout (item_layouts (st_func_tree s.now)) i) }
    ensures { result ≤ sum_by (λ i. columns_of (item_layout (item_layouts (st_func_tree s.now)) i) * rings (get_or chains.now i 0)) (range_with_len 0 (length chains.now)) }
{
    let mut most = 0u32;
    for i in 0..chains.len() {
        let ty = layout(s, i);
        most = with_each(most, columns(ty), rings(chains[i]));
    }
    most
}

/// How long before the last of its uses an item arrives.
fn longest_wait(chains: &[u32], item: usize) -> u32 {
    match chains.get(item) {
        Some(wait) => *wait,
        None => 0,
    }
}

/// A bundle, some clocks later; what waits long stands in rings, which reach back for the longest wait of its item.
fn waited(
    alloc: Global,
    nl: &mut Netlist,
    clocks: &mut Clocks,
    kept: &mut Rings,
    bundle: &Bundle,
    slack: u32,
    reach: u32,
) -> Result<Bundle, AllocError>
    requires belongs { Belongs clocks.old nl.old.cells }
    requires rings { RingsBelong kept.old clocks.old.rst nl.old.cells }
    requires nets { HaveOwnWidths nl.old.cells bundle.now }
    requires room { HasRoom nl.old (16 * (slack * length bundle.now)) }
    ensures belongs { OnOk result (Belongs clocks.new nl.new.cells) }
    ensures keeps { OnOk result (KeepsCounters clocks.old clocks.new) }
    ensures rings { OnOk result (RingsBelong kept.new clocks.old.rst nl.new.cells) }
    ensures grows { OnOk result (GrowsBy nl.old nl.new (slack * length bundle.now)) }
    ensures spends { OnOk result (Spends nl.old nl.new 0 0 kept.old.left kept.new.left) }
    ensures nets { IfOk result (λ late. (widths : List ℕ) → AreNets nl.old.cells widths bundle.now → AreNets nl.new.cells widths late) }
    ensures late { IfOk result (λ late. AreLate nl.new.cells clocks.old.rst slack bundle.now late) }
{
    let nets = bundle.nets();
    let mut late = Vec::new(alloc);
    for net in nets {
        let tap = kept.tap(alloc, nl, clocks, *net, slack, reach)?;
        late.push(tap)?;
    }
    Ok(Bundle::new(late))
}

/// Some items, each so many clocks later.
pub fn joined(
    alloc: Global,
    nl: &mut Netlist,
    clocks: &mut Clocks,
    kept: &mut Rings,
    chains: &[u32],
    items: &[Bundle],
    waits: &[u32],
    chosen: &[u32],
) -> Result<Vec<Bundle>, AllocError>
    requires belongs { Belongs clocks.old nl.old.cells }
    requires rings { RingsBelong kept.old clocks.old.rst nl.old.cells }
    requires nets { (i : ℕ) (nets : List Net) → slice_get items.now i ≡ Some nets → HaveOwnWidths nl.old.cells nets }
    requires below { (r i : ℕ) → slice_get chosen.now r ≡ Some i → i < length items.now }
    requires long { length waits.now ≡ length chosen.now }
    requires room { HasRoom nl.old (16 * delay_load items.now waits.now chosen.now) }
    ensures belongs { OnOk result (Belongs clocks.new nl.new.cells) }
    ensures keeps { OnOk result (KeepsCounters clocks.old clocks.new) }
    ensures rings { OnOk result (RingsBelong kept.new clocks.old.rst nl.new.cells) }
    ensures grows { OnOk result (GrowsBy nl.old nl.new (delay_load items.now waits.now chosen.now)) }
    ensures spends { OnOk result (Spends nl.old nl.new 0 0 kept.old.left kept.new.left) }
    ensures delayed { IfOk result (λ v. AreDelayed nl.old.cells nl.new.cells clocks.old.rst items.now waits.now chosen.now v.items) }
{
    let mut late = Vec::new(alloc);
    for r in 0..chosen.len() {
        let k = chosen[r] as usize;
        let reach = longest_wait(chains, k);
        let bundle = waited(alloc, nl, clocks, kept, &items[k], waits[r], reach)?;
        late.push(bundle)?;
    }
    Ok(late)
}
