// The uses of items, and the delays before them.

ghost use Rattle.std.specs.Prelude.{◌≡◌, ◌<◌, ◌≤◌, ◌*◌, length};
ghost use Rattle.ae_sttype.specs.StTree.{st_tree};
ghost use Rattle.ae_sttype.specs.Moves.{columns_of};
ghost use Rattle.ae_rewrite.specs.StProgramTree.{st_func_tree};
ghost use Rattle.ae_rewrite.specs.Sound.{item_layout, item_layouts};
ghost use Rattle.ae_delay.specs.Costs.{latest, slack_load, uses_at};
ghost use Rattle.ae_delay.specs.Weighing.{AllBelow, AreItems, deepened};

use crate::moves::columns_in;
use ae_rewrite::StFunc;
use ae_sttype::StType;

/// The layout of an item of an instance: of a parameter or of a node.
pub fn layout(s: &StFunc, item: usize) -> &StType
    requires { item < length (item_layouts (st_func_tree s.now)) }
    ensures { st_tree result.now ≡ item_layout (item_layouts (st_func_tree s.now)) item }
{
    let ins = s.ins.len();
    if item < ins {
        &s.ins[item]
    } else {
        &s.nodes[item - ins].ty
    }
}

/// The columns of an item's layout.
pub(crate) fn item_columns(s: &StFunc, item: usize) -> u64
    requires items { AreItems s.now.budget (item_layouts (st_func_tree s.now)) }
    requires below { item < length (item_layouts (st_func_tree s.now)) }
    ensures columns { result ≡ columns_of (item_layout (item_layouts (st_func_tree s.now)) item) }
    ensures few { result ≤ 16384 }
{
    u64::from(columns_in(layout(s, item)))
}

/// When the latest of these items of an instance arrives, in clocks after the instance's block, by the arrivals of its
/// items; 0 of none.
pub(crate) fn latest(arrivals: &[u32], items: &[u32]) -> u32
    requires { AllBelow items.now (length arrivals.now) }
    ensures { result ≡ latest arrivals.now items.now }
{
    let mut most = 0u32;
    for item in items {
        most = most.max(arrivals[*item as usize]);
    }
    most
}

/// The registers of the delays of items that are used together in clock `start`.
pub(crate) fn slack_load(s: &StFunc, arrivals: &[u32], start: u32, items: &[u32]) -> u64
    requires items { AreItems s.now.budget (item_layouts (st_func_tree s.now)) }
    requires below { AllBelow items.now (length (item_layouts (st_func_tree s.now))) }
    requires arrived { AllBelow items.now (length arrivals.now) }
    requires few { length items.now ≤ 8 }
    ensures load { result ≡ slack_load (item_layouts (st_func_tree s.now)) (uses_at arrivals.now start items.now) }
    ensures most { result ≤ 8 * 70368744177664 }
{
    let mut sum = 0u64;
    for item in items {
        let slack = u64::from(start.saturating_sub(arrivals[*item as usize]));
        sum += slack * item_columns(s, *item as usize);
    }
    sum
}

/// The longest delays by item, with those of items that are used together in clock `start`.
pub(crate) fn deepen(chains: &mut Vec<u32>, arrivals: &[u32], start: u32, items: &[u32])
    requires below { AllBelow items.now (length chains.old.items) }
    requires arrived { AllBelow items.now (length arrivals.now) }
    ensures { chains.new.items ≡ deepened chains.old.items (uses_at arrivals.now start items.now) }
{
    for item in items {
        let slack = start.saturating_sub(arrivals[*item as usize]);
        let before = chains[*item as usize];
        chains[*item as usize] = before.max(slack);
    }
}
