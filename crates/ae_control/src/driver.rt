// The control of a circuit between two channels: its gates and its registers.

ghost use Rattle.std.specs.Prelude.{◌≡◌, ◌+◌, ◌*◌, ◌<◌, ◌≤◌, ◌++◌, OnOk, IfOk, ℕ, length, map};
ghost use Rattle.ae_netlist.specs.Circuit.{IsNet};
ghost use Rattle.ae_netlist.specs.Room.{HasRoom};
ghost use Rattle.ae_control.specs.Cells.{IsLonger, choice};
ghost use Rattle.ae_control.specs.Controls.{AreBits, AreWires, HasBegun, HasControlNets, HasFlagGates, IsControl, flag_net, gate_rows, net};
ghost use Rattle.ae_control.specs.Count.{control_cells};

use crate::parts::{any_of, choices, connect_all, registers};
use ae_netlist::{Cell, NetId, Netlist};
use ae_word::Width;
use std::alloc::AllocError;

/// The nets that a control reads, of one bit each: the reset; that words stand at the source, and that those at the sink are
/// taken; the first and the last clock of a block; that elements of the parameters stand in a clock of a block, and that
/// elements of the results do, as late as the latency says; that these are of the block before.
#[derive(Clone, Copy)]
pub struct Wires {
    pub reset: NetId,
    pub valid: NetId,
    pub ready: NetId,
    pub first: NetId,
    pub last: NetId,
    pub wants: NetId,
    pub late: NetId,
    pub behind: NetId,
}

/// Where the cells of a control stand: from the first on two constants, three registers, and a flag for each block of the
/// latency and one more; then, from another on, the gates.
#[derive(Clone, Copy)]
pub struct Places {
    pub base: u32,
    pub blocks: u32,
    pub gates: u32,
}

/// What others read of a control: that the circuit steps, that the source is asked, that one word and that two stand at the
/// sink, and that the words there move on.
#[derive(Clone, Copy)]
pub struct Controlled {
    pub enable: NetId,
    pub asks: NetId,
    pub one: NetId,
    pub two: NetId,
    pub moves: NetId,
}

/// The flag of a block so many before the one at the inputs.
fn flag(at: Places, j: u32) -> NetId
    requires blocks { at.base + at.blocks + 6 ≤ at.gates }
    requires few { j ≤ at.blocks + 1 }
    ensures { result ≡ net (flag_net at j) }
{
    if j == 0 {
        return NetId(at.gates);
    }
    NetId(at.base + 4 + j)
}

/// Adds the constants and the registers.
fn begin(nl: &mut Netlist, blocks: u32) -> Result<(), AllocError>
    requires few { blocks ≤ 1000000 }
    requires room { HasRoom nl.old (blocks + 6) }
    ensures { OnOk result (HasBegun nl.old nl.new blocks) }
{
    nl.push(Width::BIT, Cell::Const(0))?;
    nl.push(Width::BIT, Cell::Const(1))?;
    registers(nl, blocks + 4)?;
    Ok(())
}

/// Adds the gates. The last six of them are, two for each of the first three registers, those of what it takes.
fn gates(nl: &mut Netlist, w: Wires, at: Places, busy: NetId) -> Result<(), AllocError>
    requires many { at.gates ≤ 4000000000 }
    requires blocks { at.base + at.blocks + 6 ≤ at.gates }
    requires here { at.gates ≡ length nl.old.cells }
    requires bits { AreBits nl.old.cells w at busy.0 }
    requires room { HasRoom nl.old 26 }
    ensures { OnOk result (nl.new ≡ record nl.old { cells = nl.old.cells ++ map (choice 1) (gate_rows w at busy) }) }
{
    let (low, high) = (NetId(at.base), NetId(at.base + 1));
    let (current, one, two) = (NetId(at.base + 2), NetId(at.base + 3), NetId(at.base + 4));
    let g = at.gates;
    let oldest = NetId(at.base + 5 + at.blocks);
    let newest = flag(at, at.blocks);
    choices(
        nl,
        Width::BIT,
        &[
            [w.first, w.valid, current],
            [w.first, high, w.wants],
            [w.valid, high, busy],
            [current, w.valid, high],
            [NetId(g + 1), NetId(g + 3), high],
            [w.first, NetId(g + 2), NetId(g + 4)],
            [two, low, NetId(g + 5)],
            [w.reset, high, NetId(g + 6)],
            [w.first, high, current],
            [NetId(g + 1), NetId(g + 8), low],
            [two, low, NetId(g + 9)],
            [w.behind, oldest, newest],
            [w.late, NetId(g + 11), low],
            [NetId(g + 7), NetId(g + 12), low],
            [one, w.ready, low],
            [NetId(g + 14), low, one],
            [NetId(g + 13), high, NetId(g + 15)],
            [one, NetId(g + 13), low],
            [two, high, NetId(g + 17)],
            [one, NetId(g + 14), high],
            [NetId(g + 7), w.last, low],
            [NetId(g + 7), NetId(g), current],
            [two, high, NetId(g + 16)],
            [w.reset, low, NetId(g + 22)],
            [NetId(g + 14), low, NetId(g + 18)],
            [w.reset, low, NetId(g + 24)],
        ],
    )?;
    Ok(())
}

/// Adds two gates for each flag: what it takes, and the same but for the reset.
fn flag_gates(nl: &mut Netlist, reset: NetId, at: Places) -> Result<(), AllocError>
    requires many { at.gates ≤ 4000000000 }
    requires few { at.blocks ≤ 1000000 }
    requires blocks { at.base + at.blocks + 6 ≤ at.gates }
    requires here { at.gates + 26 ≡ length nl.old.cells }
    requires reset { IsNet nl.old.cells reset.0 1 }
    requires own { (k : ℕ) → k < at.blocks + 6 → IsNet nl.old.cells (at.base + k) 1 }
    requires gates { (k : ℕ) → k < 26 → IsNet nl.old.cells (at.gates + k) 1 }
    requires room { HasRoom nl.old (2 * (at.blocks + 1)) }
    ensures { OnOk result (HasFlagGates nl.old nl.new reset at (at.blocks + 1)) }
{
    let (low, turns, g) = (NetId(at.base), NetId(at.gates + 20), at.gates + 26);
    for j in 0..at.blocks + 1 {
        let before = flag(at, j);
        let own = NetId(at.base + 5 + j);
        choices(
            nl,
            Width::BIT,
            &[[turns, before, own], [reset, low, NetId(g + 2 * j)]],
        )?;
    }
    Ok(())
}

/// Adds the control of a circuit whose latency is so many blocks and some clocks: it says in which clocks the circuit steps,
/// so that in any run in which the nets mark its clocks the words that pass are those of the blocks. As long as one of the
/// first `wait` flags is 1 it steps on by empty blocks.
pub fn control(nl: &mut Netlist, w: Wires, blocks: u32, wait: u32) -> Result<Controlled, AllocError>
    requires few { blocks ≤ 1000000 }
    requires waits { wait ≤ blocks + 1 }
    requires many { nl.old.limit ≤ 4000000000 }
    requires nets { AreWires nl.old.cells w }
    requires room { HasRoom nl.old (control_cells blocks) }
    ensures longer { OnOk result (IsLonger nl.old nl.new) }
    ensures few { OnOk result (length nl.new.cells ≤ length nl.old.cells + control_cells blocks) }
    ensures control { IfOk result (λ c. IsControl (length nl.old.cells) nl.new.cells w blocks wait c) }
    ensures nets { IfOk result (λ c. HasControlNets (length nl.old.cells) nl.new.cells c) }
{
    nl.formed();
    let base = nl.len();
    begin(nl, blocks)?;
    let busy = any_of(nl, base + 5, wait, NetId(base), NetId(base + 1))?;
    nl.formed();
    let g = nl.len();
    let at = Places {
        base,
        blocks,
        gates: g,
    };
    gates(nl, w, at, busy)?;
    flag_gates(nl, w.reset, at)?;
    connect_all(nl, base + 2, blocks + 4, g + 21);
    Ok(Controlled {
        enable: NetId(g + 7),
        asks: NetId(g + 10),
        one: NetId(base + 3),
        two: NetId(base + 4),
        moves: NetId(g + 19),
    })
}
