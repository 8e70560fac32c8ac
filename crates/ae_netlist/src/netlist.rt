// Netlists, and how they are built.

ghost use Rattle.std.specs.Option.{option_copied, option_map};
ghost use Rattle.std.specs.Prelude.{◌≡◌, ◌<◌, ◌≤◌, ◌+◌, ◌-◌, ◌^◌, ◌↔◌, ◌++◌, ◌∷◌, [], length, Option, Some, None, slice_get, slice_set, IfOk, Err, OnOk, OnErr, IfSome, IsSome, true, false};
ghost use Rattle.ae_netlist.specs.Circuit.{Circuit, IsNet, IsAllowed, IsFormed, IsMemory, IsRegister, IsWritten, HaveNets, SizedCellFits, depth_of, new_memory, new_register, width_of};
ghost use Rattle.ae_netlist.specs.Counts.{AreNumbered, IsNumbered, cells_of, count_of, is_input};

use crate::cell::{Cell, NetId, Outlet, Port, SizedCell};
use crate::input_nets::InputNets;
use crate::packed::PackedCell;
use ae_word::Width;
use std::alloc::{AllocError, AllocFailed, Global};
use std::marker::Model;

/// Why a cell was not added.
#[derive(Clone, Copy, Debug)]
pub enum NetFault {
    /// The netlist has as many cells as it may.
    Full,
    /// There was no memory for it.
    Memory,
}

impl From<AllocError> for NetFault {
    ghost use Rattle.ae_netlist.specs.declared.netlist.NetFault.TheVariants.{Memory};

    ghost from_gives = { λ _ fault. fault ≡ Memory };

    fn from(_: AllocError) -> NetFault {
        NetFault::Memory
    }
}

impl<T: Drop> From<AllocFailed<T>> for NetFault {
    ghost use Rattle.ae_netlist.specs.declared.netlist.NetFault.TheVariants.{Memory};

    ghost from_gives = { λ _ fault. fault ≡ Memory };

    fn from(_: AllocFailed<T>) -> NetFault {
        NetFault::Memory
    }
}

/// Cells, each of which drives the net of its number, and outputs.
#[derive(Drop)]
pub struct Netlist {
    limit: u32,
    cells: Vec<PackedCell>,
    inputs: InputNets,
    outlets: Vec<Outlet>,
}

impl Model for Netlist {
    ghost Value = { Circuit };

    ghost view = { λ n. record { limit = n.limit; cells = n.cells.items; outlets = n.outlets.items } };

    ghost invariant = { λ n. (length n.cells.items ≤ n.limit) × IsFormed n.cells.items × HaveNets n.cells.items n.outlets.items × AreNumbered is_input n.cells.items n.inputs × (length n.outlets.items < 2 ^ 32) × (n.limit < 2 ^ 32) };
}

impl Netlist {
    /// No cells and no outputs; at most `limit` cells can be added. Takes no memory.
    pub fn new(alloc: Global, limit: u32) -> Netlist
        ensures { result ≡ record { limit = limit; cells = []; outlets = [] } }
    {
        Netlist {
            limit,
            cells: Vec::new(alloc),
            inputs: InputNets::new(alloc),
            outlets: Vec::new(alloc),
        }
    }

    /// Makes room for so many more cells at once, so that they need not be moved while they are added. Nothing else changes; the
    /// error comes only for want of memory.
    pub fn reserve(&mut self, more: usize) -> Result<(), AllocError>
        ensures { self.new ≡ self.old }
    {
        self.cells.reserve_exact(more)
    }

    /// Operands stand before their operators and have the right widths, so nothing depends on itself within a clock;
    /// each output shows a net. There are fewer than 2^32 of both.
    pub fn formed(&self)
        ensures cells { IsFormed self.now.cells }
        ensures outlets { HaveNets self.now.cells self.now.outlets }
        ensures limit { length self.now.cells ≤ self.now.limit }
        ensures few { length self.now.outlets < 2 ^ 32 }
        ensures small { self.now.limit < 2 ^ 32 }
    {
        let _limit = self.limit;
    }

    /// The number of cells.
    pub fn len(&self) -> u32
        ensures { result ≡ length self.now.cells }
    {
        self.cells.len() as u32
    }

    /// All cells, by their nets.
    pub fn cells(&self) -> &[PackedCell]
        ensures { result.now ≡ self.now.cells }
    {
        &self.cells
    }

    /// All outputs, as they were added.
    pub fn outlets(&self) -> &[Outlet]
        ensures { result.now ≡ self.now.outlets }
    {
        &self.outlets
    }

    /// The cell of a net; None exactly where there is no such net.
    pub fn cell(&self, n: NetId) -> Option<Cell>
        ensures { result ≡ option_map (λ sized. sized.cell) (slice_get self.now.cells n.0) }
    {
        match self.cells.get(n.0 as usize) {
            Some(packed) => Some(packed.cell()),
            None => None,
        }
    }

    /// The cell of a net with its width; None exactly where there is no such net.
    pub fn sized(&self, n: NetId) -> Option<SizedCell>
        ensures { result ≡ slice_get self.now.cells n.0 }
    {
        match self.cells.get(n.0 as usize) {
            Some(packed) => Some(packed.sized()),
            None => None,
        }
    }

    /// The width of a net, in bits; None exactly where there is no such net.
    pub fn width(&self, n: NetId) -> Option<u32>
        ensures { result ≡ option_map (λ sized. sized.width) (slice_get self.now.cells n.0) }
    {
        match self.cells.get(n.0 as usize) {
            Some(packed) => Some(packed.width()),
            None => None,
        }
    }

    /// The number of inputs.
    pub fn inputs(&self) -> u32
        ensures { result ≡ count_of is_input self.now.cells }
    {
        self.inputs.len() as u32
    }

    /// The net of an input, numbered as they were added; None exactly where there is no such input.
    pub fn input(&self, k: u32) -> Option<NetId>
        ensures found { IfSome result (λ n. IsNumbered is_input self.now.cells k n.0) }
        ensures some { IsSome result ↔ (k < count_of is_input self.now.cells) }
    {
        self.inputs.net(k)
    }

    /// The width of an input, numbered as they were added; None exactly where there is no such input.
    pub fn input_width(&self, k: u32) -> Option<u32>
        ensures { result ≡ option_map (λ sized. sized.width) (slice_get (cells_of is_input self.now.cells) k) }
    {
        match self.inputs.net(k) {
            Some(n) => Some(self.cells[n.0 as usize].width()),
            None => None,
        }
    }

    /// The number of outputs.
    pub fn outputs(&self) -> u32
        ensures { result ≡ length self.now.outlets }
    {
        self.outlets.len() as u32
    }

    /// An output, numbered as they were added; None exactly where there is no such output.
    pub fn output(&self, k: u32) -> Option<&Outlet>
        ensures { option_copied result ≡ slice_get self.now.outlets k }
    {
        self.outlets.get(k as usize)
    }

    fn append(&mut self, sized: SizedCell) -> Result<NetId, AllocError>
        requires fits { SizedCellFits self.old.cells (self.old.cells ++ sized ∷ []) (length self.old.cells) sized }
        requires other { is_input sized.cell ≡ false }
        requires room { length self.old.cells < self.old.limit }
        ensures ok { IfOk result (λ n. n ≡ record { 0 = length self.old.cells }) }
        ensures added { OnOk result (self.new ≡ record self.old { cells = self.old.cells ++ sized ∷ [] }) }
        ensures err { OnErr result (self.new ≡ self.old) }
    {
        let net = self.cells.len();
        self.cells.push(PackedCell::of(sized))?;
        Ok(NetId(net as u32))
    }

    fn append_input(&mut self, sized: SizedCell) -> Result<NetId, AllocError>
        requires fits { SizedCellFits self.old.cells (self.old.cells ++ sized ∷ []) (length self.old.cells) sized }
        requires input { is_input sized.cell ≡ true }
        requires room { length self.old.cells < self.old.limit }
        ensures ok { IfOk result (λ n. n ≡ record { 0 = length self.old.cells }) }
        ensures added { OnOk result (self.new ≡ record self.old { cells = self.old.cells ++ sized ∷ [] }) }
        ensures err { OnErr result (self.new ≡ self.old) }
    {
        let net = self.cells.len();
        self.cells.push(PackedCell::of(sized))?;
        match self.inputs.push(NetId(net as u32)) {
            Ok(()) => Ok(NetId(net as u32)),
            Err(refused) => {
                self.cells.pop();
                Err(refused)
            }
        }
    }

    /// Adds an input, a constant, an operator or a peek, for which there is room, as the last cell, and answers its net.
    /// The error comes only for want of memory; the netlist is then unchanged.
    pub fn push(&mut self, width: Width, cell: Cell) -> Result<NetId, AllocError>
        requires allowed { IsAllowed self.old.cells width cell }
        requires room { length self.old.cells < self.old.limit }
        ensures ok { IfOk result (λ n. n ≡ record { 0 = length self.old.cells }) }
        ensures added { OnOk result (self.new ≡ record self.old { cells = self.old.cells ++ (record { width = width; cell = cell }) ∷ [] }) }
        ensures err { OnErr result (self.new ≡ self.old) }
    {
        let width = width.bits();
        match cell {
            Cell::Input(_) => self.append_input(SizedCell { width, cell }),
            Cell::Const(_)
            | Cell::Op(_, _)
            | Cell::Reg { .. }
            | Cell::Mem { .. }
            | Cell::Peek { .. } => self.append(SizedCell { width, cell }),
        }
    }

    /// Adds a register, for which there is room, that keeps its word until it is connected: it names itself. The error
    /// is as for `push`.
    pub fn push_register(&mut self, width: Width) -> Result<NetId, AllocError>
        requires { length self.old.cells < self.old.limit }
        ensures ok { IfOk result (λ n. n ≡ record { 0 = length self.old.cells }) }
        ensures added { OnOk result (self.new ≡ record self.old { cells = self.old.cells ++ new_register (length self.old.cells) width ∷ [] }) }
        ensures err { OnErr result (self.new ≡ self.old) }
    {
        let width = width.bits();
        let own = NetId(self.len());
        self.append(SizedCell {
            width,
            cell: Cell::Reg { next: own },
        })
    }

    /// Adds a memory of `depth` words of a width, for which there is room, that is never written until it is connected:
    /// it names itself. The error is as for `push`.
    pub fn push_memory(&mut self, width: Width, depth: u32) -> Result<NetId, AllocError>
        requires some { 1 ≤ depth }
        requires most { depth ≤ 65536 }
        requires room { length self.old.cells < self.old.limit }
        ensures ok { IfOk result (λ n. n ≡ record { 0 = length self.old.cells }) }
        ensures added { OnOk result (self.new ≡ record self.old { cells = self.old.cells ++ new_memory (length self.old.cells) width depth ∷ [] }) }
        ensures err { OnErr result (self.new ≡ self.old) }
    {
        let width = width.bits();
        let own = NetId(self.len());
        self.append(SizedCell {
            width,
            cell: Cell::Mem {
                depth,
                at: own,
                next: own,
                enable: own,
            },
        })
    }

    // Whether no cell can be added.
    fn is_full(&self) -> bool
        ensures full { result ≡ true → length self.now.cells ≡ self.now.limit }
        ensures room { result ≡ false → length self.now.cells < self.now.limit }
    {
        self.len() >= self.limit
    }

    /// Adds an input, a constant, an operator or a peek as the last cell, and answers its net. `Full` comes exactly
    /// where the netlist has `limit` cells; after a refusal it is unchanged.
    pub fn add(&mut self, width: Width, cell: Cell) -> Result<NetId, NetFault>
        requires { IsAllowed self.old.cells width cell }
        ensures ok { IfOk result (λ n. n ≡ record { 0 = length self.old.cells }) }
        ensures added { OnOk result (self.new ≡ record self.old { cells = self.old.cells ++ (record { width = width; cell = cell }) ∷ [] }) }
        ensures full { (result ≡ Err NetFault.Full) ↔ (length self.old.cells ≡ self.old.limit) }
        ensures err { OnErr result (self.new ≡ self.old) }
    {
        if self.is_full() {
            return Err(NetFault::Full);
        }
        Ok(self.push(width, cell)?)
    }

    /// Adds a register that keeps its word until it is connected: it names itself. `Full` and a refusal are as for
    /// `add`.
    pub fn state(&mut self, width: Width) -> Result<NetId, NetFault>
        ensures ok { IfOk result (λ n. n ≡ record { 0 = length self.old.cells }) }
        ensures added { OnOk result (self.new ≡ record self.old { cells = self.old.cells ++ new_register (length self.old.cells) width ∷ [] }) }
        ensures full { (result ≡ Err NetFault.Full) ↔ (length self.old.cells ≡ self.old.limit) }
        ensures err { OnErr result (self.new ≡ self.old) }
    {
        if self.is_full() {
            return Err(NetFault::Full);
        }
        Ok(self.push_register(width)?)
    }

    /// Adds a memory of `depth` words of a width, which is never written until it is connected: it names itself.
    /// `Full` and a refusal are as for `add`.
    pub fn memory(&mut self, width: Width, depth: u32) -> Result<NetId, NetFault>
        requires some { 1 ≤ depth }
        requires most { depth ≤ 65536 }
        ensures ok { IfOk result (λ n. n ≡ record { 0 = length self.old.cells }) }
        ensures added { OnOk result (self.new ≡ record self.old { cells = self.old.cells ++ new_memory (length self.old.cells) width depth ∷ [] }) }
        ensures full { (result ≡ Err NetFault.Full) ↔ (length self.old.cells ≡ self.old.limit) }
        ensures err { OnErr result (self.new ≡ self.old) }
    {
        if self.is_full() {
            return Err(NetFault::Full);
        }
        Ok(self.push_memory(width, depth)?)
    }

    /// Connects a register: from now on it takes the word of `next` at the end of each clock. Nothing else changes.
    pub fn connect(&mut self, r: NetId, next: NetId)
        requires register { IsRegister self.old.cells r.0 (width_of self.old.cells r.0) }
        requires next { IsNet self.old.cells next.0 (width_of self.old.cells r.0) }
        ensures { self.new ≡ record self.old { cells = slice_set self.old.cells r.0 (record { width = width_of self.old.cells r.0; cell = Cell.Reg next }) } }
    {
        let width = self.cells[r.0 as usize].width();
        self.cells[r.0 as usize] = PackedCell::of(SizedCell {
            width,
            cell: Cell::Reg { next },
        });
    }

    /// Connects a memory: from now on its word at place `at` becomes that of `next` at the end of each clock in which
    /// `enable` is 1. Nothing else changes.
    pub fn connect_memory(&mut self, m: NetId, at: NetId, next: NetId, enable: NetId)
        requires memory { IsMemory self.old.cells m.0 (width_of self.old.cells m.0) (depth_of self.old.cells m.0) }
        requires written { IsWritten self.old.cells (width_of self.old.cells m.0) (depth_of self.old.cells m.0) at.0 next.0 enable.0 }
        ensures { self.new ≡ record self.old { cells = slice_set self.old.cells m.0 (record { width = width_of self.old.cells m.0; cell = Cell.Mem (depth_of self.old.cells m.0) at next enable }) } }
    {
        let SizedCell { width, cell } = self.cells[m.0 as usize].sized();
        if let Cell::Mem { depth, .. } = cell {
            self.cells[m.0 as usize] = PackedCell::of(SizedCell {
                width,
                cell: Cell::Mem {
                    depth,
                    at,
                    next,
                    enable,
                },
            });
        }
    }

    /// Adds an output that shows the word of a net, as the last one. After a refusal the netlist is unchanged.
    pub fn add_output(&mut self, port: Port, net: NetId) -> Result<(), AllocError>
        requires net { IsNet self.old.cells net.0 (width_of self.old.cells net.0) }
        requires room { length self.old.outlets < 2 ^ 32 - 1 }
        ensures ok { OnOk result (self.new ≡ record self.old { outlets = self.old.outlets ++ (record { port = port; net = net }) ∷ [] }) }
        ensures err { OnErr result (self.new ≡ self.old) }
    {
        self.outlets.push(Outlet { port, net })?;
        Ok(())
    }
}
