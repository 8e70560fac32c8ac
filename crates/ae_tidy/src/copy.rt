// The copy of a netlist: its kept cells in order, equal ones once.

ghost use Rattle.std.specs.Prelude.{◌≡◌, ◌<◌, ◌+◌, ℕ, [], IfOk, OnOk, length};
ghost use Rattle.ae_tidy.specs.Copies.{IsCopied, present, wanted};
ghost use Rattle.ae_tidy.specs.Marks.{AreMarked, IsKept};
ghost use Rattle.ae_tidy.specs.Needed.{IsNeeded};
ghost use Rattle.ae_tidy.specs.Places.{AreMarks, AreMoved, AreTraced};
ghost use Rattle.ae_tidy.specs.Tidied.{IsTidied};

use crate::append::{add_late, append};
use crate::look::{cell_at, is_kept, net_at, outlet_at};
use crate::moved::all_moved;
use crate::seen::Seen;
use crate::table::{Table, is_late};
use crate::tidying::Tidied;
use ae_netlist::{Cell, NetId, Netlist, SizedCell, has_one_run};
use std::alloc::{AllocError, Global};

/// Copies cell `n`: a late register or memory without its nets, and an equal cell not again.
fn copy_kept(
    nl: &Netlist,
    keep: &[bool],
    n: u32,
    new: &mut Netlist,
    table: &mut Table,
    seen: &mut Seen,
) -> Result<(), AllocError>
    requires below { n < length nl.now.cells }
    requires marked { AreMarked nl.now keep.now }
    requires kept { IsKept keep.now n }
    requires copied { IsCopied nl.now.cells keep.now new.old.cells table.old.at.items table.old.made.items n 0 }
    requires room { new.old.limit ≡ length nl.now.cells }
    ensures copied { OnOk result (IsCopied nl.now.cells keep.now new.new.cells table.new.at.items table.new.made.items (n + 1) 0) }
    ensures limit { OnOk result (new.new.limit ≡ new.old.limit) }
    ensures outlets { OnOk result (new.new.outlets ≡ new.old.outlets) }
{
    nl.formed();
    let sized = cell_at(nl, NetId(n));
    if is_late(NetId(n), sized.cell) {
        let late = add_late(new, sized.width, sized.cell)?;
        table.add(NetId(n), late)?;
        return Ok(());
    }
    let image = SizedCell {
        width: sized.width,
        cell: table.image(sized.cell),
    };
    if let Some(there) = seen.find(new, image) {
        table.merge(there)?;
        return Ok(());
    }
    let made = append(new, image)?;
    seen.put(image, made)?;
    table.add(NetId(n), made)?;
    Ok(())
}

/// Copies cell `n`, if it is kept.
fn copy_cell(
    nl: &Netlist,
    keep: &[bool],
    n: u32,
    new: &mut Netlist,
    table: &mut Table,
    seen: &mut Seen,
) -> Result<(), AllocError>
    requires below { n < length nl.now.cells }
    requires marked { AreMarked nl.now keep.now }
    requires copied { IsCopied nl.now.cells keep.now new.old.cells table.old.at.items table.old.made.items n 0 }
    requires room { new.old.limit ≡ length nl.now.cells }
    ensures copied { OnOk result (IsCopied nl.now.cells keep.now new.new.cells table.new.at.items table.new.made.items (n + 1) 0) }
    ensures limit { OnOk result (new.new.limit ≡ new.old.limit) }
    ensures outlets { OnOk result (new.new.outlets ≡ new.old.outlets) }
{
    if !is_kept(keep, NetId(n)) {
        table.skip()?;
        return Ok(());
    }
    copy_kept(nl, keep, n, new, table, seen)?;
    Ok(())
}

/// Connects cell `m` of the copy, if it is a late register or memory. A memory that is not connected names itself, and so
/// does its copy.
fn connect_cell(nl: &Netlist, _keep: &[bool], m: u32, new: &mut Netlist, table: &Table)
    requires below { m < length new.old.cells }
    requires marked { AreMarked nl.now _keep.now }
    requires copied { IsCopied nl.now.cells _keep.now new.old.cells table.now.at.items table.now.made.items (length nl.now.cells) m }
    ensures copied { IsCopied nl.now.cells _keep.now new.new.cells table.now.at.items table.now.made.items (length nl.now.cells) (m + 1) }
    ensures long { length new.new.cells ≡ length new.old.cells }
    ensures limit { new.new.limit ≡ new.old.limit }
    ensures outlets { new.new.outlets ≡ new.old.outlets }
{
    nl.formed();
    let own = net_at(&table.made, m as usize);
    let sized = cell_at(nl, own);
    if !is_late(own, sized.cell) {
        return;
    }
    match sized.cell {
        Cell::Reg { next } => {
            let to = table.net(next);
            new.connect(NetId(m), to);
        }
        Cell::Mem {
            depth: _,
            at,
            next,
            enable,
        } => {
            if enable.0 != own.0 {
                let place = table.net(at);
                let word = table.net(next);
                let bit = table.net(enable);
                new.connect_memory(NetId(m), place, word, bit);
            }
        }
        Cell::Input(_) | Cell::Const(_) | Cell::Op(_, _) | Cell::Peek { .. } => {}
    }
}

/// Connects the late registers and memories of the copy.
fn connect_cells(nl: &Netlist, keep: &[bool], new: &mut Netlist, table: &Table)
    requires marked { AreMarked nl.now keep.now }
    requires copied { IsCopied nl.now.cells keep.now new.old.cells table.now.at.items table.now.made.items (length nl.now.cells) 0 }
    ensures copied { IsCopied nl.now.cells keep.now new.new.cells table.now.at.items table.now.made.items (length nl.now.cells) (length new.new.cells) }
    ensures limit { new.new.limit ≡ new.old.limit }
    ensures outlets { new.new.outlets ≡ new.old.outlets }
{
    for m in 0..new.len() {
        connect_cell(nl, keep, m, new, table);
    }
}

/// Lets the copy show what the netlist shows.
fn show(nl: &Netlist, _keep: &[bool], new: &mut Netlist, table: &Table) -> Result<(), AllocError>
    requires marked { AreMarked nl.now _keep.now }
    requires copied { IsCopied nl.now.cells _keep.now new.old.cells table.now.at.items table.now.made.items (length nl.now.cells) (length new.old.cells) }
    requires none { new.old.outlets ≡ [] }
    ensures cells { OnOk result (new.new.cells ≡ new.old.cells) }
    ensures limit { OnOk result (new.new.limit ≡ new.old.limit) }
    ensures shown { OnOk result (present new.new.outlets ≡ wanted table.now.at.items nl.now.outlets) }
{
    nl.formed();
    for k in 0..nl.outputs() {
        let outlet = outlet_at(nl, k);
        let net = table.net(outlet.net);
        new.add_output(outlet.port, net)?;
    }
    Ok(())
}

/// The kept cells of a netlist, equal ones once, and its outputs; and where the marks are in them.
pub fn copy(alloc: Global, nl: &Netlist, keep: &[bool], marks: &[u32]) -> Result<Tidied, AllocError>
    requires marked { AreMarked nl.now keep.now }
    requires needed { (n : ℕ) → IsKept keep.now n → IsNeeded nl.now n }
    ensures tidied { IfOk result (λ t. IsTidied nl.now t.netlist) }
    ensures made { IfOk result (λ t. AreTraced nl.now.cells t.netlist.cells t.made.items) }
    ensures marks { IfOk result (λ t. AreMarks (length t.netlist.cells) (length marks.now) t.marks.items) }
    ensures moved { IfOk result (λ t. (cells count : ℕ) → AreMarks cells count marks.now → AreMoved nl.now.cells t.netlist.cells marks.now t.marks.items) }
{
    nl.formed();
    has_one_run(nl);
    let mut new = Netlist::new(alloc, nl.len());
    let mut table = Table::new(alloc);
    let mut seen = Seen::new(alloc);
    for n in 0..nl.len() {
        copy_cell(nl, keep, n, &mut new, &mut table, &mut seen)?;
    }
    connect_cells(nl, keep, &mut new, &table);
    show(nl, keep, &mut new, &table)?;
    new.formed();
    let marks = all_moved(alloc, &table.made, marks)?;
    Ok(Tidied {
        netlist: new,
        made: table.made,
        marks,
    })
}
