// Which node each cell of a netlist is made for.

ghost use Rattle.std.specs.Prelude.{◌≡◌, ◌<◌, ℕ, IfOk, OnOk, Some, length, map, slice_get};
ghost use Rattle.ae_netlist.specs.declared.cell.NetId.{NetId as Net};
ghost use Rattle.ae_tidy.specs.Places.{AreRising};
ghost use Rattle.ae_lower.specs.Sections.{AreSections, AreThoseBefore, BeginsSection, IsCopiedSection, first_cell};

use ae_netlist::NetId;
use ae_tidy::all_moved;
use std::alloc::{AllocError, Global};

/// Cells of a netlist, from one on and up to the next section, that are made for one node of an instance.
#[derive(Clone, Copy)]
pub struct Section {
    /// The first cell.
    pub cell: u32,
    /// The number of the instance.
    pub instance: u32,
    /// The number of the node, or of all nodes, where the cells delay the results of the instance.
    pub node: u32,
}

// Leaves those sections that have cells before this one.
fn drop_empty(sections: &mut Vec<Section>, cell: u32)
    ensures { AreSections cell sections.old.items → AreThoseBefore cell sections.old.items sections.new.items }
{
    let count = sections.len();
    if count == 0 || sections[count - 1].cell < cell {
        return;
    }
    sections.truncate(count - 1);
}

/// Lets a section begin behind the others, in the place of one without cells. An error comes only for want of memory.
pub fn begin(sections: &mut Vec<Section>, section: Section) -> Result<(), AllocError>
    ensures ok { OnOk result (AreSections section.cell sections.old.items → BeginsSection section sections.old.items sections.new.items) }
{
    drop_empty(sections, section.cell);
    sections.push(section)?;
    Ok(())
}

// The first cells of sections.
fn first_cells(alloc: Global, sections: &[Section]) -> Result<Vec<u32>, AllocError>
    ensures { IfOk result (λ v. v.items ≡ map first_cell sections.now) }
{
    let mut cells = Vec::new(alloc);
    for section in sections {
        cells.push(section.cell)?;
    }
    Ok(cells)
}

/// The sections of the copy of a netlist, by the cells that those of the copy are made of: a cell stands in a section of the
/// node for which that cell was made.
pub fn copied_sections(
    alloc: Global,
    made: &[NetId],
    sections: &[Section],
) -> Result<Vec<Section>, AllocError>
    requires few { length made.now < 4294967296 }
    requires rising { AreRising made.now }
    requires sections { (cells : ℕ) × AreSections cells sections.now }
    ensures are { IfOk result (λ v. AreSections (length made.now) v.items) }
    ensures copied { IfOk result (λ v. (m : ℕ) (own : Net) → slice_get made.now m ≡ Some own → IsCopiedSection sections.now v.items own.0 m) }
{
    let cells = first_cells(alloc, sections)?;
    let places = all_moved(alloc, made, &cells)?;
    let mut copied = Vec::new(alloc);
    for i in 0..sections.len() {
        let section = Section {
            cell: places[i],
            instance: sections[i].instance,
            node: sections[i].node,
        };
        begin(&mut copied, section)?;
    }
    Ok(copied)
}
