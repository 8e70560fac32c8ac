// How many registers and comparisons a circuit has, and which memories.

use ae_netlist::{Cell, Netlist};
use ae_word::WordOp;
use table_text::Page;

fn is_register(cell: &Cell) -> bool {
    match cell {
        Cell::Reg { .. } => true,
        Cell::Input(_) | Cell::Const(_) | Cell::Op(_, _) => false,
        Cell::Mem { .. } | Cell::Peek { .. } => false,
    }
}

fn compares(cell: &Cell) -> bool {
    match cell {
        Cell::Op(op, _) => *op == WordOp::Eq || *op == WordOp::Lt,
        Cell::Input(_) | Cell::Const(_) => false,
        Cell::Reg { .. } | Cell::Mem { .. } | Cell::Peek { .. } => false,
    }
}

/// The depth of each memory, and whether there are at most so many registers and so many comparisons.
pub fn tell(out: &mut Page, nl: &Netlist, registers: u32, comparisons: u32) {
    let mut kept = 0u32;
    let mut compared = 0u32;
    for packed in nl.cells() {
        let cell = packed.cell();
        if is_register(&cell) {
            kept = kept.saturating_add(1);
        }
        if compares(&cell) {
            compared = compared.saturating_add(1);
        }
        if let Cell::Mem { depth, .. } = cell {
            out.tell("a memory of ", &depth);
            out.say(" words\n");
        }
    }
    out.tell("at most ", &registers);
    out.tell(" registers: ", &(kept <= registers));
    out.tell("; at most ", &comparisons);
    out.tell_line(" comparisons: ", &(compared <= comparisons));
}
