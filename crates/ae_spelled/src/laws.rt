// What the listing of a netlist says, and what its module keeps of the netlist.

ghost use Rattle.std.specs.Prelude.{◌≡◌, ℕ, List, [], ◌++◌, length, IsTrue, ◌+◌, ◌*◌, ◌^◌, ◌<◌, ◌≤◌};
ghost use Rattle.std.specs.List.{list_all};
ghost use Rattle.ae_netlist.specs.declared.cell.SizedCell.{SizedCell};
ghost use Rattle.ae_netlist.specs.declared.cell.Outlet.{Outlet};
ghost use Rattle.ae_netlist.specs.Circuit.{Circuit};
ghost use Rattle.ae_netlist.specs.Counts.{count_of, is_mul};
ghost use Rattle.ae_judge.specs.Faults.{IsWellFormed};
ghost use Rattle.ae_runs.specs.SameRuns.{HasSameRuns};
ghost use Rattle.ae_judge.specs.Weight.{weight};
ghost use Rattle.ae_vmodule.specs.ModuleTree.{ModuleTree};
ghost use Rattle.ae_vread.specs.Spells.{Spells, stars};
ghost use Rattle.ae_verilog.specs.NetlistModule.{netlist_module};
ghost use Rattle.ae_verilog.specs.Notes.{ArePrinted, NoteTree, noted_module};
ghost use Rattle.ae_verilog.specs.ReportLines.{ReportTree, is_clean, report_lines};
ghost use Rattle.ae_verilog.specs.Text.{stream_listing, whole_text};
ghost use Rattle.ae_verilog.specs.Written.{HaveNumbers, IsListable, IsWritableNetlist};
ghost use Rattle.ae_spelled.specs.ModulePorts.{ArePorts};
ghost use Rattle.ae_spelled.specs.Short.{IsShort};
ghost use Rattle.ae_spelled.specs.Streams.{IsModuleName, renamed};

/// A law: the listing of a netlist, behind any report and with printed notes, spells exactly the names, declarations and items
/// of the netlist's module, with one `*` for each cell that multiplies and no other; it begins with its report lines, and it
/// has no `%` and no `$`.
pub fn listings_spell()
    ensures spells { (r : ReportTree) (notes : List NoteTree) (cells : List SizedCell) (outlets : List Outlet) (outs : ℕ) → ArePrinted notes → IsListable cells outlets → Spells (whole_text (report_lines r) notes cells outlets outs) (noted_module notes cells outlets outs) }
    ensures stars { (notes : List NoteTree) (cells : List SizedCell) (outlets : List Outlet) (outs : ℕ) → stars (noted_module notes cells outlets outs) ≡ count_of is_mul cells }
    ensures reports { (r : ReportTree) (notes : List NoteTree) (cells : List SizedCell) (outlets : List Outlet) (outs : ℕ) → (rest : List ℕ) × (whole_text (report_lines r) notes cells outlets outs ≡ report_lines r ++ rest) }
    ensures clean { (r : ReportTree) (notes : List NoteTree) (cells : List SizedCell) (outlets : List Outlet) (outs : ℕ) → ArePrinted notes → IsListable cells outlets → IsTrue (list_all is_clean (whole_text (report_lines r) notes cells outlets outs)) }
{}

/// A law: the listing of a netlist that is not too large, with numbers of 32 bits and as few and as short notes as those of a
/// program, has fewer than 2 to the 32 bytes.
pub fn listings_are_short()
    ensures { (r : ReportTree) (notes : List NoteTree) (cells : List SizedCell) (outlets : List Outlet) (outs : ℕ) → IsListable cells outlets → HaveNumbers r notes → IsShort r notes cells outlets → length (whole_text (report_lines r) notes cells outlets outs) < 2 ^ 32 }
{}

/// A law: the listing of a circuit between two channels, under a name that a module can have, spells exactly the names,
/// declarations and items of the netlist's module under this name. Where the netlist is not too large and its numbers have 32
/// bits, it has fewer than 2 to the 32 bytes.
pub fn streams_spell()
    ensures spells { (title : List ℕ) (r : ReportTree) (cells : List SizedCell) (outlets : List Outlet) (outs : ℕ) → IsModuleName title → IsListable cells outlets → Spells (stream_listing title (report_lines r) cells outlets outs) (renamed title (noted_module [] cells outlets outs)) }
    ensures short { (title : List ℕ) (r : ReportTree) (cells : List SizedCell) (outlets : List Outlet) (outs : ℕ) → IsModuleName title → IsListable cells outlets → HaveNumbers r [] → IsShort r [] cells outlets → length (stream_listing title (report_lines r) cells outlets outs) < 2 ^ 32 }
{}

/// A law: what a module is called has no part in its runs, nor in whether it is well formed.
pub fn names_are_free()
    ensures runs { (title : List ℕ) (m : ModuleTree) (n : Circuit) → HasSameRuns m n → HasSameRuns (renamed title m) n }
    ensures formed { (title : List ℕ) (m : ModuleTree) → IsWellFormed m → IsWellFormed (renamed title m) }
{}

/// A law: the module that a netlist is written as, whatever lines its names tell, has the netlist's runs, both ways, and its
/// ports; it weighs at most 1, and 4 for each cell and each output; and where that is at most 10,000,000 it has no fault.
pub fn module_keeps()
    ensures runs { (lines : ℕ → ℕ) (n : Circuit) (outs : ℕ) → IsWritableNetlist n.cells n.outlets outs → HasSameRuns (netlist_module lines n.cells n.outlets outs) n }
    ensures ports { (lines : ℕ → ℕ) (n : Circuit) (outs : ℕ) → IsWritableNetlist n.cells n.outlets outs → ArePorts lines n outs }
    ensures light { (lines : ℕ → ℕ) (n : Circuit) (outs : ℕ) → weight (netlist_module lines n.cells n.outlets outs) ≤ 1 + 4 * length n.cells + 4 * length n.outlets }
    ensures formed { (lines : ℕ → ℕ) (n : Circuit) (outs : ℕ) → IsWritableNetlist n.cells n.outlets outs → 1 + 4 * length n.cells + 4 * length n.outlets ≤ 10000000 → IsWellFormed (netlist_module lines n.cells n.outlets outs) }
{}

/// A law: a text of fewer than 2 to the 32 bytes spells one module at most.
pub fn spelled_once()
    ensures { (text : List ℕ) (m n : ModuleTree) → length text < 2 ^ 32 → Spells text m → Spells text n → m ≡ n }
{}
