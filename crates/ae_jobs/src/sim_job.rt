// The job `sim FILL`.

ghost use Rattle.std.specs.Prelude.{◌≡◌, ◌+◌, ◌*◌, ◌++◌, ◌<◌, ◌≤◌, ◌^◌, ◌∷◌, [], List, ℕ, length, map, take, drop, IfErr, IfOk, OnOk, string_bytes};
ghost use Rattle.ae_judge.specs.Faults.{IsFault, IsWellFormed};
ghost use Rattle.ae_runs.specs.SameRuns.{HasSameRuns};
ghost use Rattle.ae_netlist.specs.declared.cell.SizedCell.{SizedCell};
ghost use Rattle.ae_netlist.specs.Counts.{is_input, count_of, cells_of};
ghost use Rattle.ae_fields.specs.Rows.{rows};
ghost use Rattle.ae_vread.specs.Spells.{Spells};
ghost use Rattle.ae_vmodule.specs.View.{module_tree};
ghost use Rattle.ae_jobs.specs.SimPlaying.{AreSimRows, IsModuleReply, IsNetSim, IsNetText, IsRefusedAs, cell_widths};
ghost use Rattle.ae_jobs.specs.SimTexts.{IsSimulated, module_kind, text_kind, words_of_clock};

use crate::reply::{RUN_LIMIT, Reply, refused};
use crate::status::{Status, VFaultKind};
use ae_compile::OutOfMemory;
use ae_elab::{ElabFault, elaborate};
use ae_netlist::{Cell, Netlist, PackedCell, fill_begins, has_one_run_with};
use ae_parse::{RowFault, read_rows};
use ae_play::{Monitor, Stimulus, play, write_words};
use ae_sim::Sim;
use ae_vmodule::VModule;
use ae_vread::{VFault, read};
use itoa::Buffer;
use std::alloc::{AllocError, Global};

// What is told of a text that spells no module.
pub fn text_kind(fault: &VFault) -> Option<VFaultKind>
    ensures { result ≡ text_kind fault.now }
{
    match fault {
        VFault::BadToken { at } => Some(VFaultKind::BadToken { at: *at }),
        VFault::BadHeader => Some(VFaultKind::BadHeader),
        VFault::BadItem { item } => Some(VFaultKind::BadItem { item: *item }),
        VFault::Memory => None,
    }
}

// What is told of a module that is not well formed.
pub fn module_kind(fault: ElabFault) -> Option<VFaultKind>
    ensures { result ≡ module_kind fault }
{
    match fault {
        ElabFault::Unknown { item } => Some(VFaultKind::Unknown { item }),
        ElabFault::Twice { item } => Some(VFaultKind::Twice { item }),
        ElabFault::Kind { item } => Some(VFaultKind::Kind { item }),
        ElabFault::Undriven { net } => Some(VFaultKind::Undriven { net }),
        ElabFault::Width { item } => Some(VFaultKind::Width { item }),
        ElabFault::Loop { net } => Some(VFaultKind::Loop { net }),
        ElabFault::Large => Some(VFaultKind::Large),
        ElabFault::Memory => None,
    }
}

// The reply to a module with a fault of this kind.
fn refused_as(alloc: Global, kind: Option<VFaultKind>) -> Result<Reply, OutOfMemory>
    ensures { IfOk result (λ reply. IsRefusedAs kind reply.status (string_bytes reply.text)) }
{
    match kind {
        Some(fault) => refused(alloc, Status::BadModule { fault }),
        None => Err(OutOfMemory),
    }
}

fn push_input(widths: &mut Vec<u32>, packed: &PackedCell) -> Result<(), AllocError>
    ensures { OnOk result (widths.new.items ≡ widths.old.items ++ map (λ (s : SizedCell). s.width) (cells_of is_input (packed.now ∷ []))) }
{
    match packed.cell() {
        Cell::Input(_) => Ok(widths.push(packed.width())?),
        Cell::Const(_) | Cell::Op(_, _) => Ok(()),
        Cell::Reg { .. } | Cell::Mem { .. } | Cell::Peek { .. } => Ok(()),
    }
}

// The widths of the inputs.
fn input_widths(alloc: Global, nl: &Netlist) -> Result<Vec<u32>, AllocError>
    ensures { IfOk result (λ widths. widths.items ≡ map (λ (s : SizedCell). s.width) (cells_of is_input nl.now.cells)) }
{
    let mut widths = Vec::new(alloc);
    for packed in nl.cells() {
        push_input(&mut widths, packed)?;
    }
    Ok(widths)
}

// The widths of the words of a row; without inputs there is one of one bit.
fn row_widths(alloc: Global, nl: &Netlist) -> Result<Vec<u32>, AllocError>
    ensures { IfOk result (λ widths. widths.items ≡ cell_widths nl.now.cells) }
{
    let mut widths = input_widths(alloc, nl)?;
    if widths.is_empty() {
        widths.push(1)?;
    }
    Ok(widths)
}

// Rows of words that stand one after the other; the inputs take the first words of each.
#[derive(Clone, Copy)]
struct Rows<'a> {
    words: &'a [u64],
    columns: usize,
    inputs: usize,
}

impl Stimulus for Rows<'_> {
    ghost has = { λ r c. c * r.columns + r.inputs ≤ length r.words.now };

    ghost given = { λ r c. take r.inputs (drop (c * r.columns) r.words.now) };

    fn set(&self, row: &mut Vec<u64>, clock: u32) -> Result<(), AllocError> {
        let first = clock as usize * self.columns;
        row.clear();
        row.extend_from_slice(&self.words[first..first + self.inputs])
    }
}

// Writes the line of each clock.
#[derive(Clone, Copy)]
struct ClockWriter;

impl Monitor for ClockWriter {
    type Kept = String;

    ghost takes = { λ m c row words old new. string_bytes new ≡ string_bytes old ++ words_of_clock c words };

    fn take(
        &self,
        out: &mut String,
        clock: u32,
        _row: &[u64],
        words: &[u64],
    ) -> Result<(), AllocError> {
        out.push_str(Buffer::new().format(clock))?;
        write_words(out, words)?;
        out.push_str("\n")?;
        Ok(())
    }
}

// The lines of the netlist's run on rows of words that are right.
fn run_text(
    alloc: Global,
    nl: &Netlist,
    words: &[u64],
    columns: usize,
    fill: u64,
) -> Result<String, AllocError>
    requires rows { (table : List (List (List ℕ))) × AreSimRows nl.now.cells columns table words.now }
    ensures { IfOk result (λ text. (table : List (List (List ℕ))) → AreSimRows nl.now.cells columns table words.now
        → IsNetText nl.now fill table (string_bytes text)) }
{
    has_one_run_with(nl);
    fill_begins(nl, fill);
    let rows = Rows {
        words,
        columns,
        inputs: nl.inputs() as usize,
    };
    let clocks = (words.len() / columns) as u32;
    let mut out = String::new(alloc);
    let mut sim = Sim::new(alloc, nl, fill)?;
    play(
        alloc,
        &mut sim,
        nl.outputs(),
        &rows,
        clocks,
        &ClockWriter,
        &mut out,
    )?;
    Ok(out)
}

// The reply to rows of words that are right, if the run is not too long.
fn run_rows(
    alloc: Global,
    nl: &Netlist,
    words: &[u64],
    columns: usize,
    fill: u64,
) -> Result<Reply, OutOfMemory>
    requires rows { (table : List (List (List ℕ))) × AreSimRows nl.now.cells columns table words.now }
    ensures { IfOk result (λ reply. (table : List (List (List ℕ))) → AreSimRows nl.now.cells columns table words.now
        → IsNetSim fill nl.now table reply.status (string_bytes reply.text)) }
{
    let clocks = words.len() / columns;
    let size = clocks as u64 * (1 + u64::from(nl.outputs()));
    if size > RUN_LIMIT {
        return refused(alloc, Status::LongRun { size });
    }
    let text = run_text(alloc, nl, words, columns, fill)?;
    Ok(Reply {
        status: Status::Ok,
        text,
    })
}

// The lines of a netlist's run on rows of words, one for each input in order; or the refusal of a wrong row or of a run
// that is too long.
fn run_netlist(alloc: Global, nl: &Netlist, rest: &[u8], fill: u64) -> Result<Reply, OutOfMemory>
    requires rest { length rest.now < 2 ^ 32 }
    requires few { count_of is_input nl.now.cells ≤ 10000000 }
    ensures { IfOk result (λ reply. IsNetSim fill nl.now (rows rest.now) reply.status (string_bytes reply.text)) }
{
    nl.formed();
    let widths = row_widths(alloc, nl)?;
    match read_rows(alloc, rest, widths.as_slice()) {
        Ok(table) => run_rows(
            alloc,
            nl,
            table.words.as_slice(),
            table.columns as usize,
            fill,
        ),
        Err(RowFault::BadWords { row, column }) => refused(alloc, Status::BadWords { row, column }),
        Err(RowFault::Memory) => Err(OutOfMemory),
    }
}

// The netlist of a module, which is not kept.
fn netlist_of(alloc: Global, m: VModule<'_>) -> Result<Netlist, ElabFault>
    requires spelled { (text : List ℕ) × (length text < 2 ^ 32) × Spells text (module_tree m) }
    ensures well_formed { OnOk result (IsWellFormed (module_tree m.entry)) }
    ensures fault { IfErr result (λ f. IsFault (module_tree m.entry) f) }
    ensures runs { IfOk result (λ n. HasSameRuns (module_tree m.entry) n) }
{
    elaborate(alloc, &m)
}

// The reply for a module that a text spells.
fn run_module(alloc: Global, m: VModule<'_>, rest: &[u8], fill: u64) -> Result<Reply, OutOfMemory>
    requires spelled { (text : List ℕ) × (length text < 2 ^ 32) × Spells text (module_tree m) }
    requires rest { length rest.now < 2 ^ 32 }
    ensures { IfOk result (λ reply. IsModuleReply fill (module_tree m.entry) (rows rest.now) reply.status (string_bytes reply.text)) }
{
    match netlist_of(alloc, m) {
        Ok(nl) => run_netlist(alloc, &nl, rest, fill),
        Err(fault) => refused_as(alloc, module_kind(fault)),
    }
}

/// Simulates the module that a Verilog text spells on rows of words, one for each input but the clock: a line for each
/// row, with its number from 0 and the words of all outputs in that clock. Registers and memories begin as the fill, modulo
/// 2 to each width. A text that spells no well-formed module is refused before a wrong row, and that before a run that is
/// too long; without memory there is no reply.
pub fn simulate(alloc: Global, part: &[u8], rest: &[u8], fill: u64) -> Result<Reply, OutOfMemory>
    requires part { length part.now < 2 ^ 32 }
    requires rest { length rest.now < 2 ^ 32 }
    ensures { IfOk result (λ reply. IsSimulated fill part.now (rows rest.now) reply.status (string_bytes reply.text)) }
{
    match read(alloc, part) {
        Ok(m) => run_module(alloc, m, rest, fill),
        Err(fault) => refused_as(alloc, text_kind(&fault)),
    }
}
