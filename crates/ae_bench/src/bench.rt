// A test bench for the module of a program.

ghost use Rattle.std.specs.Prelude.{◌<◌, ◌≤◌, length};

use crate::wires::Wires;
use ae_compile::Costed;
use ae_eval::{eval, fits};
use ae_items::{Bundle, Column, KitFault, inputs, outputs};
use ae_parse::read_rows;
use ae_seqtype::Value;
use ae_sttype::Slowdown;
use ae_why::Watch;
use ae_word::Atom;
use std::alloc::{AllocError, Global};

// The most words that are given and compared.
const MOST_WORDS: u64 = 1_000_000;

// A block: a value of each parameter, and what the program makes of them.
#[derive(Drop)]
struct Block {
    given: Vec<Value>,
    wanted: Vec<Value>,
}

// Words that look like chance, the same for the same seed.
#[derive(Drop)]
struct Chance {
    state: u64,
}

impl Chance {
    fn next(&mut self, width: u32) -> u64 {
        let a = self.state ^ self.state.wrapping_shl(13);
        let b = a ^ a.wrapping_shr(7);
        self.state = b ^ b.wrapping_shl(17);
        if width >= 64 {
            return self.state;
        }
        self.state.wrapping_shr(64 - width.max(1))
    }
}

// Adds the widths of the words of one element.
fn push_widths(widths: &mut Vec<u32>, atom: &Atom) -> Result<(), AllocError> {
    if !atom.in_size() {
        return Ok(());
    }
    for word in 0..atom.words() {
        widths.push(atom.width(word).unwrap_or(64).min(64))?;
    }
    Ok(())
}

// The widths of the words of a row.
fn widths(alloc: Global, costed: &Costed) -> Result<Vec<u32>, AllocError> {
    let mut widths = Vec::new(alloc);
    for param in &costed.main_func().params {
        let count = if param.ty.in_size() {
            param.ty.atoms()
        } else {
            0
        };
        for _ in 0..count {
            push_widths(&mut widths, param.ty.atom())?;
        }
    }
    Ok(widths)
}

// The values of the parameters in a row.
fn values(alloc: Global, costed: &Costed, row: &[u64]) -> Result<Vec<Value>, AllocError> {
    let mut values = Vec::new(alloc);
    let mut rest = row;
    for param in &costed.main_func().params {
        let count = if param.ty.in_size() {
            param.ty.words()
        } else {
            0
        };
        let (own, after) = rest.split_at((count as usize).min(rest.len()));
        values.push(Value {
            words: Vec::from_slice(alloc, own)?,
        })?;
        rest = after;
    }
    Ok(values)
}

// The block of a row.
fn block_of(alloc: Global, costed: &Costed, row: &[u64]) -> Result<Option<Block>, AllocError> {
    let given = values(alloc, costed, row)?;
    let program = costed.program();
    if !fits(program, &given) {
        return Ok(None);
    }
    let wanted = eval(alloc, program, &given)?;
    Ok(Some(Block { given, wanted }))
}

// The blocks of all rows, which have so many words each; each row is told.
fn blocks_of<W: Watch>(
    alloc: Global,
    costed: &Costed,
    words: &[u64],
    columns: usize,
    watch: &mut W,
) -> Result<Vec<Block>, AllocError>
    requires { 0 < columns }
{
    let mut blocks = Vec::new(alloc);
    let count = short(words.len() / columns);
    for (number, row) in words.chunks(columns).enumerate() {
        watch.step("row", short(number), count);
        if let Some(block) = block_of(alloc, costed, row)? {
            blocks.push(block)?;
        }
    }
    Ok(blocks)
}

// The same of the rows in a text.
fn blocks<W: Watch>(
    alloc: Global,
    costed: &Costed,
    rest: &[u8],
    watch: &mut W,
) -> Result<Vec<Block>, KitFault>
    requires { length rest.now ≤ 16777216 }
{
    let widths = widths(alloc, costed)?;
    if widths.is_empty() || widths.len() > 10_000_000 || !widths.iter().all(|w| *w <= 64) {
        return Ok(Vec::new(alloc));
    }
    let table = read_rows(alloc, rest, widths.as_slice())?;
    let blocks = blocks_of(alloc, costed, table.words.as_slice(), widths.len(), watch)?;
    Ok(blocks)
}

// A count as a number of 32 bits, or the greatest.
fn short(count: usize) -> u32 {
    count.min(4_294_967_295) as u32
}

// A declaration of each port.
fn write_declarations(
    out: &mut String,
    kind: &str,
    bundles: &[Bundle<'_>],
) -> Result<(), AllocError> {
    for bundle in bundles {
        for number in 0..bundle.columns() {
            if let Some(column) = bundle.column(number) {
                let bits = column.width;
                let (wires, name) = (Wires { kind, bits }, bundle.port_name(column));
                writeln!(out, "  {wires} {name};")?;
            }
        }
    }
    Ok(())
}

// What connects each port.
fn write_connections(out: &mut String, bundles: &[Bundle<'_>]) -> Result<(), AllocError> {
    for bundle in bundles {
        for number in 0..bundle.columns() {
            if let Some(column) = bundle.column(number) {
                let name = bundle.port_name(column);
                write!(out, ",\n    .{name}({name})")?;
            }
        }
    }
    Ok(())
}

// The word of a block that is given on a column in a clock of it.
fn asked_word(
    bundle: &Bundle<'_>,
    block: Option<&Block>,
    clock: u32,
    column: Column,
) -> Option<u64> {
    bundle.word(block?.given.get(bundle.number)?, clock, column)
}

// The words of a bundle that are given in a clock, which is that clock of a block; others where nothing is asked.
fn write_given(
    out: &mut String,
    bundle: &Bundle<'_>,
    block: Option<&Block>,
    clock: u32,
    chance: &mut Chance,
) -> Result<(), AllocError> {
    for number in 0..bundle.columns() {
        if let Some(column) = bundle.column(number) {
            let (name, width) = (bundle.port_name(column), column.width);
            let word = match asked_word(bundle, block, clock, column) {
                Some(word) => word,
                None => chance.next(width),
            };
            writeln!(out, "    {name} = {width}'d{word};")?;
        }
    }
    Ok(())
}

// The comparison of a word.
fn write_comparison(
    out: &mut String,
    bundle: &Bundle<'_>,
    column: Column,
    clock: u64,
    word: u64,
) -> Result<(), AllocError> {
    let (name, width) = (bundle.port_name(column), column.width);
    writeln!(
        out,
        "    compared = compared + 1;\n    if ({name} !== {width}'d{word}) begin wrong = wrong + 1; $display(\"clock {clock}: {name} is %0d, and not {word}\", {name}); end"
    )
}

// The comparisons of a bundle in a clock, which is that clock of a block.
fn write_compared(
    out: &mut String,
    bundle: &Bundle<'_>,
    block: &Block,
    clock: u64,
    place: u32,
) -> Result<(), AllocError> {
    let Some(value) = block.wanted.get(bundle.number) else {
        return Ok(());
    };
    for number in 0..bundle.columns() {
        if let Some(column) = bundle.column(number) {
            if let Some(word) = bundle.word(value, place, column) {
                write_comparison(out, bundle, column, clock, word)?;
            }
        }
    }
    Ok(())
}

// The block that a clock is in, and the clock of that block.
fn place_of(clock: u64, slowdown: Slowdown) -> (usize, u32) {
    let clocks = u64::from(slowdown.clocks());
    ((clock / clocks) as usize, (clock % clocks) as u32)
}

// What a bench has to tell of a run.
#[derive(Drop)]
struct Run<'a> {
    ins: Vec<Bundle<'a>>,
    outs: Vec<Bundle<'a>>,
    blocks: Vec<Block>,
    slowdown: Slowdown,
    latency: u32,
}

// What is given and compared in a clock.
fn write_clock(
    out: &mut String,
    run: &Run<'_>,
    clock: u64,
    chance: &mut Chance,
) -> Result<(), AllocError> {
    let (number, place) = place_of(clock, run.slowdown);
    writeln!(out, "    // clock {clock}")?;
    for bundle in &run.ins {
        write_given(out, bundle, run.blocks.get(number), place, chance)?;
    }
    out.push_str("    #1\n")?;
    if clock >= u64::from(run.latency) {
        let (number, place) = place_of(clock - u64::from(run.latency), run.slowdown);
        if let Some(block) = run.blocks.get(number) {
            for bundle in &run.outs {
                write_compared(out, bundle, block, clock, place)?;
            }
        }
    }
    out.push_str("    clk = 1;\n    #1 clk = 0;\n")
}

// How many clocks the run has.
fn clock_count(run: &Run<'_>) -> u64 {
    if run.blocks.is_empty() {
        return 0;
    }
    (run.blocks.len() as u64)
        .saturating_mul(u64::from(run.slowdown.clocks()))
        .saturating_add(u64::from(run.latency))
}

// How many words are given and shown in a clock.
fn port_count(run: &Run<'_>) -> u64 {
    let mut count = 0u64;
    for bundle in &run.ins {
        count = count.saturating_add(u64::from(bundle.columns()));
    }
    for bundle in &run.outs {
        count = count.saturating_add(u64::from(bundle.columns()));
    }
    count
}

// The bench up to the first clock.
fn write_head(out: &mut String, run: &Run<'_>, dumps: bool) -> Result<(), AllocError> {
    let slowdown = run.slowdown.clocks();
    writeln!(
        out,
        "// A test bench for the module of `aeth build {slowdown}`, with {} blocks.\n// verilator lint_off DECLFILENAME\nmodule bench;\n  reg clk;\n  reg rst;",
        run.blocks.len()
    )?;
    write_declarations(out, "reg", &run.ins)?;
    write_declarations(out, "wire", &run.outs)?;
    out.push_str(
        "  integer compared;\n  integer wrong;\n  aeth dut (\n    .clk(clk),\n    .rst(rst)",
    )?;
    write_connections(out, &run.ins)?;
    write_connections(out, &run.outs)?;
    let dump = if dumps {
        "    $dumpfile(\"bench.vcd\");\n    $dumpvars(0, bench);\n"
    } else {
        ""
    };
    writeln!(
        out,
        "\n  );\n  initial begin\n{dump}    compared = 0;\n    wrong = 0;\n    clk = 0;\n    rst = 1;"
    )
}

// The bench.
fn write_bench(out: &mut String, run: &Run<'_>, fill: u64, dumps: bool) -> Result<(), AllocError> {
    let mut chance = Chance {
        state: fill ^ 0x9e37_79b9_7f4a_7c15,
    };
    write_head(out, run, dumps)?;
    for bundle in &run.ins {
        write_given(out, bundle, None, 0, &mut chance)?;
    }
    out.push_str("    #1 clk = 1;\n    #1 clk = 0;\n    rst = 0;\n")?;
    for clock in 0..clock_count(run) {
        write_clock(out, run, clock, &mut chance)?;
    }
    out.push_str(
        "    $display(\"%0d words compared, %0d wrong\", compared, wrong);\n    $finish;\n  end\nendmodule\n",
    )
}

// The run on the rows of an input.
fn run_of<'a, W: Watch>(
    alloc: Global,
    costed: &'a Costed,
    rows: &[u8],
    watch: &mut W,
) -> Result<Run<'a>, KitFault>
    requires { length rows.now ≤ 16777216 }
{
    let blocks = blocks(alloc, costed, rows, watch)?;
    let ins = inputs(alloc, costed)?;
    let outs = outputs(alloc, costed)?;
    Ok(Run {
        ins,
        outs,
        blocks,
        slowdown: costed.slowdown(),
        latency: costed.costs().latency(),
    })
}

// The text of a bench.
fn text_of(alloc: Global, run: &Run<'_>, fill: u64, dumps: bool) -> Result<String, KitFault> {
    if clock_count(run).saturating_mul(port_count(run)) > MOST_WORDS {
        return Err(KitFault::LongBench);
    }
    let mut out = String::new(alloc);
    write_bench(&mut out, run, fill, dumps)?;
    Ok(out)
}

/// A test bench for the module of a program, on the rows in a text: one clock of reset, then the rows as blocks, one behind the
/// other, and words that the fill seeds where nothing is asked; with a dump of all words where that is wanted. Each word that a
/// result has by the program's meaning is compared in its clock. Each row is told. The errors: a row that is not right, more than
/// 1,000,000 words, and want of memory.
pub fn bench_text<W: Watch>(
    alloc: Global,
    costed: &Costed,
    rows: &[u8],
    fill: u64,
    dumps: bool,
    watch: &mut W,
) -> Result<String, KitFault>
    requires { length rows.now ≤ 16777216 }
{
    let run = run_of(alloc, costed, rows, watch)?;
    text_of(alloc, &run, fill, dumps)
}
