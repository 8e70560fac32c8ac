// The layouts of a program as text.

use ae_compile::Costed;
use ae_items::{Item, clocks, count, element, item_at, lanes};
use std::alloc::{AllocError, Global};

// The columns of a line, those before the first clock, and the most lanes of a picture.
const WIDE: u32 = 100;

const LABEL: u32 = 10;

// The columns before what of a title stands on a further line.
const INDENT: u32 = 4;

const MOST_LANES: u32 = 16;

// How many digits a number has.
fn digits(number: u32) -> u32 {
    match number {
        0..=9 => 1,
        10..=99 => 2,
        100..=999 => 3,
        1000..=9999 => 4,
        10000..=99999 => 5,
        _ => 10,
    }
}

// Which clocks and lanes of a layout are shown, and how wide each clock is.
#[derive(Clone, Copy)]
struct Frame {
    clocks: u32,
    lanes: u32,
    cell: u32,
}

fn frame_of(item: Item<'_>) -> Frame {
    let time = clocks(item.layout);
    let all = lanes(item.layout);
    let widest = time
        .saturating_mul(all)
        .max(item.arrival.saturating_add(time));
    let cell = digits(widest).saturating_add(1).max(1);
    let most = (WIDE - LABEL) / cell;
    Frame {
        clocks: if time <= most {
            time
        } else {
            most.saturating_sub(1)
        },
        lanes: all.min(MOST_LANES),
        cell,
    }
}

// A number at the right of a cell.
fn write_cell(out: &mut String, number: u32, cell: u32) -> Result<(), AllocError> {
    let wide = cell as usize;
    write!(out, "{number:>wide$}")
}

// A mark where clocks are left out.
fn write_end(out: &mut String, item: Item<'_>, frame: Frame) -> Result<(), AllocError> {
    if frame.clocks < clocks(item.layout) {
        out.push_str(" ..")?;
    }
    out.push_str("\n")
}

// The clocks, each from the first one after the reset.
fn write_clocks(out: &mut String, item: Item<'_>, frame: Frame) -> Result<(), AllocError> {
    out.push_str("  clock   ")?;
    for clock in 0..frame.clocks {
        write_cell(out, item.arrival.saturating_add(clock), frame.cell)?;
    }
    write_end(out, item, frame)
}

// The elements on a lane, and a point where none stands.
fn write_lane(out: &mut String, item: Item<'_>, frame: Frame, lane: u32) -> Result<(), AllocError> {
    write!(out, "  lane {lane:<3}")?;
    for clock in 0..frame.clocks {
        match element(item.layout, clock, lane) {
            Some(number) => write_cell(out, number, frame.cell)?,
            None => {
                let wide = frame.cell as usize;
                write!(out, "{:>wide$}", ".")?;
            }
        }
    }
    write_end(out, item, frame)
}

// A further line of a title; how many columns stand in it.
fn write_break(out: &mut String) -> Result<u32, AllocError> {
    out.push_str("\n    ")?;
    Ok(INDENT)
}

// A word of a title behind so many columns, on a further line where it has no room; how many columns stand in the last line.
fn write_title_word(out: &mut String, word: &str, column: u32) -> Result<u32, AllocError> {
    let wide = word.len().min(1000) as u32;
    let mut column = column;
    if column > INDENT && column.saturating_add(wide) >= WIDE {
        column = write_break(out)?;
    } else if column > 0 {
        out.push(' ')?;
        column = column.saturating_add(1);
    }
    for letter in word.chars() {
        if column >= WIDE {
            column = write_break(out)?;
        }
        out.push(letter)?;
        column = column.saturating_add(1);
    }
    Ok(column)
}

// The line of an item: its name and its layout.
fn write_title(out: &mut String, alloc: Global, item: Item<'_>) -> Result<(), AllocError> {
    let mut title = format!(in alloc; "line {} {}, ", item.line, item.name)?;
    item.layout.write_to(&mut title)?;
    let mut column = 0u32;
    for word in title.as_str().split(' ') {
        column = write_title_word(out, word, column)?;
    }
    Ok(())
}

// An item, with what stands where.
fn write_item(out: &mut String, alloc: Global, item: Item<'_>) -> Result<(), AllocError> {
    out.push_str("\n")?;
    write_title(out, alloc, item)?;
    out.push_str("\n")?;
    let frame = frame_of(item);
    write_clocks(out, item, frame)?;
    for lane in 0..frame.lanes {
        write_lane(out, item, frame, lane)?;
    }
    let left = lanes(item.layout).saturating_sub(frame.lanes);
    if left > 0 {
        writeln!(out, "  and {left} lanes more")?;
    }
    Ok(())
}

// What the circuit costs, and all items.
fn write_items(out: &mut String, alloc: Global, costed: &Costed) -> Result<(), AllocError> {
    let slowdown = costed.slowdown().clocks();
    let latency = costed.costs().latency();
    let load = costed.costs().load();
    writeln!(out, "slowdown {slowdown}, latency {latency}, load {load}")?;
    for number in 0..count(costed) {
        if let Some(item) = item_at(costed, number) {
            write_item(out, alloc, item)?;
        }
    }
    Ok(())
}

/// The layout of each line of the program function in the first block, lanes by clocks, with the numbers of the elements, at most
/// 100 columns wide. The error comes only for want of memory.
pub fn draw_text(alloc: Global, costed: &Costed) -> Result<String, AllocError> {
    let mut out = String::new(alloc);
    write_items(&mut out, alloc, costed)?;
    Ok(out)
}
