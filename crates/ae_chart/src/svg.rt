// The layouts of a program as a picture.

use crate::frame::{CLOCK, FOLD, Fold, Frame, end_of, frame_of};
use ae_compile::Costed;
use ae_items::{Item, clocks, count, element, item_at, lanes};
use std::alloc::{AllocError, Global};

// In pixels: what stands above all items, a lane, what stands above the lanes of an item, and what behind them.
const HEAD: u32 = 34;

const LANE: u32 = 20;

const ABOVE: u32 = 34;

const BEHIND: u32 = 14;
// The most lanes that are shown.
const MOST_LANES: u32 = 16;

// The least width, which the head wants, and the width of a letter of a title.
const NARROW: u32 = 460;

const LETTER: u32 = 8;

// How many lanes of an item are shown.
fn shown_lanes(item: Item<'_>) -> u32 {
    lanes(item.layout).min(MOST_LANES)
}

// The height of an item.
fn height(item: Item<'_>) -> u32 {
    LANE.saturating_mul(shown_lanes(item))
        .saturating_add(ABOVE + BEHIND)
}

// The middle of a clock.
fn middle(x: u32) -> u32 {
    x.saturating_add(CLOCK / 2 - 1)
}

// A name, a layout and an arrival; names have letters, digits and `_` alone.
fn title_of(alloc: Global, item: Item<'_>) -> Result<String, AllocError> {
    let mut title = format!(in alloc; "line {} {}, ", item.line, item.name)?;
    item.layout.write_to(&mut title)?;
    write!(title, ", from clock {} on", item.arrival)?;
    Ok(title)
}

fn write_title(out: &mut String, title: &str, y: u32) -> Result<(), AllocError> {
    writeln!(
        out,
        "<text x=\"4\" y=\"{y}\" class=\"title\">{title}</text>"
    )
}

// An element in its clock on its lane, or a place without one.
fn write_place(out: &mut String, x: u32, y: u32, element: Option<u32>) -> Result<(), AllocError> {
    let (width, height) = (CLOCK - 2, LANE - 2);
    let (middle, base) = (middle(x), y.saturating_add(LANE - 6));
    match element {
        Some(number) => writeln!(
            out,
            "<rect x=\"{x}\" y=\"{y}\" width=\"{width}\" height=\"{height}\" class=\"word\"/><text x=\"{middle}\" y=\"{base}\" class=\"number\">{number}</text>"
        ),
        None => writeln!(
            out,
            "<rect x=\"{x}\" y=\"{y}\" width=\"{width}\" height=\"{height}\" class=\"hole\"/>"
        ),
    }
}

// Whether clocks of an item are among those that are left out.
fn is_folded(item: Item<'_>, fold: Fold) -> bool {
    fold.from < end_of(item) && item.arrival < fold.to
}

// Dots in the place of clocks that are left out.
fn write_dots(out: &mut String, fold: Fold, y: u32) -> Result<(), AllocError> {
    let x = fold.x.saturating_add(FOLD / 2 - 1);
    writeln!(
        out,
        "<text x=\"{x}\" y=\"{y}\" class=\"number\">&#183;&#183;&#183;</text>"
    )
}

// A lane of an item.
fn write_lane(
    out: &mut String,
    item: Item<'_>,
    frame: &Frame,
    lane: u32,
    y: u32,
) -> Result<(), AllocError> {
    let base = y.saturating_add(LANE - 6);
    writeln!(
        out,
        "<text x=\"4\" y=\"{base}\" class=\"small\">lane {lane}</text>"
    )?;
    for clock in 0..clocks(item.layout) {
        if let Some(x) = frame.place(item.arrival.saturating_add(clock)) {
            write_place(out, x, y, element(item.layout, clock, lane))?;
        }
    }
    for fold in &frame.folds {
        if is_folded(item, *fold) {
            write_dots(out, *fold, base)?;
        }
    }
    Ok(())
}

// The clocks of an item.
fn write_clocks(out: &mut String, item: Item<'_>, frame: &Frame, y: u32) -> Result<(), AllocError> {
    writeln!(out, "<text x=\"4\" y=\"{y}\" class=\"small\">clock</text>")?;
    for clock in item.arrival..end_of(item) {
        if let Some(x) = frame.place(clock) {
            writeln!(
                out,
                "<text x=\"{}\" y=\"{y}\" class=\"clock\">{clock}</text>",
                middle(x)
            )?;
        }
    }
    Ok(())
}

// A mark where lanes of an item are left out.
fn write_left_out(out: &mut String, item: Item<'_>, y: u32) -> Result<(), AllocError> {
    let left = lanes(item.layout).saturating_sub(shown_lanes(item));
    if left > 0 {
        writeln!(
            out,
            "<text x=\"4\" y=\"{y}\" class=\"small\">&#183;&#183;&#183; and {left} lanes more</text>"
        )?;
    }
    Ok(())
}

fn write_item(
    out: &mut String,
    alloc: Global,
    item: Item<'_>,
    frame: &Frame,
    top: u32,
) -> Result<(), AllocError> {
    let title = title_of(alloc, item)?;
    write_title(out, title.as_str(), top.saturating_add(14))?;
    write_clocks(out, item, frame, top.saturating_add(ABOVE - 4))?;
    for lane in 0..shown_lanes(item) {
        let y = top
            .saturating_add(ABOVE)
            .saturating_add(LANE.saturating_mul(lane));
        write_lane(out, item, frame, lane, y)?;
    }
    let under = top.saturating_add(height(item)).saturating_sub(4);
    write_left_out(out, item, under)
}

// A line where the results begin, with the latency.
fn write_latency(
    out: &mut String,
    frame: &Frame,
    latency: u32,
    high: u32,
) -> Result<(), AllocError> {
    let Some(place) = frame.place(latency) else {
        return Ok(());
    };
    let x = place.saturating_sub(1);
    writeln!(
        out,
        "<line x1=\"{x}\" y1=\"24\" x2=\"{x}\" y2=\"{high}\" class=\"latency\"/>"
    )?;
    writeln!(
        out,
        "<text x=\"{place}\" y=\"32\" class=\"late\">latency {latency}</text>"
    )
}

// What the picture shows.
fn write_head(out: &mut String, costed: &Costed) -> Result<(), AllocError> {
    writeln!(
        out,
        "<text x=\"4\" y=\"16\" class=\"title\">slowdown {}, latency {}, load {}: the elements of block 0</text>",
        costed.slowdown().clocks(),
        costed.costs().latency(),
        costed.costs().load()
    )
}

// The width of a picture, in which all titles have room.
fn wide_enough(alloc: Global, frame: &Frame, costed: &Costed) -> Result<u32, AllocError> {
    let mut wide = frame.wide.max(NARROW);
    for number in 0..count(costed) {
        if let Some(item) = item_at(costed, number) {
            let title = title_of(alloc, item)?;
            let letters = title.len().min(100_000) as u32;
            wide = wide.max(letters.saturating_mul(LETTER));
        }
    }
    Ok(wide.saturating_add(8))
}

const STYLE: &str =
    "<style>text{font-family:monospace;font-size:11px;fill:#222}.title{font-size:12px;paint-order:stroke;stroke:white;stroke-width:5px}.number{text-anchor:middle}.clock{text-anchor:middle;font-size:9px;fill:#666}.small{font-size:9px;fill:#666}.word{fill:#cfe3f7;stroke:#4a78a8}.hole{fill:#f4f4f4;stroke:#ddd}.latency{stroke:#c0392b;stroke-dasharray:4 3}.late{font-size:9px;fill:#c0392b}</style>\n";

fn write_picture(
    out: &mut String,
    alloc: Global,
    frame: &Frame,
    costed: &Costed,
) -> Result<(), AllocError> {
    let mut high = HEAD;
    for number in 0..count(costed) {
        if let Some(item) = item_at(costed, number) {
            high = high.saturating_add(height(item));
        }
    }
    let wide = wide_enough(alloc, frame, costed)?;
    writeln!(
        out,
        "<svg xmlns=\"http://www.w3.org/2000/svg\" width=\"{wide}\" height=\"{high}\" viewBox=\"0 0 {wide} {high}\">\n{STYLE}<rect width=\"{wide}\" height=\"{high}\" fill=\"white\"/>"
    )?;
    write_latency(out, frame, costed.costs().latency(), high)?;
    write_head(out, costed)?;
    let mut top = HEAD;
    for number in 0..count(costed) {
        if let Some(item) = item_at(costed, number) {
            write_item(out, alloc, item, frame, top)?;
            top = top.saturating_add(height(item));
        }
    }
    out.push_str("</svg>\n")
}

/// The layout of each line of the program function in the first block: the clocks after the reset from left to right, the lanes
/// one below the other, and in each place the number of the element that stands there. A dashed line is the latency. Of long
/// blocks the first and the last clocks are shown, and dots in place of the others. The error comes only for want of memory.
pub fn draw_svg(alloc: Global, costed: &Costed) -> Result<String, AllocError> {
    let frame = frame_of(alloc, costed)?;
    let mut out = String::new(alloc);
    write_picture(&mut out, alloc, &frame, costed)?;
    Ok(out)
}
