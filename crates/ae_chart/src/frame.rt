// Which clocks of a picture are shown, and where.

use ae_compile::Costed;
use ae_items::{Item, clocks, count, item_at};
use std::alloc::{AllocError, Global};

/// In pixels: the place of the first clock, a clock, and the clocks that are left out at one place.
const LEFT: u32 = 56;

pub const CLOCK: u32 = 32;

pub const FOLD: u32 = 36;

// How many clocks are shown without leaving some out; else how many of the first and of the last of each item, and how many in all.
const FEW: u32 = 40;

const FIRST: u32 = 6;

const LAST: u32 = 3;

const MOST: u32 = 90;

/// Clocks that are left out, from one to before another, and their place.
#[derive(Clone, Copy)]
pub struct Fold {
    pub x: u32,
    pub from: u32,
    pub to: u32,
}

/// The places of clocks.
#[derive(Drop)]
pub struct Frame {
    // By clock; 0 for one that is left out.
    places: Vec<u32>,
    pub folds: Vec<Fold>,
    pub wide: u32,
}

impl Frame {
    /// The place of a clock, if it is shown.
    pub fn place(&self, clock: u32) -> Option<u32> {
        match self.places.get(clock as usize) {
            Some(place) if *place > 0 => Some(*place),
            _ => None,
        }
    }
}

/// The clock behind the last of an item's block 0.
pub fn end_of(item: Item<'_>) -> u32 {
    item.arrival.saturating_add(clocks(item.layout))
}

// The clock behind the last of all items.
fn end_of_all(costed: &Costed) -> u32 {
    let mut end = 1u32;
    for number in 0..count(costed) {
        if let Some(item) = item_at(costed, number) {
            end = end.max(end_of(item));
        }
    }
    end
}

// Shows so many clocks from one on, while some are left to show; how many are left.
fn show(shown: &mut Vec<bool>, from: u32, many: u32, left: u32) -> u32 {
    let mut left = left;
    for clock in from..from.saturating_add(many) {
        if let Some(is_shown) = shown.get_mut(clock as usize) {
            if !*is_shown && left > 0 {
                *is_shown = true;
                left = left.saturating_sub(1);
            }
        }
    }
    left
}

// Whether each clock is shown: all where they are few, and else the first and the last ones of each item.
fn shown_clocks(alloc: Global, costed: &Costed) -> Result<Vec<bool>, AllocError> {
    let end = end_of_all(costed);
    let mut shown = vec![in alloc; end <= FEW; end as usize]?;
    if end > FEW {
        let mut left = MOST;
        for number in 0..count(costed) {
            if let Some(item) = item_at(costed, number) {
                left = show(&mut shown, item.arrival, FIRST, left);
                left = show(&mut shown, end_of(item).saturating_sub(LAST), LAST, left);
            }
        }
    }
    Ok(shown)
}

// Adds a fold of the clocks from one to before another, if some are left out.
fn add_fold(frame: &mut Frame, from: Option<u32>, to: u32) -> Result<(), AllocError> {
    if let Some(from) = from {
        let x = frame.wide;
        frame.folds.push(Fold { x, from, to })?;
        frame.wide = x.saturating_add(FOLD);
    }
    Ok(())
}

/// The frame of a program's picture.
pub fn frame_of(alloc: Global, costed: &Costed) -> Result<Frame, AllocError> {
    let shown = shown_clocks(alloc, costed)?;
    let mut frame = Frame {
        places: Vec::new(alloc),
        folds: Vec::new(alloc),
        wide: LEFT,
    };
    let mut from = None;
    let mut clock = 0u32;
    for is_shown in &shown {
        if *is_shown {
            add_fold(&mut frame, from, clock)?;
            from = None;
            frame.places.push(frame.wide)?;
            frame.wide = frame.wide.saturating_add(CLOCK);
        } else {
            from = from.or(Some(clock));
            frame.places.push(0)?;
        }
        clock = clock.saturating_add(1);
    }
    add_fold(&mut frame, from, clock)?;
    Ok(frame)
}
