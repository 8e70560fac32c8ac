// Why a line has no layout.

use crate::sorts::{Spot, item_name, node_at, short, spot_of, typed_of};
use crate::types::push_line;
use crate::watch::Watch;
use ae_rewrite::{PlanFault, schedule};
use ae_seq::Typed;
use ae_sttype::Slowdown;
use std::alloc::{AllocError, Global};

// Whether all lines have a layout at the slowdown of so many clocks, where there is one.
fn has_layouts(alloc: Global, typed: &Typed, clocks: u32) -> Result<bool, AllocError> {
    let Some(slowdown) = Slowdown::of(clocks) else {
        return Ok(false);
    };
    match schedule(alloc, typed, slowdown) {
        Ok(_) => Ok(true),
        Err(PlanFault::NoSchedule { line: _ }) => Ok(false),
        Err(PlanFault::Memory) => Err(AllocError),
    }
}

// The greatest slowdown below one with layouts.
fn below<W: Watch>(
    alloc: Global,
    typed: &Typed,
    clocks: u32,
    watch: &mut W,
) -> Result<Option<u32>, AllocError> {
    for less in 1..clocks {
        watch.step("slowdown", less, 4096);
        let other = clocks.saturating_sub(less);
        if has_layouts(alloc, typed, other)? {
            return Ok(Some(other));
        }
    }
    Ok(None)
}

// The least slowdown above one with layouts.
fn over<W: Watch>(
    alloc: Global,
    typed: &Typed,
    clocks: u32,
    watch: &mut W,
) -> Result<Option<u32>, AllocError> {
    for other in clocks.saturating_add(1)..4097 {
        watch.step("slowdown", other, 4096);
        if has_layouts(alloc, typed, other)? {
            return Ok(Some(other));
        }
    }
    Ok(None)
}

// An item and its type.
fn push_item(out: &mut String, typed: &Typed, func: u32, item: u32) -> Result<(), AllocError> {
    let Some(f) = typed.program().funcs.get(func as usize) else {
        return Ok(());
    };
    let Some(ty) = typed.ty(func, item) else {
        return Ok(());
    };
    write!(out, " {}:", item_name(f, item))?;
    ty.write_to(out)
}

// What a line asks for.
fn push_asked(out: &mut String, typed: &Typed, spot: Spot) -> Result<(), AllocError> {
    let Some(func) = typed.program().funcs.get(spot.func as usize) else {
        return Ok(());
    };
    let params = short(func.params.len());
    out.push_str("it asks for a layout of")?;
    match (spot.node, node_at(typed.program(), spot)) {
        (Some(number), Some((_, node))) => {
            push_item(out, typed, spot.func, params.saturating_add(number))?;
            for item in &node.args {
                push_item(out, typed, spot.func, *item)?;
            }
        }
        _ => {
            for item in 0..params {
                push_item(out, typed, spot.func, item)?;
            }
        }
    }
    out.push_str("\n")
}

// The slowdowns on both sides that have layouts.
fn push_near<W: Watch>(
    out: &mut String,
    alloc: Global,
    typed: &Typed,
    slowdown: Slowdown,
    watch: &mut W,
) -> Result<(), AllocError> {
    let clocks = slowdown.clocks();
    write!(
        out,
        "not all of its elements fit in {clocks} clocks evenly; slowdowns that have a layout:"
    )?;
    if let Some(other) = below(alloc, typed, clocks, watch)? {
        write!(out, " {other} below")?;
    }
    if let Some(other) = over(alloc, typed, clocks, watch)? {
        write!(out, " {other} above")?;
    }
    out.push_str("\n")
}

/// Why a line of a program has no layout at a slowdown, and the nearest slowdowns on both sides at which all lines have one. Each
/// slowdown that is tried is told.
pub fn no_layout<W: Watch>(
    alloc: Global,
    part: &[u8],
    number: u32,
    slowdown: Slowdown,
    watch: &mut W,
) -> Result<String, AllocError> {
    let mut out = String::new(alloc);
    push_line(&mut out, alloc, part, number)?;
    let Some(typed) = typed_of(alloc, part)? else {
        return Ok(out);
    };
    if let Some(spot) = spot_of(typed.program(), number) {
        push_asked(&mut out, &typed, spot)?;
    }
    push_near(&mut out, alloc, &typed, slowdown, watch)?;
    Ok(out)
}
