// The items of a program that stand above a line, and their types.

use ae_parse::{ParseFault, parse};
use ae_places::line_at;
use ae_seq::{CheckFault, Func, Node, Program, Typed, check};
use std::alloc::{AllocError, Global};

/// The function of a line, and the number of its node, the count of nodes where it is the end line; none where it is the
/// function's first line.
#[derive(Clone, Copy)]
pub struct Spot {
    pub func: u32,
    pub node: Option<u32>,
}

/// A count as a number of 32 bits, or the greatest.
pub fn short(count: usize) -> u32 {
    count.min(4_294_967_295) as u32
}

fn spot_in(func: &Func, number: usize, line: u32) -> Option<Spot> {
    if func.line == line {
        return Some(Spot {
            func: short(number),
            node: None,
        });
    }
    for (place, node) in func.nodes.iter().enumerate() {
        if node.line == line {
            return Some(Spot {
                func: short(number),
                node: Some(short(place)),
            });
        }
    }
    if func.end_line == line {
        return Some(Spot {
            func: short(number),
            node: Some(short(func.nodes.len())),
        });
    }
    None
}

/// Where a line of a function is.
pub fn spot_of(p: &Program, line: u32) -> Option<Spot> {
    for (number, func) in p.funcs.iter().enumerate() {
        if let Some(spot) = spot_in(func, number, line) {
            return Some(spot);
        }
    }
    None
}

/// The node of a place, with its function.
pub fn node_at(p: &Program, spot: Spot) -> Option<(&Func, &Node)> {
    let func = p.funcs.get(spot.func as usize)?;
    let node = func.nodes.get(spot.node? as usize)?;
    Some((func, node))
}

/// The name of an item of a function.
pub fn item_name(func: &Func, item: u32) -> &str {
    let item = item as usize;
    let count = func.params.len();
    let name = if item < count {
        match func.params.get(item) {
            Some(param) => Some(param.name.as_str()),
            None => None,
        }
    } else {
        match func.nodes.get(item - count) {
            Some(node) => Some(node.name.as_str()),
            None => None,
        }
    };
    match name {
        Some(name) => name,
        None => "?",
    }
}

/// The program of a text, if it is one.
pub fn program_of(alloc: Global, part: &[u8]) -> Result<Option<Program>, AllocError> {
    if part.len() > 16_777_216 {
        return Ok(None);
    }
    match parse(alloc, part) {
        Ok(p) => Ok(Some(p)),
        Err(ParseFault::BadLine { line: _ }) => Ok(None),
        Err(ParseFault::Memory) => Err(AllocError),
    }
}

/// The program of a text with its types, if it has them.
pub fn typed_of(alloc: Global, part: &[u8]) -> Result<Option<Typed>, AllocError> {
    if part.len() > 16_777_216 {
        return Ok(None);
    }
    let p = match parse(alloc, part) {
        Ok(p) => p,
        Err(ParseFault::BadLine { line: _ }) => return Ok(None),
        Err(ParseFault::Memory) => return Err(AllocError),
    };
    match check(alloc, p) {
        Ok(typed) => Ok(Some(typed)),
        Err(CheckFault::Memory) => Err(AllocError),
        Err(_) => Ok(None),
    }
}

// The lines above a node's line, with an end line that names the item above it.
fn text_above(alloc: Global, part: &[u8], line: u32, last: &str) -> Result<Vec<u8>, AllocError> {
    let start = match line_at(part, line) {
        Some((start, _)) => start,
        None => part.len(),
    };
    let mut text = Vec::new(alloc);
    if let Some(above) = part.get(..start) {
        text.extend_from_slice(above)?;
    }
    text.extend_from_slice(b"end ")?;
    text.extend_from_slice(last.as_bytes())?;
    text.extend_from_slice(b"\n")?;
    Ok(text)
}

// The line of a place: that of the node, or of the end behind all nodes.
fn line_of(func: &Func, number: u32) -> u32 {
    match func.nodes.get(number as usize) {
        Some(node) => node.line,
        None => func.end_line,
    }
}

/// The program that ends above the line of a node, with its types.
pub fn typed_above(
    alloc: Global,
    part: &[u8],
    p: &Program,
    spot: Spot,
) -> Result<Option<Typed>, AllocError> {
    let Some(func) = p.funcs.get(spot.func as usize) else {
        return Ok(None);
    };
    let Some(number) = spot.node else {
        return Ok(None);
    };
    let last = short(func.params.len())
        .saturating_add(number)
        .saturating_sub(1);
    let text = text_above(alloc, part, line_of(func, number), item_name(func, last))?;
    typed_of(alloc, &text)
}
