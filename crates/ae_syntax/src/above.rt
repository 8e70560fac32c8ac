// What the lines above a line say.

use ae_parse::next_line;
use ae_places::{Field, fields};
use std::alloc::{AllocError, Global};

/// The version, functions and names that the lines above give.
#[derive(Drop)]
pub struct Above<'a> {
    pub version: u32,
    /// Whether a line above says something.
    pub is_begun: bool,
    /// The functions at their ends.
    pub funcs: Vec<&'a str>,
    /// The function that is not at its end.
    pub open: Option<&'a str>,
    /// Its parameters and nodes.
    pub items: Vec<&'a str>,
    /// Whether the last function has several results.
    pub is_closed: bool,
}

// What stands before a colon.
fn param_name(text: &str) -> &str {
    for (number, byte) in text.as_bytes().iter().enumerate() {
        if *byte == b':' {
            return match text.as_bytes().get(..number) {
                Some(name) => ae_places::text_of(name),
                None => text,
            };
        }
    }
    text
}

fn push_params<'a>(items: &mut Vec<&'a str>, params: &[Field<'a>]) -> Result<(), AllocError> {
    for field in params {
        items.push(param_name(field.text))?;
    }
    Ok(())
}

// Takes up a line with these fields.
fn take_up<'a>(above: &mut Above<'a>, fields: &[Field<'a>]) -> Result<(), AllocError> {
    let [first, rest @ ..] = fields else {
        return Ok(());
    };
    let was_begun = above.is_begun;
    above.is_begun = true;
    match first.text {
        "fn" => {
            if let [name, params @ ..] = rest {
                above.open = Some(name.text);
                push_params(&mut above.items, params)?;
            }
        }
        "end" => {
            if let Some(name) = above.open {
                above.funcs.push(name)?;
            }
            above.open = None;
            above.items.clear();
            above.is_closed = rest.len() > 1;
        }
        name => {
            if !was_begun && name == "aeth" && rest.len() == 1 {
                above.version = 2;
            } else {
                above.items.push(name)?;
            }
        }
    }
    Ok(())
}

/// What the lines before the one with this number say, where none of them is refused.
pub fn read_above<'a>(alloc: Global, text: &'a [u8], number: u32) -> Result<Above<'a>, AllocError> {
    let mut above = Above {
        version: 1,
        is_begun: false,
        funcs: Vec::new(alloc),
        open: None,
        items: Vec::new(alloc),
        is_closed: false,
    };
    let mut rest = text;
    for _ in 1..number {
        let Some((line, after)) = next_line(rest) else {
            return Ok(above);
        };
        let said = fields(alloc, line)?;
        take_up(&mut above, &said)?;
        rest = after;
    }
    Ok(above)
}
