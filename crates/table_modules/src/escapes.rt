// Texts that stand in a line.

use std::alloc::{AllocError, Global};

// What a sign means behind a `\`: the blanks that no line can show, and itself else.
fn meaning(sign: char) -> char {
    match sign {
        'n' => '\n',
        'r' => '\r',
        't' => '\t',
        'f' => '\x0c',
        _ => sign,
    }
}

// The text that a line spells.
pub fn meant(alloc: Global, line: &str) -> Result<String, AllocError> {
    let mut text = String::new(alloc);
    let mut escaped = false;
    for sign in line.chars() {
        if escaped {
            text.push(meaning(sign))?;
            escaped = false;
        } else if sign == '\\' {
            escaped = true;
        } else {
            text.push(sign)?;
        }
    }
    Ok(text)
}
