// Texts as the cases spell them.

use std::alloc::{AllocError, Global};

// The byte that a letter behind `\` stands for.
fn escaped(letter: u8) -> u8 {
    match letter {
        b'n' => 10,
        b'r' => 13,
        b't' => 9,
        b'0' => 0,
        b'd' => 127,
        b'f' => 255,
        _ => letter,
    }
}

/// The bytes of a spelled text: `\n`, `\r`, `\t`, `\0`, `\d` (127) and `\f` (255) are one byte each, and `"` is none.
pub fn bytes_of(alloc: Global, text: &str) -> Result<Vec<u8>, AllocError> {
    let mut bytes = Vec::new(alloc);
    let mut is_escaped = false;
    for byte in text.bytes() {
        if is_escaped {
            bytes.push(escaped(byte))?;
            is_escaped = false;
        } else if byte == b'\\' {
            is_escaped = true;
        } else if byte != b'"' {
            bytes.push(byte)?;
        }
    }
    Ok(bytes)
}
