// What is wrong with the spelling of a type.

use ae_parse::plain_number;

// What a piece of letters and digits has wrong.
#[derive(Clone, Copy)]
enum Fault {
    None,
    Signed,
    Width,
    Length,
    Letter,
}

// What is wrong with a length, or with a word.
fn piece_fault(version: u32, is_length: bool, piece: &[u8]) -> Fault {
    if is_length {
        return match plain_number(piece, 1, 4096) {
            Some(_) => Fault::None,
            None => Fault::Length,
        };
    }
    match piece {
        [b'u', width @ ..] | [b'i', width @ ..] => {
            if plain_number(width, 1, 64).is_none() {
                Fault::Width
            } else if piece.first() == Some(&b'i') && version < 2 {
                Fault::Signed
            } else {
                Fault::None
            }
        }
        _ => Fault::Letter,
    }
}

fn is_sign(byte: u8) -> bool {
    matches!(byte, b'[' | b']' | b'(' | b')' | b',')
}

// The first piece with a fault.
fn first_fault(version: u32, spelled: &[u8]) -> Fault {
    let mut from = 0usize;
    let mut is_length = false;
    for (at, byte) in spelled.iter().enumerate() {
        if is_sign(*byte) {
            let piece = match spelled.get(from..at) {
                Some(piece) => piece,
                None => &[],
            };
            if !piece.is_empty() {
                let fault = piece_fault(version, is_length, piece);
                if fault != Fault::None {
                    return fault;
                }
            }
            from = at.saturating_add(1);
            is_length = *byte == b'[';
        }
    }
    match spelled.get(from..) {
        Some([]) | None => Fault::None,
        Some(piece) => piece_fault(version, is_length, piece),
    }
}

/// What is wrong with a field that is no type.
pub fn type_fault(version: u32, spelled: &str) -> &'static str {
    match first_fault(version, spelled.as_bytes()) {
        Fault::Signed => "signed words are of version 2: begin the text with the line `aeth 2`",
        Fault::Width => {
            "a word is u (in version 2 also i) and its width, 1 to 64, without a leading zero"
        }
        Fault::Length => "a length is 1 to 4096, without a leading zero",
        Fault::Letter => "the words of a type are u8, i8 and the like",
        Fault::None => match spelled.as_bytes().last() {
            None | Some(b']') | Some(b',') => {
                "the type goes on behind this field: no blanks stand inside a type"
            }
            _ => {
                "this is no type: types are u8, (u8,u16), [4]u8 and the like, without blanks, and nest at most 6 deep"
            }
        },
    }
}

/// Whether a field may be a type, but for how deep it nests.
pub fn is_spelled(version: u32, spelled: &str) -> bool {
    let bytes = spelled.as_bytes();
    if bytes.is_empty() || first_fault(version, bytes) != Fault::None {
        return false;
    }
    let mut open = 0u32;
    for byte in bytes {
        match *byte {
            b'(' => open = open.saturating_add(1),
            b')' if open == 0 => return false,
            b')' => open -= 1,
            _ => (),
        }
    }
    open == 0 && !matches!(bytes.last(), Some(b']') | Some(b',') | Some(b'['))
}
