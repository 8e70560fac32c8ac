// The parts of an input.

ghost use Rattle.std.specs.Prelude.{◌≤◌, length};

use ae_parse::split;

/// What stands before the line `%%`.
pub fn program_part(input: &[u8]) -> &[u8]
    ensures { length result.now ≤ length input.now }
{
    let (end, _) = split(input);
    match input.get(..end) {
        Some(part) => part,
        None => input,
    }
}

/// What stands behind it.
pub fn rows_part(input: &[u8]) -> &[u8]
    ensures { length result.now ≤ length input.now }
{
    let (_, start) = split(input);
    match start {
        Some(start) => match input.get(start..) {
            Some(rest) => rest,
            None => &[],
        },
        None => &[],
    }
}
