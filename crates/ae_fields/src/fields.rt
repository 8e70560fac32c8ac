// Fields of a line.

ghost use Rattle.std.specs.Prelude.{◌≡◌, ◌<◌, ◌≤◌, ◌∷◌, [], false, IfSome, MatchOption, length};
ghost use Rattle.ae_fields.specs.Cut.{fields, goes_on, is_gap, said};

fn is_gap(byte: u8) -> bool
    ensures { result ≡ is_gap byte }
{
    byte == b' ' || byte == b'\t'
}

// A line without the blanks at its head.
fn after_blanks(said: &[u8]) -> &[u8]
    ensures same { fields result.now ≡ fields said.now }
    ensures begins { goes_on result.now ≡ false → result.now ≡ [] }
    ensures shorter { length result.now ≤ length said.now }
{
    let mut rest = said;
    while let [byte, after @ ..] = rest {
        if !is_gap(*byte) {
            return rest;
        }
        rest = after;
    }
    rest
}

/// The first field of a line, and what follows it. Fields are the longest pieces without space and tab.
pub fn next_field(line: &[u8]) -> Option<(&[u8], &[u8])>
    ensures cases { MatchOption result (fields line.now ≡ []) (λ p. fields line.now ≡ p.0.now ∷ fields p.1.now) }
    ensures shorter { IfSome result (λ p. length p.1.now < length line.now) }
{
    let said = after_blanks(line);
    let mut end = 0;
    while end < said.len() && !is_gap(said[end]) {
        end += 1;
    }
    if end == 0 {
        return None;
    }
    let (field, after) = said.split_at(end);
    Some((field, after))
}

/// What a line says: what stands before `#` and before a CR that ends the line.
pub fn said(line: &[u8]) -> &[u8]
    ensures { result.now ≡ said line.now }
{
    let mut end = 0;
    while end < line.len() {
        if line[end] == b'#' || (line[end] == b'\r' && end + 1 == line.len()) {
            return &line[..end];
        }
        end += 1;
    }
    line
}
