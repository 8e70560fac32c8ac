// Words of a text.

ghost use Rattle.std.specs.Prelude.{◌≡◌, ◌<◌, ◌≤◌, ◌∷◌, [], false, IfSome, MatchOption, length};
ghost use Rattle.ae_vcd.specs.TextWords.{is_in_word, is_white, text_words};

fn is_blank(byte: u8) -> bool
    ensures { result ≡ is_white byte }
{
    byte == b' ' || byte == b'\t' || byte == b'\n' || byte == 12 || byte == b'\r'
}

// A text without the blanks at its head.
fn after_blanks(text: &[u8]) -> &[u8]
    ensures same { text_words result.now ≡ text_words text.now }
    ensures begins { is_in_word result.now ≡ false → result.now ≡ [] }
    ensures shorter { length result.now ≤ length text.now }
{
    let mut rest = text;
    while let [byte, after @ ..] = rest {
        if !is_blank(*byte) {
            return rest;
        }
        rest = after;
    }
    rest
}

/// The first word of a text, and what follows it. Words are the longest pieces without space, tab, LF, form feed and CR.
pub fn next_word(text: &[u8]) -> Option<(&[u8], &[u8])>
    ensures cases { MatchOption result (text_words text.now ≡ []) (λ p. text_words text.now ≡ p.0.now ∷ text_words p.1.now) }
    ensures shorter { IfSome result (λ p. length p.1.now < length text.now) }
{
    let begun = after_blanks(text);
    let mut end = 0;
    while end < begun.len() && !is_blank(begun[end]) {
        end += 1;
    }
    if end == 0 {
        return None;
    }
    let (word, after) = begun.split_at(end);
    Some((word, after))
}
