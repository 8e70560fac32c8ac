// Lines of a text.

ghost use Rattle.std.specs.Prelude.{◌≡◌, ◌<◌, ◌∷◌, [], IfSome, MatchOption, length};
ghost use Rattle.ae_fields.specs.Cut.{lines, IsFirstLine};

/// The first line of a text, and what follows its LF. A last LF opens no further line.
pub fn next_line(text: &[u8]) -> Option<(&[u8], &[u8])>
    ensures cases { MatchOption result (lines text.now ≡ []) (λ p. lines text.now ≡ p.0.now ∷ lines p.1.now) }
    ensures bytes { IfSome result (λ p. IsFirstLine text.now p.0.now p.1.now) }
    ensures shorter { MatchOption result (length text.now ≡ 0) (λ p. length p.1.now < length text.now) }
{
    if text.is_empty() {
        return None;
    }
    let mut end = 0;
    while end < text.len() {
        if text[end] == b'\n' {
            return Some((&text[..end], &text[end + 1..]));
        }
        end += 1;
    }
    Some((text, &text[end..]))
}
