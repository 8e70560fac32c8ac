// Pieces of a text between marks.

ghost use Rattle.std.specs.Prelude.{◌≡◌, ◌<◌, ◌∷◌, [], MatchOption, IfSome, length};
ghost use Rattle.ae_fields.specs.Cut.{pieces};

/// The bytes before the first mark, and what follows that mark, if there is one.
pub fn next_piece(bytes: &[u8], mark: u8) -> (&[u8], Option<&[u8]>)
    ensures cases { MatchOption result.1 (pieces mark bytes.now ≡ result.0.now ∷ []) (λ after. pieces mark bytes.now ≡ result.0.now ∷ pieces mark after.now) }
    ensures shorter { IfSome result.1 (λ after. length after.now < length bytes.now) }
{
    let mut end = 0;
    while end < bytes.len() {
        if bytes[end] == mark {
            return (&bytes[..end], Some(&bytes[end + 1..]));
        }
        end += 1;
    }
    (bytes, None)
}
