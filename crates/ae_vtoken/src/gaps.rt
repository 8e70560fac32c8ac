// Blanks and comments.

ghost use Rattle.std.specs.Prelude.{◌≡◌, ◌≤◌, ◌<◌, ◌+◌, ℕ, List, [], ◌∷◌, length, drop, IfSome, IfNone, nat_eq, true};
ghost use Rattle.std.specs.List.{starts_with};
ghost use Rattle.ae_vtoken.specs.Tokens.{is_blank, after_gap, Between, InLine, Opened};

fn is_blank(b: u8) -> bool
    ensures { result ≡ is_blank b }
{
    b == 32 || b == 9 || b == 13 || b == 10 || b == 12
}

/// Whether these two bytes stand at the place i.
fn two_at(text: &[u8], i: usize, a: u8, b: u8) -> bool
    requires { i ≤ length text.now }
    ensures within { result ≡ true → i + 1 < length text.now }
    ensures is { result ≡ starts_with nat_eq (drop i text.now) (a ∷ b ∷ []) }
{
    text[i..].starts_with(&[a, b])
}

/// The place behind the line that goes on at from.
fn line_end(text: &[u8], from: usize) -> usize
    requires { from < length text.now }
    ensures within { (from < result) × (result ≤ length text.now) }
    ensures rest { after_gap InLine (drop from text.now) ≡ after_gap Between (drop result text.now) }
{
    let mut i = from;
    'line: while i < text.len() {
        if text[i] == 10 {
            return i + 1;
        }
        i += 1;
    }
    i
}

/// The place behind the block comment whose two first bytes stand at from.
fn block_end(text: &[u8], from: usize) -> Option<usize>
    requires { from + 1 < length text.now }
    ensures within { IfSome result (λ n. (from < n) × (n ≤ length text.now)) }
    ensures rest { IfSome result (λ n. (slash : List ℕ) → after_gap (Opened slash) (drop (from + 1) text.now) ≡ after_gap Between (drop n text.now)) }
    ensures open_end { IfNone result ((slash : List ℕ) → after_gap (Opened slash) (drop (from + 1) text.now) ≡ slash) }
{
    let mut i = from + 2;
    'block: while i < text.len() {
        if two_at(text, i, b'*', b'/') {
            return Some(i + 2);
        }
        i += 1;
    }
    None
}

/// The place behind the blanks and comments at from.
pub fn gap_end(text: &[u8], from: usize) -> usize
    requires { from ≤ length text.now }
    ensures within { (from ≤ result) × (result ≤ length text.now) }
    ensures rest { after_gap Between (drop from text.now) ≡ drop result text.now }
{
    let mut i = from;
    'gap: while i < text.len() {
        if is_blank(text[i]) {
            i += 1;
        } else if two_at(text, i, b'/', b'/') {
            i = line_end(text, i);
        } else if two_at(text, i, b'/', b'*') {
            match block_end(text, i) {
                Some(n) => {
                    i = n;
                },
                None => return i,
            }
        } else {
            return i;
        }
    }
    i
}
