// Words: names and reserved words.

ghost use Rattle.std.specs.Prelude.{◌≡◌, ◌≤◌, ◌<◌, ◌-◌, length, drop, take, get_or, true, false, bytes_eq};
ghost use Rattle.std.specs.List.{list_all, list_any};
ghost use Rattle.ae_vtoken.specs.Tokens.{is_word_start, is_word_byte, look_up, is_unused, word_of};
ghost use Rattle.ae_vtoken.specs.Tables.{keys, unused_0, unused_1, unused_2, unused_3, unused_4, unused_5, unused_6, unused_7, unused_8, unused_9};
ghost use Rattle.ae_vtoken.specs.Scan.{token_view};

use crate::token::{Key, Token};

/// Whether a name or a reserved word begins with the byte.
pub fn is_letter(b: u8) -> bool
    ensures { result ≡ is_word_start b }
{
    b.is_ascii_alphabetic() || b == b'_'
}

fn is_word_byte(b: u8) -> bool
    ensures { result ≡ is_word_byte b }
{
    b.is_ascii_alphabetic() || b == b'_' || b.is_ascii_digit() || b == b'$'
}

/// The place behind the bytes at from that go on with a word.
pub fn word_end(text: &[u8], from: usize) -> usize
    requires { from ≤ length text.now }
    ensures within { (from ≤ result) × (result ≤ length text.now) }
    ensures all { list_all is_word_byte (take (result - from) (drop from text.now)) ≡ true }
    ensures ends { result < length text.now → is_word_byte (get_or text.now result 0) ≡ false }
{
    let mut i = from;
    'word: while i < text.len() {
        if !is_word_byte(text[i]) {
            return i;
        }
        i += 1;
    }
    i
}

/// A word as a token.
pub fn word<'a>(piece: &'a [u8]) -> Token<'a>
    requires { list_all is_word_byte piece.now ≡ true }
    ensures { token_view result ≡ word_of piece.now (look_up piece.now keys) }
{
    match key_of(piece) {
        Some(key) => Token::Word(key),
        None => {
            if is_unused(piece) {
                Token::Unused
            } else {
                Token::Name(name_text(piece))
            }
        }
    }
}

/// A name's bytes are ASCII.
fn name_text<'a>(piece: &'a [u8]) -> &'a str
    requires { list_all is_word_byte piece.now ≡ true }
    ensures { result.now ≡ piece.now }
{
    match std::str::from_utf8(piece) {
        Ok(text) => text,
        Err(_) => unreachable!(),
    }
}

/// Whether a piece of text is this word.
pub fn is_same(piece: &[u8], word: &str) -> bool
    ensures { result ≡ bytes_eq piece.now word.now }
{
    piece == word.as_bytes()
}

#[tactic(auto, unfolding(crate::specs::Tables::keys))]
fn key_of(piece: &[u8]) -> Option<Key>
    ensures { result ≡ look_up piece.now keys }
{
    if is_same(piece, "module") {
        Some(Key::Module)
    } else if is_same(piece, "endmodule") {
        Some(Key::EndModule)
    } else if is_same(piece, "input") {
        Some(Key::Input)
    } else if is_same(piece, "output") {
        Some(Key::Output)
    } else if is_same(piece, "wire") {
        Some(Key::Wire)
    } else if is_same(piece, "reg") {
        Some(Key::Reg)
    } else if is_same(piece, "assign") {
        Some(Key::Assign)
    } else if is_same(piece, "always") {
        Some(Key::Always)
    } else if is_same(piece, "posedge") {
        Some(Key::Posedge)
    } else if is_same(piece, "if") {
        Some(Key::If)
    } else if is_same(piece, "else") {
        Some(Key::Else)
    } else if is_same(piece, "begin") {
        Some(Key::Begin)
    } else if is_same(piece, "end") {
        Some(Key::End)
    } else {
        None
    }
}

/// Whether a word is reserved and in no rule.
fn is_unused(piece: &[u8]) -> bool
    ensures { result ≡ is_unused piece.now }
{
    is_unused_0(piece)
        || is_unused_1(piece)
        || is_unused_2(piece)
        || is_unused_3(piece)
        || is_unused_4(piece)
        || is_unused_5(piece)
        || is_unused_6(piece)
        || is_unused_7(piece)
        || is_unused_8(piece)
        || is_unused_9(piece)
}

#[tactic(auto, unfolding(crate::specs::Tables::unused_0))]
fn is_unused_0(piece: &[u8]) -> bool
    ensures { result ≡ list_any (bytes_eq piece.now) unused_0 }
{
    is_same(piece, "and")
        || is_same(piece, "automatic")
        || is_same(piece, "buf")
        || is_same(piece, "bufif0")
        || is_same(piece, "bufif1")
        || is_same(piece, "case")
        || is_same(piece, "casex")
        || is_same(piece, "casez")
        || is_same(piece, "cell")
        || is_same(piece, "cmos")
        || is_same(piece, "config")
}

#[tactic(auto, unfolding(crate::specs::Tables::unused_1))]
fn is_unused_1(piece: &[u8]) -> bool
    ensures { result ≡ list_any (bytes_eq piece.now) unused_1 }
{
    is_same(piece, "deassign")
        || is_same(piece, "default")
        || is_same(piece, "defparam")
        || is_same(piece, "design")
        || is_same(piece, "disable")
        || is_same(piece, "edge")
        || is_same(piece, "endcase")
        || is_same(piece, "endconfig")
        || is_same(piece, "endfunction")
        || is_same(piece, "endgenerate")
        || is_same(piece, "endprimitive")
}

#[tactic(auto, unfolding(crate::specs::Tables::unused_2))]
fn is_unused_2(piece: &[u8]) -> bool
    ensures { result ≡ list_any (bytes_eq piece.now) unused_2 }
{
    is_same(piece, "endspecify")
        || is_same(piece, "endtable")
        || is_same(piece, "endtask")
        || is_same(piece, "event")
        || is_same(piece, "for")
        || is_same(piece, "force")
        || is_same(piece, "forever")
        || is_same(piece, "fork")
        || is_same(piece, "function")
        || is_same(piece, "generate")
        || is_same(piece, "genvar")
}

#[tactic(auto, unfolding(crate::specs::Tables::unused_3))]
fn is_unused_3(piece: &[u8]) -> bool
    ensures { result ≡ list_any (bytes_eq piece.now) unused_3 }
{
    is_same(piece, "highz0")
        || is_same(piece, "highz1")
        || is_same(piece, "ifnone")
        || is_same(piece, "incdir")
        || is_same(piece, "include")
        || is_same(piece, "initial")
        || is_same(piece, "inout")
        || is_same(piece, "instance")
        || is_same(piece, "integer")
        || is_same(piece, "join")
        || is_same(piece, "large")
}

#[tactic(auto, unfolding(crate::specs::Tables::unused_4))]
fn is_unused_4(piece: &[u8]) -> bool
    ensures { result ≡ list_any (bytes_eq piece.now) unused_4 }
{
    is_same(piece, "liblist")
        || is_same(piece, "library")
        || is_same(piece, "localparam")
        || is_same(piece, "macromodule")
        || is_same(piece, "medium")
        || is_same(piece, "nand")
        || is_same(piece, "negedge")
        || is_same(piece, "nmos")
        || is_same(piece, "nor")
        || is_same(piece, "noshowcancelled")
        || is_same(piece, "not")
}

#[tactic(auto, unfolding(crate::specs::Tables::unused_5))]
fn is_unused_5(piece: &[u8]) -> bool
    ensures { result ≡ list_any (bytes_eq piece.now) unused_5 }
{
    is_same(piece, "notif0")
        || is_same(piece, "notif1")
        || is_same(piece, "or")
        || is_same(piece, "parameter")
        || is_same(piece, "pmos")
        || is_same(piece, "primitive")
        || is_same(piece, "pull0")
        || is_same(piece, "pull1")
        || is_same(piece, "pulldown")
        || is_same(piece, "pullup")
        || is_same(piece, "pulsestyle_ondetect")
}

#[tactic(auto, unfolding(crate::specs::Tables::unused_6))]
fn is_unused_6(piece: &[u8]) -> bool
    ensures { result ≡ list_any (bytes_eq piece.now) unused_6 }
{
    is_same(piece, "pulsestyle_onevent")
        || is_same(piece, "rcmos")
        || is_same(piece, "real")
        || is_same(piece, "realtime")
        || is_same(piece, "release")
        || is_same(piece, "repeat")
        || is_same(piece, "rnmos")
        || is_same(piece, "rpmos")
        || is_same(piece, "rtran")
        || is_same(piece, "rtranif0")
        || is_same(piece, "rtranif1")
}

#[tactic(auto, unfolding(crate::specs::Tables::unused_7))]
fn is_unused_7(piece: &[u8]) -> bool
    ensures { result ≡ list_any (bytes_eq piece.now) unused_7 }
{
    is_same(piece, "scalared")
        || is_same(piece, "showcancelled")
        || is_same(piece, "signed")
        || is_same(piece, "small")
        || is_same(piece, "specify")
        || is_same(piece, "specparam")
        || is_same(piece, "strong0")
        || is_same(piece, "strong1")
        || is_same(piece, "supply0")
        || is_same(piece, "supply1")
        || is_same(piece, "table")
}

#[tactic(auto, unfolding(crate::specs::Tables::unused_8))]
fn is_unused_8(piece: &[u8]) -> bool
    ensures { result ≡ list_any (bytes_eq piece.now) unused_8 }
{
    is_same(piece, "task")
        || is_same(piece, "time")
        || is_same(piece, "tran")
        || is_same(piece, "tranif0")
        || is_same(piece, "tranif1")
        || is_same(piece, "tri")
        || is_same(piece, "tri0")
        || is_same(piece, "tri1")
        || is_same(piece, "triand")
        || is_same(piece, "trior")
        || is_same(piece, "trireg")
}

#[tactic(auto, unfolding(crate::specs::Tables::unused_9))]
fn is_unused_9(piece: &[u8]) -> bool
    ensures { result ≡ list_any (bytes_eq piece.now) unused_9 }
{
    is_same(piece, "unsigned")
        || is_same(piece, "use")
        || is_same(piece, "vectored")
        || is_same(piece, "wait")
        || is_same(piece, "wand")
        || is_same(piece, "weak0")
        || is_same(piece, "weak1")
        || is_same(piece, "while")
        || is_same(piece, "wor")
        || is_same(piece, "xnor")
        || is_same(piece, "xor")
}
