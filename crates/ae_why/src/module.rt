// Why a Verilog text is no module that is simulated.

use ae_places::{is_known, place_of, push_place, text_of};
use ae_vmodule::VModule;
use ae_vread::read;
use std::alloc::{AllocError, Global};

/// What is wrong with a Verilog text: the byte, item or declared name at fault. The header is item 0.
#[derive(Clone, Copy)]
pub enum ModuleFault {
    Token(u32),
    Header,
    Item(u32),
    Unknown(u32),
    Twice(u32),
    Kind(u32),
    Undriven(u32),
    Width(u32),
    Loop(u32),
    Large,
}

// A word or a sign of a text: its bytes from one place to another.
#[derive(Clone, Copy)]
struct Lexeme {
    from: usize,
    to: usize,
}

#[derive(Clone, Copy)]
enum State {
    Gap,
    Word,
    Line,
    Block,
}

fn is_word_byte(byte: u8) -> bool {
    matches!(byte, b'0'..=b'9' | b'A'..=b'Z' | b'a'..=b'z' | b'_' | b'$' | b'\'')
}

fn byte_at(text: &[u8], at: usize) -> u8 {
    match text.get(at) {
        Some(byte) => *byte,
        None => b' ',
    }
}

// Where a byte leads that is in no word, and whether it is a sign.
fn after_sign(text: &[u8], at: usize) -> (State, bool) {
    match (byte_at(text, at), byte_at(text, at.saturating_add(1))) {
        (b'/', b'/') => (State::Line, false),
        (b'/', b'*') => (State::Block, false),
        (b' ' | b'\t' | b'\r' | b'\n' | 12, _) => (State::Gap, false),
        _ => (State::Gap, true),
    }
}

// The words and signs of a text, comments left out.
fn lexemes(alloc: Global, text: &[u8]) -> Result<Vec<Lexeme>, AllocError> {
    let mut found = Vec::new(alloc);
    let mut state = State::Gap;
    let mut from = 0usize;
    for (at, byte) in text.iter().enumerate() {
        if state == State::Line {
            if *byte == b'\n' {
                state = State::Gap;
            }
        } else if state == State::Block {
            if *byte == b'/'
                && byte_at(text, at.saturating_sub(1)) == b'*'
                && at > from.saturating_add(2)
            {
                state = State::Gap;
            }
        } else if is_word_byte(*byte) {
            if state == State::Gap {
                from = at;
            }
            state = State::Word;
        } else {
            if state == State::Word {
                found.push(Lexeme { from, to: at })?;
            }
            let (next, is_sign) = after_sign(text, at);
            state = next;
            from = at;
            if is_sign {
                found.push(Lexeme {
                    from: at,
                    to: at.saturating_add(1),
                })?;
            }
        }
    }
    if state == State::Word {
        found.push(Lexeme {
            from,
            to: text.len(),
        })?;
    }
    Ok(found)
}

fn bytes_of(text: &[u8], lexeme: Lexeme) -> &[u8] {
    match text.get(lexeme.from..lexeme.to) {
        Some(bytes) => bytes,
        None => &[],
    }
}

fn is_else(text: &[u8], next: Option<&Lexeme>) -> bool {
    match next {
        Some(lexeme) => bytes_of(text, *lexeme) == b"else".as_slice(),
        None => false,
    }
}

// An item that is gone through: whether it is a clocked one, and how many `begin` are open in it.
#[derive(Clone, Copy)]
struct Open {
    is_clocked: bool,
    depth: u32,
}

// Whether an item may end with a word or sign, and how many `begin` are open behind it.
fn item_end(open: Open, bytes: &[u8]) -> (bool, u32) {
    let depth = open.depth;
    if !open.is_clocked {
        return (bytes == b";".as_slice(), 0);
    }
    if bytes == b"begin".as_slice() {
        return (false, depth.saturating_add(1));
    }
    if bytes == b"end".as_slice() {
        return (depth <= 1, depth.saturating_sub(1));
    }
    (depth == 0 && bytes == b";".as_slice(), depth)
}

// The number of the word or sign with which each item begins; the header comes first.
fn item_starts(alloc: Global, text: &[u8], found: &[Lexeme]) -> Result<Vec<usize>, AllocError> {
    let mut starts = Vec::new(alloc);
    let mut open: Option<Open> = None;
    for (number, lexeme) in found.iter().enumerate() {
        let bytes = bytes_of(text, *lexeme);
        let own = match open {
            Some(open) => open,
            None => {
                starts.push(number)?;
                Open {
                    is_clocked: bytes == b"always".as_slice(),
                    depth: 0,
                }
            }
        };
        let (ends, depth) = item_end(own, bytes);
        let goes_on = own.is_clocked && is_else(text, found.get(number.saturating_add(1)));
        open = if ends && !goes_on {
            None
        } else {
            Some(Open { depth, ..own })
        };
    }
    Ok(starts)
}

// The words and signs of item number k, the header's for 0.
fn item<'a>(found: &'a [Lexeme], starts: &[usize], k: u32) -> &'a [Lexeme] {
    let from = match starts.get(k as usize) {
        Some(from) => *from,
        None => return &[],
    };
    let to = match starts.get((k as usize).saturating_add(1)) {
        Some(to) => *to,
        None => found.len(),
    };
    match found.get(from..to) {
        Some(item) => item,
        None => &[],
    }
}

// The text of an item in one line, the first words and signs of it.
fn push_item(
    out: &mut String,
    text: &[u8],
    number: u32,
    item: &[Lexeme],
) -> Result<(), AllocError> {
    write!(out, "item {number} reads")?;
    for lexeme in item.iter().take(40) {
        write!(out, " {}", text_of(bytes_of(text, *lexeme)))?;
    }
    out.push_str(if item.len() > 40 { " ..\n" } else { "\n" })
}

// A word or sign marked in its line, with its line and column from 1.
fn push_lexeme(out: &mut String, text: &[u8], lexeme: Lexeme) -> Result<(), AllocError> {
    let (line, column) = place_of(text, lexeme.from);
    writeln!(out, "at line {line}, column {}:", column.saturating_add(1))?;
    push_place(
        out,
        text,
        lexeme.from,
        lexeme.to.saturating_sub(lexeme.from),
    )
}

// An item: where it begins, its text, and what is wrong.
fn push_fault(
    out: &mut String,
    alloc: Global,
    text: &[u8],
    number: u32,
    what: &str,
) -> Result<(), AllocError> {
    let found = lexemes(alloc, text)?;
    let starts = item_starts(alloc, text, &found)?;
    push_faulty(out, text, number, item(&found, &starts, number), what)
}

fn push_faulty(
    out: &mut String,
    text: &[u8],
    number: u32,
    item: &[Lexeme],
    what: &str,
) -> Result<(), AllocError> {
    match item.first() {
        Some(first) => push_lexeme(out, text, *first)?,
        None => out.push_str("at the end of the text:\n")?,
    }
    push_item(out, text, number, item)?;
    writeln!(out, "{what}")
}

// The module of a text, if it spells one.
fn module_of<'a>(alloc: Global, text: &'a [u8]) -> Option<VModule<'a>> {
    if text.len() > 16_777_216 {
        return None;
    }
    match read(alloc, text) {
        Ok(m) => Some(m),
        Err(_) => None,
    }
}

// The first place of a name.
fn place_of_name(text: &[u8], found: &[Lexeme], name: &str) -> Option<Lexeme> {
    for lexeme in found {
        if bytes_of(text, *lexeme) == name.as_bytes() {
            return Some(*lexeme);
        }
    }
    None
}

// A declared name, and what is wrong with it.
fn push_net(
    out: &mut String,
    alloc: Global,
    text: &[u8],
    net: u32,
    what: &str,
) -> Result<(), AllocError> {
    let found = lexemes(alloc, text)?;
    let Some(m) = module_of(alloc, text) else {
        return Ok(());
    };
    let Some(net) = m.nets.get(net as usize) else {
        return Ok(());
    };
    let name = m.words.name(net.name());
    if let Some(lexeme) = place_of_name(text, &found, name) {
        push_lexeme(out, text, lexeme)?;
    }
    writeln!(out, "{name}, declared in item {}, {what}", net.item())
}

const KEYWORDS: [&str; 13] = [
    "module",
    "input",
    "output",
    "wire",
    "reg",
    "assign",
    "always",
    "posedge",
    "if",
    "else",
    "begin",
    "end",
    "endmodule",
];

fn is_name(word: &[u8]) -> bool {
    matches!(word.first(), Some(b'a'..=b'z' | b'A'..=b'Z' | b'_'))
        && !is_known(text_of(word), &KEYWORDS)
}

// Whether a name is declared in an item or above it.
fn is_declared(m: &VModule<'_>, word: &[u8], item: u32) -> bool {
    for net in &m.nets {
        if net.item() <= item && m.words.name(net.name()).as_bytes() == word {
            return true;
        }
    }
    false
}

// The first name in an item that is not declared.
fn unknown_name(text: &[u8], m: &VModule<'_>, item: &[Lexeme], number: u32) -> Option<Lexeme> {
    for lexeme in item {
        let word = bytes_of(text, *lexeme);
        if is_name(word) && !is_declared(m, word, number) {
            return Some(*lexeme);
        }
    }
    None
}

// An item with a name that is not declared.
fn push_unknown(
    out: &mut String,
    alloc: Global,
    text: &[u8],
    number: u32,
) -> Result<(), AllocError> {
    let what = "it has a name that is declared below it or nowhere";
    push_fault(out, alloc, text, number, what)?;
    let found = lexemes(alloc, text)?;
    let starts = item_starts(alloc, text, &found)?;
    let Some(m) = module_of(alloc, text) else {
        return Ok(());
    };
    match unknown_name(text, &m, item(&found, &starts, number), number) {
        Some(lexeme) => push_lexeme(out, text, lexeme),
        None => Ok(()),
    }
}

// Why no token begins with a byte.
fn byte_fault(byte: u8) -> &'static str {
    match byte {
        b'#' => "delays and parameters, which # begins, are left out of the subset\n",
        b'"' => "texts in quotes are left out of the subset\n",
        b'$' => "system tasks, which $ begins, are left out of the subset\n",
        _ => "no name, number or sign of the subset begins with this byte (docs/VERILOG.md)\n",
    }
}

// A byte in no token.
fn push_token(out: &mut String, text: &[u8], at: u32) -> Result<(), AllocError> {
    let from = at as usize;
    let to = from.saturating_add(1);
    push_lexeme(out, text, Lexeme { from, to })?;
    out.push_str(byte_fault(byte_at(text, from)))
}

fn push_why(
    out: &mut String,
    alloc: Global,
    text: &[u8],
    fault: ModuleFault,
) -> Result<(), AllocError> {
    let (item, what) = match fault {
        ModuleFault::Token(at) => return push_token(out, text, at),
        ModuleFault::Unknown(item) => return push_unknown(out, alloc, text, item),
        ModuleFault::Undriven(net) => {
            return push_net(out, alloc, text, net, "is given no value");
        }
        ModuleFault::Loop(net) => {
            let what = "depends on itself without a register between";
            return push_net(out, alloc, text, net, what);
        }
        ModuleFault::Large => {
            return out.push_str("the module is past the limits of docs/LIMITS.md\n");
        }
        ModuleFault::Header => (
            0,
            "a text begins with module, a name, ports in parentheses and a semicolon; the module of a program is simulated by `aeth run`",
        ),
        ModuleFault::Item(item) => (
            item.saturating_add(1),
            "the items above it are right; this is neither an item of the subset nor an endmodule that ends the text",
        ),
        ModuleFault::Twice(item) => (
            item,
            "it declares or drives a name that is declared or driven above",
        ),
        ModuleFault::Kind(item) => (
            item,
            "it uses a name in a way that its kind does not allow: wires are assigned, registers written at the clock, memories have an index",
        ),
        ModuleFault::Width(item) => (
            item,
            "a width, a constant or an index in it is out of its range, which is 1 to 64 bits for words",
        ),
    };
    push_fault(out, alloc, text, item, what)
}

/// Why a text is no module that is simulated: where it is, in lines and columns from 1, and what is wrong.
pub fn bad_module(alloc: Global, text: &[u8], fault: ModuleFault) -> Result<String, AllocError> {
    let mut out = String::new(alloc);
    push_why(&mut out, alloc, text, fault)?;
    Ok(out)
}
