// What the words ask for.

use crate::keywords::is_keyword;
use ae_chart::Range;
use ae_notes::NoteForm;
use ae_seq::is_name;
use ae_sttype::Slowdown;
use std::alloc::Global;

#[derive(Clone, Copy)]
pub enum Picture {
    Svg,
    Text,
}

/// What is asked for.
#[derive(Clone, Copy)]
pub enum Request {
    /// Why `aeth` refuses with the words behind this one.
    Why,
    Slowdowns(Range),
    Draw {
        slowdown: Slowdown,
        picture: Picture,
        /// The layout of the type in the last word, in place of a program's.
        is_alone: bool,
    },
    Notes {
        slowdown: Slowdown,
        form: NoteForm,
    },
    Paths {
        slowdown: Slowdown,
        /// The most operators of which nobody has to be told.
        most: u32,
    },
    Top {
        slowdown: Slowdown,
        /// The last word is the name of the module.
        is_named: bool,
    },
    Stream {
        slowdown: Slowdown,
        /// The last word is the name of the module.
        is_named: bool,
    },
    Bench {
        slowdown: Slowdown,
        fill: u64,
        dumps: bool,
    },
}

// A slowdown.
fn slowdown_of(word: &str) -> Option<Slowdown> {
    Slowdown::of(word.parse::<u32>().ok()?)
}

// A word that chooses something, with or without the dashes that other programs want before it.
fn plain(word: &str) -> &str {
    match word.strip_prefix("--") {
        Some(rest) => rest,
        None => word,
    }
}

// The range with what one more word says of it.
fn with_word(range: Range, word: &str) -> Option<Range> {
    match plain(word) {
        "csv" => Some(Range { csv: true, ..range }),
        "best" => Some(Range {
            best: true,
            ..range
        }),
        _ => None,
    }
}

// The words behind the bounds of a range.
fn shown(range: Range, words: &[String]) -> Option<Request> {
    let mut range = range;
    for word in words {
        range = with_word(range, word.as_str())?;
    }
    Some(Request::Slowdowns(range))
}

fn slowdowns(words: &[String]) -> Option<Request> {
    let all = Range {
        from: 1,
        to: 4096,
        csv: false,
        best: false,
    };
    if let [from, to, rest @ ..] = words {
        if let Some(from) = slowdown_of(from.as_str()) {
            let to = slowdown_of(to.as_str())?.clocks();
            let from = from.clocks();
            return shown(Range { from, to, ..all }, rest);
        }
    }
    shown(all, words)
}

// Whether a word chooses this.
fn says(word: &String, choice: &str) -> bool {
    plain(word.as_str()) == choice
}

// Whether the first word chooses this, and what stands behind it.
fn taken<'a>(words: &'a [String], choice: &str) -> (bool, &'a [String]) {
    match words {
        [word, rest @ ..] if says(word, choice) => (true, rest),
        _ => (false, words),
    }
}

fn draw(slowdown: Slowdown, words: &[String]) -> Option<Request> {
    let (is_text, rest) = taken(words, "text");
    let (is_alone, rest) = taken(rest, "layout");
    if rest.len() != usize::from(is_alone) {
        return None;
    }
    let picture = if is_text { Picture::Text } else { Picture::Svg };
    Some(Request::Draw {
        slowdown,
        picture,
        is_alone,
    })
}

fn notes(slowdown: Slowdown, words: &[String]) -> Option<Request> {
    let (has_nets, rest) = taken(words, "nets");
    let (is_file, rest) = taken(rest, "gtkw");
    if !rest.is_empty() {
        return None;
    }
    Some(Request::Notes {
        slowdown,
        form: NoteForm { has_nets, is_file },
    })
}

fn paths(slowdown: Slowdown, words: &[String]) -> Option<Request> {
    let most = match words {
        [] => u32::MAX,
        [most] => most.as_str().parse::<u32>().ok()?,
        _ => return None,
    };
    Some(Request::Paths { slowdown, most })
}

// Whether a word can name a module: a name that is no keyword of Verilog.
fn names_module(word: &str) -> bool {
    is_name(word.as_bytes()) && !is_keyword(word)
}

// Whether the words give the module a name.
fn named(words: &[String]) -> Option<bool> {
    match words {
        [] => Some(false),
        [option, name] if says(option, "name") && names_module(name.as_str()) => Some(true),
        _ => None,
    }
}

fn bench(slowdown: Slowdown, words: &[String]) -> Option<Request> {
    let [fill, rest @ ..] = words else {
        return None;
    };
    let fill = fill.as_str().parse::<u64>().ok()?;
    let (dumps, rest) = taken(rest, "dump");
    if !rest.is_empty() {
        return None;
    }
    Some(Request::Bench {
        slowdown,
        fill,
        dumps,
    })
}

// What is asked of the circuit of one slowdown, which is the first word.
fn of_slowdown(name: &str, words: &[String]) -> Option<Request> {
    let [slowdown, rest @ ..] = words else {
        return None;
    };
    let slowdown = slowdown_of(slowdown.as_str())?;
    match name {
        "draw" => draw(slowdown, rest),
        "notes" => notes(slowdown, rest),
        "paths" => paths(slowdown, rest),
        "top" => Some(Request::Top {
            slowdown,
            is_named: named(rest)?,
        }),
        "stream" => Some(Request::Stream {
            slowdown,
            is_named: named(rest)?,
        }),
        "bench" => bench(slowdown, rest),
        _ => None,
    }
}

/// What the words ask for, if they ask for something.
pub fn request_of(words: &[String]) -> Option<Request> {
    let [name, rest @ ..] = words else {
        return None;
    };
    match name.as_str() {
        "why" => Some(Request::Why),
        "slowdowns" => slowdowns(rest),
        name => of_slowdown(name, rest),
    }
}
