// Why a line is no node line.

use crate::above::Above;
use crate::forms::{FOLDING, Form, Front, OPERATORS, form_of};
use crate::spelling::{is_spelled, type_fault};
use ae_parse::{number, plain_number};
use ae_places::{
    Field, Finding, at_field, at_place, is_known, nearest, place_behind, push_nearest,
};
use ae_seq::is_name;
use std::alloc::{AllocError, Global};

/// What is wrong behind the last field of a line.
pub fn behind(alloc: Global, field: &Field<'_>, what: &str) -> Result<Option<Finding>, AllocError> {
    at_place(place_behind(field), 1, String::from_str(alloc, what))
}

/// Something that is wrong with a field, in a sentence that begins with the field.
pub fn of_field(
    alloc: Global,
    field: &Field<'_>,
    what: &str,
) -> Result<Option<Finding>, AllocError> {
    at_field(field, format!(in alloc; "{}: {what}", field.text))
}

// The same, and which of some names is near the field.
fn with_nearest(
    alloc: Global,
    field: &Field<'_>,
    what: &str,
    known: &[&str],
) -> Result<Option<Finding>, AllocError> {
    let mut text = format!(in alloc; "{}: {what}", field.text)?;
    push_nearest(&mut text, field.text, known)?;
    at_field(field, Ok(text))
}

/// What is wrong with a name that is to be a new one.
pub fn name_fault(name: &str) -> &'static str {
    match name {
        "fn" | "end" => "this word is no name",
        _ => { "a name has 1 to 32 letters, digits and _, and begins with no digit" }
    }
}

// The signs that operators have in other languages.
const SIGNS: [&str; 14] = [
    "+", "-", "*", "/", "%", "&", "|", "^", "<", ">", "<<", ">>", "==", "?",
];

/// Whether a byte stands in a text.
pub fn has_byte(text: &str, wanted: u8) -> bool {
    for byte in text.as_bytes() {
        if *byte == wanted {
            return true;
        }
    }
    false
}

// A word that is no operator.
fn unknown_operator(
    alloc: Global,
    above: &Above<'_>,
    word: &Field<'_>,
    rest: &[Field<'_>],
) -> Result<Option<Finding>, AllocError> {
    if let [sign, ..] = rest {
        if is_known(sign.text, &SIGNS) {
            return of_field(
                alloc,
                sign,
                "an operator is a word before its arguments, as in `c = add a b`",
            );
        }
    }
    if has_byte(word.text, b'(') {
        return of_field(
            alloc,
            word,
            "arguments stand behind the operator with blanks between them, as in `c = add a b`",
        );
    }
    if is_known(word.text, &above.funcs) {
        return of_field(
            alloc,
            word,
            "a function of the program: `call` and its name call it",
        );
    }
    if is_known(word.text, &above.items) {
        return of_field(
            alloc,
            word,
            "an item and no operator: an operator stands behind the =",
        );
    }
    match nearest(word.text, &OPERATORS) {
        Some(near) => at_field(
            word,
            format!(in alloc;
                "{}: no operator has this word; the nearest is {near}",
                word.text
            ),
        ),
        None => of_field(alloc, word, "no operator has this word"),
    }
}

// A name that is none of an item above.
fn unknown_argument(
    alloc: Global,
    above: &Above<'_>,
    field: &Field<'_>,
) -> Result<Option<Finding>, AllocError> {
    if number(field.text.as_bytes()).is_some() {
        return of_field(
            alloc,
            field,
            "a number is no argument; a constant has a line of its own, as `one = const u8 1`",
        );
    }
    if is_known(field.text, &above.funcs) {
        return of_field(
            alloc,
            field,
            "a function; arguments are parameters and nodes above",
        );
    }
    let what = "no parameter or node above in this function has this name";
    with_nearest(alloc, field, what, &above.items)
}

/// The first of some fields that names no item above.
pub fn unknown_item(
    alloc: Global,
    above: &Above<'_>,
    fields: &[Field<'_>],
) -> Result<Option<Finding>, AllocError> {
    for field in fields {
        if !is_known(field.text, &above.items) {
            return unknown_argument(alloc, above, field);
        }
    }
    Ok(None)
}

// How many arguments there have to be.
fn wrong_count(
    alloc: Global,
    word: &Field<'_>,
    form: Form,
    args: &[Field<'_>],
) -> Result<Option<Finding>, AllocError> {
    let least = form.count.max(1);
    let most = if form.count == 0 { 8 } else { form.count };
    let (at, wide) = match (args.get(most), args.last()) {
        (Some(field), _) => (field.at, field.text.len()),
        (None, _) if args.len() >= least => return Ok(None),
        (None, Some(field)) => (place_behind(field), 1),
        (None, None) => (place_behind(word), 1),
    };
    at_place(
        at,
        wide,
        format!(in alloc;
            "{} takes {}; there are {} arguments",
            word.text,
            form.takes,
            args.len()
        ),
    )
}

// What is wrong with the arguments.
fn arguments(
    alloc: Global,
    above: &Above<'_>,
    word: &Field<'_>,
    form: Form,
    args: &[Field<'_>],
) -> Result<Option<Finding>, AllocError> {
    match unknown_item(alloc, above, args)? {
        None => wrong_count(alloc, word, form, args),
        found => Ok(found),
    }
}

// What is wrong with a field that has to be a number.
fn wrong_number(
    alloc: Global,
    field: &Field<'_>,
    low: u32,
    high: u32,
) -> Result<Option<Finding>, AllocError> {
    if plain_number(field.text.as_bytes(), low, high).is_some() {
        return Ok(None);
    }
    at_field(
        field,
        format!(in alloc;
            "{}: here stands a number from {low} to {high}, without a leading zero",
            field.text
        ),
    )
}

// A name that is none of a function above.
fn unknown_function(
    alloc: Global,
    above: &Above<'_>,
    field: &Field<'_>,
) -> Result<Option<Finding>, AllocError> {
    let name = field.text;
    if is_known(name, &above.funcs) {
        return Ok(None);
    }
    if above.open == Some(name) {
        return of_field(
            alloc,
            field,
            "a function cannot use itself, only functions above it",
        );
    }
    if is_known(name, &OPERATORS) {
        return of_field(
            alloc,
            field,
            "an operator and no function: write a function of one line with it, above",
        );
    }
    let what = "no function above has this name; functions use only functions above them";
    with_nearest(alloc, field, what, &above.funcs)
}

// What is wrong with the operator of a fold.
fn unknown_fold(alloc: Global, field: &Field<'_>) -> Result<Option<Finding>, AllocError> {
    if is_known(field.text, &FOLDING) {
        return Ok(None);
    }
    let what = "this folds nothing; one of add mul and or xor min max stands here";
    of_field(alloc, field, what)
}

// What is wrong with the type of a cast or of a constant.
fn wrong_type(
    alloc: Global,
    version: u32,
    field: &Field<'_>,
    is_word: bool,
) -> Result<Option<Finding>, AllocError> {
    if !is_spelled(version, field.text) {
        return of_field(alloc, field, type_fault(version, field.text));
    }
    let is_long = has_byte(field.text, b'[') || has_byte(field.text, b'(');
    if is_word && is_long {
        return of_field(alloc, field, "a cast is to one word, as u16");
    }
    Ok(None)
}

// What is wrong with the words of a constant.
fn wrong_words(alloc: Global, words: &[Field<'_>]) -> Result<Option<Finding>, AllocError> {
    for field in words {
        if field.text.as_bytes().first() == Some(&b'-') {
            return of_field(
                alloc,
                field,
                "words have no sign: write the code, the number plus 2 to the word's width, as 65535 for -1 of 16 bits",
            );
        }
        if number(field.text.as_bytes()).is_none() {
            return of_field(
                alloc,
                field,
                "the words of a constant are decimal numbers of 1 to 20 digits, below 2 to 64",
            );
        }
    }
    Ok(None)
}

// What is wrong with the field between an operator and its arguments.
fn wrong_front(
    alloc: Global,
    above: &Above<'_>,
    front: Front,
    field: &Field<'_>,
) -> Result<Option<Finding>, AllocError> {
    match front {
        Front::Nothing => Ok(None),
        Front::Number(low, high) => wrong_number(alloc, field, low, high),
        Front::Numbers => wrong_number(alloc, field, 1, 4096),
        Front::Function => unknown_function(alloc, above, field),
        Front::Fold => unknown_fold(alloc, field),
        Front::Word => wrong_type(alloc, above.version, field, true),
        Front::Value => wrong_type(alloc, above.version, field, false),
    }
}

// What is wrong behind the front of an operator line.
fn behind_front(
    alloc: Global,
    above: &Above<'_>,
    word: &Field<'_>,
    form: Form,
    rest: &[Field<'_>],
) -> Result<Option<Finding>, AllocError> {
    match form.front {
        Front::Value => wrong_words(alloc, rest),
        Front::Numbers => match rest {
            [second, args @ ..] => match wrong_number(alloc, second, 1, 4096)? {
                None => arguments(alloc, above, word, form, args),
                found => Ok(found),
            },
            [] => wrong_count(alloc, word, form, rest),
        },
        _ => arguments(alloc, above, word, form, rest),
    }
}

// What is wrong from the operator on.
fn operator(
    alloc: Global,
    above: &Above<'_>,
    word: &Field<'_>,
    rest: &[Field<'_>],
) -> Result<Option<Finding>, AllocError> {
    let Some(form) = form_of(word.text) else {
        return unknown_operator(alloc, above, word, rest);
    };
    if word.text == "scan" && above.version < 2 {
        let what = "this operator is of version 2: begin the text with the line `aeth 2`";
        return of_field(alloc, word, what);
    }
    if matches!(form.front, Front::Nothing) {
        return arguments(alloc, above, word, form, rest);
    }
    let [field, rest @ ..] = rest else {
        let text = format!(in alloc; "{} takes {}", word.text, form.takes);
        return at_place(place_behind(word), 1, text);
    };
    match wrong_front(alloc, above, form.front, field)? {
        None => behind_front(alloc, above, word, form, rest),
        found => Ok(found),
    }
}

// A line without an = behind its first field.
fn no_equals(alloc: Global, first: &Field<'_>) -> Result<Option<Finding>, AllocError> {
    if has_byte(first.text, b'=') {
        return of_field(
            alloc,
            first,
            "blanks stand on both sides of the =, as in `c = add a b`",
        );
    }
    let text = format!(in alloc;
        "behind {} stands no =: a node line is NAME = OPERATOR and its arguments",
        first.text
    );
    at_place(place_behind(first), 1, text)
}

/// What is wrong with a line in a function that is no end line.
pub fn node(
    alloc: Global,
    above: &Above<'_>,
    name: &Field<'_>,
    rest: &[Field<'_>],
) -> Result<Option<Finding>, AllocError> {
    let [equals, rest @ ..] = rest else {
        return no_equals(alloc, name);
    };
    if equals.text != "=" {
        return no_equals(alloc, name);
    }
    if !is_name(name.text.as_bytes()) {
        return of_field(alloc, name, name_fault(name.text));
    }
    if is_known(name.text, &above.items) {
        return of_field(alloc, name, "this name is given above in this function");
    }
    let [word, rest @ ..] = rest else {
        return behind(alloc, equals, "an operator stands behind the =");
    };
    operator(alloc, above, word, rest)
}
