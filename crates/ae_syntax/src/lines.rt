// Why a line goes on with no program.

use crate::above::{Above, read_above};
use crate::nodes::{behind, has_byte, name_fault, node, of_field, unknown_item};
use crate::spelling::{is_spelled, type_fault};
use ae_parse::{next_piece, said};
use ae_places::{
    Field, Finding, at_field, at_place, fields, is_known, line_at, push_finding, push_marked,
    text_of,
};
use ae_seq::is_name;
use std::alloc::{AllocError, Global};

// What is wrong with the field of a parameter.
fn wrong_param(
    alloc: Global,
    above: &Above<'_>,
    field: &Field<'_>,
) -> Result<Option<Finding>, AllocError> {
    let (name, after) = next_piece(field.text.as_bytes(), b':');
    let Some(spelled) = after else {
        let what = "a parameter is NAME:TYPE in one field, without blanks";
        return of_field(alloc, field, what);
    };
    if !is_name(name) {
        return of_field(alloc, field, name_fault(text_of(name)));
    }
    let spelled = text_of(spelled);
    if has_byte(spelled, b':') {
        return of_field(alloc, field, "a parameter has one colon");
    }
    if !is_spelled(above.version, spelled) {
        return of_field(alloc, field, type_fault(above.version, spelled));
    }
    Ok(None)
}

// Whether an earlier parameter has the name of this one.
fn is_repeated(fields: &[Field<'_>], number: usize) -> bool {
    let Some(own) = fields.get(number) else {
        return false;
    };
    let (name, _) = next_piece(own.text.as_bytes(), b':');
    for other in fields.iter().take(number) {
        let (before, _) = next_piece(other.text.as_bytes(), b':');
        if before == name {
            return true;
        }
    }
    false
}

// What is wrong with the parameters.
fn wrong_params(
    alloc: Global,
    above: &Above<'_>,
    name: &Field<'_>,
    params: &[Field<'_>],
) -> Result<Option<Finding>, AllocError> {
    for (number, field) in params.iter().enumerate() {
        if let Some(finding) = wrong_param(alloc, above, field)? {
            return Ok(Some(finding));
        }
        if is_repeated(params, number) {
            return of_field(alloc, field, "a parameter before it has this name");
        }
    }
    match params.get(8) {
        Some(field) => of_field(alloc, field, "a function has at most 8 parameters"),
        None if params.is_empty() => {
            behind(
                alloc,
                name,
                "a function has at least one parameter, NAME:TYPE",
            )
        }
        None => Ok(None),
    }
}

// What is wrong with a function line.
fn function(
    alloc: Global,
    above: &Above<'_>,
    first: &Field<'_>,
    rest: &[Field<'_>],
) -> Result<Option<Finding>, AllocError> {
    if above.is_closed {
        let what = "the function above has several results, so it is the last: no function follows";
        return of_field(alloc, first, what);
    }
    let [name, params @ ..] = rest else {
        return behind(
            alloc,
            first,
            "a function line is fn NAME and its parameters",
        );
    };
    if !is_name(name.text.as_bytes()) {
        return of_field(alloc, name, name_fault(name.text));
    }
    if is_known(name.text, &above.funcs) {
        return of_field(alloc, name, "a function above has this name");
    }
    wrong_params(alloc, above, name, params)
}

// What is wrong with a line outside of functions.
fn outside(
    alloc: Global,
    above: &Above<'_>,
    first: &Field<'_>,
    rest: &[Field<'_>],
) -> Result<Option<Finding>, AllocError> {
    let what = match first.text {
        "fn" => return function(alloc, above, first, rest),
        "aeth" if above.is_begun => "a version line is the first line that says something",
        "aeth" => "the only version line is `aeth 2`",
        "end" => "no function is open here",
        "module" => "this is Verilog and no program: `aeth sim FILL` takes it",
        _ => "outside of functions stand function lines, fn NAME and parameters",
    };
    of_field(alloc, first, what)
}

// What is wrong with an end line.
fn finish(
    alloc: Global,
    above: &Above<'_>,
    end: &Field<'_>,
    names: &[Field<'_>],
) -> Result<Option<Finding>, AllocError> {
    if names.is_empty() {
        return behind(alloc, end, "an end line names the result");
    }
    if let Some(finding) = unknown_item(alloc, above, names)? {
        return Ok(Some(finding));
    }
    match (names.get(1), names.get(8)) {
        (Some(second), _) if above.version < 2 => {
            let what = "several results are of version 2: begin the text with the line `aeth 2`";
            of_field(alloc, second, what)
        }
        (_, Some(field)) => of_field(alloc, field, "a function has at most 8 results"),
        _ => Ok(None),
    }
}

// What is wrong with a line in an open function.
fn inside(
    alloc: Global,
    above: &Above<'_>,
    name: &str,
    first: &Field<'_>,
    rest: &[Field<'_>],
) -> Result<Option<Finding>, AllocError> {
    match first.text {
        "end" => finish(alloc, above, first, rest),
        "fn" => {
            let text = format!(in alloc;
                "function {name} is not at its end: its line `end` is missing above"
            );
            at_field(first, text)
        }
        _ => node(alloc, above, first, rest),
    }
}

// The first byte that may not stand there.
fn wrong_byte(alloc: Global, line: &[u8]) -> Result<Option<Finding>, AllocError> {
    for (at, byte) in said(line).iter().enumerate() {
        if !matches!(*byte, b'\t' | b' '..=b'~') {
            let text = format!(in alloc;
                "byte {byte}: outside of comments stand spaces, tabs and printable ASCII alone"
            );
            return at_place(at, 1, text);
        }
    }
    Ok(None)
}

// What is wrong with a line, if it is found.
fn wrong_line(
    alloc: Global,
    above: &Above<'_>,
    number: u32,
    line: &[u8],
) -> Result<Option<Finding>, AllocError> {
    if let Some(finding) = wrong_byte(alloc, line)? {
        return Ok(Some(finding));
    }
    let said = fields(alloc, line)?;
    let [first, rest @ ..] = said.as_slice() else {
        return Ok(None);
    };
    if number > 4096 {
        return of_field(alloc, first, "a line behind number 4096 says nothing");
    }
    match above.open {
        Some(name) => inside(alloc, above, name, first, rest),
        None => outside(alloc, above, first, rest),
    }
}

// Why a program ends too early.
fn push_missing(out: &mut String, above: &Above<'_>, number: u32) -> Result<(), AllocError> {
    match above.open {
        Some(name) => writeln!(
            out,
            "line {number} is behind the program, and function {name} is not at its end: its line `end` and a name is missing"
        ),
        None => writeln!(
            out,
            "line {number} is behind the program, and there is no function: a program has at least one"
        ),
    }
}

// Why a line goes on with no program.
fn push_bad_line(
    out: &mut String,
    alloc: Global,
    part: &[u8],
    number: u32,
) -> Result<(), AllocError> {
    let above = read_above(alloc, part, number)?;
    let Some((_, line)) = line_at(part, number) else {
        return push_missing(out, &above, number);
    };
    match wrong_line(alloc, &above, number, line)? {
        Some(finding) => push_finding(out, number, line, &finding),
        None => {
            push_marked(out, number, line, 0, 1)?;
            out.push_str("this line goes on with no program\n")
        }
    }
}

/// Why the program part has no program, by the line that is refused.
pub fn bad_line(alloc: Global, part: &[u8], number: u32) -> Result<String, AllocError> {
    let mut out = String::new(alloc);
    push_bad_line(&mut out, alloc, part, number)?;
    Ok(out)
}
