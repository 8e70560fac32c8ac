// The lines of a program text, one after the other.

ghost use Rattle.std.specs.Prelude.{◌≡◌, ◌<◌, IfOk, IfSome, length, option_map, Some, true};
ghost use Rattle.ae_seq.specs.Formed.{is_name};
ghost use Rattle.ae_seq.specs.ProgramTree.{op_tree};
ghost use Rattle.ae_fields.specs.Cleaned.{all_printed, may_stand};
ghost use Rattle.ae_fields.specs.Cut.{fields};
ghost use Rattle.ae_fields.specs.Grammar.{Known as KnownTree, after_line, begin, begin_named, begun, by_part, ended, ended_with, finish, first_line, inside, is_version_line, node, node_named, node_with, of_version, start, step, with_node};
ghost use Rattle.ae_seq.specs.Typing.{where_ok};
ghost use Rattle.ae_parse.specs.StateView.{head_of, known_of, part_of, state_of, opened};

use crate::fn_lines::{Params, read_params};
use crate::op_lines::{places, read_operator};
use ae_fields::{Scope, name_text, next_field};
use ae_seq::{Func, Node, Op, Param, has_arguments, is_name};
use std::alloc::{AllocError, Global};

/// What came before a function: the version (0 before the first line that says something), whether a function with
/// several results has ended, the functions, and their names with that of a function that is not at its end.
#[derive(Drop)]
pub(crate) struct Known {
    pub(crate) version: u32,
    pub(crate) closed: bool,
    pub(crate) funcs: Vec<Func>,
    pub(crate) names: Scope,
}

/// A function that is not at its end.
#[derive(Drop)]
pub(crate) struct Part {
    pub(crate) name: String,
    pub(crate) params: Vec<Param>,
    pub(crate) nodes: Vec<Node>,
    pub(crate) items: Scope,
    pub(crate) line: u32,
}

/// What is known between two lines.
#[derive(Drop)]
pub(crate) struct Parser {
    pub(crate) known: Known,
    pub(crate) part: Option<Part>,
}

// ---- function lines

fn begun(
    alloc: Global,
    number: u32,
    known: &mut Known,
    name: &[u8],
    head: Params,
) -> Result<Option<Part>, AllocError>
    requires { is_name name.now ≡ true }
    ensures { IfOk result (λ o. option_map (λ p. opened (known_of known.new) (part_of p)) o ≡ begun number (known_of known.old) name.now (head_of head)) }
{
    if !known.names.add(alloc, name)? {
        return Ok(None);
    }
    let name = name_text(alloc, name)?;
    let Params { params, items } = head;
    Ok(Some(Part {
        name,
        params,
        nodes: Vec::new(alloc),
        items,
        line: number,
    }))
}

// A function line from its name.
fn begin_named(
    alloc: Global,
    number: u32,
    known: &mut Known,
    name: &[u8],
    line: &[u8],
) -> Result<Option<Part>, AllocError>
    ensures { IfOk result (λ o. option_map (λ p. opened (known_of known.new) (part_of p)) o ≡ begin_named number (known_of known.old) name.now (fields line.now)) }
{
    if !is_name(name) {
        return Ok(None);
    }
    match read_params(alloc, known.version, line)? {
        Some(head) => begun(alloc, number, known, name, head),
        None => Ok(None),
    }
}

// A function line from what follows its first field.
fn begin(
    alloc: Global,
    number: u32,
    known: &mut Known,
    first: &[u8],
    line: &[u8],
) -> Result<Option<Part>, AllocError>
    ensures { IfOk result (λ o. option_map (λ p. opened (known_of known.new) (part_of p)) o ≡ begin number (known_of known.old) first.now (fields line.now)) }
{
    let Some((name, after)) = next_field(line) else {
        return Ok(None);
    };
    if first != b"fn".as_slice() || known.closed {
        return Ok(None);
    }
    begin_named(alloc, number, known, name, after)
}

// ---- node lines

// Puts a node behind the others, if its name is a new one, and says whether it is.
fn with_node(
    alloc: Global,
    number: u32,
    part: &mut Part,
    name: &[u8],
    op: Op,
    args: Vec<u32>,
) -> Result<bool, AllocError>
    requires { is_name name.now ≡ true }
    ensures { (k : KnownTree) → IfOk result (λ b. where_ok b (Some (opened k (part_of part.new))) ≡ with_node number k (part_of part.old) name.now (op_tree op) args.items) }
{
    if !part.items.add(alloc, name)? {
        return Ok(false);
    }
    let name = name_text(alloc, name)?;
    part.nodes.push(Node {
        name,
        op,
        args,
        line: number,
    })?;
    Ok(true)
}

// A node line from its operator and what follows that.
fn node_with(
    alloc: Global,
    number: u32,
    part: &mut Part,
    name: &[u8],
    op: Op,
    line: &[u8],
) -> Result<bool, AllocError>
    requires named { is_name name.now ≡ true }
    requires few_items { length part.old.items < 4294967296 }
    ensures { (k : KnownTree) → IfOk result (λ b. where_ok b (Some (opened k (part_of part.new))) ≡ node_with number k (part_of part.old) name.now (op_tree op, fields line.now)) }
{
    let Some(args) = places(alloc, &part.items, line)? else {
        return Ok(false);
    };
    if !has_arguments(&op, args.len()) {
        return Ok(false);
    }
    with_node(alloc, number, part, name, op, args)
}

// A node line from what follows its `=`.
fn node_named(
    alloc: Global,
    number: u32,
    known: &Known,
    part: &mut Part,
    name: &[u8],
    line: &[u8],
) -> Result<bool, AllocError>
    requires named { is_name name.now ≡ true }
    requires few_names { length known.now.names < 4294967296 }
    requires few_items { length part.old.items < 4294967296 }
    ensures { IfOk result (λ b. where_ok b (Some (opened (known_of known.now) (part_of part.new))) ≡ node_named number (known_of known.now) (part_of part.old) name.now (fields line.now)) }
{
    let Some((word, after)) = next_field(line) else {
        return Ok(false);
    };
    let read = read_operator(
        alloc,
        known.version,
        known.funcs.len(),
        &known.names,
        word,
        after,
    )?;
    let Some((op, args)) = read else {
        return Ok(false);
    };
    node_with(alloc, number, part, name, op, args)
}

// A node line from what follows its name.
fn node(
    alloc: Global,
    number: u32,
    known: &Known,
    part: &mut Part,
    name: &[u8],
    line: &[u8],
) -> Result<bool, AllocError>
    requires few_names { length known.now.names < 4294967296 }
    requires few_items { length part.old.items < 4294967296 }
    ensures { IfOk result (λ b. where_ok b (Some (opened (known_of known.now) (part_of part.new))) ≡ node number (known_of known.now) (part_of part.old) name.now (fields line.now)) }
{
    let Some((equals, after)) = next_field(line) else {
        return Ok(false);
    };
    if equals != b"=".as_slice() || !is_name(name) {
        return Ok(false);
    }
    node_named(alloc, number, known, part, name, after)
}

// ---- end lines

fn ended(number: u32, known: Known, part: Part, results: Vec<u32>) -> Result<Parser, AllocError>
    ensures { IfOk result (λ s. state_of s ≡ ended number (known_of known) (part_of part) results.items) }
{
    let Known {
        version,
        closed: _,
        mut funcs,
        names,
    } = known;
    let Part {
        name,
        params,
        nodes,
        items: _,
        line,
    } = part;
    let closed = results.len() > 1;
    funcs.push(Func {
        name,
        params,
        nodes,
        results,
        line,
        end_line: number,
    })?;
    Ok(Parser {
        known: Known {
            version,
            closed,
            funcs,
            names,
        },
        part: None,
    })
}

fn ended_with(
    number: u32,
    known: Known,
    part: Part,
    results: Vec<u32>,
) -> Result<Option<Parser>, AllocError>
    ensures { IfOk result (λ o. option_map state_of o ≡ ended_with number (known_of known) (part_of part) results.items) }
{
    let most = if known.version == 2 { 8 } else { 1 };
    let count = results.len();
    if !(1 <= count && count <= most) {
        return Ok(None);
    }
    let parser = ended(number, known, part, results)?;
    Ok(Some(parser))
}

// An end line from what follows `end`.
fn finish(
    alloc: Global,
    number: u32,
    known: Known,
    part: Part,
    line: &[u8],
) -> Result<Option<Parser>, AllocError>
    requires few_items { length part.items < 4294967296 }
    ensures { IfOk result (λ o. option_map state_of o ≡ finish number (known_of known) (part_of part) (fields line.now)) }
{
    match places(alloc, &part.items, line)? {
        Some(results) => ended_with(number, known, part, results),
        None => Ok(None),
    }
}

// ---- lines

// A line inside a function.
fn inside(
    alloc: Global,
    number: u32,
    known: Known,
    part: Part,
    first: &[u8],
    line: &[u8],
) -> Result<Option<Parser>, AllocError>
    requires few_names { length known.names < 4294967296 }
    requires few_items { length part.items < 4294967296 }
    ensures { IfOk result (λ o. option_map state_of o ≡ inside number (known_of known) (part_of part) first.now (fields line.now)) }
{
    if first == b"end".as_slice() {
        return finish(alloc, number, known, part, line);
    }
    let mut part = part;
    if !node(alloc, number, &known, &mut part, first, line)? {
        return Ok(None);
    }
    Ok(Some(Parser {
        known,
        part: Some(part),
    }))
}

// A line outside a function.
fn outside(
    alloc: Global,
    number: u32,
    known: Known,
    first: &[u8],
    line: &[u8],
) -> Result<Option<Parser>, AllocError>
    ensures { IfOk result (λ o. option_map state_of o ≡ begin number (known_of known) first.now (fields line.now)) }
{
    let mut known = known;
    let Some(part) = begin(alloc, number, &mut known, first, line)? else {
        return Ok(None);
    };
    Ok(Some(Parser {
        known,
        part: Some(part),
    }))
}

// A line that says something, when the version is known.
fn by_part(
    alloc: Global,
    number: u32,
    known: Known,
    part: Option<Part>,
    first: &[u8],
    line: &[u8],
) -> Result<Option<Parser>, AllocError>
    requires few_names { length known.names < 4294967296 }
    requires few_items { IfSome part (λ p. length p.items < 4294967296) }
    ensures { IfOk result (λ o. option_map state_of o ≡ by_part number (known_of known) (option_map part_of part) first.now (fields line.now)) }
{
    match part {
        None => outside(alloc, number, known, first, line),
        Some(part) => inside(alloc, number, known, part, first, line),
    }
}

fn is_version_line(first: &[u8], line: &[u8]) -> bool
    ensures { result ≡ is_version_line first.now (fields line.now) }
{
    let Some((second, after)) = next_field(line) else {
        return false;
    };
    if next_field(after).is_some() {
        return false;
    }
    first == b"aeth".as_slice() && second == b"2".as_slice()
}

fn of_version(version: u32, known: Known) -> Known
    ensures { known_of result ≡ of_version version (known_of known) }
{
    let Known {
        version: _,
        closed,
        funcs,
        names,
    } = known;
    Known {
        version,
        closed,
        funcs,
        names,
    }
}

// The first line that says something.
fn first_line(
    alloc: Global,
    number: u32,
    parser: Parser,
    first: &[u8],
    line: &[u8],
) -> Result<Option<Parser>, AllocError>
    requires few_names { length parser.known.names < 4294967296 }
    requires few_items { IfSome parser.part (λ p. length p.items < 4294967296) }
    ensures { IfOk result (λ o. option_map state_of o ≡ first_line number (state_of parser) first.now (fields line.now)) }
{
    let Parser { known, part } = parser;
    if is_version_line(first, line) {
        return Ok(Some(Parser {
            known: of_version(2, known),
            part,
        }));
    }
    by_part(alloc, number, of_version(1, known), part, first, line)
}

// What is known after a line.
fn step(
    alloc: Global,
    number: u32,
    parser: Parser,
    line: &[u8],
) -> Result<Option<Parser>, AllocError>
    requires few_names { length parser.known.names < 4294967296 }
    requires few_items { IfSome parser.part (λ p. length p.items < 4294967296) }
    ensures { IfOk result (λ o. option_map state_of o ≡ step number (state_of parser) (fields line.now)) }
{
    let Some((first, after)) = next_field(line) else {
        return Ok(Some(parser));
    };
    if number > 4096 {
        return Ok(None);
    }
    if parser.known.version == 0 {
        return first_line(alloc, number, parser, first, after);
    }
    let Parser { known, part } = parser;
    by_part(alloc, number, known, part, first, after)
}

fn may_stand(byte: u8) -> bool
    ensures { result ≡ may_stand byte }
{
    byte == b' ' || byte == b'\t' || (byte > 32 && byte < 127)
}

fn all_printed(line: &[u8]) -> bool
    ensures { result ≡ all_printed line.now }
{
    for byte in line {
        if !may_stand(*byte) {
            return false;
        }
    }
    true
}

impl Parser {
    /// Nothing is known before the first line.
    pub(crate) fn new(alloc: Global) -> Parser
        ensures { state_of result ≡ start }
    {
        Parser {
            known: Known {
                version: 0,
                closed: false,
                funcs: Vec::new(alloc),
                names: Scope::new(alloc),
            },
            part: None,
        }
    }

    /// What is known after line `number`, which says so; None where it is refused.
    pub(crate) fn after_line(
        self,
        alloc: Global,
        number: u32,
        said: &[u8],
    ) -> Result<Option<Parser>, AllocError>
        requires few_names { length self.known.names < 4294967296 }
        requires few_items { IfSome self.part (λ p. length p.items < 4294967296) }
        ensures { IfOk result (λ o. option_map state_of o ≡ after_line number (state_of self) said.now) }
    {
        if !all_printed(said) {
            return Ok(None);
        }
        step(alloc, number, self, said)
    }
}
