// Function lines.

ghost use Rattle.std.specs.Prelude.{◌≡◌, IfOk, option_map};
ghost use Rattle.ae_seq.specs.ProgramTree.{param_tree};
ghost use Rattle.ae_fields.specs.Cut.{fields, pieces};
ghost use Rattle.ae_fields.specs.Grammar.{few_params, no_params, param_from, param_of, params_after, params_of, two_of, with_param};
ghost use Rattle.ae_parse.specs.StateView.{head_of};
ghost use Rattle.ae_fields.specs.View.{halves_in};

use ae_fields::{Scope, name_text, next_field, next_piece, read_type};
use ae_seq::{Param, is_name};
use std::alloc::{AllocError, Global};

// What stands before and behind the only mark.
fn halves(bytes: &[u8], mark: u8) -> Option<(&[u8], &[u8])>
    ensures { option_map halves_in result ≡ two_of (pieces mark bytes.now) }
{
    let (first, behind) = next_piece(bytes, mark);
    let Some(rest) = behind else {
        return None;
    };
    let (second, after) = next_piece(rest, mark);
    if after.is_some() {
        return None;
    }
    Some((first, second))
}

// A parameter from its name and its type.
fn typed(alloc: Global, version: u32, name: &[u8], ty: &[u8]) -> Result<Option<Param>, AllocError>
    ensures { IfOk result (λ o. option_map param_tree o ≡ param_of version (name.now, ty.now)) }
{
    if !is_name(name) {
        return Ok(None);
    }
    let Some(ty) = read_type(alloc, version, ty)? else {
        return Ok(None);
    };
    let name = name_text(alloc, name)?;
    Ok(Some(Param { name, ty }))
}

// The parameter that a field says.
fn param(alloc: Global, version: u32, field: &[u8]) -> Result<Option<Param>, AllocError>
    ensures { IfOk result (λ o. option_map param_tree o ≡ param_from version field.now) }
{
    match halves(field, b':') {
        Some((name, ty)) => typed(alloc, version, name, ty),
        None => Ok(None),
    }
}

/// Parameters and their names.
#[derive(Drop)]
pub(crate) struct Params {
    pub(crate) params: Vec<Param>,
    pub(crate) items: Scope,
}

// One more parameter, if its name is a new one.
fn with_param(alloc: Global, found: Params, param: Param) -> Result<Option<Params>, AllocError>
    ensures { IfOk result (λ o. option_map head_of o ≡ with_param (head_of found) (param_tree param)) }
{
    let Params {
        mut params,
        mut items,
    } = found;
    if !items.add(alloc, param.name.as_bytes())? {
        return Ok(None);
    }
    params.push(param)?;
    Ok(Some(Params { params, items }))
}

// The parameters on a line, each with a name of its own.
fn all_params(alloc: Global, version: u32, line: &[u8]) -> Result<Option<Params>, AllocError>
    ensures { IfOk result (λ o. option_map head_of o ≡ params_after version no_params (fields line.now)) }
{
    let mut found = Params {
        params: Vec::new(alloc),
        items: Scope::new(alloc),
    };
    let mut rest = line;
    while let Some((field, after)) = next_field(rest) {
        let Some(param) = param(alloc, version, field)? else {
            return Ok(None);
        };
        let Some(more) = with_param(alloc, found, param)? else {
            return Ok(None);
        };
        found = more;
        rest = after;
    }
    Ok(Some(found))
}

fn few_params(found: Params) -> Option<Params>
    ensures { option_map head_of result ≡ few_params (head_of found) }
{
    let count = found.params.len();
    if 1 <= count && count <= 8 {
        Some(found)
    } else {
        None
    }
}

// The 1 to 8 parameters on a line.
pub(crate) fn read_params(
    alloc: Global,
    version: u32,
    line: &[u8],
) -> Result<Option<Params>, AllocError>
    ensures { IfOk result (λ o. option_map head_of o ≡ params_of version (fields line.now)) }
{
    match all_params(alloc, version, line)? {
        Some(found) => Ok(few_params(found)),
        None => Ok(None),
    }
}
