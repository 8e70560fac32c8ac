// The module that `aeth` writes, under another name.

ghost use Rattle.std.specs.Prelude.{◌≡◌, IfOk, IfSome, string_bytes};
ghost use Rattle.ae_tool.specs.Commands.{word_bytes};
ghost use Rattle.aethkit.specs.Renamed.{build_words, IsBuild, IsRenamed, IsRenamedBuild};

use crate::why::is_ok;
use ae_items::KitFault;
use ae_sttype::Slowdown;
use ae_tool::outcome;
use std::alloc::{AllocError, Global};

// The words of the job.
fn words_of(alloc: Global, slowdown: Slowdown) -> Result<Vec<String>, AllocError>
    ensures { IfOk result (λ words. word_bytes words.items ≡ build_words slowdown) }
{
    let mut words = Vec::new(alloc);
    words.push(String::from_str(alloc, "build")?)?;
    words.push(format!(in alloc; "{}", slowdown.clocks())?)?;
    Ok(words)
}

// The text of `aeth build S`.
fn built(alloc: Global, input: &[u8], slowdown: Slowdown) -> Result<String, KitFault>
    ensures { IfOk result (λ text. IsBuild slowdown input.now (string_bytes text)) }
{
    let words = words_of(alloc, slowdown)?;
    let reply = outcome(alloc, &words, input)?;
    if is_ok(reply.status) {
        Ok(reply.text)
    } else {
        Err(KitFault::Refused)
    }
}

// The text with another name of its module.
fn renamed(alloc: Global, text: &str, name: &str) -> Result<Option<String>, AllocError>
    ensures { IfOk result (λ o. IfSome o (λ out. IsRenamed name.now text.now (string_bytes out))) }
{
    let Some((before, behind)) = text.split_once("module aeth (") else {
        return Ok(None);
    };
    let mut out = String::from_str(alloc, before)?;
    out.push_str("module ")?;
    out.push_str(name)?;
    out.push_str(" (")?;
    out.push_str(behind)?;
    Ok(Some(out))
}

/// The text of `aeth build S` with a name in place of `aeth`, the word of its module.
pub fn renamed_build(
    alloc: Global,
    input: &[u8],
    slowdown: Slowdown,
    name: &str,
) -> Result<String, KitFault>
    ensures { IfOk result (λ text. IsRenamedBuild slowdown input.now name.now (string_bytes text)) }
{
    let text = built(alloc, input, slowdown)?;
    match renamed(alloc, text.as_str(), name)? {
        Some(out) => Ok(out),
        None => Err(KitFault::Refused),
    }
}
