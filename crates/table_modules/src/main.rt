//! Answers lines such as `tokens a<=b` with what the crates of the Verilog profile make of the text behind the word:
//! `tokens`, the `nets` and `items` of a module, and the `netlist` of one. `write` names a netlist of `written`. Each
//! line is printed before its answer; a blank one, and one that begins with `#`, has none.
#![tactic(auto)]

ghost use Rattle.std.specs.Prelude.{◌<◌, ◌^◌, length};

mod escapes;
mod trees;
mod written;

use ae_elab::elaborate;
use ae_netlist::Netlist;
use ae_vread::read;
use ae_vtoken::Tokens;
use std::alloc::Global;
use std::io;

// The most bytes of a text.
const LONG: usize = 100_000;

fn show_tokens<R: Print>(rt: &R, alloc: Global, text: &[u8]) -> io::Result<()>
    requires { length text.now < 2 ^ 32 }
{
    match Tokens::of(text) {
        Ok(tokens) => {
            let listed = trees::tokens(alloc, tokens)?;
            println!(rt; "  Ok([{listed}])")
        }
        Err(bad) => println!(rt; "  Err({bad:?})"),
    }
}

fn show_items<R: Print>(rt: &R, alloc: Global, text: &[u8]) -> io::Result<()>
    requires { length text.now < 2 ^ 32 }
{
    match read(alloc, text) {
        Ok(module) => {
            let listed = trees::items(alloc, &module)?;
            println!(rt; "  [{listed}]")
        }
        Err(fault) => println!(rt; "  {fault:?}"),
    }
}

fn show_nets<R: Print>(rt: &R, alloc: Global, text: &[u8]) -> io::Result<()>
    requires { length text.now < 2 ^ 32 }
{
    match read(alloc, text) {
        Ok(module) => {
            let listed = trees::nets(alloc, &module)?;
            println!(rt; "  {} [{listed}]", module.words.name(module.name))
        }
        Err(fault) => println!(rt; "  {fault:?}"),
    }
}

// A line for each cell, its width first, and one for each output.
fn show_cells<R: Print>(rt: &R, nl: &Netlist) -> io::Result<()> {
    for packed in nl.cells() {
        println!(rt; "  {} {:?}", packed.width(), packed.cell())?;
    }
    for outlet in nl.outlets() {
        println!(rt; "  {outlet:?}")?;
    }
    Ok(())
}

fn show_netlist<R: Print>(rt: &R, alloc: Global, text: &[u8]) -> io::Result<()>
    requires { length text.now < 2 ^ 32 }
{
    match read(alloc, text) {
        Ok(module) => match elaborate(alloc, &module) {
            Ok(nl) => show_cells(rt, &nl),
            Err(fault) => println!(rt; "  {fault:?}"),
        },
        Err(fault) => println!(rt; "  {fault:?}"),
    }
}

fn show_text<R: Print>(rt: &R, alloc: Global, name: &str) -> io::Result<()> {
    match written::text_of(alloc, name) {
        Ok(text) => print!(rt; "{text}"),
        Err(_) => println!(rt; "  no memory"),
    }
}

fn answer<R: Print>(rt: &R, alloc: Global, word: &str, rest: &str) -> io::Result<()> {
    let text = escapes::meant(alloc, rest)?;
    let bytes = text.as_bytes();
    if bytes.len() > LONG {
        return println!(rt; "  a long text");
    }
    match word {
        "tokens" => show_tokens(rt, alloc, bytes),
        "items" => show_items(rt, alloc, bytes),
        "nets" => show_nets(rt, alloc, bytes),
        "netlist" => show_netlist(rt, alloc, bytes),
        "write" => show_text(rt, alloc, text.as_str()),
        _ => println!(rt; "  no such word"),
    }
}

fn respond<R: Print>(rt: &R, alloc: Global, line: &str) -> io::Result<()> {
    println!(rt; "{line}")?;
    match line.split_once(' ') {
        Some((word, rest)) if word != "#" => answer(rt, alloc, word, rest),
        _ => Ok(()),
    }
}

fn main(rt: HostRuntime) -> io::Result<()> {
    for line in rt.lines(rt.alloc()) {
        respond(&rt, rt.alloc(), line?.as_str())?;
    }
    Ok(())
}
