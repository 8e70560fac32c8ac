//! Answers lines such as `read TEXT` with the wave of the text, a line for each time, or with the fault. `write TEXT` gives
//! the text that this wave has. Each line is printed before its answer; a blank one, and one that begins with `#`, has
//! none. A text stands on one line, since all blanks are alike in it.
#![tactic(auto)]

ghost use Rattle.std.specs.Prelude.{◌<◌, ◌^◌, length};

use ae_vcd::{Wave, read_vcd, write_vcd};
use std::alloc::Global;
use std::io;

// The most bytes of a text.
const LONG: usize = 100_000;

fn show_names<R: Print>(rt: &R, wave: &Wave) -> io::Result<()> {
    for (name, width) in wave.names.iter().zip(&wave.widths) {
        print!(rt; " {name}:{width}")?;
    }
    println!(rt; "")
}

fn show_wave<R: Print>(rt: &R, wave: &Wave) -> io::Result<()> {
    print!(rt; " ")?;
    show_names(rt, wave)?;
    let mut words = wave.words.iter();
    for time in &wave.times {
        print!(rt; "  {time}")?;
        for word in words.by_ref().take(wave.names.len()) {
            print!(rt; " {word}")?;
        }
        println!(rt; "")?;
    }
    Ok(())
}

fn read<R: Print>(rt: &R, alloc: Global, text: &[u8]) -> io::Result<()>
    requires { length text.now < 2 ^ 32 }
{
    match read_vcd(alloc, text) {
        Ok(wave) => show_wave(rt, &wave),
        Err(fault) => println!(rt; "  {fault:?}"),
    }
}

fn write<R: Print>(rt: &R, alloc: Global, text: &[u8]) -> io::Result<()>
    requires { length text.now < 2 ^ 32 }
{
    match read_vcd(alloc, text) {
        Ok(wave) => {
            let written = write_vcd(alloc, &wave)?;
            print!(rt; "{written}")
        }
        Err(fault) => println!(rt; "  {fault:?}"),
    }
}

fn respond<R: Print>(rt: &R, alloc: Global, line: &str) -> io::Result<()> {
    println!(rt; "{line}")?;
    let Some((word, text)) = line.split_once(' ') else {
        return Ok(());
    };
    let bytes = text.as_bytes();
    if bytes.len() > LONG {
        return println!(rt; "  a long text");
    }
    match word {
        "read" => read(rt, alloc, bytes),
        "write" => write(rt, alloc, bytes),
        _ => Ok(()),
    }
}

fn main(rt: HostRuntime) -> io::Result<()> {
    for line in rt.lines(rt.alloc()) {
        respond(&rt, rt.alloc(), line?.as_str())?;
    }
    Ok(())
}
