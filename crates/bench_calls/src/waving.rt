// The reading and writing of dumps.

ghost use Rattle.ae_vcd.specs.Waves.{IsFormedWave, wave_tree};

use ae_vcd::{VcdFault, Wave, read_vcd, write_vcd};
use std::alloc::Global;
use table_text::Page;

// The most bytes of a text.
const LONG: usize = 1_000_000_000;

fn tell_wave(alloc: Global, out: &mut Page, wave: &Wave, writes: bool)
    requires { IsFormedWave (wave_tree wave.now) }
{
    out.tell("", &wave.words.len());
    if !writes {
        return out.say(" words, 0 bytes\n");
    }
    match write_vcd(alloc, wave) {
        Ok(text) => out.tell(" words, ", &text.len()),
        Err(_) => out.cut(),
    }
    out.say(" bytes\n");
}

/// Tells how many words a dump has, and, where that is asked, the length of the text that its wave has.
pub fn read(alloc: Global, out: &mut Page, text: &str, writes: bool) {
    if text.len() > LONG {
        return out.say("too long\n");
    }
    match read_vcd(alloc, text.as_bytes()) {
        Ok(wave) => tell_wave(alloc, out, &wave, writes),
        Err(VcdFault::BadWord { at }) => out.tell_line("bad word ", &at),
        Err(VcdFault::Large { size }) => {
            out.tell("", &size);
            out.say(" words\n");
        }
        Err(VcdFault::Memory) => out.cut(),
    }
}
