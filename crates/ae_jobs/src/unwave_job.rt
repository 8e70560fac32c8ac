// The job `unwave`.

ghost use Rattle.std.specs.Prelude.{◌≡◌, ◌<◌, ◌^◌, ◌++◌, IfOk, OnOk, length, string_bytes, slice_get, unwrap_or};
ghost use Rattle.ae_vcd.specs.Waves.{IsFormedWave, wave_tree};
ghost use Rattle.ae_play.specs.Lines.{spaced};
ghost use Rattle.ae_jobs.specs.SimTexts.{words_of_clock};
ghost use Rattle.ae_jobs.specs.UnwaveTexts.{IsUnwaved, wave_lines, words_at};

use crate::reply::{Reply, refused};
use crate::status::Status;
use ae_compile::OutOfMemory;
use ae_vcd::{VcdFault, Wave, read_vcd, waves_are_one, words_are_judged};
use itoa::Buffer;
use std::alloc::{AllocError, Global};

// Appends the words of all variables at a time, each with a space before it.
fn write_row(out: &mut String, w: &Wave, i: usize) -> Result<(), AllocError>
    requires formed { IsFormedWave (wave_tree w.now) }
    requires time { i < length w.now.times.items }
    ensures { OnOk result (string_bytes out.new ≡ string_bytes out.old ++ spaced (words_at (wave_tree w.now) i)) }
{
    for k in 0..w.names.len() {
        out.push_str(" ")?;
        out.push_str(Buffer::new().format(w.word(i, k)))?;
    }
    Ok(())
}

// The number of a time.
fn time(w: &Wave, i: usize) -> u64
    requires { i < length w.now.times.items }
    ensures { result ≡ unwrap_or (slice_get w.now.times.items i) 0 }
{
    w.times[i]
}

// The line of a time.
fn write_time(out: &mut String, w: &Wave, i: usize) -> Result<(), AllocError>
    requires formed { IsFormedWave (wave_tree w.now) }
    requires time { i < length w.now.times.items }
    ensures { OnOk result (string_bytes out.new ≡ string_bytes out.old ++ words_of_clock (unwrap_or (slice_get w.now.times.items i) 0) (words_at (wave_tree w.now) i)) }
{
    out.push_str(Buffer::new().format(time(w, i)))?;
    write_row(out, w, i)?;
    out.push_str("\n")?;
    Ok(())
}

// The lines of all times.
fn wave_lines(alloc: Global, w: &Wave) -> Result<String, AllocError>
    requires { IsFormedWave (wave_tree w.now) }
    ensures { IfOk result (λ text. string_bytes text ≡ wave_lines (wave_tree w.now) (length w.now.times.items)) }
{
    let mut out = String::new(alloc);
    for i in 0..w.times.len() {
        write_time(&mut out, w, i)?;
    }
    Ok(out)
}

/// The words of the wave that a value change dump holds: a line for each time, with the time and the words of all
/// variables. A text that is no dump is refused at its first bad word, and a wave past the limit of runs for its size;
/// without memory there is no reply.
pub fn unwave(alloc: Global, part: &[u8]) -> Result<Reply, OutOfMemory>
    requires { length part.now < 2 ^ 32 }
    ensures { IfOk result (λ reply. IsUnwaved part.now reply.status (string_bytes reply.text)) }
{
    waves_are_one();
    words_are_judged();
    match read_vcd(alloc, part) {
        Ok(w) => {
            let text = wave_lines(alloc, &w)?;
            Ok(Reply {
                status: Status::Ok,
                text,
            })
        }
        Err(VcdFault::BadWord { at }) => refused(alloc, Status::BadWave { at }),
        Err(VcdFault::Large { size }) => refused(alloc, Status::LongRun { size }),
        Err(VcdFault::Memory) => Err(OutOfMemory),
    }
}
