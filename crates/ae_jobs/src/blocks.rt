// The blocks of words that the circuit of a compiled program takes.

ghost use Rattle.std.specs.Prelude.{◌≡◌};

use ae_compile::Compiled;
use ae_play::Blocks;

/// So many blocks of words, each value in the layout that the report tells, one block in the clocks of a slowdown.
pub fn fed_blocks<'a>(
    compiled: &'a Compiled,
    words: &'a [u64],
    count: usize,
    fill: u64,
) -> Blocks<'a>
    ensures ins { result.ins.now ≡ compiled.now.report.ins.items }
    ensures words { result.words.now ≡ words.now }
    ensures count { result.count ≡ count }
    ensures slowdown { result.slowdown ≡ compiled.now.costed.slowdown }
    ensures fill { result.fill ≡ fill }
{
    let told = compiled.report();
    Blocks {
        ins: &told.ins,
        words,
        count,
        slowdown: compiled.costed().slowdown(),
        fill,
    }
}
