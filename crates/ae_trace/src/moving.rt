// Which lines move words.

ghost use Rattle.std.specs.Prelude.{◌≡◌};
ghost use Rattle.ae_seq.specs.ProgramTree.{op_tree};
ghost use Rattle.ae_trace.specs.Traces.{is_movement_op};

use ae_seq::Op;

/// Whether a line moves words and computes none.
pub fn moves_words(op: &Op) -> bool
    ensures { result ≡ is_movement_op (op_tree op.now) }
{
    match op {
        Op::Pair | Op::Fst | Op::Snd | Op::Zip => true,
        Op::Shift(_) | Op::Up(_) | Op::Select(_) => true,
        Op::Partition(_, _) | Op::Unpartition => true,
        Op::Word(_) | Op::CastInt(_) | Op::Const(_, _) | Op::Call(_) | Op::Map(_) | Op::Map2(_) =>
            false,
        Op::Reduce(_) | Op::Scan(_) => false,
    }
}
