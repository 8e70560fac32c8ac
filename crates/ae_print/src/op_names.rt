// The words that operators begin with on their lines.

ghost use Rattle.std.specs.Prelude.{◌≡◌, true};
ghost use Rattle.ae_seq.specs.ProgramTree.{op_tree, word};
ghost use Rattle.ae_seq.specs.Formed.{all_name_bytes};
ghost use Rattle.ae_print.specs.Printed.{op_word};

use ae_seq::Op;
use ae_word::WordOp;

/// The word of an operator on words, of letters alone (docs/LANGUAGE.md). A signed one, which stands in no text, has none: the
/// text is empty.
pub fn word_name(op: WordOp) -> &'static str
    ensures word { result.now ≡ op_word (word op) }
    ensures plain { all_name_bytes result.now ≡ true }
{
    match op {
        WordOp::Add => "add",
        WordOp::Sub => "sub",
        WordOp::Mul => "mul",
        WordOp::And => "and",
        WordOp::Or => "or",
        WordOp::Xor => "xor",
        WordOp::Not => "not",
        WordOp::Min => "min",
        WordOp::Max => "max",
        WordOp::Eq => "eq",
        WordOp::Lt => "lt",
        WordOp::Mux => "mux",
        WordOp::Shl(_) => "shl",
        WordOp::Shr(_) => "shr",
        WordOp::Cast(_) => "cast",
        WordOp::SLt | WordOp::SMin | WordOp::SMax | WordOp::Sar(_) | WordOp::SCast(_) => "",
    }
}

/// The word of an operator, of letters and digits alone (docs/LANGUAGE.md).
pub fn op_name(op: &Op) -> &'static str
    ensures word { result.now ≡ op_word (op_tree op.now) }
    ensures plain { all_name_bytes result.now ≡ true }
{
    match op {
        Op::Word(op) => word_name(*op),
        Op::CastInt(_) => "cast",
        Op::Pair => "pair",
        Op::Fst => "fst",
        Op::Snd => "snd",
        Op::Const(_, _) => "const",
        Op::Zip => "zip",
        Op::Call(_) => "call",
        Op::Map(_) => "map",
        Op::Map2(_) => "map2",
        Op::Reduce(_) => "reduce",
        Op::Scan(_) => "scan",
        Op::Shift(_) => "shift",
        Op::Up(_) => "up",
        Op::Select(_) => "select",
        Op::Partition(_, _) => "partition",
        Op::Unpartition => "unpartition",
    }
}
