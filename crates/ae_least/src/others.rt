// The first line that does more than move words.

ghost use Rattle.std.specs.Prelude.{◌≡◌, None, Some, map, slice_get, true};
ghost use Rattle.ae_seq.specs.ProgramTree.{func_tree, node_tree, program_tree};
ghost use Rattle.ae_eval.specs.Stack.{IsTyped};
ghost use Rattle.ae_rewrite.specs.Interface.{main_of};
ghost use Rattle.ae_trace.specs.Traces.{is_movement};
ghost use Rattle.ae_least.specs.Others.{first_other, other_line};

use ae_seq::{Func, Node, Typed};
use ae_trace::moves_words;

fn first_other(nodes: &[Node]) -> Option<u32>
    ensures { result ≡ first_other (map node_tree nodes.now) }
{
    for node in nodes {
        let moves = moves_words(&node.op);
        if !moves {
            return Some(node.line);
        }
    }
    None
}

/// The program function.
pub(crate) fn main_func(p: &Typed) -> &Func
    ensures func { slice_get (program_tree p.now).funcs (main_of (program_tree p.now)) ≡ Some (func_tree result.now) }
    ensures typed { IsTyped (program_tree p.now) }
{
    let funcs = p.program().funcs.as_slice();
    &funcs[funcs.len() - 1]
}

/// The first node line of the program function that does more than move words; None exactly where the program is a movement
/// program.
pub(crate) fn other_line(p: &Typed) -> Option<u32>
    ensures line { result ≡ other_line (program_tree p.now) }
    ensures moves { result ≡ None → is_movement (program_tree p.now) ≡ true }
{
    let func = main_func(p);
    first_other(&func.nodes)
}
