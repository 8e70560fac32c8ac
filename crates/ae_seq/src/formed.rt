// Which programs a text can say.

ghost use Rattle.std.specs.Prelude.{◌≡◌, ◌&&◌, ◌≤◌, ◌+◌, ◌==◌, length, nat_le, if◌then◌else◌};
ghost use Rattle.ae_word.specs.AtomTree.{atom_tree};
ghost use Rattle.ae_seqtype.specs.SeqTree.{depth, parts_in_size, seq_tree};
ghost use Rattle.ae_seq.specs.Formed.{all_below, all_distinct, all_name_bytes, all_names, apart, begins_with_letter, formed, formed_func, formed_funcs, formed_nodes, formed_params, func_lines, func_names, has_arguments, is_among, is_letter, is_line, is_name, is_spelled, is_unsigned, is_word_line, most_results, named_items, node_names, param_names, same_bytes, within};
ghost use Rattle.ae_seq.specs.ProgramTree.{func_tree, op_tree, program_tree};
ghost use Rattle.ae_seq.specs.Trees.{func_trees, node_trees, param_trees};

use crate::{Func, Node, Op, Param, Program};
use ae_seqtype::SeqType;
use ae_word::{Atom, WordOp, arity, folds};

impl Program {
    /// Whether a text can say the program (docs/LANGUAGE.md), whatever its line numbers. It takes no memory: names are
    /// compared in pairs, once the program is known to have at most 4,096 lines.
    pub fn formed(&self) -> bool
        ensures { result ≡ formed (program_tree self.now) }
    {
        let funcs = self.funcs.as_slice();
        1 <= self.version
            && self.version <= 2
            && !funcs.is_empty()
            && has_few_lines(self.version, funcs)
            && distinct_funcs(funcs)
            && formed_funcs(self.version, funcs)
    }
}

// ---- names

fn is_letter(b: u8) -> bool
    ensures { result ≡ is_letter b }
{
    (97 <= b && b <= 122) || (65 <= b && b <= 90) || b == 95
}

fn all_name_bytes(bytes: &[u8]) -> bool
    ensures { result ≡ all_name_bytes bytes.now }
{
    for b in bytes {
        if !(is_letter(*b) || (48 <= *b && *b <= 57)) {
            return false;
        }
    }
    true
}

fn same_bytes(first: &[u8], second: &[u8]) -> bool
    ensures { result ≡ same_bytes first.now second.now }
{
    if first.len() != second.len() {
        return false;
    }
    for (i, b) in second.iter().enumerate() {
        if first[i] != *b {
            return false;
        }
    }
    true
}

fn begins_with_letter(bytes: &[u8]) -> bool
    ensures { result ≡ begins_with_letter bytes.now }
{
    match bytes {
        [b, ..] => is_letter(*b),
        [] => false,
    }
}

/// Whether the bytes are a name: 1 to 32 letters, digits and `_`, the first no digit, and neither `fn` nor `end`.
pub fn is_name(bytes: &[u8]) -> bool
    ensures { result ≡ is_name bytes.now }
{
    bytes.len() <= 32
        && begins_with_letter(bytes)
        && all_name_bytes(bytes)
        && !same_bytes(bytes, b"fn")
        && !same_bytes(bytes, b"end")
}

fn named_params(params: &[Param]) -> bool
    ensures { result ≡ all_names (param_names (param_trees params.now)) }
{
    for param in params {
        if !is_name(param.name.as_bytes()) {
            return false;
        }
    }
    true
}

fn named_nodes(nodes: &[Node]) -> bool
    ensures { result ≡ all_names (node_names (node_trees nodes.now)) }
{
    for node in nodes {
        if !is_name(node.name.as_bytes()) {
            return false;
        }
    }
    true
}

fn among_params(name: &[u8], params: &[Param]) -> bool
    ensures { result ≡ is_among name.now (param_names (param_trees params.now)) }
{
    for param in params {
        if same_bytes(name, param.name.as_bytes()) {
            return true;
        }
    }
    false
}

fn among_nodes(name: &[u8], nodes: &[Node]) -> bool
    ensures { result ≡ is_among name.now (node_names (node_trees nodes.now)) }
{
    for node in nodes {
        if same_bytes(name, node.name.as_bytes()) {
            return true;
        }
    }
    false
}

fn among_funcs(name: &[u8], funcs: &[Func]) -> bool
    ensures { result ≡ is_among name.now (func_names (func_trees funcs.now)) }
{
    for func in funcs {
        if same_bytes(name, func.name.as_bytes()) {
            return true;
        }
    }
    false
}

fn distinct_params(params: &[Param]) -> bool
    ensures { result ≡ all_distinct (param_names (param_trees params.now)) }
{
    for (i, param) in params.iter().enumerate() {
        if among_params(param.name.as_bytes(), &params[i + 1..]) {
            return false;
        }
    }
    true
}

fn distinct_nodes(nodes: &[Node]) -> bool
    ensures { result ≡ all_distinct (node_names (node_trees nodes.now)) }
{
    for (i, node) in nodes.iter().enumerate() {
        if among_nodes(node.name.as_bytes(), &nodes[i + 1..]) {
            return false;
        }
    }
    true
}

fn distinct_funcs(funcs: &[Func]) -> bool
    ensures { result ≡ all_distinct (func_names (func_trees funcs.now)) }
{
    for (i, func) in funcs.iter().enumerate() {
        if among_funcs(func.name.as_bytes(), &funcs[i + 1..]) {
            return false;
        }
    }
    true
}

fn are_apart(params: &[Param], nodes: &[Node]) -> bool
    ensures { result ≡ apart (param_names (param_trees params.now)) (node_names (node_trees nodes.now)) }
{
    for param in params {
        if among_nodes(param.name.as_bytes(), nodes) {
            return false;
        }
    }
    true
}

fn named_items(func: &Func) -> bool
    ensures { result ≡ named_items (func_tree func.now) }
{
    let params = func.params.as_slice();
    let nodes = func.nodes.as_slice();
    named_params(params)
        && named_nodes(nodes)
        && distinct_params(params)
        && distinct_nodes(nodes)
        && are_apart(params, nodes)
}

// ---- types

fn has_parts_in_size(t: &SeqType) -> bool
    ensures { result ≡ parts_in_size (seq_tree t.now) }
{
    match t {
        SeqType::Atom(atom) => atom.in_size(),
        SeqType::Seq(count, of) => 1 <= *count && *count <= 4096 && has_parts_in_size(of),
    }
}

fn nests_within(t: &SeqType, levels: u32) -> bool
    ensures { result ≡ nat_le (depth (seq_tree t.now)) levels }
{
    match t {
        SeqType::Atom(_) => true,
        SeqType::Seq(_, of) => levels > 0 && nests_within(of, levels - 1),
    }
}

fn is_unsigned(atom: &Atom) -> bool
    ensures { result ≡ is_unsigned (atom_tree atom.now) }
{
    match atom {
        Atom::Word(_) => true,
        Atom::Int(_) => false,
        Atom::Pair(first, second) => is_unsigned(first) && is_unsigned(second),
    }
}

fn is_spelled(version: u32, t: &SeqType) -> bool
    ensures { result ≡ is_spelled version (seq_tree t.now) }
{
    has_parts_in_size(t) && nests_within(t, 6) && (version == 2 || is_unsigned(t.atom()))
}

// ---- lines

fn within(low: u32, high: u32, n: u32) -> bool
    ensures { result ≡ within low high n }
{
    low <= n && n <= high
}

fn is_word_line(op: WordOp) -> bool
    ensures { result ≡ is_word_line op }
{
    match op {
        WordOp::Shl(k) | WordOp::Shr(k) => k <= 63,
        WordOp::Cast(v) => within(1, 64, v),
        WordOp::SLt | WordOp::SMin | WordOp::SMax | WordOp::Sar(_) | WordOp::SCast(_) => false,
        WordOp::Add | WordOp::Sub | WordOp::Mul => true,
        WordOp::And | WordOp::Or | WordOp::Xor | WordOp::Not => true,
        WordOp::Min | WordOp::Max | WordOp::Eq | WordOp::Lt | WordOp::Mux => true,
    }
}

fn is_line(version: u32, funcs: usize, op: &Op) -> bool
    ensures { result ≡ is_line version funcs (op_tree op.now) }
{
    match op {
        Op::Word(op) => is_word_line(*op),
        Op::CastInt(v) => version == 2 && within(1, 64, *v),
        Op::Const(t, _) => is_spelled(version, t),
        Op::Call(f) | Op::Map(f) | Op::Map2(f) => (*f as usize) < funcs,
        Op::Reduce(op) => folds(*op),
        Op::Scan(op) => version == 2 && folds(*op),
        Op::Shift(k) | Op::Select(k) => *k <= 4096,
        Op::Up(n) => within(1, 4096, *n),
        Op::Partition(n, m) => within(1, 4096, *n) && within(1, 4096, *m),
        Op::Pair | Op::Fst | Op::Snd | Op::Zip | Op::Unpartition => true,
    }
}

/// Whether a line of the operator has so many arguments.
pub fn has_arguments(op: &Op, count: usize) -> bool
    ensures { result ≡ has_arguments (op_tree op.now) count }
{
    match op {
        Op::Word(op) => count == arity(*op) as usize,
        Op::Const(_, _) => count == 0,
        Op::Pair | Op::Zip | Op::Map2(_) => count == 2,
        Op::Call(_) => 1 <= count && count <= 8,
        Op::CastInt(_)
        | Op::Fst
        | Op::Snd
        | Op::Map(_)
        | Op::Reduce(_)
        | Op::Scan(_)
        | Op::Shift(_)
        | Op::Up(_)
        | Op::Select(_)
        | Op::Partition(_, _)
        | Op::Unpartition => count == 1,
    }
}

fn all_below(bound: usize, items: &[u32]) -> bool
    ensures { result ≡ all_below bound items.now }
{
    for item in items {
        if (*item as usize) >= bound {
            return false;
        }
    }
    true
}

// ---- functions

fn formed_params(version: u32, params: &[Param]) -> bool
    ensures { result ≡ formed_params version (param_trees params.now) }
{
    for param in params {
        if !is_spelled(version, &param.ty) {
            return false;
        }
    }
    true
}

fn formed_node(version: u32, funcs: usize, items: usize, node: &Node) -> bool
    ensures { result
        ≡ (is_line version funcs (op_tree node.now.op) && has_arguments (op_tree node.now.op) (length node.now.args.items) && all_below items node.now.args.items) }
{
    is_line(version, funcs, &node.op)
        && has_arguments(&node.op, node.args.len())
        && all_below(items, &node.args)
}

fn formed_nodes(version: u32, funcs: usize, params: usize, nodes: &[Node]) -> bool
    requires { params ≤ 8 }
    ensures { result ≡ formed_nodes version funcs params (node_trees nodes.now) }
{
    for (i, node) in nodes.iter().enumerate() {
        if !formed_node(version, funcs, params + i, node) {
            return false;
        }
    }
    true
}

fn formed_func(version: u32, funcs: usize, results: usize, func: &Func) -> bool
    ensures { result ≡ formed_func version funcs results (func_tree func.now) }
{
    let params = func.params.len();
    let nodes = func.nodes.len();
    is_name(func.name.as_bytes())
        && 1 <= params
        && params <= 8
        && formed_params(version, &func.params)
        && formed_nodes(version, funcs, params, &func.nodes)
        && 1 <= func.results.len()
        && func.results.len() <= results
        && all_below(params + nodes, &func.results)
        && named_items(func)
}

fn most_results(version: u32, later: &[Func]) -> usize
    ensures { result ≡ most_results version (func_trees later.now) }
{
    match later {
        [] => if version == 2 { 8 } else { 1 },
        _ => 1,
    }
}

fn formed_funcs(version: u32, funcs: &[Func]) -> bool
    ensures { result ≡ formed_funcs version 0 (func_trees funcs.now) }
{
    for (i, func) in funcs.iter().enumerate() {
        if !formed_func(version, i, most_results(version, &funcs[i + 1..]), func) {
            return false;
        }
    }
    true
}

fn has_few_lines(version: u32, funcs: &[Func]) -> bool
    ensures { result ≡ nat_le (func_lines (func_trees funcs.now) + (if version == 2 then 1 else 0)) 4096 }
{
    let mut lines = if version == 2 { 1 } else { 0 };
    for func in funcs {
        if func.nodes.len() > 4096 {
            return false;
        }
        lines += 2 + func.nodes.len();
        if lines > 4096 {
            return false;
        }
    }
    true
}
