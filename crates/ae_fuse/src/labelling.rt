// The labels of the words of items: the number of the word of the parameters that each is, or 0 for a word 0.

ghost use Rattle.std.specs.Prelude.{◌≡◌, ◌<◌, ◌≤◌, ◌*◌, ◌/◌, ◌%◌, ◌+◌, ◌++◌, ◌∷◌, [], true, if◌then◌else◌, length, map, IfOk, OnOk, Some, slice_get};
ghost use Rattle.ae_sttype.specs.StTree.{element_words, st_tree};
ghost use Rattle.ae_sttype.specs.Size.{IsInSize};
ghost use Rattle.ae_eval.specs.Stack.{paired};
ghost use Rattle.ae_rewrite.specs.StProgramTree.{first, join, move, second, st_func_tree, st_node_tree};
ghost use Rattle.ae_rewrite.specs.Sound.{IsMoveFrom, item_layouts};
ghost use Rattle.ae_delay.specs.Moving.{op_move, origin_from};
ghost use Rattle.ae_flow.specs.Flow.{layout_words, node_words, parts, words_at};
ghost use Rattle.ae_flow.specs.Fitted.{FitsMove};
ghost use Rattle.ae_gather.specs.Gathers.{origin_word};
ghost use Rattle.ae_fuse.specs.Labels.{IsReady, is_moving, label_from};

use ae_delay::layout;
use ae_rewrite::{MoveOp, StFunc, StNode, StOp};
use ae_sttype::StType;
use std::alloc::{AllocError, Global};

// The label of word `o` of what a move makes of an argument with these labels, where each element has so many words.
fn moved_label(
    how: MoveOp,
    arg_atoms: u32,
    out_atoms: u32,
    words: u32,
    labels: &[u32],
    o: u32,
) -> u32
    requires from { IsMoveFrom how arg_atoms out_atoms }
    requires some_atoms { 0 < arg_atoms }
    requires some { 0 < words }
    requires few { arg_atoms * words ≤ 16384 }
    requires long { length labels.now ≡ arg_atoms * words }
    requires below { o < out_atoms * words }
    ensures { result ≡ label_from labels.now words (origin_from how arg_atoms out_atoms (o / words) (o % words)) }
{
    match how {
        MoveOp::Shift(k) if o < k * words => 0,
        MoveOp::Shift(k) => labels[(o - k * words) as usize],
        MoveOp::Up(_) => labels[(o % (arg_atoms * words)) as usize],
        MoveOp::Select(k) => labels[(k * out_atoms * words + o) as usize],
        MoveOp::Same => labels[o as usize],
    }
}

// The labels of what a move makes of its argument.
fn moved_labels(
    alloc: Global,
    how: MoveOp,
    arg: &StType,
    out: &StType,
    labels: &[u32],
) -> Result<Vec<u32>, AllocError>
    requires arg { IsInSize (st_tree arg.now) }
    requires out { IsInSize (st_tree out.now) }
    requires fits { FitsMove how (st_tree arg.now) (st_tree out.now) }
    requires long { length labels.now ≡ layout_words (st_tree arg.now) }
    ensures { IfOk result (λ v. v.items ≡ map (origin_word (st_tree arg.now ∷ []) (labels.now ∷ [])) (op_move how (st_tree arg.now) (st_tree out.now)).origins) }
{
    let words = arg.element_words();
    let (arg_atoms, out_atoms) = (arg.atoms(), out.atoms());
    let count = out_atoms * words;
    let mut moved = Vec::with_capacity(alloc, count as usize)?;
    for o in 0..count {
        moved.push(moved_label(how, arg_atoms, out_atoms, words, labels, o))?;
    }
    Ok(moved)
}

// More labels at the end.
fn add(labels: &mut Vec<u32>, more: &[u32]) -> Result<(), AllocError>
    ensures { OnOk result (labels.new.items ≡ labels.old.items ++ more.now) }
{
    labels.extend_from_slice(more)?;
    Ok(())
}

// Of each of `count` pieces of `size` labels, `part` labels from number `from` on.
fn part_labels(
    alloc: Global,
    labels: &[u32],
    count: usize,
    size: usize,
    from: usize,
    part: usize,
) -> Result<Vec<u32>, AllocError>
    requires long { length labels.now ≡ count * size }
    requires inside { from + part ≤ size }
    ensures { IfOk result (λ v. v.items ≡ parts count size from part labels.now) }
{
    let mut taken = Vec::new(alloc);
    for piece in 0..count {
        let first = piece * size + from;
        add(&mut taken, &labels[first..first + part])?;
    }
    Ok(taken)
}

// `count` times `size` labels of the one and then `other` of the second.
fn paired_labels(
    alloc: Global,
    first: &[u32],
    second: &[u32],
    count: usize,
    size: usize,
    other: usize,
) -> Result<Vec<u32>, AllocError>
    requires first { length first.now ≡ count * size }
    requires second { length second.now ≡ count * other }
    ensures { IfOk result (λ v. v.items ≡ paired count size other first.now second.now) }
{
    let mut both = Vec::new(alloc);
    for piece in 0..count {
        add(&mut both, &first[piece * size..piece * size + size])?;
        add(&mut both, &second[piece * other..piece * other + other])?;
    }
    Ok(both)
}

// The number of argument k of a node.
fn argument(node: &StNode, k: usize) -> usize
    requires { k < length node.now.args.items }
    ensures { slice_get node.now.args.items k ≡ Some result }
{
    node.args[k] as usize
}

/// The labels of an item.
pub(crate) fn labels_at(labels: &[Vec<u32>], item: usize) -> &[u32]
    requires { item < length labels.now }
    ensures { result.now ≡ words_at (map (λ w. w.items) labels.now) item }
{
    labels[item].as_slice()
}

// The labels of what a move makes.
fn move_node(
    alloc: Global,
    how: MoveOp,
    s: &StFunc,
    node: &StNode,
    labels: &[Vec<u32>],
) -> Result<Vec<u32>, AllocError>
    requires ready { IsReady (st_func_tree s.now) (st_node_tree node.now) (map (λ w. w.items) labels.now) }
    requires is { (st_node_tree node.now).op ≡ move how }
    ensures { IfOk result (λ v. v.items ≡ node_words [] (item_layouts (st_func_tree s.now)) (map (λ w. w.items) labels.now) (st_node_tree node.now)) }
{
    let arg = argument(node, 0);
    moved_labels(alloc, how, layout(s, arg), &node.ty, labels_at(labels, arg))
}

// The labels of pairs.
fn pair_node(
    alloc: Global,
    s: &StFunc,
    node: &StNode,
    labels: &[Vec<u32>],
) -> Result<Vec<u32>, AllocError>
    requires ready { IsReady (st_func_tree s.now) (st_node_tree node.now) (map (λ w. w.items) labels.now) }
    requires is { (st_node_tree node.now).op ≡ join }
    ensures { IfOk result (λ v. v.items ≡ node_words [] (item_layouts (st_func_tree s.now)) (map (λ w. w.items) labels.now) (st_node_tree node.now)) }
{
    let one = argument(node, 0);
    let two = argument(node, 1);
    let count = node.ty.atoms() as usize;
    let size = layout(s, one).element_words() as usize;
    let other = layout(s, two).element_words() as usize;
    paired_labels(
        alloc,
        labels_at(labels, one),
        labels_at(labels, two),
        count,
        size,
        other,
    )
}

// The labels of the first or the second of pairs.
fn part_node(
    alloc: Global,
    s: &StFunc,
    node: &StNode,
    labels: &[Vec<u32>],
    is_first: bool,
) -> Result<Vec<u32>, AllocError>
    requires ready { IsReady (st_func_tree s.now) (st_node_tree node.now) (map (λ w. w.items) labels.now) }
    requires is { (st_node_tree node.now).op ≡ (if is_first then first else second) }
    ensures { IfOk result (λ v. v.items ≡ node_words [] (item_layouts (st_func_tree s.now)) (map (λ w. w.items) labels.now) (st_node_tree node.now)) }
{
    let arg = argument(node, 0);
    let count = node.ty.atoms() as usize;
    let size = layout(s, arg).element_words() as usize;
    let part = node.ty.element_words() as usize;
    let from = if is_first { 0 } else { size - part };
    part_labels(alloc, labels_at(labels, arg), count, size, from, part)
}

/// The labels of a node, by those of its arguments; an error only for want of memory.
pub(crate) fn node_labels(
    alloc: Global,
    s: &StFunc,
    node: &StNode,
    labels: &[Vec<u32>],
) -> Result<Vec<u32>, AllocError>
    requires ready { IsReady (st_func_tree s.now) (st_node_tree node.now) (map (λ w. w.items) labels.now) }
    requires moves { is_moving (st_node_tree node.now).op ≡ true }
    ensures { IfOk result (λ v. v.items ≡ node_words [] (item_layouts (st_func_tree s.now)) (map (λ w. w.items) labels.now) (st_node_tree node.now)) }
{
    match &node.op {
        StOp::Move(how) => move_node(alloc, *how, s, node, labels),
        StOp::Join => pair_node(alloc, s, node, labels),
        StOp::First => part_node(alloc, s, node, labels, true),
        StOp::Second => part_node(alloc, s, node, labels, false),
        StOp::Word(_) | StOp::Fixed(_) | StOp::Fold { .. } | StOp::Scan { .. } | StOp::Body(_) =>
            unreachable!(),
    }
}
