// Whether constants, selects and concatenations keep their bounds.

ghost use Rattle.std.specs.Prelude.{ℕ, List, ◌≡◌, ◌+◌, ◌<◌, ◌≤◌, ◌^◌, ◌||◌, if◌then◌else◌, true, false, length, map, min, nat_lt, IfNone, IfSome};
ghost use Rattle.std.specs.List.{list_any};
ghost use Rattle.ae_vmodule.specs.View.{drive_tree, expr_tree, item_tree, net_tree, stmt_tree, word_at};
ghost use Rattle.ae_vmodule.specs.Roots.{numbered, numbered_stmt};
ghost use Rattle.ae_judge.specs.Widths.{declared_width, own_width, unary_width, binary_width};
ghost use Rattle.ae_judge.specs.Faults.{is_outside, is_too_wide, is_too_wide_in_stmt, is_too_wide_in_drive, is_too_wide_in_item, is_too_large};
ghost use Rattle.ae_judge.specs.Names.{is_memory_name};
ghost use Rattle.ae_judge.specs.Symbols.{is_bounded};
ghost use Rattle.ae_vmodule.specs.ModuleTree.{concat_more};
ghost use Rattle.ae_judge.specs.Judging.{first_from, first_too_large};

use crate::names::{Names, depth_of_kind};
use ae_vmodule::{
    BinOp, Drive, Expr, ItemParts, PackedNet, Root, Stmt, StmtRoot, Symbol, UnOp, VItem,
};

/// The own width of a prefix whose operand has this.
fn unary_width(op: UnOp, a: u32) -> u32
    ensures { result ≡ unary_width op a }
{
    match op {
        UnOp::Not => 1,
        UnOp::Flip => a,
    }
}

/// The own width of an operator whose operands have these.
fn binary_width(op: BinOp, a: u32, b: u32) -> u32
    ensures { result ≡ binary_width op a b }
{
    match op {
        BinOp::Mul | BinOp::Add | BinOp::Sub | BinOp::And | BinOp::Xor | BinOp::Or => a.max(b),
        BinOp::Shl | BinOp::Shr => a,
        BinOp::Lt
        | BinOp::Le
        | BinOp::Gt
        | BinOp::Ge
        | BinOp::Eq
        | BinOp::Ne
        | BinOp::Both
        | BinOp::Either => 1,
    }
}

/// Whether an index of so many bits, where 65 stands for any number above 64, may be so great.
fn may_reach(depth: u32, index_width: u32) -> bool
    ensures { (w : ℕ) → min w 65 ≡ index_width → result ≡ nat_lt depth (2 ^ w) }
{
    index_width >= 32 || u64::from(depth) < 1u64 << index_width
}

/// Whether an index of the name, of so many bits by itself, may lie outside: of a bit, of its width; of a word of a memory,
/// of its depth.
fn is_outside(names: &Names<'_>, name: u32, at: Expr<'_>, index_width: u32) -> bool
    requires { min (own_width names.now.nets (expr_tree names.now.words (numbered at))) 65 ≡ index_width }
    ensures { result ≡ is_outside names.now.nets (word_at names.now.words name) (expr_tree names.now.words (numbered at.entry)) }
{
    let is_memory = names.is_memory(name);
    if let Root::Place(place) = at.root() {
        let bound = if is_memory {
            names.depth(name)
        } else {
            names.width(name)
        };
        return bound <= place;
    }
    is_memory && may_reach(names.depth(name), index_width)
}

/// The own width of one bit or one word of a name.
fn element_width(names: &Names<'_>, name: u32) -> u32
    ensures { result ≡ min (if is_memory_name names.now.nets (word_at names.now.words name) then declared_width names.now.nets (word_at names.now.words name) else 1) 65 }
{
    if names.is_memory(name) {
        names.width(name).min(65)
    } else {
        1
    }
}

/// The own width of an expression in bits, where one above 64 is 65; none where in it a constant does not fit, a select or
/// an index may lie outside, or a concatenation has more than 64 bits.
#[cycle(wide)]
fn width_within(names: &Names<'_>, value: Expr<'_>) -> Option<u32>
    ensures none { IfNone result (is_too_wide names.now.nets (expr_tree names.now.words (numbered value.entry)) ≡ true) }
    ensures some { IfSome result (λ w. is_too_wide names.now.nets (expr_tree names.now.words (numbered value.entry)) ≡ false) }
    ensures width { IfSome result (λ w. min (own_width names.now.nets (expr_tree names.now.words (numbered value.entry))) 65 ≡ w) }
{
    match value.root() {
        Root::Name(name) => Some(names.width(name).min(65)),
        Root::Const { size, fits, .. } => {
            if !fits {
                return None;
            }
            Some(u32::from(size).min(65))
        }
        Root::Place(_) => Some(0),
        Root::Part { name, high, low } => {
            if high < low || names.width(name) <= high {
                return None;
            }
            Some((high - low).min(64) + 1)
        }
        Root::Index { name, at } => {
            let index_width = width_within(names, at)?;
            if is_outside(names, name, at, index_width) {
                return None;
            }
            Some(element_width(names, name))
        }
        Root::Unary(op, a) => {
            let own = width_within(names, a)?;
            Some(unary_width(op, own))
        }
        Root::Binary(op, a, b) => {
            let left = width_within(names, a)?;
            let right = width_within(names, b)?;
            Some(binary_width(op, left, right))
        }
        Root::Choose(test, a, b) => {
            let _test = width_within(names, test)?;
            let left = width_within(names, a)?;
            let right = width_within(names, b)?;
            Some(left.max(right))
        }
        Root::One(a) => {
            let own = width_within(names, a)?;
            sum_within(own, 0)
        }
        Root::More(a, rest) => total_within(names, a, rest),
    }
}

/// The sum of the own widths of the parts of a concatenation; none where there is none of a part, or the sum is above 64.
#[cycle(wide)]
fn total_within(names: &Names<'_>, first: Expr<'_>, rest: Expr<'_>) -> Option<u32>
    ensures none { IfNone result (is_too_wide names.now.nets (concat_more (expr_tree names.now.words (numbered first.entry)) (expr_tree names.now.words (numbered rest.entry))) ≡ true) }
    ensures some { IfSome result (λ w. is_too_wide names.now.nets (concat_more (expr_tree names.now.words (numbered first.entry)) (expr_tree names.now.words (numbered rest.entry))) ≡ false) }
    ensures width { IfSome result (λ w. min (own_width names.now.nets (concat_more (expr_tree names.now.words (numbered first.entry)) (expr_tree names.now.words (numbered rest.entry)))) 65 ≡ w) }
{
    let mut total = width_within(names, first)?;
    let mut parts = rest;
    'part: loop {
        match parts.root() {
            Root::More(part, more) => {
                let own = width_within(names, part)?;
                total = (total + own).min(65);
                parts = more;
            }
            _ => {
                let last = width_within(names, parts)?;
                return sum_within(total, last);
            }
        }
    }
}

/// The sum of two widths, where it is at most 64.
fn sum_within(a: u32, b: u32) -> Option<u32>
    requires a { a ≤ 65 }
    requires b { b ≤ 65 }
    ensures none { IfNone result (64 < a + b) }
    ensures some { IfSome result (λ w. (w ≡ a + b) × (w ≤ 64)) }
{
    let sum = a + b;
    if sum > 64 { None } else { Some(sum) }
}

fn is_bounded(symbol: Symbol) -> bool
    ensures { result ≡ is_bounded symbol }
{
    match symbol {
        Symbol::Const { fits, .. } => !fits,
        Symbol::Part(_) | Symbol::Index(_) | Symbol::One | Symbol::More(_) => true,
        Symbol::Name(_) | Symbol::Number(_) | Symbol::Unary(_) | Symbol::Binary(_, _) => false,
        Symbol::Choose(_, _) => false,
        Symbol::Set(_) | Symbol::Put(_, _) | Symbol::When(_) | Symbol::Either(_, _) => false,
        Symbol::End | Symbol::Then(_) => false,
    }
}

fn any_bounded(symbols: &[Symbol]) -> bool
    ensures { result ≡ list_any is_bounded symbols.now }
{
    'symbol: for symbol in symbols {
        if is_bounded(*symbol) {
            return true;
        }
    }
    false
}

/// Whether in the expression a constant does not fit, a select or an index may lie outside, or a concatenation has more
/// than 64 bits. Most expressions have none of these, and then no widths are looked up.
#[tactic(auto, using(crate::proofs::Bounded::narrow))]
pub fn is_too_wide(names: &Names<'_>, value: Expr<'_>) -> bool
    ensures { result ≡ is_too_wide names.now.nets (expr_tree names.now.words (numbered value.entry)) }
{
    if !any_bounded(value.symbols()) {
        return false;
    }
    match width_within(names, value) {
        Some(_) => false,
        None => true,
    }
}

/// Whether the index or the value of an assignment to a word of a memory is so, or the index may lie outside.
fn is_too_wide_put(names: &Names<'_>, name: u32, at: Expr<'_>, value: Expr<'_>) -> bool
    ensures { result ≡ (is_too_wide names.now.nets (expr_tree names.now.words (numbered at.entry)) || (is_outside names.now.nets (word_at names.now.words name) (expr_tree names.now.words (numbered at.entry)) || is_too_wide names.now.nets (expr_tree names.now.words (numbered value.entry)))) }
{
    match width_within(names, at) {
        Some(index_width) => {
            is_outside(names, name, at, index_width) || is_too_wide(names, value)
        }
        None => true,
    }
}

#[cycle(wide_stmt)]
pub fn is_too_wide_in_stmt(names: &Names<'_>, whole: Stmt<'_>) -> bool
    ensures { result ≡ is_too_wide_in_stmt names.now.nets (stmt_tree names.now.words (numbered_stmt whole.entry)) }
{
    let mut stmt = whole;
    'stmt: loop {
        match stmt.root() {
            StmtRoot::Set { value, .. } => return is_too_wide(names, value),
            StmtRoot::Put { name, at, value } => return is_too_wide_put(names, name, at, value),
            StmtRoot::When(test, then) => {
                if is_too_wide(names, test) {
                    return true;
                }
                stmt = then;
            }
            StmtRoot::Either(test, then, otherwise) => {
                if is_too_wide(names, test) || is_too_wide_in_stmt(names, then) {
                    return true;
                }
                stmt = otherwise;
            }
            StmtRoot::End => return false,
            StmtRoot::Then(first, rest) => {
                if is_too_wide_in_stmt(names, first) {
                    return true;
                }
                stmt = rest;
            }
        }
    }
}

pub fn any_too_wide_drive(names: &Names<'_>, drives: &[Drive]) -> bool
    ensures { result ≡ list_any (is_too_wide_in_drive names.now.nets) (map (drive_tree names.now.words) drives.now) }
{
    'drive: for drive in drives {
        if is_too_wide(names, drive.value.expr()) {
            return true;
        }
    }
    false
}

/// Whether a name is wider than 64 bits or a memory deeper than 65,536 words.
fn is_too_large(net: &PackedNet) -> bool
    ensures { (ws : List (List ℕ)) → result ≡ is_too_large (net_tree ws net.now) }
{
    net.width() > 64 || depth_of_kind(net.kind()) > 65536
}

/// The item of the first net that is.
pub fn first_too_large(names: &Names<'_>, nets: &[PackedNet]) -> Option<u32>
    ensures { result ≡ first_too_large (map (net_tree names.now.words) nets.now) }
{
    'net: for net in nets {
        if is_too_large(net) {
            return Some(net.item());
        }
    }
    None
}

fn is_too_wide_in_item(names: &Names<'_>, item: &VItem) -> bool
    ensures { result ≡ is_too_wide_in_item names.now.nets (item_tree names.now.words item.now) }
{
    match item.parts() {
        ItemParts::Nets(drives) => any_too_wide_drive(names, drives),
        ItemParts::Assign(drives) => any_too_wide_drive(names, drives),
        ItemParts::Always { body, .. } => is_too_wide_in_stmt(names, body),
    }
}

/// The number of the first item in which a constant, a select or a concatenation is out of its bounds.
pub fn first_too_wide(names: &Names<'_>, items: &[VItem]) -> Option<u32>
    requires few { length items.now < 2 ^ 32 }
    ensures { result ≡ first_from (λ _. is_too_wide_in_item names.now.nets) 1 (map (item_tree names.now.words) items.now) }
{
    let mut number: u32 = 0;
    'item: for item in items {
        number += 1;
        if is_too_wide_in_item(names, item) {
            return Some(number);
        }
    }
    None
}
