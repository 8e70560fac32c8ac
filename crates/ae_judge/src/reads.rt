// The names that expressions and statements read and assign, by their numbers.

ghost use Rattle.std.specs.Prelude.{ℕ, List, ◌≡◌, ◌++◌, ◌∷◌, [], IfOk, OnOk, flat_map, map};
ghost use Rattle.ae_vmodule.specs.Roots.{numbered, numbered_stmt};
ghost use Rattle.ae_vmodule.specs.View.{drive_tree, expr_tree, item_tree, stmt_tree, word_at};
ghost use Rattle.ae_judge.specs.Names.{drive_reads, item_reads, item_targets, names_in, stmt_reads, stmt_targets, target_of};

use ae_vmodule::{Drive, Expr, ItemParts, Root, Stmt, StmtRoot, VItem};
use std::alloc::{AllocError, Global};

/// Puts a name behind others.
pub fn push_name(name: u32, into: &mut Vec<u32>) -> Result<(), AllocError>
    ensures { (ws : List (List ℕ)) → OnOk result (map (word_at ws) into.new.items ≡ map (word_at ws) into.old.items ++ word_at ws name ∷ []) }
{
    into.push(name)?;
    Ok(())
}

/// Puts the names that an expression reads behind others.
#[cycle(names)]
fn push_names(whole: Expr<'_>, into: &mut Vec<u32>) -> Result<(), AllocError>
    ensures { (ws : List (List ℕ)) → OnOk result (map (word_at ws) into.new.items ≡ map (word_at ws) into.old.items ++ names_in (expr_tree ws (numbered whole.entry))) }
{
    let mut value = whole;
    'part: loop {
        match value.root() {
            Root::Name(name) | Root::Part { name, .. } => return push_name(name, into),
            Root::Const { .. } | Root::Place(_) => return Ok(()),
            Root::Index { name, at } => {
                push_name(name, into)?;
                value = at;
            }
            Root::Unary(_, a) => value = a,
            Root::Binary(_, a, b) => {
                push_names(a, into)?;
                value = b;
            }
            Root::Choose(test, a, b) => {
                push_names(test, into)?;
                push_names(a, into)?;
                value = b;
            }
            Root::One(a) => value = a,
            Root::More(a, rest) => {
                push_names(a, into)?;
                value = rest;
            }
        }
    }
}

/// Puts the names that a statement's expressions read behind others.
#[cycle(stmt_reads)]
fn push_stmt_reads(whole: Stmt<'_>, into: &mut Vec<u32>) -> Result<(), AllocError>
    ensures { (ws : List (List ℕ)) → OnOk result (map (word_at ws) into.new.items ≡ map (word_at ws) into.old.items ++ stmt_reads (stmt_tree ws (numbered_stmt whole.entry))) }
{
    let mut stmt = whole;
    'stmt: loop {
        match stmt.root() {
            StmtRoot::Set { value, .. } => return push_names(value, into),
            StmtRoot::Put { at, value, .. } => {
                push_names(at, into)?;
                push_names(value, into)?;
                return Ok(());
            }
            StmtRoot::When(test, then) => {
                push_names(test, into)?;
                stmt = then;
            }
            StmtRoot::Either(test, then, otherwise) => {
                push_names(test, into)?;
                push_stmt_reads(then, into)?;
                stmt = otherwise;
            }
            StmtRoot::End => return Ok(()),
            StmtRoot::Then(first, rest) => {
                push_stmt_reads(first, into)?;
                stmt = rest;
            }
        }
    }
}

/// Puts the names that a statement assigns behind others, in order.
#[cycle(stmt_targets)]
fn push_stmt_targets(whole: Stmt<'_>, into: &mut Vec<u32>) -> Result<(), AllocError>
    ensures { (ws : List (List ℕ)) → OnOk result (map (word_at ws) into.new.items ≡ map (word_at ws) into.old.items ++ stmt_targets (stmt_tree ws (numbered_stmt whole.entry))) }
{
    let mut stmt = whole;
    'stmt: loop {
        match stmt.root() {
            StmtRoot::Set { name, .. } | StmtRoot::Put { name, .. } => return push_name(name, into),
            StmtRoot::When(_, then) => stmt = then,
            StmtRoot::Either(_, then, otherwise) => {
                push_stmt_targets(then, into)?;
                stmt = otherwise;
            }
            StmtRoot::End => return Ok(()),
            StmtRoot::Then(first, rest) => {
                push_stmt_targets(first, into)?;
                stmt = rest;
            }
        }
    }
}

fn push_drive_reads(drives: &[Drive], into: &mut Vec<u32>) -> Result<(), AllocError>
    ensures { (ws : List (List ℕ)) → OnOk result (map (word_at ws) into.new.items ≡ map (word_at ws) into.old.items ++ flat_map drive_reads (map (drive_tree ws) drives.now)) }
{
    'drive: for drive in drives {
        push_names(drive.value.expr(), into)?;
    }
    Ok(())
}

fn push_drive_targets(drives: &[Drive], into: &mut Vec<u32>) -> Result<(), AllocError>
    ensures { (ws : List (List ℕ)) → OnOk result (map (word_at ws) into.new.items ≡ map (word_at ws) into.old.items ++ map target_of (map (drive_tree ws) drives.now)) }
{
    'drive: for drive in drives {
        push_name(drive.name, into)?;
    }
    Ok(())
}

/// Puts the names that an item's expressions read behind others.
pub fn push_item_reads(item: &VItem, into: &mut Vec<u32>) -> Result<(), AllocError>
    ensures { (ws : List (List ℕ)) → OnOk result (map (word_at ws) into.new.items ≡ map (word_at ws) into.old.items ++ item_reads (item_tree ws item.now)) }
{
    match item.parts() {
        ItemParts::Nets(drives) => push_drive_reads(drives, into),
        ItemParts::Assign(drives) => push_drive_reads(drives, into),
        ItemParts::Always { body, .. } => push_stmt_reads(body, into),
    }
}

/// Puts the names that an item drives behind others, in order.
pub fn push_item_targets(item: &VItem, into: &mut Vec<u32>) -> Result<(), AllocError>
    ensures { (ws : List (List ℕ)) → OnOk result (map (word_at ws) into.new.items ≡ map (word_at ws) into.old.items ++ item_targets (item_tree ws item.now)) }
{
    match item.parts() {
        ItemParts::Nets(drives) => push_drive_targets(drives, into),
        ItemParts::Assign(drives) => push_drive_targets(drives, into),
        ItemParts::Always { body, .. } => push_stmt_targets(body, into),
    }
}

/// The names that an item's expressions read.
pub fn item_reads(alloc: Global, item: &VItem) -> Result<Vec<u32>, AllocError>
    ensures { (ws : List (List ℕ)) → IfOk result (λ v. map (word_at ws) v.items ≡ item_reads (item_tree ws item.now)) }
{
    let mut names = Vec::new(alloc);
    push_item_reads(item, &mut names)?;
    Ok(names)
}

/// The names that an item drives, in order.
pub fn item_targets(alloc: Global, item: &VItem) -> Result<Vec<u32>, AllocError>
    ensures { (ws : List (List ℕ)) → IfOk result (λ v. map (word_at ws) v.items ≡ item_targets (item_tree ws item.now)) }
{
    let mut names = Vec::new(alloc);
    push_item_targets(item, &mut names)?;
    Ok(names)
}
