// The weight of a module, which bounds the netlist that is built of it.

ghost use Rattle.std.specs.Prelude.{ℕ, List, false, ◌≡◌, ◌+◌, ◌↔◌, if◌then◌else◌, IsTrue, map, min, sum_by};
ghost use Rattle.ae_vmodule.specs.Roots.{numbered, numbered_stmt};
ghost use Rattle.ae_vmodule.specs.View.{drive_tree, expr_tree, item_tree, module_tree, stmt_tree};
ghost use Rattle.ae_judge.specs.Symbols.{is_constant, symbol_weight, symbols_weight, weight_by};
ghost use Rattle.ae_judge.specs.Weight.{expr_weight, stmt_weight, drive_weight, item_weight};
ghost use Rattle.ae_judge.specs.Faults.{IsLarge};

use crate::kinds::is_number;
use ae_vmodule::{BinOp, Drive, Expr, ItemParts, Stmt, StmtRoot, Symbol, VItem, VModule};

/// The least weight of a module that is not built. Greater weights are not told apart from it.
const LARGE: u32 = 10_000_001;

fn heavier(a: u32, b: u32) -> u32
    ensures { result ≡ min (a + b) 10000001 }
{
    a.saturating_add(b).min(LARGE)
}

fn one_if(b: bool) -> u32
    ensures { result ≡ (if b then 1 else 0) }
{
    if b { 1 } else { 0 }
}

/// The weight of an operator whose right operand is a constant or not: a shift by no constant stands for six shifts by a
/// constant.
fn weight_by(fixed: bool, op: BinOp) -> u32
    ensures { result ≡ weight_by fixed op }
{
    match op {
        BinOp::Shl | BinOp::Shr => { if fixed { 1 } else { 6 } }
        BinOp::Mul | BinOp::Add | BinOp::Sub => 1,
        BinOp::Lt | BinOp::Le | BinOp::Gt | BinOp::Ge | BinOp::Eq | BinOp::Ne => 1,
        BinOp::And | BinOp::Xor | BinOp::Or | BinOp::Both | BinOp::Either => 1,
    }
}

/// The weight of a symbol, with that of a decimal number right before it, which `placed` says is there; `fixed` says whether a
/// constant is.
fn symbol_weight(placed: bool, fixed: bool, symbol: Symbol) -> u32
    ensures { result ≡ symbol_weight placed fixed symbol }
{
    match symbol {
        Symbol::Part(_) => 0,
        Symbol::Name(_) | Symbol::Number(_) => one_if(placed),
        Symbol::Binary(op, _) => one_if(placed) + weight_by(fixed, op),
        Symbol::Const { .. } | Symbol::Index(_) | Symbol::Unary(_) => one_if(placed) + 1,
        Symbol::Choose(_, _) | Symbol::One | Symbol::More(_) => one_if(placed) + 1,
        Symbol::Set(_) | Symbol::Put(_, _) | Symbol::When(_) | Symbol::Either(_, _) => one_if(
            placed,
        ),
        Symbol::End | Symbol::Then(_) => one_if(placed),
    }
}

fn is_constant(symbol: Symbol) -> bool
    ensures { result ≡ is_constant symbol }
{
    matches!(symbol, Symbol::Const { .. })
}

fn symbols_weight(symbols: &[Symbol]) -> u32
    ensures { result ≡ min (symbols_weight false false symbols.now) 10000001 }
{
    let mut total: u32 = 0;
    let mut placed = false;
    let mut fixed = false;
    'symbol: for symbol in symbols {
        total = heavier(total, symbol_weight(placed, fixed, *symbol));
        placed = is_number(*symbol);
        fixed = is_constant(*symbol);
    }
    heavier(total, one_if(placed))
}

/// One for each part of a concatenation, beside the weights of the parts.
fn expr_weight(whole: Expr<'_>) -> u32
    ensures { (ws : List (List ℕ)) → result ≡ min (expr_weight (expr_tree ws (numbered whole.entry))) 10000001 }
{
    symbols_weight(whole.symbols())
}

/// The weight of a statement with so many `if` round it, which counts them once for each assignment.
#[cycle(weigh_stmt)]
fn stmt_weight(ifs: u32, whole: Stmt<'_>) -> u32
    ensures { (ws : List (List ℕ)) → result ≡ min (stmt_weight ifs (stmt_tree ws (numbered_stmt whole.entry))) 10000001 }
{
    let mut total: u32 = 0;
    let mut stmt = whole;
    'stmt: loop {
        match stmt.root() {
            StmtRoot::Set { value, .. } => return heavier(
                total,
                heavier(heavier(1, ifs), expr_weight(value)),
            ),
            StmtRoot::Put { at, value, .. } => {
                let parts = heavier(expr_weight(at), expr_weight(value));
                return heavier(total, heavier(heavier(1, ifs), parts));
            }
            StmtRoot::When(test, then) => {
                let taken = stmt_weight(heavier(ifs, 1), then);
                return heavier(total, heavier(1, heavier(expr_weight(test), taken)));
            }
            StmtRoot::Either(test, then, otherwise) => {
                let taken = stmt_weight(heavier(ifs, 1), then);
                let other = stmt_weight(heavier(ifs, 1), otherwise);
                return heavier(
                    total,
                    heavier(1, heavier(expr_weight(test), heavier(taken, other))),
                );
            }
            StmtRoot::End => return total,
            StmtRoot::Then(first, rest) => {
                total = heavier(total, stmt_weight(ifs, first));
                stmt = rest;
            }
        }
    }
}

fn drives_weight(drives: &[Drive]) -> u32
    ensures { (ws : List (List ℕ)) → result ≡ min (sum_by drive_weight (map (drive_tree ws) drives.now)) 10000001 }
{
    let mut total: u32 = 0;
    'drive: for drive in drives {
        total = heavier(total, heavier(1, expr_weight(drive.value.expr())));
    }
    total
}

fn item_weight(item: &VItem) -> u32
    ensures { (ws : List (List ℕ)) → result ≡ min (item_weight (item_tree ws item.now)) 10000001 }
{
    match item.parts() {
        ItemParts::Nets(drives) => drives_weight(drives),
        ItemParts::Assign(drives) => drives_weight(drives),
        ItemParts::Always { body, .. } => stmt_weight(0, body),
    }
}

fn items_weight(items: &[VItem]) -> u32
    ensures { (ws : List (List ℕ)) → result ≡ min (sum_by item_weight (map (item_tree ws) items.now)) 10000001 }
{
    let mut total: u32 = 0;
    'item: for item in items {
        total = heavier(total, item_weight(item));
    }
    total
}

/// Whether the weight of the module is above 10,000,000, in time linear in the module.
pub fn is_large(m: &VModule<'_>) -> bool
    ensures { IsTrue result ↔ IsLarge (module_tree m.now) }
{
    let nets = m.nets.len().min(LARGE as usize) as u32;
    heavier(nets, items_weight(&m.items)) >= LARGE
}
