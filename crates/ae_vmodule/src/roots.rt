// The outermost parts of expressions and statements.

ghost use Rattle.std.specs.Prelude.{ℕ, List, ◌≡◌, ◌<◌, ◌+◌, ◌*◌, ◌^◌};
ghost use Rattle.ae_vmodule.specs.Numbered.{NumberedExpr, NumberedStmt};
ghost use Rattle.ae_vmodule.specs.Postfix.{AreHalves, AreThirds, HasCode, HasHalves, HasRoot, HasStmtCode, HasStmtRoot, HasThirds, IsBehind, IsStmtBehind, coded, coded_stmt, name_read};
ghost use Rattle.ae_vmodule.specs.declared.symbols.Symbol.{Symbol};
ghost use Rattle.ae_vmodule.specs.declared.symbols.Symbol.TheVariants.{Number};
ghost use Rattle.ae_vmodule.specs.Roots.{code_expr, code_stmt, numbered, numbered_stmt, root_expr, root_stmt};

use crate::symbols::{Code, Expr, Root, Stmt, StmtCode, StmtRoot, Symbol};

/// A number by its halves.
fn joined(high: u32, low: u32) -> u64
    ensures { result ≡ high * 2 ^ 32 + low }
{
    (u64::from(high) << 32) + u64::from(low)
}

/// The expression that all symbols are.
#[inline(always)]
fn whole<'m>(symbols: &'m [Symbol]) -> Expr<'m>
    requires { HasCode symbols.now }
    ensures { (a : NumberedExpr) → symbols.now ≡ coded a → numbered result ≡ a }
{
    Expr { symbols }
}

/// The statement that all symbols are.
#[inline(always)]
fn whole_stmt<'m>(symbols: &'m [Symbol]) -> Stmt<'m>
    requires { HasStmtCode symbols.now }
    ensures { (s : NumberedStmt) → symbols.now ≡ coded_stmt s → numbered_stmt result ≡ s }
{
    Stmt { symbols }
}

/// Symbols in two parts, of which the second has so many.
#[inline(always)]
fn halves<'m>(symbols: &'m [Symbol], size: u32) -> (&'m [Symbol], &'m [Symbol])
    requires { HasHalves symbols.now size }
    ensures first { (a b : List Symbol) → AreHalves symbols.now size a b → result.0.now ≡ a }
    ensures second { (a b : List Symbol) → AreHalves symbols.now size a b → result.1.now ≡ b }
{
    symbols.split_at(symbols.len() - size as usize)
}

/// Symbols in three parts, of which the last two have so many.
#[inline(always)]
fn thirds<'m>(
    symbols: &'m [Symbol],
    size_a: u32,
    size_b: u32,
) -> (&'m [Symbol], &'m [Symbol], &'m [Symbol])
    requires { HasThirds symbols.now size_a size_b }
    ensures test { (test a b : List Symbol) → AreThirds symbols.now size_a size_b test a b → result.0.now ≡ test }
    ensures first { (test a b : List Symbol) → AreThirds symbols.now size_a size_b test a b → result.1.now ≡ a }
    ensures second { (test a b : List Symbol) → AreThirds symbols.now size_a size_b test a b → result.2.now ≡ b }
{
    let arms = size_a as usize + size_b as usize;
    let (test, behind) = symbols.split_at(symbols.len() - arms);
    let (first, second) = halves(behind, size_b);
    (test, first, second)
}

fn bound(symbol: Symbol) -> u32
    ensures { (p : ℕ) → symbol ≡ Number p → result ≡ p }
{
    match symbol {
        Symbol::Number(p) => p,
        Symbol::Name(_)
        | Symbol::Const { .. }
        | Symbol::Part(_)
        | Symbol::Index(_)
        | Symbol::Unary(_)
        | Symbol::Binary(_, _)
        | Symbol::Choose(_, _)
        | Symbol::One
        | Symbol::More(_)
        | Symbol::Set(_)
        | Symbol::Put(_, _)
        | Symbol::When(_)
        | Symbol::Either(_, _)
        | Symbol::End
        | Symbol::Then(_) => 0,
    }
}

/// The outermost part of the expression whose last symbol is this one, behind those.
#[inline(always)]
fn behind<'m>(last: Symbol, front: &'m [Symbol]) -> Root<'m>
    requires { HasRoot last front.now }
    ensures { (t : NumberedExpr) → IsBehind last front.now t → root_expr result ≡ t }
{
    match last {
        Symbol::Name(k) => Root::Name(k),
        Symbol::Number(p) => Root::Place(p),
        Symbol::Const {
            size,
            fits,
            high,
            low,
        } => Root::Const {
            size,
            value: joined(high, low),
            fits,
        },
        Symbol::Part(name) => Root::Part {
            name,
            high: bound(front[0]),
            low: bound(front[1]),
        },
        Symbol::Index(name) => Root::Index {
            name,
            at: whole(front),
        },
        Symbol::Unary(op) => Root::Unary(op, whole(front)),
        Symbol::Binary(op, size) => {
            let (a, b) = halves(front, size);
            Root::Binary(op, whole(a), whole(b))
        }
        Symbol::Choose(size_a, size_b) => {
            let (test, a, b) = thirds(front, size_a, size_b);
            Root::Choose(whole(test), whole(a), whole(b))
        }
        Symbol::One => Root::One(whole(front)),
        Symbol::More(size) => {
            let (a, rest) = halves(front, size);
            Root::More(whole(a), whole(rest))
        }
        Symbol::Set(_)
        | Symbol::Put(_, _)
        | Symbol::When(_)
        | Symbol::Either(_, _)
        | Symbol::End
        | Symbol::Then(_) => unreachable!(),
    }
}

/// The outermost part of the statement whose last symbol is this one, behind those.
fn stmt_behind<'m>(last: Symbol, front: &'m [Symbol]) -> StmtRoot<'m>
    requires { HasStmtRoot last front.now }
    ensures { (s : NumberedStmt) → IsStmtBehind last front.now s → root_stmt result ≡ s }
{
    match last {
        Symbol::Set(name) => StmtRoot::Set {
            name,
            value: whole(front),
        },
        Symbol::Put(name, size) => {
            let (at, value) = halves(front, size);
            StmtRoot::Put {
                name,
                at: whole(at),
                value: whole(value),
            }
        }
        Symbol::When(size) => {
            let (test, then) = halves(front, size);
            StmtRoot::When(whole(test), whole_stmt(then))
        }
        Symbol::Either(size_a, size_b) => {
            let (test, then, otherwise) = thirds(front, size_a, size_b);
            StmtRoot::Either(whole(test), whole_stmt(then), whole_stmt(otherwise))
        }
        Symbol::End => StmtRoot::End,
        Symbol::Then(size) => {
            let (first, rest) = halves(front, size);
            StmtRoot::Then(whole_stmt(first), whole_stmt(rest))
        }
        Symbol::Name(_)
        | Symbol::Number(_)
        | Symbol::Const { .. }
        | Symbol::Part(_)
        | Symbol::Index(_)
        | Symbol::Unary(_)
        | Symbol::Binary(_, _)
        | Symbol::Choose(_, _)
        | Symbol::One
        | Symbol::More(_) => unreachable!(),
    }
}

impl Code {
    /// The expression.
    pub fn expr(&self) -> Expr<'_>
        ensures { numbered result ≡ code_expr self.now }
    {
        Expr {
            symbols: self.symbols.as_slice(),
        }
    }
}

impl StmtCode {
    /// The statement.
    pub fn stmt(&self) -> Stmt<'_>
        ensures { numbered_stmt result ≡ code_stmt self.now }
    {
        Stmt {
            symbols: self.symbols.as_slice(),
        }
    }
}

impl Symbol {
    /// The name that it reads, by its number.
    pub fn read(self) -> Option<u32>
        ensures { result ≡ name_read self }
    {
        match self {
            Symbol::Name(k) | Symbol::Part(k) | Symbol::Index(k) => Some(k),
            Symbol::Number(_) | Symbol::Const { .. } | Symbol::Unary(_) | Symbol::Binary(_, _) =>
                None,
            Symbol::Choose(_, _) | Symbol::One | Symbol::More(_) => None,
            Symbol::Set(_) | Symbol::Put(_, _) | Symbol::When(_) | Symbol::Either(_, _) => None,
            Symbol::End | Symbol::Then(_) => None,
        }
    }
}

impl<'m> Expr<'m> {
    /// Its symbols, each operator behind its operands.
    pub fn symbols(self) -> &'m [Symbol]
        ensures { result.now ≡ coded (numbered self.entry) }
    {
        self.symbols
    }

    /// Its outermost part.
    #[inline(always)]
    pub fn root(self) -> Root<'m>
        ensures { root_expr result ≡ numbered self.entry }
    {
        match self.symbols.split_last() {
            Some((last, front)) => behind(*last, front),
            None => unreachable!(),
        }
    }
}

impl<'m> Stmt<'m> {
    /// Its outermost part.
    #[inline]
    pub fn root(self) -> StmtRoot<'m>
        ensures { root_stmt result ≡ numbered_stmt self.entry }
    {
        match self.symbols.split_last() {
            Some((last, front)) => stmt_behind(*last, front),
            None => unreachable!(),
        }
    }
}
