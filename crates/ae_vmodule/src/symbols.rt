// Expressions in postfix code: the symbols of the operands, and the operator behind them.

ghost use Rattle.std.specs.Prelude.{◌≡◌, ◌<◌, IfOk};
ghost use Rattle.ae_vmodule.specs.Listed.{listed};
ghost use Rattle.ae_vmodule.specs.Postfix.{IsCode, IsStmtCode};

use crate::module::{BinOp, UnOp};
use std::alloc::{AllocError, Global};
use std::slice::from_ref;

/// A symbol of postfix code. Names stand by their numbers.
#[derive(Clone, Copy, Debug)]
pub enum Symbol {
    Name(u32),
    /// A decimal number: an index, or a bound of a part.
    Number(u32),
    /// A constant, by the halves of its value.
    Const {
        size: u8,
        fits: bool,
        high: u32,
        low: u32,
    },
    /// Part of a name, behind its bounds.
    Part(u32),
    /// A bit of a name or a word of it, behind the index.
    Index(u32),
    Unary(UnOp),
    /// An operator whose right operand has so many symbols.
    Binary(BinOp, u32),
    /// A choice whose arms have so many symbols.
    Choose(u32, u32),
    /// A concatenation of one part.
    One,
    /// A concatenation of a part and a concatenation that has so many symbols.
    More(u32),
    /// An assignment to a name.
    Set(u32),
    /// An assignment to a word of a name, with a value of so many symbols behind its index.
    Put(u32, u32),
    /// A statement of so many symbols behind its test.
    When(u32),
    /// Two statements of so many symbols behind their test.
    Either(u32, u32),
    /// No statements.
    End,
    /// A statement and others that have so many symbols.
    Then(u32),
}

/// One symbol or several. One alone takes no memory of its own, and several stand behind a box, so that this is as small as it can be:
/// most values of a large module are a name.
#[derive(Debug, Drop)]
pub(crate) enum Symbols {
    One(Symbol),
    Many(Box<Vec<Symbol>>),
}

/// The symbols of an expression.
#[derive(Debug, Drop)]
pub struct Code {
    pub(crate) symbols: Symbols,
    ghost code: { IsCode (listed symbols) },
}

/// The symbols of a statement.
#[derive(Debug, Drop)]
pub struct StmtCode {
    pub(crate) symbols: Symbols,
    ghost code: { IsStmtCode (listed symbols) },
}

/// An expression, in postfix code.
#[derive(Clone, Copy)]
pub struct Expr<'m> {
    pub(crate) symbols: &'m [Symbol],
    ghost code: { IsCode symbols.now },
}

/// A statement, in postfix code.
#[derive(Clone, Copy)]
pub struct Stmt<'m> {
    pub(crate) symbols: &'m [Symbol],
    ghost code: { IsStmtCode symbols.now },
}

/// The outermost part of an expression, and its operands.
#[derive(Clone, Copy)]
pub enum Root<'m> {
    Name(u32),
    Const { size: u8, value: u64, fits: bool },
    Place(u32),
    Part { name: u32, high: u32, low: u32 },
    Index { name: u32, at: Expr<'m> },
    Unary(UnOp, Expr<'m>),
    Binary(BinOp, Expr<'m>, Expr<'m>),
    Choose(Expr<'m>, Expr<'m>, Expr<'m>),
    /// A concatenation of one part.
    One(Expr<'m>),
    /// A concatenation of a part and a concatenation.
    More(Expr<'m>, Expr<'m>),
}

/// The outermost part of a statement, and what it holds.
#[derive(Clone, Copy)]
pub enum StmtRoot<'m> {
    /// `name <= value;`
    Set {
        name: u32,
        value: Expr<'m>,
    },
    /// `name[at] <= value;`
    Put {
        name: u32,
        at: Expr<'m>,
        value: Expr<'m>,
    },
    /// `if (test) then`
    When(Expr<'m>, Stmt<'m>),
    /// `if (test) then else otherwise`
    Either(Expr<'m>, Stmt<'m>, Stmt<'m>),
    /// No statements.
    End,
    /// A statement and those behind it.
    Then(Stmt<'m>, Stmt<'m>),
}

impl Symbols {
    /// A copy of symbols.
    pub(crate) fn of(alloc: Global, symbols: &[Symbol]) -> Result<Symbols, AllocError>
        ensures { IfOk result (λ ss. listed ss ≡ symbols.now) }
    {
        match symbols {
            [symbol] => Ok(Symbols::One(*symbol)),
            _ => {
                let mut copies = Vec::with_capacity(alloc, symbols.len())?;
                copies.extend_from_slice(symbols)?;
                Ok(Symbols::Many(Box::new(alloc, copies)?))
            }
        }
    }

    pub(crate) fn as_slice(&self) -> &[Symbol]
        ensures { result.now ≡ listed self.now }
    {
        match self {
            Symbols::One(symbol) => from_ref(symbol),
            Symbols::Many(symbols) => symbols.as_slice(),
        }
    }
}
