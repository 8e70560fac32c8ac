// Expressions and statements in the making, the last on top.

ghost use Rattle.std.specs.Prelude.{◌≡◌, ◌<◌, ◌≤◌, ◌+◌, ◌^◌, [], ◌∷◌, List, IfOk, OnErr, OnOk, length, ◌-◌};
ghost use Rattle.ae_vmodule.specs.Numbered.{NumberedExpr, NumberedStmt, Piece, expr, stmt, name, constant, place, part, index, unary, binary, choice, concat_one, concat_more, set, put, when, either, block_end, block_more};
ghost use Rattle.ae_vmodule.specs.Stacks.{HasChoice, HasEither, HasExpr, HasExprs, HasStmt, HasStmts, HasWhen, IsLeaf, IsOperator, IsStack, size_of};
ghost use Rattle.ae_vmodule.specs.Roots.{code_expr, code_stmt};
ghost use Rattle.ae_vmodule.specs.Listed.{listed};
ghost use Rattle.ae_vmodule.specs.Postfix.{coded_piece, step};

use crate::module::{BinOp, UnOp};
use crate::symbols::{Code, StmtCode, Symbol, Symbols};
use std::alloc::{AllocError, Global};

/// Expressions and statements in the making, one behind the other in postfix code. What cannot be added, for want of memory,
/// leaves them as they are.
#[derive(Drop)]
pub struct Stack {
    symbols: Vec<Symbol>,
    /// Where each begins.
    starts: Vec<u32>,
    ghost stack: { IsStack symbols.items starts.items },
}

impl Stack {
    ghost use Rattle.ae_vmodule.specs.Held.{held};

    /// No pieces.
    pub fn new(alloc: Global) -> Stack
        ensures { held result ≡ [] }
    {
        Stack {
            symbols: Vec::new(alloc),
            starts: Vec::new(alloc),
        }
    }

    /// A symbol that is a piece by itself.
    fn leaf(&mut self, symbol: Symbol) -> Result<(), AllocError>
        requires room { size_of (held self.old) < 2 ^ 32 }
        requires leaf { IsLeaf symbol }
        ensures pieces { OnOk result (held self.new ≡ step symbol (held self.old)) }
        ensures kept { OnErr result (held self.new ≡ held self.old) }
        ensures few { size_of (held self.new) ≤ size_of (held self.old) + 1 }
    {
        let start = self.symbols.len() as u32;
        match self.symbols.push(symbol) {
            Ok(()) => {},
            Err(_) => return Err(AllocError),
        }
        match self.starts.push(start) {
            Ok(()) => Ok(()),
            Err(_) => {
                self.symbols.pop();
                Err(AllocError)
            }
        }
    }

    /// An operator behind its operands, of which there are so many beside the first.
    fn operator(&mut self, symbol: Symbol, more: usize) -> Result<(), AllocError>
        requires operator { IsOperator symbol more (held self.old) }
        ensures pieces { OnOk result (held self.new ≡ step symbol (held self.old)) }
        ensures kept { OnErr result (held self.new ≡ held self.old) }
        ensures few { size_of (held self.new) ≤ size_of (held self.old) + 1 }
    {
        let kept = self.starts.len() - more;
        match self.symbols.push(symbol) {
            Ok(()) => {
                self.starts.truncate(kept);
                Ok(())
            }
            Err(_) => Err(AllocError),
        }
    }

    /// How many symbols the piece on top has.
    fn top_size(&self) -> u32
        requires some { 1 ≤ length (held self.now) }
        requires few { size_of (held self.now) ≤ 2 ^ 32 - 1 }
        ensures { (p : Piece) (below : List Piece) → held self.now ≡ p ∷ below → result ≡ length (coded_piece p) }
    {
        self.symbols.len() as u32 - self.starts[self.starts.len() - 1]
    }

    /// How many symbols the piece under the top has.
    fn second_size(&self) -> u32
        requires some { 2 ≤ length (held self.now) }
        ensures { (q p : Piece) (below : List Piece) → held self.now ≡ q ∷ p ∷ below → result ≡ length (coded_piece p) }
    {
        let last = self.starts.len() - 1;
        self.starts[last] - self.starts[last - 1]
    }

    /// Without the piece on top.
    fn forget(&mut self)
        requires some { 1 ≤ length (held self.old) }
        ensures rest { (p : Piece) (below : List Piece) → held self.old ≡ p ∷ below → held self.new ≡ below }
        ensures few { size_of (held self.new) ≤ size_of (held self.old) }
    {
        let last = self.starts.len() - 1;
        let start = self.starts[last] as usize;
        self.symbols.truncate(start);
        self.starts.truncate(last);
    }

    /// The symbols of the piece on top.
    fn top(&self) -> Result<Symbols, AllocError>
        requires some { 1 ≤ length (held self.now) }
        ensures { IfOk result (λ v. (p : Piece) (below : List Piece) → held self.now ≡ p ∷ below → listed v ≡ coded_piece p) }
    {
        let start = self.starts[self.starts.len() - 1] as usize;
        let alloc = *self.symbols.allocator();
        let (_, top) = self.symbols.split_at(start);
        Symbols::of(alloc, top)
    }

    /// A name.
    pub fn name(&mut self, k: u32) -> Result<(), AllocError>
        requires room { size_of (held self.old) < 2 ^ 32 }
        ensures pieces { OnOk result (held self.new ≡ expr (name k) ∷ held self.old) }
        ensures kept { OnErr result (held self.new ≡ held self.old) }
        ensures few { size_of (held self.new) ≤ size_of (held self.old) + 1 }
    {
        self.leaf(Symbol::Name(k))
    }

    /// A number as an index.
    pub fn place(&mut self, n: u32) -> Result<(), AllocError>
        requires room { size_of (held self.old) < 2 ^ 32 }
        ensures pieces { OnOk result (held self.new ≡ expr (place n) ∷ held self.old) }
        ensures kept { OnErr result (held self.new ≡ held self.old) }
        ensures few { size_of (held self.new) ≤ size_of (held self.old) + 1 }
    {
        self.leaf(Symbol::Number(n))
    }

    /// A constant of so many bits.
    pub fn constant(&mut self, size: u8, value: u64, fits: bool) -> Result<(), AllocError>
        requires room { size_of (held self.old) < 2 ^ 32 }
        ensures pieces { OnOk result (held self.new ≡ expr (constant size value fits) ∷ held self.old) }
        ensures kept { OnErr result (held self.new ≡ held self.old) }
        ensures few { size_of (held self.new) ≤ size_of (held self.old) + 1 }
    {
        self.leaf(Symbol::Const {
            size,
            fits,
            high: (value >> 32) as u32,
            low: (value % 4_294_967_296) as u32,
        })
    }

    /// A block of no statements.
    pub fn end(&mut self) -> Result<(), AllocError>
        requires room { size_of (held self.old) < 2 ^ 32 }
        ensures pieces { OnOk result (held self.new ≡ stmt block_end ∷ held self.old) }
        ensures kept { OnErr result (held self.new ≡ held self.old) }
        ensures few { size_of (held self.new) ≤ size_of (held self.old) + 1 }
    {
        self.leaf(Symbol::End)
    }

    /// A prefix in front of the expression on top.
    pub fn unary(&mut self, op: UnOp) -> Result<(), AllocError>
        requires some { HasExpr (held self.old) }
        ensures pieces { (a : NumberedExpr) (below : List Piece) → held self.old ≡ expr a ∷ below → OnOk result (held self.new ≡ expr (unary op a) ∷ below) }
        ensures kept { OnErr result (held self.new ≡ held self.old) }
        ensures few { size_of (held self.new) ≤ size_of (held self.old) + 1 }
    {
        self.operator(Symbol::Unary(op), 0)
    }

    /// The bit or word of a name at the index on top.
    pub fn index(&mut self, k: u32) -> Result<(), AllocError>
        requires some { HasExpr (held self.old) }
        ensures pieces { (a : NumberedExpr) (below : List Piece) → held self.old ≡ expr a ∷ below → OnOk result (held self.new ≡ expr (index k a) ∷ below) }
        ensures kept { OnErr result (held self.new ≡ held self.old) }
        ensures few { size_of (held self.new) ≤ size_of (held self.old) + 1 }
    {
        self.operator(Symbol::Index(k), 0)
    }

    /// An operator on the two expressions on top.
    pub fn binary(&mut self, op: BinOp) -> Result<(), AllocError>
        requires some { HasExprs (held self.old) }
        requires few { size_of (held self.old) ≤ 2 ^ 32 - 1 }
        ensures pieces { (b a : NumberedExpr) (below : List Piece) → held self.old ≡ expr b ∷ expr a ∷ below → OnOk result (held self.new ≡ expr (binary op a b) ∷ below) }
        ensures kept { OnErr result (held self.new ≡ held self.old) }
        ensures few { size_of (held self.new) ≤ size_of (held self.old) + 1 }
    {
        let size = self.top_size();
        self.operator(Symbol::Binary(op, size), 1)
    }

    /// A choice between the two expressions on top by the one under them.
    pub fn choice(&mut self) -> Result<(), AllocError>
        requires some { HasChoice (held self.old) }
        requires few { size_of (held self.old) ≤ 2 ^ 32 - 1 }
        ensures pieces { (b a test : NumberedExpr) (below : List Piece) → held self.old ≡ expr b ∷ expr a ∷ expr test ∷ below → OnOk result (held self.new ≡ expr (choice test a b) ∷ below) }
        ensures kept { OnErr result (held self.new ≡ held self.old) }
        ensures few { size_of (held self.new) ≤ size_of (held self.old) + 1 }
    {
        let size_b = self.top_size();
        let size_a = self.second_size();
        self.operator(Symbol::Choose(size_a, size_b), 2)
    }

    /// A concatenation of the expression on top alone.
    pub fn one(&mut self) -> Result<(), AllocError>
        requires some { HasExpr (held self.old) }
        ensures pieces { (a : NumberedExpr) (below : List Piece) → held self.old ≡ expr a ∷ below → OnOk result (held self.new ≡ expr (concat_one a) ∷ below) }
        ensures kept { OnErr result (held self.new ≡ held self.old) }
        ensures few { size_of (held self.new) ≤ size_of (held self.old) + 1 }
    {
        self.operator(Symbol::One, 0)
    }

    /// The expression under the top as a part in front of the concatenation on top.
    pub fn more(&mut self) -> Result<(), AllocError>
        requires some { HasExprs (held self.old) }
        requires few { size_of (held self.old) ≤ 2 ^ 32 - 1 }
        ensures pieces { (b a : NumberedExpr) (below : List Piece) → held self.old ≡ expr b ∷ expr a ∷ below → OnOk result (held self.new ≡ expr (concat_more a b) ∷ below) }
        ensures kept { OnErr result (held self.new ≡ held self.old) }
        ensures few { size_of (held self.new) ≤ size_of (held self.old) + 1 }
    {
        let size = self.top_size();
        self.operator(Symbol::More(size), 1)
    }

    /// An assignment of the expression on top to a name.
    pub fn set(&mut self, k: u32) -> Result<(), AllocError>
        requires some { HasExpr (held self.old) }
        ensures pieces { (a : NumberedExpr) (below : List Piece) → held self.old ≡ expr a ∷ below → OnOk result (held self.new ≡ stmt (set k a) ∷ below) }
        ensures kept { OnErr result (held self.new ≡ held self.old) }
        ensures few { size_of (held self.new) ≤ size_of (held self.old) + 1 }
    {
        self.operator(Symbol::Set(k), 0)
    }

    /// An assignment of the expression on top to the word of a name at the index under it.
    pub fn put(&mut self, k: u32) -> Result<(), AllocError>
        requires some { HasExprs (held self.old) }
        requires few { size_of (held self.old) ≤ 2 ^ 32 - 1 }
        ensures pieces { (b a : NumberedExpr) (below : List Piece) → held self.old ≡ expr b ∷ expr a ∷ below → OnOk result (held self.new ≡ stmt (put k a b) ∷ below) }
        ensures kept { OnErr result (held self.new ≡ held self.old) }
        ensures few { size_of (held self.new) ≤ size_of (held self.old) + 1 }
    {
        let size = self.top_size();
        self.operator(Symbol::Put(k, size), 1)
    }

    /// The statement on top where the test under it holds.
    pub fn when(&mut self) -> Result<(), AllocError>
        requires some { HasWhen (held self.old) }
        requires few { size_of (held self.old) ≤ 2 ^ 32 - 1 }
        ensures pieces { (s : NumberedStmt) (test : NumberedExpr) (below : List Piece) → held self.old ≡ stmt s ∷ expr test ∷ below → OnOk result (held self.new ≡ stmt (when test s) ∷ below) }
        ensures kept { OnErr result (held self.new ≡ held self.old) }
        ensures few { size_of (held self.new) ≤ size_of (held self.old) + 1 }
    {
        let size = self.top_size();
        self.operator(Symbol::When(size), 1)
    }

    /// The statement under the top where the test under both holds, and else the one on top.
    pub fn either(&mut self) -> Result<(), AllocError>
        requires some { HasEither (held self.old) }
        requires few { size_of (held self.old) ≤ 2 ^ 32 - 1 }
        ensures pieces { (r s : NumberedStmt) (test : NumberedExpr) (below : List Piece) → held self.old ≡ stmt r ∷ stmt s ∷ expr test ∷ below → OnOk result (held self.new ≡ stmt (either test s r) ∷ below) }
        ensures kept { OnErr result (held self.new ≡ held self.old) }
        ensures few { size_of (held self.new) ≤ size_of (held self.old) + 1 }
    {
        let size_b = self.top_size();
        let size_a = self.second_size();
        self.operator(Symbol::Either(size_a, size_b), 2)
    }

    /// The statement under the top in front of the block on top.
    pub fn then(&mut self) -> Result<(), AllocError>
        requires some { HasStmts (held self.old) }
        requires few { size_of (held self.old) ≤ 2 ^ 32 - 1 }
        ensures pieces { (r s : NumberedStmt) (below : List Piece) → held self.old ≡ stmt r ∷ stmt s ∷ below → OnOk result (held self.new ≡ stmt (block_more s r) ∷ below) }
        ensures kept { OnErr result (held self.new ≡ held self.old) }
        ensures few { size_of (held self.new) ≤ size_of (held self.old) + 1 }
    {
        let size = self.top_size();
        self.operator(Symbol::Then(size), 1)
    }

    /// The part of a name between two bounds.
    pub fn part(&mut self, k: u32, high: u32, low: u32) -> Result<(), AllocError>
        requires room { size_of (held self.old) + 1 < 2 ^ 32 }
        ensures pieces { OnOk result (held self.new ≡ expr (part k high low) ∷ held self.old) }
        ensures kept { OnErr result (held self.new ≡ held self.old) }
        ensures few { size_of (held self.new) ≤ size_of (held self.old) + 3 }
    {
        match self.place(high) {
            Ok(()) => {},
            Err(_) => return Err(AllocError),
        }
        match self.place(low) {
            Ok(()) => {},
            Err(_) => {
                self.forget();
                return Err(AllocError);
            }
        }
        match self.operator(Symbol::Part(k), 1) {
            Ok(()) => Ok(()),
            Err(_) => {
                self.forget();
                self.forget();
                Err(AllocError)
            }
        }
    }

    /// The expression on top, which goes.
    pub fn take_expr(&mut self) -> Result<Code, AllocError>
        requires some { HasExpr (held self.old) }
        ensures code { IfOk result (λ x. (a : NumberedExpr) (below : List Piece) → held self.old ≡ expr a ∷ below → code_expr x ≡ a) }
        ensures rest { (a : NumberedExpr) (below : List Piece) → held self.old ≡ expr a ∷ below → OnOk result (held self.new ≡ below) }
        ensures kept { OnErr result (held self.new ≡ held self.old) }
        ensures few { size_of (held self.new) ≤ size_of (held self.old) }
    {
        let symbols = self.top()?;
        self.forget();
        Ok(Code { symbols })
    }

    /// The statement on top, which goes.
    pub fn take_stmt(&mut self) -> Result<StmtCode, AllocError>
        requires some { HasStmt (held self.old) }
        ensures code { IfOk result (λ x. (s : NumberedStmt) (below : List Piece) → held self.old ≡ stmt s ∷ below → code_stmt x ≡ s) }
        ensures rest { (s : NumberedStmt) (below : List Piece) → held self.old ≡ stmt s ∷ below → OnOk result (held self.new ≡ below) }
        ensures kept { OnErr result (held self.new ≡ held self.old) }
        ensures few { size_of (held self.new) ≤ size_of (held self.old) }
    {
        let symbols = self.top()?;
        self.forget();
        Ok(StmtCode { symbols })
    }
}
