// Reading a statement from the tokens.

ghost use Rattle.std.specs.Prelude.{◌≡◌, ◌+◌, ◌<◌, ◌≤◌, ◌^◌, ℕ, List, ◌∷◌, IfErr, OnOk, Some, length, slice_get};
ghost use Rattle.ae_vtoken.specs.Ahead.{ahead};
ghost use Rattle.ae_vtoken.specs.declared.token.Sign.TheVariants.{OpenBracket};
ghost use Rattle.ae_vmodule.specs.Held.{held};
ghost use Rattle.ae_vmodule.specs.Numbered.{NumberedStmt, Piece, stmt};
ghost use Rattle.ae_vread.specs.ReadExpr.{Holds, HoldsTwo, Reads, used};
ghost use Rattle.ae_vread.specs.ReadStmt.{HasStmts, HoldsEither, HoldsPlace, HoldsWhen, ReadsStmt, block_parts, pushed_stmts};
ghost use Rattle.ae_vread.specs.Reading.{Found};
ghost use Rattle.ae_vmodule.specs.Stacks.{HasEither, HasExpr, HasExprs, HasWhen};
ghost use Rattle.ae_vread.specs.StmtReading.{StmtFound, alone_of, assigned, block_at, choice_from, either_of, put_by, put_from, put_place, set_from, statement, statement_at, target_from, test_then, value_then, whole_statement};
ghost use Rattle.ae_vread.specs.TokenTests.{after_mark, first_number};
ghost use Rattle.ae_vread.specs.declared.reading.ReadFault.TheVariants.{Memory};

use crate::reading::{ReadFault, Reader, deeper};
use ae_vtoken::{Key, Sign, Token};

impl Reader<'_> {
    /// An expression, up to this sign.
    fn value_then(&mut self, sign: Sign) -> Result<u32, ReadFault>
        ensures read { Reads (held self.old.stack) self.old.words self.new result (value_then sign (ahead self.old.tokens)) }
        ensures few { OnOk result (used self.new + 1 ≤ used self.old) }
    {
        let depth = self.whole_expression()?;
        self.want_mark(sign)?;
        Ok(depth)
    }

    /// A value behind `<=`, up to its semicolon.
    fn assigned(&mut self) -> Result<u32, ReadFault>
        ensures read { Reads (held self.old.stack) self.old.words self.new result (assigned (ahead self.old.tokens)) }
        ensures few { OnOk result (used self.new + 2 ≤ used self.old) }
    {
        self.want_mark(Sign::AtMost)?;
        self.value_then(Sign::Semicolon)
    }

    /// A test in its parentheses.
    fn test_then(&mut self) -> Result<u32, ReadFault>
        ensures read { Reads (held self.old.stack) self.old.words self.new result (test_then (ahead self.old.tokens)) }
        ensures few { OnOk result (used self.new + 2 ≤ used self.old) }
    {
        self.want_mark(Sign::Open)?;
        self.value_then(Sign::Close)
    }

    /// The assignment of the expression on top to a name.
    fn set(&mut self, name: u32, depth: u32) -> Result<u32, ReadFault>
        requires some { HasExpr (held self.old.stack) }
        requires room { used self.old + 1 < 2 ^ 32 }
        ensures read { (n : List ℕ) (x : Found) (below : List Piece) → slice_get self.old.words name ≡ Some n → Holds below self.old depth x → ReadsStmt below self.old.words self.new result (set_from n x) }
        ensures few { OnOk result (used self.new ≤ used self.old + 1) }
    {
        let depth = deeper(depth)?;
        self.stack.set(name)?;
        Ok(depth)
    }

    /// The assignment of the expression on top to the word of a name at the index under it, where both are so deep.
    fn put(&mut self, name: u32, at: u32, value: u32) -> Result<u32, ReadFault>
        requires some { HasExprs (held self.old.stack) }
        requires room { used self.old + 1 < 2 ^ 32 }
        ensures read { (n : List ℕ) (x y : Found) (below : List Piece) → slice_get self.old.words name ≡ Some n → HoldsTwo below self.old at value x y → ReadsStmt below self.old.words self.new result (put_from n x y) }
        ensures few { OnOk result (used self.new ≤ used self.old + 1) }
    {
        let depth = deeper(at.max(value))?;
        self.stack.put(name)?;
        Ok(depth)
    }

    /// The statement on top where the test under it holds.
    fn alone(&mut self, test: u32, first: u32) -> Result<u32, ReadFault>
        requires some { HasWhen (held self.old.stack) }
        requires room { used self.old + 1 < 2 ^ 32 }
        ensures read { (x : Found) (y : StmtFound) (below : List Piece) → HoldsWhen below self.old test first x y → ReadsStmt below self.old.words self.new result (alone_of x y) }
        ensures few { OnOk result (used self.new ≤ used self.old + 1) }
    {
        let depth = deeper(test.max(first))?;
        self.stack.when()?;
        Ok(depth)
    }

    /// One of the two statements on top, by the test under them.
    fn either(&mut self, test: u32, first: u32, second: u32) -> Result<u32, ReadFault>
        requires some { HasEither (held self.old.stack) }
        requires room { used self.old + 1 < 2 ^ 32 }
        ensures read { (x : Found) (y z : StmtFound) (below : List Piece) → HoldsEither below self.old test first second x y z → ReadsStmt below self.old.words self.new result (either_of x y z) }
        ensures few { OnOk result (used self.new ≤ used self.old + 1) }
    {
        let depth = deeper(test.max(first.max(second)))?;
        self.stack.either()?;
        Ok(depth)
    }

    /// An assignment behind its name.
    fn target(&mut self, name: u32) -> Result<u32, ReadFault>
        ensures read { (n : List ℕ) → slice_get self.old.words name ≡ Some n → ReadsStmt (held self.old.stack) self.old.words self.new result (target_from n (ahead self.old.tokens) (after_mark OpenBracket (ahead self.old.tokens))) }
        ensures few { OnOk result (used self.new ≤ used self.old) }
    {
        if self.mark(Sign::OpenBracket) {
            return self.put_by(name);
        }
        let depth = self.assigned()?;
        self.set(name, depth)
    }

    /// An assignment behind its name and the bracket of its index.
    fn put_by(&mut self, name: u32) -> Result<u32, ReadFault>
        ensures read { (n : List ℕ) → slice_get self.old.words name ≡ Some n → ReadsStmt (held self.old.stack) self.old.words self.new result (put_by n (ahead self.old.tokens) (first_number (ahead self.old.tokens))) }
        ensures few { OnOk result (used self.new ≤ used self.old) }
    {
        match self.number() {
            Some(place) => {
                self.stack.place(place)?;
                self.want_mark(Sign::CloseBracket)?;
                let depth = self.assigned()?;
                self.put_place(name, place, depth)
            }
            None => {
                let at = self.value_then(Sign::CloseBracket)?;
                let value = self.assigned()?;
                self.put(name, at, value)
            }
        }
    }

    /// The assignment of the expression on top to the word of a name at the place under it.
    fn put_place(&mut self, name: u32, place: u32, depth: u32) -> Result<u32, ReadFault>
        requires some { HasExprs (held self.old.stack) }
        requires room { used self.old + 1 < 2 ^ 32 }
        ensures read { (n : List ℕ) (x : Found) (below : List Piece) → slice_get self.old.words name ≡ Some n → HoldsPlace below self.old place depth x → ReadsStmt below self.old.words self.new result (put_place n place x) }
        ensures few { OnOk result (used self.new ≤ used self.old + 1) }
    {
        let depth = deeper(depth)?;
        self.stack.put(name)?;
        Ok(depth)
    }

    /// The block of so many statements on top.
    fn join_stmts(&mut self, count: u32) -> Result<(), ReadFault>
        requires some { HasStmts count (held self.old.stack) }
        requires room { used self.old + count + 1 < 2 ^ 32 }
        ensures pieces { (ss : List NumberedStmt) (below : List Piece) → length ss ≡ count → held self.old.stack ≡ pushed_stmts ss below → OnOk result (held self.new.stack ≡ stmt (block_parts ss) ∷ below) }
        ensures memory { IfErr result (λ e. e ≡ Memory) }
        ensures tokens { self.new.tokens ≡ self.old.tokens }
        ensures words { self.new.words ≡ self.old.words }
        ensures few { OnOk result (used self.new ≤ used self.old + count + 1) }
    {
        self.stack.end()?;
        'more: for turn in 0..count {
            self.stack.then()?;
        }
        Ok(())
    }
}

impl Reader<'_> {
    /// Reads a statement whose parts nest at most so deep, and tells its depth.
    #[cycle(statements)]
    fn statement(&mut self, budget: u32) -> Result<u32, ReadFault>
        ensures read { ReadsStmt (held self.old.stack) self.old.words self.new result (statement budget (ahead self.old.tokens)) }
        ensures few { OnOk result (used self.new + 1 ≤ used self.old) }
    {
        if budget == 0 {
            return Err(ReadFault::Syntax);
        }
        self.statement_at(budget - 1)
    }

    /// Reads a statement at most 256 deep, and tells its depth.
    pub fn whole_statement(&mut self) -> Result<u32, ReadFault>
        ensures read { ReadsStmt (held self.old.stack) self.old.words self.new result (whole_statement (ahead self.old.tokens)) }
        ensures few { OnOk result (used self.new + 1 ≤ used self.old) }
    {
        self.statement(256)
    }

    #[cycle(statements)]
    fn statement_at(&mut self, budget: u32) -> Result<u32, ReadFault>
        ensures read { ReadsStmt (held self.old.stack) self.old.words self.new result (statement_at (statement budget) (ahead self.old.tokens)) }
        ensures few { OnOk result (used self.new + 1 ≤ used self.old) }
    {
        match self.tokens.first() {
            Some(Token::Name(_)) => {
                let name = self.want_name()?;
                self.target(name)
            }
            Some(Token::Word(Key::If)) => {
                self.skip();
                let test = self.test_then()?;
                self.choice_from(budget, test)
            }
            Some(Token::Word(Key::Begin)) => {
                self.skip();
                self.block(budget)
            }
            _ => Err(ReadFault::Syntax),
        }
    }

    /// The statements behind a test; an `else` belongs to the nearest `if`.
    #[cycle(statements)]
    fn choice_from(&mut self, budget: u32, test: u32) -> Result<u32, ReadFault>
        requires some { HasExpr (held self.old.stack) }
        ensures read { (x : Found) (below : List Piece) → Holds below self.old test x → ReadsStmt below self.old.words self.new result (choice_from (statement budget) x) }
        ensures few { OnOk result (used self.new ≤ used self.old) }
    {
        let first = self.statement(budget)?;
        if self.word(Key::Else) {
            let second = self.statement(budget)?;
            return self.either(test, first, second);
        }
        self.alone(test, first)
    }

    /// The statements up to the `end` that closes them, as a block.
    #[cycle(statements)]
    fn block(&mut self, budget: u32) -> Result<u32, ReadFault>
        ensures read { ReadsStmt (held self.old.stack) self.old.words self.new result (block_at (statement budget) (ahead self.old.tokens)) }
        ensures few { OnOk result (used self.new ≤ used self.old) }
    {
        let mut depth: u32 = 0;
        let mut count: u32 = 0;
        'next: for turn in 0..self.tokens.len() {
            if self.word(Key::End) {
                let depth = deeper(depth)?;
                self.join_stmts(count)?;
                return Ok(depth);
            }
            let next = self.statement(budget)?;
            depth = depth.max(next);
            count += 1;
        }
        Err(ReadFault::Syntax)
    }
}
