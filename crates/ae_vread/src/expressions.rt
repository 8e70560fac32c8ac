// Reading an expression from the tokens, by the strengths of the operators.

ghost use Rattle.std.specs.Prelude.{◌≡◌, ◌+◌, ◌<◌, ◌^◌, ℕ, List, ◌∷◌, IfErr, IfNone, IfSome, OnOk, Some, ◌≤◌, None, length, max, option_map, slice_get};
ghost use Rattle.ae_vtoken.specs.Ahead.{ahead};
ghost use Rattle.ae_vtoken.specs.Scan.{token_view};
ghost use Rattle.ae_vread.specs.ExprForms.{strength};
ghost use Rattle.ae_vmodule.specs.Held.{held};
ghost use Rattle.ae_vmodule.specs.Numbered.{NumberedExpr, Piece, expr};
ghost use Rattle.ae_vread.specs.TokenTests.{after_mark, first_number};
ghost use Rattle.ae_vread.specs.Parts.{HasParts, concat_parts, pushed};
ghost use Rattle.ae_vtoken.specs.declared.token.Sign.TheVariants.{Colon, OpenBracket};
ghost use Rattle.ae_vread.specs.declared.reading.ReadFault.TheVariants.{Memory};
ghost use Rattle.ae_vread.specs.Reading.{Found, braces, chosen, chosen_of, closed, expression, indexed, infix_at, infix_of_first, joined, joined_at, named, operand, placed, prefixed, selected, sign_infix, unary_at, whole_expression};
ghost use Rattle.ae_vread.specs.ReadExpr.{Holds, HoldsThree, HoldsTwo, Reads, used};
ghost use Rattle.ae_vmodule.specs.Stacks.{HasChoice, HasExpr, HasExprs};

use crate::reading::{ReadFault, Reader, deeper};
use ae_vmodule::{BinOp, UnOp};
use ae_vtoken::{Sign, Token};

impl Reader<'_> {
    /// A prefix in front of the expression on top.
    fn prefix(&mut self, op: UnOp, depth: u32) -> Result<u32, ReadFault>
        requires some { HasExpr (held self.old.stack) }
        requires room { used self.old + 1 < 2 ^ 32 }
        ensures read { (x : Found) (below : List Piece) → Holds below self.old depth x → Reads below self.old.words self.new result (prefixed op x) }
        ensures few { OnOk result (used self.new ≤ used self.old + 1) }
    {
        let depth = deeper(depth)?;
        self.stack.unary(op)?;
        Ok(depth)
    }

    /// An operator on the two expressions on top, which are so deep.
    fn join(&mut self, op: BinOp, left: u32, right: u32) -> Result<u32, ReadFault>
        requires some { HasExprs (held self.old.stack) }
        requires room { used self.old + 1 < 2 ^ 32 }
        ensures read { (x y : Found) (below : List Piece) → HoldsTwo below self.old left right x y → Reads below self.old.words self.new result (joined op x y) }
        ensures few { OnOk result (used self.new ≤ used self.old + 1) }
    {
        let depth = deeper(left.max(right))?;
        self.stack.binary(op)?;
        Ok(depth)
    }

    /// A choice between the two expressions on top by the one under them.
    fn choose(&mut self, test: u32, first: u32, second: u32) -> Result<u32, ReadFault>
        requires some { HasChoice (held self.old.stack) }
        requires room { used self.old + 1 < 2 ^ 32 }
        ensures read { (x y z : Found) (below : List Piece) → HoldsThree below self.old test first second x y z → Reads below self.old.words self.new result (chosen_of x y z) }
        ensures few { OnOk result (used self.new ≤ used self.old + 1) }
    {
        let depth = deeper(test.max(first.max(second)))?;
        self.stack.choice()?;
        Ok(depth)
    }

    /// The parenthesis that closes an expression.
    fn close(&mut self, depth: u32) -> Result<u32, ReadFault>
        ensures read { (x : Found) (below : List Piece) → Holds below self.old depth x → Reads below self.old.words self.new result (closed x) }
        ensures few { OnOk result (used self.new ≤ used self.old) }
    {
        self.want_mark(Sign::Close)?;
        let depth = deeper(depth)?;
        Ok(depth)
    }

    /// The bracket that closes an index.
    fn index(&mut self, name: u32, depth: u32) -> Result<u32, ReadFault>
        requires some { HasExpr (held self.old.stack) }
        ensures read { (n : List ℕ) (x : Found) (below : List Piece) → slice_get self.old.words name ≡ Some n → Holds below self.old depth x → Reads below self.old.words self.new result (indexed n x) }
        ensures few { OnOk result (used self.new ≤ used self.old) }
    {
        self.want_mark(Sign::CloseBracket)?;
        let depth = deeper(depth)?;
        self.stack.index(name)?;
        Ok(depth)
    }
}

impl<'a> Reader<'a> {
    /// The operator in front, where it is at least so strong.
    fn infix(&mut self, least: u32) -> Option<BinOp>
        ensures there { IfSome result (λ op. infix_at least (ahead self.old.tokens) ≡ Some (op, ahead self.new.tokens)) }
        ensures shorter { IfSome result (λ op. length (ahead self.new.tokens) + 1 ≡ length (ahead self.old.tokens)) }
        ensures none { IfNone result (infix_at least (ahead self.old.tokens) ≡ None) }
        ensures tokens { IfNone result (self.new.tokens ≡ self.old.tokens) }
        ensures stack { self.new.stack ≡ self.old.stack }
        ensures words { self.new.words ≡ self.old.words }
    {
        let op = infix_of(self.tokens.first())?;
        if least <= strength(op) {
            self.skip();
            Some(op)
        } else {
            None
        }
    }
}

impl<'a> Reader<'a> {
    /// Reads an expression whose outermost operator is at least so strong and whose parts nest at most so deep, and tells its
    /// depth.
    #[cycle(expressions)]
    fn expression(&mut self, budget: u32, least: u32) -> Result<u32, ReadFault>
        ensures read { Reads (held self.old.stack) self.old.words self.new result (expression budget least (ahead self.old.tokens)) }
        ensures few { OnOk result (used self.new ≤ used self.old) }
    {
        if budget == 0 {
            return Err(ReadFault::Syntax);
        }
        let depth = self.joined_at(budget - 1, least)?;
        self.chosen(budget - 1, least, depth)
    }

    /// Reads an expression at most 256 deep, and tells its depth.
    pub fn whole_expression(&mut self) -> Result<u32, ReadFault>
        ensures read { Reads (held self.old.stack) self.old.words self.new result (whole_expression (ahead self.old.tokens)) }
        ensures few { OnOk result (used self.new ≤ used self.old) }
    {
        self.expression(256, 1)
    }

    /// An operand and what stronger operators join to it.
    #[cycle(expressions)]
    fn joined_at(&mut self, budget: u32, least: u32) -> Result<u32, ReadFault>
        ensures read { Reads (held self.old.stack) self.old.words self.new result (joined_at (expression budget) least (ahead self.old.tokens)) }
        ensures few { OnOk result (used self.new ≤ used self.old) }
    {
        let mut depth = self.unary_at(budget)?;
        'turn: for turn in 0..256u32 {
            let Some(op) = self.infix(least) else {
                return Ok(depth);
            };
            let right = self.expression(budget, above(op))?;
            depth = self.join(op, depth, right)?;
        }
        Err(ReadFault::Syntax)
    }

    /// A test goes on with its two arms, where the weakest operator may stand.
    #[cycle(expressions)]
    fn chosen(&mut self, budget: u32, least: u32, depth: u32) -> Result<u32, ReadFault>
        requires some { HasExpr (held self.old.stack) }
        ensures read { (x : Found) (below : List Piece) → Holds below self.old depth x → Reads below self.old.words self.new result (chosen (expression budget) least x) }
        ensures few { OnOk result (used self.new ≤ used self.old) }
    {
        if least > 1 {
            return Ok(depth);
        }
        if !self.mark(Sign::Question) {
            return Ok(depth);
        }
        let first = self.expression(budget, 1)?;
        self.want_mark(Sign::Colon)?;
        let second = self.expression(budget, 1)?;
        self.choose(depth, first, second)
    }

    /// An operand, or a prefix and an operand.
    #[cycle(expressions)]
    fn unary_at(&mut self, budget: u32) -> Result<u32, ReadFault>
        ensures read { Reads (held self.old.stack) self.old.words self.new result (unary_at (expression budget) (ahead self.old.tokens)) }
        ensures few { OnOk result (used self.new ≤ used self.old) }
    {
        if self.mark(Sign::Bang) {
            let depth = self.operand(budget)?;
            self.prefix(UnOp::Not, depth)
        } else if self.mark(Sign::Tilde) {
            let depth = self.operand(budget)?;
            self.prefix(UnOp::Flip, depth)
        } else {
            self.operand(budget)
        }
    }

    /// An operand with no prefix.
    #[cycle(expressions)]
    fn operand(&mut self, budget: u32) -> Result<u32, ReadFault>
        ensures read { Reads (held self.old.stack) self.old.words self.new result (operand (expression budget) (ahead self.old.tokens)) }
        ensures few { OnOk result (used self.new ≤ used self.old) }
    {
        match self.tokens.first() {
            Some(Token::Name(_)) => {
                let name = self.want_name()?;
                self.named(budget, name)
            }
            Some(Token::Sized { size, value, fits }) => {
                self.skip();
                self.stack.constant(size, value, fits)?;
                Ok(1)
            }
            Some(Token::Mark(Sign::Open)) => {
                self.skip();
                let depth = self.expression(budget, 1)?;
                self.close(depth)
            }
            Some(Token::Mark(Sign::OpenBrace)) => {
                self.skip();
                self.braces(budget)
            }
            _ => Err(ReadFault::Syntax),
        }
    }

    /// A name and its select, if it has one.
    #[cycle(expressions)]
    fn named(&mut self, budget: u32, name: u32) -> Result<u32, ReadFault>
        requires room { used self.old + 1 < 2 ^ 32 }
        ensures read { (n : List ℕ) → slice_get self.old.words name ≡ Some n → Reads (held self.old.stack) self.old.words self.new result (named (expression budget) n (ahead self.old.tokens) (after_mark OpenBracket (ahead self.old.tokens))) }
        ensures few { OnOk result (used self.new ≤ used self.old + 1) }
    {
        if self.mark(Sign::OpenBracket) {
            return self.selected(budget, name);
        }
        self.stack.name(name)?;
        Ok(1)
    }

    /// What stands in the brackets behind a name.
    #[cycle(expressions)]
    fn selected(&mut self, budget: u32, name: u32) -> Result<u32, ReadFault>
        requires room { used self.old + 1 < 2 ^ 32 }
        ensures read { (n : List ℕ) → slice_get self.old.words name ≡ Some n → Reads (held self.old.stack) self.old.words self.new result (selected (expression budget) n (ahead self.old.tokens) (first_number (ahead self.old.tokens))) }
        ensures few { OnOk result (used self.new ≤ used self.old + 1) }
    {
        match self.number() {
            Some(value) => self.placed(name, value),
            None => {
                let depth = self.expression(budget, 1)?;
                self.index(name, depth)
            }
        }
    }

    /// A place or a part behind its first number.
    fn placed(&mut self, name: u32, value: u32) -> Result<u32, ReadFault>
        requires room { used self.old + 2 < 2 ^ 32 }
        ensures read { (n : List ℕ) → slice_get self.old.words name ≡ Some n → Reads (held self.old.stack) self.old.words self.new result (placed n value (ahead self.old.tokens) (after_mark Colon (ahead self.old.tokens))) }
        ensures few { OnOk result (used self.new ≤ used self.old + 1) }
    {
        if self.mark(Sign::Colon) {
            let Some(low) = self.number() else {
                return Err(ReadFault::Syntax);
            };
            self.want_mark(Sign::CloseBracket)?;
            self.stack.part(name, value, low)?;
            return Ok(2);
        }
        self.want_mark(Sign::CloseBracket)?;
        self.stack.place(value)?;
        self.stack.index(name)?;
        Ok(2)
    }

    /// The parts of a concatenation and the brace that closes them.
    #[cycle(expressions)]
    fn braces(&mut self, budget: u32) -> Result<u32, ReadFault>
        ensures read { Reads (held self.old.stack) self.old.words self.new result (braces (expression budget) (ahead self.old.tokens)) }
        ensures few { OnOk result (used self.new ≤ used self.old) }
    {
        let mut depth: u32 = 0;
        let mut count: u32 = 0;
        'part: for turn in 0..self.tokens.len() {
            let part = self.expression(budget, 1)?;
            depth = depth.max(part);
            count += 1;
            if !self.mark(Sign::Comma) {
                self.want_mark(Sign::CloseBrace)?;
                let depth = deeper(depth)?;
                self.join_parts(count)?;
                return Ok(depth);
            }
        }
        Err(ReadFault::Syntax)
    }
}

impl Reader<'_> {
    /// The concatenation of so many expressions on top.
    fn join_parts(&mut self, count: u32) -> Result<(), ReadFault>
        requires some { HasParts count (held self.old.stack) }
        requires room { used self.old + count < 2 ^ 32 }
        ensures pieces { (ps : List NumberedExpr) (below : List Piece) → length ps ≡ count → held self.old.stack ≡ pushed ps below → OnOk result (held self.new.stack ≡ expr (concat_parts ps) ∷ below) }
        ensures memory { IfErr result (λ e. e ≡ Memory) }
        ensures tokens { self.new.tokens ≡ self.old.tokens }
        ensures words { self.new.words ≡ self.old.words }
        ensures few { OnOk result (used self.new ≤ used self.old + count) }
    {
        self.stack.one()?;
        'more: for turn in 1..count {
            self.stack.more()?;
        }
        Ok(())
    }
}

fn infix_of(token: Option<Token<'_>>) -> Option<BinOp>
    ensures { result ≡ infix_of_first (option_map token_view token.entry) }
{
    match token {
        Some(Token::Mark(sign)) => sign_infix(sign),
        _ => None,
    }
}

fn sign_infix(sign: Sign) -> Option<BinOp>
    ensures { result ≡ sign_infix sign }
{
    match sign {
        Sign::Star => Some(BinOp::Mul),
        Sign::Plus => Some(BinOp::Add),
        Sign::Minus => Some(BinOp::Sub),
        Sign::ShiftLeft => Some(BinOp::Shl),
        Sign::ShiftRight => Some(BinOp::Shr),
        Sign::Less => Some(BinOp::Lt),
        Sign::AtMost => Some(BinOp::Le),
        Sign::Greater => Some(BinOp::Gt),
        Sign::AtLeast => Some(BinOp::Ge),
        Sign::Same => Some(BinOp::Eq),
        Sign::Differs => Some(BinOp::Ne),
        Sign::Amp => Some(BinOp::And),
        Sign::Caret => Some(BinOp::Xor),
        Sign::Bar => Some(BinOp::Or),
        Sign::BothAmp => Some(BinOp::Both),
        Sign::BothBar => Some(BinOp::Either),
        _ => None,
    }
}

/// The least strength of what stands right of an operator, for operators group from the left.
fn above(op: BinOp) -> u32
    ensures { result ≡ strength op + 1 }
{
    strength(op) + 1
}

/// How strongly a binary operator binds.
fn strength(op: BinOp) -> u32
    ensures { result ≡ strength op }
{
    match op {
        BinOp::Mul => 11,
        BinOp::Add | BinOp::Sub => 10,
        BinOp::Shl | BinOp::Shr => 9,
        BinOp::Lt | BinOp::Le | BinOp::Gt | BinOp::Ge => 8,
        BinOp::Eq | BinOp::Ne => 7,
        BinOp::And => 6,
        BinOp::Xor => 5,
        BinOp::Or => 4,
        BinOp::Both => 3,
        BinOp::Either => 2,
    }
}
