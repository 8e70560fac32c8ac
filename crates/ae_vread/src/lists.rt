// Reading lists of names, registers and drives from the tokens.

ghost use Rattle.std.specs.Prelude.{◌≡◌, ◌≤◌, ◌+◌, ℕ, List, OnOk, Some, length, option_map, slice_get};
ghost use Rattle.ae_vtoken.specs.Ahead.{ahead};
ghost use Rattle.ae_vread.specs.ItemReading.{after_zero, comma_net, drive_list, drive_tree_of, is_zero_first, net_by, net_list, one_drive, one_more, one_net, one_reg, range, reg_from, reg_list, with_comma};
ghost use Rattle.ae_vmodule.specs.Held.{held};
ghost use Rattle.ae_vmodule.specs.PackedNets.{FitsKind};
ghost use Rattle.ae_vread.specs.ReadExpr.{used};
ghost use Rattle.ae_vread.specs.ReadList.{ReadsList, StepsList};
ghost use Rattle.ae_vmodule.specs.View.{drive_tree, net_tree};
ghost use Rattle.ae_vtoken.specs.declared.token.Sign.TheVariants.{OpenBracket};
ghost use Rattle.ae_vread.specs.TokenTests.{after_mark, first_number};
ghost use Rattle.ae_vtoken.specs.Scan.{token_view};
ghost use Rattle.ae_vread.specs.Read.{Numbers, Ranges, Steps, net_of};

use crate::reading::{ReadFault, Reader};
use ae_vmodule::{Drive, NetKind, PackedNet, VNet};
use ae_vtoken::{Sign, Token};

/// One more, up to `most`.
fn one_more(n: u32, most: u32) -> u32
    ensures { result ≡ one_more most n }
{
    if n < most { n + 1 } else { most }
}

/// A declared name: its width is one more than the number in front of its range's colon, up to 255, and 1 without a range.
pub fn net(name: u32, high: Option<u32>, kind: NetKind, item: u32) -> PackedNet
    requires { FitsKind kind }
    ensures { result ≡ net_of name high kind item }
{
    match high {
        None => PackedNet::of(VNet {
            name,
            width: 1,
            ranged: false,
            kind,
            item,
        }),
        Some(high) => PackedNet::of(VNet {
            name,
            width: one_more(high, 255),
            ranged: true,
            kind,
            item,
        }),
    }
}

fn is_zero(token: Option<Token<'_>>) -> bool
    ensures { result ≡ is_zero_first (option_map token_view token.entry) }
{
    matches!(token, Some(Token::Zero))
}

impl Reader<'_> {
    fn want_zero(&mut self) -> Result<(), ReadFault>
        ensures read { Steps (ahead self.new.tokens) result (after_zero (ahead self.old.tokens)) }
        ensures shorter { OnOk result (length (ahead self.new.tokens) + 1 ≡ length (ahead self.old.tokens)) }
        ensures stack { self.new.stack ≡ self.old.stack }
        ensures words { self.new.words ≡ self.old.words }
    {
        if is_zero(self.tokens.first()) {
            self.skip();
            Ok(())
        } else {
            Err(ReadFault::Syntax)
        }
    }

    /// A decimal number, which has to stand in front.
    fn want_number(&mut self) -> Result<u32, ReadFault>
        ensures read { Numbers (ahead self.new.tokens) result (first_number (ahead self.old.tokens)) }
        ensures shorter { OnOk result (length (ahead self.new.tokens) + 1 ≡ length (ahead self.old.tokens)) }
        ensures stack { self.new.stack ≡ self.old.stack }
        ensures words { self.new.words ≡ self.old.words }
    {
        match self.number() {
            Some(number) => Ok(number),
            None => Err(ReadFault::Syntax),
        }
    }

    /// The number in front of the colon of a range, if there is a range.
    pub fn range(&mut self) -> Result<Option<u32>, ReadFault>
        ensures read { Ranges (ahead self.new.tokens) result (range (ahead self.old.tokens)) }
        ensures few { OnOk result (length (ahead self.new.tokens) ≤ length (ahead self.old.tokens)) }
        ensures stack { self.new.stack ≡ self.old.stack }
        ensures words { self.new.words ≡ self.old.words }
    {
        if !self.mark(Sign::OpenBracket) {
            return Ok(None);
        }
        let high = self.want_number()?;
        self.want_mark(Sign::Colon)?;
        self.want_zero()?;
        self.want_mark(Sign::CloseBracket)?;
        Ok(Some(high))
    }
}

impl Reader<'_> {
    /// A declared name.
    fn one_net(
        &mut self,
        nets: &mut Vec<PackedNet>,
        high: Option<u32>,
        kind: NetKind,
        item: u32,
    ) -> Result<(), ReadFault>
        requires { FitsKind kind }
        ensures read { ReadsList net_tree nets.old.items nets.new.items self.old.words self.new result (one_net (net_by high kind item) (ahead self.old.tokens)) }
        ensures few { OnOk result (used self.new + 1 ≤ used self.old) }
        ensures stack { OnOk result (held self.new.stack ≡ held self.old.stack) }
    {
        let name = self.want_name()?;
        nets.push(net(name, high, kind, item))?;
        Ok(())
    }

    /// A comma and a name, if both stand in front.
    fn comma_net(
        &mut self,
        nets: &mut Vec<PackedNet>,
        high: Option<u32>,
        kind: NetKind,
        item: u32,
    ) -> Result<bool, ReadFault>
        requires { FitsKind kind }
        ensures read { StepsList net_tree nets.old.items nets.new.items self.old.words self.new result (comma_net (net_by high kind item) (ahead self.old.tokens)) (ahead self.old.tokens) }
        ensures few { OnOk result (used self.new ≤ used self.old) }
        ensures stack { OnOk result (held self.new.stack ≡ held self.old.stack) }
    {
        let before = self.tokens;
        if self.mark(Sign::Comma) {
            let found = self.name()?;
            if let Some(name) = found {
                nets.push(net(name, high, kind, item))?;
                return Ok(true);
            }
        }
        self.tokens = before;
        Ok(false)
    }

    /// One or more names with commas between them.
    pub fn net_list(
        &mut self,
        nets: &mut Vec<PackedNet>,
        high: Option<u32>,
        kind: NetKind,
        item: u32,
    ) -> Result<(), ReadFault>
        requires { FitsKind kind }
        ensures read { ReadsList net_tree nets.old.items nets.new.items self.old.words self.new result (net_list (net_by high kind item) (ahead self.old.tokens)) }
        ensures few { OnOk result (used self.new + 1 ≤ used self.old) }
        ensures stack { OnOk result (held self.new.stack ≡ held self.old.stack) }
    {
        let most = self.tokens.len();
        self.one_net(nets, high, kind, item)?;
        'next: for turn in 0..most {
            if !self.comma_net(nets, high, kind, item)? {
                return Ok(());
            }
        }
        Err(ReadFault::Syntax)
    }

    /// A register or a memory behind its name.
    fn reg_from(
        &mut self,
        name: u32,
        nets: &mut Vec<PackedNet>,
        high: Option<u32>,
        item: u32,
    ) -> Result<(), ReadFault>
        ensures read { (n : List ℕ) → slice_get self.old.words name ≡ Some n → ReadsList net_tree nets.old.items nets.new.items self.old.words self.new result (reg_from high item n (ahead self.old.tokens) (after_mark OpenBracket (ahead self.old.tokens))) }
        ensures few { OnOk result (used self.new ≤ used self.old) }
        ensures stack { OnOk result (held self.new.stack ≡ held self.old.stack) }
    {
        if !self.mark(Sign::OpenBracket) {
            nets.push(net(name, high, NetKind::Reg, item))?;
            return Ok(());
        }
        self.want_zero()?;
        self.want_mark(Sign::Colon)?;
        let last = self.want_number()?;
        self.want_mark(Sign::CloseBracket)?;
        nets.push(net(name, high, NetKind::Memory(one_more(last, 65537)), item))?;
        Ok(())
    }

    /// A register or a memory.
    fn one_reg(
        &mut self,
        nets: &mut Vec<PackedNet>,
        high: Option<u32>,
        item: u32,
    ) -> Result<(), ReadFault>
        ensures read { ReadsList net_tree nets.old.items nets.new.items self.old.words self.new result (one_reg high item (ahead self.old.tokens)) }
        ensures few { OnOk result (used self.new + 1 ≤ used self.old) }
        ensures stack { OnOk result (held self.new.stack ≡ held self.old.stack) }
    {
        let name = self.want_name()?;
        self.reg_from(name, nets, high, item)
    }

    /// Behind a comma, a register or a memory.
    fn comma_reg(
        &mut self,
        nets: &mut Vec<PackedNet>,
        high: Option<u32>,
        item: u32,
    ) -> Result<bool, ReadFault>
        ensures read { StepsList net_tree nets.old.items nets.new.items self.old.words self.new result (with_comma (one_reg high item) (ahead self.old.tokens)) (ahead self.old.tokens) }
        ensures few { OnOk result (used self.new ≤ used self.old) }
        ensures stack { OnOk result (held self.new.stack ≡ held self.old.stack) }
    {
        if !self.mark(Sign::Comma) {
            return Ok(false);
        }
        self.one_reg(nets, high, item)?;
        Ok(true)
    }

    /// One or more registers and memories with commas between them.
    pub fn reg_list(
        &mut self,
        nets: &mut Vec<PackedNet>,
        high: Option<u32>,
        item: u32,
    ) -> Result<(), ReadFault>
        ensures read { ReadsList net_tree nets.old.items nets.new.items self.old.words self.new result (reg_list high item (ahead self.old.tokens)) }
        ensures few { OnOk result (used self.new + 1 ≤ used self.old) }
        ensures stack { OnOk result (held self.new.stack ≡ held self.old.stack) }
    {
        let most = self.tokens.len();
        self.one_reg(nets, high, item)?;
        'next: for turn in 0..most {
            if !self.comma_reg(nets, high, item)? {
                return Ok(());
            }
        }
        Err(ReadFault::Syntax)
    }

    /// A drive behind its name and `=`.
    fn drive_from(&mut self, name: u32, drives: &mut Vec<Drive>) -> Result<(), ReadFault>
        ensures read { (n : List ℕ) → slice_get self.old.words name ≡ Some n → ReadsList drive_tree drives.old.items drives.new.items self.old.words self.new result (drive_tree_of n (ahead self.old.tokens)) }
        ensures few { OnOk result (used self.new ≤ used self.old) }
        ensures stack { OnOk result (held self.new.stack ≡ held self.old.stack) }
    {
        self.whole_expression()?;
        let value = self.stack.take_expr()?;
        drives.push(Drive { name, value })?;
        Ok(())
    }

    /// A name, `=` and its value.
    fn one_drive(&mut self, drives: &mut Vec<Drive>) -> Result<(), ReadFault>
        ensures read { ReadsList drive_tree drives.old.items drives.new.items self.old.words self.new result (one_drive (ahead self.old.tokens)) }
        ensures few { OnOk result (used self.new + 1 ≤ used self.old) }
        ensures stack { OnOk result (held self.new.stack ≡ held self.old.stack) }
    {
        let name = self.want_name()?;
        self.want_mark(Sign::Equals)?;
        self.drive_from(name, drives)
    }

    /// Behind a comma, a drive.
    fn comma_drive(&mut self, drives: &mut Vec<Drive>) -> Result<bool, ReadFault>
        ensures read { StepsList drive_tree drives.old.items drives.new.items self.old.words self.new result (with_comma one_drive (ahead self.old.tokens)) (ahead self.old.tokens) }
        ensures few { OnOk result (used self.new ≤ used self.old) }
        ensures stack { OnOk result (held self.new.stack ≡ held self.old.stack) }
    {
        if !self.mark(Sign::Comma) {
            return Ok(false);
        }
        self.one_drive(drives)?;
        Ok(true)
    }

    /// One or more drives with commas between them.
    pub fn drive_list(&mut self, drives: &mut Vec<Drive>) -> Result<(), ReadFault>
        ensures read { ReadsList drive_tree drives.old.items drives.new.items self.old.words self.new result (drive_list (ahead self.old.tokens)) }
        ensures few { OnOk result (used self.new + 1 ≤ used self.old) }
        ensures stack { OnOk result (held self.new.stack ≡ held self.old.stack) }
    {
        let most = self.tokens.len();
        self.one_drive(drives)?;
        'next: for turn in 0..most {
            if !self.comma_drive(drives)? {
                return Ok(());
            }
        }
        Err(ReadFault::Syntax)
    }
}
