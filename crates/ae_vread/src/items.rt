// Reading a module's items from the tokens.

ghost use Rattle.std.specs.Prelude.{◌≡◌, ◌≤◌, List, OnOk, length, true, false};
ghost use Rattle.ae_vtoken.specs.Ahead.{ahead};
ghost use Rattle.ae_vmodule.specs.Held.{held};
ghost use Rattle.ae_vread.specs.ItemReading.{always_from, assign_from, clock_from, has_equals, item_at, reg_item, wire_item, wires};
ghost use Rattle.ae_vread.specs.Read.{Clocks};
ghost use Rattle.ae_vread.specs.ReadExpr.{used};
ghost use Rattle.ae_vread.specs.ReadList.{Declares, ReadsItem};
ghost use Rattle.ae_vmodule.specs.Words.{Extends};
ghost use Rattle.ae_vmodule.specs.declared.module.VNet.{VNet};

use crate::lists::net;
use crate::reading::{ReadFault, Reader, is_mark};
use ae_vmodule::{Drive, NetKind, PackedNet, VItem};
use ae_vtoken::{Key, Sign, Token};
use std::alloc::Global;

/// The names that drives of a declaration declare, behind other nets.
fn drive_nets(
    nets: &mut Vec<PackedNet>,
    drives: &[Drive],
    high: Option<u32>,
    item: u32,
) -> Result<(), ReadFault>
    ensures { Declares nets.old.items nets.new.items result drives.now high item }
{
    'each: for drive in drives {
        nets.push(net(drive.name, high, NetKind::Wire, item))?;
    }
    Ok(())
}

impl Reader<'_> {
    /// Whether `=` stands behind the first token.
    fn has_equals(&self) -> bool
        ensures { result ≡ has_equals (ahead self.now.tokens) }
    {
        is_mark(Sign::Equals, self.tokens.rest().first())
    }

    /// Drives of a declaration, up to its semicolon.
    fn wire_drives(
        &mut self,
        alloc: Global,
        nets: &mut Vec<PackedNet>,
        high: Option<u32>,
        item: u32,
    ) -> Result<VItem, ReadFault>
        ensures read { ReadsItem nets.old.items nets.new.items self.old.words self.new result (wires item high (ahead self.old.tokens) true) }
        ensures few { OnOk result (used self.new ≤ used self.old) }
        ensures stack { OnOk result (held self.new.stack ≡ held self.old.stack) }
    {
        let mut drives = Vec::with_capacity(alloc, 1)?;
        self.drive_list(&mut drives)?;
        self.want_mark(Sign::Semicolon)?;
        drive_nets(nets, &drives, high, item)?;
        Ok(VItem::nets(drives))
    }

    /// Names of a declaration, up to its semicolon.
    fn wire_names(
        &mut self,
        alloc: Global,
        nets: &mut Vec<PackedNet>,
        high: Option<u32>,
        item: u32,
    ) -> Result<VItem, ReadFault>
        ensures read { ReadsItem nets.old.items nets.new.items self.old.words self.new result (wires item high (ahead self.old.tokens) false) }
        ensures few { OnOk result (used self.new ≤ used self.old) }
        ensures stack { OnOk result (held self.new.stack ≡ held self.old.stack) }
    {
        self.net_list(nets, high, NetKind::Wire, item)?;
        self.want_mark(Sign::Semicolon)?;
        Ok(VItem::nets(Vec::new(alloc)))
    }

    /// Behind `wire`, a declaration.
    fn wire_item(
        &mut self,
        alloc: Global,
        nets: &mut Vec<PackedNet>,
        item: u32,
    ) -> Result<VItem, ReadFault>
        ensures read { ReadsItem nets.old.items nets.new.items self.old.words self.new result (wire_item item (ahead self.old.tokens)) }
        ensures few { OnOk result (used self.new ≤ used self.old) }
        ensures stack { OnOk result (held self.new.stack ≡ held self.old.stack) }
    {
        let high = self.range()?;
        if self.has_equals() {
            return self.wire_drives(alloc, nets, high, item);
        }
        self.wire_names(alloc, nets, high, item)
    }

    /// Behind `reg`, a declaration.
    fn reg_item(
        &mut self,
        alloc: Global,
        nets: &mut Vec<PackedNet>,
        item: u32,
    ) -> Result<VItem, ReadFault>
        ensures read { ReadsItem nets.old.items nets.new.items self.old.words self.new result (reg_item item (ahead self.old.tokens)) }
        ensures few { OnOk result (used self.new ≤ used self.old) }
        ensures stack { OnOk result (held self.new.stack ≡ held self.old.stack) }
    {
        let high = self.range()?;
        self.reg_list(nets, high, item)?;
        self.want_mark(Sign::Semicolon)?;
        Ok(VItem::nets(Vec::new(alloc)))
    }

    /// Behind `assign`, its drives.
    fn assign_from(&mut self, alloc: Global) -> Result<VItem, ReadFault>
        ensures read { (nets : List VNet) → ReadsItem nets nets self.old.words self.new result (assign_from (ahead self.old.tokens)) }
        ensures few { OnOk result (used self.new ≤ used self.old) }
        ensures stack { OnOk result (held self.new.stack ≡ held self.old.stack) }
    {
        let mut drives = Vec::with_capacity(alloc, 1)?;
        self.drive_list(&mut drives)?;
        self.want_mark(Sign::Semicolon)?;
        Ok(VItem::assigns(drives))
    }

    /// The clock of an `always` item, in its parentheses.
    fn clock_from(&mut self) -> Result<u32, ReadFault>
        ensures read { Clocks (ahead self.new.tokens) self.new.words result (clock_from (ahead self.old.tokens)) }
        ensures few { OnOk result (length (ahead self.new.tokens) ≤ length (ahead self.old.tokens)) }
        ensures stack { self.new.stack ≡ self.old.stack }
        ensures words { Extends self.old.words self.new.words }
    {
        self.want_mark(Sign::At)?;
        self.want_mark(Sign::Open)?;
        self.want_word(Key::Posedge)?;
        let clock = self.want_name()?;
        self.want_mark(Sign::Close)?;
        Ok(clock)
    }

    /// Behind `always`, its clock and its statement.
    fn always_from(&mut self) -> Result<VItem, ReadFault>
        ensures read { (nets : List VNet) → ReadsItem nets nets self.old.words self.new result (always_from (ahead self.old.tokens)) }
        ensures few { OnOk result (used self.new ≤ used self.old) }
        ensures stack { OnOk result (held self.new.stack ≡ held self.old.stack) }
    {
        let clock = self.clock_from()?;
        self.whole_statement()?;
        let body = self.stack.take_stmt()?;
        Ok(VItem::always(clock, body))
    }

    /// The item with this number; what it declares goes behind the nets.
    pub fn item_at(
        &mut self,
        alloc: Global,
        nets: &mut Vec<PackedNet>,
        item: u32,
    ) -> Result<VItem, ReadFault>
        ensures read { ReadsItem nets.old.items nets.new.items self.old.words self.new result (item_at item (ahead self.old.tokens)) }
        ensures few { OnOk result (used self.new ≤ used self.old) }
        ensures stack { OnOk result (held self.new.stack ≡ held self.old.stack) }
    {
        match self.tokens.first() {
            Some(Token::Word(Key::Wire)) => {
                self.skip();
                self.wire_item(alloc, nets, item)
            }
            Some(Token::Word(Key::Reg)) => {
                self.skip();
                self.reg_item(alloc, nets, item)
            }
            Some(Token::Word(Key::Assign)) => {
                self.skip();
                self.assign_from(alloc)
            }
            Some(Token::Word(Key::Always)) => {
                self.skip();
                self.always_from()
            }
            _ => Err(ReadFault::Syntax),
        }
    }
}
