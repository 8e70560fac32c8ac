// Reading a module's header from the tokens.

ghost use Rattle.std.specs.Prelude.{◌≡◌, ◌≤◌, ◌+◌, IfOk, OnOk, length};
ghost use Rattle.ae_vtoken.specs.Ahead.{ahead};
ghost use Rattle.ae_vtoken.specs.declared.token.Key.TheVariants.{Wire as KeyWire, Reg as KeyReg};
ghost use Rattle.ae_vmodule.specs.Held.{held};
ghost use Rattle.ae_vmodule.specs.PackedNets.{FitsKind};
ghost use Rattle.ae_vread.specs.ItemReading.{header, output_from, port, port_head, port_list, with_comma, without_wire};
ghost use Rattle.ae_vread.specs.Read.{Heads};
ghost use Rattle.ae_vread.specs.ReadExpr.{used};
ghost use Rattle.ae_vread.specs.ReadList.{ReadsHeader, ReadsList, StepsList};
ghost use Rattle.ae_vread.specs.TokenTests.{after_word};
ghost use Rattle.ae_vmodule.specs.View.{net_tree};

use crate::reading::{ReadFault, Reader};
use ae_vmodule::{NetKind, PackedNet};
use ae_vtoken::{Key, Sign};

impl Reader<'_> {
    /// Goes on behind an optional `wire`.
    fn without_wire(&mut self)
        ensures read { ahead self.new.tokens ≡ without_wire (ahead self.old.tokens) (after_word KeyWire (ahead self.old.tokens)) }
        ensures few { length (ahead self.new.tokens) ≤ length (ahead self.old.tokens) }
        ensures stack { self.new.stack ≡ self.old.stack }
        ensures words { self.new.words ≡ self.old.words }
    {
        self.word(Key::Wire);
    }

    /// What stands behind `output`.
    fn output_from(&mut self) -> NetKind
        ensures kept { FitsKind result }
        ensures read { (result, ahead self.new.tokens) ≡ output_from (ahead self.old.tokens) (after_word KeyReg (ahead self.old.tokens)) }
        ensures few { length (ahead self.new.tokens) ≤ length (ahead self.old.tokens) }
        ensures stack { self.new.stack ≡ self.old.stack }
        ensures words { self.new.words ≡ self.old.words }
    {
        if self.word(Key::Reg) {
            return NetKind::OutReg;
        }
        self.without_wire();
        NetKind::OutWire
    }

    /// What a group of ports begins with.
    fn port_head(&mut self) -> Result<NetKind, ReadFault>
        ensures kept { IfOk result (λ kind. FitsKind kind) }
        ensures read { Heads (ahead self.new.tokens) result (port_head (ahead self.old.tokens)) }
        ensures few { OnOk result (length (ahead self.new.tokens) ≤ length (ahead self.old.tokens)) }
        ensures stack { self.new.stack ≡ self.old.stack }
        ensures words { self.new.words ≡ self.old.words }
    {
        if self.word(Key::Input) {
            self.without_wire();
            return Ok(NetKind::Input);
        }
        self.want_word(Key::Output)?;
        Ok(self.output_from())
    }

    /// A group of ports.
    fn port(&mut self, nets: &mut Vec<PackedNet>) -> Result<(), ReadFault>
        ensures read { ReadsList net_tree nets.old.items nets.new.items self.old.words self.new result (port (ahead self.old.tokens)) }
        ensures few { OnOk result (used self.new + 1 ≤ used self.old) }
        ensures stack { OnOk result (held self.new.stack ≡ held self.old.stack) }
    {
        let kind = self.port_head()?;
        let high = self.range()?;
        self.net_list(nets, high, kind, 0)
    }

    /// Behind a comma, a group of ports.
    fn comma_port(&mut self, nets: &mut Vec<PackedNet>) -> Result<bool, ReadFault>
        ensures read { StepsList net_tree nets.old.items nets.new.items self.old.words self.new result (with_comma port (ahead self.old.tokens)) (ahead self.old.tokens) }
        ensures few { OnOk result (used self.new ≤ used self.old) }
        ensures stack { OnOk result (held self.new.stack ≡ held self.old.stack) }
    {
        if !self.mark(Sign::Comma) {
            return Ok(false);
        }
        self.port(nets)?;
        Ok(true)
    }

    /// One or more groups of ports with commas between them.
    fn port_list(&mut self, nets: &mut Vec<PackedNet>) -> Result<(), ReadFault>
        ensures read { ReadsList net_tree nets.old.items nets.new.items self.old.words self.new result (port_list (ahead self.old.tokens)) }
        ensures few { OnOk result (used self.new + 1 ≤ used self.old) }
        ensures stack { OnOk result (held self.new.stack ≡ held self.old.stack) }
    {
        let most = self.tokens.len();
        self.port(nets)?;
        'next: for turn in 0..most {
            if !self.comma_port(nets)? {
                return Ok(());
            }
        }
        Err(ReadFault::Syntax)
    }

    /// A module's header: its name, and its ports behind other nets.
    pub fn header(&mut self, nets: &mut Vec<PackedNet>) -> Result<u32, ReadFault>
        ensures read { ReadsHeader nets.old.items nets.new.items self.old.words self.new result (header (ahead self.old.tokens)) }
        ensures few { OnOk result (used self.new ≤ used self.old) }
        ensures stack { OnOk result (held self.new.stack ≡ held self.old.stack) }
    {
        self.want_word(Key::Module)?;
        let name = self.want_name()?;
        self.want_mark(Sign::Open)?;
        self.port_list(nets)?;
        self.want_mark(Sign::Close)?;
        self.want_mark(Sign::Semicolon)?;
        Ok(name)
    }
}
