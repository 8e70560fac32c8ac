// Reading a module from a text.

ghost use Rattle.std.specs.Prelude.{◌≡◌, ◌<◌, ◌^◌, [], length, IfOk};
ghost use Rattle.ae_vtoken.specs.Ahead.{ahead};
ghost use Rattle.ae_vtoken.specs.declared.token.Key.TheVariants.{EndModule};
ghost use Rattle.ae_vread.specs.ItemReading.{Held as HeldItems, is_last, items, read_module};
ghost use Rattle.ae_vmodule.specs.ModuleTree.{ModuleTree};
ghost use Rattle.ae_vread.specs.ReadModule.{GivesItems, GivesRead, IsHeld};
ghost use Rattle.ae_vread.specs.Refusals.{HasFault, FaultHolds, GivesModule, GivesFault};
ghost use Rattle.ae_vread.specs.Spells.{Spells};
ghost use Rattle.ae_vread.specs.TokenTests.{after_word};
ghost use Rattle.ae_vmodule.specs.View.{module_tree};
ghost use Rattle.ae_vread.specs.declared.reader.VFault.{VFault};

use crate::reading::{ReadFault, Reader, is_word};
use ae_keyed::Keyed;
use ae_vmodule::{PackedNet, Stack, VItem, VModule, Words};
use ae_vtoken::{BadToken, Key, Tokens};
use std::alloc::{AllocError, AllocFailed, Global};

/// Why a text is no module of the profile.
#[derive(Debug, Drop)]
pub enum VFault {
    /// The place, in bytes from 0, of the first byte outside blanks, comments and tokens.
    BadToken { at: u32 },
    /// The tokens do not begin with `module`, a name, ports in parentheses and `;`.
    BadHeader,
    /// So many items stand behind the header, and then neither an item nor an `endmodule` that is the last token.
    BadItem { item: u32 },
    Memory,
}

impl From<AllocError> for VFault {
    ghost use Rattle.std.specs.Prelude.{◌≡◌};
    ghost use Rattle.ae_vread.specs.declared.reader.VFault.TheVariants.{Memory};

    ghost from_gives = { λ _ e. e ≡ Memory };

    fn from(_: AllocError) -> VFault {
        VFault::Memory
    }
}

impl<T: Drop> From<AllocFailed<T>> for VFault {
    ghost use Rattle.std.specs.Prelude.{◌≡◌};
    ghost use Rattle.ae_vread.specs.declared.reader.VFault.TheVariants.{Memory};

    ghost from_gives = { λ _ e. e ≡ Memory };

    fn from(_: AllocFailed<T>) -> VFault {
        VFault::Memory
    }
}

impl Reader<'_> {
    /// Whether `endmodule` stands in front, as the last token.
    fn is_last(&self) -> bool
        ensures { result ≡ is_last (ahead self.now.tokens) (after_word EndModule (ahead self.now.tokens)) }
    {
        self.tokens.len() == 1 && is_word(Key::EndModule, self.tokens.first())
    }

    /// The items behind a header, of which there are fewer than tokens in all; what they declare goes behind its nets.
    fn items(
        &mut self,
        alloc: Global,
        most: u32,
        nets: &mut Vec<PackedNet>,
    ) -> Result<Vec<VItem>, VFault>
        ensures { (h : HeldItems) → IsHeld nets.old.items [] self.old h → GivesItems nets.new.items self.old.words self.new result (items most 0 h) }
    {
        let mut items = Vec::new(alloc);
        'item: for turn in 0..most {
            if self.is_last() {
                return Ok(items);
            }
            match self.item_at(alloc, nets, turn + 1) {
                Ok(item) => items.push(item)?,
                Err(ReadFault::Syntax) => return Err(VFault::BadItem { item: turn }),
                Err(ReadFault::Memory) => return Err(VFault::Memory),
            }
        }
        Err(VFault::BadItem { item: most })
    }
}

/// The module that the tokens of a reader are.
fn read_module<'a>(alloc: Global, start: Reader<'a>) -> Result<VModule<'a>, VFault>
    ensures { GivesRead result (read_module (ahead start.entry.tokens)) }
{
    let mut reader = start;
    let mut nets = Vec::new(alloc);
    let most = reader.tokens.len();
    match reader.header(&mut nets) {
        Ok(name) => {
            let items = reader.items(alloc, most, &mut nets)?;
            let words = reader.words.listed()?;
            Ok(VModule {
                words,
                name,
                nets,
                items,
            })
        }
        Err(ReadFault::Syntax) => Err(VFault::BadHeader),
        Err(ReadFault::Memory) => Err(VFault::Memory),
    }
}

/// The module that a text of fewer than 2 to the 32 bytes spells, by the grammar of IEEE 1364-2001 narrowed to the
/// profile; an expression or a statement more than 256 deep is none. `BadToken` is looked for first, over the whole
/// text. The time is linear in the text.
pub fn read<'a>(alloc: Global, text: &'a [u8]) -> Result<VModule<'a>, VFault>
    requires short { length text.now < 2 ^ 32 }
    ensures spelled { IfOk result (λ m. Spells text.now (module_tree m)) }
    ensures fault { FaultHolds text.now result }
    ensures every_module { (m : ModuleTree) → Spells text.now m → GivesModule m result }
    ensures every_fault { (e : VFault) → HasFault text.now e → GivesFault e result }
{
    match Tokens::of(text) {
        Ok(tokens) => read_module(
            alloc,
            Reader {
                words: Words::new(alloc, Keyed::behind(text)),
                stack: Stack::new(alloc),
                tokens,
            },
        ),
        Err(BadToken { at }) => Err(VFault::BadToken { at }),
    }
}
