// The parts of a module.

use crate::items::VItem;
use crate::packed_net::PackedNet;
use crate::symbols::Code;
use crate::words::WordList;

/// A module of the profile: its declared names in text order, ports first, and its items. Names stand by their numbers, those of
/// the different names of its text.
#[derive(Drop)]
pub struct VModule<'a> {
    pub words: WordList<'a>,
    pub name: u32,
    pub nets: Vec<PackedNet>,
    pub items: Vec<VItem>,
}

/// A declared name. The header is item 0, and items are numbered from 1.
#[derive(Clone, Copy, Debug)]
pub struct VNet {
    pub name: u32,
    /// In bits; one above 255 is kept as 255.
    pub width: u32,
    /// Whether its declaration or port group has a range.
    pub ranged: bool,
    pub kind: NetKind,
    pub item: u32,
}

#[derive(Clone, Copy, Debug)]
pub enum NetKind {
    Input,
    Wire,
    OutWire,
    Reg,
    OutReg,
    /// A memory of so many words; more than 65,537 are kept as 65,537.
    Memory(u32),
}

#[derive(Debug, Drop)]
pub struct Drive {
    pub name: u32,
    pub value: Code,
}

/// `!` and `~`.
#[derive(Clone, Copy, Debug)]
pub enum UnOp {
    Not,
    Flip,
}

/// The binary operators; `Both` is `&&` and `Either` is `||`.
#[derive(Clone, Copy, Debug)]
pub enum BinOp {
    Mul,
    Add,
    Sub,
    Shl,
    Shr,
    Lt,
    Le,
    Gt,
    Ge,
    Eq,
    Ne,
    And,
    Xor,
    Or,
    Both,
    Either,
}
