//! Modules of the Verilog profile: declared names, items, and expressions and statements in postfix code.
#![tactic(auto)]

mod items;
mod module;
mod packed_net;
mod roots;
mod stack;
mod symbols;
mod words;

pub use items::{ItemParts, VItem};
pub use module::{BinOp, Drive, NetKind, UnOp, VModule, VNet};
pub use packed_net::PackedNet;
pub use stack::Stack;
pub use symbols::{Code, Expr, Root, Stmt, StmtCode, StmtRoot, Symbol};
pub use words::{WordList, Words};
