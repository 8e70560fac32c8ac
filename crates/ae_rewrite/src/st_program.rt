// Programs in space and time.

ghost use Rattle.std.specs.Prelude.{◌≡◌, ◌<◌, ◌^◌, length, slice_get};
ghost use Rattle.std.specs.Option.{option_map};
ghost use Rattle.ae_rewrite.specs.StProgramTree.{st_func_trees};
ghost use Rattle.ae_rewrite.specs.Sound.{IsSound};

use ae_sttype::StType;
use ae_word::WordOp;
use std::marker::Model;

/// A move: where each element of the output comes from, by element number.
#[derive(Clone, Copy, Debug, PartialEq, Eq)]
pub enum MoveOp {
    /// From so many elements before; the first ones are words 0.
    Shift(u32),
    /// All of the input, so many times.
    Up(u32),
    /// From this part of the input on, counted in parts as large as the output.
    Select(u32),
    /// From the same element.
    Same,
}

/// What a node does with the blocks of its arguments (the operators of Durst et al., PLDI 2020).
#[derive(Debug, Drop)]
pub enum StOp {
    /// An operator on words, for signed words that on signed words.
    Word(WordOp),
    /// Pairs, element by element.
    Join,
    First,
    Second,
    /// A constant, by its words in row-major order.
    Fixed(Vec<u64>),
    Move(MoveOp),
    /// A left fold over so many outer slots of so many lanes, each word by its own kind. Its one result comes in the
    /// layout `raw`.
    Fold {
        op: WordOp,
        slots: u32,
        lanes: u32,
        raw: StType,
    },
    /// All left folds over so many outer slots of so many lanes, each word by its own kind.
    Scan {
        op: WordOp,
        slots: u32,
        lanes: u32,
    },
    /// An earlier instance, for a call or for each element of a map.
    Body(u32),
}

/// A node: what it does with items above it, its layout, in how many copies, and its line in the text.
#[derive(Debug, Drop)]
pub struct StNode {
    pub op: StOp,
    pub args: Vec<u32>,
    pub ty: StType,
    /// Of a map one for each lane, of all others 1.
    pub copies: u32,
    pub line: u32,
}

/// An instance: a function under a budget, the clocks of a block. Its items are its parameters and then its nodes,
/// numbered from 0, and each layout takes the budget.
#[derive(Debug, Drop)]
pub struct StFunc {
    /// The function's number in the program.
    pub func: u32,
    pub budget: u32,
    pub ins: Vec<StType>,
    pub nodes: Vec<StNode>,
    pub results: Vec<u32>,
    pub end_line: u32,
}

/// A program in space and time: an instance for each function and budget that is reached, the program function last.
#[derive(Drop)]
pub struct StProgram {
    instances: Vec<StFunc>,
}

impl Model for StProgram {
    ghost use Rattle.std.specs.Prelude.{List, length, ◌<◌, ◌^◌};
    ghost use Rattle.std.specs.Coded.{codes};
    ghost use Rattle.ae_sttype.specs.contracts.st_type.StType as e;
    ghost use Rattle.ae_rewrite.specs.declared.st_program.StFunc.{StFunc};
    ghost use Rattle.ae_rewrite.specs.StProgramTree.{st_func_trees};
    ghost use Rattle.ae_rewrite.specs.Sound.{IsSound};

    ghost Value = { List StFunc };

    ghost coded = { Prim.hlevel (codes, e.the_row.coded) };

    ghost view = { λ p. p.instances.items };

    ghost invariant = { λ p. (length p.instances.items < 2 ^ 32) × IsSound (st_func_trees p.instances.items) };
}

impl StProgram {
    pub(crate) fn new(instances: Vec<StFunc>) -> StProgram
        requires few { length instances.items < 2 ^ 32 }
        requires sound { IsSound (st_func_trees instances.items) }
        ensures { result ≡ instances.items }
    {
        StProgram { instances }
    }

    /// How many instances there are, at least one; and what is sure of all of them.
    pub fn count(&self) -> u32
        ensures count { result ≡ length self.now }
        ensures few { length self.now < 2 ^ 32 }
        ensures sound { IsSound (st_func_trees self.now) }
    {
        self.instances.len() as u32
    }

    /// Instance number `k`; None exactly where `k` is not below the count.
    pub fn instance(&self, k: u32) -> Option<&StFunc>
        ensures { option_map (λ r. r.now) result ≡ slice_get self.now k }
    {
        self.instances.get(k as usize)
    }
}
