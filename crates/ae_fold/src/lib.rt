//! Folds of words in time: accumulators, the mark of a block's first slot, and what their nets hold.
#![tactic(auto)]

mod feedback;
mod fold;
mod loops;
mod marks;
mod plan;
mod slots;
mod words;

pub use feedback::joined;
pub use fold::Fold;
pub use loops::copied;
pub use marks::{SlotMark, mark};
pub use plan::{Plan, levels};
pub use slots::over_slots;
pub use words::{WordFold, word_folds};
