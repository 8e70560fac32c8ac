//! Parts of a circuit, by what they do to the blocks of values that go over their nets.
#![tactic(auto)]

mod bundle;
mod combine;
mod compute;
mod late;
mod make;
mod square;
mod stage;
mod sums;
mod word;

pub use bundle::Bundle;
pub use combine::combined;
pub use late::delay;
pub use stage::Stage;
pub use word::WordStage;
