// One result of a program that only moves words.

use ae_moves::Origin;
use ae_sttype::StType;

/// One result: its layout, and where each of its words comes from.
#[derive(Drop)]
pub struct FusedResult {
    pub out: StType,
    pub source: Vec<Origin>,
}
