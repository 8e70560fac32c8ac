// Declarations of wires.

use std::fmt::{self, Display};

/// So many wires of a kind, as they are declared: `reg [7:0]`, and `reg` for one.
#[derive(Clone, Copy)]
pub struct Wires<'a> {
    pub kind: &'a str,
    pub bits: u32,
}

impl Display for Wires<'_> {
    fn fmt<W: fmt::Write>(&self, f: &mut fmt::Formatter<W>) -> fmt::Result {
        let Wires { kind, bits } = *self;
        if bits > 1 {
            write!(f, "{kind} [{}:0]", bits - 1)
        } else {
            write!(f, "{kind}")
        }
    }
}
