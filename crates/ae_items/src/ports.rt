// The ports of the module of a program, and the words that stand on them.

use crate::items::{Item, element, element_words, item_at, lanes, layout_of};
use ae_compile::Costed;
use ae_seqtype::Value;
use ae_sttype::StType;
use std::alloc::{AllocError, Global};
use std::fmt::{self, Display};

/// The ports of a parameter or a result: a word of each lane.
#[derive(Clone, Copy)]
pub struct Bundle<'a> {
    pub layout: &'a StType,
    /// The number of the parameter or the result.
    pub number: usize,
    pub role: Role,
}

#[derive(Clone, Copy)]
pub enum Role {
    Parameter,
    /// The one result.
    Result,
    /// A result among several.
    OneResult,
}

/// A word of a lane.
#[derive(Clone, Copy)]
pub struct Column {
    pub lane: u32,
    pub word: u32,
    pub width: u32,
}

impl Bundle<'_> {
    /// The words of an element.
    pub fn words(&self) -> u32 {
        element_words(self.layout)
    }

    /// The column with a number, counted by lane and then by word.
    pub fn column(&self, number: u32) -> Option<Column> {
        let words = self.words();
        if words == 0 {
            return None;
        }
        let word = number % words;
        let width = self.layout.atom().width(word)?;
        Some(Column {
            lane: number / words,
            word,
            width,
        })
    }

    /// How many ports there are.
    pub fn columns(&self) -> u32 {
        lanes(self.layout).saturating_mul(self.words())
    }

    /// The word of a value that stands on a column in a clock of the block.
    pub fn word(&self, value: &Value, clock: u32, column: Column) -> Option<u64> {
        let element = element(self.layout, clock, column.lane)?;
        let place = u64::from(element)
            .saturating_mul(u64::from(self.words()))
            .saturating_add(u64::from(column.word));
        value.words.get(place as usize).copied()
    }

    /// The name of the port of a column.
    pub fn port_name(&self, column: Column) -> PortName {
        PortName {
            role: self.role,
            number: self.number,
            column,
        }
    }
}

/// The name of a port, which it displays as: `i0_1_2` is that of the first parameter, on lane 1 word 2, and `o_1_2` that of the one
/// result.
#[derive(Clone, Copy)]
pub struct PortName {
    role: Role,
    number: usize,
    column: Column,
}

impl Display for PortName {
    fn fmt<W: fmt::Write>(&self, f: &mut fmt::Formatter<W>) -> fmt::Result {
        let number = self.number;
        let Column {
            lane,
            word,
            width: _,
        } = self.column;
        match self.role {
            Role::Parameter => write!(f, "i{number}_{lane}_{word}"),
            Role::Result => write!(f, "o_{lane}_{word}"),
            Role::OneResult => write!(f, "o{number}_{lane}_{word}"),
        }
    }
}

/// The ports of all parameters.
pub fn inputs<'a>(alloc: Global, costed: &'a Costed) -> Result<Vec<Bundle<'a>>, AllocError> {
    let mut bundles = Vec::new(alloc);
    for (number, layout) in costed.main_instance().ins.iter().enumerate() {
        bundles.push(Bundle {
            layout,
            number,
            role: Role::Parameter,
        })?;
    }
    Ok(bundles)
}

/// The ports of all results.
pub fn outputs<'a>(alloc: Global, costed: &'a Costed) -> Result<Vec<Bundle<'a>>, AllocError> {
    let s = costed.main_instance();
    let role = if s.results.len() == 1 {
        Role::Result
    } else {
        Role::OneResult
    };
    let mut bundles = Vec::new(alloc);
    for (number, item) in s.results.iter().enumerate() {
        if let Some(layout) = layout_of(s, *item as usize) {
            bundles.push(Bundle {
                layout,
                number,
                role,
            })?;
        }
    }
    Ok(bundles)
}

/// The item of the program function whose words stand on a bundle.
pub fn item_of<'a>(costed: &'a Costed, bundle: &Bundle<'_>) -> Option<Item<'a>> {
    match bundle.role {
        Role::Parameter => item_at(costed, bundle.number),
        Role::Result | Role::OneResult => {
            let results = &costed.main_instance().results;
            item_at(costed, *results.get(bundle.number)? as usize)
        }
    }
}

/// The bits of a word: displayed as its range, `[7:0]`, and as nothing where it is one bit.
#[derive(Clone, Copy)]
pub struct BitRange(pub u32);

impl Display for BitRange {
    fn fmt<W: fmt::Write>(&self, f: &mut fmt::Formatter<W>) -> fmt::Result {
        let width = self.0;
        if width > 1 {
            write!(f, "[{}:0]", width - 1)
        } else {
            Ok(())
        }
    }
}
