//! Where something stands in a text: lines, their fields, a mark under a place, and the nearest of some names.
#![tactic(auto)]

mod names;
mod places;

pub use names::{is_known, nearest, push_nearest};
pub use places::{
    Field, Finding, at_field, at_place, fields, line_at, place_behind, place_of, push_finding,
    push_marked, push_place, text_of,
};
