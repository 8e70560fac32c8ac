//! Circuits between two channels whose ends say in each clock whether they take part, by valid and ready.
#![tactic(auto)]

mod laws;

pub use laws::{
    blocks_are_taken, controlled_circuits_stream, driven_circuits_go_on,
    driven_circuits_keep_words, driven_circuits_stream, held_circuits_are_inside,
    held_marks_are_seen, wired_controls_are_driven, wired_controls_have_no_paths,
};
