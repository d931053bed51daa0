//! A sketch of a session that need not be one: its text in pieces, and what is found among them by a rough look. It judges nothing: what
//! it finds is as good as the text is.
#![tactic(auto)]

mod arguments;
mod durations;
mod figures;
mod near;
mod pieces;
mod sections;
mod sheet;

pub use arguments::{
    DeclaredParameter, commas, declared, first_variant, given, is_argument, nth_parameter,
    parameter_named, value_end,
};
pub use durations::{digit_count, digits_in, duration_text, micros_of, unit_of, value_of};
pub use figures::{Figure, StartFields, start_fields_of};
pub use near::{distance, is_same_word};
pub use pieces::{Piece, pieces_of};
pub use sections::{end_of_branches, is_section, plan_duration, section_end};
pub use sheet::{
    Sheet, begins_with_digit, count_of, from_to, is_digits, is_word, nth, number_at, offset_of,
    part,
};
