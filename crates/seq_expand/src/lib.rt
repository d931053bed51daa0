//! Sequences: rules turn the spans of a run into commands with their times, and say which of them stand too close.
#![tactic(auto)]

mod closeness;
mod expanding;
mod order;
mod rules;
mod sending;
mod sequence;

pub use expanding::{expand, expand_beside};
pub use rules::{SendStep, SendTest, SendWord, Sequencing, SpanRule};
pub use sequence::{Sent, Sequence};
