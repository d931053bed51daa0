//! The spans of a run, from those of a run that differs little from it.
#![tactic(auto)]

mod comparing;
mod frame_cursor;
mod gathering;
mod merging;
mod roots;
mod span_beside;

pub use span_beside::spans_beside;
