//! The spans of a run: when each activity began and ended, and what it returned. A law says which directives surely have one.
#![tactic(auto)]

mod begins;
mod body_states;
mod known_tasks;
pub mod laws;
mod numbering;
mod ordering;
mod progress;
mod span;
mod table;

pub use span::Span;
pub use table::spans;
