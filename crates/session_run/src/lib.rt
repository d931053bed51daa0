//! A session is performed: its clients' commands are carried out, and the text along the journal of what they did is put
//! together, or what is told of them is counted.
#![tactic(auto)]

mod client_benches;
mod counting;
mod in_turn;
pub mod laws;
mod missions;
mod on_threads;
mod performing;
mod summarizing;
mod summary;
mod texts;

pub use performing::{perform, perform_in_turn};
pub use summarizing::summarize_in_turn;
pub use summary::{Summary, summary_line};
