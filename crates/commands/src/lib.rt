//! What clients ask for: commands, and the edits of plans among them.
#![tactic(auto)]

mod arguments;
mod commands;
mod edits;

pub use commands::Command;
pub use edits::Edit;
