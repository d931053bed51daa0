//! Hints: what could be put into the text of a session that is refused, so that the session comes further. Each hint was tried.
#![tactic(auto)]

mod candidates;
mod reaching;
mod stages;
mod trials;

pub use reaching::reached;
pub use stages::Reach;
pub use trials::hints;
