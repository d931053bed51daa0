//! Refusals that explain themselves: the text that tells a planner where a session is refused, why, and what takes it further.
#![tactic(auto)]

mod becauses;
mod causes;
mod edits;
mod explaining;
mod headlines;
mod hint;
mod hint_lines;
mod limits;
mod lines;
mod names;
mod shown;
mod sorted;
mod sources;
mod spots;
mod syntax;
mod types;

pub use explaining::explanation;
pub use hint::Hint;
