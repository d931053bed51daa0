//! Sessions with all their rules: all that is needed to perform a session, or the first thing in it that is refused, as it is
//! told.
#![tactic(auto)]

mod accepted;
mod constraint_sections;
mod gathered;
mod goal_sections;
mod judge_error;
mod judged;
mod judging;
mod sections;
mod sequence_sections;
mod telling;
mod words;

pub use accepted::accepted_line;
pub use judge_error::JudgeError;
pub use judged::JudgedSession;
pub use judging::judge;
pub use telling::named_refusal;
