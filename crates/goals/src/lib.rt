//! Goals: what a schedule is to reach. What a goal lacks on a run, and at which times its activity is tried.
#![tactic(auto)]

mod anchors;
mod candidate_times;
mod filled;
mod first_gaps;
mod gap;
mod gaps;
mod matching;
mod status;
mod types;
mod unmet;

pub use candidate_times::candidates;
pub use filled::is_filled;
pub use first_gaps::{met, missing};
pub use gap::Gap;
pub use status::GoalStatus;
pub use types::{Goal, GoalAnchor, GoalKind, Template};
pub use unmet::{OpenGap, Rejection, Unmet};
