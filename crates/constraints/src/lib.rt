//! Constraints: rules about a run of a model, and the times at which they are violated.
#![tactic(auto)]

mod comparing;
mod copies;
mod evaluation;
mod forms;
mod judging;
pub mod laws;
mod local;
mod meeting;
mod near_spans;
mod offsets;
mod preparing;
mod readings;
mod sources;
mod span_times;
mod span_windows;
mod steps;
mod sums;
mod types;
mod violation;

pub use judging::{violations, violations_beside, window_times};
pub use types::{Constraint, Reading, Rule, RuleSum, RuleTerm, Window};
pub use violation::Violation;
