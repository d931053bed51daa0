//! The values of a model's resources over a run.
#![tactic(auto)]

mod discrete;
mod linear;
mod profiling;
mod runs;
mod sampling;
mod states;
mod touches;
mod watching;

pub use profiling::{profile, profiles};
pub use sampling::{Profile, Sample};
