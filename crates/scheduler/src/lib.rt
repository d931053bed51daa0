//! Schedules: a plan to which activities are added for goals, one trial after another.
#![tactic(auto)]

pub mod laws;
mod placing;
mod progress;
mod requests;
mod runs_with_spans;
mod scheduled;
mod scheduling;
mod searching;
mod trials;

pub use scheduled::Schedule;
pub use scheduling::schedule;
