//! Frames of an old batch that are those of a new one.
#![tactic(auto)]

mod beginnings;
mod frames;

pub use frames::fit_job;
