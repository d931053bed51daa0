//! What simulates the plans of a model for one client, and remembers the steps that were run.
#![tactic(auto)]

mod bench;
mod compiled_model;
mod desk;
mod noting;
mod plan_differences;
mod publishing;
mod putting;
mod simulating;
mod stock;
mod taking;

pub use bench::Bench;
pub use desk::{Desk, HandedRuns};
