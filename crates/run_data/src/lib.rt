//! What a simulation is made of: tasks, jobs, frames, instants and runs, and the definitions of what they mean.
#![tactic(auto)]

mod frames;
mod jobs;
mod kept;
pub mod laws;
mod runs;
mod simulators;
mod steppers;
mod tasks;

pub use frames::{Frame, Item, Record, Status};
pub use jobs::Job;
pub use kept::Kept;
pub use runs::{Instant, Outcome, Run, Who};
pub use simulators::Simulator;
pub use steppers::{Stepper, Wave};
pub use tasks::{BodyId, TaskState};
