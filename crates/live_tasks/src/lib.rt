//! The live tasks of a simulation, by number: those that have not ended.
#![tactic(auto)]

pub mod batch_origins;
pub mod beginnings;
pub mod delays;
pub mod exchanging;
pub mod followers;
pub mod listed_slots;
pub mod origins;
pub mod phases;
pub mod planned_tasks;
pub mod readies;
pub mod ready_jobs;
pub mod slots;
pub mod tasks;
pub mod waits;
pub mod wake_times;
pub mod wakes;
pub mod waking;
pub mod watchers;
