//! The engine: the fresh run of a plan, doing only what is due.
#![tactic(auto)]

mod batch_ends;
mod batches;
mod bookmarks;
mod engine;
mod history;
mod passing;
mod present;
mod simulating;
mod simulation;

pub use bookmarks::Bookmark;
pub use engine::Engine;
pub use simulating::simulate;
