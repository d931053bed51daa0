//! The fresh run of a plan beside an old run of the model: what the old run has alike is taken over.
#![tactic(auto)]

mod alike;
mod alone;
mod bookmarks;
mod cells;
mod costs;
mod cursor;
mod early_ends;
mod following;
pub mod laws;
mod marks;
mod old_batches;
mod pace;
mod partings;
mod resuming;
mod tally;
mod traces;
mod walk;

pub use alone::simulate_with_bookmarks;
pub use bookmarks::Bookmarks;
pub use walk::{SharingRun, resimulate, resimulate_sharing};
