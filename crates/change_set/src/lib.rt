//! In which cells and tasks two simulations differ, and which instants are touched by that.
#![tactic(auto)]

mod cell_flags;
mod changes;

pub use changes::ChangeSet;
