//! Chapters that are shared: a store in which threads publish chapters of stored steps, and from which their books learn.
#![tactic(auto)]

pub mod laws;
mod shelf;
mod store;

pub use shelf::{MOST_PUBLISHED, Shelf};
pub use store::{Cause, Receipt, Returned, Store};
