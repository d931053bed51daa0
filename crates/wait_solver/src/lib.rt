//! The least time at which a condition on the cells of a model comes to hold while the cells evolve by themselves. It is
//! computed from the linear forms of the condition, in whole numbers, without a search over times.
#![tactic(auto)]

mod changes;
mod forms;
mod holding;
mod lines;
mod outlooks;
mod waiting;

pub use waiting::{earliest, holds_now};
