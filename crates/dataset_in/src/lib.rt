//! Datasets: series of values over time that come from outside the simulation, such as when the sun is seen, and that
//! constraints and windows of goals read as if they were resources.
#![tactic(auto)]

mod dataset_error;
mod entries;
mod forms;
mod reading;
mod series;

pub use dataset_error::DatasetError;
pub use reading::read_dataset;
pub use series::{Level, Series};
