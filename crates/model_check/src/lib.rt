//! Checks of a model as it is written: its names are looked up, its types are checked, and what it means is made of it.
#![tactic(auto)]

mod activities;
mod bodies;
mod causes;
mod cell_reads;
mod check_error;
mod checking;
mod declarations;
mod expressions;
mod forms;
mod invokes;
mod items;
pub mod laws;
mod leaves;
mod literals;
mod parts;
mod repeats;
mod scopes;
mod statements;
mod symbols;
mod tables;
mod waits;

pub use check_error::CheckError;
pub use checking::check;
