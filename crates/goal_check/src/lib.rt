//! Goals as they are written, checked against a model, with their templates.
#![tactic(auto)]

mod goal;
mod template;

pub use goal::read_goals;
