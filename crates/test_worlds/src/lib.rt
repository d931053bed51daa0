//! What tests begin with: models of texts, and plans of few directives.
#![tactic(auto)]

mod models;
mod plans;

pub use models::model_in;
pub use plans::{Outline, Planned, empty_plan, plan_of};
