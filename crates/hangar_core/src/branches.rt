//! Branches.

use crate::held_plans::HeldPlan;
use aerie_base::{Name, Shared};
use run_data::Kept;

/// A branch: a plan with a name.
#[derive(Drop)]
pub struct Branch {
    /// Its name.
    pub name: Name,
    /// How often its plan was changed since the name was first given; it never falls.
    pub revision: u64,
    /// Its plan.
    pub plan: HeldPlan,
    /// The run of some plan that is kept on it, if any.
    pub kept: Option<Shared<Kept>>,
}
