//! A session with its rules.

use aerie_base::{List, Shared};
use constraints::Constraint;
use goals::Goal;
use seq_expand::Sequencing;
use session_reader::Session;

/// A session with its rules. Of each sort of rules there is one entry for each model, in the order of the models; a model
/// without a section has no rules.
#[derive(Drop)]
pub struct JudgedSession {
    /// The session.
    pub session: Session,
    /// The constraints of each model.
    pub constraints: List<Shared<List<Constraint>>>,
    /// The goals of each model.
    pub goals: List<Shared<List<Goal>>>,
    /// The rules by which each model gives commands.
    pub sequences: List<Shared<Sequencing>>,
}
