ghost use Rattle.std.specs.Prelude.{◌≡◌, IfOk};

use crate::unmet::Unmet;
use aerie_base::{List, Name, OutOfMemory};
use std::alloc::Global;

/// What a schedule made of a goal.
#[derive(Debug, Drop)]
pub struct GoalStatus {
    /// The goal, by its name.
    pub goal: Name,
    /// Whether the goal is met on the run of the scheduled plan.
    pub met: bool,
    /// The directives that were placed for it and stayed, by their ids, in the order in which they were placed.
    pub placed: List<u32>,
    /// Why it is unmet; none where it is met, and where that run did not complete.
    pub why: Option<Unmet>,
}

impl GoalStatus {
    /// An equal status.
    pub fn copy(&self, alloc: Global) -> Result<GoalStatus, OutOfMemory>
        ensures { IfOk result (λ copy. copy ≡ self.now) }
    {
        let goal = self.goal.copy(alloc)?;
        let placed = Vec::from_slice(alloc, self.placed.as_slice())?;
        let why = match &self.why {
            Some(why) => Some(why.copy(alloc)?),
            None => None,
        };
        Ok(GoalStatus {
            goal,
            met: self.met,
            placed: List::from_vec(placed),
            why,
        })
    }
}
