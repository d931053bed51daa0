//! What a schedule gives.

ghost use Rattle.std.specs.Prelude.{◌≡◌, IfOk};

use aerie_base::{List, OutOfMemory, Plan};
use goals::GoalStatus;
use std::alloc::Global;

/// A plan with what was placed in it for some goals.
#[derive(Debug, Drop)]
pub struct Schedule {
    /// The plan with all that stayed.
    pub plan: Plan,
    /// Each goal's status, in the order of the goals.
    pub goals: List<GoalStatus>,
    /// How many plans were tried, at most 10,000.
    pub trials: u32,
}

impl Schedule {
    /// An equal schedule.
    pub fn copy(&self, alloc: Global) -> Result<Schedule, OutOfMemory>
        ensures { IfOk result (λ copy. copy ≡ self.now) }
    {
        let plan = self.plan.copy(alloc)?;
        let goals = copy_statuses(alloc, &self.goals)?;
        Ok(Schedule {
            plan,
            goals,
            trials: self.trials,
        })
    }
}

/// Equal statuses.
fn copy_statuses(
    alloc: Global,
    statuses: &List<GoalStatus>,
) -> Result<List<GoalStatus>, OutOfMemory>
    ensures { IfOk result (λ copies. copies ≡ statuses.now) }
{
    let mut copies = List::with_capacity(alloc, statuses.len())?;
    for status in statuses.as_slice() {
        copies.push(status.copy(alloc)?)?;
    }
    Ok(copies)
}
