//! Laws about schedules and what they are made of.

ghost use Rattle.scheduler.specs.ClientAdds.{TrialIsClientAdd};
ghost use Rattle.scheduler.specs.OnlyAdds.{SchedulesOnlyAdd};
ghost use Rattle.scheduler.specs.ScheduleLaws.{AcceptedUnlessRejected, FreshRunIs, PlanOfRunIs, TrialIsAdd};

use run_data::laws::{fresh_runs, simulation_ends};

/// The fresh run of a plan is the one that its simulation ends with, and it is of that plan.
pub fn fresh_runs_are_given()
    ensures fresh { FreshRunIs }
    ensures plan { PlanOfRunIs }
{
    simulation_ends();
    fresh_runs();
}

/// A trial adds the template as `add` does, whatever name and arguments give the template's type and its values; some name and
/// arguments give those of each template of a model.
pub fn trials_are_adds()
    ensures given { TrialIsAdd }
    ensures client { TrialIsClientAdd }
{}

/// A trial is accepted, as its run completes, fills the gap and keeps the goal's constraints, exactly where no reason is told for
/// which it is rejected.
pub fn trials_are_accepted_unless_rejected()
    ensures { AcceptedUnlessRejected }
{}

/// A schedule only adds to its plan, whatever the plan, the goals and the constraints are.
pub fn schedules_only_add()
    ensures { SchedulesOnlyAdd }
{}
