//! The schedule of a plan.

ghost use Rattle.std.specs.Prelude.{◌≡◌, [], IsTrue, IfOk, length};
ghost use Rattle.std.specs.List.{list_all};
ghost use Rattle.aerie_base.specs.plans.OfModel.{IsPlanOf};
ghost use Rattle.constraints.specs.OfModel.{is_constraint};
ghost use Rattle.goals.specs.OfModel.{is_goal};
ghost use Rattle.scheduler.specs.AddedDirectives.{HasRowsFor};
ghost use Rattle.scheduler.specs.ClientAdds.{IsMadeByAdds};
ghost use Rattle.scheduler.specs.OnlyAdds.{OnlyAddsTo};
ghost use Rattle.scheduler.specs.Running.{OnlyRanPlans};
ghost use Rattle.scheduler.specs.Scheduling.{schedule_of};
ghost use Rattle.scheduler.specs.InProgram.{IsScheduleRequest, schedule_after, schedule_for};
ghost use Rattle.scheduler.specs.Told.{HasPlacedFor, IsLikePlan, TellsOf};

use crate::laws::fresh_runs_are_given;
use crate::progress::{GoalProgress, TRIAL_LIMIT, place_goals, statuses};
use crate::requests::ScheduleRequest;
use crate::scheduled::Schedule;
use crate::trials::simulated;
use aerie_base::{List, Model, OutOfMemory, Plan, Shared, Steps};
use constraints::Constraint;
use goals::Goal;
use plan_edit::copy_plan;
use run_data::Simulator;
use span_table::laws::planned_directives_have_spans;
use std::alloc::Global;
use std::sync::ledger::Ledger;

/// The plan as it is, where there are no goals.
fn unscheduled(alloc: Global, plan: &Plan) -> Result<Schedule, OutOfMemory>
    ensures { IfOk result (λ made. made ≡ record { plan = plan.now; goals = []; trials = 0 }) }
{
    Ok(Schedule {
        plan: copy_plan(alloc, plan)?,
        goals: List::new(alloc),
        trials: 0,
    })
}

/// The schedule, once all goals are placed.
fn finished(
    alloc: Global,
    model: &Model,
    goals: &[Goal],
    progress: &GoalProgress,
) -> Result<Schedule, OutOfMemory>
    requires model { progress.now.kept.model ≡ model.now }
    requires goals { IsTrue (list_all (is_goal model.now) goals.now) }
    requires each { length progress.now.parts ≡ length goals.now }
    ensures { IfOk result (λ made. made ≡ schedule_after model.now goals.now progress.now) }
{
    let kept = &progress.kept;
    let plan = copy_plan(alloc, kept.run().plan.get())?;
    let parts = progress.parts.as_slice();
    let statuses = statuses(alloc, model, goals, kept.run(), kept.spans(), parts)?;
    Ok(Schedule {
        plan,
        goals: statuses,
        trials: TRIAL_LIMIT.saturating_sub(progress.left),
    })
}

/// The schedule that is asked for. Where there are no goals nothing is simulated.
fn scheduled<M: Simulator, L: Ledger, K: Ledger>(
    alloc: Global,
    request: &ScheduleRequest,
    simulator: &mut M,
    steps: &mut Steps<L>,
    looks: &mut Steps<K>,
) -> Result<Schedule, OutOfMemory>
    requires shares { M.shares }
    requires model { M.model simulator.old ≡ request.now.model.now }
    requires request { IsScheduleRequest request.now }
    ensures scheduled { IfOk result (λ made. made ≡ schedule_for (M.bound simulator.old) request.now) }
    ensures plan { IfOk result (λ made. IsPlanOf request.now.model.now made.plan) }
    ensures ran { OnlyRanPlans M.model M.bound M.address (simulator.old, steps.old, looks.old)
        (simulator.new, steps.new, looks.new) }
{
    let model = request.model;
    let plan = request.plan;
    let goals = request.goals;
    if goals.is_empty() {
        let made = unscheduled(alloc, plan.get())?;
        return Ok(made);
    }
    fresh_runs_are_given();
    let kept = simulated(alloc, plan, simulator, steps, looks)?;
    let progress = place_goals(
        alloc,
        model,
        goals,
        request.constraints,
        kept,
        simulator,
        steps,
        looks,
    )?;
    let made = finished(alloc, model, goals, &progress)?;
    Ok(made)
}

/// The plan with what is placed in it for the goals, one goal after another, and what they come to on its run. The
/// simulator is of the model. A plan is simulated for each trial, and once at first; no plan is simulated twice in a row.
pub fn schedule<M: Simulator, L: Ledger, K: Ledger>(
    alloc: Global,
    model: &Model,
    plan: &Shared<Plan>,
    goals: &[Goal],
    constraints: &[Constraint],
    simulator: &mut M,
    steps: &mut Steps<L>,
    looks: &mut Steps<K>,
) -> Result<Schedule, OutOfMemory>
    requires shares { M.shares }
    requires model { M.model simulator.old ≡ model.now }
    requires plan { IsPlanOf model.now plan.now }
    requires goals { IsTrue (list_all (is_goal model.now) goals.now) }
    requires constraints { IsTrue (list_all (is_constraint model.now) constraints.now) }
    ensures scheduled { IfOk result (λ made.
        made ≡ schedule_of model.now (M.bound simulator.old) constraints.now goals.now plan.now) }
    ensures plan { IfOk result (λ made. IsPlanOf model.now made.plan) }
    ensures same_position { IfOk result (λ made. IsLikePlan plan.now made.plan) }
    ensures told { IfOk result (TellsOf model.now (M.bound simulator.old) goals.now) }
    ensures placed { IfOk result (HasPlacedFor model.now (M.bound simulator.old) goals.now) }
    ensures only_adds { IfOk result (OnlyAddsTo plan.now) }
    ensures asked { IfOk result (HasRowsFor model.now goals.now) }
    ensures by_adds { IfOk result (λ made. IsMadeByAdds model.now plan.now made.plan) }
    ensures ran { OnlyRanPlans M.model M.bound M.address (simulator.old, steps.old, looks.old)
        (simulator.new, steps.new, looks.new) }
{
    planned_directives_have_spans();
    fresh_runs_are_given();
    let _valid = model.name();
    let request = ScheduleRequest {
        model,
        plan,
        goals,
        constraints,
    };
    let whole = scheduled(alloc, &request, simulator, steps, looks)?;
    Ok(whole)
}
