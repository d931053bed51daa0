//! Schedules of branches.

ghost use Rattle.std.specs.Prelude.{◌≡◌, ◌≤◌, [], ◌∷◌, IfOk};
ghost use Rattle.commands.specs.declared.commands.Command.TheVariants as command;
ghost use Rattle.scheduler.specs.Told.{IsLikePlan};
ghost use Rattle.aerie_base.specs.plans.OfModel.{IsPlanOf};
ghost use Rattle.client_work.specs.Fetching.{IsPlanOfMission, reply_with};
ghost use Rattle.client_work.specs.Meanings.{ruled_by, scheduled as scheduled_by};
ghost use Rattle.client_work.specs.Told.{schedule_told as told_by};
ghost use Rattle.client_work.specs.Working.{AreBenchesAt, begun, IsAssignedTo, IsCarriedOn, IsLater, IsPlanAt, IsReplyAt, work_state};

use crate::acting::act;
use crate::benches::Benches;
use crate::fetching::{FetchedBranch, fetched};
use crate::missions::Mission;
use crate::workplace::{Assignment, Worker, Workplace};
use aerie_base::{List, Model, Name, OutOfMemory, Shared, Steps};
use aerie_edge::Gate;
use goals::GoalStatus;
use hangar_core::{Action, Reply};
use report_text::{Answer, ScheduleReport};
use scheduler::Schedule;
use std::alloc::Global;
use std::sync::Wait;
use std::sync::ledger::Ledger;
use std::thread::Threads;

/// The schedule of a fetched plan by the goals and the constraints of its model, at the bench of that model.
fn schedule_of<R: Threads + Wait + Sync, G: Gate, L: Ledger, K: Ledger>(
    alloc: Global,
    workplace: &Workplace<R, G>,
    found: &FetchedBranch,
    benches: &mut Benches,
    steps: &mut Steps<L>,
    looks: &mut Steps<K>,
) -> Result<Schedule, OutOfMemory>
    requires plan { IsPlanOfMission workplace.now.mission.now found.now.plan }
    requires benches { benches.old ≡ workplace.now.mission.now.bound }
    ensures made { IfOk result (λ made.
        made ≡ scheduled_by workplace.now.mission.now.models workplace.now.mission.now.bound found.now.plan) }
    ensures of_model { IfOk result (λ made.
        IsPlanOf (ruled_by workplace.now.mission.now.models found.now.plan).model made.plan) }
    ensures same_position { IfOk result (λ made. IsLikePlan found.now.plan made.plan) }
    ensures benches { benches.new ≡ benches.old }
    ensures steps { steps.old ≤ steps.new }
{
    let plan = &found.plan;
    let ruled = workplace.mission.ruled(plan);
    let made = benches.schedule(
        workplace.rt,
        alloc,
        workplace.store,
        ruled,
        plan,
        &found.kept,
        steps,
        looks,
    )?;
    Ok(made)
}

/// What is told of what was made of goals for a plan of a model, by the reply to the Place.
fn schedule_told(
    mission: &Mission,
    model: Shared<Model>,
    goals: List<GoalStatus>,
    trials: u32,
    reply: Reply,
) -> Answer
    ensures { result ≡ told_by mission.now model goals trials reply }
{
    match reply {
        Reply::Placed { revision } => Answer::Schedule(ScheduleReport {
            model,
            revision,
            goals,
            trials,
            detail: mission.form.detail,
        }),
        refusal => Answer::Reply(refusal),
    }
}

/// Schedules a fetched branch: the plan is placed where no other change came between.
fn schedule_fetched<R: Threads + Wait + Sync, G: Gate, L: Ledger, K: Ledger>(
    alloc: Global,
    assignment: &Assignment<R, G>,
    branch: &Name,
    found: &FetchedBranch,
    worker: &mut Worker<L, K>,
) -> Result<Answer, OutOfMemory>
    requires workplace { IsAssignedTo assignment.now worker.old.pass.now }
    requires benches { AreBenchesAt assignment.now worker.old.benches.now }
    requires found { IsPlanAt assignment.now.workplace.now.lock.now found.now.plan }
    ensures done { IfOk result (IsCarriedOn
        (begun assignment.now (command.Schedule branch.now) (reply_with found.now ∷ []))
        (work_state worker.old) (work_state worker.new)) }
    ensures later { IsLater worker.old worker.new }
{
    let workplace = assignment.workplace;
    let made = schedule_of(
        alloc,
        workplace,
        found,
        worker.benches,
        worker.steps,
        worker.looks,
    )?;
    let seen = found.revision;
    let mission = workplace.mission;
    let model = mission.ruled(&found.plan).model.share()?;
    let branch = branch.copy(alloc)?;
    let placing = Action::Place {
        branch,
        seen,
        plan: made.plan,
    };
    let reply = act(alloc, assignment, 1, placing, worker.pass)?;
    Ok(schedule_told(mission, model, made.goals, made.trials, reply))
}

/// What becomes of a schedule of a branch, by the reply to its Fetch.
pub(crate) fn scheduled<R: Threads + Wait + Sync, G: Gate, L: Ledger, K: Ledger>(
    alloc: Global,
    assignment: &Assignment<R, G>,
    branch: &Name,
    first: Reply,
    worker: &mut Worker<L, K>,
) -> Result<Answer, OutOfMemory>
    requires workplace { IsAssignedTo assignment.now worker.old.pass.now }
    requires benches { AreBenchesAt assignment.now worker.old.benches.now }
    requires first { IsReplyAt assignment.now.workplace.now.lock.now first }
    ensures done { IfOk result (IsCarriedOn (begun assignment.now (command.Schedule branch.now) (first ∷ []))
        (work_state worker.old) (work_state worker.new)) }
    ensures later { IsLater worker.old worker.new }
{
    match fetched(first) {
        Ok(found) => schedule_fetched(alloc, assignment, branch, &found, worker),
        Err(refusal) => Ok(Answer::Reply(refusal)),
    }
}
