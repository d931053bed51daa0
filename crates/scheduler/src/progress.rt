//! One goal after another, and what they come to.

ghost use Rattle.std.specs.Prelude.{◌≡◌, ◌||◌, not, Some, None, IsTrue, IfOk, length, if◌then◌else◌};
ghost use Rattle.std.specs.List.{list_all};
ghost use Rattle.run_data.specs.Fresh.{IsFresh};
ghost use Rattle.span_table.specs.SpanLaws.{AreSpansOf};
ghost use Rattle.constraints.specs.OfModel.{is_constraint};
ghost use Rattle.goals.specs.Goals.{is_completed};
ghost use Rattle.goals.specs.OfModel.{is_goal};
ghost use Rattle.scheduler.specs.FreshRuns.{fresh_run};
ghost use Rattle.scheduler.specs.Running.{OnlyRanPlans};
ghost use Rattle.scheduler.specs.Scheduling.{goals_placed, goal_status as goal_status_by, statuses_on, trial_limit};
ghost use Rattle.scheduler.specs.InProgram.{IsKeptOf, IsRequestTo, all_shown, next_placed};
ghost use Rattle.scheduler.specs.Unmet.{unmet_by};

use crate::placing::place_goal;
use crate::requests::GoalRequest;
use crate::runs_with_spans::RunWithSpans;
use aerie_base::{List, Model, OutOfMemory, Steps};
use constraints::Constraint;
use goals::{Goal, GoalStatus, OpenGap, Unmet, met};
use run_data::{Outcome, Run, Simulator};
use span_table::Span;
use std::alloc::Global;
use std::sync::ledger::Ledger;

/// The most trials of one schedule.
pub(crate) const TRIAL_LIMIT: u32 = 10_000;

/// What the schedule made for one goal before it passed on to the next one.
#[derive(Drop)]
pub(crate) struct GoalPart {
    /// The ids that were placed for the goal and stayed, in order.
    pub(crate) placed: List<u32>,
    /// The gap that it left open, if it left one.
    pub(crate) open_gap: Option<OpenGap>,
}

/// What is placed for the goals so far.
#[derive(Drop)]
pub(crate) struct GoalProgress {
    /// The run of the plan so far.
    pub(crate) kept: RunWithSpans,
    /// What was made for each goal, in order.
    pub(crate) parts: List<GoalPart>,
    /// How many trials are left.
    pub(crate) left: u32,
}

/// What is placed for one goal more.
fn place_next<M: Simulator, L: Ledger, K: Ledger>(
    alloc: Global,
    request: &GoalRequest,
    progress: GoalProgress,
    simulator: &mut M,
    steps: &mut Steps<L>,
    looks: &mut Steps<K>,
) -> Result<GoalProgress, OutOfMemory>
    requires shares { M.shares }
    requires request { IsRequestTo (M.model simulator.old) request.now }
    requires kept { IsKeptOf request.now.model.now (M.bound simulator.old) progress.kept }
    ensures placed { IfOk result (λ made.
        all_shown made ≡ next_placed (M.bound simulator.old) request.now progress) }
    ensures kept { IfOk result (λ made. IsKeptOf request.now.model.now (M.bound simulator.old) made.kept) }
    ensures ran { OnlyRanPlans M.model M.bound M.address (simulator.old, steps.old, looks.old)
        (simulator.new, steps.new, looks.new) }
{
    let GoalProgress {
        kept,
        mut parts,
        left,
    } = progress;
    let placing = place_goal(alloc, request, kept, left, simulator, steps, looks)?;
    parts.push(GoalPart {
        placed: placing.placed,
        open_gap: placing.open_gap,
    })?;
    Ok(GoalProgress {
        kept: placing.kept,
        parts,
        left: placing.left,
    })
}

/// What is placed for all goals in a plan, whose run this is.
pub(crate) fn place_goals<M: Simulator, L: Ledger, K: Ledger>(
    alloc: Global,
    model: &Model,
    goals: &[Goal],
    constraints: &[Constraint],
    kept: RunWithSpans,
    simulator: &mut M,
    steps: &mut Steps<L>,
    looks: &mut Steps<K>,
) -> Result<GoalProgress, OutOfMemory>
    requires shares { M.shares }
    requires model { M.model simulator.old ≡ model.now }
    requires goals { IsTrue (list_all (is_goal model.now) goals.now) }
    requires constraints { IsTrue (list_all (is_constraint model.now) constraints.now) }
    requires kept { IsKeptOf model.now (M.bound simulator.old) kept }
    ensures placed { IfOk result (λ made.
        all_shown made
        ≡ goals_placed model.now constraints.now (fresh_run model.now (M.bound simulator.old))
        goals.now kept.run.plan trial_limit) }
    ensures each { IfOk result (λ made. length made.parts ≡ length goals.now) }
    ensures kept { IfOk result (λ made. IsKeptOf model.now (M.bound simulator.old) made.kept) }
    ensures ran { OnlyRanPlans M.model M.bound M.address (simulator.old, steps.old, looks.old)
        (simulator.new, steps.new, looks.new) }
{
    let mut progress = GoalProgress {
        kept,
        parts: List::new(alloc),
        left: TRIAL_LIMIT,
    };
    for goal in goals {
        let request = GoalRequest {
            model,
            constraints,
            goal,
        };
        progress = place_next(alloc, &request, progress, simulator, steps, looks)?;
    }
    Ok(progress)
}

/// Why a goal is unmet on a run; none where it is met, or where the run did not complete.
fn unmet_on(
    alloc: Global,
    run: &Run,
    is_met: bool,
    open_gap: &Option<OpenGap>,
) -> Result<Option<Unmet>, OutOfMemory>
    ensures { IfOk result (λ why.
        why ≡ (if is_met || not (is_completed run.now.outcome) then None else Some (unmet_by open_gap.now))) }
{
    if is_met || !matches!(run.outcome, Outcome::Completed) {
        return Ok(None);
    }
    let Some(open) = open_gap else {
        return Ok(Some(Unmet::Broken));
    };
    Ok(Some(Unmet::Open(open.copy(alloc)?)))
}

/// What a goal came to on a run.
fn goal_status(
    alloc: Global,
    model: &Model,
    goal: &Goal,
    run: &Run,
    spans: &[Span],
    part: &GoalPart,
) -> Result<GoalStatus, OutOfMemory>
    requires fresh { IsFresh model.now run.now.plan run.now.bound run.now }
    requires spans { AreSpansOf model.now run.now spans.now }
    requires goal { IsTrue (is_goal model.now goal.now) }
    ensures { IfOk result (λ status. status ≡ goal_status_by model.now run.now goal.now part.now) }
{
    let name = goal.name.copy(alloc)?;
    let is_met = met(alloc, model, goal, run, spans)?;
    let placed = Vec::from_slice(alloc, part.placed.as_slice())?;
    let why = unmet_on(alloc, run, is_met, &part.open_gap)?;
    Ok(GoalStatus {
        goal: name,
        met: is_met,
        placed: List::from_vec(placed),
        why,
    })
}

/// What the goals came to on a run.
pub(crate) fn statuses(
    alloc: Global,
    model: &Model,
    goals: &[Goal],
    run: &Run,
    spans: &[Span],
    parts: &[GoalPart],
) -> Result<List<GoalStatus>, OutOfMemory>
    requires fresh { IsFresh model.now run.now.plan run.now.bound run.now }
    requires spans { AreSpansOf model.now run.now spans.now }
    requires goals { IsTrue (list_all (is_goal model.now) goals.now) }
    requires each { length parts.now ≡ length goals.now }
    ensures { IfOk result (λ statuses. statuses ≡ statuses_on model.now run.now goals.now parts.now) }
{
    let mut statuses = List::with_capacity(alloc, goals.len())?;
    for at in 0..goals.len() {
        statuses.push(goal_status(alloc, model, &goals[at], run, spans, &parts[at])?)?;
    }
    Ok(statuses)
}
