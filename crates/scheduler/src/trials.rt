//! A trial: a goal's template is added to a plan at a time, and the run of that plan is judged.

ghost use Rattle.std.specs.Prelude.{◌≡◌, IsTrue, IfOk, IfSome};
ghost use Rattle.std.specs.List.{list_all};
ghost use Rattle.aerie_base.specs.TimeOrder.{earlier};
ghost use Rattle.aerie_base.specs.plans.OfModel.{IsPlanOf};
ghost use Rattle.run_data.specs.Fresh.{IsFresh};
ghost use Rattle.constraints.specs.OfModel.{is_constraint};
ghost use Rattle.span_table.specs.SpanLaws.{AreSpansOf};
ghost use Rattle.plan_edit.specs.Editing.{is_full as is_full_plan, is_outside as is_outside_plan};
ghost use Rattle.scheduler.specs.FreshRuns.{kept_run};
ghost use Rattle.scheduler.specs.Running.{OnlyRanPlans};
ghost use Rattle.scheduler.specs.InProgram.{IsKeptOf, IsRequest, IsRequestTo, trial_of, verdict_for};
ghost use Rattle.scheduler.specs.Trials.{directive_with, made_with};
ghost use Rattle.scheduler.specs.Unmet.{first_begin as begin_of, first_violated as first_violated_of, first_violation as first_violation_of, is_kept as is_kept_by, rejection_of, violated_at as violated_at_by};

use crate::requests::GoalRequest;
use crate::runs_with_spans::RunWithSpans;
use aerie_base::{Directive, Model, OutOfMemory, Plan, Shared, Steps, Time, copy_list};
use constraints::{Constraint, Violation, violations};
use goals::{Gap, Goal, Rejection, Template, is_filled};
use plan_edit::copy_plan;
use run_data::laws::simulation_ends;
use run_data::{Kept, Run, Simulator};
use span_table::Span;
use std::alloc::Global;
use std::sync::ledger::Ledger;

/// What comes of a candidate.
#[derive(Drop)]
pub(crate) enum Trial {
    /// The directive may not be added there. This counts as no trial.
    Refused,
    /// The run is not as the goal wants it, for this reason.
    Rejected(Rejection),
    /// The run is as the goal wants it.
    Accepted(RunWithSpans),
}

/// The most directives of a plan.
const MOST_DIRECTIVES: usize = 65_536;

/// The greatest id that a plan's next directive can have.
const LAST_ID: u32 = 4_294_967_295;

/// Whether no directive may start at that time.
fn is_outside(plan: &Plan, time: Time) -> bool
    ensures { result ≡ is_outside_plan plan.now time }
{
    !(time.get() < plan.duration.get())
}

/// Whether the plan may have no directive more.
fn is_full(plan: &Plan) -> bool
    ensures { result ≡ is_full_plan plan.now }
{
    !(plan.directives.len() < MOST_DIRECTIVES) || !(plan.next_id < LAST_ID)
}

/// The template's directive under the next id, at a time.
fn directive_at(
    alloc: Global,
    plan: &Plan,
    template: &Template,
    time: Time,
) -> Result<Directive, OutOfMemory>
    ensures { IfOk result (λ made. made ≡ directive_with plan.now template.now time) }
{
    let arguments = copy_list(alloc, &template.arguments)?;
    Ok(Directive {
        id: plan.next_id,
        start: time,
        anchor: None,
        kind: template.kind,
        arguments,
    })
}

/// The plan with the template at a time, unless it may not stand there. It copies the plan.
fn with_template(
    alloc: Global,
    plan: &Plan,
    template: &Template,
    time: Time,
) -> Result<Option<Plan>, OutOfMemory>
    ensures { IfOk result (λ made. made ≡ made_with plan.now template.now time) }
{
    if is_outside(plan, time) || is_full(plan) {
        return Ok(None);
    }
    let directive = directive_at(alloc, plan, template, time)?;
    let mut next = copy_plan(alloc, plan)?;
    next.directives.push(directive)?;
    next.next_id += 1;
    Ok(Some(next))
}

/// The plan of a trial, which is of the model again, unless the template may not stand there.
fn tried_plan(
    alloc: Global,
    request: &GoalRequest,
    plan: &Plan,
    time: Time,
) -> Result<Option<Plan>, OutOfMemory>
    requires request { IsRequest request.now }
    requires plan { IsPlanOf request.now.model.now plan.now }
    ensures made { IfOk result (λ made. made ≡ made_with plan.now request.now.goal.now.template time) }
    ensures of_model { IfOk result (λ made. IfSome made (IsPlanOf request.now.model.now)) }
{
    let made = with_template(alloc, plan, &request.goal.template, time)?;
    Ok(made)
}

/// Whether the goal names the constraint after `keeping`.
fn is_kept(goal: &Goal, constraint: &Constraint) -> bool
    ensures { result ≡ is_kept_by goal.now constraint.now }
{
    for name in goal.keeping.as_slice() {
        if constraint.name == *name {
            return true;
        }
    }
    false
}

/// Where the first of the violation's intervals begins.
fn first_begin(violation: &Violation) -> Option<Time>
    ensures { result ≡ begin_of violation.now.intervals.intervals }
{
    let first = violation.intervals.intervals().first()?;
    Some(first.0)
}

/// The earlier of two times, of which each may be none.
fn earlier_of(time: Option<Time>, other: Option<Time>) -> Option<Time>
    ensures { result ≡ earlier time other }
{
    match (time, other) {
        (Some(time), Some(other)) => Some(time.earlier(other)),
        (Some(time), None) => Some(time),
        (None, other) => other,
    }
}

/// The first time of all violations.
fn first_violation(violations: &[Violation]) -> Option<Time>
    ensures { result ≡ first_violation_of violations.now }
{
    let mut first = None;
    for violation in violations {
        first = earlier_of(first, first_begin(violation));
    }
    first
}

/// When the run violates the constraint first, where the goal names it.
fn violated_at(
    alloc: Global,
    model: &Model,
    goal: &Goal,
    run: &Run,
    spans: &[Span],
    constraint: &Constraint,
) -> Result<Option<Time>, OutOfMemory>
    requires fresh { IsFresh model.now run.now.plan run.now.bound run.now }
    requires spans { AreSpansOf model.now run.now spans.now }
    requires constraint { IsTrue (is_constraint model.now constraint.now) }
    ensures { IfOk result (λ time. time ≡ violated_at_by model.now goal.now run.now constraint.now) }
{
    if !is_kept(goal, constraint) {
        return Ok(None);
    }
    let found = violations(alloc, model, run, spans, constraint)?;
    Ok(first_violation(found.as_slice()))
}

/// The first constraint that the goal names after `keeping` and the run violates, with the first time of its violation.
fn first_violated(
    alloc: Global,
    model: &Model,
    constraints: &[Constraint],
    goal: &Goal,
    run: &Run,
    spans: &[Span],
) -> Result<Option<Rejection>, OutOfMemory>
    requires fresh { IsFresh model.now run.now.plan run.now.bound run.now }
    requires spans { AreSpansOf model.now run.now spans.now }
    requires constraints { IsTrue (list_all (is_constraint model.now) constraints.now) }
    ensures { IfOk result (λ why. why ≡ first_violated_of model.now goal.now run.now constraints.now) }
{
    for constraint in constraints {
        if let Some(time) = violated_at(alloc, model, goal, run, spans, constraint)? {
            let constraint = constraint.name.copy(alloc)?;
            return Ok(Some(Rejection::Violates { constraint, time }));
        }
    }
    Ok(None)
}

/// Why the trial with this run is rejected; none where it is accepted.
fn rejection(
    alloc: Global,
    request: &GoalRequest,
    gap: &Gap,
    run: &Run,
    spans: &[Span],
) -> Result<Option<Rejection>, OutOfMemory>
    requires request { IsRequest request.now }
    requires fresh { IsFresh request.now.model.now run.now.plan run.now.bound run.now }
    requires spans { AreSpansOf request.now.model.now run.now spans.now }
    ensures { IfOk result (λ why.
        why
        ≡ rejection_of request.now.model.now request.now.constraints.now request.now.goal.now gap.now run.now) }
{
    if !is_filled(alloc, request.model, request.goal, gap, run, spans)? {
        let outcome = run.outcome.copy(alloc)?;
        return Ok(Some(Rejection::Unfilled(outcome)));
    }
    first_violated(
        alloc,
        request.model,
        request.constraints,
        request.goal,
        run,
        spans,
    )
}

/// The kept fresh run of the plan.
fn kept_of<M: Simulator, L: Ledger, K: Ledger>(
    alloc: Global,
    plan: &Shared<Plan>,
    simulator: &mut M,
    steps: &mut Steps<L>,
    looks: &mut Steps<K>,
) -> Result<Shared<Kept>, OutOfMemory>
    requires shares { M.shares }
    requires plan { IsPlanOf (M.model simulator.old) plan.now }
    ensures kept { IfOk result (λ kept.
        kept ≡ kept_run (M.model simulator.old) (M.bound simulator.old) plan.now) }
    ensures of_model { IfOk result (IsKeptOf (M.model simulator.old) (M.bound simulator.old)) }
    ensures ran { OnlyRanPlans M.model M.bound M.address (simulator.old, steps.old, looks.old)
        (simulator.new, steps.new, looks.new) }
{
    simulation_ends();
    let kept = simulator.run(alloc, plan, steps, looks)?;
    Ok(kept)
}

/// The kept fresh run of the plan, with its spans.
pub(crate) fn simulated<M: Simulator, L: Ledger, K: Ledger>(
    alloc: Global,
    plan: &Shared<Plan>,
    simulator: &mut M,
    steps: &mut Steps<L>,
    looks: &mut Steps<K>,
) -> Result<RunWithSpans, OutOfMemory>
    requires shares { M.shares }
    requires plan { IsPlanOf (M.model simulator.old) plan.now }
    ensures kept { IfOk result (λ kept.
        kept ≡ kept_run (M.model simulator.old) (M.bound simulator.old) plan.now) }
    ensures of_model { IfOk result (IsKeptOf (M.model simulator.old) (M.bound simulator.old)) }
    ensures ran { OnlyRanPlans M.model M.bound M.address (simulator.old, steps.old, looks.old)
        (simulator.new, steps.new, looks.new) }
{
    let kept = kept_of(alloc, plan, simulator, steps, looks)?;
    let made = RunWithSpans::of(alloc, kept)?;
    Ok(made)
}

/// The same, where a run of a plan that differs little is known with its spans.
fn simulated_beside<M: Simulator, L: Ledger, K: Ledger>(
    alloc: Global,
    plan: &Shared<Plan>,
    base: &RunWithSpans,
    simulator: &mut M,
    steps: &mut Steps<L>,
    looks: &mut Steps<K>,
) -> Result<RunWithSpans, OutOfMemory>
    requires shares { M.shares }
    requires plan { IsPlanOf (M.model simulator.old) plan.now }
    requires base { base.now.model ≡ M.model simulator.old }
    ensures kept { IfOk result (λ kept.
        kept ≡ kept_run (M.model simulator.old) (M.bound simulator.old) plan.now) }
    ensures ran { OnlyRanPlans M.model M.bound M.address (simulator.old, steps.old, looks.old)
        (simulator.new, steps.new, looks.new) }
{
    let kept = kept_of(alloc, plan, simulator, steps, looks)?;
    let made = RunWithSpans::beside(alloc, kept, base)?;
    Ok(made)
}

/// What comes of a candidate for the goal's gap. The run of a plan that differs little is known with its spans.
pub(crate) fn tried<M: Simulator, L: Ledger, K: Ledger>(
    alloc: Global,
    request: &GoalRequest,
    gap: &Gap,
    base: &RunWithSpans,
    plan: &Plan,
    time: Time,
    simulator: &mut M,
    steps: &mut Steps<L>,
    looks: &mut Steps<K>,
) -> Result<Trial, OutOfMemory>
    requires shares { M.shares }
    requires request { IsRequestTo (M.model simulator.old) request.now }
    requires base { base.now.model ≡ request.now.model.now }
    requires plan { IsPlanOf request.now.model.now plan.now }
    ensures trial { IfOk result (λ trial.
        trial
        ≡ trial_of (kept_run request.now.model.now (M.bound simulator.old))
        (verdict_for (M.bound simulator.old) request.now gap.now plan.now time)) }
    ensures ran { OnlyRanPlans M.model M.bound M.address (simulator.old, steps.old, looks.old)
        (simulator.new, steps.new, looks.new) }
{
    let Some(next) = tried_plan(alloc, request, plan, time)? else {
        return Ok(Trial::Refused);
    };
    let next = Shared::new(alloc, next)?;
    let kept = simulated_beside(alloc, &next, base, simulator, steps, looks)?;
    match rejection(alloc, request, gap, kept.run(), kept.spans())? {
        Some(rejection) => Ok(Trial::Rejected(rejection)),
        None => Ok(Trial::Accepted(kept)),
    }
}
