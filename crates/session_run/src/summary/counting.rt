//! What is counted of one answer.

ghost use Rattle.std.specs.Prelude.{◌≡◌, ◌∷◌, [], IfOk, IsTrue, min};
ghost use Rattle.std.specs.List.{list_all};
ghost use Rattle.constraints.specs.OfModel.{is_constraint};
ghost use Rattle.report_text.specs.declared.answers.Answer.TheVariants as told;
ghost use Rattle.run_data.specs.Fresh.{IsFresh};
ghost use Rattle.span_table.specs.SpanLaws.{AreSpansOf};
ghost use Rattle.run_data.specs.Waves.{last_count};
ghost use Rattle.goals.specs.Goals.{is_completed as completed_by};
ghost use Rattle.session_run.specs.summary.Summaries.{HasItsConstraints, counts_otherwise, is_refusal as refuses};
ghost use Rattle.session_run.specs.summary.Summaries.{placed_count as placed_by, summary_of, violation_count as violations_by};

use crate::summary::Summary;
use aerie_base::{Model, OutOfMemory};
use constraints::{Constraint, violations};
use goals::GoalStatus;
use hangar_core::Reply;
use report_text::{Answer, Report};
use run_data::{Outcome, Run};
use span_table::{Span, spans};
use std::alloc::Global;

/// Whether a workspace refuses something.
fn is_refusal(reply: &Reply) -> bool
    ensures { result ≡ refuses reply.now }
{
    match reply {
        Reply::Opened { .. }
        | Reply::Dropped
        | Reply::Added { .. }
        | Reply::Edited { .. }
        | Reply::Loaded { .. }
        | Reply::Fetched { .. }
        | Reply::Attached
        | Reply::Placed { .. } => false,
        Reply::NoBranch
        | Reply::BranchExists
        | Reply::TooManyBranches
        | Reply::NoMapping
        | Reply::Unmapped { .. }
        | Reply::Misfit { .. }
        | Reply::Edit(_)
        | Reply::Stale { .. } => true,
    }
}

/// How many ids are listed as placed, up to 2^64 - 1.
fn placed_count(goals: &[GoalStatus]) -> u64
    ensures { result ≡ min (placed_by goals.now) last_count }
{
    let mut count: u64 = 0;
    for goal in goals {
        count = count.saturating_add(goal.placed.len() as u64);
    }
    count
}

/// How many violations are listed of the constraints, up to 2^64 - 1. Those of each are found once.
fn violation_count(
    alloc: Global,
    model: &Model,
    run: &Run,
    spans: &[Span],
    constraints: &[Constraint],
) -> Result<u64, OutOfMemory>
    requires fresh { IsFresh model.now run.now.plan run.now.bound run.now }
    requires spans { AreSpansOf model.now run.now spans.now }
    requires constraints { IsTrue (list_all (is_constraint model.now) constraints.now) }
    ensures { IfOk result (λ count.
        count ≡ min (violations_by model.now run.now constraints.now) last_count) }
{
    let mut count: u64 = 0;
    for constraint in constraints {
        let found = violations(alloc, model, run, spans, constraint)?;
        count = count.saturating_add(found.len() as u64);
    }
    Ok(count)
}

/// Whether a simulation came to the end of the plan.
fn is_completed(outcome: &Outcome) -> bool
    ensures { result ≡ completed_by outcome.now }
{
    matches!(outcome, Outcome::Completed)
}

/// What is counted of a report.
fn reported(alloc: Global, report: &Report) -> Result<Summary, OutOfMemory>
    requires { IsTrue (list_all (is_constraint report.now.run.model) report.now.constraints) }
    ensures { IfOk result (λ one. one ≡ summary_of (told.Report report.now ∷ [])) }
{
    let kept = report.run.get();
    let (model, run) = (kept.model().get(), kept.run());
    let found = spans(alloc, model, run)?;
    let constraints = report.constraints.get().as_slice();
    let violations = violation_count(alloc, model, run, found.as_slice(), constraints)?;
    let completed = is_completed(&run.outcome);
    Ok(Summary {
        commands: 1,
        completed: if completed { 1 } else { 0 },
        placed: 0,
        refused: 0,
        spans: found.len() as u64,
        stopped: if completed { 0 } else { 1 },
        violations,
    })
}

/// What is counted of another answer: the directives that it lists as placed, and whether it is refused.
fn told_otherwise(placed: u64, refused: bool) -> Summary
    ensures { result ≡ counts_otherwise placed refused }
{
    Summary {
        commands: 1,
        completed: 0,
        placed,
        refused: if refused { 1 } else { 0 },
        spans: 0,
        stopped: 0,
        violations: 0,
    }
}

/// What is counted of an answer.
pub(crate) fn counted(alloc: Global, answer: &Answer) -> Result<Summary, OutOfMemory>
    requires { HasItsConstraints answer.now }
    ensures { IfOk result (λ one. one ≡ summary_of (answer.now ∷ [])) }
{
    match answer {
        Answer::Report(report) => reported(alloc, report),
        Answer::Schedule(report) => {
            let placed = placed_count(report.goals.as_slice());
            Ok(told_otherwise(placed, false))
        }
        Answer::Reply(reply) => Ok(told_otherwise(0, is_refusal(reply))),
        Answer::OtherModel => Ok(told_otherwise(0, true)),
        Answer::MergeRefused(_) => Ok(told_otherwise(0, true)),
        Answer::Merge { .. } => Ok(told_otherwise(0, false)),
        Answer::Expanded(_) => Ok(told_otherwise(0, false)),
    }
}
