//! What a goal lacks on a run, and whether it is met.

ghost use Rattle.std.specs.Prelude.{◌≡◌, IsTrue, IfOk, is_none, map, option_map};
ghost use Rattle.run_data.specs.Fresh.{IsFresh};
ghost use Rattle.goals.specs.Goals.{anchor_gap_of, first_gap, gap_at, gap_over, is_completed as has_completed, is_goal_met, is_met_or_stopped};
ghost use Rattle.run_data.specs.Spans.{spans_of};
ghost use Rattle.span_table.specs.AsDefined.{defined_span};
ghost use Rattle.span_table.specs.SpanLaws.{AreSpansOf};
ghost use Rattle.goals.specs.Merging.{Rises};
ghost use Rattle.goals.specs.OfModel.{is_anchor, is_goal};

use crate::anchors::{anchors_of, in_order};
use crate::gap::Gap;
use crate::gaps::{StartRange, cardinality_gap, coexistence_gap, recurrence_gap};
use crate::matching::match_spans;
use crate::types::{Goal, GoalAnchor, GoalKind};
use aerie_base::{Model, OutOfMemory, Time};
use run_data::{Outcome, Run};
use span_table::Span;
use std::alloc::Global;

/// Whether a run came to its plan's end.
pub(crate) fn is_completed(outcome: &Outcome) -> bool
    ensures { result ≡ has_completed outcome.now }
{
    matches!(outcome, Outcome::Completed)
}

/// A gap at a time, if there is one.
fn at_time(time: Option<Time>) -> Option<Gap>
    ensures { result ≡ option_map gap_at time }
{
    time.map(|time| Gap { at: time.get() })
}

/// A gap at a number, if there is one.
fn at_number(number: Option<u32>) -> Option<Gap>
    ensures { result ≡ option_map gap_at number }
{
    number.map(|number| Gap {
        at: i64::from(number),
    })
}

/// The least anchor on a run with these spans and matching starts that has none of the starts beside it.
fn anchor_gap(
    alloc: Global,
    model: &Model,
    run: &Run,
    spans: &[Span],
    starts: &[Time],
    anchor: &GoalAnchor,
    range: &StartRange,
) -> Result<Option<Time>, OutOfMemory>
    requires fresh { IsFresh model.now run.now.plan run.now.bound run.now }
    requires anchor { IsTrue (is_anchor model.now anchor.now) }
    requires spans { map defined_span spans.now ≡ spans_of model.now run.now }
    requires rises { Rises starts.now }
    ensures { IfOk result (λ gap. gap ≡ anchor_gap_of model.now run.now starts.now anchor.now range.now.from range.now.to) }
{
    let found = anchors_of(alloc, model, run, spans, anchor)?;
    let anchors = in_order(found)?;
    let gap = coexistence_gap(range, starts, anchors.as_slice());
    Ok(gap)
}

/// The first gap of the goal on a completed run.
fn gap_by_kind(
    alloc: Global,
    model: &Model,
    goal: &Goal,
    run: &Run,
    spans: &[Span],
) -> Result<Option<Gap>, OutOfMemory>
    requires fresh { IsFresh model.now run.now.plan run.now.bound run.now }
    requires spans { map defined_span spans.now ≡ spans_of model.now run.now }
    requires goal { IsTrue (is_goal model.now goal.now) }
    ensures { IfOk result (λ gap. gap ≡ gap_over model.now goal.now run.now) }
{
    let matched = match_spans(alloc, &goal.template, spans)?;
    let starts = matched.as_slice();
    match &goal.kind {
        GoalKind::Recurrence { every, from, to } => {
            Ok(at_time(recurrence_gap(*every, *from, *to, starts)))
        }
        GoalKind::Coexistence { anchor, from, to } => {
            let range = StartRange {
                from: *from,
                to: *to,
            };
            let gap = anchor_gap(alloc, model, run, spans, starts, anchor, &range)?;
            Ok(at_time(gap))
        }
        GoalKind::Cardinality { count, from, to } => {
            Ok(at_number(cardinality_gap(*count, *from, *to, starts)))
        }
    }
}

/// The first gap of the goal on a fresh run of the model. There is none exactly where the goal is met, or the run did not
/// complete. The caller has found the spans of the run, once for all goals.
pub fn missing(
    alloc: Global,
    model: &Model,
    goal: &Goal,
    run: &Run,
    spans: &[Span],
) -> Result<Option<Gap>, OutOfMemory>
    requires fresh { IsFresh model.now run.now.plan run.now.bound run.now }
    requires spans { AreSpansOf model.now run.now spans.now }
    requires goal { IsTrue (is_goal model.now goal.now) }
    ensures exact { IfOk result (λ gap. gap ≡ first_gap model.now goal.now run.now) }
    ensures none { IfOk result (λ gap. is_none gap ≡ is_met_or_stopped model.now goal.now run.now) }
{
    if !is_completed(&run.outcome) {
        return Ok(None);
    }
    gap_by_kind(alloc, model, goal, run, spans)
}

/// Whether the goal is met on a fresh run of the model: the run completed, and the goal has no gap on it. The caller has found
/// the spans of the run, once for all goals.
pub fn met(
    alloc: Global,
    model: &Model,
    goal: &Goal,
    run: &Run,
    spans: &[Span],
) -> Result<bool, OutOfMemory>
    requires fresh { IsFresh model.now run.now.plan run.now.bound run.now }
    requires spans { AreSpansOf model.now run.now spans.now }
    requires goal { IsTrue (is_goal model.now goal.now) }
    ensures { IfOk result (λ met. met ≡ is_goal_met model.now goal.now run.now) }
{
    if !is_completed(&run.outcome) {
        return Ok(false);
    }
    let gap = missing(alloc, model, goal, run, spans)?;
    Ok(gap.is_none())
}
