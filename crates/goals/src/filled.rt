//! Whether a gap that a goal had is filled on another run.

ghost use Rattle.std.specs.Prelude.{◌≡◌, IsTrue, IfOk, map};
ghost use Rattle.run_data.specs.Fresh.{IsFresh};
ghost use Rattle.goals.specs.Goals.{filled_over, is_behind as comes_behind, is_filled as filled, is_left as left_over};
ghost use Rattle.goals.specs.OfModel.{is_goal};
ghost use Rattle.run_data.specs.Spans.{spans_of};
ghost use Rattle.span_table.specs.AsDefined.{defined_span};
ghost use Rattle.span_table.specs.SpanLaws.{AreSpansOf};

use crate::anchors::anchors_of;
use crate::first_gaps::is_completed;
use crate::gap::Gap;
use crate::gaps::{StartRange, count_within, has_start, recurrence_gap};
use crate::matching::match_spans;
use crate::types::{Goal, GoalKind};
use aerie_base::{Model, OutOfMemory, Time};
use run_data::Run;
use span_table::Span;
use std::alloc::Global;

/// Whether the next gap is none, or after this one.
fn is_behind(gap: &Gap, next: Option<Time>) -> bool
    ensures { result ≡ comes_behind gap.now.at next }
{
    match next {
        Some(next) => gap.at < next.get(),
        None => true,
    }
}

/// Whether the gap is one of the anchors, and has no start beside it.
fn is_left(gap: &Gap, range: &StartRange, starts: &[Time], anchors: &[Time]) -> bool
    ensures { result ≡ left_over range.now.from range.now.to starts.now anchors.now gap.now.at }
{
    for anchor in anchors {
        if anchor.get() == gap.at {
            return !has_start(range, starts, *anchor);
        }
    }
    false
}

/// Whether the gap is filled on a completed run.
fn filled_by_kind(
    alloc: Global,
    model: &Model,
    goal: &Goal,
    gap: &Gap,
    run: &Run,
    spans: &[Span],
) -> Result<bool, OutOfMemory>
    requires fresh { IsFresh model.now run.now.plan run.now.bound run.now }
    requires spans { map defined_span spans.now ≡ spans_of model.now run.now }
    requires goal { IsTrue (is_goal model.now goal.now) }
    ensures { IfOk result (λ is. is ≡ filled_over model.now goal.now gap.now run.now) }
{
    let starts = match_spans(alloc, &goal.template, spans)?;
    match &goal.kind {
        GoalKind::Recurrence { every, from, to } => {
            Ok(is_behind(gap, recurrence_gap(*every, *from, *to, &starts)))
        }
        GoalKind::Coexistence { anchor, from, to } => {
            let anchors = anchors_of(alloc, model, run, spans, anchor)?;
            let range = StartRange {
                from: *from,
                to: *to,
            };
            Ok(!is_left(gap, &range, &starts, &anchors))
        }
        GoalKind::Cardinality { from, to, .. } => {
            let found = count_within(*from, *to, &starts);
            Ok(i128::from(gap.at) < found as i128)
        }
    }
}

/// Whether a gap that a goal had is filled on a fresh run of the model, as that of a plan with one activity more: the run
/// completed, and of a recurrence the first gap is now none or a later one, of a coexistence the gap is no anchor without a
/// start beside it, of a cardinality there are more starts than there were. The caller has found the spans of the run.
pub fn is_filled(
    alloc: Global,
    model: &Model,
    goal: &Goal,
    gap: &Gap,
    run: &Run,
    spans: &[Span],
) -> Result<bool, OutOfMemory>
    requires fresh { IsFresh model.now run.now.plan run.now.bound run.now }
    requires spans { AreSpansOf model.now run.now spans.now }
    requires goal { IsTrue (is_goal model.now goal.now) }
    ensures { IfOk result (λ is. is ≡ filled model.now goal.now gap.now run.now) }
{
    if !is_completed(&run.outcome) {
        return Ok(false);
    }
    filled_by_kind(alloc, model, goal, gap, run, spans)
}
