//! The anchors of a coexistence goal.

ghost use Rattle.std.specs.Prelude.{◌≡◌, IsTrue, IfOk, IsPermutation, map};
ghost use Rattle.run_data.specs.Fresh.{IsFresh};
ghost use Rattle.run_data.specs.Spans.{spans_of};
ghost use Rattle.span_table.specs.AsDefined.{defined_span};
ghost use Rattle.goals.specs.Anchors.{goal_anchors, type_starts, type_ends, window_starts as starts_by_window};
ghost use Rattle.constraints.specs.OfModel.{is_window};
ghost use Rattle.goals.specs.Merging.{Rises};
ghost use Rattle.goals.specs.OfModel.{is_anchor};

use crate::types::GoalAnchor;
use aerie_base::{Model, OutOfMemory, Time};
use constraints::{Window, window_times};
use run_data::Run;
use span_table::Span;
use std::alloc::Global;

/// When the spans of a type start, in the order of the spans.
fn starts_of(alloc: Global, kind: u16, spans: &[Span]) -> Result<Vec<Time>, OutOfMemory>
    ensures { IfOk result (λ starts. starts.items ≡ type_starts kind (map defined_span spans.now)) }
{
    let mut starts = Vec::new(alloc);
    for span in spans {
        if span.kind == kind {
            starts.push(span.start)?;
        }
    }
    Ok(starts)
}

/// When those spans of a type end that have ended, in the order of the spans.
fn ends_of(alloc: Global, kind: u16, spans: &[Span]) -> Result<Vec<Time>, OutOfMemory>
    ensures { IfOk result (λ ends. ends.items ≡ type_ends kind (map defined_span spans.now)) }
{
    let mut ends = Vec::new(alloc);
    for span in spans {
        if span.kind == kind {
            if let Some(end) = span.end {
                ends.push(end)?;
            }
        }
    }
    Ok(ends)
}

/// Where the maximal intervals begin on which a window holds.
fn window_starts(
    alloc: Global,
    model: &Model,
    run: &Run,
    window: &Window,
) -> Result<Vec<Time>, OutOfMemory>
    requires fresh { IsFresh model.now run.now.plan run.now.bound run.now }
    requires window { IsTrue (is_window model.now window.now) }
    ensures { IfOk result (λ starts. starts.items ≡ starts_by_window model.now run.now window.now) }
{
    let times = window_times(alloc, model, run, window)?;
    let mut starts = Vec::new(alloc);
    for interval in times.intervals() {
        starts.push(interval.0)?;
    }
    Ok(starts)
}

/// The anchors on a run that has these spans.
pub(crate) fn anchors_of(
    alloc: Global,
    model: &Model,
    run: &Run,
    spans: &[Span],
    anchor: &GoalAnchor,
) -> Result<Vec<Time>, OutOfMemory>
    requires fresh { IsFresh model.now run.now.plan run.now.bound run.now }
    requires anchor { IsTrue (is_anchor model.now anchor.now) }
    requires spans { map defined_span spans.now ≡ spans_of model.now run.now }
    ensures { IfOk result (λ anchors. anchors.items ≡ goal_anchors model.now run.now anchor.now) }
{
    match anchor {
        GoalAnchor::Starts(kind) => starts_of(alloc, *kind, spans),
        GoalAnchor::Ends(kind) => ends_of(alloc, *kind, spans),
        GoalAnchor::Windows(window) => window_starts(alloc, model, run, window),
    }
}

/// The anchors, sorted from the first to the last.
pub(crate) fn in_order(mut anchors: Vec<Time>) -> Result<Vec<Time>, OutOfMemory>
    ensures permutation { IfOk result (λ sorted. IsPermutation anchors.items sorted.items) }
    ensures rises { IfOk result (λ sorted. Rises sorted.items) }
{
    anchors.sort_by_key(|anchor| anchor.get().unsigned_abs())?;
    Ok(anchors)
}
