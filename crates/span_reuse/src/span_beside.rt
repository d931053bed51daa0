//! The spans of a run beside those of another.

ghost use Rattle.std.specs.Prelude.{◌≡◌, IfOk, map};
ghost use Rattle.run_data.specs.Spans.{spans_of, timed};
ghost use Rattle.span_table.specs.AsDefined.{defined_span};
ghost use Rattle.span_table.specs.SpanLaws.{AreSpansOf};
ghost use Rattle.span_reuse.specs.Left.{DifferIn};

use crate::comparing::differing;
use crate::gathering::run_of;
use crate::merging::{copies_outside, with_each};
use crate::roots::TaskRoot;
use aerie_base::{Model, OutOfMemory};
use run_data::Run;
use run_data::laws::instants_rise;
use span_table::{Span, spans};
use std::alloc::Global;

/// The most frames that are looked at anew.
const MOST_FRAMES: usize = 32;

/// The spans of a run that tells the same as another but for some roots.
fn updated(
    alloc: Global,
    model: &Model,
    run: &Run,
    base: &Run,
    base_spans: &[Span],
    roots: &[TaskRoot],
) -> Result<Vec<Span>, OutOfMemory>
    requires differ { DifferIn roots.now (timed run.now.instants) (timed base.now.instants) }
    requires base { map defined_span base_spans.now ≡ spans_of model.now base.now }
    ensures { IfOk result (λ made. map defined_span made.items ≡ spans_of model.now run.now) }
{
    let part = run_of(alloc, roots, run)?;
    if part.instants.len() > MOST_FRAMES {
        let made = spans(alloc, model, run)?;
        return Ok(made);
    }
    let found = spans(alloc, model, &part)?;
    let kept = copies_outside(alloc, roots, base_spans, found.len())?;
    let made = with_each(kept, found)?;
    Ok(made)
}

/// The spans of a run, by start and then by path.
fn exact_spans(
    alloc: Global,
    model: &Model,
    run: &Run,
    base: &Run,
    base_spans: &[Span],
) -> Result<Vec<Span>, OutOfMemory>
    requires { map defined_span base_spans.now ≡ spans_of model.now base.now }
    ensures { IfOk result (λ made. map defined_span made.items ≡ spans_of model.now run.now) }
{
    match differing(alloc, run, base)? {
        Some(roots) => {
            let made = updated(alloc, model, run, base, base_spans, roots.as_slice())?;
            Ok(made)
        }
        None => {
            let made = spans(alloc, model, run)?;
            Ok(made)
        }
    }
}

/// The spans of a run of the model, from those of another run of it. Where the frames of the two differ for few directives and
/// daemons only, the spans of all other tasks are copied, and those of these are made anew; otherwise all are. It goes once over the
/// frames of both runs, and over the spans.
pub fn spans_beside(
    alloc: Global,
    model: &Model,
    run: &Run,
    base: &Run,
    base_spans: &[Span],
) -> Result<Vec<Span>, OutOfMemory>
    requires base { AreSpansOf model.now base.now base_spans.now }
    ensures found { IfOk result (λ made. AreSpansOf model.now run.now made.items) }
{
    instants_rise();
    let made = exact_spans(alloc, model, run, base, base_spans)?;
    Ok(made)
}
