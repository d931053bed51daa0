ghost use Rattle.std.specs.Prelude.{◌≡◌, map, IfOk};
ghost use Rattle.std.specs.List.{All};
ghost use Rattle.run_data.specs.Spans.{spans_of, timed};
ghost use Rattle.span_table.specs.AsDefined.{IsSortedAs, defined_span};
ghost use Rattle.span_table.specs.SpanLaws.{AreInTime, AreSpansOf, HasItsEnd, HasOneEach};

use crate::ordering::compare;
use crate::progress::Progress;
use crate::span::Span;
use aerie_base::{Model, OutOfMemory};
use run_data::Run;
use run_data::laws::instants_rise;
use std::alloc::Global;

/// The spans of a run of the model: one for each activity that began in a settled instant, by start and then by path. It goes
/// once over the frames, with a look-up by path for each that is of another task than the frame before it, and not of the one
/// that made that; then the spans are sorted.
///
/// A task has one span exactly where its first frame in a settled instant is an activity's. A span without an end is of a task of
/// which some body, its own or one under it, has not ended; of one with an end all have. The spans of a fresh run begin by the
/// time that it reached, and end between their start and that time.
pub fn spans(alloc: Global, model: &Model, run: &Run) -> Result<Vec<Span>, OutOfMemory>
    ensures exact { IfOk result (λ spans. map defined_span spans.items ≡ spans_of model.now run.now) }
    ensures one_each { IfOk result (λ spans. HasOneEach (timed run.now.instants) spans.items) }
    ensures ends { IfOk result (λ spans. All (HasItsEnd (timed run.now.instants)) spans.items) }
    ensures in_time { IfOk result (λ spans. AreInTime model.now run.now spans.items) }
    ensures found { IfOk result (λ spans. AreSpansOf model.now run.now spans.items) }
{
    instants_rise();
    // most directives have a task, and many of these make others; room that is too small costs a copy of all that was found
    let directives = run.plan.get().directives.as_slice().len();
    let room = directives.saturating_mul(2);
    let mut progress = Progress::with_capacity(alloc, room)?;
    progress.note_instants(alloc, model, run.instants.as_slice())?;
    let spans = sorted(progress.into_spans())?;
    Ok(spans)
}

/// The spans by start and then by path.
fn sorted(mut spans: Vec<Span>) -> Result<Vec<Span>, OutOfMemory>
    ensures { IfOk result (λ sorted. IsSortedAs spans.items sorted.items) }
{
    spans.sort_by(|span, other| compare(span, other))?;
    Ok(spans)
}
