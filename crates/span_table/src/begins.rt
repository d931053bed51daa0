//! The spans that begin, each with the number of its task.

ghost use Rattle.std.specs.Prelude.{◌≡◌, ◌++◌, [], ◌∷◌, take, OnOk, IfOk, slice_get};
ghost use Rattle.run_data.specs.Spans.{parameters_of};
ghost use Rattle.span_table.specs.AsDefined.{defined_span};
ghost use Rattle.span_table.specs.Begun.{begun_if, unfinished};
ghost use Rattle.span_table.specs.Progress.{GainsSpans, KeepNumbers};

use crate::span::Span;
use aerie_base::{List, Model, OutOfMemory, Time, Value};
use run_data::{BodyId, Frame};
use std::alloc::Global;

/// How many parameters an activity type has.
fn parameter_count(model: &Model, kind: u16) -> usize
    ensures { result ≡ parameters_of (slice_get model.now.activities kind) }
{
    match model.activities().get(usize::from(kind)) {
        Some(activity) => activity.parameters.len(),
        None => 0,
    }
}

/// The first values of these, at most so many.
fn first_values(
    alloc: Global,
    values: &List<Value>,
    count: usize,
) -> Result<List<Value>, OutOfMemory>
    ensures { IfOk result (λ first. first ≡ take count values.now) }
{
    let values = values.as_slice();
    if values.len() <= count {
        return Ok(List::from_vec(Vec::from_slice(alloc, values)?));
    }
    Ok(List::from_vec(Vec::from_slice(alloc, &values[..count])?))
}

/// The span of an activity of this type that begins with the frame.
fn unfinished(
    alloc: Global,
    model: &Model,
    time: Time,
    frame: &Frame,
    kind: u16,
) -> Result<Span, OutOfMemory>
    ensures defined { IfOk result (λ span. defined_span span ≡ unfinished model.now time frame.now kind) }
    ensures path { IfOk result (λ span. span.path ≡ frame.now.path) }
{
    let path = frame.path().copy(alloc)?;
    let count = parameter_count(model, kind);
    let arguments = first_values(alloc, &frame.before().locals, count)?;
    Ok(Span {
        path,
        kind,
        arguments,
        start: time,
        end: None,
        result: None,
    })
}

/// The spans that have begun, none of them with an end.
#[derive(Drop)]
pub(crate) struct BegunSpans {
    /// In the order in which they did.
    pub(crate) spans: Vec<Span>,
    /// The number of the task of each.
    pub(crate) numbers: Vec<usize>,
}

impl BegunSpans {
    /// None, with room for so many.
    pub(crate) fn with_capacity(alloc: Global, room: usize) -> Result<BegunSpans, OutOfMemory>
        ensures spans { IfOk result (λ begun. begun.spans.items ≡ []) }
        ensures numbers { IfOk result (λ begun. begun.numbers.items ≡ []) }
    {
        let spans = Vec::with_capacity(alloc, room)?;
        let numbers = Vec::with_capacity(alloc, room)?;
        Ok(BegunSpans { spans, numbers })
    }

    /// Puts a span of the task of a number behind the others.
    fn push(&mut self, span: Span, number: usize) -> Result<(), OutOfMemory>
        ensures spans { OnOk result (self.new.spans.items ≡ self.old.spans.items ++ span ∷ []) }
        ensures numbers { OnOk result (self.new.numbers.items ≡ self.old.numbers.items ++ number ∷ []) }
    {
        self.spans.push(span)?;
        self.numbers.push(number)?;
        Ok(())
    }

    /// Puts the span that begins with the frame of the task of a number behind the others, if its body is new and no daemon's.
    pub(crate) fn note(
        &mut self,
        alloc: Global,
        model: &Model,
        time: Time,
        frame: &Frame,
        number: usize,
        is_new: bool,
    ) -> Result<(), OutOfMemory>
        ensures spans { OnOk result (GainsSpans self.old self.new (begun_if is_new model.now time frame.now)) }
        ensures numbers { OnOk result (KeepNumbers number frame.now.path self.old self.new) }
    {
        if !is_new {
            return Ok(());
        }
        match frame.before().kind {
            BodyId::Activity(kind) => {
                let span = unfinished(alloc, model, time, frame, kind)?;
                self.push(span, number)?;
                Ok(())
            }
            BodyId::Daemon(_) => Ok(()),
        }
    }
}
