//! What the frames of a run tell, one after another.

ghost use Rattle.std.specs.Prelude.{◌≡◌, ℕ, [], ◌∷◌, Some, IfOk, OnOk, slice_get};
ghost use Rattle.aerie_base.specs.declared.models.model.Parts.{Parts};
ghost use Rattle.run_data.specs.Spans.{with_time, in_batches, timed};
ghost use Rattle.span_table.specs.BodyStates.{known_result};
ghost use Rattle.span_table.specs.Progress.{AreFinishedSpans, EndWith, GetEnds, GetsEnd, KnowsFrames, Learns};

use crate::begins::BegunSpans;
use crate::body_states::{BodyState, state_with, stays};
use crate::known_tasks::{
    Ending, KnownTasks, body_at, maker_of, mark_unfinished, put_body, put_ending,
};
use crate::numbering::number_of;
use crate::span::Span;
use aerie_base::{List, Model, OutOfMemory, Shared, Time, Value};
use indexmap::IndexMap;
use run_data::{Frame, Instant};
use std::alloc::Global;

/// The last frame that was taken in.
#[derive(Clone, Copy)]
pub(crate) struct LastFrame {
    /// The number of its task.
    pub(crate) number: usize,
    /// Its time.
    pub(crate) time: Time,
}

/// What the frames so far tell.
#[derive(Drop)]
pub(crate) struct Progress {
    /// The spans that have begun.
    pub(crate) begun: BegunSpans,
    /// The tasks.
    pub(crate) tasks: KnownTasks,
    /// The last frame; none before any.
    pub(crate) last: Option<LastFrame>,
}

/// The number of the task, if any is known, that ends with a step at this time, as does all that it is below: after a frame at
/// this time, that which made its task, or its task itself.
fn ended_at(tasks: &KnownTasks, last: Option<LastFrame>, time: Time) -> Option<usize>
    ensures { EndWith time tasks.now.entries last result }
{
    let Some(frame) = last else {
        return None;
    };
    if frame.time != time {
        return None;
    }
    match maker_of(tasks, frame.number) {
        Some(maker) => Some(maker),
        None => Some(frame.number),
    }
}

impl Progress {
    /// Before any frame, with room for so many tasks.
    pub(crate) fn with_capacity(alloc: Global, room: usize) -> Result<Progress, OutOfMemory>
        ensures { IfOk result (λ progress. (model : Parts) → KnowsFrames model [] progress) }
    {
        let begun = BegunSpans::with_capacity(alloc, room)?;
        let tasks = IndexMap::with_capacity(alloc, room)?;
        Ok(Progress {
            begun,
            tasks,
            last: None,
        })
    }

    /// Takes in the next frame.
    fn note(
        &mut self,
        alloc: Global,
        model: &Model,
        time: Time,
        frame: &Frame,
    ) -> Result<(), OutOfMemory>
        ensures { OnOk result (Learns model.now ((time, frame.now) ∷ []) self.old self.new) }
    {
        let near = self.last.map(|last| last.number);
        let number = number_of(alloc, &mut self.tasks, frame.shared_path(), near)?;
        let before = body_at(&self.tasks, number);
        let is_new = before.is_none();
        self.begun.note(alloc, model, time, frame, number, is_new)?;
        let stop = ended_at(&self.tasks, self.last, time);
        put_ending(&mut self.tasks, number, &Ending::After(Some(time)), stop);
        self.last = Some(LastFrame { number, time });
        if !stays(&before, frame.status()) {
            put_body(&mut self.tasks, number, state_with(&before, frame.status()));
        }
        Ok(())
    }

    /// Takes in the frames of a batch.
    fn note_batch(
        &mut self,
        alloc: Global,
        model: &Model,
        time: Time,
        batch: &[Frame],
    ) -> Result<(), OutOfMemory>
        ensures { OnOk result (Learns model.now (with_time time batch.now []) self.old self.new) }
    {
        for frame in batch {
            self.note(alloc, model, time, frame)?;
        }
        Ok(())
    }

    /// Takes in the batches of an instant.
    fn note_batches(
        &mut self,
        alloc: Global,
        model: &Model,
        time: Time,
        batches: &[List<Frame>],
    ) -> Result<(), OutOfMemory>
        ensures { OnOk result (Learns model.now (in_batches time batches.now []) self.old self.new) }
    {
        for batch in batches {
            self.note_batch(alloc, model, time, batch.as_slice())?;
        }
        Ok(())
    }

    /// Takes in some instants.
    pub(crate) fn note_instants(
        &mut self,
        alloc: Global,
        model: &Model,
        instants: &[Shared<Instant>],
    ) -> Result<(), OutOfMemory>
        ensures { OnOk result (Learns model.now (timed instants.now) self.old self.new) }
    {
        for instant in instants {
            let instant = instant.get();
            self.note_batches(alloc, model, instant.time, instant.batches.as_slice())?;
        }
        Ok(())
    }

    /// The spans in the order in which they began, each with its end and its result if its task has ended.
    pub(crate) fn into_spans(self) -> Vec<Span>
        ensures { AreFinishedSpans self result.items }
    {
        let Progress {
            begun,
            mut tasks,
            ..
        } = self;
        mark_unfinished(&mut tasks);
        let BegunSpans { mut spans, numbers } = begun;
        finish_all(&tasks, spans.as_mut_slice(), numbers.as_slice());
        spans
    }
}

/// What a body returned, if it has ended.
fn result_of(body: Option<BodyState>) -> Option<Value>
    ensures { result ≡ known_result body }
{
    match body {
        Some(BodyState::Over(result)) => result,
        Some(BodyState::Open) => None,
        None => None,
    }
}

/// Gives the span of the task of a number its end and its result, if the task has ended.
fn finish(tasks: &KnownTasks, span: &mut Span, number: usize)
    ensures { GetsEnd tasks.now.entries number span.old span.new }
{
    // what is a path has the numbers of one
    let _numbers = span.path.children();
    if let Some((_, task)) = tasks.get_index(number) {
        if let Ending::After(end) = task.ending {
            span.end = end;
            span.result = result_of(task.body);
        }
    }
}

/// The same, where there is such a number.
fn finish_with(tasks: &KnownTasks, span: &mut Span, number: Option<usize>)
    ensures { (of : ℕ) → number ≡ Some of → GetsEnd tasks.now.entries of span.old span.new }
{
    if let Some(number) = number {
        finish(tasks, span, number);
    }
}

/// The number at a place, if there is one.
fn number_at(numbers: &[usize], at: usize) -> Option<usize>
    ensures { result ≡ slice_get numbers.now at }
{
    numbers.get(at).copied()
}

/// Gives each span its end and its result, if its task has ended.
fn finish_all(tasks: &KnownTasks, spans: &mut [Span], numbers: &[usize])
    ensures { GetEnds tasks.now.entries numbers.now spans.old spans.new }
{
    for at in 0..spans.len() {
        finish_with(tasks, &mut spans[at], number_at(numbers, at));
    }
}
