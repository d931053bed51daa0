//! The tasks of a run by number, and what is known of each of them.

ghost use Rattle.span_table.specs.KnownTasks.{EndsAll, IsBodyAt, IsMakerOf, IsOpenAt, PutsBody, PutsEnding};
ghost use Rattle.span_table.specs.Progress.{FindsEnds};

use crate::body_states::BodyState;
use aerie_base::{Path, Shared, Time};
use indexmap::IndexMap;

/// Whether a task has ended, and when.
#[derive(Clone, Copy)]
pub(crate) enum Ending {
    /// Its last step, or the last one below it, was at this time; none where there was no step.
    After(Option<Time>),
    /// Some body, its own or one below it, has not ended.
    Unfinished,
}

/// What is known of a task.
#[derive(Clone, Copy)]
pub(crate) struct KnownTask {
    /// The number of the task that made it; none where it comes from a directive or daemon itself.
    pub(crate) above: Option<usize>,
    /// How far its body has come; none where no frame was of it.
    pub(crate) body: Option<BodyState>,
    /// Its end.
    pub(crate) ending: Ending,
}

/// The tasks so far, each with a number, in the order in which they came.
pub(crate) type KnownTasks = IndexMap<Shared<Path>, KnownTask>;

/// Gives the task of a number its body's state.
pub(crate) fn put_body(tasks: &mut KnownTasks, number: usize, body: BodyState)
    ensures { PutsBody number body tasks.old.entries tasks.new.entries }
{
    if let Some(task) = tasks.get_index_mut(number) {
        task.body = Some(body);
    }
}

/// Gives the task of a number an end, and says by which task it was made.
fn put_own_ending(tasks: &mut KnownTasks, number: usize, ending: &Ending) -> Option<usize>
    ensures { PutsEnding number ending.now tasks.old.entries tasks.new.entries result }
{
    match tasks.get_index_mut(number) {
        Some(task) => {
            task.ending = *ending;
            task.above
        }
        None => None,
    }
}

/// Gives the task of a number, and all that it is below, an end: each is made by one with a smaller number. It stops at the
/// one, if any, that has this end already with all that it is below.
pub(crate) fn put_ending(
    tasks: &mut KnownTasks,
    number: usize,
    ending: &Ending,
    stop: Option<usize>,
)
    ensures { EndsAll number ending.now stop tasks.old.entries tasks.new.entries }
{
    if stop == Some(number) {
        return;
    }
    let Some(above) = put_own_ending(tasks, number, ending) else {
        return;
    };
    if above < number {
        put_ending(tasks, above, ending, stop);
    }
}

/// By which task that of a number was made, if by any.
pub(crate) fn maker_of(tasks: &KnownTasks, number: usize) -> Option<usize>
    ensures { IsMakerOf tasks.now.entries number result }
{
    match tasks.get_index(number) {
        Some((_, task)) => task.above,
        None => None,
    }
}

/// How far the body of a number has come.
pub(crate) fn body_at(tasks: &KnownTasks, number: usize) -> Option<BodyState>
    ensures { IsBodyAt tasks.now.entries number result }
{
    match tasks.get_index(number) {
        Some((_, task)) => task.body,
        None => None,
    }
}

/// Whether the body of a number has begun and not ended.
fn is_open_at(tasks: &KnownTasks, number: usize) -> bool
    ensures { IsOpenAt tasks.now.entries number result }
{
    match body_at(tasks, number) {
        Some(body) => body.is_open(),
        None => false,
    }
}

/// Each task that is above an open body, or has one, is unfinished.
pub(crate) fn mark_unfinished(tasks: &mut KnownTasks)
    ensures { FindsEnds tasks.old.entries tasks.new.entries }
{
    for number in 0..tasks.len() {
        if is_open_at(tasks, number) {
            put_ending(tasks, number, &Ending::Unfinished, None);
        }
    }
}
