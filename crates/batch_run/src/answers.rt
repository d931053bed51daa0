//! What two books answer to the jobs of a wave, and the frames that come of it.

ghost use Rattle.std.specs.Prelude.{◌≡◌, ◌≤◌, ◌+◌, ◌*◌, None, Some, IsTrue, IfOk, length};
ghost use Rattle.std.specs.List.{All};
ghost use Rattle.std.specs.Vec.Iter.{into_iter_items};
ghost use Rattle.run_data.specs.Jobs.{AreCellsOf, IsJobOf};
ghost use Rattle.run_data.specs.TaskFrames.{frame_with};
ghost use Rattle.run_data.specs.Waves.{unless_spent};
ghost use Rattle.batch_run.specs.Answers.{AreAnswers, TakesNext, IsAnswerFor, missed, stored_by, woven};

use aerie_base::{List, OutOfMemory, Shared, Steps};
use record_book::Book;
use run_data::{Frame, Job, Record, Wave};
use std::alloc::Global;
use std::sync::ledger::Ledger;
use std::vec::IntoIter;

/// The frame of a stored step under the path of a job. The step is shared, not copied.
fn found(job: &Job, step: &Shared<Record>) -> Result<Frame, OutOfMemory>
    ensures { IfOk result (λ frame. frame ≡ frame_with job.now.path step.now) }
{
    let path = job.path.share()?;
    let step = step.share()?;
    Ok(Frame::new(path, step))
}

/// The frame of a job where one of the two books has its step. The second is searched where the first has none.
fn answer<K: Ledger>(
    book: &Book,
    kept: &Book,
    job: &Job,
    looks: &mut Steps<K>,
) -> Result<Option<Frame>, OutOfMemory>
    requires view { AreCellsOf book.now.model job.now.view }
    requires model { kept.now.model ≡ book.now.model }
    ensures answer { IfOk result (IsAnswerFor book.now.model (stored_by book.now kept.now) job.now) }
    ensures looks { looks.old ≤ looks.new }
    ensures few { looks.new ≤ looks.old + 2 }
{
    if let Some(step) = book.find(job.state.get(), job.view.get(), looks) {
        return Ok(Some(found(job, step)?));
    }
    if let Some(step) = kept.find(job.state.get(), job.view.get(), looks) {
        return Ok(Some(found(job, step)?));
    }
    Ok(None)
}

/// The answer to each job, in their order.
pub(crate) fn look_up<K: Ledger>(
    alloc: Global,
    book: &Book,
    kept: &Book,
    jobs: &[Job],
    looks: &mut Steps<K>,
) -> Result<List<Option<Frame>>, OutOfMemory>
    requires jobs { All (IsJobOf book.now.model) jobs.now }
    requires model { kept.now.model ≡ book.now.model }
    ensures answers { IfOk result (AreAnswers book.now.model (stored_by book.now kept.now) jobs.now) }
    ensures looks { looks.old ≤ looks.new }
    ensures few { looks.new ≤ looks.old + 2 * length jobs.now }
{
    let mut answers = List::with_capacity(alloc, jobs.len())?;
    for job in jobs {
        let answer = answer(book, kept, job, looks)?;
        answers.push(answer)?;
    }
    Ok(answers)
}

/// Whether no step was found.
pub(crate) fn is_none_found(answers: &[Option<Frame>]) -> bool
    ensures { IsTrue result → All (λ answer. answer ≡ None) answers.now }
{
    for answer in answers {
        if answer.is_some() {
            return false;
        }
    }
    true
}

/// The jobs for which no step was found. They are shared, not copied.
pub(crate) fn missed_jobs(
    alloc: Global,
    jobs: &[Job],
    answers: &[Option<Frame>],
) -> Result<List<Job>, OutOfMemory>
    requires { length answers.now ≡ length jobs.now }
    ensures { IfOk result (λ rest. rest ≡ missed jobs.now answers.now) }
{
    let mut rest = List::new(alloc);
    for (at, job) in jobs.iter().enumerate() {
        if answers[at].is_none() {
            rest.push(job.share()?)?;
        }
    }
    Ok(rest)
}

/// The frame that was found, or else the next of those that were run.
fn next_frame(answer: Option<Frame>, runs: &mut IntoIter<Frame>) -> Option<Frame>
    ensures { TakesNext answer result (into_iter_items runs.old) (into_iter_items runs.new) }
{
    match answer {
        Some(frame) => Some(frame),
        None => runs.next(),
    }
}

/// The frames that were found with those of the missed jobs in the places between, or `Spent` where they together cost more than
/// the fuel.
pub(crate) fn weave(
    alloc: Global,
    answers: List<Option<Frame>>,
    fresh: List<Frame>,
    fuel: u64,
) -> Result<Wave, OutOfMemory>
    ensures { IfOk result (λ wave. wave ≡ unless_spent fuel (Some (woven answers fresh))) }
{
    let mut frames = List::with_capacity(alloc, answers.len())?;
    let mut left = fuel;
    let mut runs = fresh.into_vec().into_iter();
    for answer in answers.into_vec() {
        let Some(frame) = next_frame(answer, &mut runs) else {
            continue;
        };
        let cost = frame.cost();
        if cost > left {
            return Ok(Wave::Spent);
        }
        left -= cost;
        frames.push(frame)?;
    }
    Ok(Wave::Frames(frames))
}
