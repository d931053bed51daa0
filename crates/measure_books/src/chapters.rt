//! Chapters of steps of the counting model.

ghost use Rattle.std.specs.Prelude.{◌≡◌, IfSome};
ghost use Rattle.run_data.specs.Records.{IsValid, record_of};
ghost use Rattle.measure_books.specs.Counting.{AreCountingFrames, counting};

use crate::counting::counting_step;
use aerie_base::{List, Model, Path, Shared};
use record_book::{Book, CHAPTER_LIMIT, Chapter};
use run_data::Frame;
use std::alloc::Global;

/// In what the steps of a book differ.
#[derive(Clone, Copy)]
pub(crate) enum Differing {
    /// All are from one state, and each has read a number of its own.
    Reads,
    /// Each is from a state of its own, and all have read the same number.
    States,
}

/// Steps that are made: so many, from this number on.
#[derive(Clone, Copy)]
pub(crate) struct StepNumbers {
    pub(crate) differing: Differing,
    pub(crate) from: u32,
    pub(crate) count: u32,
}

impl Differing {
    /// How far apart the numbers are that two steps in turn have read.
    pub(crate) fn numbers_apart(self) -> u32 {
        match self {
            Differing::Reads => 1,
            Differing::States => 0,
        }
    }
}

impl StepNumbers {
    /// So many, from this number on.
    pub(crate) fn new(differing: Differing, from: u32, count: u32) -> StepNumbers {
        StepNumbers {
            differing,
            from,
            count,
        }
    }
}

/// The frame of the step with a number.
fn frame(alloc: Global, path: &Shared<Path>, differing: Differing, number: u32) -> Option<Frame>
    ensures { IfSome result (λ frame. IsValid counting (record_of frame)) }
{
    let step = match differing {
        Differing::Reads => counting_step(alloc, 0, number)?,
        Differing::States => counting_step(alloc, number, 0)?,
    };
    let path = path.share().ok()?;
    Some(Frame::new(path, step))
}

/// The frames of steps.
fn frames(alloc: Global, numbers: StepNumbers) -> Option<List<Frame>>
    ensures { IfSome result AreCountingFrames }
{
    let path = Shared::new(alloc, Path::of_daemon(alloc, 0).ok()?).ok()?;
    let mut frames = List::new(alloc);
    for at in 0..numbers.count {
        let number = numbers.from.wrapping_add(at);
        frames = with_frame(frames, frame(alloc, &path, numbers.differing, number)?)?;
    }
    Some(frames)
}

/// Frames with one more.
fn with_frame(frames: List<Frame>, frame: Frame) -> Option<List<Frame>>
    requires all { AreCountingFrames frames }
    requires valid { IsValid counting (record_of frame) }
    ensures { IfSome result AreCountingFrames }
{
    let mut more = frames;
    match more.push(frame) {
        Ok(()) => Some(more),
        Err(_) => None,
    }
}

/// A chapter of steps.
pub(crate) fn chapter(alloc: Global, model: &Shared<Model>, numbers: StepNumbers) -> Option<Chapter>
    requires { model.now ≡ counting }
    ensures { IfSome result (λ chapter. chapter.model ≡ counting) }
{
    let frames = frames(alloc, numbers)?;
    if frames.len() > CHAPTER_LIMIT {
        return None;
    }
    let model = model.share().ok()?;
    Chapter::of_frames(alloc, model, frames.as_slice()).ok()
}

/// Chapters of steps, so many in each; what is left over is left out.
pub(crate) fn chapters(
    alloc: Global,
    model: &Shared<Model>,
    numbers: StepNumbers,
    each: u32,
) -> Option<Vec<Chapter>>
    requires { model.now ≡ counting }
{
    let mut chapters = Vec::new(alloc);
    for at in 0..numbers.count.checked_div(each)? {
        let from = numbers.from.wrapping_add(at.wrapping_mul(each));
        let numbers = StepNumbers::new(numbers.differing, from, each);
        chapters.push(chapter(alloc, model, numbers)?).ok()?;
    }
    Some(chapters)
}

/// A book of the model without records.
pub(crate) fn empty_book(alloc: Global, model: &Shared<Model>) -> Option<Book>
    requires { model.now ≡ counting }
    ensures { IfSome result (λ book. book.model ≡ counting) }
{
    let model = model.share().ok()?;
    Book::new(alloc, model).ok()
}
