//! The frames of a run, one after another.

ghost use Rattle.std.specs.Prelude.{◌≡◌, ◌<◌, ◌∷◌, [], MatchOption, IsTrue, false, option_map, length};
ghost use Rattle.run_data.specs.Spans.{timed};
ghost use Rattle.span_reuse.specs.Left.{MeetsNext, frames_left, iterations_left};

use crate::roots::{TaskRoot, is_among};
use aerie_base::{List, Shared, Time};
use run_data::{Frame, Instant};

/// The frames of a run that are left, in the order of the run.
#[derive(Drop)]
pub(crate) struct FrameCursor<'r> {
    /// The time of the instant at which it is.
    time: Time,
    /// The frames that are left of its batch.
    batch: &'r [Frame],
    /// The batches behind that one.
    batches: &'r [List<Frame>],
    /// The instants behind that one.
    instants: &'r [Shared<Instant>],
}

impl<'r> FrameCursor<'r> {
    /// All frames of some instants.
    pub(crate) fn new(instants: &'r [Shared<Instant>]) -> FrameCursor<'r>
        ensures { frames_left result ≡ timed instants.now }
    {
        FrameCursor {
            time: Time::zero(),
            batch: &[],
            batches: &[],
            instants,
        }
    }

    /// The time of the frame that was met last.
    pub(crate) fn time(&self) -> Time
        ensures { result ≡ self.now.time }
    {
        self.time
    }

    /// Turns to the next batch, or to the next instant, if there is one.
    fn advance(&mut self) -> bool
        requires { self.old.batch.now ≡ [] }
        ensures left { frames_left self.new ≡ frames_left self.old }
        ensures fewer { IsTrue result → iterations_left self.new < iterations_left self.old }
        ensures none { result ≡ false → frames_left self.old ≡ [] }
    {
        if let Some((batch, batches)) = self.batches.split_first() {
            self.batch = batch.as_slice();
            self.batches = batches;
            return true;
        }
        match self.instants.split_first() {
            Some((instant, instants)) => {
                self.time = instant.get().time;
                self.batches = instant.get().batches.as_slice();
                self.instants = instants;
                true
            }
            None => false,
        }
    }

    /// Turns to a batch of which a frame is left, if there is one.
    fn fill(&mut self)
        ensures left { frames_left self.new ≡ frames_left self.old }
        ensures none { self.new.batch.now ≡ [] → frames_left self.new ≡ [] }
    {
        while self.batch.is_empty() {
            if !self.advance() {
                return;
            }
        }
    }

    /// The next frame.
    pub(crate) fn next(&mut self) -> Option<&'r Frame>
        ensures { MatchOption result ((frames_left self.new ≡ []) × (frames_left self.old ≡ []))
            (λ frame. frames_left self.old ≡ (self.new.time, frame.now) ∷ frames_left self.new) }
    {
        self.fill();
        match self.batch.split_first() {
            Some((frame, batch)) => {
                self.batch = batch;
                Some(frame)
            }
            None => None,
        }
    }

    /// The next frame of a task that comes from none of these.
    pub(crate) fn next_outside(&mut self, roots: &[TaskRoot]) -> Option<&'r Frame>
        ensures next { MeetsNext roots.now (frames_left self.old) (frames_left self.new) self.new.time
            (option_map (λ frame. frame.now) result) }
    {
        while let Some(frame) = self.next() {
            let path = frame.path();
            // what is a path has the numbers of one
            let _numbers = path.children();
            if !is_among(roots, path) {
                return Some(frame);
            }
        }
        None
    }
}
