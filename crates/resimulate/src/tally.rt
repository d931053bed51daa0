//! What was simulated since the last bookmark, against what one more costs. A bookmark copies each task that goes on, lists each
//! directive that waits for its start and holds each instant, so it is made only where the frames since the last one took some fifty
//! times as much.

use aerie_base::{List, Shared};
use run_data::{Frame, Instant, Item, Status};

/// How many directives that wait cost a bookmark as much as one task that goes on.
const WAITING_FOR_TASK: usize = 8;

/// How many instants cost it as much.
const INSTANTS_FOR_TASK: usize = 3;

/// What else a bookmark costs, in tasks that go on.
const LEAST_PRICE: usize = 32;

/// The frames since the last bookmark, and the tasks that are live now. Daemons are not counted.
#[derive(Clone, Copy)]
pub(crate) struct Tally {
    /// How many instants were counted.
    instants: usize,
    /// How many frames they have since the last bookmark.
    frames: usize,
    /// How many directives wait for their start behind them.
    waiting: usize,
    /// How many tasks have begun and go on.
    begun: usize,
}

/// How many children some items make.
fn children_of(items: &List<Item>) -> usize {
    let mut many: usize = 0;
    for item in items.as_slice() {
        if matches!(item, Item::Child { .. }) {
            many = many.saturating_add(1);
        }
    }
    many
}

/// Whether a step is the first of a directive's task. One that comes back to the first place of its body counts again: this is an
/// estimate.
fn begins_directive(frame: &Frame) -> bool {
    let path = frame.path();
    frame.before().at == 0 && path.children().is_empty() && !path.daemon()
}

/// Whether a step ends the body of its task.
fn is_last(status: &Status) -> bool {
    matches!(status, Status::Done(_) | Status::Faulted(_))
}

impl Tally {
    /// Of a plan with so many directives, whose simulation begins behind these instants.
    pub(crate) fn new(directives: usize, instants: &[Shared<Instant>]) -> Tally {
        let mut tally = Tally {
            instants: 0,
            frames: 0,
            waiting: directives,
            begun: 0,
        };
        tally.go_to(instants);
        tally.start_over();
        tally
    }

    /// Counts a frame.
    fn count(&mut self, frame: &Frame) {
        self.frames = self.frames.saturating_add(1);
        if begins_directive(frame) {
            self.waiting = self.waiting.saturating_sub(1);
            self.begun = self.begun.saturating_add(1);
        }
        self.begun = self.begun.saturating_add(children_of(frame.items()));
        if is_last(frame.status()) {
            self.begun = self.begun.saturating_sub(1);
        }
    }

    /// Counts the frames of an instant.
    fn count_instant(&mut self, instant: &Instant) {
        for batch in instant.batches.as_slice() {
            for frame in batch.as_slice() {
                self.count(frame);
            }
        }
    }

    /// Counts the frames of those instants that are not counted yet.
    pub(crate) fn go_to(&mut self, instants: &[Shared<Instant>]) {
        for at in self.instants..instants.len() {
            self.count_instant(instants[at].get());
        }
        self.instants = instants.len();
    }

    /// Whether so much was simulated since the last bookmark that one more costs little against it.
    pub(crate) fn pays_for_bookmark(&self) -> bool {
        let price = self
            .begun
            .saturating_add(self.waiting / WAITING_FOR_TASK)
            .saturating_add(self.instants / INSTANTS_FOR_TASK)
            .saturating_add(LEAST_PRICE);
        self.frames >= price
    }

    /// After a bookmark.
    pub(crate) fn start_over(&mut self) {
        self.frames = 0;
    }
}
