//! What stands where a growth is refused.
//!
//! The kit refuses one growth of a run, counted from its start. So a run first takes growths that do nothing, as many as it reads:
//! by their number another growth of the calls is the one that is refused.

ghost use Rattle.std.specs.Prelude.{◌≡◌};
ghost use Rattle.measure_books.specs.Counting.{counting};

use crate::chapters::{Differing, StepNumbers, chapter, chapters, empty_book};
use crate::counting::counting_model;
use aerie_base::{Boxed, Model, OutOfMemory, Shared};
use history_store::{Cause, Returned, Shelf, Store};
use record_book::{Book, Chapter};
use std::alloc::Global;
use std::sync::Wait;

/// How many steps a chapter has.
const EACH: u32 = 4;

/// How a call ended.
#[derive(Clone, Copy)]
pub(crate) enum CallEnd {
    /// It did what it promises.
    Done,
    /// Memory was wanting, what stood before still stood, and made again the call did what it promises.
    DoneAgain,
    /// It did something else.
    Failed,
}

impl CallEnd {
    /// How it ended, in words.
    pub(crate) fn in_words(self) -> &'static str {
        match self {
            CallEnd::Done => "done",
            CallEnd::DoneAgain => "refused, then done",
            CallEnd::Failed => "FAILED",
        }
    }
}

/// How the three calls ended.
#[derive(Clone, Copy)]
pub(crate) struct CallEnds {
    pub(crate) take_in: CallEnd,
    pub(crate) publish: CallEnd,
    pub(crate) learn: CallEnd,
}

/// Done, where it did what it promises.
fn done(is_done: bool) -> CallEnd {
    if is_done {
        CallEnd::Done
    } else {
        CallEnd::Failed
    }
}

/// Done again, where what stood before still stood and the call did what it promises.
fn done_again(stood: bool, is_done: bool) -> CallEnd {
    if stood && is_done {
        CallEnd::DoneAgain
    } else {
        CallEnd::Failed
    }
}

/// How many steps of a chapter a book holds.
fn held(book: &Book, chapter: &Chapter) -> usize {
    let mut held: usize = 0;
    for step in chapter.steps() {
        let record = step.get();
        if book.holds(record.before.get(), record.reads.as_slice()) {
            held = held.saturating_add(1);
        }
    }
    held
}

/// Whether a book holds all steps of a chapter.
fn holds_all(book: &Book, chapter: &Chapter) -> bool {
    held(book, chapter) == chapter.steps().len()
}

/// Takes a chapter in, again where memory was wanting: then the book has what it had, and nothing of the chapter.
fn take_in(alloc: Global, book: &mut Book, earlier: &Chapter, chapter: &Chapter) -> CallEnd {
    let records = book.len();
    match book.take_in(alloc, chapter) {
        Ok(taken) => done(taken && holds_all(book, earlier) && holds_all(book, chapter)),
        Err(OutOfMemory) => {
            let stood = book.len() == records
                && holds_all(book, earlier)
                && held(book, chapter) == 0;
            let taken = book.take_in(alloc, chapter) == Ok(true);
            done_again(
                stood,
                taken && holds_all(book, earlier) && holds_all(book, chapter),
            )
        }
    }
}

/// Publishes a chapter, again where it comes back for want of memory.
fn publish<R: Wait>(rt: &R, store: &Store, shelf: &mut Shelf, chapter: Chapter) -> CallEnd {
    let steps = chapter.steps().len();
    match store.publish(rt, shelf, chapter) {
        Ok(receipt) => done(store.at(&receipt).steps().len() == steps),
        Err(Returned { chapter, cause }) => match cause {
            Cause::OutOfMemory => publish_again(rt, store, shelf, chapter, steps),
            Cause::Full { .. } => CallEnd::Failed,
        },
    }
}

/// Publishes a chapter that came back and had so many steps before.
fn publish_again<R: Wait>(
    rt: &R,
    store: &Store,
    shelf: &mut Shelf,
    chapter: Chapter,
    steps: usize,
) -> CallEnd {
    let stood = chapter.steps().len() == steps;
    match store.publish(rt, shelf, chapter) {
        Ok(receipt) => done_again(stood, store.at(&receipt).steps().len() == steps),
        Err(_returned) => CallEnd::Failed,
    }
}

/// Whether a book holds each of these chapters whole, or nothing of it.
fn holds_whole(book: &Book, chapters: &[Chapter]) -> bool {
    for chapter in chapters {
        if held(book, chapter) != 0 && !holds_all(book, chapter) {
            return false;
        }
    }
    true
}

/// Whether a book holds all steps of these chapters.
fn holds_each(book: &Book, chapters: &[Chapter]) -> bool {
    for chapter in chapters {
        if !holds_all(book, chapter) {
            return false;
        }
    }
    true
}

/// Learns what was published, again where memory was wanting: then the book has what it had, and whole chapters alone.
fn learn(
    alloc: Global,
    store: &Store,
    book: &mut Book,
    earlier: &Chapter,
    published: &[Chapter],
) -> CallEnd {
    match store.learn(alloc, book, 0) {
        Ok(next) => done(
            next == published.len() && holds_all(book, earlier) && holds_each(book, published),
        ),
        Err(OutOfMemory) => {
            let stood = holds_all(book, earlier) && holds_whole(book, published);
            let next = store.learn(alloc, book, 0);
            done_again(
                stood,
                next == Ok(published.len())
                    && holds_all(book, earlier)
                    && holds_each(book, published),
            )
        }
    }
}

/// A chapter, one of the same state that has read other numbers, and one of other states.
fn three_chapters(alloc: Global, model: &Shared<Model>) -> Option<Vec<Chapter>>
    requires { model.now ≡ counting }
{
    let numbers = StepNumbers::new(Differing::Reads, 0, EACH + EACH);
    let mut chapters = chapters(alloc, model, numbers, EACH)?;
    let numbers = StepNumbers::new(Differing::States, 1, EACH);
    chapters.push(chapter(alloc, model, numbers)?).ok()?;
    Some(chapters)
}

/// A book that has taken in a chapter.
fn book_with(alloc: Global, model: &Shared<Model>, chapter: &Chapter) -> Option<Book>
    requires { model.now ≡ counting }
{
    let mut book = empty_book(alloc, model)?;
    match book.take_in(alloc, chapter) {
        Ok(true) => Some(book),
        _ => None,
    }
}

/// A book with the first of three chapters takes in the third.
fn try_take_in(alloc: Global, model: &Shared<Model>, three: &[Chapter]) -> Option<CallEnd>
    requires { model.now ≡ counting }
{
    let (first, third) = (three.first()?, three.get(2)?);
    let mut book = book_with(alloc, model, first)?;
    Some(take_in(alloc, &mut book, first, third))
}

/// Publishes chapters, and tells whether one came back.
fn publish_all<R: Wait>(rt: &R, store: &Store, chapters: Vec<Chapter>) -> CallEnd {
    let mut shelf = Shelf::new();
    let mut end = CallEnd::Done;
    for chapter in chapters {
        match publish(rt, store, &mut shelf, chapter) {
            CallEnd::Done => {}
            CallEnd::DoneAgain => end = CallEnd::DoneAgain,
            CallEnd::Failed => return CallEnd::Failed,
        }
    }
    end
}

/// Three chapters are published, and a book with the first of them learns the others.
fn try_store<R: Wait>(
    rt: &R,
    alloc: Global,
    model: &Shared<Model>,
    three: &[Chapter],
) -> Option<(CallEnd, CallEnd)>
    requires { model.now ≡ counting }
{
    let first = three.first()?;
    let mut book = book_with(alloc, model, first)?;
    let store = Store::new(alloc).ok()?;
    let publish = publish_all(rt, &store, three_chapters(alloc, model)?);
    let learn = learn(alloc, &store, &mut book, first, three);
    Some((publish, learn))
}

/// Takes growths that do nothing, and then tries the calls; nothing where one is refused before a call.
pub(crate) fn try_calls<R: Wait>(rt: &R, alloc: Global, growths: u32) -> Option<CallEnds> {
    for _growth in 0..growths {
        let _nothing = Boxed::new(alloc, 0u8).ok()?;
    }
    let model = counting_model(alloc)?;
    let three = three_chapters(alloc, &model)?;
    let take_in = try_take_in(alloc, &model, &three)?;
    let (publish, learn) = try_store(rt, alloc, &model, &three)?;
    Some(CallEnds {
        take_in,
        publish,
        learn,
    })
}
