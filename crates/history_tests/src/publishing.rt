//! Chapters that are published, handed back, learnt and found.

ghost use Rattle.std.specs.Prelude.{◌≡◌, ◌<◌, ◌≤◌, IfOk, IfSome};
ghost use Rattle.run_data.specs.Jobs.{AreCellsOf};

use crate::chapters::{MARKS, Marks, OTHER, chapters_of, marked};
use aerie_base::{Model, OutOfMemory, Steps, Time};
use effect_cells::Cells;
use history_store::laws::what_is_learnt_is_held;
use history_store::{Cause, Returned, Shelf, Store};
use record_book::{Book, Chapter};
use run_data::laws::reached_states_are_of_the_model;
use run_data::{Frame, Kept};
use std::alloc::Global;
use std::marker::Brand;
use std::sync::Wait;
use std::sync::ledger::{Blank, Ledger};
use test_worlds::empty_plan;

/// The number of the chapter that is handed back, and how many its shelf has published then; nothing where all are published.
fn handed_back<R: Wait>(rt: &R, store: &Store, chapters: Vec<Chapter>) -> Option<(usize, u32)> {
    let mut shelf = Shelf::new();
    for (number, chapter) in chapters.into_iter().enumerate() {
        match store.publish(rt, &mut shelf, chapter) {
            Ok(receipt) => {
                if store.at(&receipt).steps().len() != 1 {
                    return None;
                }
            }
            Err(Returned { chapter, cause }) => {
                let Cause::Full { published } = cause else {
                    return None;
                };
                if chapter.steps().len() != 1 {
                    return None;
                }
                return Some((number, published));
            }
        }
    }
    None
}

#[test]
fn a_shelf_publishes_16_chapters(rt: HostRuntime) {
    let alloc = rt.alloc();
    let marks = Marks {
        model: MARKS,
        count: 18,
        apart: 1,
    };
    let kept = marked(alloc, marks).expect(&rt, "a run");
    let chapters = chapters_of(alloc, kept.get()).expect(&rt, "memory");
    assert_eq!(rt; chapters.len(), 18);
    let store = Store::new(alloc).expect(&rt, "memory");
    assert_eq!(rt; handed_back(&rt, &store, chapters), Some((16, 16)));
}

/// The cells with which a model begins; a simulation of any plan, as of one that lasts so long, begins with them.
fn first_cells(alloc: Global, model: &Model, duration: Time) -> Result<Cells, OutOfMemory>
    requires { 1 ≤ duration }
    ensures { IfOk result (λ cells. AreCellsOf model.now cells) }
{
    reached_states_are_of_the_model();
    let _valid = model.name();
    let _plan = empty_plan(alloc, duration, 1);
    let cells = Cells::initial(alloc, model)?;
    Ok(cells)
}

/// Whether the book has a step for each task of these frames that sees the cells.
fn finds_all<K: Ledger>(book: &Book, frames: &[Frame], cells: &Cells, looks: &mut Steps<K>) -> bool
    requires { AreCellsOf book.now.model cells.now }
{
    for frame in frames {
        if book.find(frame.before(), cells, looks).is_none() {
            return false;
        }
    }
    true
}

/// Whether a book finds each step of a run of its model whose cells stay as they were at the start.
fn finds_run<K: Ledger>(alloc: Global, looks: Blank, book: &Book, kept: &Kept) -> Option<bool>
    requires looks { (looks.name ≡ K.name) × (looks.parts ≡ K.parts) × (0 < K.parts) }
    requires model { book.now.model ≡ kept.now.model }
{
    let mut looks = Steps::<K>::open(looks);
    let duration = Time::new(1)?;
    if duration.get() < 1 {
        return None;
    }
    let cells = first_cells(alloc, kept.model().get(), duration).ok()?;
    for instant in kept.run().instants.as_slice() {
        for frames in instant.get().batches.as_slice() {
            if !finds_all(book, frames.as_slice(), &cells, &mut looks) {
                return Some(false);
            }
        }
    }
    Some(true)
}

/// Publishes the chapters of a run, which one shelf has room for.
fn publish_run<R: Wait>(rt: &R, alloc: Global, store: &Store, kept: &Kept) -> Option<()> {
    let mut shelf = Shelf::new();
    for chapter in chapters_of(alloc, kept)? {
        let _receipt = store.publish(rt, &mut shelf, chapter).ok()?;
    }
    Some(())
}

/// A book without records, of the model of a run.
fn empty_book(alloc: Global, kept: &Kept) -> Option<Book>
    ensures { IfSome result (λ book. book.model ≡ kept.now.model) }
{
    let model = kept.model().share().ok()?;
    Book::new(alloc, model).ok()
}

/// A book of the model of a run that has learnt from a store, and the index to go on from.
fn learnt(alloc: Global, store: &Store, kept: &Kept) -> Option<(Book, usize)>
    ensures { IfSome result (λ learnt. learnt.0.model ≡ kept.now.model) }
{
    what_is_learnt_is_held();
    let mut book = empty_book(alloc, kept)?;
    let next = store.learn(alloc, &mut book, 0).ok()?;
    Some((book, next))
}

/// What a book has learnt from a store with the chapters of two runs: its records, the index to go on from, and whether each step
/// of the run of its model is found.
fn told<R: Wait>(rt: &R, alloc: Global, own: &Kept, other: &Kept) -> Option<(usize, usize, bool)> {
    let store = Store::new(alloc).ok()?;
    publish_run(rt, alloc, &store, other)?;
    publish_run(rt, alloc, &store, own)?;
    let (book, next) = learnt(alloc, &store, own)?;
    let found = finds_run::<Brand>(alloc, Blank::new(1), &book, own)?;
    Some((book.len(), next, found))
}

#[test]
fn a_book_learns_the_chapters_of_its_model(rt: HostRuntime) {
    let alloc = rt.alloc();
    let marks = Marks {
        model: MARKS,
        count: 5,
        apart: 1,
    };
    let own = marked(alloc, marks).expect(&rt, "a run");
    let marks = Marks {
        model: OTHER,
        count: 3,
        apart: 1,
    };
    let other = marked(alloc, marks).expect(&rt, "a run");
    let told = told(&rt, alloc, own.get(), other.get());
    assert_eq!(rt; told, Some((5, 8, true)));
}

/// What a book of the model of a run answers to the first chapter of another run.
fn taken_in(alloc: Global, own: &Kept, other: &Kept) -> Option<bool> {
    let mut book = empty_book(alloc, own)?;
    let chapters = chapters_of(alloc, other)?;
    book.take_in(alloc, chapters.first()?).ok()
}

#[test]
fn a_book_takes_in_no_chapter_of_another_model(rt: HostRuntime) {
    let alloc = rt.alloc();
    let marks = Marks {
        model: MARKS,
        count: 1,
        apart: 1,
    };
    let own = marked(alloc, marks).expect(&rt, "a run");
    let marks = Marks {
        model: OTHER,
        count: 1,
        apart: 1,
    };
    let other = marked(alloc, marks).expect(&rt, "a run");
    assert_eq!(rt; taken_in(alloc, own.get(), other.get()), Some(false));
    assert_eq!(rt; taken_in(alloc, own.get(), own.get()), Some(true));
}
