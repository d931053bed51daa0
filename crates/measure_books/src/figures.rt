//! How long the calls of books and stores take.

ghost use Rattle.std.specs.Prelude.{◌≡◌, ◌≤◌};
ghost use Rattle.run_data.specs.Jobs.{AreCellsOf};
ghost use Rattle.measure_books.specs.Counting.{counting};

use crate::chapters::{Differing, StepNumbers, chapters, empty_book};
use crate::counting::{counting_model, first_cells, raise};
use aerie_base::{Model, Shared, Steps, Value};
use effect_cells::Cells;
use history_store::{Shelf, Store};
use record_book::{Book, Chapter};
use std::alloc::Global;
use std::marker::Brand;
use std::rt::{Clock, Runtime};
use std::sync::Wait;
use std::sync::ledger::{Blank, Ledger};
use std::time::Instant;

/// How many steps a chapter has.
const EACH: u32 = 4_000;

/// How many things were done, and how long that took, in nanoseconds.
#[derive(Clone, Copy)]
pub(crate) struct Measure {
    pub(crate) things: u64,
    pub(crate) nanoseconds: u64,
}

/// What is timed from this moment on.
fn since<R: Clock>(rt: &R, begun: &Instant, things: u64) -> Measure {
    let nanoseconds = match begun.elapsed(rt) {
        Ok(passed) => u64::try_from(passed.as_nanos()).unwrap_or(u64::MAX),
        Err(_) => 0,
    };
    Measure {
        things,
        nanoseconds,
    }
}

/// Takes chapters in.
fn time_take_in<R: Clock>(
    rt: &R,
    alloc: Global,
    book: &mut Book,
    chapters: &[Chapter],
) -> Option<Measure>
    ensures { book.new.model ≡ book.old.model }
{
    let begun = Instant::now(rt).ok()?;
    let mut things: u64 = 0;
    for chapter in chapters {
        if !book.take_in(alloc, chapter).ok()? {
            return None;
        }
        things = things.saturating_add(chapter.steps().len() as u64);
    }
    Some(since(rt, &begun, things))
}

/// Looks at the state of each step of chapters, as those do that look for it.
fn time_walk<R: Clock>(rt: &R, chapters: &[Chapter]) -> Option<Measure> {
    let begun = Instant::now(rt).ok()?;
    let (mut seen, mut strange): (u64, u64) = (0, 0);
    for chapter in chapters {
        seen = seen.saturating_add(chapter.steps().len() as u64);
        strange = strange.saturating_add(strange_in(chapter));
    }
    if strange > 0 {
        return None;
    }
    Some(since(rt, &begun, seen))
}

/// How many steps of a chapter are from a state whose first local is no number.
fn strange_in(chapter: &Chapter) -> u64 {
    let mut strange: u64 = 0;
    for step in chapter.steps() {
        match step.get().before.get().locals.as_slice().first() {
            Some(Value::Int(_)) => {}
            _ => strange = strange.saturating_add(1),
        }
    }
    strange
}

/// Finds each step of chapters by its state and the cells, of which the counter rises by so much from step to step.
fn time_find<R: Clock, K: Ledger>(
    rt: &R,
    book: &Book,
    chapters: &[Chapter],
    view: &mut Cells,
    by: u32,
    looks: &mut Steps<K>,
) -> Option<Measure>
    requires book { book.now.model ≡ counting }
    requires view { AreCellsOf counting view.old }
{
    let begun = Instant::now(rt).ok()?;
    let mut found: u64 = 0;
    for chapter in chapters {
        found = found.saturating_add(find_all(book, chapter, view, by, looks));
    }
    Some(since(rt, &begun, found))
}

/// How many steps of a chapter are found.
#[tactic(auto, using(crate::proofs::CountingSteps::are_cells_of))]
fn find_all<K: Ledger>(
    book: &Book,
    chapter: &Chapter,
    view: &mut Cells,
    by: u32,
    looks: &mut Steps<K>,
) -> u64
    requires book { book.now.model ≡ counting }
    requires view { AreCellsOf counting view.old }
    ensures { AreCellsOf counting view.new }
{
    let mut found: u64 = 0;
    for step in chapter.steps() {
        if book.find(step.get().before.get(), view, looks).is_some() {
            found = found.saturating_add(1);
        }
        raise(view, by);
    }
    found
}

/// Asks for each step of chapters whether it is held.
fn time_holds<R: Clock>(rt: &R, book: &Book, chapters: &[Chapter]) -> Option<Measure> {
    let begun = Instant::now(rt).ok()?;
    let mut held: u64 = 0;
    for chapter in chapters {
        held = held.saturating_add(held_in(book, chapter));
    }
    Some(since(rt, &begun, held))
}

/// How many steps of a chapter are held.
fn held_in(book: &Book, chapter: &Chapter) -> u64 {
    let mut held: u64 = 0;
    for step in chapter.steps() {
        let record = step.get();
        if book.holds(record.before.get(), record.reads.as_slice()) {
            held = held.saturating_add(1);
        }
    }
    held
}

/// Publishes chapters, each 16 of them by a shelf of their own.
fn time_publish<R: Clock + Wait>(rt: &R, store: &Store, chapters: Vec<Chapter>) -> Option<Measure> {
    let begun = Instant::now(rt).ok()?;
    let mut published: u64 = 0;
    let mut shelf = Shelf::new();
    for chapter in chapters {
        if published % 16 == 0 {
            shelf = Shelf::new();
        }
        let _receipt = store.publish(rt, &mut shelf, chapter).ok()?;
        published = published.saturating_add(1);
    }
    Some(since(rt, &begun, published))
}

/// Learns all that was published.
fn time_learn<R: Clock>(rt: &R, alloc: Global, store: &Store, book: &mut Book) -> Option<Measure> {
    let begun = Instant::now(rt).ok()?;
    let _next = store.learn(alloc, book, 0).ok()?;
    Some(since(rt, &begun, book.len() as u64))
}

/// The chapters that a book is measured with.
#[derive(Drop)]
struct Chapters {
    /// All but the last steps.
    first: Vec<Chapter>,
    /// The last, each in a chapter of its own.
    single: Vec<Chapter>,
    /// All of them once more.
    all: Vec<Chapter>,
}

/// The chapters of so many steps.
fn chapters_of(
    alloc: Global,
    model: &Shared<Model>,
    differing: Differing,
    count: u32,
) -> Option<Chapters>
    requires { model.now ≡ counting }
{
    let last = count.checked_sub(EACH)?;
    let first = chapters(alloc, model, StepNumbers::new(differing, 0, last), EACH)?;
    let single = chapters(alloc, model, StepNumbers::new(differing, last, EACH), 1)?;
    let all = chapters(alloc, model, StepNumbers::new(differing, 0, count), EACH)?;
    Some(Chapters { first, single, all })
}

/// Prints how long something took, and how long for each thing.
fn print_timed<R: Print>(rt: &R, call: &str, timed: Measure) -> Option<()> {
    let each = timed.nanoseconds.checked_div(timed.things).unwrap_or(0);
    println!(rt;
        "  {call}: {} in {} us, {each} ns each",
        timed.things,
        timed.nanoseconds / 1000
    )
    .ok()
}

/// Prints how long the calls of a book take.
fn print_book<R: Runtime, K: Ledger>(
    rt: &R,
    alloc: Global,
    book: &mut Book,
    chapters: &Chapters,
    view: &mut Cells,
    by: u32,
    looks: Blank,
) -> Option<()>
    requires book { book.old.model ≡ counting }
    requires view { AreCellsOf counting view.old }
    requires looks { (looks.name ≡ K.name) × (looks.parts ≡ K.parts) × (1 ≤ K.parts) }
{
    let mut looks = Steps::<K>::open(looks);
    let timed = time_take_in(rt, alloc, book, &chapters.first)?;
    print_timed(rt, "take_in, 4,000 at a time", timed)?;
    let timed = time_take_in(rt, alloc, book, &chapters.single)?;
    print_timed(rt, "take_in, one at a time", timed)?;
    let timed = time_walk(rt, &chapters.all)?;
    print_timed(
        rt,
        "the walk of the next two over the steps that they ask for",
        timed,
    )?;
    let timed = time_find(rt, book, &chapters.all, view, by, &mut looks)?;
    print_timed(rt, "find", timed)?;
    let timed = time_holds(rt, book, &chapters.all)?;
    print_timed(rt, "holds", timed)
}

/// Prints how long the calls of a store take.
fn print_store<R: Runtime + Wait>(
    rt: &R,
    alloc: Global,
    store: &Store,
    book: &mut Book,
    chapters: Vec<Chapter>,
) -> Option<()> {
    let timed = time_publish(rt, store, chapters)?;
    print_timed(rt, "publish, 4,000 at a time", timed)?;
    let timed = time_learn(rt, alloc, store, book)?;
    print_timed(rt, "learn", timed)
}

/// Measures a book of so many steps, and prints how long its calls take.
pub(crate) fn measure_book<R: Runtime + AllocGlobal>(
    rt: &R,
    differing: Differing,
    count: u32,
) -> Option<()> {
    let alloc = rt.alloc();
    let model = counting_model(alloc)?;
    let mut view = first_cells(alloc, model.get())?;
    let chapters = chapters_of(alloc, &model, differing, count)?;
    let mut book = empty_book(alloc, &model)?;
    let (by, looks) = (differing.numbers_apart(), Blank::new(1));
    print_book::<R, Brand>(rt, alloc, &mut book, &chapters, &mut view, by, looks)
}

/// Measures a store of so many steps, and prints how long its calls take.
pub(crate) fn measure_store<R: Runtime + AllocGlobal + Wait>(
    rt: &R,
    differing: Differing,
    count: u32,
) -> Option<()> {
    let alloc = rt.alloc();
    let model = counting_model(alloc)?;
    let store = Store::new(alloc).ok()?;
    let chapters = chapters(alloc, &model, StepNumbers::new(differing, 0, count), EACH)?;
    let mut book = empty_book(alloc, &model)?;
    print_store(rt, alloc, &store, &mut book, chapters)
}
