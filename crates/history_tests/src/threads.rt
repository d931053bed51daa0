//! Threads that publish and learn at once.

ghost use Rattle.std.specs.Prelude.{◌≡◌, IfOk, IfSome, OnOk};
ghost use Rattle.std.specs.List.{All};

use crate::chapters::{MARKS, Marks, chapters_of, marked};
use aerie_base::{Model, OutOfMemory, Shared};
use history_store::{Receipt, Shelf, Store};
use record_book::{Book, Chapter};
use run_data::{Frame, Kept};
use std::alloc::Global;
use std::sync::Wait;
use std::thread;
use std::thread::Threads;

/// How many chapters each of two publishers publishes.
const EACH: usize = 16;
/// How many chapters there are then.
const ALL: usize = 32;
/// How often a learner looks, at most.
const MOST_ITERATIONS: u32 = 10_000_000;

/// What a thread is to do.
#[derive(Drop)]
enum Work {
    /// To publish these.
    Publish(Vec<Chapter>),
    /// To learn, with a book of this model, until all chapters are found.
    Learn(Shared<Model>),
}

/// What a thread has done.
#[derive(Drop)]
struct Done {
    /// The receipts of what it has published.
    receipts: Vec<Receipt>,
    /// How many records its book has learnt.
    learnt: usize,
}

/// Publishes a chapter, for which its shelf has room.
fn publish<R: Wait>(
    rt: &R,
    store: &Store,
    shelf: &mut Shelf,
    chapter: Chapter,
) -> Result<Receipt, OutOfMemory>
    ensures { IfOk result (λ receipt. receipt.store ≡ store.now) }
{
    match store.publish(rt, shelf, chapter) {
        Ok(receipt) => Ok(receipt),
        Err(_returned) => Err(OutOfMemory),
    }
}

/// Puts a receipt behind those of the same store.
fn keep(store: &Store, receipts: &mut Vec<Receipt>, receipt: Receipt) -> Result<(), OutOfMemory>
    requires all { All (λ receipt. receipt.store ≡ store.now) receipts.old.items }
    requires own { receipt.store ≡ store.now }
    ensures { OnOk result (All (λ receipt. receipt.store ≡ store.now) receipts.new.items) }
{
    let _ = store;
    receipts.push(receipt)?;
    Ok(())
}

/// Publishes all of these, and gives their receipts.
fn publish_all<R: Wait>(
    rt: &R,
    alloc: Global,
    store: &Store,
    chapters: Vec<Chapter>,
) -> Result<Vec<Receipt>, OutOfMemory>
    ensures { IfOk result (λ receipts. All (λ receipt. receipt.store ≡ store.now) receipts.items) }
{
    let mut shelf = Shelf::new();
    let mut receipts = Vec::new(alloc);
    for chapter in chapters {
        let receipt = publish(rt, store, &mut shelf, chapter)?;
        keep(store, &mut receipts, receipt)?;
    }
    Ok(receipts)
}

/// Learns until all chapters are found, or until it has looked often enough, and tells how many records the book has.
fn learn_all(alloc: Global, store: &Store, model: Shared<Model>) -> Option<usize> {
    let mut book = Book::new(alloc, model).ok()?;
    let mut next = 0;
    for _iteration in 0..MOST_ITERATIONS {
        next = store.learn(alloc, &mut book, next).ok()?;
        if next == ALL {
            break;
        }
        thread::yield_now();
    }
    Some(book.len())
}

/// Does the work of a thread.
fn do_work<R: Wait>(rt: &R, alloc: Global, store: &Store, work: Work) -> Option<Done>
    ensures { IfSome result (λ done. All (λ receipt. receipt.store ≡ store.now) done.receipts.items) }
{
    match work {
        Work::Publish(chapters) => match publish_all(rt, alloc, store, chapters) {
            Ok(receipts) => Some(Done {
                receipts,
                learnt: 0,
            }),
            Err(OutOfMemory) => None,
        },
        Work::Learn(model) => {
            let learnt = learn_all(alloc, store, model)?;
            Some(Done {
                receipts: Vec::new(alloc),
                learnt,
            })
        }
    }
}

/// The works of two publishers, with half of the chapters each, and of two learners.
fn works(alloc: Global, kept: &Kept) -> Option<Vec<Work>> {
    let mut first = chapters_of(alloc, kept)?;
    if first.len() != ALL {
        return None;
    }
    let second = first.split_off(EACH).ok()?;
    let mut works = Vec::new(alloc);
    works.push(Work::Publish(first)).ok()?;
    works.push(Work::Publish(second)).ok()?;
    works.push(Work::Learn(kept.model().share().ok()?)).ok()?;
    works.push(Work::Learn(kept.model().share().ok()?)).ok()?;
    Some(works)
}

/// All works, each on a thread of its own where one can be made.
fn do_works<R: Threads + Wait + Sync>(
    rt: &R,
    alloc: Global,
    store: &Store,
    works: Vec<Work>,
) -> Option<Vec<Option<Done>>>
    ensures { IfSome result (λ dones. All (λ done. IfSome done (λ done. All (λ receipt. receipt.store ≡ store.now) done.receipts.items)) dones.items) }
{
    let dones = thread::map_vec(
        rt,
        works,
        &|work: Work| -> Option<Done>
            ensures { IfSome result (λ done. All (λ receipt. receipt.store ≡ store.entry.now) done.receipts.items) }
        { do_work(rt, alloc, store, work) },
    )
    .ok()?;
    Some(dones)
}

/// How many chapters stand where these receipts say.
fn published(store: &Store, receipts: &[Receipt]) -> usize
    requires { All (λ receipt. receipt.store ≡ store.now) receipts.now }
{
    receipts
        .iter()
        .filter(|receipt| store.at(receipt).steps().len() == 1)
        .count()
}

/// Whether a book holds the steps of these frames.
fn holds_all(book: &Book, frames: &[Frame]) -> bool {
    for frame in frames {
        if !book.holds(frame.before(), frame.reads().as_slice()) {
            return false;
        }
    }
    true
}

/// Whether a book that learns from the store holds all steps of a run then.
fn learns_run(alloc: Global, store: &Store, kept: &Kept) -> Option<bool> {
    let mut book = Book::new(alloc, kept.model().share().ok()?).ok()?;
    store.learn(alloc, &mut book, 0).ok()?;
    for instant in kept.run().instants.as_slice() {
        for frames in instant.get().batches.as_slice() {
            if !holds_all(&book, frames.as_slice()) {
                return Some(false);
            }
        }
    }
    Some(true)
}

/// How many chapters stand where the receipts of all threads say.
fn all_published(store: &Store, dones: &[Option<Done>]) -> usize
    requires { All (λ done. IfSome done (λ done. All (λ receipt. receipt.store ≡ store.now) done.receipts.items)) dones.now }
{
    let mut all = 0usize;
    for done in dones {
        if let Some(done) = done {
            all = all.saturating_add(published(store, &done.receipts));
        }
    }
    all
}

/// How many records each thread has learnt.
fn all_learnt(alloc: Global, dones: &[Option<Done>]) -> Option<Vec<usize>> {
    let mut learnt = Vec::new(alloc);
    for done in dones {
        learnt.push(done.as_ref()?.learnt).ok()?;
    }
    Some(learnt)
}

/// What two publishers and two learners have done: how many chapters stand where they were published, how many records each thread
/// has learnt, and whether all steps are found in the end.
fn told<R: Threads + Wait + Sync>(
    rt: &R,
    alloc: Global,
    kept: &Kept,
    store: &Store,
) -> Option<(usize, Vec<usize>, bool)> {
    let works = works(alloc, kept)?;
    let dones = do_works(rt, alloc, store, works)?;
    let published = all_published(store, &dones);
    let learnt = all_learnt(alloc, &dones)?;
    let found = learns_run(alloc, store, kept)?;
    Some((published, learnt, found))
}

#[test]
fn threads_find_what_threads_publish(rt: HostRuntime) {
    let alloc = rt.alloc();
    let marks = Marks {
        model: MARKS,
        count: 32,
        apart: 1,
    };
    let kept = marked(alloc, marks).expect(&rt, "a run");
    let store = Store::new(alloc).expect(&rt, "memory");
    let (published, learnt, found) = told(&rt, alloc, kept.get(), &store).expect(&rt, "memory");
    assert_eq!(rt; published, ALL);
    assert_eq!(rt; learnt.as_slice(), [0, 0, ALL, ALL].as_slice());
    assert!(rt; found);
}
