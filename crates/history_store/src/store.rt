//! The store of published chapters.

ghost use Rattle.std.specs.Prelude.{◌≡◌, ◌+◌, ◌≤◌, IfOk, IfErr, OnOk, OnErr};
ghost use Rattle.history_store.specs.Learning.{HasLearnt};
ghost use Rattle.history_store.specs.Publishing.{IsCause, most_published, receipt_of};

use crate::shelf::{MOST_PUBLISHED, Shelf};
use aerie_base::OutOfMemory;
use boxcar::Pushed;
use record_book::{Book, Chapter};
use std::alloc::Global;
use std::snapshot::Snapshot;
use std::sync::Wait;

/// Published chapters, of any models, which threads share. A chapter stays where it was published. Contracts see which store it is.
#[derive(Drop)]
pub struct Store {
    chapters: boxcar::Vec<Chapter>,
}

impl std::marker::Model for Store {
    ghost use Rattle.boxcar.specs.Table.{Shelves, shelves_coded};

    ghost Value = { Shelves };

    ghost coded = { shelves_coded };

    ghost view = { λ store. store.chapters };
}

/// Shows that a chapter was published. Contracts see the store and the chapter. A receipt has no copy of the chapter.
#[derive(Drop)]
pub struct Receipt {
    pushed: Pushed<Chapter>,
    store: Snapshot<boxcar::Vec<Chapter>>,
}

impl std::marker::Model for Receipt {
    ghost use Rattle.std.specs.Coded.{codes};
    ghost use Rattle.aerie_base.specs.contracts.expressions.Expr as expr;
    ghost use Rattle.aerie_base.specs.contracts.conditions.Cond as cond;
    ghost use Rattle.aerie_base.specs.contracts.statements.Stmt as stmt;
    ghost use Rattle.boxcar.specs.Table.{Shows};
    ghost use Rattle.history_store.specs.Publishing.{PublishedChapter};

    ghost Value = { PublishedChapter };

    ghost coded = { Prim.hlevel (codes, expr.the_row.coded, cond.the_row.coded, stmt.the_row.coded) };

    ghost view = { λ receipt. record { store = receipt.store.value; chapter = receipt.pushed.value } };

    ghost invariant = { λ receipt. Shows receipt.store.value receipt.pushed };
}

impl Receipt {
    /// The index at which the chapter stands in the store. It says only what its publisher need not learn, and so no clause speaks of
    /// it. It takes no memory.
    pub fn index(&self) -> usize {
        self.pushed.index()
    }
}

/// Why a chapter was not published.
#[derive(Debug, Drop)]
pub enum Cause {
    /// The shelf has published as many chapters as it may.
    Full {
        /// How many it has published: 16.
        published: u32,
    },
    /// Memory ran out.
    OutOfMemory,
}

/// A chapter that was not published, handed back.
#[derive(Drop)]
pub struct Returned {
    /// The chapter.
    pub chapter: Chapter,
    /// Why it was not published.
    pub cause: Cause,
}

impl Store {
    /// A store without chapters.
    pub fn new(alloc: Global) -> Result<Store, OutOfMemory> {
        let chapters = boxcar::Vec::new(alloc)?;
        Ok(Store { chapters })
    }

    /// Publishes a chapter, which the shelf counts, and gives its receipt. A shelf that has published 16 is `Full`. A chapter that is
    /// not published is handed back, and the shelf is as it was. The call may wait for another publisher.
    pub fn publish<R: Wait>(
        &self,
        rt: &R,
        shelf: &mut Shelf,
        chapter: Chapter,
    ) -> Result<Receipt, Returned>
        ensures published { IfOk result (λ receipt. receipt ≡ receipt_of self.now chapter) }
        ensures counted { OnOk result (shelf.new ≡ shelf.old + 1) }
        ensures few { shelf.new ≤ most_published }
        ensures returned { IfErr result (λ returned. returned.chapter ≡ chapter) }
        ensures cause { IfErr result (λ returned. IsCause shelf.old returned.cause) }
        ensures unchanged { OnErr result (shelf.new ≡ shelf.old) }
    {
        if shelf.is_full() {
            let cause = Cause::Full {
                published: MOST_PUBLISHED,
            };
            return Err(Returned { chapter, cause });
        }
        match self.chapters.push_shown(rt, chapter) {
            Ok(pushed) => {
                shelf.count();
                let store = Snapshot::of(&self.chapters);
                Ok(Receipt { pushed, store })
            }
            Err(chapter) => {
                let cause = Cause::OutOfMemory;
                Err(Returned { chapter, cause })
            }
        }
    }

    /// The chapter that was published for this receipt. It takes no memory.
    pub fn at(&self, receipt: &Receipt) -> &Chapter
        requires own { receipt.now.store ≡ self.now }
        ensures { result.now ≡ receipt.now.chapter }
    {
        self.chapters.value(&receipt.pushed)
    }

    /// Takes in, of the chapters that are found from an index on, each that the book may: those of its model, up to its limit. It
    /// answers the index to go on from: behind the last chapter, or the first index where a chapter is still to come, and then what
    /// was found behind it is found again. After want of memory the book has taken in some of them. It takes time about linear in
    /// the records that are found and in the index.
    #[tactic(auto, using(crate::proofs::Learning::learnt_nothing, crate::proofs::Learning::learnt_then))]
    pub fn learn(&self, alloc: Global, book: &mut Book, from: usize) -> Result<usize, OutOfMemory>
        ensures onward { IfOk result (λ next. from ≤ next) }
        ensures learnt { HasLearnt book.old book.new }
    {
        let mut next = from;
        for (index, chapter) in self.chapters.iter() {
            if index >= from {
                learn_chapter(alloc, book, chapter)?;
            }
            next = index_behind(next, index);
        }
        Ok(next)
    }
}

/// Takes a chapter in, where the book may.
#[tactic(auto, using(crate::proofs::Learning::learnt_nothing, crate::proofs::Learning::learnt_one))]
fn learn_chapter(alloc: Global, book: &mut Book, chapter: &Chapter) -> Result<(), OutOfMemory>
    ensures { HasLearnt book.old book.new }
{
    let _records = chapter.steps();
    let _is_taken = book.take_in(alloc, chapter)?;
    Ok(())
}

/// The index to go on from, once a chapter was found at an index: the one behind it, unless a chapter before it is still to come.
fn index_behind(next: usize, found: usize) -> usize
    ensures { next ≤ result }
{
    if found == next {
        found.saturating_add(1)
    } else {
        next
    }
}
