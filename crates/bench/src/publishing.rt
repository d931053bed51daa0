//! Noted frames are published in chapters.

ghost use Rattle.std.specs.Prelude.{◌≡◌, ℕ, ◌<◌, ◌≤◌, ◌↔◌, ◌++◌, ◌∷◌, [], IsTrue, OnOk, OnErr, length, slice_range};
ghost use Rattle.std.specs.List.{All, Contains};
ghost use Rattle.run_data.specs.Records.{IsValid, record_of};
ghost use Rattle.record_book.specs.StoredSteps.{chapter_limit};
ghost use Rattle.history_store.specs.Publishing.{most_published, receipt_of};
ghost use Rattle.bench.specs.Chapters.{EndsChapter, GainsChapters, PublishesFrames, chapter_of};

use aerie_base::{Model, OutOfMemory, Shared};
use history_store::{MOST_PUBLISHED, Receipt, Shelf, Store};
use record_book::{CHAPTER_LIMIT, Chapter};
use run_data::Frame;
use std::alloc::Global;
use std::sync::Wait;

/// What a bench has published. Contracts see the receipts, in order, which are as many as its shelf counts.
#[derive(Drop)]
pub(crate) struct Publisher {
    shelf: Shelf,
    receipts: Vec<Receipt>,
    /// At which indexes of the store their chapters stand. They rise.
    indexes: Vec<usize>,
}

impl std::marker::Model for Publisher {
    ghost use Rattle.std.specs.Prelude.{◌≡◌, List, length};
    ghost use Rattle.std.specs.Coded.{codes};
    ghost use Rattle.aerie_base.specs.contracts.expressions.Expr as expr;
    ghost use Rattle.aerie_base.specs.contracts.conditions.Cond as cond;
    ghost use Rattle.aerie_base.specs.contracts.statements.Stmt as stmt;
    ghost use Rattle.record_book.specs.StoredSteps.{chapter_limit};
    ghost use Rattle.history_store.specs.Publishing.{PublishedChapter};

    ghost Value = { List PublishedChapter };

    ghost coded = { Prim.hlevel (codes, expr.the_row.coded, cond.the_row.coded, stmt.the_row.coded) };

    ghost view = { λ publisher. publisher.receipts.items };

    ghost invariant = { λ publisher. publisher.shelf ≡ length publisher.receipts.items };
}

impl Publisher {
    /// Nothing is published yet. It takes no memory.
    pub(crate) fn new(alloc: Global) -> Publisher
        ensures { result ≡ [] }
    {
        Publisher {
            shelf: Shelf::new(),
            receipts: Vec::new(alloc),
            indexes: Vec::new(alloc),
        }
    }

    /// The receipts.
    pub(crate) fn receipts(&self) -> &[Receipt]
        ensures { result.now ≡ self.now }
    {
        &self.receipts
    }

    /// The index from which on there is something to learn, behind the chapters that it published itself, whose steps its bench has.
    /// It costs a comparison for each of these, which are 16 at most.
    pub(crate) fn behind_own(&self, from: usize) -> usize
        ensures { from ≤ result }
    {
        first_other(&self.indexes, from)
    }

    /// Whether it may publish no more.
    fn is_full(&self) -> bool
        ensures { IsTrue result ↔ (length self.now ≡ most_published) }
    {
        self.receipts.len() == MOST_PUBLISHED as usize
    }

    /// Publishes a chapter and keeps its receipt and its index. The room for them is made first, so that no receipt is lost.
    fn publish<R: Wait>(
        &mut self,
        rt: &R,
        store: &Store,
        chapter: Chapter,
    ) -> Result<(), OutOfMemory>
        ensures published { OnOk result (self.new ≡ self.old ++ receipt_of store.now chapter ∷ []) }
        ensures unchanged { OnErr result (self.new ≡ self.old) }
    {
        self.receipts.reserve(1)?;
        self.indexes.reserve(1)?;
        match store.publish(rt, &mut self.shelf, chapter) {
            Ok(receipt) => {
                self.indexes.push_reserved(receipt.index());
                self.receipts.push_reserved(receipt);
                Ok(())
            }
            Err(_returned) => Err(OutOfMemory),
        }
    }

    /// Publishes the steps of frames, which are few enough for one chapter.
    fn publish_chapter<R: Wait>(
        &mut self,
        rt: &R,
        alloc: Global,
        store: &Store,
        model: &Shared<Model>,
        frames: &[Frame],
    ) -> Result<(), OutOfMemory>
        requires few { length frames.now ≤ chapter_limit }
        requires valid { All (λ frame. IsValid model.now (record_of frame)) frames.now }
        ensures published { OnOk result (self.new ≡
            self.old ++ receipt_of store.now (chapter_of model.now frames.now) ∷ []) }
        ensures unchanged { OnErr result (self.new ≡ self.old) }
    {
        let model = model.share()?;
        let chapter = Chapter::of_frames(alloc, model, frames)?;
        self.publish(rt, store, chapter)?;
        Ok(())
    }

    /// Publishes the steps of frames in chapters of 4,096, the last with the rest, while it may publish more.
    pub(crate) fn publish_frames<R: Wait>(
        &mut self,
        rt: &R,
        alloc: Global,
        store: &Store,
        model: &Shared<Model>,
        frames: &[Frame],
    ) -> Result<(), OutOfMemory>
        requires { All (λ frame. IsValid model.now (record_of frame)) frames.now }
        ensures gained { GainsChapters store.now model.now self.old self.new }
        ensures published { OnOk result (PublishesFrames frames.now self.old self.new) }
    {
        let mut from = 0;
        while from < frames.len() {
            if self.is_full() {
                return Ok(());
            }
            let to = chapter_end(from, frames.len());
            let part = part_of(frames, from, to);
            self.publish_chapter(rt, alloc, store, model, part)?;
            from = to;
        }
        Ok(())
    }
}

/// The first index from one on that is not among some that rise.
fn first_other(own: &[usize], from: usize) -> usize
    ensures onward { from ≤ result }
    ensures own { (index : ℕ) → from ≤ index → index < result → Contains own.now index }
{
    let mut next = from;
    for index in own {
        if *index == next {
            next = next.saturating_add(1);
        }
    }
    next
}

/// Some neighbouring frames.
fn part_of(frames: &[Frame], from: usize, to: usize) -> &[Frame]
    requires order { from ≤ to }
    requires within { to ≤ length frames.now }
    ensures { result.now ≡ slice_range frames.now from to }
{
    &frames[from..to]
}

/// Where the chapter that begins at a place ends.
fn chapter_end(from: usize, all: usize) -> usize
    requires { from < all }
    ensures { EndsChapter from all result }
{
    if all - from > CHAPTER_LIMIT {
        from + CHAPTER_LIMIT
    } else {
        all
    }
}
