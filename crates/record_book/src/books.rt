//! Books: steps of one model, found by their state and by the cells that they read.

ghost use Rattle.std.specs.Prelude.{◌≡◌, ◌≤◌, ◌+◌, ◌↔◌, ℕ, [], false, length, map, take, IsTrue, IfOk, OnOk, OnErr, IfSome, IfNone};
ghost use Rattle.std.specs.List.{All, Contains};
ghost use Rattle.run_data.specs.Jobs.{AreCellsOf};
ghost use Rattle.run_data.specs.Records.{IsValid};
ghost use Rattle.run_data.specs.RunFrames.{frames_in_batches, frames_in_instants, frames_in_run};
ghost use Rattle.record_book.specs.StoredSteps.{FitsView, HasFirstOf, HasMoreFrames, HasNoneTwice, IsHeldIn, IsPlaceOfRecord, MayTakeIn, StoredSteps, book_limit, has_record, records_in_run, with_chapter, with_record, with_records};

use crate::chapters::Chapter;
use crate::laws::what_is_taken_in_is_held;
use crate::step_index::StepIndex;
use aerie_base::{List, Model, OutOfMemory, Shared, Steps};
use effect_cells::{CellState, Cells};
use run_data::laws::fresh_runs;
use run_data::{Frame, Instant, Kept, Record, TaskState};
use std::alloc::Global;
use std::sync::ledger::Ledger;

/// How many records a book may have once it has taken in a chapter.
pub const BOOK_LIMIT: usize = 200_000;

/// Steps of a model, each valid for it, no two with the same state and the same reads. Contracts see the model and the records in
/// the order in which they came.
///
/// A step is found without a key being made: a state leads to its ways through the code, each of which says what cells to look at,
/// and the way with the states of these cells leads to the step.
#[derive(Drop)]
pub struct Book {
    model: Shared<Model>,
    index: StepIndex,
}

impl std::marker::Model for Book {
    ghost use Rattle.std.specs.Coded.{codes};
    ghost use Rattle.std.specs.List.{All};
    ghost use Rattle.aerie_base.specs.contracts.expressions.Expr as expr;
    ghost use Rattle.aerie_base.specs.contracts.conditions.Cond as cond;
    ghost use Rattle.aerie_base.specs.contracts.statements.Stmt as stmt;
    ghost use Rattle.run_data.specs.Records.{IsValid};
    ghost use Rattle.record_book.specs.StoredSteps.{StoredSteps};

    ghost Value = { StoredSteps };

    ghost coded = { Prim.hlevel (codes, expr.the_row.coded, cond.the_row.coded, stmt.the_row.coded) };

    ghost view = { λ book. record { model = book.model; records = book.index } };

    ghost invariant = { λ book. All (IsValid book.model) book.index };
}

impl Book {
    /// A book of the model without records.
    pub fn new(alloc: Global, model: Shared<Model>) -> Result<Book, OutOfMemory>
        ensures { IfOk result (λ book. book ≡ record { model = model; records = [] }) }
    {
        Ok(Book {
            model,
            index: StepIndex::new(alloc),
        })
    }

    /// The steps of all frames of a kept run, without a limit, in a time linear in their number. No frame and no step is copied.
    pub fn of_run(alloc: Global, kept: &Kept) -> Result<Book, OutOfMemory>
        ensures model { IfOk result (λ book. book.model ≡ kept.now.model) }
        ensures records { IfOk result (λ book. book.records ≡ with_records [] (records_in_run kept.now.run)) }
        ensures whole { IfOk result (λ book. All (IsHeldIn book.records) (frames_in_run kept.now.run)) }
    {
        fresh_runs();
        what_is_taken_in_is_held();
        let mut index = StepIndex::new(alloc);
        put_instants(alloc, &mut index, kept.run().instants.as_slice())?;
        let model = kept.model().share()?;
        Ok(Book { model, index })
    }

    /// Takes in the records of a chapter that have no like in the book, and tells whether it did: `false` where the chapter is of
    /// another model, or where the book and the chapter together have more than 200,000 records. Then, and after want of memory, the
    /// book is as it was. It costs a comparison of the models, and for each record a search.
    pub fn take_in(&mut self, alloc: Global, chapter: &Chapter) -> Result<bool, OutOfMemory>
        ensures answer { IfOk result (λ taken. IsTrue taken ↔ MayTakeIn self.old chapter.now) }
        ensures taken { IfOk result (λ taken. IsTrue taken → self.new ≡ with_chapter self.old chapter.now) }
        ensures refused { IfOk result (λ taken. taken ≡ false → self.new ≡ self.old) }
        ensures unchanged { OnErr result (self.new ≡ self.old) }
    {
        if !self.may_take_in(chapter) {
            return Ok(false);
        }
        self.put_or_undo(alloc, chapter.steps())?;
        Ok(true)
    }

    /// Whether a chapter may be taken in.
    fn may_take_in(&self, chapter: &Chapter) -> bool
        ensures { IsTrue result ↔ MayTakeIn self.now chapter.now }
    {
        self.has_room_for(chapter) && chapter.model().get().is_same(self.model.get())
    }

    /// Whether the book and a chapter together have few enough records.
    fn has_room_for(&self, chapter: &Chapter) -> bool
        ensures { IsTrue result ↔ (length self.now.records + length chapter.now.records ≤ book_limit) }
    {
        self.index.len() <= BOOK_LIMIT - chapter.steps().len()
    }

    /// Takes in steps of the model that have no like in the book. After want of memory those that were taken in are dropped.
    fn put_or_undo(&mut self, alloc: Global, steps: &[Shared<Record>]) -> Result<(), OutOfMemory>
        requires { All (IsValid self.old.model) steps.now }
        ensures model { self.new.model ≡ self.old.model }
        ensures records { OnOk result (self.new.records ≡ with_records self.old.records steps.now) }
        ensures unchanged { OnErr result (self.new.records ≡ self.old.records) }
    {
        let before = self.index.len();
        match put_steps(alloc, &mut self.index, steps) {
            Ok(()) => Ok(()),
            Err(error) => {
                self.index.keep_first(before);
                Err(error)
            }
        }
    }

    /// Puts a step of the model behind the others where none has its state and its reads, without a limit, and answers where the one
    /// that has them stands. After want of memory the book is as it was. It costs a search.
    pub fn put(&mut self, alloc: Global, step: &Shared<Record>) -> Result<usize, OutOfMemory>
        requires { IsValid self.old.model step.now }
        ensures model { self.new.model ≡ self.old.model }
        ensures put { OnOk result (self.new.records ≡ with_record self.old.records step.now) }
        ensures place { IfOk result (IsPlaceOfRecord self.new.records step.now.before step.now.reads) }
        ensures unchanged { OnErr result (self.new.records ≡ self.old.records) }
    {
        self.index.put(alloc, step)
    }

    /// Keeps the first records, so many. It takes no memory.
    pub fn keep_first(&mut self, count: usize)
        ensures model { self.new.model ≡ self.old.model }
        ensures records { self.new.records ≡ take count self.old.records }
    {
        self.index.keep_first(count);
    }

    /// The step of a task in this state that sees these cells, where the book has it. It takes no memory, and a time in the order of
    /// the cells that the steps from this state read, once for each way through the code. `looks` counts the search.
    pub fn find<K: Ledger>(
        &self,
        state: &TaskState,
        view: &Cells,
        looks: &mut Steps<K>,
    ) -> Option<&Shared<Record>>
        requires { AreCellsOf self.now.model view.now }
        ensures held { IfSome result (λ of. Contains self.now.records of.now) }
        ensures fits { IfSome result (λ of. FitsView state.now view.now of.now) }
        ensures valid { IfSome result (λ of. IsValid self.now.model of.now) }
        ensures none { IfNone result (All (λ of. FitsView state.now view.now of → ⊥) self.now.records) }
        ensures looks { looks.new ≡ looks.old + 1 }
    {
        looks.rise(1);
        self.index.find(self.model.get().cells().len(), state, view)
    }

    /// Whether the book has a record with this state and these reads. It takes no memory.
    pub fn holds(&self, state: &TaskState, reads: &[(u16, CellState)]) -> bool
        ensures { result ≡ has_record self.now.records state.now reads.now }
    {
        self.index.has(state, reads)
    }

    /// The model. It takes no memory.
    pub fn model(&self) -> &Shared<Model>
        ensures value { result.now ≡ self.now.model }
        ensures valid { All (IsValid self.now.model) self.now.records }
        ensures once { HasNoneTwice self.now.records }
    {
        let _count = self.index.len();
        &self.model
    }

    /// How many records there are. It takes no memory.
    pub fn len(&self) -> usize
        ensures { result ≡ length self.now.records }
    {
        self.index.len()
    }
}

/// Puts steps into an index, each where it has no like there. After want of memory the first of them are there.
fn put_steps(
    alloc: Global,
    index: &mut StepIndex,
    steps: &[Shared<Record>],
) -> Result<(), OutOfMemory>
    ensures put { OnOk result (index.new ≡ with_records index.old steps.now) }
    ensures first { OnErr result (HasFirstOf index.old steps.now index.new) }
{
    for step in steps {
        let _place = index.put(alloc, step)?;
    }
    Ok(())
}

/// Puts the steps of frames into an index.
fn put_frames(alloc: Global, index: &mut StepIndex, frames: &[Frame]) -> Result<(), OutOfMemory>
    ensures { OnOk result (HasMoreFrames index.old frames.now index.new) }
{
    for frame in frames {
        let _place = index.put(alloc, frame.step())?;
    }
    Ok(())
}

/// Puts the steps of the frames of batches into an index.
fn put_batches(
    alloc: Global,
    index: &mut StepIndex,
    batches: &[List<Frame>],
) -> Result<(), OutOfMemory>
    ensures { OnOk result (HasMoreFrames index.old (frames_in_batches batches.now) index.new) }
{
    for batch in batches {
        put_frames(alloc, index, batch.as_slice())?;
    }
    Ok(())
}

/// Puts the steps of the frames of instants into an index.
fn put_instants(
    alloc: Global,
    index: &mut StepIndex,
    instants: &[Shared<Instant>],
) -> Result<(), OutOfMemory>
    ensures { OnOk result (HasMoreFrames index.old (frames_in_instants instants.now) index.new) }
{
    for instant in instants {
        put_batches(alloc, index, instant.get().batches.as_slice())?;
    }
    Ok(())
}
