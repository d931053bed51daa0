//! Steps that are found by their state and by the states of the cells that they read.

ghost use Rattle.std.specs.Prelude.{◌≡◌, [], length, take, IfOk, OnOk, OnErr, IfSome, IfNone};
ghost use Rattle.std.specs.List.{All, Contains};
ghost use Rattle.record_book.specs.StoredSteps.{FitsView, HasNoneTwice, IsPlaceOfRecord, has_record, with_record};

use crate::keyed_items::KeyedItems;
use crate::stored_steps::{StoredStep, is_stored, position_in_view, store};
use crate::ways::KnownWay;
use aerie_base::{OutOfMemory, Shared};
use effect_cells::{CellState, Cells};
use run_data::{Record, TaskState};
use std::alloc::Global;
use std::hash::Hash;

/// Steps, no two with the same state and the same reads. Contracts see their records in the order in which they came.
#[derive(Drop)]
pub(crate) struct StepIndex {
    steps: KeyedItems<StoredStep>,
    ways: KeyedItems<KnownWay>,
    /// For each way where its first step is likely to stand.
    firsts: Vec<usize>,
}

impl std::marker::Model for StepIndex {
    ghost use Rattle.std.specs.Prelude.{List};
    ghost use Rattle.std.specs.Coded.{codes};
    ghost use Rattle.aerie_base.specs.contracts.conditions.Cond as cond;
    ghost use Rattle.run_data.specs.declared.frames.Record.{Record as StepRecord};
    ghost use Rattle.record_book.specs.Ways.{IsIndexOnce, records_of};

    ghost Value = { List StepRecord };

    ghost coded = { Prim.hlevel (codes, cond.the_row.coded) };

    ghost view = { λ index. records_of index.steps };

    ghost invariant = { λ index. IsIndexOnce ⟦<TaskState as Hash>⟧.hash_input index.ways index.steps };
}

impl StepIndex {
    /// No steps. It takes no memory yet.
    pub(crate) fn new(alloc: Global) -> StepIndex
        ensures { result ≡ [] }
    {
        let steps = KeyedItems::new(alloc);
        let ways = KeyedItems::new(alloc);
        let firsts = Vec::new(alloc);
        StepIndex {
            steps,
            ways,
            firsts,
        }
    }

    /// How many steps there are.
    pub(crate) fn len(&self) -> usize
        ensures len { result ≡ length self.now }
        ensures once { HasNoneTwice self.now }
    {
        self.steps.len()
    }

    /// Whether there is a step with this state and these reads.
    pub(crate) fn has(&self, state: &TaskState, reads: &[(u16, CellState)]) -> bool
        ensures { result ≡ has_record self.now state.now reads.now }
    {
        is_stored(
            &self.ways,
            &self.steps,
            self.firsts.as_slice(),
            state,
            reads,
        )
    }

    /// The step from this state with whose reads a view of so many cells agrees.
    pub(crate) fn find(
        &self,
        count: usize,
        state: &TaskState,
        view: &Cells,
    ) -> Option<&Shared<Record>>
        requires { count ≡ length view.now }
        ensures held { IfSome result (λ of. Contains self.now of.now) }
        ensures fits { IfSome result (λ of. FitsView state.now view.now of.now) }
        ensures none { IfNone result (All (λ of. FitsView state.now view.now of → ⊥) self.now) }
    {
        if self.steps.len() == 0 {
            return None;
        }
        match position_in_view(
            &self.ways,
            &self.steps,
            self.firsts.as_slice(),
            count,
            state,
            view,
        ) {
            Some(at) => Some(&self.steps.item(at).step),
            None => None,
        }
    }

    /// Puts a step behind the others where none has its state and its reads, and answers where the one that has them stands. After
    /// want of memory the steps are as they were.
    pub(crate) fn put(&mut self, alloc: Global, step: &Shared<Record>) -> Result<usize, OutOfMemory>
        ensures put { OnOk result (self.new ≡ with_record self.old step.now) }
        ensures place { IfOk result (IsPlaceOfRecord self.new step.now.before step.now.reads) }
        ensures unchanged { OnErr result (self.new ≡ self.old) }
    {
        store(
            alloc,
            &mut self.ways,
            &mut self.steps,
            &mut self.firsts,
            step,
        )
    }

    /// Keeps the first steps, so many.
    pub(crate) fn keep_first(&mut self, count: usize)
        ensures { self.new ≡ take count self.old }
    {
        self.steps.truncate(count);
    }
}
