//! Chapters: some steps of one model, published and taken in together.

ghost use Rattle.std.specs.Prelude.{◌≡◌, ◌≤◌, length, map, IfOk};
ghost use Rattle.std.specs.List.{All};
ghost use Rattle.run_data.specs.Records.{IsValid, record_of};
ghost use Rattle.record_book.specs.StoredSteps.{StoredSteps, chapter_limit};

use aerie_base::{List, Model, OutOfMemory, Shared};
use run_data::{Frame, Record};
use std::alloc::Global;

/// How many records a chapter has at most.
pub const CHAPTER_LIMIT: usize = 4_096;

/// At most 4,096 records of steps of a model, each valid for it. Contracts see the model and the records.
#[derive(Drop)]
pub struct Chapter {
    model: Shared<Model>,
    steps: List<Shared<Record>>,
}

impl std::marker::Model for Chapter {
    ghost use Rattle.std.specs.Coded.{codes};
    ghost use Rattle.aerie_base.specs.contracts.expressions.Expr as expr;
    ghost use Rattle.aerie_base.specs.contracts.conditions.Cond as cond;
    ghost use Rattle.aerie_base.specs.contracts.statements.Stmt as stmt;
    ghost use Rattle.record_book.specs.StoredSteps.{AreChapterOf, StoredSteps};

    ghost Value = { StoredSteps };

    ghost coded = { Prim.hlevel (codes, expr.the_row.coded, cond.the_row.coded, stmt.the_row.coded) };

    ghost view = { λ chapter. record { model = chapter.model; records = chapter.steps } };

    ghost invariant = { λ chapter. AreChapterOf chapter.model chapter.steps };
}

impl Chapter {
    /// The steps of frames of the model, in their order, which are shared and not copied. No record of the frame of a child that
    /// is too deep is valid.
    pub fn of_frames(
        alloc: Global,
        model: Shared<Model>,
        frames: &[Frame],
    ) -> Result<Chapter, OutOfMemory>
        requires few { length frames.now ≤ chapter_limit }
        requires valid { All (λ frame. IsValid model (record_of frame)) frames.now }
        ensures model { IfOk result (λ chapter. chapter.model ≡ model) }
        ensures records { IfOk result (λ chapter. chapter.records ≡ map record_of frames.now) }
    {
        let mut steps = List::with_capacity(alloc, frames.len())?;
        for frame in frames {
            steps.push(frame.step().share()?)?;
        }
        Ok(Chapter { model, steps })
    }

    /// The model. It takes no memory.
    pub fn model(&self) -> &Shared<Model>
        ensures value { result.now ≡ self.now.model }
        ensures valid { All (IsValid self.now.model) self.now.records }
        ensures few { length self.now.records ≤ chapter_limit }
    {
        &self.model
    }

    /// The records. It takes no memory.
    pub fn steps(&self) -> &[Shared<Record>]
        ensures value { result.now ≡ self.now.records }
        ensures valid { All (IsValid self.now.model) self.now.records }
        ensures few { length self.now.records ≤ chapter_limit }
    {
        self.steps.as_slice()
    }
}
