//! Runs with their spans, as they are judged for goals and constraints.

ghost use Rattle.std.specs.Prelude.{◌≡◌, IfOk};
ghost use Rattle.run_data.specs.Fresh.{IsFresh};
ghost use Rattle.span_table.specs.SpanLaws.{AreSpansOf};

use aerie_base::{OutOfMemory, Shared};
use run_data::{Kept, Run};
use span_reuse::spans_beside;
use span_table::{Span, spans};
use std::alloc::Global;
use std::marker::Model;

/// A kept run with its spans, which are found once. Contracts see the kept run.
#[derive(Drop)]
pub(crate) struct RunWithSpans {
    kept: Shared<Kept>,
    spans: Shared<Vec<Span>>,
}

impl Model for RunWithSpans {
    ghost use Rattle.std.specs.Coded.{codes};
    ghost use Rattle.aerie_base.specs.contracts.expressions.Expr as expr;
    ghost use Rattle.aerie_base.specs.contracts.conditions.Cond as cond;
    ghost use Rattle.aerie_base.specs.contracts.statements.Stmt as stmt;
    ghost use Rattle.run_data.specs.KeptRuns.{KeptRun};
    ghost use Rattle.span_table.specs.SpanLaws.{AreSpansOf};

    ghost Value = { KeptRun };

    ghost coded = { Prim.hlevel (codes, expr.the_row.coded, cond.the_row.coded, stmt.the_row.coded) };

    ghost view = { λ both. both.kept };

    ghost invariant = { λ both. AreSpansOf both.kept.model both.kept.run both.spans.items };
}

impl RunWithSpans {
    /// The run with its spans. After want of memory the run is dropped.
    pub(crate) fn of(alloc: Global, kept: Shared<Kept>) -> Result<RunWithSpans, OutOfMemory>
        ensures { IfOk result (λ made. made ≡ kept) }
    {
        let run = kept.get();
        let found = spans(alloc, run.model().get(), run.run())?;
        let spans = Shared::new(alloc, found)?;
        Ok(RunWithSpans { kept, spans })
    }

    /// The run with its spans, which are made from those of another run of the model. After want of memory the run is dropped.
    pub(crate) fn beside(
        alloc: Global,
        kept: Shared<Kept>,
        base: &RunWithSpans,
    ) -> Result<RunWithSpans, OutOfMemory>
        requires { base.now.model ≡ kept.model }
        ensures { IfOk result (λ made. made ≡ kept) }
    {
        let run = kept.get();
        let found = spans_beside(
            alloc,
            run.model().get(),
            run.run(),
            base.run(),
            base.spans(),
        )?;
        let spans = Shared::new(alloc, found)?;
        Ok(RunWithSpans { kept, spans })
    }

    /// The same run once more. Neither the run nor its spans are copied.
    pub(crate) fn share(&self) -> Result<RunWithSpans, OutOfMemory>
        ensures { IfOk result (λ made. made ≡ self.now) }
    {
        let kept = self.kept.share()?;
        let spans = self.spans.share()?;
        Ok(RunWithSpans { kept, spans })
    }

    /// The run.
    pub(crate) fn run(&self) -> &Run
        ensures value { result.now ≡ self.now.run }
        ensures fresh { IsFresh self.now.model self.now.run.plan self.now.run.bound self.now.run }
    {
        self.kept.get().run()
    }

    /// Its spans.
    pub(crate) fn spans(&self) -> &[Span]
        ensures { AreSpansOf self.now.model self.now.run result.now }
    {
        self.spans.get().as_slice()
    }
}
