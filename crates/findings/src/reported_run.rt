//! What was found on a run that was reported, for the reports after it.

ghost use Rattle.std.specs.Prelude.{◌≡◌, IsTrue, IfOk, IfSome};
ghost use Rattle.profiles.specs.OfRuns.{AreProfilesOf};
ghost use Rattle.span_table.specs.SpanLaws.{AreSpansOf};

use crate::findings::Findings;
use aerie_base::{List, OutOfMemory, Shared};
use profiles::{Profile, profiles};
use run_data::Kept;
use run_data::laws::one_fresh_run;
use span_reuse::spans_beside;
use span_table::{Span, spans};
use std::alloc::Global;
use std::marker::Model;

/// A kept run that was reported, with its spans and profiles. Contracts see the kept run.
#[derive(Drop)]
pub struct ReportedRun {
    pub(crate) kept: Shared<Kept>,
    pub(crate) spans: List<Span>,
    pub(crate) profiles: List<Profile>,
}

impl Model for ReportedRun {
    ghost use Rattle.std.specs.Coded.{codes};
    ghost use Rattle.aerie_base.specs.contracts.expressions.Expr as expr;
    ghost use Rattle.aerie_base.specs.contracts.conditions.Cond as cond;
    ghost use Rattle.aerie_base.specs.contracts.statements.Stmt as stmt;
    ghost use Rattle.profiles.specs.OfRuns.{AreProfilesOf};
    ghost use Rattle.run_data.specs.KeptRuns.{KeptRun};
    ghost use Rattle.span_table.specs.SpanLaws.{AreSpansOf};

    ghost Value = { KeptRun };

    ghost coded = { Prim.hlevel (codes, expr.the_row.coded, cond.the_row.coded, stmt.the_row.coded) };

    ghost view = { λ reported. reported.kept };

    ghost invariant = { λ reported. AreSpansOf reported.kept.model reported.kept.run reported.spans
        × AreProfilesOf reported.kept.model reported.kept.run reported.profiles };
}

impl ReportedRun {
    /// The run with what was found on it.
    pub fn new(kept: Shared<Kept>, findings: Findings) -> ReportedRun
        requires spans { AreSpansOf kept.model kept.run findings.spans }
        requires profiles { AreProfilesOf kept.model kept.run findings.profiles }
        ensures { result ≡ kept }
    {
        let Findings {
            spans,
            profiles,
            ..
        } = findings;
        ReportedRun {
            kept,
            spans,
            profiles,
        }
    }

    /// Its spans, if it is this run.
    pub fn spans_of(&self, kept: &Kept) -> Option<&[Span]>
        ensures { IfSome result (λ spans. AreSpansOf kept.now.model kept.now.run spans.now) }
    {
        if self.is_of(kept) {
            Some(self.spans.as_slice())
        } else {
            None
        }
    }

    /// Whether it is this run: a plan of a model has one fresh run.
    fn is_of(&self, kept: &Kept) -> bool
        ensures { IsTrue result → self.now ≡ kept.now }
    {
        one_fresh_run();
        let own = self.kept.get();
        own.model().get().is_same(kept.model().get())
            && own.run().bound == kept.run().bound
            && own.run().plan.get().is_same(kept.run().plan.get())
    }

    /// A run with what is found on it anew.
    fn fresh(alloc: Global, kept: &Shared<Kept>) -> Result<ReportedRun, OutOfMemory>
        ensures { IfOk result (λ made. made ≡ kept.now) }
    {
        let (model, run) = (kept.get().model().get(), kept.get().run());
        let spans = List::from_vec(spans(alloc, model, run)?);
        let profiles = profiles(alloc, model, run)?;
        Ok(ReportedRun {
            kept: kept.share()?,
            spans,
            profiles,
        })
    }

    /// A run with its profiles, found anew, and with its spans, which are made from those of another run of the model.
    fn beside(
        alloc: Global,
        kept: &Shared<Kept>,
        before: &ReportedRun,
    ) -> Result<ReportedRun, OutOfMemory>
        requires { before.now.model ≡ kept.now.model }
        ensures { IfOk result (λ made. made ≡ kept.now) }
    {
        let (model, run) = (kept.get().model().get(), kept.get().run());
        let old = before.kept.get().run();
        let spans = spans_beside(alloc, model, run, old, before.spans.as_slice())?;
        let profiles = profiles(alloc, model, run)?;
        Ok(ReportedRun {
            kept: kept.share()?,
            spans: List::from_vec(spans),
            profiles,
        })
    }

    /// A run with what is found on it, after another.
    pub(crate) fn after(
        alloc: Global,
        kept: &Shared<Kept>,
        before: Option<ReportedRun>,
    ) -> Result<ReportedRun, OutOfMemory>
        ensures { IfOk result (λ made. made ≡ kept.now) }
    {
        let Some(before) = before else {
            return ReportedRun::fresh(alloc, kept);
        };
        if before.is_of(kept.get()) {
            return Ok(before);
        }
        let own = before.kept.get().model().get();
        if own.is_same(kept.get().model().get()) {
            return ReportedRun::beside(alloc, kept, &before);
        }
        ReportedRun::fresh(alloc, kept)
    }
}
