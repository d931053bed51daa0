//! The steps that a bench has at hand, and the runs all of whose frames are among them.

ghost use Rattle.std.specs.Prelude.{◌≡◌, [], IfOk, IfSome, IsTrue, OnOk, Some, take};
ghost use Rattle.std.specs.List.{All};
ghost use Rattle.run_data.specs.Records.{IsValid, record_of};
ghost use Rattle.run_data.specs.RunFrames.{frames_in_run};
ghost use Rattle.record_book.specs.StoredSteps.{book_limit};
ghost use Rattle.bench.specs.HeldSteps.{Extends, HoldsRun, instants_of_kept};
ghost use Rattle.resimulate.specs.SharedEnds.{SharesEnds};
ghost use Rattle.bench.specs.Noting.{unheld};
ghost use Rattle.bench.specs.Stocks.{IsKnownIn};

use crate::noting::note_run;
use aerie_base::{List, Model, OutOfMemory, Shared};
use history_store::Store;
use record_book::{BOOK_LIMIT, Book};
use run_data::laws::{fresh_runs, one_fresh_run};
use run_data::{Frame, Instant, Kept, Run};
use std::alloc::Global;

/// How many records may stand behind the first 200,000, besides twice as many as a run has frames.
const LEAST_SPARE: usize = 200_000;

/// The steps of a model that a bench has at hand. The first 200,000 of its records are the bench's own; behind them stands what
/// its last runs have besides, which may be dropped. Of these runs all frames are held, and they need not be looked at again.
/// Contracts see the model and the records.
#[derive(Drop)]
pub(crate) struct Stock {
    book: Book,
    /// A book without records, of the same model.
    none: Book,
    /// The run that was made last.
    latest: Option<Shared<Kept>>,
    /// The run beside which it was made.
    earlier: Option<Shared<Kept>>,
}

impl std::marker::Model for Stock {
    ghost use Rattle.std.specs.Coded.{codes};
    ghost use Rattle.aerie_base.specs.contracts.expressions.Expr as expr;
    ghost use Rattle.aerie_base.specs.contracts.conditions.Cond as cond;
    ghost use Rattle.aerie_base.specs.contracts.statements.Stmt as stmt;
    ghost use Rattle.record_book.specs.StoredSteps.{StoredSteps};
    ghost use Rattle.bench.specs.Stocks.{IsStock};

    ghost Value = { StoredSteps };

    ghost coded = { Prim.hlevel (codes, expr.the_row.coded, cond.the_row.coded, stmt.the_row.coded) };

    ghost view = { λ stock. stock.book };

    ghost invariant = { λ stock. IsStock stock.book stock.none stock.latest stock.earlier };
}

/// The instants of a kept run, none where there is no run.
fn instants_of(kept: &Option<Shared<Kept>>) -> &[Shared<Instant>]
    ensures { result.now ≡ instants_of_kept kept.now }
{
    match kept {
        Some(kept) => kept.get().run().instants.as_slice(),
        None => &[],
    }
}

/// One more owner of a run, where there is memory for it.
fn owner_of(kept: &Shared<Kept>) -> Option<Shared<Kept>>
    ensures { IfSome result (λ one. one ≡ kept.now) }
{
    match kept.share() {
        Ok(one) => Some(one),
        Err(_) => None,
    }
}

/// Whether two kept runs of one model are of the same plan under the same bound, and so the same run.
fn is_same_run(kept: &Kept, other: &Kept) -> bool
    requires { other.now.model ≡ kept.now.model }
    ensures { IsTrue result → other.now ≡ kept.now }
{
    one_fresh_run();
    let run = kept.run();
    let other = other.run();
    run.bound == other.bound && run.plan.get().is_same(other.plan.get())
}

/// Whether a run, where there is one, is the same as a kept one of its model.
fn is_run(known: &Option<Shared<Kept>>, kept: &Kept) -> bool
    requires { IfSome known.now (λ known. known.model ≡ kept.now.model) }
    ensures { IsTrue result → known.now ≡ Some kept.now }
{
    match known {
        Some(known) => is_same_run(kept, known.get()),
        None => false,
    }
}

/// How many frames there are in batches.
fn count_in_batches(batches: &[List<Frame>]) -> usize {
    let mut count: usize = 0;
    for frames in batches {
        count = count.saturating_add(frames.len());
    }
    count
}

/// How many frames a run has.
fn count_frames(run: &Run) -> usize {
    let mut count: usize = 0;
    for instant in run.instants.as_slice() {
        count = count.saturating_add(count_in_batches(instant.get().batches.as_slice()));
    }
    count
}

impl Stock {
    /// No steps yet.
    #[tactic(auto, using(crate::proofs::KnownRuns::new_stock))]
    pub(crate) fn new(alloc: Global, model: &Shared<Model>) -> Result<Stock, OutOfMemory>
        ensures { IfOk result (λ stock. stock ≡ record { model = model.now; records = [] }) }
    {
        let book = Book::new(alloc, model.share()?)?;
        let none = Book::new(alloc, model.share()?)?;
        Ok(Stock {
            book,
            none,
            latest: None,
            earlier: None,
        })
    }

    /// The steps.
    pub(crate) fn book(&self) -> &Book
        ensures { result.now ≡ self.now }
    {
        &self.book
    }

    /// A book of the model without steps.
    pub(crate) fn none(&self) -> &Book
        ensures { result.now ≡ record { model = self.now.model; records = [] } }
    {
        &self.none
    }

    /// Takes in the chapters of a store that are found from an index on, while they fit, and answers the index to go on from.
    pub(crate) fn learn(
        &mut self,
        alloc: Global,
        store: &Store,
        from: usize,
    ) -> Result<usize, OutOfMemory>
        ensures model { self.new.model ≡ self.old.model }
        ensures extends { Extends self.old.records self.new.records }
    {
        store.learn(alloc, &mut self.book, from)
    }

    /// Whether a kept run of the model is one of those that are known.
    #[tactic(auto, using(crate::proofs::KnownRuns::known_latest, crate::proofs::KnownRuns::known_earlier))]
    fn knows(&self, kept: &Kept) -> bool
        requires { kept.now.model ≡ self.now.model }
        ensures { IsTrue result → HoldsRun self.now.records kept.now.run }
    {
        is_run(&self.latest, kept) || is_run(&self.earlier, kept)
    }

    /// Takes in the steps of all frames of a kept run of the model, and gives the frames whose steps were not held. Those that are like
    /// a frame of the old run beside them are known to be held, and so are those of the first and the last instants that both share.
    pub(crate) fn note(
        &mut self,
        alloc: Global,
        kept: &Kept,
        old: &Option<Shared<Kept>>,
        front: usize,
        back: usize,
    ) -> Result<List<Frame>, OutOfMemory>
        requires model { kept.now.model ≡ self.old.model }
        requires old { IfSome old.now (IsKnownIn self.old) }
        requires shares { SharesEnds (instants_of_kept old.now) kept.now.run.instants front back }
        ensures model { self.new.model ≡ self.old.model }
        ensures extends { Extends self.old.records self.new.records }
        ensures known { IfSome old.now (IsKnownIn self.new) }
        ensures noted { IfOk result (λ noted. noted ≡ unheld self.old.records (frames_in_run kept.now.run)) }
        ensures valid { IfOk result (All (λ frame. IsValid self.old.model (record_of frame))) }
        ensures held { OnOk result (HoldsRun self.new.records kept.now.run) }
    {
        fresh_runs();
        note_run(
            alloc,
            &mut self.book,
            kept.run(),
            instants_of(old),
            front,
            back,
        )
    }

    /// Takes in the steps of all frames of a kept run of the model.
    fn take_in(&mut self, alloc: Global, kept: &Kept) -> Result<(), OutOfMemory>
        requires { kept.now.model ≡ self.old.model }
        ensures model { self.new.model ≡ self.old.model }
        ensures extends { Extends self.old.records self.new.records }
        ensures held { OnOk result (HoldsRun self.new.records kept.now.run) }
    {
        let no_run = None;
        let _noted = self.note(alloc, kept, &no_run, 0, 0)?;
        Ok(())
    }

    /// Sees to it that all frames of a kept run of the model are held, and knows it from now on. Of a run that is known they are held;
    /// of another one each frame costs a search.
    pub(crate) fn hold(&mut self, alloc: Global, kept: &Shared<Kept>) -> Result<(), OutOfMemory>
        requires { kept.now.model ≡ self.old.model }
        ensures model { self.new.model ≡ self.old.model }
        ensures extends { Extends self.old.records self.new.records }
        ensures known { OnOk result (IsKnownIn self.new kept.now) }
    {
        if self.knows(kept.get()) {
            return Ok(());
        }
        self.take_in(alloc, kept.get())?;
        self.remember(kept, None);
        Ok(())
    }

    /// The same of a run, where there is one.
    pub(crate) fn hold_old(
        &mut self,
        alloc: Global,
        old: &Option<Shared<Kept>>,
    ) -> Result<(), OutOfMemory>
        requires { IfSome old.now (λ old. old.model ≡ self.old.model) }
        ensures model { self.new.model ≡ self.old.model }
        ensures extends { Extends self.old.records self.new.records }
        ensures known { OnOk result (IfSome old.now (IsKnownIn self.new)) }
    {
        match old {
            Some(kept) => self.hold(alloc, kept),
            None => Ok(()),
        }
    }

    /// Knows from now on a run that was made, and the one beside which it was made.
    fn remember(&mut self, made: &Shared<Kept>, old: Option<Shared<Kept>>)
        requires made { IsKnownIn self.old made.now }
        requires old { IfSome old (IsKnownIn self.old) }
        ensures { self.new ≡ self.old }
    {
        self.latest = owner_of(made);
        self.earlier = old;
    }

    /// Whether there are many more records than the bench's own and the frames of a run.
    fn is_long(&self, run: &Run) -> bool {
        if self.book.len() <= BOOK_LIMIT + LEAST_SPARE {
            return false;
        }
        let spare = count_frames(run).saturating_mul(2);
        let most = spare.saturating_add(BOOK_LIMIT + LEAST_SPARE);
        self.book.len() > most
    }

    /// Drops what stands behind the first 200,000 records. Then no run is known.
    fn forget(&mut self)
        ensures model { self.new.model ≡ self.old.model }
        ensures records { self.new.records ≡ take book_limit self.old.records }
    {
        self.latest = None;
        self.earlier = None;
        self.book.keep_first(BOOK_LIMIT);
    }

    /// Knows from now on a run that was made, and the one beside which it was made, unless there are so many records by now that those
    /// behind the first 200,000 are dropped.
    pub(crate) fn settle(&mut self, made: &Shared<Kept>, old: Option<Shared<Kept>>)
        requires made { IsKnownIn self.old made.now }
        requires old { IfSome old (IsKnownIn self.old) }
        ensures model { self.new.model ≡ self.old.model }
        ensures own { take book_limit self.new.records ≡ take book_limit self.old.records }
    {
        self.remember(made, old);
        if self.is_long(made.get().run()) {
            self.forget();
        }
    }
}
