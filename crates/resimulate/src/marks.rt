//! The bookmarks of one simulation.

ghost use Rattle.std.specs.Prelude.{◌≡◌, [], IsTrue, IfOk, IfSome};
ghost use Rattle.engine_core.specs.EngineStates.{batches_in, jobs_in};
ghost use Rattle.resimulate.specs.Bookmarks.{IsMarkIn, IsMarked};

use crate::tally::Tally;
use aerie_base::{Model, OutOfMemory, Plan, Shared};
use engine_core::{Bookmark, Engine};
use run_data::Run;
use std::alloc::Global;

/// How many bookmarks are spread over the instants of a simulation.
const SPREAD: usize = 8;

/// How many are kept at most. Each holds the tasks that are live there.
const MOST: usize = 16;

/// How many instants lie between the bookmark that is close before an edit and the place where the two plans part.
const MARGIN: usize = 32;

/// What part of the way between two bookmarks that are spread is walked for less than a bookmark costs.
const CHEAP_PART: usize = 16;

/// The simulation of a plan under a bound, set aside at the beginnings of instants, the earlier ones in front. They are spread over the
/// instants, and one more stands close before an edit, since what was edited is often edited again. Contracts see what the simulation
/// is of.
#[derive(Drop)]
pub(crate) struct Marks {
    pub(crate) model: Shared<Model>,
    pub(crate) plan: Shared<Plan>,
    pub(crate) bound: u64,
    pub(crate) bookmarks: Vec<Bookmark>,
    /// How many instants lie before the place where the simulation began.
    begun: usize,
    /// How many lie between two of those that are spread.
    spacing: usize,
    /// How many instants lie before the bookmark that is close before the edit, or 0 where none is wanted.
    close: usize,
}

impl std::marker::Model for Marks {
    ghost use Rattle.std.specs.Coded.{codes};
    ghost use Rattle.std.specs.List.{All};
    ghost use Rattle.aerie_base.specs.contracts.expressions.Expr as expr;
    ghost use Rattle.aerie_base.specs.contracts.conditions.Cond as cond;
    ghost use Rattle.aerie_base.specs.contracts.statements.Stmt as stmt;
    ghost use Rattle.resimulate.specs.Bookmarks.{IsMarkOf, MarkedSimulation};

    ghost Value = { MarkedSimulation };

    ghost coded = { Prim.hlevel (codes, expr.the_row.coded, cond.the_row.coded, stmt.the_row.coded) };

    ghost view = { λ marks. record { model = marks.model; plan = marks.plan; bound = marks.bound } };

    ghost invariant = { λ marks. All (IsMarkOf marks.model marks.plan marks.bound) marks.bookmarks.items };
}

/// How many instants lie before the bookmark that is close before an edit, where the simulation shares so many of the first instants
/// of a run.
fn close_before(shared: Option<usize>) -> usize {
    match shared {
        Some(count) => count.saturating_sub(MARGIN),
        None => 0,
    }
}

/// How many instants lie between two bookmarks that are spread over so many.
fn spacing_for(instants: usize) -> usize {
    instants / SPREAD + 1
}

/// Whether a simulation stands at the beginning of an instant, and what it took since the last bookmark pays for one more.
fn is_paid_for<'a>(engine: &Engine<'a>, tally: &mut Tally) -> bool
    requires { jobs_in engine.now.point ≡ [] → ⊥ }
    ensures { IsTrue result → batches_in engine.now.point ≡ [] }
{
    if !engine.batches().is_empty() {
        return false;
    }
    tally.go_to(engine.instants());
    tally.pays_for_bookmark()
}

impl Marks {
    /// None yet.
    pub(crate) fn new(alloc: Global, model: Shared<Model>, plan: Shared<Plan>, bound: u64) -> Marks
        ensures { result ≡ record { model = model; plan = plan; bound = bound } }
    {
        Marks {
            model,
            plan,
            bound,
            bookmarks: Vec::new(alloc),
            begun: 0,
            spacing: 1,
            close: 0,
        }
    }

    /// Of the same simulation, none yet.
    pub(crate) fn none_yet(&self, alloc: Global) -> Result<Marks, OutOfMemory>
        ensures { IfOk result (λ marks. marks ≡ self.now) }
    {
        let model = self.model.share()?;
        let plan = self.plan.share()?;
        Ok(Marks::new(alloc, model, plan, self.bound))
    }

    /// The simulation begins behind so many instants. Bookmarks are spread over so many in all, of which it shares so many of the first
    /// with a run, if that is known.
    pub(crate) fn spread(&mut self, begun: usize, instants: usize, shared: Option<usize>)
        ensures { self.new ≡ self.old }
    {
        self.begun = begun;
        self.spacing = spacing_for(instants);
        self.close = close_before(shared);
    }

    /// Whether they are of the simulation of a run.
    pub(crate) fn is_of(&self, model: &Model, run: &Run) -> bool
        ensures { IsTrue result → IsMarked model.now run.now.plan run.now.bound self.now }
    {
        self.bound == run.bound
            && self.model.get().is_same(model)
            && self.plan.get().is_same(run.plan.get())
    }

    /// Whether there is none.
    pub(crate) fn is_empty(&self) -> bool {
        self.bookmarks.is_empty()
    }

    /// How many instants lie before the last bookmark, or before the place where the simulation began.
    fn past(&self) -> usize {
        match self.bookmarks.last() {
            Some(bookmark) => bookmark.instants(),
            None => self.begun,
        }
    }

    /// Whether a simulation behind so many instants is far enough behind the last bookmark, or close before an edit and not near the last
    /// bookmark.
    fn is_wanted(&self, instants: usize) -> bool {
        let past = self.past();
        let near = past.saturating_add(self.spacing / CHEAP_PART);
        instants >= past.saturating_add(self.spacing)
            || (near < self.close && self.close <= instants)
    }

    /// Whether that is so at the beginning of an instant.
    fn is_due<'a>(&self, engine: &Engine<'a>) -> bool
        requires { jobs_in engine.now.point ≡ [] → ⊥ }
        ensures { IsTrue result → batches_in engine.now.point ≡ [] }
    {
        self.is_wanted(engine.instants().len()) && engine.batches().is_empty()
    }

    /// Drops the bookmark at an index.
    fn drop_at(&mut self, at: usize)
        ensures { self.new ≡ self.old }
    {
        if at < self.bookmarks.len() {
            let _ = self.bookmarks.remove(at);
        }
    }

    /// Drops each second bookmark, but not the last.
    fn thin_out(&mut self)
        ensures { self.new ≡ self.old }
    {
        for at in 0..self.bookmarks.len() / 2 {
            self.drop_at(at);
        }
    }

    /// Takes out the last bookmark.
    pub(crate) fn take_last(&mut self) -> Option<Bookmark>
        ensures same { self.new ≡ self.old }
        ensures of { IfSome result (IsMarkIn self.old) }
    {
        self.bookmarks.pop()
    }

    /// Puts a bookmark of the simulation behind the others. Where there is no memory for it there is a bookmark less.
    pub(crate) fn push(&mut self, bookmark: Bookmark)
        requires { IsMarkIn self.old bookmark }
        ensures { self.new ≡ self.old }
    {
        let _ = self.bookmarks.push(bookmark);
    }

    /// The same. Where there are too many, each second one is dropped, and further ones are spread over twice the instants.
    pub(crate) fn put(&mut self, bookmark: Bookmark)
        requires { IsMarkIn self.old bookmark }
        ensures { self.new ≡ self.old }
    {
        if self.bookmarks.len() >= MOST {
            self.thin_out();
            self.spacing = self.spacing.saturating_mul(2);
        }
        self.push(bookmark);
    }

    /// Sets the simulation aside as it stands, at the beginning of an instant. Where there is no memory for it there is a bookmark less.
    fn set_aside<'a>(&mut self, alloc: Global, engine: &Engine<'a>)
        requires of { IsMarkIn self.old engine.now }
        requires job { jobs_in engine.now.point ≡ [] → ⊥ }
        requires begins { batches_in engine.now.point ≡ [] }
        ensures { self.new ≡ self.old }
    {
        if let Ok(bookmark) = engine.bookmark(alloc, &self.model) {
            self.put(bookmark);
        }
    }

    /// Sets the simulation beside an old run aside, if that is due.
    pub(crate) fn note<'a>(&mut self, alloc: Global, engine: &Engine<'a>)
        requires of { IsMarkIn self.old engine.now }
        requires job { jobs_in engine.now.point ≡ [] → ⊥ }
        ensures { self.new ≡ self.old }
    {
        if self.is_due(engine) {
            self.set_aside(alloc, engine);
        }
    }

    /// Sets the simulation where no old run is at hand aside, if that costs little against what was simulated since the last bookmark.
    pub(crate) fn note_if_paid_for<'a>(
        &mut self,
        alloc: Global,
        engine: &Engine<'a>,
        tally: &mut Tally,
    )
        requires of { IsMarkIn self.old engine.now }
        requires job { jobs_in engine.now.point ≡ [] → ⊥ }
        ensures { self.new ≡ self.old }
    {
        if is_paid_for(engine, tally) {
            self.set_aside(alloc, engine);
            tally.start_over();
        }
    }
}
