//! Bookmarks of one simulation for that of an edited plan, which may begin at each that is before the edit.

ghost use Rattle.std.specs.Prelude.{◌≡◌, ◌<◌, ◌≤◌, IsTrue, IfOk, IfSome};
ghost use Rattle.aerie_base.specs.Ranges.{step_limit};
ghost use Rattle.aerie_base.specs.plans.OfModel.{IsPlanOf};
ghost use Rattle.engine_core.specs.EngineStates.{time_in};
ghost use Rattle.resimulate.specs.Bookmarks.{IsEngineOf, MayResume};
ghost use Rattle.resimulate.specs.Partings.{PartFrom};

use crate::marks::Marks;
use crate::partings::Parting;
use aerie_base::{Model, OutOfMemory, Plan, Shared, Time};
use engine_core::{Bookmark, Engine};
use parting::laws::edited_plans_resume;
use run_data::laws::plans_that_differ_late_run_side_by_side;
use std::alloc::Global;

/// Whether a bookmark is of a model, its plan lasts as long as another one, and its bound is no more.
fn is_like(bookmark: &Bookmark, model: &Model, plan: &Plan, bound: u64) -> bool
    ensures model { IsTrue result → bookmark.now.model ≡ model.now }
    ensures lasts { IsTrue result → plan.now.duration ≡ bookmark.now.plan.duration }
    ensures bound { IsTrue result → bookmark.now.bound ≤ bound }
{
    bookmark.bound() <= bound
        && plan.duration == bookmark.plan().get().duration
        && bookmark.model().get().is_same(model)
}

/// Whether a bookmark is before a time.
fn is_before(bookmark: &Bookmark, until: Time) -> bool
    ensures { IsTrue result → time_in bookmark.now.point < until }
{
    bookmark.time() < until
}

/// Whether a simulation may begin at a bookmark, from whose plan its own parts behind the bookmark.
fn may_resume(
    bookmark: &Bookmark,
    model: &Model,
    plan: &Plan,
    bound: u64,
    parting: &Parting,
) -> bool
    requires plan { IsPlanOf model.now plan.now }
    requires parts { PartFrom
        parting.now.first parting.now.past parting.now.until plan.now bookmark.now.plan }
    ensures { IsTrue result → MayResume bookmark.now model.now plan.now bound
        parting.now.first parting.now.past parting.now.until }
{
    edited_plans_resume();
    plans_that_differ_late_run_side_by_side();
    let _ = model.cells();
    let _ = bookmark.plan();
    if !is_like(bookmark, model, plan, bound) {
        return false;
    }
    if !is_before(bookmark, parting.until) {
        return false;
    }
    true
}

/// The engine of a plan at a bookmark, if its simulation may begin there.
fn resumed<'a>(
    alloc: Global,
    bookmark: &Bookmark,
    model: &'a Model,
    plan: &Shared<Plan>,
    bound: u64,
    parting: &Parting,
) -> Result<Option<Engine<'a>>, OutOfMemory>
    requires plan { IsPlanOf model.now plan.now }
    requires bound { bound ≤ step_limit }
    requires parts { PartFrom
        parting.now.first parting.now.past parting.now.until plan.now bookmark.now.plan }
    ensures { IfOk result (λ found. IfSome found (IsEngineOf model.now plan.now bound)) }
{
    if !may_resume(bookmark, model, plan.get(), bound, parting) {
        return Ok(None);
    }
    let Parting { first, past, until } = *parting;
    let engine = bookmark.resume(alloc, model, plan, bound, first, past, until)?;
    Ok(Some(engine))
}

impl Marks {
    /// Moves the last bookmark behind others of the same simulation.
    fn move_last(&mut self, others: &mut Marks)
        requires { others.old ≡ self.old }
        ensures mine { self.new ≡ self.old }
        ensures others { others.new ≡ others.old }
    {
        if let Some(bookmark) = self.take_last() {
            others.push(bookmark);
        }
    }

    /// Moves the last bookmarks that are not before a time behind others of the same simulation, the last one first.
    pub(crate) fn move_late(&mut self, until: Time, others: &mut Marks)
        requires { others.old ≡ self.old }
        ensures mine { self.new ≡ self.old }
        ensures others { others.new ≡ others.old }
    {
        for _bookmark in 0..self.bookmarks.len() {
            match self.bookmarks.last() {
                Some(bookmark) if until <= bookmark.time() => {}
                _ => return,
            }
            self.move_last(others);
        }
    }

    /// The engine of a plan at the last bookmark, if its simulation may begin there.
    pub(crate) fn resumed<'a>(
        &self,
        alloc: Global,
        model: &'a Model,
        plan: &Shared<Plan>,
        bound: u64,
        parting: &Parting,
    ) -> Result<Option<Engine<'a>>, OutOfMemory>
        requires plan { IsPlanOf model.now plan.now }
        requires bound { bound ≤ step_limit }
        requires parts { PartFrom
            parting.now.first parting.now.past parting.now.until plan.now self.now.plan }
        ensures { IfOk result (λ found. IfSome found (IsEngineOf model.now plan.now bound)) }
    {
        let Some(bookmark) = self.bookmarks.last() else {
            return Ok(None);
        };
        let found = resumed(alloc, bookmark, model, plan, bound, parting)?;
        Ok(found)
    }
}
