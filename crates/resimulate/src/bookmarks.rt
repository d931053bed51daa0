//! From where the simulation of an edited plan may begin: bookmarks of the last simulations.

ghost use Rattle.std.specs.Prelude.{◌≡◌, ◌≤◌, IsTrue, IfOk, IfSome, option_map};
ghost use Rattle.aerie_base.specs.Ranges.{step_limit};
ghost use Rattle.aerie_base.specs.plans.OfModel.{IsPlanOf};
ghost use Rattle.resimulate.specs.Bookmarks.{AreOfOld, IsEngineOf, IsMarked};
ghost use Rattle.resimulate.specs.Partings.{PartsBy};

use crate::marks::Marks;
use crate::partings::{Parting, parting_of};
use aerie_base::{Model, OutOfMemory, Plan, Shared};
use engine_core::Engine;
use run_data::Run;
use std::alloc::Global;

/// Of how many simulations bookmarks are kept at most.
const MOST: usize = 16;

/// The last simulations, set aside at the beginnings of some instants: of each the bookmarks that stand before the edits that came
/// later, the earlier ones in front. What stands before the last bookmark that is before an edit is not simulated again. Bookmarks of
/// the old run behind the edit are taken over by the next simulation where it is alike with that run.
#[derive(Drop)]
pub struct Bookmarks {
    simulations: Vec<Marks>,
}

/// A simulation that begins.
#[derive(Drop)]
pub(crate) struct MarkedStart<'a> {
    /// Where it begins.
    pub(crate) engine: Engine<'a>,
    /// Its bookmarks, none yet.
    pub(crate) marks: Marks,
    /// Those of the old run that are not before the edit, the last one first.
    pub(crate) late: Option<Marks>,
}

/// Whether there is an old run of whose simulation bookmarks are.
fn are_of_old(marks: &Marks, model: &Model, old: Option<&Run>) -> bool
    ensures { IsTrue result → AreOfOld model.now (option_map (λ run. run.now) old.entry) marks.now }
{
    match old {
        Some(run) => marks.is_of(model, run),
        None => false,
    }
}

/// Where a plan parts from that of bookmarks. Where they are of the old run this is known.
fn parting_from(
    plan: &Plan,
    marks: &Marks,
    parting: &Option<Parting>,
    is_of_old: bool,
) -> Option<Parting>
    requires { IsTrue is_of_old → PartsBy plan.now marks.now.plan parting.now }
    ensures { PartsBy plan.now marks.now.plan result }
{
    if is_of_old {
        *parting
    } else {
        parting_of(plan, marks.plan.get())
    }
}

/// An engine that was found, or else that of a plan before its first batch.
fn found_or_first<'a>(
    alloc: Global,
    model: &'a Model,
    plan: &Shared<Plan>,
    bound: u64,
    found: Option<Engine<'a>>,
) -> Result<Engine<'a>, OutOfMemory>
    requires plan { IsPlanOf model.now plan.now }
    requires bound { bound ≤ step_limit }
    requires found { IfSome found (IsEngineOf model.now plan.now bound) }
    ensures { IfOk result (IsEngineOf model.now plan.now bound) }
{
    match found {
        Some(engine) => Ok(engine),
        None => {
            let engine = Engine::begin(alloc, model, plan, bound)?;
            Ok(engine)
        }
    }
}

impl Bookmarks {
    /// No bookmarks yet.
    pub fn new(alloc: Global) -> Bookmarks {
        Bookmarks {
            simulations: Vec::new(alloc),
        }
    }

    /// Drops those of each second simulation, but not of the last.
    fn thin_out(&mut self) {
        for at in 0..self.simulations.len() / 2 {
            if at < self.simulations.len() {
                let _ = self.simulations.remove(at);
            }
        }
    }

    /// Puts those of a simulation behind the others, if it has some. Where there are too many, or there is no memory, some are dropped.
    pub(crate) fn keep(&mut self, marks: Marks) {
        if marks.is_empty() {
            return;
        }
        if self.simulations.len() >= MOST {
            self.thin_out();
        }
        let _ = self.simulations.push(marks);
    }

    /// The engine of a plan at the last bookmark at which its simulation may begin, if there is one. Later bookmarks are dropped, but for
    /// those of the old run.
    #[allow(clippy::too_many_arguments)]
    fn resume<'a>(
        &mut self,
        alloc: Global,
        model: &'a Model,
        plan: &Shared<Plan>,
        bound: u64,
        old: Option<&Run>,
        parting: &Option<Parting>,
        late: &mut Option<Marks>,
    ) -> Result<Option<Engine<'a>>, OutOfMemory>
        requires plan { IsPlanOf model.now plan.now }
        requires bound { bound ≤ step_limit }
        requires parted { IfSome old (λ run. PartsBy plan.now run.now.plan parting.now) }
        requires late { IfSome late.old (AreOfOld model.now (option_map (λ run. run.now) old)) }
        ensures found { IfOk result (λ found. IfSome found (IsEngineOf model.now plan.now bound)) }
        ensures late { IfSome late.new (AreOfOld model.now (option_map (λ run. run.now) old.entry)) }
    {
        for _simulation in 0..self.simulations.len() {
            let Some(mut marks) = self.simulations.pop() else {
                return Ok(None);
            };
            let is_of_old = are_of_old(&marks, model, old);
            let Some(parting) = parting_from(plan.get(), &marks, parting, is_of_old) else {
                self.simulations.clear();
                return Ok(None);
            };
            let mut behind = marks.none_yet(alloc)?;
            marks.move_late(parting.until, &mut behind);
            if is_of_old {
                *late = Some(behind);
            }
            let found = marks.resumed(alloc, model, plan, bound, &parting)?;
            if found.is_some() {
                let _ = self.simulations.push(marks);
                return Ok(found);
            }
        }
        Ok(None)
    }

    /// The simulation of a plan, from the last bookmark on at which it may begin, or else from its start on; beside an old run, where
    /// there is one.
    #[allow(clippy::too_many_arguments)]
    pub(crate) fn begin<'a>(
        &mut self,
        alloc: Global,
        model: &'a Model,
        shared: &Shared<Model>,
        plan: &Shared<Plan>,
        bound: u64,
        old: Option<&Run>,
        parting: &Option<Parting>,
    ) -> Result<MarkedStart<'a>, OutOfMemory>
        requires model { shared.now ≡ model.now }
        requires plan { IsPlanOf model.now plan.now }
        requires bound { bound ≤ step_limit }
        requires parted { IfSome old (λ run. PartsBy plan.now run.now.plan parting.now) }
        ensures engine { IfOk result (λ begun. IsEngineOf model.now plan.now bound begun.engine) }
        ensures marks { IfOk result (λ begun. IsMarked model.now plan.now bound begun.marks) }
        ensures late { IfOk result (λ begun.
            IfSome begun.late (AreOfOld model.now (option_map (λ run. run.now) old.entry))) }
    {
        let marks = Marks::new(alloc, shared.share()?, plan.share()?, bound);
        let mut late = None;
        let found = self.resume(alloc, model, plan, bound, old, parting, &mut late)?;
        let engine = found_or_first(alloc, model, plan, bound, found)?;
        Ok(MarkedStart {
            engine,
            marks,
            late,
        })
    }
}
