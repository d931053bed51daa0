//! The simulation of a plan beside an old run.

ghost use Rattle.std.specs.Prelude.{◌≡◌, ◌≤◌, ◌++◌, [], length, false, None, Some, IsTrue, IfOk, IfSome, option_map, if◌then◌else◌};
ghost use Rattle.aerie_base.specs.Ranges.{step_limit};
ghost use Rattle.aerie_base.specs.plans.OfModel.{IsPlanOf};
ghost use Rattle.run_data.specs.Fresh.{IsFresh};
ghost use Rattle.run_data.specs.Waves.{RoseAlike};
ghost use Rattle.engine_core.specs.BatchGenerations.{Ran};
ghost use Rattle.engine_core.specs.EngineStates.{batches_in, instants_in, jobs_in, spent_in, OfSameModels};
ghost use Rattle.fitting.specs.Fitting.{IsOldBatch};
ghost use Rattle.resimulate.specs.EarlyEnds.{AreAlikeBehind, IsRest};
ghost use Rattle.resimulate.specs.EvenInstants.{PaysForUneven, LooksForUneven};
ghost use Rattle.resimulate.specs.Partings.{AreSameOutside, MayEndFrom};
ghost use Rattle.resimulate.specs.SharedEnds.{ShareFirst, SharesEnds};
ghost use Rattle.resimulate.specs.Walks.{FindsReady, AreOfNextBatch, BatchDiffers, GoesOn, counts_by};

use crate::bookmarks::{Bookmarks, MarkedStart};
use crate::cursor::Cursor;
use crate::early_ends::{SharedEnd, rest_if_alike};
use crate::pace::Pace;
use crate::partings::{Parting, may_end_from, parting_of};
use aerie_base::{Model, OutOfMemory, Plan, Shared, Steps};
use engine_core::Engine;
use fitting::fit_job;
use run_data::laws::{
    fitting_frames_are_the_batch, frames_of_batches_are_of_tasks, fresh_runs, instants_rise,
    reached_states_are_of_the_model, steps_are_small, tasks_stand_by_number, weight_falls,
    what_has_ended_may_be_left_out,
};
use run_data::{Frame, Instant, Kept, Run, Stepper};
use std::alloc::Global;
use std::sync::ledger::Ledger;

/// A run that was made beside an old one, and what both have in common.
#[derive(Drop)]
pub struct SharingRun {
    /// The run.
    pub run: Run,
    /// How many of the first instants are known to be those of the old run.
    pub first: usize,
    /// How many of the last instants are.
    pub last: usize,
}

/// Finds the frames of an old batch that fit the ready jobs of an engine, or tells that one of them is not there.
fn fitting_frames<'a>(
    alloc: Global,
    model: &Model,
    bound: u64,
    engine: &Engine<'a>,
    old: &[Frame],
    found: &mut Vec<Frame>,
) -> Result<bool, OutOfMemory>
    requires model { engine.now.model ≡ model.now }
    requires bound { engine.now.bound ≡ bound }
    requires old { IsOldBatch model.now old.now }
    ensures { IfOk result (λ all. FindsReady engine.now old.now (if all then Some found.new.items else None)) }
{
    reached_states_are_of_the_model();
    tasks_stand_by_number();
    let _ = model.cells();
    found.clear();
    let jobs = engine.ready();
    for at in 0..jobs.len() {
        let number = engine.made(at);
        let yes = fit_job(alloc, model, bound, old, &jobs[at], number, found)?;
        if !yes {
            return Ok(false);
        }
    }
    Ok(true)
}

/// Finds the frames of the next batch of an engine, if they are all among those of the old batch beside it.
fn old_frames<'a>(
    alloc: Global,
    model: &Model,
    bound: u64,
    engine: &Engine<'a>,
    beside: Option<&[Frame]>,
    found: &mut Vec<Frame>,
) -> Result<bool, OutOfMemory>
    requires model { engine.now.model ≡ model.now }
    requires bound { engine.now.bound ≡ bound }
    requires old { IfSome beside (λ old. IsOldBatch model.now old.now) }
    ensures found { IfOk result (λ all. IsTrue all → AreOfNextBatch engine.now found.new.items) }
    ensures none { IfOk result (λ all.
        all ≡ false → BatchDiffers (option_map (λ old. old.now) beside.entry) engine.now) }
{
    frames_of_batches_are_of_tasks();
    reached_states_are_of_the_model();
    fitting_frames_are_the_batch();
    steps_are_small();
    let _ = model.cells();
    let _ = engine.ready();
    let Some(old) = beside else {
        return Ok(false);
    };
    let all = fitting_frames(alloc, model, bound, engine, old, found)?;
    Ok(all)
}

/// The next batch of an engine: of the old frames, where all of its own are among these, and else by the stepper. The pace is
/// told which. What is found lies in room that is kept from batch to batch.
#[allow(clippy::too_many_arguments)]
fn next_batch<'a, S: Stepper, L: Ledger, K: Ledger>(
    alloc: Global,
    model: &Model,
    bound: u64,
    engine: Engine<'a>,
    beside: Option<&[Frame]>,
    found: &mut Vec<Frame>,
    pace: &mut Pace,
    stepper: &mut S,
    steps: &mut Steps<L>,
    looks: &mut Steps<K>,
) -> Result<Engine<'a>, OutOfMemory>
    requires model { engine.model ≡ model.now }
    requires bound { engine.bound ≡ bound }
    requires job { jobs_in engine.point ≡ [] → ⊥ }
    requires old { IfSome beside (λ old. IsOldBatch model.now old.now) }
    requires shares { S.shares }
    requires stepper { S.is_of stepper.old model.now }
    ensures goes_on { IfOk result (λ later.
        GoesOn engine.entry later (option_map (λ old. old.now) beside.entry) (S.records stepper.old)
        (counts_by steps.old steps.new looks.old looks.new)) }
    ensures ran { Ran (S.is_of stepper.old) (S.is_of stepper.new) (S.records stepper.old) (S.records stepper.new)
        (S.address stepper.old) (S.address stepper.new) (S.opened stepper.old) steps.old looks.old
        (S.opened stepper.new) steps.new looks.new }
{
    let all = old_frames(alloc, model, bound, &engine, beside, found)?;
    if all {
        pace.go_on();
        let later = engine.take_over(alloc, found.as_slice())?;
        Ok(later)
    } else {
        pace.part();
        let later = engine.step(alloc, stepper, steps, looks)?;
        Ok(later)
    }
}

/// Whether it is time to compare, at the beginning of an instant. An instant of the old run that was passed over is a difference
/// too.
fn is_due<'a, 'r>(
    engine: &Engine<'a>,
    old: &Run,
    cursor: &Cursor<'r>,
    shared: usize,
    pace: &mut Pace,
) -> bool {
    if cursor.has_passed() {
        pace.part();
    }
    let instants = engine.instants().len();
    let left = old.instants.as_slice().len().saturating_sub(instants);
    let later = instants.saturating_sub(shared);
    let yes = pace.is_due(instants, later, left);
    if yes {
        pace.compare(instants, later);
    }
    yes
}

/// The end that the new run shares with the old one, where it is time to compare and that is known. `may_end` is the number of first
/// instants that both share, where the new run may end so.
#[allow(clippy::too_many_arguments)]
fn rest_if_due<'a, 'r>(
    alloc: Global,
    model: &Model,
    plan: &Plan,
    bound: u64,
    engine: &Engine<'a>,
    old: &'r Run,
    cursor: &Cursor<'r>,
    parting: &Option<Parting>,
    may_end: Option<usize>,
    pace: &mut Pace,
) -> Result<Option<SharedEnd<'r>>, OutOfMemory>
    requires model { engine.now.model ≡ model.now }
    requires plan { engine.now.plan ≡ plan.now }
    requires bound { engine.now.bound ≡ bound }
    requires job { jobs_in engine.now.point ≡ [] → ⊥ }
    requires fresh { IsFresh model.now old.now.plan old.now.bound old.now }
    requires old_plan { IsPlanOf model.now old.now.plan }
    requires outside { AreSameOutside plan.now old.now.plan parting.now }
    requires may { IfSome may_end (λ count. MayEndFrom model.now plan.now bound old.now count) }
    ensures begins { IfOk result (λ found. IfSome found (λ it. batches_in engine.now.point ≡ [])) }
    ensures rest { IfOk result (λ found. IfSome found (λ it.
        IsRest model.now plan.now bound engine.now it.rest.now)) }
    ensures shares { IfOk result (λ found. IfSome found (λ it. SharesEnds
        old.now.instants (instants_in engine.now.point ++ it.rest.now) it.first (length it.rest.now))) }
    ensures alike { IfOk result (λ found. IfSome found (λ it.
        AreAlikeBehind model.now plan.now old.now.plan bound old.now.bound
        (instants_in engine.now.point) (spent_in engine.now.point) it.before.now)) }
    ensures first { IfOk result (λ found. IfSome found (λ it.
        ShareFirst (instants_in engine.now.point) it.before.now it.first)) }
{
    let Some(shared) = may_end else {
        return Ok(None);
    };
    if !engine.batches().is_empty() {
        return Ok(None);
    }
    if !is_due(engine, old, cursor, shared, pace) {
        return Ok(None);
    }
    let found = rest_if_alike(alloc, model, plan, bound, engine, old, parting, shared)?;
    Ok(found)
}

/// The fresh run of the plan, for every stepper, and what it has in common with the old run, of any plan of the same model and under
/// any bound. The bound is at most 100,000,000. A batch whose frames are all among those of the old run at the same time and place is
/// taken over; where the two are known to be alike behind an instant, the rest of a completed old run is shared, and how many of the
/// first and the last instants are the same is told. For a completed run `steps` rises by at most what no stored step fits of the
/// frames of those instants that are not even with the old run, and `looks` by at most two for each of these frames.
#[allow(clippy::too_many_arguments)]
pub fn resimulate_sharing<S: Stepper, L: Ledger, K: Ledger>(
    alloc: Global,
    model: &Model,
    old: &Kept,
    bookmarks: &mut Bookmarks,
    plan: &Shared<Plan>,
    bound: u64,
    stepper: &mut S,
    steps: &mut Steps<L>,
    looks: &mut Steps<K>,
) -> Result<SharingRun, OutOfMemory>
    requires old { old.now.model ≡ model.now }
    requires plan { IsPlanOf model.now plan.now }
    requires bound { bound ≤ step_limit }
    requires shares { S.shares }
    requires stepper { S.is_of stepper.old model.now }
    ensures fresh { IfOk result (λ made. IsFresh model.now plan.now bound made.run) }
    ensures shares { IfOk result (λ made.
        SharesEnds old.now.run.instants made.run.instants made.first made.last) }
    ensures frugal { IfOk result (λ made.
        PaysForUneven old.now.run made.run (S.records stepper.old) steps.old steps.new) }
    ensures looks { looks.old ≤ looks.new }
    ensures few_looks { IfOk result (λ made. LooksForUneven old.now.run made.run looks.old looks.new) }
    ensures opened { RoseAlike (S.opened stepper.old) steps.old (S.opened stepper.new) steps.new }
    ensures same_models { OfSameModels (S.is_of stepper.old) (S.is_of stepper.new) }
    ensures same_records { S.records stepper.new ≡ S.records stepper.old }
    ensures address { S.address stepper.new ≡ S.address stepper.old }
{
    weight_falls();
    fresh_runs();
    instants_rise();
    reached_states_are_of_the_model();
    what_has_ended_may_be_left_out();
    let _ = model.cells();
    let run = old.run();
    let instants = run.instants.as_slice();
    let planned = plan.get();
    let parting = parting_of(planned, run.plan.get());
    let may_end = may_end_from(model, planned, bound, run, &parting);
    let mut found = Vec::new(alloc);
    let MarkedStart {
        mut engine,
        mut marks,
        mut late,
    } = bookmarks.begin(alloc, model, old.model(), plan, bound, Some(run), &parting)?;
    let settled = engine.instants().len();
    marks.spread(settled, instants.len(), may_end);
    let mut cursor = Cursor::new(instants, settled);
    let mut pace = Pace::new(instants.len(), planned.directives.as_slice().len(), settled);
    while !engine.ready().is_empty() {
        marks.note(alloc, &engine);
        cursor.go_to(engine.time());
        let ending = rest_if_due(
            alloc, model, planned, bound, &engine, run, &cursor, &parting, may_end, &mut pace,
        )?;
        if let Some(ending) = ending {
            if let Some(late) = late.take() {
                marks.follow(
                    alloc,
                    late,
                    model,
                    run,
                    &engine,
                    ending.before,
                    ending.first,
                );
            }
            bookmarks.keep(marks);
            let ended = engine.end_with(ending.rest)?;
            let last = ending.rest.len();
            return Ok(SharingRun {
                run: ended,
                first: ending.first,
                last,
            });
        }
        let beside = cursor.batch(engine.batches().len());
        engine = next_batch(
            alloc, model, bound, engine, beside, &mut found, &mut pace, stepper, steps, looks,
        )?;
    }
    bookmarks.keep(marks);
    let made = engine.finish();
    Ok(SharingRun {
        run: made,
        first: 0,
        last: 0,
    })
}

/// The fresh run of the plan, for every stepper, whatever the old run is, of any plan of the same model and under any bound.
/// The bound is at most 100,000,000. A batch whose frames are all among those of the old run at the same time and place is
/// taken over; where the two are known to be alike behind an instant, the rest of a completed old run is shared. For a
/// completed run `steps` rises by at most what no stored step fits of the frames of those instants that are not even with the
/// old run, and `looks` by at most two for each of these frames.
#[allow(clippy::too_many_arguments)]
pub fn resimulate<S: Stepper, L: Ledger, K: Ledger>(
    alloc: Global,
    model: &Model,
    old: &Kept,
    bookmarks: &mut Bookmarks,
    plan: &Shared<Plan>,
    bound: u64,
    stepper: &mut S,
    steps: &mut Steps<L>,
    looks: &mut Steps<K>,
) -> Result<Run, OutOfMemory>
    requires old { old.now.model ≡ model.now }
    requires plan { IsPlanOf model.now plan.now }
    requires bound { bound ≤ step_limit }
    requires shares { S.shares }
    requires stepper { S.is_of stepper.old model.now }
    ensures fresh { IfOk result (λ run. IsFresh model.now plan.now bound run) }
    ensures frugal { IfOk result (λ run.
        PaysForUneven old.now.run run (S.records stepper.old) steps.old steps.new) }
    ensures looks { looks.old ≤ looks.new }
    ensures few_looks { IfOk result (λ run. LooksForUneven old.now.run run looks.old looks.new) }
    ensures opened { RoseAlike (S.opened stepper.old) steps.old (S.opened stepper.new) steps.new }
    ensures same_models { OfSameModels (S.is_of stepper.old) (S.is_of stepper.new) }
    ensures same_records { S.records stepper.new ≡ S.records stepper.old }
    ensures address { S.address stepper.new ≡ S.address stepper.old }
{
    let made = resimulate_sharing(
        alloc, model, old, bookmarks, plan, bound, stepper, steps, looks,
    )?;
    Ok(made.run)
}
