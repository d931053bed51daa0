//! One batch: the steps of its ready tasks and of the children that they make, a generation at a time.

ghost use Rattle.std.specs.Prelude.{◌≡◌, ◌≤◌, ◌<◌, Some, IfOk, IsTrue};
ghost use Rattle.aerie_base.specs.Ranges.{step_limit};
ghost use Rattle.effect_cells.specs.Cells.{AreInRange, fits_cells};
ghost use Rattle.effect_cells.specs.Sums.{sum_limit};
ghost use Rattle.effect_cells.specs.Worth.{magnitude_of};
ghost use Rattle.run_data.specs.Batches.{batch, by_path};
ghost use Rattle.run_data.specs.Waves.{RoseAlike};
ghost use Rattle.run_data.specs.laws.Orders.{EachOf};
ghost use Rattle.run_data.specs.laws.Trees.{tree_by_frames};
ghost use Rattle.engine_core.specs.BatchEnding.{committed_by, IsCommittedWith, HasFrames};
ghost use Rattle.engine_core.specs.BatchEnds.{batch_as, batch_frames, AreReadyJobs, SpendsWith, IsFrugalEnd, HasFewLooks};
ghost use Rattle.live_tasks.specs.FrameOrders.{AreByPath};
ghost use Rattle.engine_core.specs.BatchOrders.{AreMade};
ghost use Rattle.engine_core.specs.BatchTrees.{HaveFewItems, tree_with, rebuilt_roots};
ghost use Rattle.engine_core.specs.EngineStates.{OfSameModels};

mod children;
mod faults;
mod gathering;
mod generations;
mod ordering;

use self::gathering::gather_all;
use crate::batch_ends::BatchEnd;
use aerie_base::{Fault, List, Model, OutOfMemory, Shared, Steps};
use effect_cells::{Cells, effects_are_gathered};
use live_tasks::ready_jobs::{ReadyJobs, Root};
use run_data::laws::{
    order_does_not_matter, same_by_generations, steps_are_small, tree_is_rebuilt,
};
use run_data::{Frame, Stepper, Who};
use std::alloc::Global;
use std::sync::ledger::Ledger;

/// Puts the effects of frames in order on cells that nobody else sees, unless one would leave its range.
fn commit_on(
    alloc: Global,
    cells: &mut Cells,
    roots: &[Root],
    frames: Vec<Frame>,
    spent: u64,
) -> Result<BatchEnd, OutOfMemory>
    requires order { AreByPath frames.items }
    requires few { HaveFewItems frames.items }
    requires made { EachOf (λ root. root.made ≤ step_limit) roots.now }
    requires range { AreInRange cells.old }
    requires fits { IsTrue (fits_cells cells.old (tree_with (rebuilt_roots frames.items roots.now))) }
    requires worth { magnitude_of (tree_with (rebuilt_roots frames.items roots.now)) < sum_limit }
    ensures end { IfOk result (λ end. batch_as end cells.new
        ≡ committed_by (tree_with (rebuilt_roots frames.items roots.now)) cells.old frames.items) }
    ensures with_ { IfOk result (λ end. IsCommittedWith frames.items spent end) }
{
    effects_are_gathered();
    let mut gathering = cells.begin_gathering(alloc)?;
    gather_all(alloc, frames.as_slice(), roots, cells, &mut gathering)?;
    let touched = gathering.touched(alloc)?;
    match cells.commit_gathered(gathering) {
        Ok(()) => Ok(BatchEnd::Committed {
            frames: List::from_vec(frames),
            touched,
            spent,
        }),
        Err(out) => Ok(BatchEnd::Failed {
            who: Who::Cell(out.cell),
            fault: Fault::Range,
        }),
    }
}

/// Puts the tree of frames in order on the cells, unless one would leave its range. The jobs and their views are let go before, so
/// that the cells change in their place, unless a stepper still has a view: then they are copied.
fn commit(
    alloc: Global,
    cells: &mut Shared<Cells>,
    jobs: &mut ReadyJobs,
    frames: Vec<Frame>,
    spent: u64,
) -> Result<BatchEnd, OutOfMemory>
    requires order { AreByPath frames.items }
    requires few { HaveFewItems frames.items }
    requires made { EachOf (λ job. job.0 ≤ step_limit) jobs.old }
    requires range { AreInRange cells.old }
    requires fits { IsTrue (fits_cells cells.old (tree_by_frames frames.items jobs.old)) }
    requires worth { magnitude_of (tree_by_frames frames.items jobs.old) < sum_limit }
    ensures end { IfOk result (λ end. batch_as end cells.new
        ≡ committed_by (tree_by_frames frames.items jobs.old) cells.old frames.items) }
    ensures with_ { IfOk result (λ end. IsCommittedWith frames.items spent end) }
{
    let roots = jobs.take_roots(alloc);
    if let Some(own) = cells.get_mut() {
        let end = commit_on(alloc, own, roots.as_slice(), frames, spent)?;
        jobs.put_back(roots);
        return Ok(end);
    }
    let mut own = cells.get().copy(alloc)?;
    let end = commit_on(alloc, &mut own, roots.as_slice(), frames, spent)?;
    *cells = Shared::new(alloc, own)?;
    Ok(end)
}

/// Judges a batch that makes these frames: its costs, then its faults, then its cells. Before it is committed its jobs are let go.
fn judge(
    alloc: Global,
    model: &Model,
    bound: u64,
    spent: u64,
    cells: &mut Shared<Cells>,
    jobs: &mut ReadyJobs,
    frames: Vec<Frame>,
) -> Result<BatchEnd, OutOfMemory>
    requires bound { bound ≤ step_limit }
    requires spent { spent ≤ bound }
    requires ready { AreReadyJobs model.now spent cells.old jobs.old }
    requires made { AreMade model.now bound jobs.old frames.items }
    ensures end { IfOk result (λ end. batch_as end cells.new
        ≡ batch model.now bound spent cells.old jobs.old) }
    ensures spends { IfOk result (λ end. SpendsWith spent end) }
    ensures frames { IfOk result (λ end. HasFrames (by_path frames.items) end) }
{
    steps_are_small();
    order_does_not_matter();
    tree_is_rebuilt();
    let _ = model.cells();
    let cost = generations::cost(frames.as_slice());
    if cost > bound - spent {
        return Ok(BatchEnd::Limit);
    }
    let sorted = ordering::in_order(frames)?;
    if let Some((path, fault)) = faults::first_fault(alloc, sorted.as_slice())? {
        return Ok(BatchEnd::Failed {
            who: Who::Task(path),
            fault,
        });
    }
    let end = commit(alloc, cells, jobs, sorted, spent + cost)?;
    Ok(end)
}

/// The batch of the ready jobs, whose frames the stepper gives by waves, one for each generation of children. Its effects are on
/// the cells where it is committed, and else the cells stay. After want of memory the cells may be either. The jobs may be let go;
/// the room for them is kept.
#[allow(clippy::too_many_arguments)]
pub(crate) fn run_batch<S: Stepper, L: Ledger, K: Ledger>(
    alloc: Global,
    model: &Model,
    bound: u64,
    spent: u64,
    cells: &mut Shared<Cells>,
    ready: &mut ReadyJobs,
    stepper: &mut S,
    steps: &mut Steps<L>,
    looks: &mut Steps<K>,
) -> Result<BatchEnd, OutOfMemory>
    requires shares { S.shares }
    requires stepper { S.is_of stepper.old model.now }
    requires bound { bound ≤ step_limit }
    requires spent { spent ≤ bound }
    requires ready { AreReadyJobs model.now spent cells.old ready.old }
    ensures end { IfOk result (λ end. batch_as end cells.new
        ≡ batch model.now bound spent cells.old ready.old) }
    ensures spends { IfOk result (λ end. SpendsWith spent end) }
    ensures frugal { IfOk result (λ end. IsFrugalEnd end (S.records stepper.old) steps.old steps.new) }
    ensures looks { looks.old ≤ looks.new }
    ensures few_looks { IfOk result (λ end. HasFewLooks end looks.old looks.new) }
    ensures opened { RoseAlike (S.opened stepper.old) steps.old (S.opened stepper.new) steps.new }
    ensures same_models { OfSameModels (S.is_of stepper.old) (S.is_of stepper.new) }
    ensures same_records { S.records stepper.new ≡ S.records stepper.old }
    ensures address { S.address stepper.new ≡ S.address stepper.old }
{
    same_by_generations();
    let made = generations::all_frames(alloc, model, bound, spent, ready, stepper, steps, looks)?;
    let Some(frames) = made else {
        return Ok(BatchEnd::Limit);
    };
    let end = judge(alloc, model, bound, spent, cells, ready, frames)?;
    Ok(end)
}

/// The same frames once more, of which nothing is copied.
fn shared(alloc: Global, frames: &[Frame]) -> Result<Vec<Frame>, OutOfMemory>
    ensures { IfOk result (λ shared. shared.items ≡ frames.now) }
{
    let mut shared = Vec::with_capacity(alloc, frames.len())?;
    for frame in frames {
        shared.push(frame.share()?)?;
    }
    Ok(shared)
}

/// The batch of the ready jobs, whose frames the caller has, in any order. They are shared. The jobs may be let go.
pub(crate) fn take_batch(
    alloc: Global,
    model: &Model,
    bound: u64,
    spent: u64,
    cells: &mut Shared<Cells>,
    ready: &mut ReadyJobs,
    frames: &[Frame],
) -> Result<BatchEnd, OutOfMemory>
    requires bound { bound ≤ step_limit }
    requires spent { spent ≤ bound }
    requires ready { AreReadyJobs model.now spent cells.old ready.old }
    requires frames { batch_frames model.now bound ready.old ≡ Some (by_path frames.now) }
    ensures end { IfOk result (λ end. batch_as end cells.new
        ≡ batch model.now bound spent cells.old ready.old) }
    ensures spends { IfOk result (λ end. SpendsWith spent end) }
{
    let shared = shared(alloc, frames)?;
    let end = judge(alloc, model, bound, spent, cells, ready, shared)?;
    Ok(end)
}
