//! Frames of an old batch that are those of a new one.

ghost use Rattle.std.specs.Prelude.{◌≡◌, ◌↔◌, ◌+◌, ◌<◌, ◌≤◌, ◌^◌, [], ◌∷◌, IsTrue, IfOk};
ghost use Rattle.std.specs.List.{list_any};
ghost use Rattle.std.specs.Option.{option_copied};
ghost use Rattle.std.specs.Ordering.{is_lt};
ghost use Rattle.aerie_base.specs.Paths.{path_cmp};
ghost use Rattle.aerie_base.specs.Ranges.{number_limit, step_limit};
ghost use Rattle.run_data.specs.Frames.{child_job, room_of};
ghost use Rattle.run_data.specs.Jobs.{AreCellsOf};
ghost use Rattle.run_data.specs.Records.{Agrees};
ghost use Rattle.run_data.specs.laws.BatchFrames.{Among};
ghost use Rattle.run_data.specs.laws.FittingFrames.{FitsJob};
ghost use Rattle.run_data.specs.laws.Generations.{child_jobs};
ghost use Rattle.run_data.specs.laws.SmallSteps.{IsJobWithin};
ghost use Rattle.run_data.specs.laws.Trees.{frame_at};
ghost use Rattle.engine_core.specs.BatchViews.{CanEmit};
ghost use Rattle.live_tasks.specs.FrameOrders.{AreByPath};
ghost use Rattle.fitting.specs.Fitting.{job_of_frame, is_child, IsOldBatch, MaySee, MaySeeChildren};
ghost use Rattle.fitting.specs.Fitting.{FindsTree, FindsChild, FindsChildren, FitsItem};

use crate::beginnings::begins;
use aerie_base::{Model, OutOfMemory, Path, Value};
use effect_cells::{CellState, Cells};
use run_data::laws::{budget_decides_the_end_alone, fitting_frames_are_the_batch, steps_are_small};
use run_data::{Frame, Item, Job};
use std::alloc::Global;

/// Whether the path of a frame is before a path.
fn is_before(frame: &Frame, path: &Path) -> bool
    ensures { result ≡ is_lt (path_cmp frame.now.path path.now) }
{
    *frame.path() < *path
}

/// The frame of a path, found at a cost of as many comparisons as the number of frames has digits.
fn find<'a>(old: &'a [Frame], path: &Path) -> Option<&'a Frame>
    requires { AreByPath old.now }
    ensures { option_copied result ≡ frame_at old.now path.now }
{
    let at = old.partition_point(|frame| is_before(frame, path));
    let Some(frame) = old.get(at) else {
        return None;
    };
    if frame.path().is_same(path) {
        Some(frame)
    } else {
        None
    }
}

/// Whether a cell has this state in a view.
fn has_state(model: &Model, view: &Cells, cell: u16, state: CellState) -> bool
    requires { AreCellsOf model.now view.now }
    ensures { IsTrue result ↔ Agrees view.now ((cell, state) ∷ []) }
{
    usize::from(cell) < model.cells().len() && view.state(cell) == state
}

/// Whether each cell that was read has the same state in a view.
fn agree(model: &Model, view: &Cells, reads: &[(u16, CellState)]) -> bool
    requires { AreCellsOf model.now view.now }
    ensures { IsTrue result ↔ Agrees view.now reads.now }
{
    for (cell, state) in reads {
        if !has_state(model, view, *cell, *state) {
            return false;
        }
    }
    true
}

/// Whether an item is a child.
fn is_child(item: &Item) -> bool
    ensures { result ≡ is_child item.now }
{
    match item {
        Item::Emit { .. } => false,
        Item::Child { .. } => true,
    }
}

/// Whether there is a child among items.
fn make_children(items: &[Item]) -> bool
    ensures { result ≡ list_any is_child items.now }
{
    items.iter().any(|item| is_child(item))
}

/// Looks in an old batch for the frames of a task that made so many children before, from a frame of it and as it sees the
/// cells: puts its frame and those of the children that it makes behind others, or tells that one of them is not there.
#[cycle(fit)]
#[allow(clippy::too_many_arguments)]
fn fit_frame(
    alloc: Global,
    model: &Model,
    bound: u64,
    old: &[Frame],
    frame: &Frame,
    number: u32,
    view: &Cells,
    found: &mut Vec<Frame>,
) -> Result<bool, OutOfMemory>
    requires bound { bound ≤ step_limit }
    requires old { IsOldBatch model.now old.now }
    requires there { Among frame.now old.now }
    requires number { number ≤ step_limit }
    requires may { MaySee model.now (room_of frame.now.path) (job_of_frame frame.now view.now) }
    ensures { IfOk result (λ yes.
        FindsTree model.now bound number (job_of_frame frame.now view.now)
        old.now yes found.old.items found.new.items) }
{
    if frame.cost() > bound {
        return Ok(false);
    }
    let reads = frame.reads().as_slice();
    if !agree(model, view, reads) {
        return Ok(false);
    }
    let shared = frame.share()?;
    found.push(shared)?;
    let yes = fit_children(alloc, model, bound, old, frame, number, view, found)?;
    Ok(yes)
}

/// The same for the children that a frame makes.
#[cycle(fit)]
#[allow(clippy::too_many_arguments)]
fn fit_children(
    alloc: Global,
    model: &Model,
    bound: u64,
    old: &[Frame],
    frame: &Frame,
    number: u32,
    view: &Cells,
    found: &mut Vec<Frame>,
) -> Result<bool, OutOfMemory>
    requires bound { bound ≤ step_limit }
    requires old { IsOldBatch model.now old.now }
    requires number { number ≤ step_limit }
    requires may { MaySee model.now (room_of frame.now.path) (job_of_frame frame.now view.now) }
    requires fits { FitsJob model.now bound (job_of_frame frame.now view.now) frame.now }
    ensures { IfOk result (λ yes.
        FindsChildren model.now bound frame.now.path
        (child_jobs model.now frame.now.path number view.now frame.now.items)
        old.now yes found.old.items found.new.items) }
{
    steps_are_small();
    budget_decides_the_end_alone();
    fitting_frames_are_the_batch();
    let _ = model.cells();
    let items = frame.items().as_slice();
    if !make_children(items) {
        return Ok(true);
    }
    let mut seen = view.copy(alloc)?;
    let mut next = number;
    for item in items {
        let later = fit_item(
            alloc,
            model,
            bound,
            old,
            frame.path(),
            item,
            next,
            &mut seen,
            found,
        )?;
        let Some(later) = later else {
            return Ok(false);
        };
        next = later;
    }
    Ok(true)
}

/// The same for an item of a maker, where the next child has this number: an effect is put on what those behind it see. It gives
/// the number of the next child behind it.
#[cycle(fit)]
#[allow(clippy::too_many_arguments)]
fn fit_item(
    alloc: Global,
    model: &Model,
    bound: u64,
    old: &[Frame],
    maker: &Path,
    item: &Item,
    number: u32,
    seen: &mut Cells,
    found: &mut Vec<Frame>,
) -> Result<Option<u32>, OutOfMemory>
    requires bound { bound ≤ step_limit }
    requires old { IsOldBatch model.now old.now }
    requires number { number + 1 < 2 ^ 32 }
    requires can { CanEmit seen.old item.now }
    requires may { MaySeeChildren model.now (room_of maker.now)
        (child_jobs model.now maker.now number seen.old (item.now ∷ [])) }
    ensures { IfOk result (λ later.
        FitsItem model.now bound maker.now old.now item.now number seen.old
        later seen.new found.old.items found.new.items) }
{
    match item {
        Item::Emit { cell, effect } => {
            seen.emit(*cell, effect);
            Ok(Some(number))
        }
        Item::Child { kind, arguments } => {
            let arguments = arguments.as_slice();
            if fit_child(
                alloc, model, bound, old, maker, number, *kind, arguments, seen, found,
            )? {
                Ok(Some(number + 1))
            } else {
                Ok(None)
            }
        }
    }
}

/// The same for a child, by its number and what it begins with.
#[cycle(fit)]
#[allow(clippy::too_many_arguments)]
fn fit_child(
    alloc: Global,
    model: &Model,
    bound: u64,
    old: &[Frame],
    maker: &Path,
    number: u32,
    kind: u16,
    arguments: &[Value],
    view: &Cells,
    found: &mut Vec<Frame>,
) -> Result<bool, OutOfMemory>
    requires bound { bound ≤ step_limit }
    requires old { IsOldBatch model.now old.now }
    requires may { MaySeeChildren model.now (room_of maker.now)
        (child_job model.now maker.now number view.now kind arguments.now ∷ []) }
    ensures { IfOk result (λ yes.
        FindsChild model.now bound maker.now
        (child_job model.now maker.now number view.now kind arguments.now)
        old.now yes found.old.items found.new.items) }
{
    let _ = maker.children();
    let Some(path) = maker.child(alloc, number)? else {
        return Ok(false);
    };
    let Some(frame) = find(old, &path) else {
        return Ok(false);
    };
    if !begins(model, frame.before(), kind, arguments) {
        return Ok(false);
    }
    let yes = fit_frame(alloc, model, bound, old, frame, 0, view, found)?;
    Ok(yes)
}

/// Looks in an old batch for the frames of a ready job, whose task made so many children before, and of all children down from
/// it. A frame fits where its task is in the state of the job, sees what the step read, and the step costs no more than the
/// bound. Puts them behind others, or tells that one of them is not there.
pub fn fit_job(
    alloc: Global,
    model: &Model,
    bound: u64,
    old: &[Frame],
    job: &Job,
    number: u32,
    found: &mut Vec<Frame>,
) -> Result<bool, OutOfMemory>
    requires bound { bound ≤ step_limit }
    requires old { IsOldBatch model.now old.now }
    requires number { number ≤ step_limit }
    requires within { IsJobWithin model.now number_limit job.now }
    ensures { IfOk result (λ yes.
        FindsTree model.now bound number job.now old.now yes found.old.items found.new.items) }
{
    let path = job.path.get();
    let Some(frame) = find(old, path) else {
        return Ok(false);
    };
    let state = frame.before();
    if !state.is_same(job.state.get()) {
        return Ok(false);
    }
    let view = job.view.get();
    let yes = fit_frame(alloc, model, bound, old, frame, number, view, found)?;
    Ok(yes)
}
