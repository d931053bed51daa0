//! The jobs of the children that a step makes, and the frames of those that are too deep.

ghost use Rattle.std.specs.Prelude.{◌≡◌, ◌∷◌, ◌++◌, ◌+◌, ◌<◌, ◌≤◌, ◌^◌, [], true, length, IfOk};
ghost use Rattle.aerie_base.specs.Paths.{may_have_children};
ghost use Rattle.run_data.specs.Frames.{child_job};
ghost use Rattle.run_data.specs.laws.Generations.{child_jobs, deep_frame};
ghost use Rattle.engine_core.specs.BatchDues.{fresh, deep_children};
ghost use Rattle.run_data.specs.StepStates.{after_item, after_items};
ghost use Rattle.engine_core.specs.BatchTrees.{children_by, children_among};
ghost use Rattle.engine_core.specs.BatchViews.{CanEmit, CanEmitAll};

use aerie_base::{Fault, List, Model, OutOfMemory, Path, Shared, Value};
use effect_cells::Cells;
use live_tasks::beginnings::activity_state;
use live_tasks::ready_jobs::ReadyJobs;
use run_data::{Frame, Item, Job, Record, Status};
use std::alloc::Global;

/// How many children an item makes.
pub(super) fn children_in(item: &Item) -> u32
    ensures value { result ≡ children_by item.now }
    ensures few { result ≤ 1 }
{
    match item {
        Item::Emit { .. } => 0,
        Item::Child { .. } => 1,
    }
}

/// How many children items make.
pub(super) fn children_among(items: &[Item]) -> u32
    requires { length items.now < 2 ^ 32 }
    ensures value { result ≡ children_among items.now }
    ensures few { result ≤ length items.now }
{
    let mut count = 0;
    for item in items {
        count += children_in(item);
    }
    count
}

/// Applies the effect that an item is; a child is none.
fn emit(cells: &mut Cells, item: &Item)
    requires { CanEmit cells.old item.now }
    ensures { cells.new ≡ after_item cells.old item.now }
{
    match item {
        Item::Emit { cell, effect } => cells.emit(*cell, effect),
        Item::Child { .. } => {}
    }
}

/// The view with the effects among items. It is copied only where there are items.
fn seen_after(
    alloc: Global,
    view: &Shared<Cells>,
    items: &[Item],
) -> Result<Shared<Cells>, OutOfMemory>
    requires { CanEmitAll view.now items.now }
    ensures { IfOk result (λ seen. seen ≡ after_items view.now items.now) }
{
    if items.is_empty() {
        return view.share();
    }
    let mut cells = view.get().copy(alloc)?;
    for item in items {
        emit(&mut cells, item);
    }
    Shared::new(alloc, cells)
}

/// The job of a child, of a path that may have one.
fn child(
    alloc: Global,
    model: &Model,
    maker: &Path,
    number: u32,
    view: &Shared<Cells>,
    kind: u16,
    arguments: &[Value],
) -> Result<Job, OutOfMemory>
    requires { may_have_children maker.now ≡ true }
    ensures { IfOk result (λ job. job ≡ child_job model.now maker.now number view.now kind arguments.now) }
{
    let path = match maker.child(alloc, number)? {
        Some(path) => Shared::new(alloc, path)?,
        None => unreachable!(),
    };
    let state = activity_state(alloc, model, kind, arguments)?;
    let view = view.share()?;
    Ok(Job { path, state, view })
}

/// Puts the jobs of the children that items make behind others. Each child sees the view of its maker with the effects
/// before it: children with no effect between them share one.
pub(super) fn with_children(
    alloc: Global,
    model: &Model,
    job: &Job,
    number: u32,
    items: &[Item],
    others: ReadyJobs,
) -> Result<ReadyJobs, OutOfMemory>
    requires room { may_have_children job.now.path ≡ true }
    requires effects { CanEmitAll job.now.view items.now }
    requires few { number + length items.now < 2 ^ 32 }
    ensures { IfOk result (λ all. all
        ≡ others ++ fresh (child_jobs model.now job.now.path number job.now.view items.now)) }
{
    if children_among(items) == 0 {
        return Ok(others);
    }
    let mut all = others;
    let mut view = job.view.share()?;
    let mut seen = 0;
    let mut next = number;
    for at in 0..items.len() {
        let Item::Child { kind, arguments } = &items[at] else {
            continue;
        };
        view = seen_after(alloc, &view, &items[seen..at])?;
        seen = at + 1;
        let job = child(
            alloc,
            model,
            job.path.get(),
            next,
            &view,
            *kind,
            arguments.as_slice(),
        )?;
        all = all.with(0, job)?;
        next += 1;
    }
    Ok(all)
}

/// The frame of a child that is too deep.
fn deep_frame(
    alloc: Global,
    model: &Model,
    maker: &Shared<Path>,
    kind: u16,
    arguments: &[Value],
) -> Result<Frame, OutOfMemory>
    ensures { IfOk result (λ frame. frame
        ≡ deep_frame maker.now (child_job model.now maker.now 0 [] kind arguments.now)) }
{
    let before = activity_state(alloc, model, kind, arguments)?;
    let step = Record {
        before,
        reads: List::new(alloc),
        items: List::new(alloc),
        status: Status::Faulted(Fault::TooDeep),
        cost: 0,
    };
    let step = Shared::new(alloc, step)?;
    Ok(Frame::new(maker.share()?, step))
}

/// The frames of the children that items make, each under the path of its maker, which has no room for theirs.
pub(super) fn deep_frames(
    alloc: Global,
    model: &Model,
    maker: &Shared<Path>,
    items: &[Item],
) -> Result<Vec<Frame>, OutOfMemory>
    ensures { IfOk result (λ deep. deep.items ≡ deep_children model.now maker.now items.now) }
{
    let mut deep = Vec::new(alloc);
    for item in items {
        let Item::Child { kind, arguments } = item else {
            continue;
        };
        let frame = deep_frame(alloc, model, maker, *kind, arguments.as_slice())?;
        deep.push(frame)?;
    }
    Ok(deep)
}
