//! The effects of a batch, gathered from its frames from the last to the first. Since frames stand in order of path, that of a
//! task is tried at a likely position first, and looked up by its path where it is not there.

ghost use Rattle.std.specs.Prelude.{◌≡◌, ◌<◌, ◌≤◌, ◌∷◌, [], Some, List, length, IsTrue, IfOk, OnOk};
ghost use Rattle.std.specs.Ordering.{is_lt};
ghost use Rattle.aerie_base.specs.Paths.{child_limit, child_path, children_of, path_cmp};
ghost use Rattle.aerie_base.specs.Ranges.{step_limit};
ghost use Rattle.effect_cells.specs.Gathered.{Gathered};
ghost use Rattle.effect_cells.specs.declared.trees.Part.{Part};
ghost use Rattle.run_data.specs.Frames.{room_of};
ghost use Rattle.run_data.specs.laws.Orders.{EachOf};
ghost use Rattle.run_data.specs.laws.Trees.{frame_at, parts_by, rebuilt};
ghost use Rattle.live_tasks.specs.FrameOrders.{AreByPath};
ghost use Rattle.engine_core.specs.BatchTrees.{parts_below, part_by, HaveFewItems, AreGathered, MayGather, rebuilt_roots};
ghost use Rattle.engine_core.specs.FramePositions.{IsPositionOf, IsFirstOfPath};

use super::children::{children_among, children_in};
use super::generations::CHILD_LIMIT;
use aerie_base::{OutOfMemory, Path};
use effect_cells::{Cells, Gathering, effects_are_gathered};
use live_tasks::ready_jobs::Root;
use run_data::{Frame, Item};
use std::alloc::Global;

/// Whether the path of a frame is before another.
fn is_before(frame: &Frame, path: &Path) -> bool
    ensures { result ≡ is_lt (path_cmp frame.now.path path.now) }
{
    *frame.path() < *path
}

/// The position of the frame of a path: the first of all, or found at a cost of as many comparisons as the number of frames has
/// digits.
fn find(frames: &[Frame], path: &Path) -> Option<usize>
    requires { AreByPath frames.now }
    ensures { IsPositionOf frames.now path.now result }
{
    let at = frames.partition_point(|frame| is_before(frame, path));
    let Some(frame) = frames.get(at) else {
        return None;
    };
    if frame.path().is_same(path) {
        Some(at)
    } else {
        None
    }
}

/// Whether the frame at a position is the first of its path: where it has the path of the one before it, that is not so.
fn is_first(frames: &[Frame], at: usize) -> bool
    requires order { AreByPath frames.now }
    requires at { at < length frames.now }
    ensures { IsTrue result → IsFirstOfPath frames.now at }
{
    at == 0 || !frames[at - 1].path().is_same(frames[at].path())
}

/// Whether the frame of a path stands at a position.
fn stands_at(frames: &[Frame], at: usize, path: &Path) -> bool
    requires { AreByPath frames.now }
    ensures { IsTrue result → IsPositionOf frames.now path.now (Some at) }
{
    if at >= frames.len() {
        return false;
    }
    if !frames[at].path().is_same(path) {
        return false;
    }
    is_first(frames, at)
}

/// Whether a path is that of the child of another with this number. No path is made for it.
fn is_child(path: &Path, maker: &Path, number: u32) -> bool
    ensures { IsTrue result → path.now ≡ child_path maker.now number }
{
    let children = path.children();
    let depth = maker.children().len();
    if children.len() != depth + 1 {
        return false;
    }
    let Some(last) = children.get(depth) else {
        return false;
    };
    if *last != number {
        return false;
    }
    path.is_under(maker)
}

/// Whether the frame of the child with this number stands at a position.
fn child_stands_at(frames: &[Frame], at: usize, maker: &Path, number: u32) -> bool
    requires { AreByPath frames.now }
    ensures { IsTrue result → IsPositionOf frames.now (child_path maker.now number) (Some at) }
{
    if at >= frames.len() {
        return false;
    }
    if !is_child(frames[at].path(), maker, number) {
        return false;
    }
    is_first(frames, at)
}

/// Where the frame of a task is likely, whose path has so many numbers of children, which made so many children before, and whose
/// frames, with those below it, end in front of `behind`: in front of the last of them stand one for each task on the way down
/// to that, and one for each child that was made before one of these, if no such child has children. Any answer will do.
fn likely_position(frames: &[Frame], depth: usize, made: u32, behind: usize) -> usize {
    let last = behind.wrapping_sub(1);
    let Some(frame) = frames.get(last) else {
        return last;
    };
    let numbers = frame.path().children();
    if numbers.len() <= depth {
        return last;
    }
    let mut position = last.wrapping_add(made as usize);
    for at in depth..numbers.len() {
        position = position.wrapping_sub(numbers[at] as usize + 1);
    }
    position
}

/// The position of the frame of a ready task, whose frames end in front of `behind`.
fn position_of_root(frames: &[Frame], root: &Root, behind: usize) -> Option<usize>
    requires { AreByPath frames.now }
    ensures { IsPositionOf frames.now root.now.path result }
{
    let path = root.path.get();
    let likely = likely_position(frames, path.children().len(), root.made, behind);
    if stands_at(frames, likely, path) {
        return Some(likely);
    }
    find(frames, path)
}

/// The position of the frame of a child, whose frames end in front of `behind`: behind that of its maker, which stands at
/// `position`, or where it is likely.
fn position_of_child(
    alloc: Global,
    frames: &[Frame],
    position: usize,
    maker: &Path,
    number: u32,
    behind: usize,
) -> Result<Option<usize>, OutOfMemory>
    requires order { AreByPath frames.now }
    requires room { length (children_of maker.now) < child_limit }
    ensures { IfOk result (IsPositionOf frames.now (child_path maker.now number)) }
{
    let next = position.wrapping_add(1);
    if child_stands_at(frames, next, maker, number) {
        return Ok(Some(next));
    }
    let likely = likely_position(frames, maker.children().len() + 1, 0, behind);
    if child_stands_at(frames, likely, maker, number) {
        return Ok(Some(likely));
    }
    let Some(child) = maker.child(alloc, number)? else {
        return Ok(None);
    };
    Ok(find(frames, &child))
}

/// Gathers the effects of the task of a frame, which stands at `position`, with those of the children that it makes, whose
/// frames end in front of `behind`. It made so many children before.
#[cycle(gather)]
#[allow(clippy::too_many_arguments)]
fn gather_task(
    alloc: Global,
    frames: &[Frame],
    position: usize,
    frame: &Frame,
    number: u32,
    behind: usize,
    cells: &Cells,
    gathering: &mut Gathering,
) -> Result<(), OutOfMemory>
    requires order { AreByPath frames.now }
    requires few { HaveFewItems frames.now }
    requires found { frame_at frames.now frame.now.path ≡ Some frame.now }
    requires number { number ≤ step_limit }
    requires may { MayGather cells.now
        (rebuilt frames.now (room_of frame.now.path) number frame.now.path) gathering.old }
    ensures { OnOk result
        (AreGathered cells.now
        (rebuilt frames.now (room_of frame.now.path) number frame.now.path) gathering.old gathering.new) }
{
    let items = frame.items().as_slice();
    gather_items(
        alloc,
        frames,
        position,
        frame.path(),
        number,
        items,
        behind,
        cells,
        gathering,
    )
}

/// Gathers the items of a task, where the first child has this number.
#[cycle(gather)]
#[allow(clippy::too_many_arguments)]
fn gather_items(
    alloc: Global,
    frames: &[Frame],
    position: usize,
    path: &Path,
    number: u32,
    items: &[Item],
    behind: usize,
    cells: &Cells,
    gathering: &mut Gathering,
) -> Result<(), OutOfMemory>
    requires order { AreByPath frames.now }
    requires few { HaveFewItems frames.now }
    requires few_here { length items.now ≤ step_limit }
    requires number { number ≤ step_limit }
    requires may { MayGather cells.now
        (parts_by (parts_below frames.now (room_of path.now)) path.now number items.now) gathering.old }
    ensures { OnOk result
        (AreGathered cells.now
        (parts_by (parts_below frames.now (room_of path.now)) path.now number items.now) gathering.old gathering.new) }
{
    effects_are_gathered();
    let entered_at = gathering.clock();
    let mut behind = behind;
    let mut next = number + children_among(items);
    let mut left = items.len();
    while left > 0 {
        left -= 1;
        let item = &items[left];
        next -= children_in(item);
        behind = gather_item(
            alloc, frames, position, path, next, item, behind, cells, entered_at, gathering,
        )?;
    }
    Ok(())
}

/// Gathers an item of a task that was entered when the clock showed `entered_at`, where the next child has this number. Answers
/// where the frames of those in front of it end.
#[cycle(gather)]
#[allow(clippy::too_many_arguments)]
fn gather_item(
    alloc: Global,
    frames: &[Frame],
    position: usize,
    path: &Path,
    number: u32,
    item: &Item,
    behind: usize,
    cells: &Cells,
    entered_at: u64,
    gathering: &mut Gathering,
) -> Result<usize, OutOfMemory>
    requires order { AreByPath frames.now }
    requires few { HaveFewItems frames.now }
    requires may { MayGather cells.now
        (part_by (parts_below frames.now (room_of path.now)) path.now number item.now ∷ []) gathering.old }
    ensures { OnOk result ((parts : List Part) (before : Gathered) → before.clock ≡ entered_at →
        AreGathered cells.now parts before gathering.old →
        AreGathered cells.now
        (part_by (parts_below frames.now (room_of path.now)) path.now number item.now ∷ parts) before gathering.new) }
{
    effects_are_gathered();
    match item {
        Item::Emit { cell, effect } => {
            gathering.gather(*cell, effect, entered_at)?;
            Ok(behind)
        }
        Item::Child { .. } => gather_child(
            alloc, frames, position, path, number, behind, cells, gathering,
        ),
    }
}

/// Gathers the effects of the child of a path with a number; one that is too deep has none. Answers where its frames begin.
#[cycle(gather)]
#[allow(clippy::too_many_arguments)]
fn gather_child(
    alloc: Global,
    frames: &[Frame],
    position: usize,
    path: &Path,
    number: u32,
    behind: usize,
    cells: &Cells,
    gathering: &mut Gathering,
) -> Result<usize, OutOfMemory>
    requires order { AreByPath frames.now }
    requires few { HaveFewItems frames.now }
    requires may { MayGather cells.now
        (parts_below frames.now (room_of path.now) (child_path path.now number)) gathering.old }
    ensures { OnOk result
        (AreGathered cells.now
        (parts_below frames.now (room_of path.now)
        (child_path path.now number)) gathering.old gathering.new) }
{
    effects_are_gathered();
    if path.children().len() >= CHILD_LIMIT {
        return Ok(behind);
    }
    let Some(at) = position_of_child(alloc, frames, position, path, number, behind)? else {
        return Ok(behind);
    };
    gather_task(alloc, frames, at, &frames[at], 0, behind, cells, gathering)?;
    Ok(at)
}

/// Gathers the effects of a ready task, whose frames end in front of `behind`. Answers where they begin.
fn gather_root(
    alloc: Global,
    frames: &[Frame],
    root: &Root,
    behind: usize,
    cells: &Cells,
    gathering: &mut Gathering,
) -> Result<usize, OutOfMemory>
    requires order { AreByPath frames.now }
    requires few { HaveFewItems frames.now }
    requires made { root.now.made ≤ step_limit }
    requires may { MayGather cells.now
        (rebuilt frames.now (room_of root.now.path) root.now.made root.now.path) gathering.old }
    ensures { OnOk result
        (AreGathered cells.now
        (rebuilt frames.now (room_of root.now.path) root.now.made root.now.path) gathering.old gathering.new) }
{
    effects_are_gathered();
    let Some(at) = position_of_root(frames, root, behind) else {
        return Ok(behind);
    };
    gather_task(
        alloc,
        frames,
        at,
        &frames[at],
        root.made,
        behind,
        cells,
        gathering,
    )?;
    Ok(at)
}

/// Gathers the effects of the ready tasks of a batch, which are concurrent.
pub(super) fn gather_all(
    alloc: Global,
    frames: &[Frame],
    roots: &[Root],
    cells: &Cells,
    gathering: &mut Gathering,
) -> Result<(), OutOfMemory>
    requires order { AreByPath frames.now }
    requires few { HaveFewItems frames.now }
    requires made { EachOf (λ root. root.made ≤ step_limit) roots.now }
    requires may { MayGather cells.now (rebuilt_roots frames.now roots.now) gathering.old }
    ensures { OnOk result
        (AreGathered cells.now (rebuilt_roots frames.now roots.now) gathering.old gathering.new) }
{
    effects_are_gathered();
    let mut behind = frames.len();
    let mut left = roots.len();
    while left > 0 {
        left -= 1;
        behind = gather_root(alloc, frames, &roots[left], behind, cells, gathering)?;
    }
    Ok(())
}
