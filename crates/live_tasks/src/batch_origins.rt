//! Where the frames of a batch come from, told by their paths.

ghost use Rattle.std.specs.Prelude.{◌≡◌, ◌↔◌, ◌≤◌, false, Some, OnOk, IsTrue, length};
ghost use Rattle.run_data.specs.laws.BatchFrames.{AreFramesOf};
ghost use Rattle.live_tasks.specs.BatchOrigins.{is_slot_below, HasSlotPath, AreBelow, IsNotBelow, child_origin, IsFoundOrigin};
ghost use Rattle.live_tasks.specs.Endings.{AreLive, AreOrigins};
ghost use Rattle.live_tasks.specs.FrameOrders.{AreByPath};
ghost use Rattle.live_tasks.specs.Readies.{AreReadyNumbers};
ghost use Rattle.live_tasks.specs.Slots.{slot_at, table_of};

use crate::origins::Origin;
use crate::slots::Slot;
use aerie_base::{OutOfMemory, Path};
use run_data::Frame;
use slab::Slab;

/// How many depths there are: a path names up to 64 children.
const DEPTHS: usize = 65;

/// Whether the task of a number comes before a path.
fn is_below(slots: &Slab<Slot>, number: usize, path: &Path) -> bool
    ensures { result ≡ is_slot_below path.now (slot_at slots.now.slots number) }
{
    match slots.get(number) {
        Some(slot) => slot.path.get() < path,
        None => false,
    }
}

/// Whether the task of a number has a path.
fn has_path(slots: &Slab<Slot>, number: usize, path: &Path) -> bool
    ensures { IsTrue result ↔ HasSlotPath path.now (slot_at slots.now.slots number) }
{
    match slots.get(number) {
        Some(slot) => slot.path.get().is_same(path),
        None => false,
    }
}

/// The place, from one on, of the first of some numbers whose task does not come before a path.
fn first_from(slots: &Slab<Slot>, numbers: &[usize], from: usize, path: &Path) -> usize
    requires { from ≤ length numbers.now }
    ensures later { from ≤ result }
    ensures within { result ≤ length numbers.now }
    ensures below { AreBelow slots.now.slots path.now numbers.now from result }
    ensures first { IsNotBelow slots.now.slots path.now numbers.now result }
{
    let mut at = from;
    while at < numbers.len() && is_below(slots, numbers[at], path) {
        at += 1;
    }
    at
}

/// Where the first frame of a child comes from: by depth, `makers` has the place of the last frame of that depth.
fn of_child(path: &Path, makers: &[usize]) -> Origin
    requires { length makers.now ≡ 65 }
    ensures { result ≡ child_origin path.now makers.now }
{
    let children = path.children();
    let depth = children.len().saturating_sub(1);
    let own = match children.get(depth) {
        Some(own) => *own,
        None => 0,
    };
    Origin::Child {
        maker: makers[depth],
        own,
    }
}

/// Where a frame of this path comes from: of the next of the ready tasks, where that has the path, and else of a child.
fn origin_of(
    slots: &Slab<Slot>,
    readies: &[usize],
    next: usize,
    path: &Path,
    makers: &[usize],
) -> Origin
    requires { length makers.now ≡ 65 }
    ensures { IsFoundOrigin slots.now.slots readies.now next path.now makers.now result }
{
    match readies.get(next) {
        Some(number) => {
            if has_path(slots, *number, path) {
                Origin::Ready(*number)
            } else {
                of_child(path, makers)
            }
        }
        None => of_child(path, makers),
    }
}

/// In place of other origins, where the frames of a batch come from. Both the frames and the numbers of the ready tasks are in order
/// of path, so each of them is looked at once. A child stands behind its maker, which is the last frame before it of the depth above.
pub fn put_origins(
    slots: &Slab<Slot>,
    readies: &[usize],
    frames: &[Frame],
    origins: &mut Vec<Origin>,
) -> Result<(), OutOfMemory>
    requires live_ { AreLive (table_of slots.now.slots) slots.now.slots }
    requires ready { AreReadyNumbers slots.now.slots readies.now }
    requires order { AreByPath frames.now }
    requires frames { AreFramesOf (table_of slots.now.slots) frames.now }
    ensures { OnOk result (AreOrigins slots.now.slots frames.now origins.new.items) }
{
    origins.clear();
    let mut makers = [0; DEPTHS];
    let mut next = 0;
    for place in 0..frames.len() {
        let path = frames[place].path();
        next = first_from(slots, readies, next, path);
        origins.push(origin_of(slots, readies, next, path, &makers))?;
        makers[path.children().len()] = place;
    }
    Ok(())
}
