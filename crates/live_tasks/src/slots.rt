//! The tasks that are live, by number.

ghost use Rattle.std.specs.Prelude.{◌≡◌, ◌-◌, ◌+◌, ◌<◌, ◌^◌, true, false, None, Some, IfOk, OnOk};
ghost use Rattle.slab.specs.Slab.{get, slab_len};
ghost use Rattle.run_data.specs.Endings.{is_open};
ghost use Rattle.run_data.specs.Tasks.{children_in, rested};
ghost use Rattle.live_tasks.specs.Phases.{after_wait};
ghost use Rattle.live_tasks.specs.Slots.{slot_at, Becomes, ChangesOne};
ghost use Rattle.live_tasks.specs.Endings.{slot_has_ended, slot_after_child_end, slot_when_due, slot_after_step, slot_with_child, StepsOne, MayMake, IsFirst};
ghost use Rattle.run_data.specs.laws.LateDifferences.{is_of_differing};
ghost use Rattle.parting.specs.IdRanges.{is_id_between};
ghost use Rattle.live_tasks.specs.LeftOut.{is_slot_of, common_slot, AreCommon};
ghost use Rattle.live_tasks.specs.Changes.{slot_changed};
ghost use Rattle.live_tasks.specs.Listing.{is_ready_slot, delay_of_slot};

use crate::phases::{LiveTask, count_children};
use aerie_base::{Edge, OutOfMemory, Path, Shared, Time, Value};
use run_data::Frame;
use slab::Slab;
use std::alloc::{AllocError, Global};

/// A live task: its path, what it does, the number of its parent if it has one, its own number among that one's children, and how
/// many of its own children are live.
#[derive(Drop)]
pub struct Slot {
    pub path: Shared<Path>,
    pub task: LiveTask,
    pub parent: Option<usize>,
    pub own: u32,
    pub live_below: usize,
}

impl Clone for Slot {
    ghost is_clone = { λ slot copy. copy ≡ slot };

    fn clone(&self) -> Result<Slot, AllocError> {
        match self.copy() {
            Ok(slot) => Ok(slot),
            Err(_) => Err(AllocError),
        }
    }
}

impl Slot {
    /// The same once more.
    fn copy(&self) -> Result<Slot, OutOfMemory>
        ensures { IfOk result (λ copy. copy ≡ self.now) }
    {
        let path = self.path.share()?;
        let task = self.task.copy()?;
        Ok(Slot {
            path,
            task,
            parent: self.parent,
            own: self.own,
            live_below: self.live_below,
        })
    }

    /// Whether the task has ended: its body is over and no child is live.
    pub fn has_ended(&self) -> bool
        ensures { result ≡ slot_has_ended (Some self.now) }
    {
        !self.task.is_open() && self.live_below == 0
    }

    /// A child with a number has ended, with this result.
    pub fn tell(&mut self, alloc: Global, own: u32, value: Option<Value>) -> Result<(), OutOfMemory>
        ensures { OnOk result (self.new ≡ slot_after_child_end own value self.old) }
    {
        self.live_below = self.live_below.saturating_sub(1);
        self.task.child_ended(alloc, own, value)?;
        Ok(())
    }

    /// The task after a frame of it.
    pub fn step(&mut self, alloc: Global, now: Time, frame: &Frame) -> Result<(), OutOfMemory>
        requires { self.old.task.made + children_in frame.now.items < 2 ^ 32 }
        ensures { OnOk result (self.new ≡ slot_after_step now frame.now self.old) }
    {
        let made = self.task.made() + count_children(frame.items());
        self.task = LiveTask::after(alloc, now, frame.status(), made)?;
        Ok(())
    }

    /// A child of a task, after its first frame.
    pub fn first(
        alloc: Global,
        now: Time,
        parent: usize,
        own: u32,
        frame: &Frame,
    ) -> Result<Slot, OutOfMemory>
        requires { children_in frame.now.items < 2 ^ 32 }
        ensures { IfOk result (IsFirst now frame.now parent own) }
    {
        let made = count_children(frame.items());
        let task = LiveTask::after(alloc, now, frame.status(), made)?;
        let path = frame.shared_path().share()?;
        Ok(Slot {
            path,
            task,
            parent: Some(parent),
            own,
            live_below: 0,
        })
    }

    /// One child more is live. (That there are fewer than 2^64 is not worth a proof.)
    pub fn count(&mut self) -> Result<(), OutOfMemory>
        ensures { OnOk result (self.new ≡ slot_with_child self.old) }
    {
        if self.live_below == usize::MAX {
            return Err(OutOfMemory);
        }
        self.live_below += 1;
        Ok(())
    }

    /// Where its delay ends at a time, it goes on.
    pub fn rest(&mut self, now: Time)
        ensures { self.new ≡ slot_changed (rested now) self.old }
    {
        self.task.rest(now);
    }

    /// Where it waits for a condition, it goes on.
    pub fn wake(&mut self)
        ensures { self.new ≡ slot_changed after_wait self.old }
    {
        self.task.wake();
    }

    /// An edge of a directive has come.
    pub fn fall_due(&mut self, now: Time, to: u32, edge: Edge)
        ensures { self.new ≡ slot_when_due now to edge self.old }
    {
        self.task.fall_due(now, to, edge);
    }
}

/// Whether the task of a number has ended.
pub fn has_ended(slots: &Slab<Slot>, number: usize) -> bool
    ensures { result ≡ slot_has_ended (slot_at slots.now.slots number) }
{
    match slots.get(number) {
        Some(slot) => slot.has_ended(),
        None => false,
    }
}

/// Whether the task of a number is ready.
pub fn is_ready(slots: &Slab<Slot>, number: usize) -> bool
    ensures { result ≡ is_ready_slot (slot_at slots.now.slots number) }
{
    match slots.get(number) {
        Some(slot) => slot.task.is_ready(),
        None => false,
    }
}

/// When the delay of the task of a number ends.
pub fn delay(slots: &Slab<Slot>, number: usize) -> Option<u64>
    ensures { result ≡ delay_of_slot (slot_at slots.now.slots number) }
{
    match slots.get(number) {
        Some(slot) => slot.task.delay(),
        None => None,
    }
}

/// Takes the task of a number out.
pub fn take_out(slots: &mut Slab<Slot>, number: usize) -> Slot
    requires { slot_has_ended (slot_at slots.old.slots number) ≡ true }
    ensures was { slot_at slots.old.slots number ≡ Some result }
    ensures is { Becomes slots.old.slots slots.new.slots number None }
    ensures fewer { slab_len slots.new + 1 ≡ slab_len slots.old }
{
    slots.remove(number)
}

/// Tells the task of a number that a child of it has ended.
pub fn tell(
    slots: &mut Slab<Slot>,
    alloc: Global,
    number: usize,
    own: u32,
    value: Option<Value>,
) -> Result<(), OutOfMemory>
    ensures is { OnOk result (
        ChangesOne (slot_after_child_end own value) slots.old.slots slots.new.slots number) }
    ensures length { slab_len slots.new ≡ slab_len slots.old }
{
    if let Some(slot) = slots.get_mut(number) {
        slot.tell(alloc, own, value)?;
    }
    Ok(())
}

/// Where the delay of the task of a number ends at a time, it goes on.
pub fn rest(slots: &mut Slab<Slot>, number: usize, now: Time)
    ensures is { ChangesOne (slot_changed (rested now)) slots.old.slots slots.new.slots number }
    ensures length { slab_len slots.new ≡ slab_len slots.old }
{
    if let Some(slot) = slots.get_mut(number) {
        slot.rest(now);
    }
}

/// The task of a number goes on, where it waits for a condition.
pub fn wake(slots: &mut Slab<Slot>, number: usize)
    ensures is { ChangesOne (slot_changed after_wait) slots.old.slots slots.new.slots number }
    ensures length { slab_len slots.new ≡ slab_len slots.old }
{
    if let Some(slot) = slots.get_mut(number) {
        slot.wake();
    }
}

/// An edge of a directive has come, to which the task of a number may be anchored.
pub fn fall_due(slots: &mut Slab<Slot>, number: usize, now: Time, to: u32, edge: Edge)
    ensures is { ChangesOne (slot_when_due now to edge) slots.old.slots slots.new.slots number }
    ensures length { slab_len slots.new ≡ slab_len slots.old }
{
    if let Some(slot) = slots.get_mut(number) {
        slot.fall_due(now, to, edge);
    }
}

/// The task of a number after a frame of it.
pub fn step(
    slots: &mut Slab<Slot>,
    alloc: Global,
    now: Time,
    number: usize,
    frame: &Frame,
) -> Result<(), OutOfMemory>
    requires { MayMake slots.old.slots number (children_in frame.now.items) }
    ensures { OnOk result (StepsOne now frame.now slots.old.slots slots.new.slots number) }
{
    if let Some(slot) = slots.get_mut(number) {
        slot.step(alloc, now, frame)?;
    }
    Ok(())
}

/// Puts a task where none is.
pub fn insert(slots: &mut Slab<Slot>, slot: Slot) -> Result<usize, OutOfMemory>
    ensures vacant { IfOk result (λ number. slot_at slots.old.slots number ≡ None) }
    ensures is { IfOk result (λ number. Becomes slots.old.slots slots.new.slots number (Some slot)) }
{
    slots.reserve(1)?;
    Ok(slots.insert_reserved(slot))
}

/// One child more of the task of a number is live.
pub fn count(slots: &mut Slab<Slot>, number: usize) -> Result<(), OutOfMemory>
    ensures { OnOk result (ChangesOne slot_with_child slots.old.slots slots.new.slots number) }
{
    if let Some(slot) = slots.get_mut(number) {
        slot.count()?;
    }
    Ok(())
}

/// Whether an id is in a range: not below its first, and below its end.
pub fn is_in(id: u32, first: u32, past: u64) -> bool
    ensures { result ≡ is_id_between first past id }
{
    id >= first && u64::from(id) < past
}

/// Whether a path is that of a directive whose id is in a range, or of a task under it.
fn is_of_range(path: &Path, first: u32, past: u64) -> bool
    ensures { result ≡ is_of_differing (is_id_between first past) path.now }
{
    // It says what the parts of a path are.
    let _ = path.children();
    !path.daemon() && is_in(path.id(), first, past)
}

/// Whether the task of a number is there, and of a directive whose id is in a range or under it.
fn is_in_range(slots: &Slab<Slot>, number: usize, first: u32, past: u64) -> bool
    ensures { result ≡ is_slot_of (is_id_between first past) (slot_at slots.now.slots number) }
{
    match slots.get(number) {
        Some(slot) => is_of_range(slot.path.get(), first, past),
        None => false,
    }
}

/// Takes the task of a number out, if it is of a directive whose id is in a range or under it.
fn leave_one(slots: &mut Slab<Slot>, number: usize, first: u32, past: u64)
    ensures { Becomes slots.old.slots slots.new.slots number
        (common_slot (is_id_between first past) (slot_at slots.old.slots number)) }
{
    if is_in_range(slots, number, first, past) {
        slots.try_remove(number);
    }
}

/// Takes the tasks out that are of a directive whose id is in a range, or under it.
pub fn leave_out(slots: &mut Slab<Slot>, first: u32, past: u64)
    ensures { AreCommon (is_id_between first past) slots.old.slots slots.new.slots }
{
    for number in 0..slots.capacity() {
        leave_one(slots, number, first, past);
    }
}
