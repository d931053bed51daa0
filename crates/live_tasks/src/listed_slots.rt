//! The live tasks by number, with lists of those that are ready and of the ends of delays.

ghost use Rattle.std.specs.Prelude.{◌≡◌, ◌<◌, ◌+◌, ℕ, [], true, false, None, Some, length, IfOk, OnOk};
ghost use Rattle.std.specs.BinaryHeap.{heap_items};
ghost use Rattle.slab.specs.Slab.{slab_len};
ghost use Rattle.run_data.specs.Tasks.{children_in, rested};
ghost use Rattle.live_tasks.specs.Slots.{slot_at, Becomes, ChangesOne, IsForest};
ghost use Rattle.live_tasks.specs.Readies.{AreReadyTasks, AreReadyNumbers};
ghost use Rattle.live_tasks.specs.Endings.{slot_has_ended, slot_after_child_end, slot_when_due, slot_with_child, StepsOne, MayMake};
ghost use Rattle.parting.specs.IdRanges.{is_id_between};
ghost use Rattle.live_tasks.specs.LeftOut.{AreCommon, AreIdle};
ghost use Rattle.live_tasks.specs.Changes.{slot_changed, AreChanged};
ghost use Rattle.live_tasks.specs.Listing.{is_ready_slot, is_newly_ready, listed_if, ready_among, newly_delayed, has_delay, HasDelayToo, HasDelayNoMore, IsFirstEnd, StaysHeap, AreDelays};
ghost use Rattle.live_tasks.specs.LeastTimes.{IsNoneBefore};
ghost use Rattle.live_tasks.specs.ListedSlots.{ListsExactly, ListsAll, KeepsAll, KeepsExactly, KeepsWaits, AreWaitsKeptFor, slot_in};

use crate::delays::{copy_delays, end_first, first_due, list_delay, no_delays};
use crate::readies::{ReadyTask, in_order, numbers_of, of_numbers, rise};
use crate::slots::{
    Slot, count, delay, fall_due, insert, is_ready, leave_out, rest, step, take_out, tell,
};
use crate::waits::{Waits, begin_wait};
use aerie_base::{Edge, OutOfMemory, Time, Value};
use run_data::Frame;
use slab::Slab;
use std::alloc::Global;
use std::cmp::Reverse;
use std::collections::BinaryHeap;

/// The live tasks by number; the numbers of those that are ready, in no order; the ends of delays in microseconds, each with
/// the number of its task; and what is kept of those that wait for conditions.
#[derive(Drop)]
pub struct ListedSlots {
    pub slots: Slab<Slot>,
    pub readies: Vec<usize>,
    pub delays: BinaryHeap<Reverse<(u64, usize)>>,
    pub waits: Waits,
}

/// Puts a number behind others, if it is to be listed.
fn push_if(numbers: &mut Vec<usize>, number: usize, listed: bool) -> Result<(), OutOfMemory>
    ensures { OnOk result (numbers.new.items ≡ listed_if listed number numbers.old.items) }
{
    if listed {
        numbers.push(number)?;
    }
    Ok(())
}

/// The ends of the delays of all tasks.
fn delays_of(
    alloc: Global,
    slots: &Slab<Slot>,
) -> Result<BinaryHeap<Reverse<(u64, usize)>>, OutOfMemory>
    ensures { IfOk result (λ delays. AreDelays slots.now.slots (heap_items delays)) }
{
    let mut delays = no_delays(alloc);
    for number in 0..slots.capacity() {
        let end = delay(slots, number);
        list_delay(&mut delays, number, end)?;
    }
    Ok(delays)
}

/// Of some numbers those of ready tasks are left.
fn keep_ready(slots: &Slab<Slot>, numbers: &mut Vec<usize>)
    ensures { numbers.new.items ≡ ready_among slots.now.slots numbers.old.items }
{
    numbers.retain(|number| is_ready(slots, *number));
}

impl ListedSlots {
    /// No task; so many cells may be waited for.
    pub fn new(alloc: Global, cells: usize) -> Result<ListedSlots, OutOfMemory>
        ensures slots { IfOk result (λ tables. tables.slots.slots ≡ []) }
        ensures listed { IfOk result ListsExactly }
        ensures kept { IfOk result (AreWaitsKeptFor cells) }
    {
        let waits = Waits::new(alloc, cells)?;
        let slots = Slab::new(alloc);
        Ok(ListedSlots {
            slots,
            readies: Vec::new(alloc),
            delays: no_delays(alloc),
            waits,
        })
    }

    /// The same once more.
    pub fn copy(&self, alloc: Global) -> Result<ListedSlots, OutOfMemory>
        requires { ListsExactly self.now }
        ensures slots { IfOk result (λ copy. copy.slots.slots ≡ self.now.slots.slots) }
        ensures listed { IfOk result ListsExactly }
        ensures waits { IfOk result (KeepsWaits self.now) }
    {
        let slots = self.slots.clone()?;
        let readies = Vec::from_slice(alloc, self.readies.as_slice())?;
        let delays = copy_delays(alloc, &self.delays)?;
        let waits = self.waits.copy(alloc)?;
        Ok(ListedSlots {
            slots,
            readies,
            delays,
            waits,
        })
    }

    /// Takes the tasks of the directives of a range of ids out, none of whom is ready or waits.
    pub fn leave_out(&mut self, alloc: Global, first: u32, past: u64) -> Result<(), OutOfMemory>
        requires listed { ListsExactly self.old }
        requires idle { AreIdle (is_id_between first past) self.old.slots.slots }
        ensures is { OnOk result (
            AreCommon (is_id_between first past) self.old.slots.slots self.new.slots.slots) }
        ensures listed { OnOk result (ListsExactly self.new) }
        ensures waits { OnOk result (KeepsWaits self.old self.new) }
    {
        leave_out(&mut self.slots, first, past);
        let delays = delays_of(alloc, &self.slots)?;
        self.delays = delays;
        Ok(())
    }

    /// Lists the task of a number as it is now; it may have been listed as ready before, and the end of its delay too.
    fn list(&mut self, number: usize, was_ready: bool, was_delayed: bool) -> Result<(), OutOfMemory>
        ensures slots { self.new.slots ≡ self.old.slots }
        ensures readies { OnOk result (self.new.readies.items
            ≡ listed_if (is_newly_ready was_ready (slot_in self.old number)) number self.old.readies.items) }
        ensures delays { OnOk result (
            HasDelayToo number (newly_delayed was_delayed (slot_in self.old number))
            (heap_items self.old.delays) (heap_items self.new.delays)) }
        ensures heap { OnOk result (
            StaysHeap number (newly_delayed was_delayed (slot_in self.old number))
            (heap_items self.old.delays) (heap_items self.new.delays)) }
        ensures waits { self.new.waits ≡ self.old.waits }
    {
        let is_new = is_ready(&self.slots, number) && !was_ready;
        push_if(&mut self.readies, number, is_new)?;
        if !was_delayed {
            let end = delay(&self.slots, number);
            list_delay(&mut self.delays, number, end)?;
        }
        Ok(())
    }

    /// The task of a number, which was ready, after a frame of it. It stays on the list of ready ones.
    pub fn step(
        &mut self,
        alloc: Global,
        now: Time,
        number: usize,
        frame: &Frame,
    ) -> Result<(), OutOfMemory>
        requires few { MayMake self.old.slots.slots number (children_in frame.now.items) }
        requires ready { is_ready_slot (slot_at self.old.slots.slots number) ≡ true }
        ensures is { OnOk result (StepsOne now frame.now self.old.slots.slots self.new.slots.slots number) }
        ensures listed { OnOk result (KeepsAll self.old self.new) }
        ensures waits { OnOk result (KeepsWaits self.old self.new) }
    {
        step(&mut self.slots, alloc, now, number, frame)?;
        self.list(number, true, false)?;
        begin_wait(&mut self.waits, &self.slots, number)?;
        Ok(())
    }

    /// Puts a task where none is.
    pub fn insert(&mut self, slot: Slot) -> Result<usize, OutOfMemory>
        ensures vacant { IfOk result (λ number. slot_at self.old.slots.slots number ≡ None) }
        ensures is { IfOk result (λ number.
            Becomes self.old.slots.slots self.new.slots.slots number (Some slot)) }
        ensures listed { OnOk result (KeepsAll self.old self.new) }
        ensures waits { OnOk result (KeepsWaits self.old self.new) }
    {
        let number = insert(&mut self.slots, slot)?;
        self.list(number, false, false)?;
        begin_wait(&mut self.waits, &self.slots, number)?;
        Ok(number)
    }

    /// One child more of the task of a number is live.
    pub fn count(&mut self, number: usize) -> Result<(), OutOfMemory>
        ensures is { OnOk result (
            ChangesOne slot_with_child self.old.slots.slots self.new.slots.slots number) }
        ensures listed { OnOk result (KeepsAll self.old self.new) }
        ensures waits { OnOk result (KeepsWaits self.old self.new) }
    {
        count(&mut self.slots, number)?;
        Ok(())
    }

    /// Of the numbers on the list of ready ones those are left that are ready still.
    pub fn relist(&mut self)
        ensures slots { self.new.slots ≡ self.old.slots }
        ensures listed { ListsAll self.old → ListsExactly self.new }
        ensures waits { KeepsWaits self.old self.new }
    {
        keep_ready(&self.slots, &mut self.readies);
    }

    /// Takes the task of a number out, which has ended.
    pub fn take_out(&mut self, number: usize) -> Slot
        requires { slot_has_ended (slot_at self.old.slots.slots number) ≡ true }
        ensures was { slot_at self.old.slots.slots number ≡ Some result }
        ensures is { Becomes self.old.slots.slots self.new.slots.slots number None }
        ensures fewer { slab_len self.new.slots + 1 ≡ slab_len self.old.slots }
        ensures listed { KeepsExactly self.old self.new }
        ensures waits { KeepsWaits self.old self.new }
    {
        let ended = take_out(&mut self.slots, number);
        ended
    }

    /// Tells the task of a number that a child of it has ended.
    pub fn tell(
        &mut self,
        alloc: Global,
        number: usize,
        own: u32,
        value: Option<Value>,
    ) -> Result<(), OutOfMemory>
        ensures is { OnOk result (
            ChangesOne (slot_after_child_end own value) self.old.slots.slots self.new.slots.slots number) }
        ensures length { slab_len self.new.slots ≡ slab_len self.old.slots }
        ensures listed { OnOk result (KeepsExactly self.old self.new) }
        ensures waits { OnOk result (KeepsWaits self.old self.new) }
    {
        let was_ready = is_ready(&self.slots, number);
        tell(&mut self.slots, alloc, number, own, value)?;
        // a child's end neither begins nor ends a delay
        self.list(number, was_ready, true)?;
        Ok(())
    }

    /// An edge of a directive has come, to which the task of a number may be anchored.
    pub fn fall_due(
        &mut self,
        number: usize,
        now: Time,
        to: u32,
        edge: Edge,
    ) -> Result<(), OutOfMemory>
        ensures is { OnOk result (
            ChangesOne (slot_when_due now to edge) self.old.slots.slots self.new.slots.slots number) }
        ensures length { slab_len self.new.slots ≡ slab_len self.old.slots }
        ensures listed { OnOk result (KeepsExactly self.old self.new) }
        ensures waits { OnOk result (KeepsWaits self.old self.new) }
    {
        let was_ready = is_ready(&self.slots, number);
        let was_delayed = delay(&self.slots, number).is_some();
        fall_due(&mut self.slots, number, now, to, edge);
        self.list(number, was_ready, was_delayed)?;
        Ok(())
    }

    /// The task of a number, whose delay ends at a time and is the first, goes on.
    fn resume(&mut self, number: usize, now: Time) -> Result<(), OutOfMemory>
        requires due { IsFirstEnd now number (heap_items self.old.delays) }
        requires listed { ListsExactly self.old }
        ensures is { OnOk result (
            ChangesOne (slot_changed (rested now)) self.old.slots.slots self.new.slots.slots number) }
        ensures length { slab_len self.new.slots ≡ slab_len self.old.slots }
        ensures less { HasDelayNoMore number now (heap_items self.old.delays) (heap_items self.new.delays) }
        ensures fewer { length (heap_items self.new.delays) < length (heap_items self.old.delays) }
        ensures listed { OnOk result (ListsExactly self.new) }
        ensures waits { OnOk result (KeepsWaits self.old self.new) }
    {
        rest(&mut self.slots, number, now);
        end_first(&mut self.delays);
        push_if(&mut self.readies, number, true)?;
        Ok(())
    }

    /// All go on whose delay ends at a time; none ends earlier.
    pub fn rest(&mut self, now: Time) -> Result<(), OutOfMemory>
        requires none_before { IsNoneBefore now (has_delay (heap_items self.old.delays)) }
        requires listed { ListsExactly self.old }
        ensures are { OnOk result (AreChanged (rested now) self.old.slots.slots self.new.slots.slots) }
        ensures length { OnOk result (slab_len self.new.slots ≡ slab_len self.old.slots) }
        ensures listed { OnOk result (ListsExactly self.new) }
        ensures waits { OnOk result (KeepsWaits self.old self.new) }
    {
        while let Some(number) = first_due(&self.delays, now) {
            self.resume(number, now)?;
        }
        Ok(())
    }

    /// Whether a task is ready.
    pub fn is_ready(&self) -> bool
        requires { ListsExactly self.now }
        ensures some { result ≡ true → (number : ℕ) × (is_ready_slot (slot_in self.now number) ≡ true) }
        ensures none { result ≡ false → (number : ℕ) → is_ready_slot (slot_in self.now number) ≡ false }
    {
        !self.readies.is_empty()
    }

    /// The ready tasks, in order of path.
    pub fn ready(&self, alloc: Global) -> Result<Vec<ReadyTask>, OutOfMemory>
        requires forest { IsForest self.now.slots.slots }
        requires listed { ListsExactly self.now }
        ensures { IfOk result (λ ready. AreReadyTasks self.now.slots.slots ready.items) }
    {
        let ready = of_numbers(alloc, &self.slots, self.readies.as_slice())?;
        let sorted = in_order(ready)?;
        Ok(sorted)
    }

    /// Puts the list of ready tasks in order of path, where it is not.
    pub fn order(&mut self, alloc: Global) -> Result<(), OutOfMemory>
        requires forest { IsForest self.old.slots.slots }
        requires listed { ListsExactly self.old }
        ensures slots { self.new.slots ≡ self.old.slots }
        ensures order { OnOk result (AreReadyNumbers self.new.slots.slots self.new.readies.items) }
        ensures listed { OnOk result (ListsExactly self.new) }
        ensures waits { OnOk result (KeepsWaits self.old self.new) }
    {
        if rise(&self.slots, self.readies.as_slice()) {
            return Ok(());
        }
        let sorted = self.ready(alloc)?;
        let numbers = numbers_of(alloc, sorted.as_slice())?;
        self.readies = numbers;
        Ok(())
    }
}
