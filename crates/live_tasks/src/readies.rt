//! The ready tasks, in order of path.

ghost use Rattle.std.specs.Prelude.{◌≡◌, ◌++◌, [], true, IfOk, OnOk};
ghost use Rattle.std.specs.List.Sorted.{IsPermutation};
ghost use Rattle.live_tasks.specs.Sorting.{RiseByPath};
ghost use Rattle.run_data.specs.Tasks.{ready_jobs};
ghost use Rattle.run_data.specs.laws.OrderedTables.{IsOrderedTable};
ghost use Rattle.live_tasks.specs.Readies.{ReadyInOrder, with_ready, ready_tasks, numbers_of_tasks, slot_entry, entries_at, is_slot_before};
ghost use Rattle.live_tasks.specs.Slots.{slot_at};
ghost use Rattle.live_tasks.specs.Reached.{LivePartGoesOn};
ghost use Rattle.live_tasks.specs.InStep.{StandForThemselves};
ghost use Rattle.live_tasks.specs.Changes.{ChangesKeepLive};
ghost use Rattle.live_tasks.specs.AnyOrder.{SameInAnyOrder, OfTasksInAnyOrder};

use crate::ready_jobs::ReadyJobs;
use crate::slots::Slot;
use aerie_base::{OutOfMemory, Path, Shared};
use effect_cells::Cells;
use run_data::laws::{
    frames_of_batches_are_of_tasks, reached_states_are_of_the_model, reached_states_are_quiet,
};
use slab::Slab;
use std::alloc::Global;

/// A ready task: its path and its number.
#[derive(Drop)]
pub struct ReadyTask {
    pub path: Shared<Path>,
    pub number: usize,
}

/// Puts the task of a number behind others, if there is one.
fn push_ready(
    ready: &mut Vec<ReadyTask>,
    slots: &Slab<Slot>,
    number: usize,
) -> Result<(), OutOfMemory>
    ensures { OnOk result (
        ready.new.items ≡ ready.old.items ++ with_ready number (slot_at slots.now.slots number) []) }
{
    if let Some(slot) = slots.get(number) {
        let path = slot.path.share()?;
        ready.push(ReadyTask { path, number })?;
    }
    Ok(())
}

/// The tasks of some numbers, each with its path.
pub fn of_numbers(
    alloc: Global,
    slots: &Slab<Slot>,
    numbers: &[usize],
) -> Result<Vec<ReadyTask>, OutOfMemory>
    ensures { IfOk result (λ ready. ready.items ≡ ready_tasks slots.now.slots numbers.now) }
{
    let mut ready = Vec::new(alloc);
    for number in numbers {
        push_ready(&mut ready, slots, *number)?;
    }
    Ok(ready)
}

/// The same in order of path, once a batch.
pub fn in_order(ready: Vec<ReadyTask>) -> Result<Vec<ReadyTask>, OutOfMemory>
    ensures same { IfOk result (λ sorted. IsPermutation ready.items sorted.items) }
    ensures sorted { IfOk result (λ sorted. RiseByPath sorted.items) }
{
    let mut sorted = ready;
    sorted.sort_by(|one, other| one.path.get().cmp(other.path.get()))?;
    Ok(sorted)
}

/// The numbers of some tasks.
pub fn numbers_of(alloc: Global, ready: &[ReadyTask]) -> Result<Vec<usize>, OutOfMemory>
    ensures { IfOk result (λ numbers. numbers.items ≡ numbers_of_tasks ready.now) }
{
    let mut numbers = Vec::with_capacity(alloc, ready.len())?;
    for one in ready {
        numbers.push(one.number)?;
    }
    Ok(numbers)
}

/// Whether the task of a number comes before that of another.
fn is_before(slots: &Slab<Slot>, number: usize, other: usize) -> bool
    ensures { result ≡ is_slot_before (slot_at slots.now.slots number) (slot_at slots.now.slots other) }
{
    let Some(slot) = slots.get(number) else {
        return false;
    };
    match slots.get(other) {
        Some(second) => slot.path.get() < second.path.get(),
        None => false,
    }
}

/// Whether the tasks of some numbers are in order of path. Each is compared with the next one.
pub fn rise(slots: &Slab<Slot>, numbers: &[usize]) -> bool
    ensures { result ≡ true → IsOrderedTable (entries_at slots.now.slots numbers.now) }
{
    for at in 1..numbers.len() {
        if !is_before(slots, numbers[at - 1], numbers[at]) {
            return false;
        }
    }
    true
}

/// Puts the job of the task of a number behind others, if it is ready.
fn push_job(
    slots: &Slab<Slot>,
    number: usize,
    view: &Shared<Cells>,
    jobs: &mut ReadyJobs,
) -> Result<(), OutOfMemory>
    ensures { OnOk result (
        jobs.new ≡ jobs.old ++ ready_jobs view.now (slot_entry (slot_at slots.now.slots number) [])) }
{
    if let Some(slot) = slots.get(number) {
        slot.task.push_job(&slot.path, view, jobs)?;
    }
    Ok(())
}

/// In place of other jobs, those of the ready ones among the tasks of some numbers, each with this view of the cells.
pub fn put_jobs(
    slots: &Slab<Slot>,
    numbers: &[usize],
    view: &Shared<Cells>,
    jobs: &mut ReadyJobs,
) -> Result<(), OutOfMemory>
    ensures { OnOk result (jobs.new ≡ ready_jobs view.now (entries_at slots.now.slots numbers.now)) }
{
    jobs.clear();
    for number in numbers {
        push_job(slots, *number, view, jobs)?;
    }
    Ok(())
}

/// The jobs of the ready tasks in order of path are those of the table.
pub fn ready_tasks_are_in_order()
    ensures { ReadyInOrder }
{}

/// The live part of a reached state goes on by batches as the state does.
pub fn live_tasks_live_on()
    ensures { LivePartGoesOn }
{
    reached_states_are_of_the_model();
    frames_of_batches_are_of_tasks();
    reached_states_are_quiet();
}

/// Live tasks are the live part of their table.
pub fn live_tasks_are_live()
    ensures { StandForThemselves }
{}

/// Live tasks stay live where each is changed by itself, as when delays end or conditions hold.
pub fn changes_keep_tasks_live()
    ensures { ChangesKeepLive }
{}

/// The frames of a batch may be taken as they were made: they need not be in order of path.
pub fn frames_are_taken_in_any_order()
    ensures same { SameInAnyOrder }
    ensures of_tasks { OfTasksInAnyOrder }
{}
