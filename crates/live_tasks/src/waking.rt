//! Waiting tasks wake: their wake times are found, and those go on whose condition holds.

ghost use Rattle.std.specs.Prelude.{◌≡◌, ◌<◌, ◌≤◌, true, OnOk, is_some, option_map};
ghost use Rattle.std.specs.BTreeSet as set;
ghost use Rattle.effect_cells.specs.Cells.{AreInRange};
ghost use Rattle.effect_cells.specs.Reads.{kind_on};
ghost use Rattle.run_data.specs.Tasks.{on_each, woken};
ghost use Rattle.live_tasks.specs.Changes.{slot_changed, AreChanged};
ghost use Rattle.live_tasks.specs.Conditions.{condition_at, wake_for, MayBeSolved};
ghost use Rattle.live_tasks.specs.ListedSlots.{ListsExactly, AreWaitsKept, AreWaitsFound};
ghost use Rattle.live_tasks.specs.Phases.{after_wait};
ghost use Rattle.live_tasks.specs.Slots.{slot_at, Becomes};
ghost use Rattle.live_tasks.specs.InStep.{table_in, IsInStep};
ghost use Rattle.live_tasks.specs.Waits.{IsKept, IsFound, EndsWait};
ghost use Rattle.live_tasks.specs.WakeTimes.{has_wake};
ghost use Rattle.live_tasks.specs.Waking.{AreKept, AreFound, AreSolvable, WakesPass, IsLeastWake};

use crate::listed_slots::ListedSlots;
use crate::phases::micros;
use crate::slots::{Slot, wake};
use crate::tasks::LiveTasks;
use crate::waits::{Waits, condition_of};
use crate::wakes::{first_waking, least_wake};
use aerie_base::{OutOfMemory, Time};
use effect_cells::{Cells, kept_wake_times_stay, waiting_depends_on_cells_read};
use slab::Slab;
use wait_solver::earliest;

/// When the task of a number wakes before the horizon.
fn wake_time(
    slots: &Slab<Slot>,
    number: usize,
    now: Time,
    horizon: Time,
    cells: &Cells,
) -> Option<u64>
    requires horizon { now ≤ horizon }
    requires range { AreInRange cells.now }
    requires waits { MayBeSolved (kind_on cells.now) slots.now.slots }
    ensures { result ≡ wake_for now horizon cells.now (condition_at slots.now.slots number) }
{
    let condition = condition_of(slots, number)?;
    let limit = now.until(horizon);
    let dt = earliest(condition, cells, limit)?;
    Some(micros(now) + micros(dt))
}

/// The wake times of all that are stale are found. It takes a step for each of them.
fn solve_all(
    waits: &mut Waits,
    slots: &Slab<Slot>,
    now: Time,
    horizon: Time,
    cells: &Cells,
) -> Result<(), OutOfMemory>
    requires horizon { now ≤ horizon }
    requires range { AreInRange cells.now }
    requires waits { MayBeSolved (kind_on cells.now) slots.now.slots }
    requires kept { IsKept now horizon cells.now (condition_at slots.now.slots) waits.old }
    ensures { OnOk result (IsFound now horizon cells.now (condition_at slots.now.slots) waits.new) }
{
    while let Some(number) = waits.times.pop_stale() {
        let wake = wake_time(slots, number, now, horizon, cells);
        waits.times.keep(number, wake)?;
    }
    Ok(())
}

impl ListedSlots {
    /// The task of a number, whose wake time is now, goes on.
    fn wake(&mut self, number: usize, now: Time) -> Result<(), OutOfMemory>
        requires due { has_wake self.old.waits.times.wakes now number ≡ true }
        requires waits { is_some (condition_at self.old.slots.slots number) ≡ true }
        requires listed { ListsExactly self.old }
        ensures is { OnOk result (Becomes self.old.slots.slots self.new.slots.slots number
            (option_map (slot_changed after_wait) (slot_at self.old.slots.slots number))) }
        ensures ends { EndsWait number self.old.waits self.new.waits }
        ensures fewer { set.btree_set_len self.new.waits.times.wakes
            < set.btree_set_len self.old.waits.times.wakes }
        ensures listed { OnOk result (ListsExactly self.new) }
    {
        wake(&mut self.slots, number);
        self.waits.times.end(number, now);
        self.readies.push(number)?;
        Ok(())
    }

    /// All go on that wait for a condition which holds. Only those wake times are found anew that are stale.
    pub fn wake_all(&mut self, now: Time, horizon: Time, cells: &Cells) -> Result<(), OutOfMemory>
        requires horizon { now < horizon }
        requires range { AreInRange cells.now }
        requires waits { MayBeSolved (kind_on cells.now) self.old.slots.slots }
        requires listed { ListsExactly self.old }
        requires kept { AreWaitsKept now horizon cells.now self.old }
        ensures are { OnOk result (AreChanged (woken cells.now) self.old.slots.slots self.new.slots.slots) }
        ensures listed { OnOk result (ListsExactly self.new) }
        ensures found { OnOk result (AreWaitsFound now horizon cells.now self.new) }
    {
        waiting_depends_on_cells_read();
        solve_all(&mut self.waits, &self.slots, now, horizon, cells)?;
        while let Some(number) = first_waking(&self.waits.times.wakes, now) {
            self.wake(number, now)?;
        }
        Ok(())
    }
}

impl LiveTasks {
    /// All go on that wait for a condition which holds; the wake times of the others, before the horizon, are found. Only those are
    /// found anew that are stale.
    pub fn wake_all(&mut self, now: Time, horizon: Time, cells: &Cells) -> Result<(), OutOfMemory>
        requires in_step { IsInStep self.old }
        requires horizon { now < horizon }
        requires range { AreInRange cells.now }
        requires waits { AreSolvable (kind_on cells.now) (table_in self.old) }
        requires kept { AreKept now horizon cells.now self.old }
        ensures table { OnOk result (table_in self.new ≡ on_each (woken cells.now) (table_in self.old)) }
        ensures in_step { OnOk result (IsInStep self.new) }
        ensures found { OnOk result (AreFound now horizon cells.now self.new) }
    {
        self.tables.wake_all(now, horizon, cells)?;
        Ok(())
    }

    /// The least time at which a waiting task wakes, where no wake time is stale.
    pub fn next_wake(&self) -> Option<u64>
        requires { IsInStep self.now }
        ensures { IsLeastWake self.now result }
    {
        least_wake(&self.tables.waits.times.wakes)
    }
}

/// As time passes up to the least wake time, the kept ones stay right.
pub fn wakes_pass()
    ensures { WakesPass }
{
    kept_wake_times_stay();
}
