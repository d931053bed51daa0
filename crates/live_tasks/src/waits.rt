//! Waiting tasks by number: when each wakes, and who watches which cell. An entry of a cell may be of a number that waits no
//! more, or is another task by now: it is told by the wait with which it began, and does no harm.

ghost use Rattle.std.specs.Prelude.{◌≡◌, ℕ, ◌∷◌, [], ◌<◌, None, length, IfOk, OnOk};
ghost use Rattle.std.specs.BTreeSet as set;
ghost use Rattle.std.specs.Option.{option_copied};
ghost use Rattle.live_tasks.specs.Conditions.{condition_at};
ghost use Rattle.live_tasks.specs.WakeTimes.{AreWakesOf};
ghost use Rattle.live_tasks.specs.Waits.{wait_of, BeginsWait, BeginsWaitIfAny, IsTouched, KeepsRight};

use crate::slots::Slot;
use crate::wake_times::{WakeTimes, Watcher};
use crate::watchers::{copy_watchers, touch_all, unwatched, watch};
use aerie_base::{Cond, List, OutOfMemory};
use slab::Slab;
use std::alloc::Global;

/// The waits of tasks by number, and by cell those who watch it.
#[derive(Drop)]
pub struct Waits {
    pub times: WakeTimes,
    pub watchers: List<List<Watcher>>,
}

impl Waits {
    /// Nobody waits; there are so many cells.
    pub fn new(alloc: Global, cells: usize) -> Result<Waits, OutOfMemory>
        ensures none { IfOk result (λ waits. (number : ℕ) → wait_of waits number ≡ None) }
        ensures stale { IfOk result (λ waits. waits.times.stale.items ≡ []) }
        ensures times { IfOk result (λ waits. AreWakesOf waits.times) }
        ensures by_cell { IfOk result (λ waits. length waits.watchers ≡ cells) }
    {
        let watchers = unwatched(alloc, cells)?;
        Ok(Waits {
            times: WakeTimes::new(alloc),
            watchers,
        })
    }

    /// The same once more: for the same tasks it is as right.
    pub fn copy(&self, alloc: Global) -> Result<Waits, OutOfMemory>
        ensures { IfOk result (KeepsRight self.now) }
    {
        let times = self.times.copy(alloc)?;
        let watchers = copy_watchers(alloc, &self.watchers)?;
        Ok(Waits { times, watchers })
    }

    /// A number begins to wait for a condition.
    pub fn begin(&mut self, number: usize, condition: &Cond) -> Result<(), OutOfMemory>
        ensures { OnOk result (BeginsWait number condition.now self.old self.new) }
    {
        let since = self.times.begin(number)?;
        let watcher = Watcher { number, since };
        watch(&mut self.watchers, condition, watcher)?;
        Ok(())
    }

    /// The watchers of a cell, if there is such a cell, have wake times that are to be found anew.
    fn touch_cell(&mut self, cell: u16) -> Result<(), OutOfMemory>
        ensures { OnOk result (IsTouched (cell ∷ []) self.old self.new) }
    {
        let at = usize::from(cell);
        if at >= self.watchers.items.len() {
            return Ok(());
        }
        touch_all(&mut self.watchers.items[at], &mut self.times)?;
        Ok(())
    }

    /// The same of some cells. It takes a time in the order of how many watch them, and of the entries that are left out.
    pub fn touch(&mut self, touched: &[u16]) -> Result<(), OutOfMemory>
        ensures { OnOk result (IsTouched touched.now self.old self.new) }
    {
        for cell in touched {
            self.touch_cell(*cell)?;
        }
        Ok(())
    }
}

/// What the task of a number waits for.
pub fn condition_of(slots: &Slab<Slot>, number: usize) -> Option<&Cond>
    ensures { option_copied result ≡ condition_at slots.now.slots number }
{
    match slots.get(number) {
        Some(slot) => slot.task.condition(),
        None => None,
    }
}

/// The task of a number, which did not wait, begins to wait where it has a condition now.
pub fn begin_wait(waits: &mut Waits, slots: &Slab<Slot>, number: usize) -> Result<(), OutOfMemory>
    ensures { OnOk result (BeginsWaitIfAny number (condition_at slots.now.slots number) waits.old waits.new) }
{
    let Some(condition) = condition_of(slots, number) else {
        return Ok(());
    };
    waits.begin(number, condition)
}
