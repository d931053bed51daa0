//! When waiting tasks wake, by number.

ghost use Rattle.std.specs.Prelude.{◌≡◌, ℕ, ◌<◌, ◌++◌, ◌∷◌, [], true, false, None, Some, length, IfOk, OnOk, IfSome, option_map};
ghost use Rattle.std.specs.BTreeSet as set;
ghost use Rattle.live_tasks.specs.declared.wake_times.Wake.TheVariants.{Stale};
ghost use Rattle.live_tasks.specs.WakeTimes.{numbered_wait, time_of_wake, is_stale_wake, is_stale, found_wake, found_if, with_wake, WaitBecomes, AreWakesOf, AreWakesBut, is_current, MayGoStale, has_wake};

use crate::wakes::{end_wake, leave_out, list_wake};
use aerie_base::{OutOfMemory, Time};
use std::alloc::Global;
use std::collections::BTreeSet;

/// When a waiting task wakes.
#[derive(Clone, Copy, Drop)]
pub enum Wake {
    /// That is to be found anew.
    Stale,
    /// Not before the horizon.
    Never,
    /// At a time, in microseconds.
    At(u64),
}

/// A wait: how many had begun before it, by which it is told from another wait of the same number, and when it ends.
#[derive(Clone, Copy, Drop)]
pub struct Wait {
    pub since: u64,
    pub wake: Wake,
}

/// Who watches a cell: the task of a number, as long as it waits as it does since then.
#[derive(Clone, Copy, Drop)]
pub struct Watcher {
    pub number: usize,
    pub since: u64,
}

/// The waits by number; the wake times that are kept, each with its number; the numbers of those that are to be found anew; and
/// how many waits have begun.
#[derive(Drop)]
pub struct WakeTimes {
    pub by_number: Vec<Option<Wait>>,
    pub wakes: BTreeSet<(u64, usize)>,
    pub stale: Vec<usize>,
    pub begun: u64,
}

impl Wake {
    fn is_stale(self) -> bool
        ensures { result ≡ is_stale_wake self }
    {
        match self {
            Wake::Stale => true,
            Wake::Never => false,
            Wake::At(_) => false,
        }
    }

    fn time(self) -> Option<u64>
        ensures { result ≡ time_of_wake self }
    {
        match self {
            Wake::Stale => None,
            Wake::Never => None,
            Wake::At(time) => Some(time),
        }
    }

    fn found(time: Option<u64>) -> Wake
        ensures { result ≡ found_wake time }
    {
        match time {
            Some(time) => Wake::At(time),
            None => Wake::Never,
        }
    }
}

/// The wait of a number.
fn numbered_wait(waits: &[Option<Wait>], number: usize) -> Option<Wait>
    ensures { result ≡ numbered_wait waits.now number }
{
    match waits.get(number) {
        Some(wait) => *wait,
        None => None,
    }
}

/// Another wait for a number, or none.
fn put(waits: &mut Vec<Option<Wait>>, number: usize, wait: Option<Wait>)
    requires { number < length waits.old.items }
    ensures { WaitBecomes waits.old.items waits.new.items number wait }
{
    waits[number] = wait;
}

/// Room for a number.
fn make_room(waits: &mut Vec<Option<Wait>>, number: usize) -> Result<(), OutOfMemory>
    ensures room { OnOk result (number < length waits.new.items) }
    ensures same { OnOk result ((other : ℕ)
        → numbered_wait waits.new.items other ≡ numbered_wait waits.old.items other) }
{
    while waits.len() <= number {
        waits.push(None)?;
    }
    Ok(())
}

impl WakeTimes {
    /// Nobody waits.
    pub fn new(alloc: Global) -> WakeTimes
        ensures none { (number : ℕ) → numbered_wait result.by_number.items number ≡ None }
        ensures stale { result.stale.items ≡ [] }
        ensures wakes { AreWakesOf result }
    {
        WakeTimes {
            by_number: Vec::new(alloc),
            wakes: BTreeSet::new(alloc),
            stale: Vec::new(alloc),
            begun: 0,
        }
    }

    /// The same once more.
    pub fn copy(&self, alloc: Global) -> Result<WakeTimes, OutOfMemory>
        ensures by_number { IfOk result (λ copy. copy.by_number.items ≡ self.now.by_number.items) }
        ensures wakes { IfOk result (λ copy. copy.wakes ≡ self.now.wakes) }
        ensures stale { IfOk result (λ copy. copy.stale.items ≡ self.now.stale.items) }
    {
        let by_number = Vec::from_slice(alloc, self.by_number.as_slice())?;
        let wakes = self.wakes.clone()?;
        let stale = Vec::from_slice(alloc, self.stale.as_slice())?;
        Ok(WakeTimes {
            by_number,
            wakes,
            stale,
            begun: self.begun,
        })
    }

    /// A number begins to wait; its wake time is to be found. What tells the wait from others is answered.
    pub fn begin(&mut self, number: usize) -> Result<u64, OutOfMemory>
        ensures wait { IfOk result (λ since. WaitBecomes self.old.by_number.items self.new.by_number.items number
            (Some (record { since = since; wake = Stale }))) }
        ensures wakes { OnOk result (numbered_wait self.old.by_number.items number ≡ None
            → AreWakesOf self.old → AreWakesOf self.new) }
    {
        make_room(&mut self.by_number, number)?;
        self.stale.push(number)?;
        let since = self.begun;
        self.begun = since.saturating_add(1);
        let wait = Wait {
            since,
            wake: Wake::Stale,
        };
        put(&mut self.by_number, number, Some(wait));
        Ok(since)
    }

    /// A number, whose wake time is now, waits no more.
    pub fn end(&mut self, number: usize, now: Time)
        ensures wait { WaitBecomes self.old.by_number.items self.new.by_number.items number None }
        ensures stale { self.new.stale ≡ self.old.stale }
        ensures wakes { has_wake self.old.wakes now number ≡ true
            → AreWakesOf self.old → AreWakesOf self.new }
        ensures fewer { has_wake self.old.wakes now number ≡ true
            → set.btree_set_len self.new.wakes < set.btree_set_len self.old.wakes }
    {
        end_wake(&mut self.wakes, number, now);
        if number < self.by_number.len() {
            put(&mut self.by_number, number, None);
        }
    }

    /// The wake time of a number, which waits so, is to be found anew.
    fn make_stale(&mut self, number: usize, wait: Wait) -> Result<(), OutOfMemory>
        requires { numbered_wait self.old.by_number.items number ≡ Some wait }
        ensures wait { OnOk result (WaitBecomes self.old.by_number.items self.new.by_number.items number
            (Some (with_wake Stale wait))) }
        ensures wakes { OnOk result (AreWakesOf self.old → AreWakesOf self.new) }
    {
        if wait.wake.is_stale() {
            return Ok(());
        }
        self.stale.push(number)?;
        leave_out(&mut self.wakes, number, wait.wake.time());
        let wait = Wait {
            since: wait.since,
            wake: Wake::Stale,
        };
        put(&mut self.by_number, number, Some(wait));
        Ok(())
    }

    /// Whether a watcher waits as it did when it began to watch; its wake time is then to be found anew.
    pub fn touch(&mut self, watcher: Watcher) -> Result<bool, OutOfMemory>
        ensures current { IfOk result (λ it. it ≡ is_current self.old.by_number.items watcher) }
        ensures may { OnOk result (MayGoStale self.old.by_number.items self.new.by_number.items) }
        ensures stale { OnOk result (is_current self.old.by_number.items watcher ≡ true
            → is_stale (numbered_wait self.new.by_number.items watcher.number) ≡ true) }
        ensures wakes { OnOk result (AreWakesOf self.old → AreWakesOf self.new) }
    {
        let Some(wait) = numbered_wait(self.by_number.as_slice(), watcher.number) else {
            return Ok(false);
        };
        if wait.since != watcher.since {
            return Ok(false);
        }
        self.make_stale(watcher.number, wait)?;
        Ok(true)
    }

    /// A number whose wake time is to be found anew. It is the caller's to find.
    pub fn pop_stale(&mut self) -> Option<usize>
        ensures some { IfSome result (λ number. self.old.stale.items ≡ self.new.stale.items ++ number ∷ []) }
        ensures none { result ≡ None → self.old.stale.items ≡ [] }
        ensures none_new { result ≡ None → self.new.stale.items ≡ [] }
        ensures same { self.new.by_number ≡ self.old.by_number }
        ensures wakes { self.new.wakes ≡ self.old.wakes }
    {
        self.stale.pop()
    }

    /// The wake time of a number is found; where it was kept, it is left.
    pub fn keep(&mut self, number: usize, time: Option<u64>) -> Result<(), OutOfMemory>
        ensures wait { OnOk result (WaitBecomes self.old.by_number.items self.new.by_number.items number
            (option_map (found_if time) (numbered_wait self.old.by_number.items number))) }
        ensures stale { self.new.stale ≡ self.old.stale }
        ensures wakes { OnOk result (AreWakesBut number self.old → AreWakesOf self.new) }
    {
        let Some(wait) = numbered_wait(self.by_number.as_slice(), number) else {
            return Ok(());
        };
        if !wait.wake.is_stale() {
            return Ok(());
        }
        list_wake(&mut self.wakes, number, time)?;
        let wait = Wait {
            since: wait.since,
            wake: Wake::found(time),
        };
        put(&mut self.by_number, number, Some(wait));
        Ok(())
    }
}
