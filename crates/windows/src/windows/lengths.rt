//! Sets made of each maximal interval by itself.

ghost use Rattle.std.specs.Prelude.{◌≡◌, ◌≤◌, ◌-◌, pos, ◌+ℤ◌, nat_le, unsigned_abs, IfOk};
ghost use Rattle.aerie_base.specs.Ranges.{time_limit};
ghost use Rattle.windows.specs.Ends.{clipped};
ghost use Rattle.windows.specs.Times.{shifted_contains, long_contains, AreIntervals};

use super::Windows;
use crate::ends::within;
use crate::joining::join;
use aerie_base::{List, OutOfMemory, Time};
use std::alloc::Global;

/// The time moved by so many microseconds, but not out of [0, reach].
fn moved(time: Time, by: i64, reach: Time) -> Time
    ensures { result ≡ clipped 0 reach (pos time +ℤ by) }
{
    within(Time::zero(), reach, i128::from(time.get()) + i128::from(by))
}

/// Whether the interval is at least so long.
fn is_long(interval: (Time, Time), least: Time) -> bool
    requires { interval.0 ≤ interval.1 }
    ensures { result ≡ nat_le least (interval.1 - interval.0) }
{
    least.get() <= interval.1.get() - interval.0.get()
}

impl Windows {
    /// Moves the start of each maximal interval by `start` microseconds and its end by `end`, and leaves out what is
    /// then before 0 or not before the reach. It takes steps as the set has intervals.
    pub fn shifted(&self, alloc: Global, start: i64, end: i64) -> Result<Windows, OutOfMemory>
        requires start { unsigned_abs start ≤ time_limit }
        requires end { unsigned_abs end ≤ time_limit }
        ensures reach { IfOk result (λ made. made.reach ≡ self.now.reach) }
        ensures times { IfOk result (λ made. AreIntervals made.reach (λ t. shifted_contains start end self.now.intervals t) made.intervals) }
    {
        let mut intervals = List::new(alloc);
        for interval in self.intervals() {
            let from = moved(interval.0, start, self.reach);
            let to = moved(interval.1, end, self.reach);
            join(&mut intervals, from, to)?;
        }
        Ok(Windows {
            reach: self.reach,
            intervals,
        })
    }

    /// Keeps the maximal intervals that are at least so long. It takes steps as the set has intervals.
    pub fn longer_than(&self, alloc: Global, least: Time) -> Result<Windows, OutOfMemory>
        ensures reach { IfOk result (λ made. made.reach ≡ self.now.reach) }
        ensures times { IfOk result (λ made. AreIntervals made.reach (λ t. long_contains least self.now.intervals t) made.intervals) }
    {
        let mut intervals = List::new(alloc);
        for interval in self.intervals() {
            if is_long(*interval, least) {
                join(&mut intervals, interval.0, interval.1)?;
            }
        }
        Ok(Windows {
            reach: self.reach,
            intervals,
        })
    }
}
