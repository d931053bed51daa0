//! `and`, `or` and `not`: each is one merge of the intervals in order.

ghost use Rattle.std.specs.Prelude.{◌≡◌, ◌<◌, ◌≤◌, ◌&&◌, ◌||◌, not, length, drop, IfOk, IsTrue};
ghost use Rattle.windows.specs.Joining.{stands_first};
ghost use Rattle.windows.specs.Times.{contains, AreIntervals};

use super::Windows;
use crate::joining::join;
use aerie_base::{List, OutOfMemory, Time};
use std::alloc::Global;

/// Whether the next interval on the left is there, and begins no later than the next one on the right, if any.
fn stands_first(
    left: &[(Time, Time)],
    at_left: usize,
    right: &[(Time, Time)],
    at_right: usize,
) -> bool
    requires on_left { at_left ≤ length left.now }
    requires on_right { at_right ≤ length right.now }
    ensures value { result ≡ stands_first (drop at_left left.now) (drop at_right right.now) }
    ensures within { IsTrue result → at_left < length left.now }
{
    if at_left >= left.len() {
        return false;
    }
    if at_right >= right.len() {
        return true;
    }
    left[at_left].0.is_by(right[at_right].0)
}

impl Windows {
    /// The times that both sets have. It takes steps as both have intervals.
    pub fn and(&self, alloc: Global, other: &Windows) -> Result<Windows, OutOfMemory>
        requires reaches { self.now.reach ≡ other.now.reach }
        ensures reach { IfOk result (λ made. made.reach ≡ self.now.reach) }
        ensures times { IfOk result (λ made. AreIntervals made.reach (λ t. contains self.now.intervals t && contains other.now.intervals t) made.intervals) }
    {
        let (left, right) = (self.intervals(), other.intervals());
        let mut intervals = List::new(alloc);
        let (mut at_left, mut at_right) = (0, 0);
        while at_left < left.len() && at_right < right.len() {
            let (one, two) = (left[at_left], right[at_right]);
            join(&mut intervals, one.0.later(two.0), one.1.earlier(two.1))?;
            if one.1.is_by(two.1) {
                at_left += 1;
            } else {
                at_right += 1;
            }
        }
        Ok(Windows {
            reach: self.reach,
            intervals,
        })
    }

    /// The times that at least one of the sets has. It takes steps as both have intervals.
    pub fn or(&self, alloc: Global, other: &Windows) -> Result<Windows, OutOfMemory>
        requires reaches { self.now.reach ≡ other.now.reach }
        ensures reach { IfOk result (λ made. made.reach ≡ self.now.reach) }
        ensures times { IfOk result (λ made. AreIntervals made.reach (λ t. contains self.now.intervals t || contains other.now.intervals t) made.intervals) }
    {
        let (left, right) = (self.intervals(), other.intervals());
        let mut intervals = List::new(alloc);
        let (mut at_left, mut at_right) = (0, 0);
        'merge: loop {
            if stands_first(left, at_left, right, at_right) {
                let next = left[at_left];
                join(&mut intervals, next.0, next.1)?;
                at_left += 1;
            } else if at_right < right.len() {
                let next = right[at_right];
                join(&mut intervals, next.0, next.1)?;
                at_right += 1;
            } else {
                break 'merge;
            }
        }
        Ok(Windows {
            reach: self.reach,
            intervals,
        })
    }

    /// The times below the reach that the set does not have. It takes steps as the set has intervals.
    pub fn not(&self, alloc: Global) -> Result<Windows, OutOfMemory>
        ensures reach { IfOk result (λ made. made.reach ≡ self.now.reach) }
        ensures times { IfOk result (λ made. AreIntervals made.reach (λ t. not (contains self.now.intervals t)) made.intervals) }
    {
        let mut intervals = List::new(alloc);
        let mut from = Time::zero();
        for interval in self.intervals() {
            join(&mut intervals, from, interval.0)?;
            from = interval.1;
        }
        join(&mut intervals, from, self.reach)?;
        Ok(Windows {
            reach: self.reach,
            intervals,
        })
    }
}
