ghost use Rattle.std.specs.Prelude.{◌≡◌, List, true, IfOk};
ghost use Rattle.windows.specs.Times.{Interval, TimeSet, contains, AreIntervals, InOrder};

mod algebra;
mod lengths;
mod linear;
mod spans;
mod splices;

use crate::joining::join;
use aerie_base::{List, OutOfMemory, Time};
use std::alloc::Global;
use std::marker::Model;

/// A set of whole times in [0, reach), kept as half-open intervals in order that neither overlap nor touch.
#[derive(Debug, Drop)]
pub struct Windows {
    reach: Time,
    intervals: List<(Time, Time)>,
}

impl Model for Windows {
    ghost use Rattle.windows.specs.Times.{TimeSet, InOrder};

    ghost Value = { TimeSet };

    ghost view = { λ windows. record { reach = windows.reach; intervals = windows.intervals } };

    ghost invariant = { λ windows. InOrder windows.reach 0 windows.intervals };
}

impl Windows {
    /// The maximal intervals, in order: each from its first time up to its end, which is not in it.
    pub fn intervals(&self) -> &[(Time, Time)]
        ensures value { result.now ≡ self.now.intervals }
        ensures in_order { InOrder self.now.reach 0 result.now }
        ensures unique { (intervals : List Interval) → AreIntervals self.now.reach (λ t. contains result.now t) intervals → intervals ≡ result.now }
    {
        self.intervals.as_slice()
    }

    /// Whether the time is in the set. It takes no memory and as many steps as the number of intervals has digits.
    pub fn contains(&self, t: Time) -> bool
        ensures { result ≡ contains self.now.intervals t }
    {
        let intervals = self.intervals.as_slice();
        let ended = intervals.partition_point(|interval| interval.1.is_by(t));
        match intervals.get(ended) {
            Some(interval) => interval.0.is_by(t),
            None => false,
        }
    }

    /// An equal set.
    pub fn copy(&self, alloc: Global) -> Result<Windows, OutOfMemory>
        ensures { IfOk result (λ copy. copy ≡ self.now) }
    {
        let intervals = Vec::from_slice(alloc, self.intervals.as_slice())?;
        Ok(Windows {
            reach: self.reach,
            intervals: List::from_vec(intervals),
        })
    }

    /// All times below the reach.
    pub fn all(alloc: Global, reach: Time) -> Result<Windows, OutOfMemory>
        ensures reach { IfOk result (λ all. all.reach ≡ reach) }
        ensures times { IfOk result (λ all. AreIntervals all.reach (λ t. true) all.intervals) }
    {
        let mut intervals = List::new(alloc);
        join(&mut intervals, Time::zero(), reach)?;
        Ok(Windows { reach, intervals })
    }
}
