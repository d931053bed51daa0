//! Sets put together from a part of one and the rest of another.

ghost use Rattle.std.specs.Prelude.{◌≡◌, ◌≤◌, IfOk, OnOk};
ghost use Rattle.windows.specs.Crossing.{JoinsWhere};
ghost use Rattle.windows.specs.Joining.{last_start};
ghost use Rattle.windows.specs.Times.{contains, replaced_contains, AreIntervals};

use super::Windows;
use crate::joining::join;
use aerie_base::{List, OutOfMemory, Time};
use std::alloc::Global;

/// Puts the times of the set from `from` up to `to` behind intervals that began no later. It takes steps as the set has
/// intervals there, and a binary search.
fn join_between(
    intervals: &mut List<(Time, Time)>,
    set: &Windows,
    from: Time,
    to: Time,
) -> Result<(), OutOfMemory>
    requires order { last_start intervals.old ≤ from }
    requires span { from ≤ to }
    ensures { OnOk result (JoinsWhere intervals.old from to (λ t. contains set.now.intervals t) intervals.new) }
{
    let source = set.intervals();
    let mut at = source.partition_point(|interval| interval.1.is_by(from));
    while at < source.len() && !to.is_by(source[at].0) {
        let next = source[at];
        join(intervals, from.later(next.0), next.1.earlier(to))?;
        at += 1;
    }
    Ok(())
}

impl Windows {
    /// The times of the other set from `from` up to `to`, and those of this one outside. It takes steps as the result
    /// has intervals, and three binary searches.
    pub fn replaced(
        &self,
        alloc: Global,
        other: &Windows,
        from: Time,
        to: Time,
    ) -> Result<Windows, OutOfMemory>
        requires reaches { self.now.reach ≡ other.now.reach }
        requires span { from ≤ to }
        requires within { to ≤ self.now.reach }
        ensures reach { IfOk result (λ made. made.reach ≡ self.now.reach) }
        ensures times { IfOk result (λ made. AreIntervals made.reach (λ t. replaced_contains self.now.intervals other.now.intervals (from, to) t) made.intervals) }
    {
        let mut intervals = List::new(alloc);
        join_between(&mut intervals, self, Time::zero(), from)?;
        join_between(&mut intervals, other, from, to)?;
        join_between(&mut intervals, self, to, self.reach)?;
        Ok(Windows {
            reach: self.reach,
            intervals,
        })
    }
}
