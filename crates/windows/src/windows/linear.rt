//! Sets of times at which a profile of straight pieces compares with a number.

ghost use Rattle.std.specs.Prelude.{◌≡◌, ℕ, ◌<◌, ◌≤◌, OnOk, IfOk};
ghost use Rattle.windows.specs.Crossing.{JoinsWhere};
ghost use Rattle.windows.specs.Joining.{last_start};
ghost use Rattle.aerie_base.specs.expressions.Arithmetic.{compared};
ghost use Rattle.windows.specs.Linear.{AreSegments, IsSum, segment_value, segments_value};
ghost use Rattle.windows.specs.Times.{AreIntervals};

use super::Windows;
use crate::crossing::{cross, meets};
use crate::ends::within;
use crate::joining::join;
use crate::segments::{Segment, end_of};
use aerie_base::{Comparison, List, OutOfMemory, Time};
use std::alloc::Global;

/// Puts the times from `from` up to `to` behind the others where `holds`.
fn join_where(
    intervals: &mut List<(Time, Time)>,
    holds: bool,
    from: Time,
    to: Time,
) -> Result<(), OutOfMemory>
    requires order { last_start intervals.old ≤ from }
    requires span { from ≤ to }
    ensures { OnOk result (JoinsWhere intervals.old from to (λ t. holds) intervals.new) }
{
    if holds {
        join(intervals, from, to)?;
    }
    Ok(())
}

/// Puts in the times of a segment that ends at `end` at which its value compares so with the number. The value passes
/// the number once, so that these are the times before, at and after that whole time, or none of each.
fn join_compared(
    intervals: &mut List<(Time, Time)>,
    segment: &Segment,
    end: Time,
    how: Comparison,
    with: i128,
) -> Result<(), OutOfMemory>
    requires order { last_start intervals.old ≤ segment.now.from }
    requires span { segment.now.from < end }
    requires values { (t : ℕ) → segment.now.from ≤ t → t < end → IsSum (segment_value segment.now t) }
    requires with { IsSum with }
    ensures { OnOk result (JoinsWhere intervals.old segment.now.from end (λ t. compared how (segment_value segment.now t) with) intervals.new) }
{
    let crossing = cross(segment.rate, with - segment.value);
    let start = i128::from(segment.from.get());
    let there = within(segment.from, end, start + crossing.at);
    let after = within(segment.from, end, start + crossing.at + 1);
    join_where(intervals, meets(how, crossing.before), segment.from, there)?;
    join_where(intervals, meets(how, crossing.there), there, after)?;
    join_where(intervals, meets(how, crossing.after), after, end)?;
    Ok(())
}

impl Windows {
    /// The times below the reach at which the value of the segments compares so with the number. Each segment has the
    /// times from its start up to the next one, or up to the reach. It takes steps as there are segments.
    pub fn where_linear(
        alloc: Global,
        reach: Time,
        segments: &[Segment],
        how: Comparison,
        with: i128,
    ) -> Result<Windows, OutOfMemory>
        requires segments { AreSegments reach segments.now }
        requires with { IsSum with }
        ensures reach { IfOk result (λ made. made.reach ≡ reach) }
        ensures times { IfOk result (λ made. AreIntervals made.reach (λ t. compared how (segments_value segments.now t) with) made.intervals) }
    {
        let mut intervals = List::new(alloc);
        for at in 0..segments.len() {
            let end = end_of(reach, segments, at);
            join_compared(&mut intervals, &segments[at], end, how, with)?;
        }
        Ok(Windows { reach, intervals })
    }
}
