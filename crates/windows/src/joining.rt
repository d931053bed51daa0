ghost use Rattle.std.specs.Prelude.{◌≤◌, OnOk};
ghost use Rattle.windows.specs.Joining.{last_start, Joins};

use aerie_base::{List, OutOfMemory, Time};

/// Puts the times from `from` up to `to` behind intervals that began no later, and joins them to the last one where
/// they overlap or touch it. Where there is no such time nothing changes.
pub(crate) fn join(
    intervals: &mut List<(Time, Time)>,
    from: Time,
    to: Time,
) -> Result<(), OutOfMemory>
    requires order { last_start intervals.old ≤ from }
    ensures { OnOk result (Joins intervals.old from to intervals.new) }
{
    if to.is_by(from) {
        return Ok(());
    }
    let Some(last) = intervals.items.pop() else {
        intervals.push((from, to))?;
        return Ok(());
    };
    if from.is_by(last.1) {
        intervals.push((last.0, last.1.later(to)))?;
        return Ok(());
    }
    intervals.push(last)?;
    intervals.push((from, to))?;
    Ok(())
}
