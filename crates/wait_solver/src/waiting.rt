//! The least time at which a condition holds.

ghost use Rattle.std.specs.Prelude.{◌≡◌, Some, IsTrue};
ghost use Rattle.aerie_base.specs.Ranges.{IsTime};
ghost use Rattle.effect_cells.specs.Cells.{AreInRange};
ghost use Rattle.effect_cells.specs.Reads.{kind_on};
ghost use Rattle.effect_cells.specs.Solvable.{may_be_solved};
ghost use Rattle.effect_cells.specs.WakeTimes.{wake_time, holds_on};

use crate::holding::outlook;
use aerie_base::{Cond, Time};
use effect_cells::Cells;

/// How many microseconds a time is.
fn micros_of(time: Time) -> u128
    ensures value { result ≡ time }
    ensures range { IsTime result }
{
    time.get() as u128
}

/// The time of so many microseconds.
fn time_of(micros: u128) -> Option<Time>
    requires { IsTime micros }
    ensures { result ≡ Some micros }
{
    Time::new(micros as i64)
}

/// The least time below the limit after which the condition holds, if the cells only evolve by themselves, and `None`
/// exactly where there is none. The cells are in range; the condition has no locals, is well typed for the cells, and
/// each of its linear forms has at most 16 terms, coefficients from -10^6 to 10^6 and a constant below 2^100 in
/// magnitude. It takes no memory.
///
/// One pass over the condition tells what it answers at a time and how long at least it answers so: of two joined by `&&`
/// that do not hold the later end of both, of two that hold the earlier one, and the other way round for `||`. So
/// thousands of bounds joined by `&&`, or by `||`, take two or three passes. At worst, where both are nested in turns, there
/// is a pass for each change of a comparison, of which each changes at most twice: twice as many passes as the condition
/// has comparisons and one more, whatever the limit is.
pub fn earliest(condition: &Cond, cells: &Cells, limit: Time) -> Option<Time>
    requires range { AreInRange cells.now }
    requires condition { IsTrue (may_be_solved (kind_on cells.now) condition.now) }
    ensures { result ≡ wake_time cells.now condition.now limit }
{
    let limit = micros_of(limit);
    let mut dt: u128 = 0;
    while dt < limit {
        let now = outlook(condition, cells, dt);
        if now.holds {
            return time_of(dt);
        }
        match now.stays {
            Some(change) => dt += change,
            None => return None,
        }
    }
    None
}

/// Whether the condition holds on the cells as they are. The same is asked of both as for `earliest`, and it takes one
/// pass.
pub fn holds_now(condition: &Cond, cells: &Cells) -> bool
    requires range { AreInRange cells.now }
    requires condition { IsTrue (may_be_solved (kind_on cells.now) condition.now) }
    ensures { result ≡ holds_on cells.now condition.now }
{
    outlook(condition, cells, 0).holds
}
