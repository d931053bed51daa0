//! The ends of intervals, moved.

ghost use Rattle.std.specs.Prelude.{◌≡◌, ◌≤◌};
ghost use Rattle.windows.specs.Ends.{clipped};

use aerie_base::Time;

/// The time of so many microseconds, or the nearest one from `low` to `high`.
pub(crate) fn within(low: Time, high: Time, micros: i128) -> Time
    requires { low ≤ high }
    ensures { result ≡ clipped low high micros }
{
    if micros < i128::from(low.get()) {
        return low;
    }
    if i128::from(high.get()) < micros {
        return high;
    }
    Time::new(micros as i64).unwrap()
}
