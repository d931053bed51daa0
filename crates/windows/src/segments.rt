ghost use Rattle.std.specs.Prelude.{◌≡◌, ◌<◌, ◌≤◌, ◌^◌, ◌+◌, pos, ◌+ℤ◌, ◌*ℤ◌, drop, length};
ghost use Rattle.std.specs.Int.RustNames.{unsigned_abs};
ghost use Rattle.aerie_base.specs.Ranges.{IsTime};
ghost use Rattle.windows.specs.Linear.{IsSum, first_start, segment_value};

use aerie_base::Time;

/// A straight piece of a profile. From `from` up to where the next one begins its value is `value` at first, and
/// `rate` more with each microsecond.
#[derive(Clone, Copy, Debug, PartialEq, Eq)]
pub struct Segment {
    /// Where it begins.
    pub from: Time,
    /// Its value there.
    pub value: i128,
    /// How much the value rises with each microsecond; below 0 where it falls.
    pub rate: i128,
}

/// The value so many microseconds later, where it is below 2^120 before and after.
fn later_value(value: i128, rate: i128, dt: u128) -> i128
    requires value { unsigned_abs value < 2 ^ 120 }
    requires product { unsigned_abs (rate *ℤ pos dt) < 2 ^ 121 }
    requires some { 0 < dt }
    requires time { IsTime dt }
    ensures { result ≡ value +ℤ rate *ℤ pos dt }
{
    value + rate * dt as i128
}

impl Segment {
    /// Its value at a time that is not before it, where it is below 2^120 there and where the segment begins.
    pub fn value_at(&self, t: Time) -> i128
        requires begun { self.now.from ≤ t }
        requires value { IsSum self.now.value }
        requires given { IsSum (segment_value self.now t) }
        ensures { result ≡ segment_value self.now t }
    {
        let dt = self.from.micros_until(t);
        if dt == 0 {
            // the rate may be any number
            return self.value;
        }
        later_value(self.value, self.rate, dt)
    }
}

/// Where the segment at this place ends: where the next one begins, or at the reach.
pub fn end_of(reach: Time, segments: &[Segment], at: usize) -> Time
    requires { at < length segments.now }
    ensures { result ≡ first_start reach (drop (at + 1) segments.now) }
{
    match segments.get(at + 1) {
        Some(next) => next.from,
        None => reach,
    }
}
