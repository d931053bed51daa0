//! Numbers that change at a constant rate.

ghost use Rattle.std.specs.Prelude.{◌≡◌, ◌≤◌, ◌<◌, ◌+◌, ◌*◌, ◌^◌, ◌-ℤ◌, ◌*ℤ◌, unsigned_abs};
ghost use Rattle.aerie_base.specs.Ranges.{IsTime, number_limit, rate_limit};
ghost use Rattle.wait_solver.specs.Lines.{line_value, still, sum_of_lines, scaled, gap_from, IsWithin};

use aerie_base::product;

/// A number that changes at a constant rate.
#[derive(Clone, Copy, Debug)]
pub(crate) struct Line {
    /// Its value now.
    pub(crate) value: i128,
    /// What it rises by each microsecond.
    pub(crate) rate: i128,
}

impl Line {
    /// A number that stands.
    pub(crate) fn still(number: i128) -> Line
        ensures { result ≡ still number }
    {
        Line {
            value: number,
            rate: 0,
        }
    }

    /// The sum of the two.
    pub(crate) fn plus(self, other: Line) -> Line
        requires value { unsigned_abs self.value + unsigned_abs other.value < 2 ^ 120 }
        requires rate { unsigned_abs self.rate + unsigned_abs other.rate < 2 ^ 120 }
        ensures sum { result ≡ sum_of_lines self other }
        ensures value { unsigned_abs result.value ≤ unsigned_abs self.value + unsigned_abs other.value }
        ensures rate { unsigned_abs result.rate ≤ unsigned_abs self.rate + unsigned_abs other.rate }
    {
        Line {
            value: self.value + other.value,
            rate: self.rate + other.rate,
        }
    }

    /// So many times the number.
    pub(crate) fn times(self, factor: i64) -> Line
        requires factor { unsigned_abs factor ≤ 1_000_000 }
        requires small { IsWithin number_limit rate_limit self }
        ensures value { result ≡ scaled factor self }
        ensures small { IsWithin 1_000_000_000_000_000_000_000_000 1_000_000_000_000_000_000 result }
    {
        let factor = i128::from(factor);
        Line {
            value: product(factor, self.value),
            rate: product(factor, self.rate),
        }
    }

    /// The number so many microseconds from now.
    pub(crate) fn at(self, dt: u128) -> i128
        requires small { IsWithin (2 ^ 101) (2 ^ 64) self }
        requires time { IsTime dt }
        ensures value { result ≡ line_value self dt }
        ensures small { unsigned_abs result ≤ 2 ^ 115 }
    {
        self.value + self.rate * dt as i128
    }

    /// How far it is above the other, from so many microseconds on.
    pub(crate) fn gap_from(self, other: Line, dt: u128) -> Line
        requires small { IsWithin (2 ^ 101) (2 ^ 64) self }
        requires other { IsWithin (2 ^ 101) (2 ^ 64) other }
        requires time { IsTime dt }
        ensures value { result ≡ gap_from dt self other }
        ensures small { IsWithin (2 ^ 116) (2 ^ 65) result }
    {
        Line {
            value: difference(self.at(dt), other.at(dt)),
            rate: difference(self.rate, other.rate),
        }
    }
}

/// The difference of two numbers below 2^119.
fn difference(a: i128, b: i128) -> i128
    requires { unsigned_abs a + unsigned_abs b < 2 ^ 120 }
    ensures value { result ≡ a -ℤ b }
    ensures small { unsigned_abs result ≤ unsigned_abs a + unsigned_abs b }
{
    a - b
}
