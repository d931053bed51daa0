ghost use Rattle.std.specs.Prelude.{◌≡◌, ◌-◌, min, max, nat_le, nat_lt, pos};
ghost use Rattle.aerie_base.specs.Ranges.{IsTime, time_of_signed};

use crate::ranges::TIME_LIMIT;
use std::marker::Model;

/// A time since the start of a plan, or a duration, in microseconds, from 0 to 10^15. Contracts see how many
/// microseconds it is, a natural number.
#[derive(Clone, Copy, Debug, PartialEq, Eq, PartialOrd, Ord, Hash)]
pub struct Time {
    micros: i64,
}

impl Model for Time {
    ghost use Rattle.std.specs.Prelude.{ℕ, pos, nat_abs, ◌≤ℤ◌};
    ghost use Rattle.std.specs.Coded.{coded_ℕ};
    ghost use Rattle.aerie_base.specs.Ranges.{time_limit};
    ghost use Rattle.aerie_base.specs.TimeForms.{same_field};

    ghost Value = { ℕ };

    ghost coded = { coded_ℕ };

    ghost view = { λ time. nat_abs time.micros };

    ghost invariant = { λ time. (pos 0 ≤ℤ time.micros) × (time.micros ≤ℤ pos time_limit) };

    ghost inverse = { λ micros. record { micros = pos micros } };

    ghost inverse_ok = { λ time in_range. same_field time in_range.0 };
}

impl Time {
    /// The time of so many microseconds, or `None` below 0 or above 10^15. It takes no memory.
    pub fn new(value: i64) -> Option<Time>
        ensures { result ≡ time_of_signed value }
    {
        if value < 0 || TIME_LIMIT < value {
            return None;
        }
        Some(Time { micros: value })
    }

    /// The microseconds, from 0 to 10^15.
    pub fn get(&self) -> i64
        ensures value { result ≡ pos self.now }
        ensures range { IsTime self.now }
    {
        self.micros
    }

    /// The time 0, with which a plan starts.
    pub fn zero() -> Time
        ensures { result ≡ 0 }
    {
        Time { micros: 0 }
    }

    /// Whether it is no later than the other.
    pub fn is_by(self, other: Time) -> bool
        ensures { result ≡ nat_le self other }
    {
        self.micros <= other.micros
    }

    /// Whether it is before the other.
    pub fn is_before(self, other: Time) -> bool
        ensures { result ≡ nat_lt self other }
    {
        self.micros < other.micros
    }

    /// The earlier of the two.
    pub fn earlier(self, other: Time) -> Time
        ensures { result ≡ min self other }
    {
        if self.is_by(other) { self } else { other }
    }

    /// The later of the two.
    pub fn later(self, other: Time) -> Time
        ensures { result ≡ max self other }
    {
        if self.is_by(other) { other } else { self }
    }

    /// How long it is from this time to a later one; 0 if that is not later.
    pub fn until(self, end: Time) -> Time
        ensures { result ≡ end - self }
    {
        Time {
            micros: (end.micros - self.micros).max(0),
        }
    }

    /// The microseconds from this time to a later one; 0 if that is not later.
    pub fn micros_until(self, end: Time) -> u128
        ensures micros { result ≡ end - self }
        ensures time { IsTime result }
    {
        self.until(end).micros as u128
    }
}
