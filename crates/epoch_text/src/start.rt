ghost use Rattle.std.specs.Prelude.{◌≡◌, ◌-ℤ◌};
ghost use Rattle.aerie_base.specs.Ranges.{time_of_signed};
ghost use Rattle.epoch_text.specs.Ranges.{IsStart};

use aerie_base::Time;
use std::marker::Model;

/// The instant at which a plan's time 0 is, in UTC: from the first microsecond of the year 1900 to the last of the
/// year 9000. Contracts see its microseconds from 1970-01-01T00:00:00Z, which are negative before that.
#[derive(Clone, Copy, Debug, PartialEq, Eq)]
pub struct Start {
    micros: i64,
}

impl Model for Start {
    ghost use Rattle.std.specs.Prelude.{ℤ};
    ghost use Rattle.std.specs.Coded.{coded_ℤ};
    ghost use Rattle.epoch_text.specs.Ranges.{IsStart};

    ghost Value = { ℤ };

    ghost coded = { coded_ℤ };

    ghost view = { λ start. start.micros };

    ghost invariant = { λ start. IsStart start.micros };

    ghost inverse = { λ micros. record { micros = micros } };
}

impl Start {
    /// The start so many microseconds from 1970-01-01T00:00:00Z.
    pub(crate) fn at(micros: i64) -> Start
        requires { IsStart micros }
        ensures { result ≡ micros }
    {
        Start { micros }
    }

    /// Its microseconds from 1970-01-01T00:00:00Z.
    pub(crate) fn micros(&self) -> i64
        ensures value { result ≡ self.now }
        ensures range { IsStart result }
    {
        self.micros
    }

    /// The time of an instant in a plan that starts here, where it has one: none before the start, and none later than 10^15
    /// microseconds behind it.
    pub fn time_of(&self, instant: Start) -> Option<Time>
        ensures { result ≡ time_of_signed (instant -ℤ self.now) }
    {
        Time::new(instant.micros() - self.micros())
    }
}
