//! By how much the edges of intervals are moved.

ghost use Rattle.std.specs.Prelude.{◌≡◌, IsTrue};
ghost use Rattle.std.specs.Int.RustNames.{unsigned_abs};
ghost use Rattle.constraints.specs.OfModel.{is_shift};

use aerie_base::Time;
use std::marker::Model;

/// By how many microseconds an edge is moved, from -10^15 to 10^15.
#[derive(Clone, Copy, Debug, PartialEq, Eq)]
pub(crate) struct Offset {
    micros: i64,
}

impl Model for Offset {
    ghost use Rattle.std.specs.Prelude.{ℤ, IsTrue};
    ghost use Rattle.std.specs.Coded.{coded_ℤ};
    ghost use Rattle.constraints.specs.OfModel.{is_shift};

    ghost Value = { ℤ };

    ghost coded = { coded_ℤ };

    ghost view = { λ offset. offset.micros };

    ghost invariant = { λ offset. IsTrue (is_shift offset.micros) };

    ghost inverse = { λ micros. record { micros = micros } };
}

impl Offset {
    /// By so many.
    pub(crate) fn new(micros: i64) -> Offset
        requires { IsTrue (is_shift micros) }
        ensures { result ≡ micros }
    {
        Offset { micros }
    }

    /// By how many.
    pub(crate) fn get(&self) -> i64
        ensures value { result ≡ self.now }
        ensures range { IsTrue (is_shift result) }
    {
        self.micros
    }

    /// How far, to either side.
    pub(crate) fn size(&self) -> Time
        ensures { result ≡ unsigned_abs self.now }
    {
        Time::new(self.micros.abs()).unwrap()
    }
}
