ghost use Rattle.std.specs.Prelude.{◌≡◌};
ghost use Rattle.aerie_base.specs.Ranges.{IsNumber, checked_number};

use crate::ranges::NUMBER_LIMIT;
use std::marker::Model;

/// A whole number of a model, from -10^18 to 10^18. What it counts (watts, bytes, degrees) is the model's matter.
/// Contracts see its value.
#[derive(Clone, Copy, Debug, PartialEq, Eq, PartialOrd, Ord, Hash)]
pub struct Number {
    value: i64,
}

impl Model for Number {
    ghost use Rattle.std.specs.Prelude.{ℤ};
    ghost use Rattle.std.specs.Coded.{coded_ℤ};
    ghost use Rattle.aerie_base.specs.Ranges.{IsNumber};

    ghost Value = { ℤ };

    ghost coded = { coded_ℤ };

    ghost view = { λ number. number.value };

    ghost invariant = { λ number. IsNumber number.value };

    ghost inverse = { λ value. record { value = value } };
}

impl Number {
    /// The number with this value, or `None` out of the range. It takes no memory.
    pub fn new(value: i64) -> Option<Number>
        ensures { result ≡ checked_number value }
    {
        if value < -NUMBER_LIMIT || NUMBER_LIMIT < value {
            return None;
        }
        Some(Number { value })
    }

    /// The value, from -10^18 to 10^18.
    pub fn get(&self) -> i64
        ensures value { result ≡ self.now }
        ensures range { IsNumber result }
    {
        self.value
    }
}
