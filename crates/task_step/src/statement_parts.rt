//! What statements make of values.

ghost use Rattle.std.specs.Prelude.{◌≡◌, ◌≤◌};
ghost use Rattle.aerie_base.specs.Ranges.{number_limit};
ghost use Rattle.run_data.specs.Magnitudes.{effect_magnitude};
ghost use Rattle.run_data.specs.Steps.{effect_of, emission_expr};

use aerie_base::{Emission, Expr, Value, number_in};
use effect_cells::{Change, Effect};

/// The expression of an emission.
pub(crate) fn emission_expr(what: &Emission) -> &Expr
    ensures { result.now ≡ emission_expr what.now }
{
    match what {
        Emission::Add(expr) => expr,
        Emission::Set(expr) => expr,
        Emission::Volume(expr) => expr,
        Emission::Rate(expr) => expr,
    }
}

/// The effect of an emission, by the value of its expression.
pub(crate) fn effect_of(what: &Emission, value: &Value) -> Effect
    ensures value { result ≡ effect_of what.now value.now }
    ensures small { effect_magnitude result ≤ number_limit }
{
    match what {
        Emission::Add(_) => Effect::Add(i128::from(number_in(value))),
        Emission::Set(_) => Effect::Register(Change::Set(*value)),
        Emission::Volume(_) => Effect::Flow {
            volume: i128::from(number_in(value)),
            rate: 0,
        },
        Emission::Rate(_) => Effect::Flow {
            volume: 0,
            rate: i128::from(number_in(value)),
        },
    }
}
