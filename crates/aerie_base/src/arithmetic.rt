//! What the operators make of values. Where a value is of another type than the operator takes, which a well-typed
//! expression never has, it counts as 0 or as false.

ghost use Rattle.std.specs.Prelude.{◌≡◌};
ghost use Rattle.std.specs.Int.RustNames.{int_div, int_rem};
ghost use Rattle.aerie_base.specs.Ranges.{IsNumber};
ghost use Rattle.aerie_base.specs.expressions.Arithmetic.{combined, compares, decided, denied, divided, negated, number_in, ranged, same_value, truth_in};

use crate::expressions::{Comparison, Operator};
use crate::faults::Fault;
use crate::numbers::Number;
use crate::ranges::NUMBER_LIMIT;
use crate::values::{Value, number_in, same_value, truth_in};

/// The whole number that a value is, in a type in which operators do not overflow.
fn wide(value: &Value) -> i128
    ensures value { result ≡ number_in value.now }
    ensures range { IsNumber result }
{
    i128::from(number_in(value))
}

/// A whole number as a value.
fn ranged(number: i128) -> Result<Value, Fault>
    ensures { result ≡ ranged number }
{
    let limit = i128::from(NUMBER_LIMIT);
    if number < -limit || limit < number {
        return Err(Fault::Range);
    }
    match Number::new(number as i64) {
        Some(number) => Ok(Value::Int(number)),
        None => Err(Fault::Range),
    }
}

/// Whether a comparison holds between two values.
fn compares(how: Comparison, left: &Value, right: &Value) -> bool
    ensures { result ≡ compares how left.now right.now }
{
    match how {
        Comparison::Equal => same_value(left, right),
        Comparison::Unequal => !same_value(left, right),
        Comparison::Less | Comparison::AtMost | Comparison::More | Comparison::AtLeast => {
            how.holds(wide(left), wide(right))
        }
    }
}

/// The quotient, truncated toward zero.
fn quotient(dividend: i128, divisor: i128) -> Result<Value, Fault>
    requires dividend { IsNumber dividend }
    requires divisor { IsNumber divisor }
    ensures { result ≡ divided divisor (int_div dividend divisor) }
{
    if divisor == 0 {
        return Err(Fault::Divide);
    }
    ranged(dividend / divisor)
}

/// The remainder, with the sign of the dividend.
fn remainder(dividend: i128, divisor: i128) -> Result<Value, Fault>
    requires dividend { IsNumber dividend }
    requires divisor { IsNumber divisor }
    ensures { result ≡ divided divisor (int_rem dividend divisor) }
{
    if divisor == 0 {
        return Err(Fault::Divide);
    }
    ranged(dividend % divisor)
}

/// What an operator makes of the values of its two sides.
pub(crate) fn combined(operator: Operator, left: &Value, right: &Value) -> Result<Value, Fault>
    ensures { result ≡ combined operator left.now right.now }
{
    match operator {
        Operator::Or => Ok(Value::Truth(truth_in(left) || truth_in(right))),
        Operator::And => Ok(Value::Truth(truth_in(left) && truth_in(right))),
        Operator::Compare(how) => Ok(Value::Truth(compares(how, left, right))),
        Operator::Plus => ranged(wide(left) + wide(right)),
        Operator::Minus => ranged(wide(left) - wide(right)),
        Operator::Times => ranged(wide(left) * wide(right)),
        Operator::Divide => quotient(wide(left), wide(right)),
        Operator::Remainder => remainder(wide(left), wide(right)),
    }
}

/// The value where the left side's value alone decides it.
pub(crate) fn decided(operator: Operator, left: &Value) -> Option<Value>
    ensures { result ≡ decided operator left.now }
{
    match operator {
        Operator::Or if truth_in(left) => Some(Value::Truth(true)),
        Operator::And if !truth_in(left) => Some(Value::Truth(false)),
        _ => None,
    }
}

/// A value with the other sign.
pub(crate) fn negated(value: &Value) -> Result<Value, Fault>
    ensures { result ≡ negated value.now }
{
    ranged(-wide(value))
}

/// The other truth.
pub(crate) fn denied(value: &Value) -> Result<Value, Fault>
    ensures { result ≡ denied value.now }
{
    Ok(Value::Truth(!truth_in(value)))
}
