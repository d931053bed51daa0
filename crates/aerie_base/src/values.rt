ghost use Rattle.std.specs.Prelude.{◌≡◌, ◌↔◌, IsTrue};
ghost use Rattle.aerie_base.specs.Ranges.{IsNumber};
ghost use Rattle.aerie_base.specs.expressions.Arithmetic.{number_in, same_value, truth_in};

use crate::numbers::Number;

/// What a parameter, a local or a register holds.
#[derive(Clone, Copy, Debug, PartialEq, Eq, Hash)]
pub enum Value {
    /// A whole number; a duration is the number of its microseconds.
    Int(Number),
    /// A truth.
    Truth(bool),
    /// A variant of an enumeration, both counted from 0 in the order of the model.
    Variant {
        /// Which enumeration.
        kind: u16,
        /// Which of its variants.
        number: u16,
    },
}

impl Value {
    /// Whether the two are the same value.
    pub fn is_same(&self, other: &Value) -> bool
        ensures { IsTrue result ↔ (self.now ≡ other.now) }
    {
        self == other
    }
}

/// The type of a value.
#[derive(Clone, Copy, Debug, PartialEq, Eq, Hash)]
pub enum Kind {
    /// Whole numbers, durations among them.
    Int,
    /// Truths.
    Truth,
    /// The variants of an enumeration, counted from 0 in the order of the model.
    Enum(u16),
}

/// The whole number that a value is, from -10^18 to 10^18; a value of another type has 0.
pub fn number_in(value: &Value) -> i64
    ensures value { result ≡ number_in value.now }
    ensures range { IsNumber result }
{
    match value {
        Value::Int(number) => number.get(),
        Value::Truth(_) | Value::Variant { .. } => 0,
    }
}

/// The truth that a value is; a value of another type is false.
pub fn truth_in(value: &Value) -> bool
    ensures { result ≡ truth_in value.now }
{
    match value {
        Value::Truth(truth) => *truth,
        Value::Int(_) | Value::Variant { .. } => false,
    }
}

/// Whether two values are equal, as `==` of an expression or a condition compares them.
pub fn same_value(left: &Value, right: &Value) -> bool
    ensures { result ≡ same_value left.now right.now }
{
    match (left, right) {
        (Value::Int(left), Value::Int(right)) => left.get() == right.get(),
        (Value::Truth(left), Value::Truth(right)) => *left == *right,
        (
            Value::Variant { kind, number },
            Value::Variant {
                kind: other_kind,
                number: other_number,
            },
        ) => *kind == *other_kind && *number == *other_number,
        _ => false,
    }
}
