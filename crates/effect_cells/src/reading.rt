ghost use Rattle.std.specs.Prelude.{◌≡◌, Some};
ghost use Rattle.aerie_base.specs.expressions.Arithmetic.{ranged};
ghost use Rattle.aerie_base.specs.expressions.Readings.{on_number, rate_ranged, reading};
ghost use Rattle.effect_cells.specs.Reads.{state_value};

use crate::effects::CellState;
use crate::states::{FASTEST, MOST};
use aerie_base::{CellRead, Fault, Number, Value};

impl CellState {
    /// What the read gives of the state of its cell: the value that it has, and `Range` where that is a number out of its
    /// range. A read of another kind than the cell, which never comes, has 0.
    pub fn read(&self, read: CellRead) -> Result<Value, Fault>
        ensures { result ≡ reading read (state_value read (Some self.now)) }
    {
        match (read, self) {
            (CellRead::Counter(_), CellState::Counter(number)) => number_read(*number),
            (CellRead::Register(_), CellState::Register { value, .. }) => value_read(value),
            (CellRead::Conflicted(_), CellState::Register { conflicted, .. }) => {
                Ok(Value::Truth(*conflicted))
            }
            (CellRead::Volume(_), CellState::Volume { volume, .. }) => number_read(*volume),
            (CellRead::Rate(_), CellState::Volume { rate, .. }) => rate_read(*rate),
            _ => number_read(0),
        }
    }
}

/// A whole number that is read.
fn number_read(number: i128) -> Result<Value, Fault>
    ensures { result ≡ ranged number }
{
    if number < -MOST || MOST < number {
        return Err(Fault::Range);
    }
    match Number::new(number as i64) {
        Some(number) => Ok(Value::Int(number)),
        None => Err(Fault::Range),
    }
}

/// A rate that is read.
fn rate_read(rate: i128) -> Result<Value, Fault>
    ensures { result ≡ rate_ranged rate }
{
    if rate < -FASTEST || FASTEST < rate {
        return Err(Fault::Range);
    }
    match Number::new(rate as i64) {
        Some(rate) => Ok(Value::Int(rate)),
        None => Err(Fault::Range),
    }
}

/// The value of a register that is read.
fn value_read(value: &Value) -> Result<Value, Fault>
    ensures { result ≡ on_number ranged value.now }
{
    match value {
        Value::Int(number) => number_read(i128::from(number.get())),
        Value::Truth(_) | Value::Variant { .. } => Ok(*value),
    }
}
