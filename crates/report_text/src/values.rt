//! How values are written.

ghost use Rattle.plan_edit.specs.ShownPlan.{json_of_value};

use crate::wordings::Wording;
use aerie_base::{OutOfMemory, Value};
use json_line::{JsonIn, JsonLine};

/// A whole number is written as it is, a truth as it is, a variant as its word.
impl<'a> JsonIn<Wording<'a>> for Value {
    ghost data_in = { λ model value. json_of_value model.enums value };

    #[tactic(auto, using(crate::proofs::Numbers::numbers_are_integers))]
    fn write_in(&self, wording: &Wording<'a>, line: &mut JsonLine) -> Result<(), OutOfMemory> {
        match self {
            Value::Int(number) => line.integer(number.get()),
            Value::Truth(truth) => line.truth(*truth),
            Value::Variant { kind, number } => line.text(wording.word(*kind, *number)),
        }
    }
}
