//! The `require`s of a type, on values of its parameters.

ghost use Rattle.std.specs.Prelude.{◌≡◌, ◌≤◌, IsTrue, length, slice_get};
ghost use Rattle.std.specs.List.{list_all};
ghost use Rattle.aerie_base.specs.models.Limits.{require_limit};
ghost use Rattle.aerie_base.specs.plans.OfModel.{takes};
ghost use Rattle.plan_edit.specs.Requires.{first_unmet as first_unmet_by, unmet_of_type, is_met as is_met_by, is_typed_for};

use crate::items::item_at;
use aerie_base::{CellRead, Expr, Fault, Look, Model, Value, eval, truth_in};

/// A place to read from: nothing at all, or registers that are all false. A `require` reads none, so it is judged where
/// there is nothing.
#[derive(Drop)]
struct Registers {
    are_there: bool,
}

impl Look for Registers {
    ghost use Rattle.std.specs.Prelude.{[]};
    ghost use Rattle.plan_edit.specs.RequireLaws.{readings_if};
    ghost use Rattle.plan_edit.specs.Requires.{kinds_if, no_reads};

    ghost kinds = { λ look. kinds_if look.are_there };

    ghost values = { λ look. no_reads };

    ghost read_flags = { λ look. [] };

    ghost Unchanged = { Unit {0} };

    ghost unchanged = { λ look. tt };

    ghost readings = { λ look. readings_if look.are_there };

    fn look(&mut self, _read: CellRead) -> Result<Value, Fault> {
        Ok(Value::Truth(false))
    }
}

/// Whether a `require` is true of the values of the parameters; one that faults is not.
fn is_met(expr: &Expr, values: &[Value]) -> bool
    requires { IsTrue (is_typed_for values.now expr.now) }
    ensures { result ≡ is_met_by values.now expr.now }
{
    match eval(expr, values, &mut Registers { are_there: false }) {
        Ok(value) => truth_in(&value),
        Err(_) => false,
    }
}

/// The number of the first of some `require`s that is not true, from 0.
pub fn first_unmet(exprs: &[Expr], values: &[Value]) -> Option<u32>
    requires typed { IsTrue (list_all (is_typed_for values.now) exprs.now) }
    requires few { length exprs.now ≤ require_limit }
    ensures { result ≡ first_unmet_by 0 values.now exprs.now }
{
    for number in 0..exprs.len() {
        if !is_met(&exprs[number], values) {
            return Some(number as u32);
        }
    }
    None
}

/// The number of the first `require` of an activity type that is not true of values of its parameters, from 0.
pub fn unmet_require(model: &Model, kind: u16, values: &[Value]) -> Option<u32>
    requires { IsTrue (takes model.now.enums (slice_get model.now.activities kind) values.now) }
    ensures { result ≡ unmet_of_type (slice_get model.now.activities kind) values.now }
{
    match item_at(model.activities(), usize::from(kind)) {
        Some(activity) => first_unmet(activity.requires_.as_slice(), values),
        None => None,
    }
}
