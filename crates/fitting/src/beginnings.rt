//! Whether a state is that in which a task begins.

ghost use Rattle.std.specs.Prelude.{◌≡◌, ◌↔◌, ◌-◌, ◌++◌, IsTrue, length, replicate, slice_get};
ghost use Rattle.run_data.specs.TaskStates.{activity_begun, activity_slots, unset};

use aerie_base::{Model, Number, Value, same_list};
use run_data::{BodyId, TaskState};

/// How many locals the bodies of an activity type have.
fn slots_of(model: &Model, kind: u16) -> usize
    ensures { result ≡ activity_slots (slice_get model.now.activities kind) }
{
    match model.activities().get(usize::from(kind)) {
        Some(activity) => usize::from(activity.slots),
        None => 0,
    }
}

/// The value of a local that is not set yet.
fn unset() -> Value
    ensures { result ≡ unset }
{
    Value::Int(Number::new(0).unwrap())
}

/// Whether locals are not set yet.
fn are_unset(locals: &[Value]) -> bool
    ensures { IsTrue result ↔ (locals.now ≡ replicate (length locals.now) unset) }
{
    for value in locals {
        if *value != unset() {
            return false;
        }
    }
    true
}

/// Whether locals are these arguments, and those behind them, as many as are left of the slots, are not set yet.
fn are_begun(locals: &[Value], arguments: &[Value], slots: usize) -> bool
    ensures { IsTrue result ↔ (locals.now ≡ arguments.now ++ replicate (slots - length arguments.now) unset) }
{
    locals.len() == slots.max(arguments.len())
        && same_list(&locals[..arguments.len()], arguments)
        && are_unset(&locals[arguments.len()..])
}

/// Whether a state is that in which a task of an activity type begins.
pub(crate) fn begins(model: &Model, state: &TaskState, kind: u16, arguments: &[Value]) -> bool
    ensures { IsTrue result ↔ (state.now ≡ activity_begun model.now kind arguments.now) }
{
    state.kind == BodyId::Activity(kind)
        && state.at == 0
        && are_begun(state.locals.as_slice(), arguments, slots_of(model, kind))
}
