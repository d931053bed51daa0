ghost use Rattle.std.specs.Prelude.{◌≡◌, ◌++◌, ◌-◌, IfOk, length, replicate, slice_get};
ghost use Rattle.run_data.specs.TaskStates.{activity_begun, activity_slots, daemon_begun, unset};

use aerie_base::{Daemon, List, Model, Number, OutOfMemory, Shared, Value};
use run_data::{BodyId, TaskState};
use std::alloc::Global;

/// The state in which a task of an activity type begins: at the first place of its body, with its arguments and its other
/// locals not set. A number that is none of the model's types has no locals but the arguments.
pub fn activity_state(
    alloc: Global,
    model: &Model,
    kind: u16,
    arguments: &[Value],
) -> Result<Shared<TaskState>, OutOfMemory>
    ensures { IfOk result (λ state. state ≡ activity_begun model.now kind arguments.now) }
{
    let arguments = Vec::from_slice(alloc, arguments)?;
    let locals = filled(List::from_vec(arguments), slots_of(model, kind))?;
    let state = TaskState {
        kind: BodyId::Activity(kind),
        at: 0,
        locals,
    };
    Shared::new(alloc, state)
}

/// The state in which the task of a daemon begins: at the first place of its body, with no local set.
pub fn daemon_state(
    alloc: Global,
    number: u16,
    daemon: &Daemon,
) -> Result<Shared<TaskState>, OutOfMemory>
    ensures { IfOk result (λ state. state ≡ daemon_begun number daemon.now) }
{
    let locals = filled(List::new(alloc), daemon.slots)?;
    let state = TaskState {
        kind: BodyId::Daemon(number),
        at: 0,
        locals,
    };
    Shared::new(alloc, state)
}

/// How many locals the bodies of an activity type have.
fn slots_of(model: &Model, kind: u16) -> u16
    ensures { result ≡ activity_slots (slice_get model.now.activities kind) }
{
    match model.activities().get(usize::from(kind)) {
        Some(activity) => activity.slots,
        None => 0,
    }
}

/// The value of a local that is not set yet.
fn unset() -> Value
    ensures { result ≡ unset }
{
    Value::Int(Number::new(0).unwrap())
}

/// The locals, and so many behind them that are not set that there are as many as slots.
fn filled(locals: List<Value>, slots: u16) -> Result<List<Value>, OutOfMemory>
    ensures { IfOk result (λ all. all ≡ locals ++ replicate (slots - length locals) unset) }
{
    let mut all = locals;
    while all.len() < usize::from(slots) {
        all.push(unset())?;
    }
    Ok(all)
}
