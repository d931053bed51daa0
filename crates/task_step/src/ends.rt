//! How a step ends.

ghost use Rattle.std.specs.Prelude.{◌≡◌, ◌+◌, ◌^◌, ◌<◌, IfOk};
ghost use Rattle.aerie_base.specs.expressions.Arithmetic.{number_in};
ghost use Rattle.task_step.specs.Ends.{later_state, status_from, IsDelayBy};

use aerie_base::{Cond, Fault, List, Number, OutOfMemory, Shared, Value, number_in};
use run_data::{BodyId, Status, TaskState};
use std::alloc::Global;

/// How a statement ends a step, without the state from which the task goes on. It is small, since each statement is asked
/// for one; the step's status is made of it once.
#[derive(Drop)]
pub(crate) enum End {
    /// The task goes on later, by so many microseconds.
    Delayed(Number),
    /// The task goes on when the condition holds, with the locals filled in.
    Waiting(Shared<Cond>),
    /// The task goes on when the last child of the step has ended, whose result the local in this slot takes.
    Calling(Option<u16>),
    /// The body has ended, with this result.
    Done(Option<Value>),
    /// The task has faulted.
    Faulted(Fault),
}

/// How a delay by a value ends the step: a negative delay is a fault.
pub(crate) fn delay_of(value: &Value) -> End
    ensures { IsDelayBy (number_in value.now) result }
{
    match Number::new(number_in(value)) {
        Some(by) => {
            if by.get() < 0 {
                End::Faulted(Fault::NegativeDelay)
            } else {
                End::Delayed(by)
            }
        }
        None => unreachable!(),
    }
}

/// The state from which a task goes on behind a place of a body, with these locals.
fn state_behind(
    alloc: Global,
    kind: BodyId,
    at: u32,
    locals: List<Value>,
) -> Result<Shared<TaskState>, OutOfMemory>
    requires { at + 1 < 2 ^ 32 }
    ensures { IfOk result (λ state. state ≡ later_state kind at locals) }
{
    let state = TaskState {
        kind,
        at: at + 1,
        locals,
    };
    Shared::new(alloc, state)
}

/// The status of a step that ends so at a place of a body, with these locals. Where the task goes on, its state is made once, for
/// all who have it.
pub(crate) fn status_of(
    alloc: Global,
    end: End,
    kind: BodyId,
    at: u32,
    locals: List<Value>,
) -> Result<Status, OutOfMemory>
    requires { at + 1 < 2 ^ 32 }
    ensures { IfOk result (λ status. status ≡ status_from end (later_state kind at locals)) }
{
    match end {
        End::Delayed(by) => {
            let next = state_behind(alloc, kind, at, locals)?;
            Ok(Status::Delayed { by, next })
        }
        End::Waiting(condition) => {
            let next = state_behind(alloc, kind, at, locals)?;
            Ok(Status::Waiting { condition, next })
        }
        End::Calling(into) => {
            let next = state_behind(alloc, kind, at, locals)?;
            Ok(Status::Calling { into, next })
        }
        End::Done(result) => Ok(Status::Done(result)),
        End::Faulted(fault) => Ok(Status::Faulted(fault)),
    }
}
