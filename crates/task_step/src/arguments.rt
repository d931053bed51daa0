//! The values of arguments.

ghost use Rattle.std.specs.Prelude.{◌≡◌, IfOk, IsTrue, OnOk};
ghost use Rattle.run_data.specs.StepStates.{with_flags};
ghost use Rattle.run_data.specs.Steps.{valued_all};
ghost use Rattle.task_step.specs.Doable.{have_types};

use crate::step_state::StepState;
use aerie_base::{Expr, Fault, List, OutOfMemory, Value};
use std::alloc::Global;

/// The values of the expressions in their order, or the first fault.
pub(crate) fn values(
    alloc: Global,
    exprs: &[Expr],
    so_far: &mut StepState,
) -> Result<Result<List<Value>, Fault>, OutOfMemory>
    requires typed { IsTrue (have_types so_far.old exprs.now) }
    ensures values { IfOk result (λ values. values ≡ (valued_all exprs.now so_far.old).0) }
    ensures so_far { OnOk result (so_far.new ≡ (valued_all exprs.now so_far.old).1) }
    ensures with_flags { so_far.new ≡ with_flags so_far.old so_far.new.read_flags }
{
    let mut values = List::with_capacity(alloc, exprs.len())?;
    for expr in exprs {
        match so_far.value(expr) {
            Err(fault) => return Ok(Err(fault)),
            Ok(value) => values.push(value)?,
        }
    }
    Ok(Ok(values))
}
