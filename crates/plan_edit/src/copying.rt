//! Plans are copied.

ghost use Rattle.std.specs.Prelude.{◌≡◌, IfOk};

use aerie_base::{OutOfMemory, Plan};
use std::alloc::Global;

/// An equal plan, at a cost linear in its size.
pub fn copy_plan(alloc: Global, plan: &Plan) -> Result<Plan, OutOfMemory>
    ensures { IfOk result (λ copy. copy ≡ plan.now) }
{
    plan.copy(alloc)
}
