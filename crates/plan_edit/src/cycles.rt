//! Cycles of anchors.

ghost use Rattle.std.specs.Prelude.{◌≡◌, ◌<◌, ◌^◌, IfOk, length, is_some};
ghost use Rattle.std.specs.List.{list_any};
ghost use Rattle.aerie_base.specs.plans.OfModel.{Rise};
ghost use Rattle.plan_edit.specs.Loading.{has_cycle as has_cycle_by};

use aerie_base::{Directive, OutOfMemory};
use plan_merge::reached_after_enough;
use std::alloc::Global;

/// Whether following anchors from one of some directives returns to it, in about as many steps as there are directives times
/// the square of its logarithm.
pub fn has_cycle(alloc: Global, directives: &[Directive]) -> Result<bool, OutOfMemory>
    requires rising { Rise directives.now }
    requires few { length directives.now < 2 ^ 32 }
    ensures { IfOk result (λ has. has ≡ has_cycle_by directives.now) }
{
    let reached = reached_after_enough(alloc, directives)?;
    Ok(is_any_reached(reached.as_slice()))
}

/// Whether something is reached.
fn is_any_reached(reached: &[Option<u64>]) -> bool
    ensures { result ≡ list_any is_some reached.now }
{
    reached.iter().any(|one| one.is_some())
}
