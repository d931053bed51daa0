//! Fresh runs as they are followed from instant to instant.

ghost use Rattle.std.specs.Prelude.{◌≡◌, ◌<◌, IsTrue, Some, length, slice_get};
ghost use Rattle.aerie_base.specs.models.ValidModel.{valid_model};
ghost use Rattle.run_data.specs.Fresh.{IsFresh};
ghost use Rattle.profiles.specs.Followed.{CanBeFollowed};

use aerie_base::{Model, Shared};
use run_data::laws::{fresh_runs, instants_rise};
use run_data::{Instant, Run};

/// The instants of a fresh run rise from the start of the plan, each lists the cells that it changed in order, and below the reach
/// the cells are in range.
pub(crate) fn can_be_followed(model: &Model, run: &Run)
    requires valid { IsTrue (valid_model model.now) }
    requires fresh { IsFresh model.now run.now.plan run.now.bound run.now }
    ensures { CanBeFollowed model.now run.now }
{
    fresh_runs();
    instants_rise();
}

/// The instant at a position.
pub(crate) fn instant_at(instants: &[Shared<Instant>], at: usize) -> &Instant
    requires { at < length instants.now }
    ensures { slice_get instants.now at ≡ Some result.now }
{
    instants[at].get()
}
