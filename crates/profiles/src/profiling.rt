ghost use Rattle.std.specs.Prelude.{◌≡◌, ◌<◌, length, IsTrue, true, Some, IfOk};
ghost use Rattle.aerie_base.specs.models.Resources.{is_resource};
ghost use Rattle.aerie_base.specs.models.ValidModel.{valid_model};
ghost use Rattle.run_data.specs.Fresh.{IsFresh};
ghost use Rattle.profiles.specs.GivenValues.{summed_most, HasSlopes, HasValues, IsShortest, OfResource, StaysWithin};
ghost use Rattle.profiles.specs.Neighbours.{DivideTime, MayBeCompared, NoneContinues, starts_of};
ghost use Rattle.profiles.specs.OfRuns.{AreProfilesOf};
ghost use Rattle.profiles.specs.Profiles.{profile_at, profile_of};
ghost use Rattle.profiles.specs.Touches.{AreTouching};

use crate::discrete::value_profile;
use crate::linear::line_profile;
use crate::runs::can_be_followed;
use crate::sampling::Profile;
use crate::touches::{positions_of, positions_of_terms, touches};
use aerie_base::{List, Model, OutOfMemory, Resource};
use run_data::Run;
use std::alloc::Global;

/// The profile of a resource over a run, by the resource's number, counted from 0 in the order of the model. It goes once over what
/// the instants changed, and once over the instants that touch one of the resource's cells; `profiles` does the first once for all.
///
/// At each time below the run's reach the profile has the resource's value; its segments divide that time, are the fewest that
/// give the values and the rates, and none continues the one before it. Where the reach is 0 there is none. The segments of a
/// linear resource stay below 2^120, so that they may be compared with a number as windows; below the reach its value is at most
/// 16 * 10^24 from 0.
pub fn profile(
    alloc: Global,
    model: &Model,
    run: &Run,
    resource: u16,
) -> Result<Profile, OutOfMemory>
    requires fresh { IsFresh model.now run.now.plan run.now.bound run.now }
    requires resource { resource < length model.now.resources }
    ensures exact { IfOk result (λ profile. Some profile ≡ profile_at model.now run.now resource) }
    ensures values { IfOk result (OfResource model.now resource (HasValues model.now run.now)) }
    ensures slopes { IfOk result (OfResource model.now resource (HasSlopes model.now run.now)) }
    ensures fewest { IfOk result (OfResource model.now resource (IsShortest model.now run.now)) }
    ensures none_continues { IfOk result NoneContinues }
    ensures divide { IfOk result (λ profile. DivideTime run.now.reach (starts_of profile)) }
    ensures compared { IfOk result (MayBeCompared run.now.reach) }
    ensures within { IfOk result (StaysWithin summed_most run.now.reach) }
{
    let resources = model.resources();
    can_be_followed(model, run);
    let by_cell = touches(alloc, model, run)?;
    let at = usize::from(resource);
    let named = &resources[at];
    let made = profile_for(alloc, model, run, by_cell.as_slice(), &named.1)?;
    Ok(made)
}

/// The profiles of all resources over a run, in the order of the model. It goes once over what the instants changed, and for each
/// resource once over the instants that touch one of its cells: an instant that touches none leaves its segment as it is.
pub fn profiles(alloc: Global, model: &Model, run: &Run) -> Result<List<Profile>, OutOfMemory>
    requires fresh { IsFresh model.now run.now.plan run.now.bound run.now }
    ensures { IfOk result (AreProfilesOf model.now run.now) }
{
    let resources = model.resources();
    can_be_followed(model, run);
    let by_cell = touches(alloc, model, run)?;
    let mut profiles = List::with_capacity(alloc, resources.len())?;
    for named in resources {
        profiles.push(profile_for(alloc, model, run, by_cell.as_slice(), &named.1)?)?;
    }
    Ok(profiles)
}

/// The profile of a resource of the model.
#[tactic(auto, using(crate::proofs::Terms::read_there))]
fn profile_for(
    alloc: Global,
    model: &Model,
    run: &Run,
    by_cell: &[List<usize>],
    resource: &Resource,
) -> Result<Profile, OutOfMemory>
    requires valid { IsTrue (valid_model model.now) }
    requires fresh { IsFresh model.now run.now.plan run.now.bound run.now }
    requires touches { AreTouching run.now.instants (length model.now.cells) by_cell.now }
    requires resource { is_resource model.now.cells resource.now ≡ true }
    ensures { IfOk result (λ profile. profile ≡ profile_of model.now run.now resource.now) }
{
    match resource {
        Resource::Discrete(read) => {
            let positions = positions_of(by_cell, read.cell());
            let segments = value_profile(alloc, model, run, *read, positions)?;
            Ok(Profile::Discrete(segments))
        }
        Resource::Linear(form) => {
            let positions = positions_of_terms(alloc, by_cell, form.terms.as_slice())?;
            let segments = line_profile(alloc, model, run, form, positions.as_slice())?;
            Ok(Profile::Linear(segments))
        }
    }
}
