ghost use Rattle.std.specs.Prelude.{◌≡◌, pos, map, option_map, unwrap_or, Some, IfOk};
ghost use Rattle.windows.specs.Linear.{segments_value};
ghost use Rattle.windows.specs.Begun.{HaveBegun, last_begun};
ghost use Rattle.profiles.specs.Samples.{CanBeSampled, IsLineAt, sample_at};
ghost use Rattle.profiles.specs.declared.sampling.Sample.TheVariants as sample;
ghost use Rattle.aerie_base.specs.declared.values.Value.TheVariants.{Int};

use aerie_base::{List, OutOfMemory, Time, Value};
use std::alloc::Global;
use windows::{Segment, last_begun};

/// A resource over the time of a run: segments in order of time, each from its start to the next one or to the reach of the
/// run. The first begins at 0, and none continues the one before it; where the reach is 0 there is none.
#[derive(Debug, Drop)]
pub enum Profile {
    /// Values that stay until the next segment, each with the time in microseconds at which it begins.
    Discrete(List<(Time, Value)>),
    /// Values that rise or fall evenly.
    Linear(List<Segment>),
}

/// What a profile has at a time.
#[derive(Clone, Copy, Debug, PartialEq, Eq)]
pub enum Sample {
    /// A value of a discrete resource.
    Value(Value),
    /// A value of a linear resource.
    Sum(i128),
}

/// The last value that begins no later.
fn value_before(segments: &[(Time, Value)], t: Time) -> Value
    requires { HaveBegun t (map (λ segment. segment.0) segments.now) }
    ensures { Some result ≡ option_map (λ segment. segment.1) (last_begun (λ segment. segment.0) segments.now t) }
{
    last_begun(segments, t).1
}

/// What a discrete profile has at a time.
fn value_sample(segments: &[(Time, Value)], t: Time) -> Sample
    requires { HaveBegun t (map (λ segment. segment.0) segments.now) }
    ensures { result ≡ sample.Value (unwrap_or (option_map (λ segment. segment.1) (last_begun (λ segment. segment.0) segments.now t)) (Int (pos 0))) }
{
    let value = value_before(segments, t);
    Sample::Value(value)
}

/// The sum of a linear profile at a time.
#[tactic(auto, using(windows::specs::BegunLaws::linear_is))]
fn sum_before(segments: &[Segment], t: Time) -> i128
    requires { IsLineAt segments.now t }
    ensures { result ≡ segments_value segments.now t }
{
    last_begun(segments, t).value_at(t)
}

impl Profile {
    /// What the profile has at a time: the value of the last segment that begins no later, of a linear one with its rate times the
    /// rest added. It takes no memory, and as many steps as the number of segments has digits.
    pub fn at(&self, t: Time) -> Sample
        requires { CanBeSampled self.now t }
        ensures { result ≡ sample_at self.now t }
    {
        match self {
            Profile::Discrete(segments) => value_sample(segments.as_slice(), t),
            Profile::Linear(segments) => Sample::Sum(sum_before(segments.as_slice(), t)),
        }
    }

    /// An equal profile.
    pub fn copy(&self, alloc: Global) -> Result<Profile, OutOfMemory>
        ensures { IfOk result (λ copy. copy ≡ self.now) }
    {
        match self {
            Profile::Discrete(segments) => {
                let copy = Vec::from_slice(alloc, segments.as_slice())?;
                Ok(Profile::Discrete(List::from_vec(copy)))
            }
            Profile::Linear(segments) => {
                let copy = Vec::from_slice(alloc, segments.as_slice())?;
                Ok(Profile::Linear(List::from_vec(copy)))
            }
        }
    }
}
