//! What rules read, over the time of a run.

ghost use Rattle.std.specs.Prelude.{◌≡◌, IsTrue, IfOk};
ghost use Rattle.constraints.specs.HeldTimes.{HasTimes};
ghost use Rattle.constraints.specs.OfModel.{reads_number, is_truth, may_be_equal};
ghost use Rattle.constraints.specs.OverSources.{AreEqualOver, FollowOver, truth_over};
ghost use Rattle.constraints.specs.Sources.{AreSources};
ghost use Rattle.constraints.specs.declared.types.Reading.TheVariants as read;

use crate::sources::Sources;
use crate::steps::{flat_segments, times_equal, truth_steps};
use crate::types::Reading;
use aerie_base::{List, Name, OutOfMemory, Value};
use dataset_in::Series;
use profiles::Profile;
use std::alloc::Global;
use windows::{Segment, Windows};

/// The times at which a resource is equal to a value, or unequal.
fn resource_times(
    alloc: Global,
    sources: &Sources,
    number: u16,
    value: &Value,
    equal: bool,
) -> Result<Windows, OutOfMemory>
    requires sources { AreSources sources.now }
    requires typed { IsTrue (may_be_equal sources.now.model.now (read.Resource number) value.now) }
    ensures { IfOk result (AreEqualOver sources.now (read.Resource number) value.now equal) }
{
    let reach = sources.run.reach;
    let profile = sources.profile(alloc, number)?;
    match profile {
        Profile::Discrete(steps) => {
            let made = times_equal(alloc, reach, steps.as_slice(), value, equal)?;
            Ok(made)
        }
        Profile::Linear(_) => {
            let made = Windows::of_spans(alloc, reach, &[])?;
            Ok(made)
        }
    }
}

/// The times at which a dataset is equal to a value, or unequal.
fn series_times(
    alloc: Global,
    sources: &Sources,
    _name: &Name,
    series: &Series,
    value: &Value,
    equal: bool,
) -> Result<Windows, OutOfMemory>
    requires typed { IsTrue (may_be_equal sources.now.model.now (read.Series _name.now series.now) value.now) }
    ensures { IfOk result (AreEqualOver sources.now (read.Series _name.now series.now) value.now equal) }
{
    let reach = sources.run.reach;
    match series {
        Series::Truth(entries) => {
            let steps = truth_steps(alloc, entries.as_slice())?;
            let made = times_equal(alloc, reach, steps.as_slice(), value, equal)?;
            Ok(made)
        }
        Series::Whole(_) | Series::Linear(_) => {
            let made = Windows::of_spans(alloc, reach, &[])?;
            Ok(made)
        }
    }
}

/// The times at which what a rule reads is equal to a value, or unequal.
pub(crate) fn reading_times(
    alloc: Global,
    sources: &Sources,
    reading: &Reading,
    value: &Value,
    equal: bool,
) -> Result<Windows, OutOfMemory>
    requires sources { AreSources sources.now }
    requires typed { IsTrue (may_be_equal sources.now.model.now reading.now value.now) }
    ensures { IfOk result (AreEqualOver sources.now reading.now value.now equal) }
{
    match reading {
        Reading::Resource(number) => resource_times(alloc, sources, *number, value, equal),
        Reading::Series { name, series } => {
            series_times(alloc, sources, name, series.get(), value, equal)
        }
    }
}

/// The times at which a truth holds.
pub(crate) fn truth_times(
    alloc: Global,
    sources: &Sources,
    reading: &Reading,
) -> Result<Windows, OutOfMemory>
    requires sources { AreSources sources.now }
    requires typed { IsTrue (is_truth sources.now.model.now reading.now) }
    ensures reach { IfOk result (λ made. made.reach ≡ sources.now.run.now.reach) }
    ensures times { IfOk result (HasTimes (truth_over sources.now reading.now)) }
{
    let made = reading_times(alloc, sources, reading, &Value::Truth(true), true)?;
    Ok(made)
}

/// A resource of whole numbers as straight pieces.
fn resource_segments(
    alloc: Global,
    sources: &Sources,
    number: u16,
) -> Result<List<Segment>, OutOfMemory>
    requires sources { AreSources sources.now }
    requires typed { IsTrue (reads_number sources.now.model.now (read.Resource number)) }
    ensures { IfOk result (FollowOver sources.now (read.Resource number)) }
{
    let profile = sources.profile(alloc, number)?;
    match profile {
        Profile::Discrete(steps) => {
            let made = flat_segments(alloc, steps.as_slice())?;
            Ok(made)
        }
        Profile::Linear(segments) => Ok(segments),
    }
}

/// A dataset of numbers as straight pieces.
fn series_segments(
    alloc: Global,
    sources: &Sources,
    _name: &Name,
    series: &Series,
) -> Result<List<Segment>, OutOfMemory>
    requires typed { IsTrue (reads_number sources.now.model.now (read.Series _name.now series.now)) }
    ensures { IfOk result (FollowOver sources.now (read.Series _name.now series.now)) }
{
    let reach = sources.run.reach;
    reach.get();
    let made = series.segments(alloc, reach)?;
    Ok(List::from_vec(made))
}

/// What a rule reads as straight pieces.
pub(crate) fn reading_segments(
    alloc: Global,
    sources: &Sources,
    reading: &Reading,
) -> Result<List<Segment>, OutOfMemory>
    requires sources { AreSources sources.now }
    requires typed { IsTrue (reads_number sources.now.model.now reading.now) }
    ensures { IfOk result (FollowOver sources.now reading.now) }
{
    match reading {
        Reading::Resource(number) => resource_segments(alloc, sources, *number),
        Reading::Series { name, series } => series_segments(alloc, sources, name, series.get()),
    }
}
