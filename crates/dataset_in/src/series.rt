//! Series, and what they say at a time.

ghost use Rattle.std.specs.Prelude.{◌≡◌, ◌≤◌, ◌<◌, ℕ, map, pos, ◌+ℤ◌, ◌*ℤ◌, IfOk};
ghost use Rattle.std.specs.List.{All};
ghost use Rattle.aerie_base.specs.Ranges.{IsNumber, IsRate, IsTime};
ghost use Rattle.windows.specs.Begun.{last_begun};
ghost use Rattle.windows.specs.Linear.{AreSegments, segment_value, segments_value};
ghost use Rattle.dataset_in.specs.Levels.{before, constant, level_at, segments_of, truth_of};
ghost use Rattle.dataset_in.specs.Series.{AreStarts, IsOfNumbers, IsSeries};

use aerie_base::{List, Number, OutOfMemory, Time};
use std::alloc::Global;
use windows::{Segment, last_begun};

/// Values over time, in segments: each has its value from its start to the next one, and the last one for ever. A series
/// that was read has a segment at 0, later ones rise, and its numbers and rates are in their ranges.
#[derive(Debug, Drop)]
pub enum Series {
    /// Truths.
    Truth(List<(Time, bool)>),
    /// Whole numbers from -10^18 to 10^18.
    Whole(List<(Time, Number)>),
    /// Numbers that rise or fall evenly: a value from -10^18 to 10^18, and a rate from -10^12 to 10^12 a microsecond.
    Linear(List<Segment>),
}

/// What a series says at a time.
#[derive(Clone, Copy, Debug, PartialEq, Eq)]
pub enum Level {
    /// A truth.
    Truth(bool),
    /// A number.
    Sum(i128),
}

impl Series {
    /// The value at a time: that of the last segment which begins no later, for a linear series with its rate times the
    /// rest added. It takes no memory, and as many steps as the number of segments has digits.
    pub fn at(&self, t: Time) -> Level
        requires { IsSeries self.now }
        ensures { result ≡ level_at self.now t }
    {
        match self {
            Series::Truth(entries) => Level::Truth(truth_at(entries.as_slice(), t)),
            Series::Whole(entries) => Level::Sum(whole_at(entries.as_slice(), t)),
            Series::Linear(segments) => Level::Sum(linear_at(segments.as_slice(), t)),
        }
    }

    /// The segments that begin before the reach, of a series of numbers: they give its value at each time below the reach.
    /// It takes time linear in the segments.
    pub fn segments(&self, alloc: Global, reach: Time) -> Result<Vec<Segment>, OutOfMemory>
        requires series { IsSeries self.now }
        requires numbers { IsOfNumbers self.now }
        ensures exact { IfOk result (λ segments. segments.items ≡ before reach (segments_of self.now)) }
        ensures values { IfOk result (λ segments. (t : ℕ) → t < reach → segments_value segments.items t ≡ segments_value (segments_of self.now) t) }
        ensures form { IfOk result (λ segments. AreSegments reach segments.items) }
    {
        match self {
            Series::Truth(_) => Ok(Vec::new(alloc)),
            Series::Whole(entries) => whole_before(alloc, entries.as_slice(), reach),
            Series::Linear(segments) => linear_before(alloc, segments.as_slice(), reach),
        }
    }
}

/// The whole numbers that begin before the reach, as segments.
fn whole_before(
    alloc: Global,
    entries: &[(Time, Number)],
    reach: Time,
) -> Result<Vec<Segment>, OutOfMemory>
    ensures exact { IfOk result (λ segments. segments.items ≡ before reach (map constant entries.now)) }
    ensures time { IsTime reach }
{
    let end = reach.get();
    let mut segments = Vec::new(alloc);
    for entry in entries {
        if end <= entry.0.get() {
            return Ok(segments);
        }
        segments.push(constant(entry.0, entry.1))?;
    }
    Ok(segments)
}

/// A whole number that stays until the next segment.
fn constant(from: Time, value: Number) -> Segment
    ensures { result ≡ constant (from, value) }
{
    Segment {
        from,
        value: sum_of(value),
        rate: 0,
    }
}

/// The segments that begin before the reach.
fn linear_before(
    alloc: Global,
    segments: &[Segment],
    reach: Time,
) -> Result<Vec<Segment>, OutOfMemory>
    ensures exact { IfOk result (λ before_reach. before_reach.items ≡ before reach segments.now) }
    ensures time { IsTime reach }
{
    let end = reach.get();
    let mut before_reach = Vec::new(alloc);
    for segment in segments {
        if end <= segment.from.get() {
            return Ok(before_reach);
        }
        before_reach.push(*segment)?;
    }
    Ok(before_reach)
}

/// The truth at a time.
#[tactic(auto, using(crate::proofs::LastBegun::have_begun))]
fn truth_at(entries: &[(Time, bool)], t: Time) -> bool
    requires { AreStarts (map (λ entry. entry.0) entries.now) }
    ensures { result ≡ truth_of (last_begun (λ entry. entry.0) entries.now t) }
{
    last_begun(entries, t).1
}

/// The whole number at a time.
#[tactic(auto, using(crate::proofs::LastBegun::constant_is, crate::proofs::LastBegun::have_begun))]
fn whole_at(entries: &[(Time, Number)], t: Time) -> i128
    requires { AreStarts (map (λ entry. entry.0) entries.now) }
    ensures { result ≡ segments_value (map constant entries.now) t }
{
    sum_of(last_begun(entries, t).1)
}

/// The value of straight pieces at a time.
#[tactic(auto, using(windows::specs::BegunLaws::linear_is, crate::proofs::LastBegun::have_begun))]
fn linear_at(segments: &[Segment], t: Time) -> i128
    requires starts { AreStarts (map (λ segment. segment.from) segments.now) }
    requires ranges { All (λ segment. IsNumber segment.value × IsRate segment.rate) segments.now }
    ensures { result ≡ segments_value segments.now t }
{
    value_of(last_begun(segments, t), t)
}

/// A number of a model as a sum.
fn sum_of(number: Number) -> i128
    ensures { result ≡ number }
{
    i128::from(number.get())
}

/// The value of a straight piece that has begun.
fn value_of(segment: &Segment, t: Time) -> i128
    requires value { IsNumber segment.now.value }
    requires rate { IsRate segment.now.rate }
    requires begun { segment.now.from ≤ t }
    ensures { result ≡ segment_value segment.now t }
{
    value_after(segment.value, segment.rate, segment.from.micros_until(t))
}

/// The value so many microseconds later.
fn value_after(value: i128, rate: i128, dt: u128) -> i128
    requires value { IsNumber value }
    requires rate { IsRate rate }
    requires time { IsTime dt }
    ensures { result ≡ value +ℤ rate *ℤ pos dt }
{
    value + rate * dt as i128
}
