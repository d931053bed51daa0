//! What the windows of a rule are evaluated over. What they read is made once for a rule.

ghost use Rattle.std.specs.Prelude.{◌≡◌, ◌<◌, length, map, IfOk, IfSome};
ghost use Rattle.profiles.specs.OfRuns.{AreByNumber};
ghost use Rattle.run_data.specs.Fresh.{IsFresh};
ghost use Rattle.constraints.specs.Sources.{AreProfiles, AreSources, AreTimes, AreTimesIn, IsProfile, IsTimesIn, IsTimesOf};
ghost use Rattle.span_table.specs.AsDefined.{defined_span};
ghost use Rattle.span_table.specs.SpanLaws.{AreSpansOf};

use crate::forms::{names_resource, names_some_type, names_type};
use crate::span_times::type_times;
use crate::types::Window;
use aerie_base::{List, Model, OutOfMemory, Time};
use profiles::{Profile, profile};
use run_data::Run;
use span_table::{Span, spans};
use std::alloc::Global;
use windows::Windows;

/// A run of a model, and what was made of it beforehand.
#[derive(Drop)]
pub(crate) struct Sources<'a> {
    /// The model.
    pub(crate) model: &'a Model,
    /// Its run.
    pub(crate) run: &'a Run,
    /// The profiles of the resources that were read beforehand, by number.
    pub(crate) profiles: List<Option<Profile>>,
    /// The times of the spans of the activity types that were read beforehand, by number.
    pub(crate) times: List<Option<Windows>>,
}

impl<'a> Sources<'a> {
    /// What a window reads of a run: a profile for each resource that it names, and the spans of each type that it names.
    #[tactic(auto, using(crate::proofs::Known::none_known))]
    pub(crate) fn of(
        alloc: Global,
        model: &'a Model,
        run: &'a Run,
        window: &Window,
    ) -> Result<Sources<'a>, OutOfMemory>
        requires fresh { IsFresh model.now run.now.plan run.now.bound run.now }
        ensures model { IfOk result (λ sources. sources.model.now ≡ model.now) }
        ensures run { IfOk result (λ sources. sources.run.now ≡ run.now) }
        ensures sources { IfOk result AreSources }
    {
        let profiles = profiles_read(alloc, model, run, &[], window)?;
        let times = times_read(alloc, model, run, window)?;
        Ok(Sources {
            model,
            run,
            profiles,
            times,
        })
    }

    /// The same where the spans of the run are known, and the profiles of all its resources, or none.
    pub(crate) fn over(
        alloc: Global,
        model: &'a Model,
        run: &'a Run,
        spans: &[Span],
        known: &[Profile],
        window: &Window,
    ) -> Result<Sources<'a>, OutOfMemory>
        requires fresh { IsFresh model.now run.now.plan run.now.bound run.now }
        requires spans { AreSpansOf model.now run.now spans.now }
        requires known { AreByNumber model.now run.now known.now }
        ensures model { IfOk result (λ sources. sources.model.now ≡ model.now) }
        ensures run { IfOk result (λ sources. sources.run.now ≡ run.now) }
        ensures sources { IfOk result AreSources }
    {
        let profiles = profiles_read(alloc, model, run, known, window)?;
        let times = times_among(alloc, spans, window, run.reach)?;
        Ok(Sources {
            model,
            run,
            profiles,
            times,
        })
    }

    /// The profile of a resource. One that was not read beforehand is made.
    pub(crate) fn profile(&self, alloc: Global, number: u16) -> Result<Profile, OutOfMemory>
        requires sources { AreSources self.now }
        requires number { number < length self.now.model.now.resources }
        ensures { IfOk result (λ made. IsProfile self.now.model.now self.now.run.now number made) }
    {
        match self.profiles.get(usize::from(number)) {
            Some(Some(made)) => made.copy(alloc),
            _ => profile(alloc, self.model, self.run, number),
        }
    }

    /// The times of the spans of a type. Those that were not read beforehand are made.
    pub(crate) fn times(&self, alloc: Global, kind: u16) -> Result<Windows, OutOfMemory>
        requires sources { AreSources self.now }
        ensures { IfOk result (λ made. IsTimesOf self.now.model.now self.now.run.now kind made) }
    {
        match self.times.get(usize::from(kind)) {
            Some(Some(made)) => made.copy(alloc),
            _ => made_times(alloc, self.model, self.run, kind),
        }
    }
}

/// The times of the spans of a type.
fn made_times(alloc: Global, model: &Model, run: &Run, kind: u16) -> Result<Windows, OutOfMemory>
    ensures { IfOk result (λ made. IsTimesOf model.now run.now kind made) }
{
    let spans = spans(alloc, model, run)?;
    let made = type_times(alloc, spans.as_slice(), kind, run.reach)?;
    Ok(made)
}

/// The profile of a resource: a copy of the one that is known, or a new one.
fn profile_beside(
    alloc: Global,
    model: &Model,
    run: &Run,
    known: &[Profile],
    number: u16,
) -> Result<Profile, OutOfMemory>
    requires fresh { IsFresh model.now run.now.plan run.now.bound run.now }
    requires known { AreByNumber model.now run.now known.now }
    requires number { number < length model.now.resources }
    ensures { IfOk result (IsProfile model.now run.now number) }
{
    match known.get(usize::from(number)) {
        Some(made) => {
            let copy = made.copy(alloc)?;
            Ok(copy)
        }
        None => {
            let made = profile(alloc, model, run, number)?;
            Ok(made)
        }
    }
}

/// The profile of a resource, if the window names it.
fn profile_read(
    alloc: Global,
    model: &Model,
    run: &Run,
    known: &[Profile],
    window: &Window,
    number: u16,
) -> Result<Option<Profile>, OutOfMemory>
    requires fresh { IsFresh model.now run.now.plan run.now.bound run.now }
    requires known { AreByNumber model.now run.now known.now }
    ensures { IfOk result (λ made. IfSome made (IsProfile model.now run.now number)) }
{
    if usize::from(number) >= model.resources().len() || !names_resource(window, number) {
        return Ok(None);
    }
    let made = profile_beside(alloc, model, run, known, number)?;
    Ok(Some(made))
}

/// The profiles of the resources that the window names, by number: copies of those that are known, or new ones.
fn profiles_read(
    alloc: Global,
    model: &Model,
    run: &Run,
    known: &[Profile],
    window: &Window,
) -> Result<List<Option<Profile>>, OutOfMemory>
    requires fresh { IsFresh model.now run.now.plan run.now.bound run.now }
    requires known { AreByNumber model.now run.now known.now }
    ensures { IfOk result (AreProfiles model.now run.now) }
{
    let mut made = List::new(alloc);
    for number in 0..256u16 {
        let one = profile_read(alloc, model, run, known, window, number)?;
        made.push(one)?;
    }
    Ok(made)
}

/// The times of the spans of a type, if the window names it.
fn type_times_read(
    alloc: Global,
    spans: &[Span],
    window: &Window,
    kind: u16,
    reach: Time,
) -> Result<Option<Windows>, OutOfMemory>
    ensures { IfOk result (λ made. IfSome made (IsTimesIn reach (map defined_span spans.now) kind)) }
{
    if !names_type(window, kind) {
        return Ok(None);
    }
    let made = type_times(alloc, spans, kind, reach)?;
    Ok(Some(made))
}

/// The times of those of some spans that are of a type that the window names, by the number of the type.
fn times_among(
    alloc: Global,
    spans: &[Span],
    window: &Window,
    reach: Time,
) -> Result<List<Option<Windows>>, OutOfMemory>
    ensures { IfOk result (AreTimesIn reach (map defined_span spans.now)) }
{
    let mut made = List::new(alloc);
    if !names_some_type(window) {
        return Ok(made);
    }
    for kind in 0..256u16 {
        let one = type_times_read(alloc, spans, window, kind, reach)?;
        made.push(one)?;
    }
    Ok(made)
}

/// The times of the spans of each type that the window names, by number.
fn times_read(
    alloc: Global,
    model: &Model,
    run: &Run,
    window: &Window,
) -> Result<List<Option<Windows>>, OutOfMemory>
    ensures { IfOk result (AreTimes model.now run.now) }
{
    if !names_some_type(window) {
        return Ok(List::new(alloc));
    }
    let spans = spans(alloc, model, run)?;
    let made = times_among(alloc, spans.as_slice(), window, run.reach)?;
    Ok(made)
}
