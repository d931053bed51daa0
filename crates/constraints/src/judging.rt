//! The violations of a constraint.

ghost use Rattle.std.specs.Prelude.{◌≡◌, ◌≤◌, ◌++◌, IsTrue, true, None, Some, IfOk, OnOk};
ghost use Rattle.std.specs.List.{All};
ghost use Rattle.profiles.specs.OfRuns.{AreByNumber, AreProfilesOf};
ghost use Rattle.run_data.specs.Fresh.{IsFresh};
ghost use Rattle.span_table.specs.SpanLaws.{AreSpansOf, IsInTime};
ghost use Rattle.constraints.specs.Judging.{times_held};
ghost use Rattle.constraints.specs.Local.{is_local as local};
ghost use Rattle.constraints.specs.OfModel.{is_constraint, is_window};
ghost use Rattle.constraints.specs.OverSources.{HoldsAsWindow, IsPrepared, all_violations_over, endless, held_over, not_held_over, violations_over};
ghost use Rattle.constraints.specs.Sources.{AreSources};
ghost use Rattle.constraints.specs.SpanWindows.{IsMargin, is_below};
ghost use Rattle.constraints.specs.Violating.{AreOfRule, listed_times, violations_of};
ghost use Rattle.constraints.specs.declared.types.Rule.TheVariants as rule;

use crate::evaluation::holding;
use crate::local::is_local;
use crate::meeting::meetings;
use crate::near_spans::{earlier_by, holding_near, later_by, margin};
use crate::preparing::for_spans;
use crate::sources::Sources;
use crate::span_times::{is_of_type, times_of};
use crate::span_windows::SpanWindow;
use crate::types::{Constraint, Rule, Window};
use crate::violation::Violation;
use aerie_base::{List, Model, OutOfMemory, Path, Time};
use profiles::Profile;
use run_data::Run;
use span_table::Span;
use std::alloc::Global;
use windows::Windows;

/// The violations of a constraint over a fresh run of its model: the times below the run's reach at which it does not
/// hold, as maximal intervals; of a rule for each span of a type those of each span by itself, in the order of the spans,
/// with the path of the span. A span for which there is no such time is not listed. The caller has found the spans of the run,
/// once for all constraints.
#[tactic(auto, using(crate::proofs::Known::none_known))]
pub fn violations(
    alloc: Global,
    model: &Model,
    run: &Run,
    spans: &[Span],
    constraint: &Constraint,
) -> Result<List<Violation>, OutOfMemory>
    requires fresh { IsFresh model.now run.now.plan run.now.bound run.now }
    requires spans { AreSpansOf model.now run.now spans.now }
    requires constraint { IsTrue (is_constraint model.now constraint.now) }
    ensures { IfOk result (λ found. found ≡ violations_of model.now run.now constraint.now) }
{
    judged(alloc, model, run, spans, &[], constraint)
}

/// The same where the caller has the profiles of the run too: what a rule names of them is not made again.
pub fn violations_beside(
    alloc: Global,
    model: &Model,
    run: &Run,
    spans: &[Span],
    profiles: &[Profile],
    constraint: &Constraint,
) -> Result<List<Violation>, OutOfMemory>
    requires fresh { IsFresh model.now run.now.plan run.now.bound run.now }
    requires spans { AreSpansOf model.now run.now spans.now }
    requires profiles { AreProfilesOf model.now run.now profiles.now }
    requires constraint { IsTrue (is_constraint model.now constraint.now) }
    ensures { IfOk result (λ found. found ≡ violations_of model.now run.now constraint.now) }
{
    judged(alloc, model, run, spans, profiles, constraint)
}

/// The violations of a constraint, where the profiles of all resources are known or none is.
fn judged(
    alloc: Global,
    model: &Model,
    run: &Run,
    spans: &[Span],
    known: &[Profile],
    constraint: &Constraint,
) -> Result<List<Violation>, OutOfMemory>
    requires fresh { IsFresh model.now run.now.plan run.now.bound run.now }
    requires spans { AreSpansOf model.now run.now spans.now }
    requires known { AreByNumber model.now run.now known.now }
    requires constraint { IsTrue (is_constraint model.now constraint.now) }
    ensures { IfOk result (λ found. found ≡ violations_of model.now run.now constraint.now) }
{
    match &constraint.rule {
        Rule::Plain(window) => plain(alloc, model, run, spans, known, window),
        Rule::Each { kind, window } => each(alloc, model, run, spans, known, *kind, window),
        Rule::Forbid(one, other) => forbid(alloc, model, run, spans, *one, *other),
    }
}

/// The times at which a window holds that speaks of no span which the rule is judged for. It takes steps as what the window
/// names has pieces, and as what is made of them.
pub fn window_times(
    alloc: Global,
    model: &Model,
    run: &Run,
    window: &Window,
) -> Result<Windows, OutOfMemory>
    requires fresh { IsFresh model.now run.now.plan run.now.bound run.now }
    requires window { IsTrue (is_window model.now window.now) }
    ensures { IfOk result (λ made. made ≡ times_held model.now run.now window.now None) }
{
    let sources = Sources::of(alloc, model, run, window)?;
    let made = held(alloc, &sources, window)?;
    Ok(made)
}

/// The times at which a window holds for no span.
fn held(alloc: Global, sources: &Sources, window: &Window) -> Result<Windows, OutOfMemory>
    requires sources { AreSources sources.now }
    requires window { IsTrue (is_window sources.now.model.now window.now) }
    ensures { IfOk result (λ made. made ≡ held_over sources.now window.now None) }
{
    let made = holding(alloc, sources, window, &None)?;
    Ok(made)
}

/// The times at which a window does not hold.
fn not_held(
    alloc: Global,
    sources: &Sources,
    window: &Window,
    bound: &Option<(Time, Time)>,
) -> Result<Windows, OutOfMemory>
    requires sources { AreSources sources.now }
    requires window { IsTrue (is_window sources.now.model.now window.now) }
    ensures { IfOk result (λ made. made ≡ not_held_over sources.now window.now bound.now) }
{
    let times = holding(alloc, sources, window, bound)?;
    let made = times.not(alloc)?;
    Ok(made)
}

/// Puts a violation at these times behind the others, unless there are none.
fn put(found: &mut List<Violation>, path: Option<Path>, times: Windows) -> Result<(), OutOfMemory>
    ensures { OnOk result (found.new ≡ found.old ++ listed_times path times) }
{
    if times.intervals().is_empty() {
        return Ok(());
    }
    found.push(Violation {
        path,
        intervals: times,
    })?;
    Ok(())
}

/// A violation at these times, unless there are none.
fn one_violation(alloc: Global, times: Windows) -> Result<List<Violation>, OutOfMemory>
    ensures { IfOk result (λ found. found ≡ listed_times None times) }
{
    let mut found = List::new(alloc);
    put(&mut found, None, times)?;
    Ok(found)
}

/// The violation of a rule that asks for a window at all times. It takes steps as the profiles of the resources that it
/// names have segments, and as there are spans of the types that it names.
fn plain(
    alloc: Global,
    model: &Model,
    run: &Run,
    spans: &[Span],
    known: &[Profile],
    window: &Window,
) -> Result<List<Violation>, OutOfMemory>
    requires fresh { IsFresh model.now run.now.plan run.now.bound run.now }
    requires spans { AreSpansOf model.now run.now spans.now }
    requires known { AreByNumber model.now run.now known.now }
    requires window { IsTrue (is_window model.now window.now) }
    ensures { IfOk result (AreOfRule model.now run.now (rule.Plain window.now)) }
{
    let sources = Sources::over(alloc, model, run, spans, known, window)?;
    let times = not_held(alloc, &sources, window, &None)?;
    let found = one_violation(alloc, times)?;
    Ok(found)
}

/// The violation of a rule that forbids two types at one time: one sweep over the spans, by their starts.
fn forbid(
    alloc: Global,
    model: &Model,
    run: &Run,
    spans: &[Span],
    one: u16,
    other: u16,
) -> Result<List<Violation>, OutOfMemory>
    requires spans { AreSpansOf model.now run.now spans.now }
    ensures { IfOk result (AreOfRule model.now run.now (rule.Forbid one other)) }
{
    let _ = model.activities();
    let times = meetings(alloc, spans, one, other, run.reach)?;
    let found = one_violation(alloc, times)?;
    Ok(found)
}

/// Puts the violation for a span behind the others, unless it has no times.
fn put_for_span(
    alloc: Global,
    found: &mut List<Violation>,
    span: &Span,
    times: Windows,
) -> Result<(), OutOfMemory>
    ensures { OnOk result (found.new ≡ found.old ++ listed_times (Some span.now.path) times) }
{
    let path = span.path.copy(alloc)?;
    put(found, Some(path), times)?;
    Ok(())
}

/// The times at which a window does not hold for a span: outside of its times those for no span, and within them those for
/// one that lasts as long as the run. It takes steps as the result has intervals, and three binary searches.
fn spliced(
    alloc: Global,
    sources: &Sources,
    window: &Window,
    outside: &Windows,
    inside: &Windows,
    times: &(Time, Time),
) -> Result<Windows, OutOfMemory>
    requires near { local window.now ≡ true }
    requires outside { outside.now ≡ not_held_over sources.now window.now None }
    requires inside { inside.now ≡ not_held_over sources.now window.now (endless sources.now) }
    requires order { times.now.0 ≤ times.now.1 }
    requires within { times.now.1 ≤ sources.now.run.now.reach }
    ensures { IfOk result (λ made. made ≡ not_held_over sources.now window.now (Some times.now)) }
{
    let made = outside.replaced(alloc, inside, times.0, times.1)?;
    Ok(made)
}

/// What is evaluated of a window for all spans of a rule.
#[derive(Drop)]
pub(crate) enum Prepared {
    /// Of a window that is local, the times at which it does not hold for no span, and for one that lasts as long as the run.
    Twice {
        outside: Windows,
        inside: Windows,
    },
    /// Of any other, its parts, the times at which it does not hold for no span, and how far from a span it may hold otherwise.
    Near {
        parts: SpanWindow,
        outside: Windows,
        margin: Time,
    },
}

/// Evaluates what may be evaluated once for all spans: a local window, twice; of any other, what does not speak of the span.
fn prepare(alloc: Global, sources: &Sources, window: &Window) -> Result<Prepared, OutOfMemory>
    requires sources { AreSources sources.now }
    requires window { IsTrue (is_window sources.now.model.now window.now) }
    ensures { IfOk result (IsPrepared sources.now window.now) }
{
    let outside = not_held(alloc, sources, window, &None)?;
    if is_local(window) {
        let endless = Some((Time::zero(), sources.run.reach));
        let inside = not_held(alloc, sources, window, &endless)?;
        return Ok(Prepared::Twice { outside, inside });
    }
    let parts = for_spans(alloc, sources, window)?;
    let margin = margin(&parts, sources.run.reach);
    Ok(Prepared::Near {
        parts,
        outside,
        margin,
    })
}

/// The times at which a window does not hold for a span: farther from it than the margin those for no span, and nearer those that its
/// parts give.
fn patched(
    alloc: Global,
    sources: &Sources,
    window: &Window,
    parts: &SpanWindow,
    outside: &Windows,
    margin: Time,
    times: &(Time, Time),
) -> Result<Windows, OutOfMemory>
    requires below { IsTrue (is_below sources.now.run.now.reach parts.now) }
    requires holds { HoldsAsWindow sources.now window.now parts.now }
    requires outside { outside.now ≡ not_held_over sources.now window.now None }
    requires margin { IsMargin sources.now.run.now.reach parts.now margin }
    requires order { times.now.0 ≤ times.now.1 }
    requires within { times.now.1 ≤ sources.now.run.now.reach }
    ensures { IfOk result (λ made. made ≡ not_held_over sources.now window.now (Some times.now)) }
{
    let reach = sources.run.reach;
    let from = earlier_by(times.0, margin);
    let to = later_by(times.1, margin, reach);
    let held = holding_near(alloc, reach, parts, times, from, to)?;
    let inside = held.not(alloc)?;
    let made = outside.replaced(alloc, &inside, from, to)?;
    Ok(made)
}

/// The times at which a window does not hold for a span of these times.
fn not_held_for(
    alloc: Global,
    sources: &Sources,
    window: &Window,
    prepared: &Prepared,
    times: &(Time, Time),
) -> Result<Windows, OutOfMemory>
    requires prepared { IsPrepared sources.now window.now prepared.now }
    requires order { times.now.0 ≤ times.now.1 }
    requires within { times.now.1 ≤ sources.now.run.now.reach }
    ensures { IfOk result (λ made. made ≡ not_held_over sources.now window.now (Some times.now)) }
{
    match prepared {
        Prepared::Twice { outside, inside } => {
            spliced(alloc, sources, window, outside, inside, times)
        }
        Prepared::Near {
            parts,
            outside,
            margin,
        } => patched(alloc, sources, window, parts, outside, *margin, times),
    }
}

/// Puts the violation for a span behind the others, if it is of the type and the window does not hold for it.
fn put_if_of_type(
    alloc: Global,
    found: &mut List<Violation>,
    sources: &Sources,
    window: &Window,
    prepared: &Prepared,
    span: &Span,
    kind: u16,
) -> Result<(), OutOfMemory>
    requires sources { AreSources sources.now }
    requires window { IsTrue (is_window sources.now.model.now window.now) }
    requires prepared { IsPrepared sources.now window.now prepared.now }
    requires in_time { IsInTime sources.now.run.now.reach span.now }
    ensures { OnOk result (found.new ≡ found.old ++ violations_over sources.now kind window.now span.now) }
{
    if !is_of_type(span, kind) {
        return Ok(());
    }
    let times = times_of(span, sources.run.reach);
    let made = not_held_for(alloc, sources, window, prepared, &times)?;
    put_for_span(alloc, found, span, made)?;
    Ok(())
}

/// The violations of a rule for each span of a type, with what was evaluated of its window for all of them.
fn each_prepared(
    alloc: Global,
    sources: &Sources,
    spans: &[Span],
    kind: u16,
    window: &Window,
    prepared: &Prepared,
) -> Result<List<Violation>, OutOfMemory>
    requires sources { AreSources sources.now }
    requires window { IsTrue (is_window sources.now.model.now window.now) }
    requires prepared { IsPrepared sources.now window.now prepared.now }
    requires in_time { All (IsInTime sources.now.run.now.reach) spans.now }
    ensures { IfOk result (λ found. found ≡ all_violations_over sources.now kind window.now spans.now) }
{
    let mut found = List::new(alloc);
    for span in spans {
        put_if_of_type(alloc, &mut found, sources, window, prepared, span, kind)?;
    }
    Ok(found)
}

/// The violations of a rule for each span of a type. A window that is local is evaluated twice for all spans, and each span
/// takes steps as its violation has intervals, and three binary searches. Of any other what does not speak of the span is evaluated
/// once for all spans, and each span takes steps besides as there are intervals of that no farther from it than `shift` and `longer`
/// look.
fn each_evaluated(
    alloc: Global,
    sources: &Sources,
    spans: &[Span],
    kind: u16,
    window: &Window,
) -> Result<List<Violation>, OutOfMemory>
    requires sources { AreSources sources.now }
    requires window { IsTrue (is_window sources.now.model.now window.now) }
    requires in_time { All (IsInTime sources.now.run.now.reach) spans.now }
    ensures { IfOk result (λ found. found ≡ all_violations_over sources.now kind window.now spans.now) }
{
    let prepared = prepare(alloc, sources, window)?;
    each_prepared(alloc, sources, spans, kind, window, &prepared)
}

/// The same over a run, with what the window reads of it.
fn each(
    alloc: Global,
    model: &Model,
    run: &Run,
    spans: &[Span],
    known: &[Profile],
    kind: u16,
    window: &Window,
) -> Result<List<Violation>, OutOfMemory>
    requires fresh { IsFresh model.now run.now.plan run.now.bound run.now }
    requires spans { AreSpansOf model.now run.now spans.now }
    requires known { AreByNumber model.now run.now known.now }
    requires window { IsTrue (is_window model.now window.now) }
    ensures { IfOk result (AreOfRule model.now run.now (rule.Each kind window.now)) }
{
    let sources = Sources::over(alloc, model, run, spans, known, window)?;
    let found = each_evaluated(alloc, &sources, spans, kind, window)?;
    Ok(found)
}
