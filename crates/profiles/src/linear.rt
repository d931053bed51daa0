//! Profiles of linear resources.

ghost use Rattle.std.specs.Prelude.{◌≡◌, ◌≤◌, ◌<◌, ◌-◌, ◌^◌, ◌&&◌, ◌++◌, pos, ◌+ℤ◌, ◌*ℤ◌, [], ◌∷◌, IsTrue, List, length, map, if◌then◌else◌, IfOk, OnOk};
ghost use Rattle.std.specs.List.{All};
ghost use Rattle.std.specs.Int.RustNames.{unsigned_abs};
ghost use Rattle.std.specs.Ordering.{int_eq};
ghost use Rattle.aerie_base.specs.Ranges.{IsTime};
ghost use Rattle.aerie_base.specs.models.Resources.{is_sum};
ghost use Rattle.aerie_base.specs.models.ValidModel.{valid_model};
ghost use Rattle.run_data.specs.Fresh.{IsFresh};
ghost use Rattle.run_data.specs.Values.{rate_at};
ghost use Rattle.windows.specs.Linear.{segment_value};
ghost use Rattle.profiles.specs.Profiles.{resource_sum};
ghost use Rattle.profiles.specs.Segments.{line_segments};
ghost use Rattle.profiles.specs.States.{RiseFrom};
ghost use Rattle.profiles.specs.Touches.{CoversTouches, IsReadBy};
ghost use Rattle.profiles.specs.Watching.{IsModerate, IsWatchable, advanced, summed_line};

use crate::runs::{can_be_followed, instant_at};
use crate::touches::behind_first;
use crate::watching::{Watched, advance_all, line_from, watched_terms};
use aerie_base::{Linear, List, Model, OutOfMemory, Time};
use run_data::{Instant, Run};
use std::alloc::Global;
use windows::Segment;

/// Moves the cells to the next instant, and gives the straight piece that they are from there on.
fn line_after(watched: &mut Vec<Watched>, from: Time, instant: &Instant) -> Segment
    requires time { from ≤ instant.now.time }
    requires watched { All IsWatchable watched.old.items }
    requires few { length watched.old.items ≤ 16 }
    requires rise { RiseFrom 0 instant.now.changed }
    requires settled { All IsWatchable (map (advanced (instant.now.time - from) instant.now.changed) watched.old.items) }
    ensures watched { watched.new.items ≡ map (advanced (instant.now.time - from) instant.now.changed) watched.old.items }
    ensures line { result ≡ summed_line instant.now.time (map (advanced (instant.now.time - from) instant.now.changed) watched.old.items) }
    ensures small { IsModerate result }
{
    let dt = from.until(instant.time);
    advance_all(watched, dt, instant.changed.as_slice());
    line_from(instant.time, watched.as_slice())
}

/// The value so many microseconds later.
fn value_after(value: i128, rate: i128, dt: u128) -> i128
    requires value { unsigned_abs value ≤ 2 ^ 101 }
    requires rate { unsigned_abs rate ≤ 2 ^ 64 }
    requires time { IsTime dt }
    ensures { result ≡ value +ℤ rate *ℤ pos dt }
{
    value + rate * dt as i128
}

/// The value of a straight piece at a later time.
fn value_later(line: &Segment, time: Time) -> i128
    requires small { IsModerate line.now }
    requires time { line.now.from ≤ time }
    ensures { result ≡ segment_value line.now time }
{
    value_after(line.value, line.rate, line.from.micros_until(time))
}

/// Whether a straight piece goes on with the next one.
fn continues(line: &Segment, next: &Segment) -> bool
    requires small { IsModerate line.now }
    requires time { line.now.from ≤ next.now.from }
    ensures { result ≡ (int_eq (segment_value line.now next.now.from) next.now.value && int_eq line.now.rate next.now.rate) }
{
    value_later(line, next.from) == next.value && line.rate == next.rate
}

/// Puts a straight piece behind the others, unless it continues the last one.
fn put(segments: &mut List<Segment>, continues: bool, line: Segment) -> Result<(), OutOfMemory>
    ensures { OnOk result (segments.new ≡ segments.old ++ (if continues then [] else line ∷ [])) }
{
    if continues {
        return Ok(());
    }
    segments.push(line)?;
    Ok(())
}

/// The segments of a linear resource: one pass over the instants that touch one of its cells, with a search by halves for each
/// term among the cells that each of them changed.
pub(crate) fn line_profile(
    alloc: Global,
    model: &Model,
    run: &Run,
    form: &Linear,
    positions: &[usize],
) -> Result<List<Segment>, OutOfMemory>
    requires valid { IsTrue (valid_model model.now) }
    requires fresh { IsFresh model.now run.now.plan run.now.bound run.now }
    requires form { IsTrue (is_sum model.now.cells form.now) }
    requires positions { CoversTouches (IsReadBy form.now.terms) 0 run.now.instants positions.now }
    ensures { IfOk result (λ segments. segments ≡ line_segments (resource_sum model.now run.now form.now) (rate_at model.now run.now form.now) run.now.reach) }
{
    can_be_followed(model, run);
    let instants = run.instants.as_slice();
    let mut segments = List::new(alloc);
    if instants.is_empty() {
        return Ok(segments);
    }
    let first = instant_at(instants, 0);
    if !first.time.is_before(run.reach) {
        return Ok(segments);
    }
    let mut watched = watched_terms(alloc, model, form.terms.as_slice())?;
    let mut line = line_after(&mut watched, Time::zero(), first);
    put(&mut segments, false, line)?;
    for position in behind_first(positions) {
        let instant = instant_at(instants, *position);
        if !instant.time.is_before(run.reach) {
            return Ok(segments);
        }
        let next = line_after(&mut watched, line.from, instant);
        put(&mut segments, continues(&line, &next), next)?;
        line = next;
    }
    Ok(segments)
}
