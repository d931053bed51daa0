//! Values that stay from step to step.

ghost use Rattle.std.specs.Prelude.{◌≡◌, ◌+◌, ◌<◌, drop, length, map, IfOk};
ghost use Rattle.aerie_base.specs.Ranges.{IsNumber};
ghost use Rattle.aerie_base.specs.expressions.Arithmetic.{number_in};
ghost use Rattle.constraints.specs.HeldTimes.{HasTimes};
ghost use Rattle.constraints.specs.Holding.{equals_or_not};
ghost use Rattle.constraints.specs.Steps.{AreSteps, HaveNumbers, flat, first_step, step_equals, truth_step};

use crate::span_times::put_if;
use aerie_base::{List, OutOfMemory, Time, Value, same_value};
use std::alloc::Global;
use windows::{Segment, Windows};

/// Equal, or unequal.
fn is_equal(equal: bool, same: bool) -> bool
    ensures { result ≡ equals_or_not equal same }
{
    if equal { same } else { !same }
}

/// Where the step at this place ends: where the next one begins, or at the reach.
fn end_of(reach: Time, steps: &[(Time, Value)], at: usize) -> Time
    requires { at < length steps.now }
    ensures { result ≡ first_step reach (drop (at + 1) steps.now) }
{
    match steps.get(at + 1) {
        Some(next) => next.0,
        None => reach,
    }
}

/// The times below the reach at which the value is equal to another, or unequal. It takes steps as the value does.
pub(crate) fn times_equal(
    alloc: Global,
    reach: Time,
    steps: &[(Time, Value)],
    value: &Value,
    equal: bool,
) -> Result<Windows, OutOfMemory>
    requires steps { AreSteps reach steps.now }
    ensures reach { IfOk result (λ made. made.reach ≡ reach) }
    ensures times { IfOk result (HasTimes (step_equals equal steps.now value.now)) }
{
    let mut times = Vec::new(alloc);
    for at in 0..steps.len() {
        let step = steps[at];
        let same = same_value(&step.1, value);
        let test = is_equal(equal, same);
        let end = end_of(reach, steps, at);
        put_if(&mut times, test, (step.0, end))?;
    }
    let found = times.as_slice();
    let made = Windows::of_spans(alloc, reach, found)?;
    Ok(made)
}

/// A truth as a value.
fn truth_step(entry: &(Time, bool)) -> (Time, Value)
    ensures { result ≡ truth_step entry.now }
{
    (entry.0, Value::Truth(entry.1))
}

/// Truths as values.
pub(crate) fn truth_steps(
    alloc: Global,
    entries: &[(Time, bool)],
) -> Result<List<(Time, Value)>, OutOfMemory>
    ensures { IfOk result (λ made. made ≡ map truth_step entries.now) }
{
    let mut made = List::new(alloc);
    for entry in entries {
        let step = truth_step(entry);
        made.push(step)?;
    }
    Ok(made)
}

/// The whole number that a value is; 0 for a value of another type.
fn number_of(value: &Value) -> i128
    ensures value { result ≡ number_in value.now }
    ensures range { IsNumber result }
{
    match value {
        Value::Int(number) => i128::from(number.get()),
        _ => 0,
    }
}

/// A whole number that stays, as a straight piece.
fn flat_segment(step: &(Time, Value)) -> Segment
    ensures value { result ≡ flat step.now }
    ensures range { IsNumber result.value }
{
    Segment {
        from: step.0,
        value: number_of(&step.1),
        rate: 0,
    }
}

/// Whole numbers that stay, as straight pieces.
pub(crate) fn flat_segments(
    alloc: Global,
    steps: &[(Time, Value)],
) -> Result<List<Segment>, OutOfMemory>
    ensures exact { IfOk result (λ made. made ≡ map flat steps.now) }
    ensures ranges { IfOk result HaveNumbers }
{
    let mut made = List::new(alloc);
    for step in steps {
        let piece = flat_segment(step);
        made.push(piece)?;
    }
    Ok(made)
}
