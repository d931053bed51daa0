//! Profiles of discrete resources.

ghost use Rattle.std.specs.Prelude.{◌≡◌, ◌≤◌, ◌<◌, ◌++◌, [], ◌∷◌, true, IsTrue, Some, length, List, if◌then◌else◌, IfOk, OnOk};
ghost use Rattle.aerie_base.specs.models.Resources.{is_shown};
ghost use Rattle.aerie_base.specs.models.ValidModel.{valid_model};
ghost use Rattle.aerie_base.specs.expressions.Readings.{cell_of};
ghost use Rattle.aerie_base.specs.declared.models.Resource.TheVariants as resource;
ghost use Rattle.aerie_base.specs.Ranges.{IsNumber};
ghost use Rattle.aerie_base.specs.declared.values.Value.TheVariants.{Int};
ghost use Rattle.effect_cells.specs.Reads.{state_value};
ghost use Rattle.effect_cells.specs.States.{is_in_range};
ghost use Rattle.run_data.specs.Fresh.{IsFresh};
ghost use Rattle.run_data.specs.Values.{resource_value};
ghost use Rattle.profiles.specs.Segments.{value_segments};
ghost use Rattle.profiles.specs.States.{RiseFrom};
ghost use Rattle.profiles.specs.Showings.{next_showing, first_showing};
ghost use Rattle.profiles.specs.Touches.{CoversTouches};

use crate::runs::{can_be_followed, instant_at};
use crate::states::{next_state, state_at_start};
use crate::touches::behind_first;
use aerie_base::{CellRead, List, Model, Number, OutOfMemory, Time, Value, same_value};
use effect_cells::CellState;
use run_data::{Instant, Run};
use std::alloc::Global;

/// What a discrete resource shows at a settled time of the run.
#[derive(Clone, Copy)]
pub(crate) struct Showing {
    /// The time.
    pub(crate) time: Time,
    /// The state of the cell that is read.
    pub(crate) state: CellState,
    /// The value.
    pub(crate) value: Value,
}

/// A whole number of a model.
fn number(number: i128) -> Value
    requires { IsNumber number }
    ensures { result ≡ Int number }
{
    Value::Int(Number::new(number as i64).unwrap())
}

/// What a read has of a state that is in range.
fn shown(read: CellRead, state: &CellState) -> Value
    requires { is_in_range state.now ≡ true }
    ensures { result ≡ state_value read (Some state.now) }
{
    match (read, state) {
        (CellRead::Counter(_), CellState::Counter(count)) => number(*count),
        (CellRead::Register(_), CellState::Register { value, .. }) => *value,
        (CellRead::Conflicted(_), CellState::Register { conflicted, .. }) => {
            Value::Truth(*conflicted)
        }
        (CellRead::Volume(_), CellState::Volume { volume, .. }) => number(*volume),
        (CellRead::Rate(_), CellState::Volume { rate, .. }) => number(*rate),
        _ => number(0),
    }
}

/// What is shown as the run begins, before any instant.
fn at_start(model: &Model, read: CellRead) -> Showing
    requires { is_in_range (first_showing model.now read).state ≡ true }
    ensures { result ≡ first_showing model.now read }
{
    let state = state_at_start(model, read);
    Showing {
        time: Time::zero(),
        state,
        value: shown(read, &state),
    }
}

/// What is shown once the next instant is settled.
fn after_instant(showing: &Showing, read: CellRead, instant: &Instant) -> Showing
    requires time { showing.now.time ≤ instant.now.time }
    requires range { is_in_range showing.now.state ≡ true }
    requires rise { RiseFrom 0 instant.now.changed }
    requires settled { is_in_range (next_showing showing.now read instant.now).state ≡ true }
    ensures { result ≡ next_showing showing.now read instant.now }
{
    let dt = showing.time.until(instant.time);
    let state = next_state(showing.state, read.cell(), dt, instant.changed.as_slice());
    Showing {
        time: instant.time,
        state,
        value: shown(read, &state),
    }
}

/// Puts a segment behind the others, unless it continues the last one.
fn put(
    segments: &mut List<(Time, Value)>,
    continues: bool,
    showing: &Showing,
) -> Result<(), OutOfMemory>
    ensures { OnOk result (segments.new ≡ segments.old ++ (if continues then [] else (showing.now.time, showing.now.value) ∷ [])) }
{
    if continues {
        return Ok(());
    }
    segments.push((showing.time, showing.value))?;
    Ok(())
}

/// The segments of a discrete resource: one pass over the instants that touch its cell, with a search by halves among the cells
/// that each of them changed.
pub(crate) fn value_profile(
    alloc: Global,
    model: &Model,
    run: &Run,
    read: CellRead,
    positions: &[usize],
) -> Result<List<(Time, Value)>, OutOfMemory>
    requires valid { IsTrue (valid_model model.now) }
    requires fresh { IsFresh model.now run.now.plan run.now.bound run.now }
    requires shown { IsTrue (is_shown read) }
    requires there { cell_of read < length model.now.cells }
    requires positions { CoversTouches (λ cell. cell ≡ cell_of read) 0 run.now.instants positions.now }
    ensures { IfOk result (λ segments. segments ≡ value_segments (resource_value model.now run.now (resource.Discrete read)) run.now.reach) }
{
    can_be_followed(model, run);
    let instants = run.instants.as_slice();
    let mut segments = List::new(alloc);
    if instants.is_empty() {
        return Ok(segments);
    }
    let first = instant_at(instants, 0);
    if !first.time.is_before(run.reach) {
        return Ok(segments);
    }
    let mut showing = after_instant(&at_start(model, read), read, first);
    put(&mut segments, false, &showing)?;
    for position in behind_first(positions) {
        let instant = instant_at(instants, *position);
        if !instant.time.is_before(run.reach) {
            return Ok(segments);
        }
        let next = after_instant(&showing, read, instant);
        put(
            &mut segments,
            same_value(&showing.value, &next.value),
            &next,
        )?;
        showing = next;
    }
    Ok(segments)
}
