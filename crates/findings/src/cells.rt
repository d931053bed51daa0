//! The cells of a run at a time.

ghost use Rattle.std.specs.Prelude.{◌≡◌, ◌-◌, true, IfOk, slice_set};
ghost use Rattle.std.specs.List.{All};
ghost use Rattle.aerie_base.specs.plans.OfModel.{IsPlanOf};
ghost use Rattle.effect_cells.specs.Cells.{first_state, initial};
ghost use Rattle.effect_cells.specs.States.{is_in_range, state_after};
ghost use Rattle.run_data.specs.Fresh.{IsFresh};
ghost use Rattle.run_data.specs.Values.{cells_at};
ghost use Rattle.findings.specs.SettledStates.{AreAllInRange, settled_at_start, settled_until, states_then, with_settled};

use aerie_base::{CellStart, List, Model, OutOfMemory, Shared, Time};
use effect_cells::{Accumulator, CellKind, CellState};
use run_data::laws::{instants_rise, reached_states_are_of_the_model};
use run_data::{Instant, Run};
use std::alloc::Global;

/// When a cell was settled, and its state then.
type Settled = (Time, CellState);

/// A cell as it is declared.
fn first_state(start: &CellStart) -> CellState
    ensures { result ≡ first_state start.now }
{
    match start {
        CellStart::Counter(number) => CellState::Counter(i128::from(number.get())),
        CellStart::Register { value, .. } => CellState::Register {
            value: *value,
            conflicted: false,
        },
        CellStart::Accumulator { volume, rate } => CellState::Volume {
            volume: i128::from(volume.get()),
            rate: i128::from(*rate),
        },
    }
}

/// The cells as they are declared, at time 0.
fn settled_at_start(alloc: Global, model: &Model) -> Result<Vec<Settled>, OutOfMemory>
    ensures { IfOk result (λ states. states.items ≡ settled_at_start (initial model.now)) }
{
    let cells = model.cells();
    let mut states = Vec::with_capacity(alloc, cells.len())?;
    for cell in cells {
        states.push((Time::zero(), first_state(&cell.1)))?;
    }
    Ok(states)
}

/// A cell is settled, if it is one of these.
fn settle(states: &mut Vec<Settled>, time: Time, cell: u16, state: CellState)
    ensures { states.new.items ≡ slice_set states.old.items cell (time, state) }
{
    let at = usize::from(cell);
    if at < states.len() {
        states[at] = (time, state);
    }
}

/// The cells that changed at a time are settled.
fn settle_changed(states: &mut Vec<Settled>, time: Time, changed: &[(u16, CellState)])
    ensures { states.new.items ≡ with_settled time states.old.items changed.now }
{
    for one in changed {
        settle(states, time, one.0, one.1);
    }
}

/// What the instants until a time changed is settled.
fn settle_until(states: &mut Vec<Settled>, instants: &[Shared<Instant>], t: Time)
    ensures { states.new.items ≡ settled_until t states.old.items instants.now }
{
    for instant in instants {
        let instant = instant.get();
        if !instant.time.is_by(t) {
            return;
        }
        settle_changed(states, instant.time, instant.changed.as_slice());
    }
}

/// The state a time `dt` later, where there is no effect.
fn later(state: CellState, dt: Time) -> CellState
    requires { is_in_range state ≡ true }
    ensures { result ≡ state_after dt state }
{
    let _micros = dt.get();
    match state {
        CellState::Volume { volume, rate } => {
            let (volume, rate) = Accumulator::step(&(volume, rate), dt);
            CellState::Volume { volume, rate }
        }
        CellState::Counter(_) | CellState::Register { .. } => state,
    }
}

/// The states at a time that is not before any of them was settled.
fn states_then(alloc: Global, states: &[Settled], t: Time) -> Result<List<CellState>, OutOfMemory>
    requires { AreAllInRange states.now }
    ensures { IfOk result (λ cells. cells ≡ states_then t states.now) }
{
    let mut cells = List::with_capacity(alloc, states.len())?;
    for settled in states {
        cells.push(later(settled.1, settled.0.until(t)))?;
    }
    Ok(cells)
}

/// The cells of a fresh run at a time, in the order of the model: what its instants until then made of them, gone on by itself
/// since. It goes once over what the instants changed.
pub fn cells_at(
    alloc: Global,
    model: &Model,
    run: &Run,
    t: Time,
) -> Result<List<CellState>, OutOfMemory>
    requires fresh { IsFresh model.now run.now.plan run.now.bound run.now }
    requires plan { IsPlanOf model.now run.now.plan }
    ensures { IfOk result (λ cells. cells ≡ cells_at model.now run.now t) }
{
    reached_states_are_of_the_model();
    instants_rise();
    let _cells = model.cells();
    let mut states = settled_at_start(alloc, model)?;
    settle_until(&mut states, run.instants.as_slice(), t);
    states_then(alloc, states.as_slice(), t)
}
