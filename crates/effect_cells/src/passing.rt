ghost use Rattle.std.specs.Prelude.{◌≡◌, ◌<◌, ◌^◌, true, length};
ghost use Rattle.effect_cells.specs.States.{state_after as after_time, is_in_range};
ghost use Rattle.effect_cells.specs.Cells.{passed, verdict, AreInRange};

use crate::cells::OutOfRange;
use crate::effects::CellState;
use crate::states::{is_in_range, later};
use aerie_base::Time;

/// Whether all cells are in range a time `dt` later.
pub(crate) fn check_later(states: &[CellState], dt: Time) -> Result<(), OutOfRange>
    requires cells { length states.now < 2 ^ 16 }
    requires range { AreInRange states.now }
    ensures { result ≡ verdict (passed states.now dt) }
{
    for (at, state) in states.iter().enumerate() {
        if !stays_in_range(state, dt) {
            return Err(OutOfRange { cell: at as u16 });
        }
    }
    Ok(())
}

/// A state that is in range, a time `dt` later.
fn later_from(state: &CellState, dt: Time) -> CellState
    requires { is_in_range state.now ≡ true }
    ensures { result ≡ after_time dt state.now }
{
    let _micros = dt.get();
    later(state, dt)
}

/// Whether a state that is in range is so a time `dt` later. Only a volume changes by itself.
fn stays_in_range(state: &CellState, dt: Time) -> bool
    requires { is_in_range state.now ≡ true }
    ensures { result ≡ is_in_range (after_time dt state.now) }
{
    match state {
        CellState::Volume { .. } => is_in_range(&later_from(state, dt)),
        CellState::Counter(_) => true,
        CellState::Register { .. } => true,
    }
}

/// A state that is in range moves to a time `dt` later.
fn pass(state: &mut CellState, dt: Time)
    requires { is_in_range state.old ≡ true }
    ensures { state.new ≡ after_time dt state.old }
{
    match state {
        CellState::Volume { .. } => *state = later_from(state, dt),
        CellState::Counter(_) => {}
        CellState::Register { .. } => {}
    }
}

/// Each cell a time `dt` later.
pub(crate) fn pass_each(states: &mut [CellState], dt: Time)
    requires range { AreInRange states.old }
    ensures { states.new ≡ passed states.old dt }
{
    for state in states.iter_mut() {
        pass(state, dt);
    }
}
