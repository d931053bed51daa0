//! States of cells from instant to instant.

ghost use Rattle.std.specs.Prelude.{◌≡◌, true, Some, None, unwrap_or, if◌then◌else◌};
ghost use Rattle.effect_cells.specs.Cells.{first_state, initial};
ghost use Rattle.effect_cells.specs.States.{is_in_range, state_after};
ghost use Rattle.profiles.specs.States.{RiseFrom, changed_state, state_on};

use aerie_base::{CellRead, CellStart, Model, Time};
use effect_cells::{Accumulator, CellKind, CellState};

/// A cell as it is declared.
fn first_state(start: &CellStart) -> CellState
    ensures { result ≡ first_state start.now }
{
    match start {
        CellStart::Counter(number) => CellState::Counter(i128::from(number.get())),
        CellStart::Register { value, .. } => CellState::Register {
            value: *value,
            conflicted: false,
        },
        CellStart::Accumulator { volume, rate } => CellState::Volume {
            volume: i128::from(volume.get()),
            rate: i128::from(*rate),
        },
    }
}

/// The state with which the cell of a read begins.
pub(crate) fn state_at_start(model: &Model, read: CellRead) -> CellState
    ensures { result ≡ state_on (initial model.now) read }
{
    match model.cells().get(usize::from(read.cell())) {
        Some(cell) => first_state(&cell.1),
        None => CellState::Counter(0),
    }
}

/// The state a time `dt` later, where there is no effect.
fn later(state: CellState, dt: Time) -> CellState
    requires { is_in_range state ≡ true }
    ensures { result ≡ state_after dt state }
{
    let _micros = dt.get();
    match state {
        CellState::Volume { volume, rate } => {
            let (volume, rate) = Accumulator::step(&(volume, rate), dt);
            CellState::Volume { volume, rate }
        }
        CellState::Counter(_) | CellState::Register { .. } => state,
    }
}

/// The state, if the test holds.
fn state_if(holds: bool, state: CellState) -> Option<CellState>
    ensures { result ≡ (if holds then Some state else None) }
{
    if holds { Some(state) } else { None }
}

/// The settled state of the cell, if an instant changed it. It takes as many steps as the number of changed cells has digits.
fn found(changed: &[(u16, CellState)], cell: u16) -> Option<CellState>
    requires { RiseFrom 0 changed.now }
    ensures { result ≡ changed_state changed.now cell }
{
    let at = changed.partition_point(|entry| entry.0 < cell);
    match changed.get(at) {
        Some(entry) => state_if(entry.0 == cell, entry.1),
        None => None,
    }
}

/// The state of a cell at the next instant, a time `dt` later.
pub(crate) fn next_state(
    state: CellState,
    cell: u16,
    dt: Time,
    changed: &[(u16, CellState)],
) -> CellState
    requires range { is_in_range state ≡ true }
    requires rise { RiseFrom 0 changed.now }
    ensures { result ≡ unwrap_or (changed_state changed.now cell) (state_after dt state) }
{
    match found(changed, cell) {
        Some(state) => state,
        None => later(state, dt),
    }
}
