ghost use Rattle.std.specs.Prelude.{◌≡◌, true, map, IfOk};
ghost use Rattle.std.specs.List.{list_all};
ghost use Rattle.effect_cells.specs.States.{is_in_range};
ghost use Rattle.effect_cells.specs.Cells.{first_state as as_declared, begins_in_range, AreInRange};

use crate::effects::CellState;
use aerie_base::{CellStart, Name, OutOfMemory};
use std::alloc::Global;

/// The states of cells as they are declared.
pub(crate) fn first_states(
    alloc: Global,
    starts: &[(Name, CellStart)],
) -> Result<Vec<CellState>, OutOfMemory>
    requires { list_all (λ cell. begins_in_range cell.1) starts.now ≡ true }
    ensures value { IfOk result (λ states. states.items ≡ map (λ cell. as_declared cell.1) starts.now) }
    ensures range { IfOk result (λ states. AreInRange states.items) }
{
    let mut states = Vec::new(alloc);
    for start in starts {
        states.push(first_state(&start.1))?;
    }
    Ok(states)
}

/// The state of a cell as it is declared.
fn first_state(start: &CellStart) -> CellState
    requires { begins_in_range start.now ≡ true }
    ensures value { result ≡ as_declared start.now }
    ensures range { is_in_range result ≡ true }
{
    match start {
        CellStart::Counter(number) => CellState::Counter(number.get() as i128),
        CellStart::Register { value, .. } => CellState::Register {
            value: *value,
            conflicted: false,
        },
        CellStart::Accumulator { volume, rate } => CellState::Volume {
            volume: volume.get() as i128,
            rate: *rate as i128,
        },
    }
}
