ghost use Rattle.std.specs.Prelude.{◌≡◌, pos, ◌≤ℤ◌, nat_le, nat_abs};
ghost use Rattle.std.specs.Int.RustNames.{unsigned_abs};
ghost use Rattle.effect_cells.specs.States.{applied as after_effect, state_after as after_time, is_in_range as has_range, IsSmallState, IsWideState, CanPass};

use crate::accumulators::Accumulator;
use crate::counters::Counter;
use crate::effects::{CellState, Effect};
use crate::kinds::CellKind;
use crate::registers::Register;
use crate::sums::{sum, sum_both};
use aerie_base::{NUMBER_LIMIT, RATE_LIMIT, Time};

/// The greatest number of a counter and the greatest volume.
pub(crate) const MOST: i128 = NUMBER_LIMIT as i128;

/// The greatest rate.
pub(crate) const FASTEST: i128 = RATE_LIMIT as i128;

impl CellState {
    /// The state after the effect, which may be out of its range. The effect is of the kind of the state; one of another
    /// kind leaves it as it is.
    pub fn after(&self, effect: &Effect) -> CellState
        requires { IsSmallState (after_effect self.now effect.now) }
        ensures { result ≡ after_effect self.now effect.now }
    {
        applied(self, effect)
    }
}

/// The state after the effect, which is of its kind.
pub(crate) fn applied(state: &CellState, effect: &Effect) -> CellState
    requires { IsWideState (after_effect state.now effect.now) }
    ensures { result ≡ after_effect state.now effect.now }
{
    match state {
        CellState::Counter(number) => match effect {
            Effect::Add(added) => CellState::Counter(sum(*number, *added)),
            _ => *state,
        },
        CellState::Register { value, conflicted } => match effect {
            Effect::Register(change) => {
                let (value, conflicted) = Register::apply(&(*value, *conflicted), change);
                CellState::Register { value, conflicted }
            }
            _ => *state,
        },
        CellState::Volume { volume, rate } => match effect {
            Effect::Flow {
                volume: more,
                rate: faster,
            } => {
                let (volume, rate) = sum_both(&(*volume, *rate), &(*more, *faster));
                CellState::Volume { volume, rate }
            }
            _ => *state,
        },
    }
}

/// The state a time `dt` later, where there is no effect.
pub(crate) fn later(state: &CellState, dt: Time) -> CellState
    requires { CanPass dt state.now }
    ensures { result ≡ after_time dt state.now }
{
    match state {
        CellState::Counter(number) => CellState::Counter(Counter::step(number, dt)),
        CellState::Register { value, conflicted } => {
            let (value, conflicted) = Register::step(&(*value, *conflicted), dt);
            CellState::Register { value, conflicted }
        }
        CellState::Volume { volume, rate } => {
            let (volume, rate) = Accumulator::step(&(*volume, *rate), dt);
            CellState::Volume { volume, rate }
        }
    }
}

/// Whether the state is in the range of its kind.
pub(crate) fn is_in_range(state: &CellState) -> bool
    ensures { result ≡ has_range state.now }
{
    match state {
        CellState::Counter(number) => is_within(*number, MOST),
        CellState::Register { .. } => true,
        CellState::Volume { volume, rate } => is_within(*volume, MOST) && is_within(*rate, FASTEST),
    }
}

/// Whether the number lies from minus the limit to the limit.
fn is_within(number: i128, limit: i128) -> bool
    requires { pos 0 ≤ℤ limit }
    ensures { result ≡ nat_le (unsigned_abs number) (nat_abs limit) }
{
    -limit <= number && number <= limit
}
